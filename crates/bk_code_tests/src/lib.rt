//! Rows of the crates on tilings and their codes: tables of worked cases, by the public calls alone.
#![tactic(auto)]

#[cfg(test)]
mod rows;
