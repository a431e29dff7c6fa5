//! Rows of the crates on lists: tables of worked cases, by the public calls alone.
#![tactic(auto)]

#[cfg(test)]
mod rows;
