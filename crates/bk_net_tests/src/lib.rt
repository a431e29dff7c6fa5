//! Rows of the crates on networks, words and skeletons: tables of worked cases, by the public calls alone.
#![tactic(auto)]

#[cfg(test)]
mod rows;
