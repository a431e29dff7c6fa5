//! Rows of the search through free words, of its leaves, of the tables of members that it fills and of walks that ask
//! them, by the public calls alone.
#![tactic(auto)]

#[cfg(test)]
mod rows;
