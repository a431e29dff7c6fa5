//! Rows of the crates on sources, lines, walks and answers: tables of worked cases, by the public calls alone.
#![tactic(auto)]

#[cfg(test)]
mod rows;
