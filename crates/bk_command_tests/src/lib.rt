//! Rows of the program's commands: tables of command lines with what they ask, and of runs with what is written and the
//! status.
#![tactic(auto)]

#[cfg(test)]
mod rows;
