//! Laws of lists, tests and numbers that the standard library lacks. Here is no function: the proofs of the crates
//! above cite them.
#![tactic(auto)]
