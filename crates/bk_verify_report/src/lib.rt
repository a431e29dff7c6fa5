//! Lists that are held against a catalogue: what an entry of a list is among all its entries, what is told of the
//! lines, and the report that they make.
#![tactic(auto)]

mod closing;
mod entering;
mod entries;
mod kept;
mod laws;
mod missing_line;
mod reading;
mod rest;
mod run;

pub use entries::{Entries, Fed, NoMemory};
pub use laws::{
    a_list_has_one_report, a_verifier_tells_the_truth, an_entry_is_told_one_thing,
    missing_ones_are_not_kept, truths_stay,
};
pub use rest::Rest;
pub use run::verify;
