//! A verifier of a list against a catalogue, and the members that the list lacks.
#![tactic(auto)]

mod verifier;

pub use bk_verify_report::{
    Fed, NoMemory, a_list_has_one_report, a_verifier_tells_the_truth, an_entry_is_told_one_thing,
    missing_ones_are_not_kept, truths_stay,
};
pub use verifier::Verifier;

/// What a verifier leaves: its walk goes through the catalogue and gives each member that isn't kept.
pub type Rest = bk_verify_report::Rest<bk_walk::Walk>;
