//! Words packed into numbers, which compare as the words do; and tables of such numbers, in which the words that were
//! found are kept.
#![tactic(auto)]

mod digits;
mod laws;
mod number_table;
mod packed;
mod reading;
mod sorting;

pub use laws::{packed_places_compare, packed_words_compare};
pub use number_table::NumberTable;
pub use packed::{Packed, number_with};
pub use reading::{read_next, shared_moves};
