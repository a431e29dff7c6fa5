//! The word of a tiling.
#![tactic(auto)]

mod laws;
mod laying;
mod outline;
mod signs;

pub use laws::{
    a_tiling_has_one_word, a_tiling_word_is_complete, every_tiling_has_a_word,
    the_leftmost_valley_is_the_first_rise,
};
pub use laying::{Laying, word_of};
pub use signs::sign_between;
