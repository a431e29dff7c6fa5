//! Linear forms over the sides of squares, and equations that are kept among them.
#![tactic(auto)]

mod form;
mod laws;
mod ledger;
mod reduction;

pub use form::{Form, MOST_SIDES};
pub use laws::{a_comparison_is_sound, a_contradiction_is_sound, an_addition_is_exact};
pub use ledger::{Compared, Kept, Ledger};
