//! What the search by nets finds: the squares of the one tiling that a complete word can meet, as they were placed or
//! turned.
#![tactic(auto)]

mod class;
mod corners;
mod laws;
mod levels;
mod lines;
mod placing;
mod ties;
mod turning;

pub use laws::the_candidate_is_the_tiling;
pub use placing::{Placed, candidate_of};
pub use ties::Ties;
pub use turning::{best_turn, lying_size, turned_squares};
