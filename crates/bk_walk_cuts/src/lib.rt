//! What a walk through the tree of words asks of its moves: which come next, and which are passed over because no
//! member's word goes on by them. Some are by counts; others by equations and comparisons between the sides of a word's
//! squares.
#![tactic(auto)]

mod asking;
mod barren;
mod laws;
mod levels;
mod lined;
mod moves;
mod owing;
mod tracing;

pub use barren::{is_barren, skip};
pub use laws::{moves_hold, ruled_out_is_barren};
pub use lined::LinedSkel;
pub use moves::{begin_anew, first_move, least_legal_from, next_move};
pub use tracing::Tracing;
