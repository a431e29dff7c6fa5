//! The search for normal images by their nets: it meets each word that is sought, and none whose beginning is known to
//! be barren.
#![tactic(auto)]

mod ahead;
mod all_under;
mod asking;
mod behind;
mod board;
mod counts;
mod cuts;
mod joining;
mod last_square;
mod line_set;
mod marks;
mod node_lines;
mod questions;
mod searching;
mod sides;
mod state;
mod strong;
mod top_lines;

pub use board::Board;
pub use counts::Counts;
pub use searching::{Leaves, search};
