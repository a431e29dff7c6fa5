//! Words that are played and taken back move by move, and the nets of complete ones.
#![tactic(auto)]

mod counting;
mod netting;
mod parting;
mod records;
mod skeleton;
mod small;
mod splicing;

pub use counting::Steps;
pub use records::MoveRecord;
pub use skeleton::{Skel, Valley, open_side};
pub use small::{SmallMove, SmallOutline, SmallSkel, ValleyPlace, small_net};
pub use splicing::splice_numbers;
