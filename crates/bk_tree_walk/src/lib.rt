//! A walk through the tree of legal words, in ascending order, that looks for the words of a catalogue's members.
#![tactic(auto)]

mod judging;
mod realising;
mod resuming;
mod tree_walk;

pub use tree_walk::TreeWalk;

/// Where one step of a walk leads.
pub enum Went {
    /// on to a later place
    On,
    /// to the word of a member
    Met,
    /// to the end of the tree
    End,
}
