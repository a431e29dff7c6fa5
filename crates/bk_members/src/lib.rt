//! The members of a catalogue, one after another, for whoever lists them: a listing and `verify` know no walk.
#![tactic(auto)]

mod members;

pub use members::{Entry, Members, WideAt};
