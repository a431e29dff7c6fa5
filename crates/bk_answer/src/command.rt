//! The commands that answer lines.

use crate::plain::PlainCommand;

/// A command that answers lines, and takes memory for an item of more than 16 squares or wires.
#[derive(Clone, Copy)]
pub enum MemoryCommand {
    /// The word of each code: the squares laid valley by valley.
    Word,
    /// The currents of networks: it reads network lines.
    Flow,
    /// The tilings of words: it reads word lines.
    Solve,
}

/// A command that answers lines, each for itself.
#[derive(Clone, Copy)]
pub enum Command {
    /// It takes no memory.
    Plain(PlainCommand),
    /// It takes memory for large items.
    Memory(MemoryCommand),
}
