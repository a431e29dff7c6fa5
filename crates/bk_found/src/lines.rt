//! The lines and the wires by which a candidate is placed.

ghost use Rattle.bk_found.specs.KnownLines.{IsCandidate};

use crate::levels::NODES;

// What is known of a candidate before its squares are placed. Of each square: the nodes between which its wire leads,
// its current, the line at its left, and where it ends. Besides, the levels of the nodes, the total, and the last node.
#[derive(Drop)]
pub(crate) struct Candidate<'a> {
    pub(crate) wires: &'a [(u16, u16)],
    pub(crate) currents: &'a [i64],
    pub(crate) lefts: &'a [u8],
    pub(crate) rights: &'a [i64],
    pub(crate) levels: &'a [i64; NODES],
    pub(crate) total: i64,
    pub(crate) last: u16,
    ghost known: { IsCandidate (record {
      wires = wires.now;
      currents = currents.now;
      lefts = lefts.now;
      rights = rights.now;
      total = total;
      last = last;
    }) levels.now },
}
