//! A law of dual diagrams, which its clause says: the function does nothing.

ghost use Rattle.bk_dual.specs.NodeSum.{NodesAndCrossings};

/// The nodes of the Smith diagram, those of the dual diagram, and the crossings are three more than the squares
/// (Euler).
pub fn nodes_and_crossings()
    ensures { NodesAndCrossings }
{}
