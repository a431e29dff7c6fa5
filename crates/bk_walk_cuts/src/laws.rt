//! Laws on the moves of words, which their clauses say: the functions do nothing.

ghost use Rattle.bk_walk_cuts.specs.RuledOutCut.{RuledOutIsBarren};
ghost use Rattle.bk_walk_cuts.specs.SidesOfTilings.{MovesHold};

/// The sides of a tiling meet what its word says: of the widths of segments, of the levels beside each sign, and of the
/// bottoms of the squares.
pub fn moves_hold()
    ensures { MovesHold }
{}

/// No member's word begins with moves that are ruled out in its class.
pub fn ruled_out_is_barren()
    ensures { RuledOutIsBarren }
{}
