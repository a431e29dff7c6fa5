//! What the definition of a listing comes to.

ghost use Rattle.bk_alike.specs.OneListing.{LinesHaveOneListing};

/// Lines have one listing: the replies to them, the items that are kept and the number of refused lines are a function
/// of the lines, and so is all that is written of them.
pub fn lines_have_one_listing()
    ensures { LinesHaveOneListing }
{}
