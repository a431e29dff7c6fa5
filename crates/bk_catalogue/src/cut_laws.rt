//! With which moves no member's word begins.

ghost use Rattle.bk_catalogue.specs.Cuts.{EvenSquaresAreBarren, OneSegmentIsBarren, OneUnderOneIsBarren};
ghost use Rattle.bk_catalogue.specs.Cuts.{ShorterFirstIsBarren};
ghost use Rattle.bk_catalogue.specs.BoundCuts.{TooManyLinesIsBarren, TooManySinglesIsBarren, TooManyToCloseIsBarren};

/// No member's word goes on from moves that leave one segment, while they hang fewer squares than the order.
pub fn one_segment_is_barren()
    ensures { OneSegmentIsBarren }
{}

/// No member's word, of the class perfect or of an order of at least 3, has a move with the sign even between two of
/// its own squares.
pub fn even_squares_are_barren()
    ensures { EvenSquaresAreBarren }
{}

/// No member's word has a move of one square that closes a segment of just one square.
pub fn one_under_one_is_barren()
    ensures { OneUnderOneIsBarren }
{}

/// No member's word begins with a move of two squares of which the left one is the shorter.
pub fn shorter_first_is_barren()
    ensures { ShorterFirstIsBarren }
{}

/// No member's word goes on from moves after which fewer squares are left than segments that must be closed.
pub fn too_many_to_close_is_barren()
    ensures { TooManyToCloseIsBarren }
{}

/// No member's word of an order of at least 2 goes on from moves after which fewer squares are left than segments that
/// must be closed and valleys of one square.
pub fn too_many_singles_is_barren()
    ensures { TooManySinglesIsBarren }
{}

/// No member's word of an order of at least 3 goes on from moves after which fewer squares are left than segments that
/// must be closed, with those on which vertical lines from the top end, and valleys of one square.
pub fn too_many_lines_is_barren()
    ensures { TooManyLinesIsBarren }
{}
