//! How many squares a complete word still hangs at least.

ghost use Rattle.bk_catalogue.specs.ClosingBound.{TheClosingBoundIsMost};
ghost use Rattle.bk_catalogue.specs.VerticalCut.{TheLineBoundIsMost};
ghost use Rattle.bk_catalogue.specs.WordBounds.{ClosingsAreHung, LinesAreHung, SinglesAreHung};

/// The closing bound is the greatest number of closings.
pub fn the_closing_bound_is_most()
    ensures { TheClosingBoundIsMost }
{}

/// The line bound is the greatest number of closings, where a segment that a line touches has one more.
pub fn the_line_bound_is_most()
    ensures { TheLineBoundIsMost }
{}

/// After its first moves a complete word hangs at least as many squares as segments must be closed.
pub fn closings_are_hung()
    ensures { ClosingsAreHung }
{}

/// After its first moves a complete word without pairs hangs at least as many squares as segments must be closed, and
/// one more for each valley of one square.
pub fn singles_are_hung()
    ensures { SinglesAreHung }
{}

/// After its first moves a complete word without pairs, to whose last segment no line from the top comes down, hangs at
/// least as many squares as the line bound, and one more for each valley of one square.
pub fn lines_are_hung()
    ensures { LinesAreHung }
{}
