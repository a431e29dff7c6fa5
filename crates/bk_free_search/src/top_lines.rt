//! The segments that lines touch which run from the top between squares of the first move.

ghost use Rattle.std.specs.Prelude.{length, slice_index_or, true, ℕ, ◌<◌, ◌≡◌, ◌≤◌};
ghost use Rattle.bk_catalogue.specs.VerticalCut.{on_line};
ghost use Rattle.bk_free_search.specs.NodeLines.{Has};
ghost use Rattle.bk_free_search.specs.TopLines.{AreSquares, is_top_line, on_top_lines};
ghost use Rattle.bk_word.specs.declared.TheConstants.{INLINE_ORDER};

use crate::line_set::{LineSet, no_line, with_place};

/// The places of those of these squares whose left edges lie on lines from the top, between two squares of a first move
/// of so many.
pub(crate) fn places_on_lines(ends: &[u8], lefts: &[u8], first: u8) -> LineSet
    requires few { length ends.now ≤ INLINE_ORDER }
    requires squares { AreSquares ends.now (length lefts.now) }
    ensures { (j : ℕ) → Has result j
        → (j < length ends.now) × (on_line (on_top_lines first lefts.now) (slice_index_or ends.now j 0) ≡ true) }
{
    let mut places = no_line();
    'ends: for place in 0..ends.len() {
        places = with_place(places, place, on_line(lefts, first, ends[place]));
    }
    places
}

// Whether the left edge of the square of this number, from 1, lies on a line from the top.
fn on_line(lefts: &[u8], first: u8, square: u8) -> bool
    requires least { 1 ≤ square }
    requires most { square ≤ length lefts.now }
    ensures { result ≡ on_line (on_top_lines first lefts.now) square }
{
    is_top_line(first, lefts[usize::from(square) - 1])
}

/// Whether the line of this number begins between two squares of a first move of so many. Such lines have the numbers
/// from 2 on, and are one less than the squares; a wall's number wraps to a great one.
pub(crate) fn is_top_line(first: u8, line: u8) -> bool
    ensures { result ≡ is_top_line first line }
{
    line.wrapping_sub(2) < first.saturating_sub(1)
}
