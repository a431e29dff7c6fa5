//! Which open segments are marked: those that a line from the top bounds or that one ended on, and those with as many
//! squares as the top. None of them is the last one.

ghost use Rattle.std.specs.List.{sum};
ghost use Rattle.std.specs.Prelude.{IsTrue, false, length, slice_index_or, true, ℕ, ◌+◌, ◌<◌, ◌≡◌, ◌≤◌, ◌⊎◌};
ghost use Rattle.bk_catalogue.specs.VerticalCut.{begins_on_line, edges_on_lines};
ghost use Rattle.bk_word.specs.Outline.{sizes_of, valley_of};
ghost use Rattle.bk_word.specs.Play.{outline_of};
ghost use Rattle.bk_word.specs.Word.{order_of};
ghost use Rattle.bk_play.specs.SmallSkeleton.{IsValleyPlace};
ghost use Rattle.bk_layout.specs.WordNumbers.{first_count};
ghost use Rattle.bk_free_search.specs.Apart.{marks_of_word};
ghost use Rattle.bk_free_search.specs.AskedSigns.{AreMarks};
ghost use Rattle.bk_free_search.specs.NodeLines.{Has};
ghost use Rattle.bk_free_search.specs.Strong.{AreFilled, marks_by_lists};
ghost use Rattle.bk_free_search.specs.TopLines.{AreSquares, HasOneFrom, on_top_lines};
ghost use Rattle.bk_free_search.specs.declared.line_set.TheConstants.{MOST_LINES};
ghost use Rattle.bk_word.specs.declared.TheConstants.{INLINE_ORDER};

use crate::board::Board;
use crate::line_set::{LineSet, MOST_LINES, no_line, with_place};
use crate::top_lines::{is_top_line, places_on_lines};
use bk_play::ValleyPlace;

/// The places of marked segments of a board.
pub(crate) fn marks_of(board: &Board) -> LineSet
    requires few { order_of board.now ≤ INLINE_ORDER }
    ensures { AreMarks board.now result }
{
    let skel = board.skel();
    marks_in(skel.sizes(), skel.ends(), board.lefts(), board.first())
}

// The places of marked segments, of which these are the sizes and the square numbers, by the left line of each square
// and how many squares hang from the top.
fn marks_in(sizes: &[u8], ends: &[u8], lefts: &[u8], top: u8) -> LineSet
    requires whole { sum sizes.now ≡ length ends.now }
    requires many { length ends.now ≤ INLINE_ORDER }
    requires filled { AreFilled sizes.now }
    requires squares { AreSquares ends.now (length lefts.now) }
    ensures { (i : ℕ) → Has result i
        → slice_index_or (marks_by_lists top (on_top_lines top lefts.now) sizes.now ends.now) i false ≡ true }
{
    let on_lines = places_on_lines(ends, lefts, top);
    let mut marks = no_line();
    let mut start: usize = 0;
    'segments: for i in 0..sizes.len() {
        let size = usize::from(sizes[i]);
        marks = with_place(marks, i, is_marked(on_lines, start, size, top));
        start += size;
    }
    marks
}

// Whether a segment of so many squares from a place on is marked, by the places of the squares at lines from the top.
fn is_marked(on_lines: LineSet, start: usize, size: usize, top: u8) -> bool
    requires start { start < MOST_LINES }
    requires size { size + 1 < MOST_LINES }
    ensures { IsTrue result → HasOneFrom on_lines start size ⊎ (top ≤ size) }
{
    has_one(on_lines, start, size) || usize::from(top) <= size
}

// Whether one of so many places from one on is among these, or the one behind them.
fn has_one(places: LineSet, start: usize, many: usize) -> bool
    requires start { start < MOST_LINES }
    requires many { many + 1 < MOST_LINES }
    ensures { IsTrue result → HasOneFrom places start many }
{
    (places.bits >> start) & ((1 << (many + 1)) - 1) != 0
}

/// Whether a line from the top stands at the left of the valley.
pub(crate) fn is_left_on_line(board: &Board, valley: &ValleyPlace) -> bool
    requires { IsValleyPlace board.now valley.now }
    ensures { IsTrue result → begins_on_line (edges_on_lines board.now) (valley_of (outline_of board.now)) ≡ true }
{
    let line = board.left_end(&board.skel().ends()[valley.start..valley.end]);
    is_top_line(board.first(), line)
}

/// Whether the segment at a place, one of those that a set keeps, is among the marked ones.
#[inline]
pub(crate) fn has_mark(marks: LineSet, place: usize) -> bool
    ensures { result ≡ true → Has marks place }
{
    place < MOST_LINES && (marks.bits >> place) & 1 == 1
}

/// Whether the segment at a place is marked, or is with one square more.
pub(crate) fn is_wide_then(board: &Board, marks: LineSet, place: usize) -> bool
    requires marks { AreMarks board.now marks }
    requires place { place ≤ length (outline_of board.now).signs }
    ensures { result ≡ true → (slice_index_or (marks_of_word board.now) place false ≡ true)
        ⊎ (first_count board.now ≤ slice_index_or (sizes_of (outline_of board.now)) place 0 + 1) }
{
    if has_mark(marks, place) {
        return true;
    }
    board.first() <= board.skel().sizes()[place].saturating_add(1)
}
