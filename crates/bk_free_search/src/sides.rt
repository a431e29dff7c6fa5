//! The lines at the sides of squares, by numbers: 0 is the left wall, 1 the right one, and k + 2 the line between the
//! square at place k, in the order of hanging from 0, and the next of its move.

ghost use Rattle.std.specs.Prelude.{[], length, slice_index_or, ℕ, ◌++◌, ◌+◌, ◌-◌, ◌<◌, ◌∷◌, ◌≡◌, ◌≤◌};
ghost use Rattle.bk_word.specs.Play.{numbers_from};
ghost use Rattle.bk_free_search.specs.Lefts.{first_left};
ghost use Rattle.bk_free_search.specs.NodeLines.{AreLow, Has, IsLineOfOne};
ghost use Rattle.bk_free_search.specs.Rights.{last_right};
ghost use Rattle.bk_free_search.specs.TopLines.{AreSquares};
ghost use Rattle.bk_word.specs.declared.TheConstants.{INLINE_ORDER, LARGEST_ORDER};

use crate::line_set::{LEFT_WALL, LineSet, RIGHT_WALL, no_line, with_line};
use bk_short::Short;
use bk_word::INLINE_ORDER;

/// The line at the left of the first of the squares, by their numbers from 1: the left wall where there are none.
pub(crate) fn left_of_first(lefts: &[u8], squares: &[u8]) -> u8
    requires { AreSquares squares.now (length lefts.now) }
    ensures { result ≡ first_left lefts.now squares.now }
{
    match squares.first() {
        Some(square) => line_at(lefts, *square),
        None => LEFT_WALL,
    }
}

/// The line at the right of the last of the squares, by their numbers from 1: the right wall where there are none.
pub(crate) fn right_of_last(rights: &[u8], squares: &[u8]) -> u8
    requires { AreSquares squares.now (length rights.now) }
    ensures { result ≡ last_right rights.now squares.now }
{
    if squares.is_empty() {
        return RIGHT_WALL;
    }
    line_at(rights, squares[squares.len() - 1])
}

/// The line at one side of the square of this number, from 1, which is one of the squares whose lines these are.
pub(crate) fn line_at(lines: &[u8], square: u8) -> u8
    requires least { 1 ≤ square }
    requires most { square ≤ length lines.now }
    ensures { (wall : ℕ) → result ≡ slice_index_or lines.now (square - 1) wall }
{
    lines[usize::from(square) - 1]
}

/// The lines at one side of the squares of these numbers.
pub(crate) fn lines_of(lines: &[u8], squares: &[u8]) -> LineSet
    requires lines { AreLow lines.now }
    requires squares { AreSquares squares.now (length lines.now) }
    ensures { (wall line : ℕ) → Has result line → IsLineOfOne lines.now squares.now wall line }
{
    let mut found = no_line();
    'squares: for square in squares {
        found = with_line(found, line_at(lines, *square));
    }
    found
}

/// Appends the left lines of a move's squares, of which the first stands at a line, where so many squares were hung
/// before.
pub(crate) fn push_lefts(lefts: &mut Short<u8, INLINE_ORDER>, first: u8, hung: u8, count: u8)
    requires some { 0 < count }
    requires few { hung + count ≤ LARGEST_ORDER }
    requires fits { length lefts.old.items + count ≤ INLINE_ORDER }
    ensures { lefts.new.items ≡ lefts.old.items ++ first ∷ numbers_from (hung + 2) (count - 1) }
{
    lefts.push(first);
    push_between(lefts, hung, count);
}

/// Appends the right lines of a move's squares, of which the last one stands at a line, where so many squares were hung
/// before.
pub(crate) fn push_rights(rights: &mut Short<u8, INLINE_ORDER>, last: u8, hung: u8, count: u8)
    requires some { 0 < count }
    requires few { hung + count ≤ LARGEST_ORDER }
    requires fits { length rights.old.items + count ≤ INLINE_ORDER }
    ensures { rights.new.items ≡ rights.old.items ++ numbers_from (hung + 2) (count - 1) ++ last ∷ [] }
{
    push_between(rights, hung, count);
    rights.push(last);
}

// Appends the lines between the squares of a move, where so many squares were hung before.
fn push_between(lines: &mut Short<u8, INLINE_ORDER>, hung: u8, count: u8)
    requires some { 0 < count }
    requires few { hung + count ≤ LARGEST_ORDER }
    requires fits { length lines.old.items + count ≤ INLINE_ORDER + 1 }
    ensures { lines.new.items ≡ lines.old.items ++ numbers_from (hung + 2) (count - 1) }
{
    'others: for k in 1..count {
        lines.push(hung + k + 1);
    }
}
