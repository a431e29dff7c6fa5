//! The lines that nodes touch.

ghost use Rattle.std.specs.Prelude.{IsTrue, length, ℕ, ◌+◌, ◌<◌, ◌≡◌, ◌≤◌, ◌⊎◌};
ghost use Rattle.bk_free_search.specs.NodeLines.{AreLow, Has, HasPair, IsAtSquare, IsBesideNew, IsBesideOneOf};
ghost use Rattle.bk_free_search.specs.NodeLines.{StandBetween, TouchBoth, TouchesWith};
ghost use Rattle.bk_free_search.specs.TopLines.{AreSquares};
ghost use Rattle.bk_free_search.specs.declared.line_set.TheConstants.{MOST_LINES};
ghost use Rattle.bk_word.specs.declared.TheConstants.{INLINE_ORDER};

use crate::line_set::{LEFT_WALL, LineSet, RIGHT_WALL, joined_lines, no_line, with_line};
use crate::sides::line_at;

/// The squares that a move hangs: how many were hung before them, how many they are, and between which two lines they
/// stand.
#[derive(Drop)]
pub(crate) struct NewSquares {
    pub(crate) hung: u8,
    pub(crate) count: u8,
    pub(crate) first: u8,
    pub(crate) last: u8,
}

/// The lines that a node touches: those at the sides of the squares that end on it, by their numbers, and of the new
/// ones that hang from it.
pub(crate) fn node_lines(lefts: &[u8], rights: &[u8], squares: &[u8], new: &NewSquares) -> LineSet
    requires some { 0 < new.now.count }
    requires few { new.now.hung + new.now.count ≤ INLINE_ORDER }
    requires lefts { AreLow lefts.now }
    requires rights { AreLow rights.now }
    requires between { StandBetween lefts.now rights.now new.now }
    requires at_left { AreSquares squares.now (length lefts.now) }
    requires at_right { AreSquares squares.now (length rights.now) }
    ensures only { (line : ℕ) → Has result line → IsBesideOneOf lefts.now rights.now squares.now line
        ⊎ IsBesideNew lefts.now rights.now new.now.hung new.now.count line }
    ensures all { (line : ℕ) → line < MOST_LINES → IsBesideOneOf lefts.now rights.now squares.now line
        ⊎ IsBesideNew lefts.now rights.now new.now.hung new.now.count line → Has result line }
{
    let ended = lines_beside(lefts, rights, squares);
    let outer = with_line(with_line(ended, new.first), new.last);
    joined_lines(outer, lines_between(new.hung + 2, new.hung + new.count + 1))
}

// The lines from one number up to another.
fn lines_between(from: u8, end: u8) -> LineSet
    requires order { from ≤ end }
    requires few { end < MOST_LINES }
    ensures only { (line : ℕ) → Has result line → (from ≤ line) × (line < end) }
    ensures all { (line : ℕ) → from ≤ line → line < end → Has result line }
{
    LineSet {
        bits: (1 << end) - (1 << from),
    }
}

// The lines at the sides of the squares of these numbers.
fn lines_beside(lefts: &[u8], rights: &[u8], squares: &[u8]) -> LineSet
    requires lefts { AreLow lefts.now }
    requires rights { AreLow rights.now }
    requires at_left { AreSquares squares.now (length lefts.now) }
    requires at_right { AreSquares squares.now (length rights.now) }
    ensures only { (line : ℕ) → Has result line → IsBesideOneOf lefts.now rights.now squares.now line }
    ensures all { (line : ℕ) → line < MOST_LINES → IsBesideOneOf lefts.now rights.now squares.now line
        → Has result line }
{
    let mut lines = no_line();
    'squares: for square in squares {
        lines = with_sides(lines, lefts, rights, *square);
    }
    lines
}

// The lines, and those at the sides of a square.
fn with_sides(lines: LineSet, lefts: &[u8], rights: &[u8], square: u8) -> LineSet
    requires lefts { AreLow lefts.now }
    requires rights { AreLow rights.now }
    requires least { 1 ≤ square }
    requires at_left { square ≤ length lefts.now }
    requires at_right { square ≤ length rights.now }
    ensures only { (line : ℕ) → Has result line → IsAtSquare lefts.now rights.now square line ⊎ Has lines line }
    ensures all { (line : ℕ) → line < MOST_LINES → IsAtSquare lefts.now rights.now square line → Has result line }
    ensures kept { (line : ℕ) → Has lines line → Has result line }
{
    let with_left = with_line(lines, line_at(lefts, square));
    with_line(with_left, line_at(rights, square))
}

/// Whether one of the nodes touches a line of each set, which are not the two walls: either the line of the first set
/// isn't the left wall, or that of the second one isn't the right wall.
pub(crate) fn has_pair(nodes: &[LineSet], lefts: LineSet, rights: LineSet) -> bool
    ensures { IsTrue result → HasPair nodes.now lefts rights }
{
    touch_both(nodes, but_left_wall(lefts), rights)
        || touch_both(nodes, left_wall_of(lefts), but_right_wall(rights))
}

// The left wall, if it is one of the lines.
fn left_wall_of(lines: LineSet) -> LineSet
    ensures { (line : ℕ) → Has result line → Has lines line }
{
    LineSet {
        bits: lines.bits & (1 << LEFT_WALL),
    }
}

// The lines but for the left wall.
fn but_left_wall(lines: LineSet) -> LineSet
    ensures { (line : ℕ) → Has result line → Has lines line × (line ≡ 0 → ⊥) }
{
    LineSet {
        bits: lines.bits & !(1 << LEFT_WALL),
    }
}

// The lines but for the right wall.
fn but_right_wall(lines: LineSet) -> LineSet
    ensures { (line : ℕ) → Has result line → Has lines line × (line ≡ 1 → ⊥) }
{
    LineSet {
        bits: lines.bits & !(1 << RIGHT_WALL),
    }
}

// Whether one of the nodes touches a line of each set.
fn touch_both(nodes: &[LineSet], lefts: LineSet, rights: LineSet) -> bool
    ensures { IsTrue result → TouchBoth nodes.now lefts rights }
{
    if lefts.bits == 0 || rights.bits == 0 {
        return false;
    }
    lines_with(nodes, lefts).bits & rights.bits != 0
}

// The lines of those nodes that touch a line of the set.
fn lines_with(nodes: &[LineSet], set: LineSet) -> LineSet
    ensures { (line : ℕ) → Has result line → TouchesWith nodes.now set line }
{
    let mut found = no_line();
    'nodes: for lines in nodes {
        found = joined_lines(found, lines_if(*lines, set));
    }
    found
}

// The lines of a node if it touches a line of the set, else none.
fn lines_if(lines: LineSet, set: LineSet) -> LineSet
    ensures has { (line : ℕ) → Has result line → Has lines line }
    ensures touches { (line : ℕ) → Has result line → (other : ℕ) × Has set other × Has lines other }
{
    if lines.bits & set.bits != 0 {
        lines
    } else {
        no_line()
    }
}
