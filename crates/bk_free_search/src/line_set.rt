//! Sets of lines by their numbers, and sets of places of segments or squares, which are kept the same way.

ghost use Rattle.std.specs.Prelude.{IsTrue, true, ℕ, ◌<◌, ◌≡◌, ◌⊎◌};
ghost use Rattle.bk_free_search.specs.NodeLines.{Has};
ghost use Rattle.bk_free_search.specs.declared.line_set.TheConstants.{MOST_LINES};

/// A set keeps the lines with numbers below this.
pub(crate) const MOST_LINES: usize = 32;

/// The number of the left wall among the lines.
pub(crate) const LEFT_WALL: u8 = 0;

/// The number of the right wall among the lines.
pub(crate) const RIGHT_WALL: u8 = 1;

/// A set of lines, of which it keeps those with low numbers. A set of places is kept as if these were lines.
#[derive(Clone, Copy, Default, Drop)]
pub(crate) struct LineSet {
    pub(crate) bits: u32,
}

/// No line.
pub(crate) fn no_line() -> LineSet
    ensures { (line : ℕ) → Has result line → ⊥ }
{
    LineSet { bits: 0 }
}

/// The set with one line more.
pub(crate) fn with_line(lines: LineSet, line: u8) -> LineSet
    requires { line < MOST_LINES }
    ensures only { (other : ℕ) → Has result other → (other ≡ line) ⊎ Has lines other }
    ensures kept { (other : ℕ) → Has lines other → Has result other }
    ensures has { Has result line }
{
    LineSet {
        bits: lines.bits | 1 << line,
    }
}

/// The set with this place more, where that holds.
#[inline(always)]
pub(crate) fn with_place(places: LineSet, place: usize, holds: bool) -> LineSet
    requires { place < MOST_LINES }
    ensures { (j : ℕ) → Has result j → ((j ≡ place) × (holds ≡ true)) ⊎ Has places j }
{
    if holds {
        with_line(places, place as u8)
    } else {
        places
    }
}

/// The lines of both sets together.
pub(crate) fn joined_lines(lines: LineSet, others: LineSet) -> LineSet
    ensures only { (line : ℕ) → Has result line → Has lines line ⊎ Has others line }
    ensures all { (line : ℕ) → Has lines line ⊎ Has others line → Has result line }
{
    LineSet {
        bits: lines.bits | others.bits,
    }
}
