//! The levels of nodes and the right edges of squares, from the currents of a flow.

ghost use Rattle.std.specs.Prelude.{length, pos, slice_index_or, ℕ, ℤ, ◌*◌, ◌+◌, ◌<◌, ◌≡◌, ◌≤◌};
ghost use Rattle.bk_flow.specs.declared.TheConstants.{LARGEST_SMALL_CURRENT};
ghost use Rattle.bk_found.specs.Candidate.{line_place};
ghost use Rattle.bk_found.specs.Placing.{AreKnownLines, AreLevels, AreSmallNumbers, EndWithin, HasLevels};
ghost use Rattle.bk_found.specs.Placing.{IsSmallNumber, edges_by_lefts};
ghost use Rattle.bk_word.specs.declared.TheConstants.{INLINE_ORDER};
ghost use Rattle.bk_found.specs.declared.levels.TheConstants.{NODES};

use arrayvec::ArrayVec;
use bk_word::INLINE_ORDER;

// A net of so many wires and one node more, without a loose node.
pub(crate) const NODES: usize = INLINE_ORDER + 1;

// The numbers of the walls among the lines.
const LEFT_WALL: u8 = 0;

const RIGHT_WALL: u8 = 1;

// How far the nodes lie under the first, by the currents of the wires, each of which leads down from a node whose level
// is known from those before.
pub(crate) fn levels_of(wires: &[(u16, u16)], currents: &[i64]) -> [i64; NODES]
    requires ends { EndWithin NODES wires.now }
    requires many { length currents.now ≡ length wires.now }
    requires few { length wires.now ≤ INLINE_ORDER }
    requires small { AreSmallNumbers LARGEST_SMALL_CURRENT currents.now }
    ensures small { (v : ℕ) → v < NODES
        → IsSmallNumber (INLINE_ORDER * LARGEST_SMALL_CURRENT) (slice_index_or result v (pos 0)) }
    ensures right { (at : ℕ → ℤ) → AreLevels wires.now currents.now at → HasLevels wires.now at result }
{
    let mut levels = [0i64; NODES];
    for (i, (from, to)) in wires.iter().enumerate() {
        let level = levels[usize::from(*from)] + currents[i];
        levels[usize::from(*to)] = level;
    }
    levels
}

// Where the squares end: each as far behind its left line as its current says.
pub(crate) fn rights_of(lefts: &[u8], currents: &[i64], total: i64) -> ArrayVec<i64, INLINE_ORDER>
    requires many { length currents.now ≡ length lefts.now }
    requires few { length lefts.now ≤ INLINE_ORDER }
    requires known { AreKnownLines lefts.now }
    requires small { AreSmallNumbers LARGEST_SMALL_CURRENT currents.now }
    requires total { IsSmallNumber LARGEST_SMALL_CURRENT total }
    ensures value { result.items ≡ edges_by_lefts total lefts.now currents.now }
    ensures many { length result.items ≡ length lefts.now }
    ensures small { AreSmallNumbers ((INLINE_ORDER + 1) * LARGEST_SMALL_CURRENT) result.items }
{
    let mut rights = ArrayVec::new();
    for (i, line) in lefts.iter().enumerate() {
        let right = line_place(*line, &rights, total) + currents[i];
        rights.push(right);
    }
    rights
}

// The place of a line: the walls stand at 0 and at the total, a gap where the square before it ends.
pub(crate) fn line_place(line: u8, rights: &[i64], total: i64) -> i64
    requires { line < length rights.now + 2 }
    ensures { result ≡ line_place total rights.now line }
{
    match line {
        LEFT_WALL => 0,
        RIGHT_WALL => total,
        _ => rights[usize::from(line) - 2],
    }
}
