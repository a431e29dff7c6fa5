//! Squares laid side by side under a gap.

ghost use Rattle.std.specs.List.{AllByRecursion};
ghost use Rattle.std.specs.Prelude.{length, sum, ◌*◌, ◌+◌, ◌++◌, ◌<◌, ◌^◌, ◌≡◌, ◌≤◌};
ghost use Rattle.bk_tiling.specs.KeptTiling.{IsSide};
ghost use Rattle.bk_tiling.specs.declared.TheConstants.{LONGEST_SIDE};
ghost use Rattle.bk_tiling.specs.SquareGroups.{laid_group};

use crate::{MOST_SQUARES, Segment, Square};
use arrayvec::ArrayVec;

/// The sum of at most 200 sides, each of which is 1 to 999,999,999,999,999.
pub fn sum_of(sides: &[u64]) -> u64
    requires few { length sides.now ≤ MOST_SQUARES }
    requires sides { AllByRecursion IsSide sides.now }
    ensures sum { result ≡ sum sides.now }
    ensures small { result ≤ LONGEST_SIDE * length sides.now }
{
    let mut total = 0;
    for side in sides {
        total += *side;
    }
    total
}

/// Appends the squares of a group that hangs from a gap: side by side from its left end on, their tops at its level.
/// There must be room for them, and they must end before column 2^63.
pub fn push_group(laid: &mut ArrayVec<Square, MOST_SQUARES>, gap: Segment, sides: &[u64])
    requires room { length laid.old.items + length sides.now ≤ MOST_SQUARES }
    requires fits { gap.x + sum sides.now < 2 ^ 63 }
    ensures { laid.new.items ≡ laid.old.items ++ laid_group gap.x gap.level sides.now }
{
    let mut x = gap.x;
    for side in sides {
        laid.push(Square {
            x,
            y: gap.level,
            s: *side,
        });
        x += *side;
    }
}
