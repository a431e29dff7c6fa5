//! Two rectangles of one size joined to a square.
#![tactic(auto)]

ghost use Rattle.std.specs.List.Sorted.{IsNonDecreasing, IsPermutation};
ghost use Rattle.std.specs.Prelude.{IfErr, IfNone, IfOk, IfSome, length, map, ℕ, ◌++◌, ◌+◌, ◌<◌, ◌^◌, ◌≡◌, ◌≤◌};
ghost use Rattle.std.specs.List.{AllByRecursion};
ghost use Rattle.bk_tiling.specs.Scale.{moved_square};
ghost use Rattle.bk_tiling.specs.Tiling.{order, sides_of};
ghost use Rattle.bk_simple.specs.Simple.{IsPerfect};
ghost use Rattle.bk_pair.specs.Pair.{ArePair, CanBeLaid, IsLayingFault, IsLeastShared, IsPairFault, IsSharedSide};
ghost use Rattle.bk_pair.specs.Pair.{corner_squares, joined_square, pair_sides};

mod kept;
mod laws;

use arrayvec::ArrayVec;
use bk_simple::{first_twice, push_sides};
use bk_sym::{Turn, image};
use bk_tiling::{LONGEST_SIDE, MOST_SQUARES, Square, Tiling, put_in_order};
pub use kept::KeptTiling;
pub use laws::{a_pair_makes_a_square, a_pair_meets_its_conditions, the_tests_decide};

/// Which squares count that are made of two rectangles. The kinds are our own.
#[derive(Clone, Copy, PartialEq, Eq)]
pub enum Kind {
    /// The perfect ones.
    Perfect,
    /// All of them.
    Any,
}

/// Why two tilings make no square, or no perfect one. The names and their order are this project's own.
#[derive(Clone, Copy, PartialEq, Eq)]
pub enum PairFault {
    /// Their sizes differ.
    Size,
    /// Their width and height are equal.
    Square,
    /// They and two squares are so many, more than 200.
    Many { n: usize },
    /// The greater of their width and height, this side, is above 999,999,999,999,999.
    Long { side: u64 },
    /// This side occurs twice, and no lesser one does.
    Twice { side: u64 },
}

/// Two tilings of one size laid together to a square of side width + height: the first at the top left, a square of
/// side height at its right, one of side width below it, and the second, with columns and levels exchanged, at the
/// bottom right (Brooks, Smith, Stone and Tutte 1940). `PairFault` comes exactly where they can't be laid so; `Twice`
/// never comes.
pub fn lay_pair(a: &Tiling, b: &Tiling) -> Result<Tiling, PairFault>
    ensures can { IfOk result (λ _. CanBeLaid a.now b.now) }
    ensures laid { IfOk result (λ t. t ≡ joined_square a.now b.now) }
    ensures refused { IfErr result (IsLayingFault a.now b.now) }
{
    match laying_fault(a, b) {
        Some(fault) => Err(fault),
        None => Ok(joined_square(a, b)),
    }
}

/// Two tilings laid together as `lay_pair` lays them, where the square is perfect. `Twice` comes exactly where they can
/// be laid so and a side occurs twice among their sides, their width and their height, with the least such side.
pub fn join(a: &Tiling, b: &Tiling) -> Result<Tiling, PairFault>
    ensures pair { IfOk result (λ _. ArePair a.now b.now) }
    ensures joined { IfOk result (λ t. t ≡ joined_square a.now b.now) }
    ensures perfect { IfOk result IsPerfect }
    ensures refused { IfErr result (IsPairFault a.now b.now) }
{
    match laying_fault(a, b) {
        Some(fault) => Err(fault),
        None => match shared_side(a, b) {
            Some(side) => Err(PairFault::Twice { side }),
            None => Ok(joined_square(a, b)),
        },
    }
}

// Why the two are not laid together.
fn laying_fault(a: &Tiling, b: &Tiling) -> Option<PairFault>
    ensures none { IfNone result (CanBeLaid a.now b.now) }
    ensures some { IfSome result (IsLayingFault a.now b.now) }
{
    let (width, height) = (a.width(), a.height());
    if b.width() != width || b.height() != height {
        return Some(PairFault::Size);
    }
    if width == height {
        return Some(PairFault::Square);
    }
    let n = a.order() + b.order() + 2;
    if n > MOST_SQUARES {
        return Some(PairFault::Many { n });
    }
    let side = width.max(height);
    if side > LONGEST_SIDE {
        return Some(PairFault::Long { side });
    }
    None
}

// The least side that occurs twice among all sides of what the two make.
fn shared_side(a: &Tiling, b: &Tiling) -> Option<u64>
    requires { order a.now + order b.now + 2 ≤ MOST_SQUARES }
    ensures none { IfNone result ((side : ℕ) → ¬ (IsSharedSide a.now b.now side)) }
    ensures some { IfSome result (IsLeastShared a.now b.now) }
{
    let sides = sorted_pair_sides(a, b);
    first_twice(sides.as_slice())
}

// All sides of what the two make, in ascending order.
fn sorted_pair_sides(a: &Tiling, b: &Tiling) -> ArrayVec<u64, MOST_SQUARES>
    requires { order a.now + order b.now + 2 ≤ MOST_SQUARES }
    ensures same { IsPermutation (pair_sides a.now b.now) result.items }
    ensures sorted { IsNonDecreasing result.items }
{
    let mut sides = ArrayVec::new();
    push_sides(a, &mut sides);
    push_sides(b, &mut sides);
    sides.push(a.width());
    sides.push(a.height());
    sides.sort_unstable();
    sides
}

/// The square of side width + height that two tilings make which can be laid together, as `lay_pair` lays them (Brooks,
/// Smith, Stone and Tutte 1940).
pub fn joined_square(a: &Tiling, b: &Tiling) -> Tiling
    requires { CanBeLaid a.now b.now }
    ensures { result ≡ joined_square a.now b.now }
{
    let side = a.width() + a.height();
    let mut squares = around_corners(a, &image(b, Turn::Swap));
    put_in_order(&mut squares);
    Tiling::from_known(side, side, squares)
}

// The squares of a tiling, the two that fill the corners beside it, and those of another one, which is moved behind
// both.
fn around_corners(a: &Tiling, turned: &Tiling) -> ArrayVec<Square, MOST_SQUARES>
    requires few { order a.now + order turned.now + 2 ≤ MOST_SQUARES }
    requires wide { a.now.width ≤ LONGEST_SIDE }
    requires high { a.now.height ≤ LONGEST_SIDE }
    ensures { result.items ≡ a.now.squares
        ++ (corner_squares a.now ++ map (moved_square a.now.width a.now.height) turned.now.squares) }
{
    let (width, height) = (a.width(), a.height());
    let mut squares = ArrayVec::new();
    push_moved(a, 0, 0, &mut squares);
    squares.push(Square {
        x: width,
        y: 0,
        s: height,
    });
    squares.push(Square {
        x: 0,
        y: height,
        s: width,
    });
    push_moved(turned, width, height, &mut squares);
    squares
}

// Appends the squares of a tiling, moved to the right and down.
fn push_moved(tiling: &Tiling, right: u64, down: u64, squares: &mut ArrayVec<Square, MOST_SQUARES>)
    requires room { length squares.old.items + order tiling.now ≤ MOST_SQUARES }
    requires right { right ≤ LONGEST_SIDE }
    requires down { down ≤ LONGEST_SIDE }
    ensures { squares.new.items ≡ squares.old.items ++ map (moved_square right down) tiling.now.squares }
{
    for q in tiling.squares() {
        squares.push(Square {
            x: q.x + right,
            y: q.y + down,
            s: q.s,
        });
    }
}
