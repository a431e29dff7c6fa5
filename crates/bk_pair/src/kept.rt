//! A tiling that is kept to be joined with others.

ghost use Rattle.std.specs.Int.{bit_at};
ghost use Rattle.std.specs.Prelude.{IfOk, true, ℕ, ◌↔◌, ◌≡◌, ◌⊎◌};
ghost use Rattle.bk_pair.specs.SquaresBySide.{AreSideBitsOf, AreSidesAscending, IsKeptBySides, tiling_of};
ghost use Rattle.bk_pair.specs.OwnSides.{HaveCommonSide, stands_apart};
ghost use Rattle.bk_pair.specs.PairTest.{are_pair, can_be_laid};

use arrayvec::ArrayVec;
use bk_tiling::{LONGEST_SIDE, MOST_SQUARES, Square, Tiling, put_in_order};
use std::alloc::{AllocError, Global};
use std::cmp::Ordering;
use std::marker::Model;

/// A tiling in memory of just its size: its squares by ascending sides, and those of the sides that are below 64 once
/// more, as the bits of a number. So it is soon told whether it joins with another one. It is seen as the tiling.
#[derive(Drop)]
pub struct KeptTiling {
    width: u64,
    height: u64,
    squares: Vec<Square>,
    apart: bool,
    small: u64,
}

impl Model for KeptTiling {
    ghost use Rattle.bk_pair.specs.SquaresBySide.{IsKeptBySides, tiling_of};
    ghost use Rattle.bk_tiling.specs.Tiling.{Tiling as Tiled};

    ghost Value = { Tiled };

    ghost view = { λ k. tiling_of k.width k.height k.squares.items };

    ghost invariant = { λ k. IsKeptBySides k.width k.height k.squares.items k.apart k.small };
}

impl KeptTiling {
    /// Keeps a tiling. It fails only where memory is wanting.
    pub fn new(alloc: Global, tiling: &Tiling) -> Result<KeptTiling, AllocError>
        ensures { IfOk result (λ k. k ≡ tiling.now) }
    {
        let mut squares = Vec::from_slice(alloc, tiling.squares())?;
        squares.sort_unstable_by_key(|q| q.s);
        let (width, height) = (tiling.width(), tiling.height());
        let apart = stands_apart(width, height, squares.as_slice());
        let small = small_sides(squares.as_slice());
        Ok(KeptTiling {
            width,
            height,
            squares,
            apart,
            small,
        })
    }

    /// The width: how many columns the rectangle has.
    pub fn width(&self) -> u64
        ensures { result ≡ self.now.width }
    {
        self.width
    }

    /// The height: how many levels the rectangle has.
    pub fn height(&self) -> u64
        ensures { result ≡ self.now.height }
    {
        self.height
    }

    /// The tiling that is kept.
    pub fn tiling(&self) -> Tiling
        ensures { result ≡ self.now }
    {
        let mut squares = ArrayVec::new();
        if squares
            .try_extend_from_slice(self.squares.as_slice())
            .is_err()
        {
            unreachable!();
        }
        put_in_order(&mut squares);
        Tiling::from_known(self.width, self.height, squares)
    }

    /// Whether this tiling and another one can be laid together to a square, as `lay_pair` does.
    pub fn can_be_laid(&self, other: &KeptTiling) -> bool
        ensures { result ≡ can_be_laid self.now other.now }
    {
        if self.width != other.width || self.height != other.height || self.width == self.height {
            return false;
        }
        if self.squares.len() + other.squares.len() + 2 > MOST_SQUARES {
            return false;
        }
        self.width.max(self.height) <= LONGEST_SIDE
    }

    /// Whether this tiling and another one join to a perfect square, as `join` does. Their sides are gone through once
    /// at most.
    pub fn joins(&self, other: &KeptTiling) -> bool
        ensures { result ≡ are_pair self.now other.now }
    {
        if self.small & other.small != 0 {
            return false;
        }
        if !self.apart || !other.apart || !self.can_be_laid(other) {
            return false;
        }
        !have_common_side(self.squares.as_slice(), other.squares.as_slice())
    }
}

// Whether the sides of the squares, the width and the height are all different. The squares stand by ascending sides.
fn stands_apart(width: u64, height: u64, squares: &[Square]) -> bool
    requires { AreSidesAscending squares.now }
    ensures { result ≡ stands_apart (tiling_of width height squares.now) }
{
    for i in 0..squares.len() {
        let side = squares[i].s;
        if side == width || side == height {
            return false;
        }
        if i > 0 && squares[i - 1].s == side {
            return false;
        }
    }
    width != height
}

// Whether a square of one list has the same side as a square of the other. Both lists stand by ascending sides.
fn have_common_side(first: &[Square], second: &[Square]) -> bool
    requires first { AreSidesAscending first.now }
    requires second { AreSidesAscending second.now }
    ensures { result ≡ true ↔ HaveCommonSide first.now second.now }
{
    let (mut i, mut j) = (0, 0);
    'sides: while i < first.len() && j < second.len() {
        match first[i].s.cmp(&second[j].s) {
            Ordering::Less => i += 1,
            Ordering::Greater => j += 1,
            Ordering::Equal => return true,
        }
    }
    false
}

// The sides below 64 of the squares, as the bits of a number.
fn small_sides(squares: &[Square]) -> u64
    ensures { AreSideBitsOf result squares.now }
{
    let mut small = 0;
    for q in squares {
        small = with_side(small, q.s);
    }
    small
}

// The number with the bit of a side more, if it has one.
fn with_side(small: u64, side: u64) -> u64
    ensures { (k : ℕ) → bit_at result k ≡ 1 → (k ≡ side) ⊎ (bit_at small k ≡ 1) }
{
    if side < 64 { small | 1 << side } else { small }
}
