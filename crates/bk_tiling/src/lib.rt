//! Squares placed in rectangles, and what it is that they tile one.
#![tactic(auto)]

ghost use Rattle.std.specs.Prelude.{[], IfErr, IfOk, IsOk, length, ◌+◌, ◌<◌, ◌^◌, ◌↔◌, ◌∷◌, ◌≡◌, ◌≤◌};
ghost use Rattle.bk_tiling.specs.CodeOrder.{begins_group, in_code_order, is_no_later, stands_beside};
ghost use Rattle.bk_tiling.specs.KeptTiling.{IsKept};
ghost use Rattle.bk_tiling.specs.Refusal.{HaveSides, IsAccepted, IsRefusal, ShareNoCell};
ghost use Rattle.bk_tiling.specs.Tiling.{order};

mod checks;
mod hanging;
mod laws;

use arrayvec::ArrayVec;
use checks::refusal_of;
pub use hanging::{push_group, sum_of};
pub use laws::{a_list_is_refused_in_one_way, a_refused_list_is_not_accepted};
use std::marker::Model;

/// The most squares of a tiling that the code holds; those of the definitions may have more.
pub const MOST_SQUARES: usize = 200;

/// No side is longer.
pub const LONGEST_SIDE: u64 = 999_999_999_999_999;

/// A placed square. Levels grow downwards.
#[derive(Clone, Copy, Debug, Default, PartialEq, Eq)]
pub struct Square {
    /// The column of its left edge.
    pub x: u64,
    /// The level of its top.
    pub y: u64,
    /// Its side.
    pub s: u64,
}

/// A level piece of the lower outline of laid squares: its first column, how many columns it has, and their depth.
#[derive(Clone, Copy)]
pub struct Segment {
    /// Its first column.
    pub x: u64,
    /// How many columns it has.
    pub width: u64,
    /// The depth of each of them.
    pub level: u64,
}

/// Why squares do not make a tiling of a rectangle: the first test that they fail, in the order of these variants.
/// Places count from 0 in the list as given.
#[derive(Clone, Copy, Debug, PartialEq, Eq)]
pub enum NotTiling {
    /// There are more than 200 squares; `n` is how many.
    Many { n: usize },
    /// The rectangle has no width or no height.
    Empty,
    /// The first square whose side is 0 or above 999,999,999,999,999.
    Side { i: usize },
    /// The first square that is not within the rectangle.
    Outside { i: usize },
    /// The least two places, i before j, whose squares share a cell.
    Overlap { i: usize, j: usize },
    /// The highest cell that lies in no square, and of these the one furthest to the left.
    Uncovered { x: u64, y: u64 },
}

/// A rectangle tiled by 1 to 200 squares (Brooks, Smith, Stone and Tutte 1940, with whole sides). The squares stand in
/// code order: from top to bottom, and from left to right at one level. A square's number is its place, from 1.
#[derive(Drop)]
pub struct Tiling {
    width: u64,
    height: u64,
    squares: ArrayVec<Square, MOST_SQUARES>,
}

impl Model for Tiling {
    ghost use Rattle.bk_tiling.specs.KeptTiling.{IsKept};
    ghost use Rattle.bk_tiling.specs.Tiling.{Tiling as Tiled};

    ghost Value = { Tiled };

    ghost view = { λ t. record { width = t.width; height = t.height; squares = t.squares.items } };

    ghost invariant = { λ t. IsKept (record { width = t.width; height = t.height; squares = t.squares.items }) };
}

impl Tiling {
    /// The tiling of a rectangle, `width` columns by `height` levels, by squares that come in any order. Each cell has
    /// to lie in exactly one of them (Brooks, Smith, Stone and Tutte 1940, with whole sides). It is refused exactly
    /// where `NotTiling` says so, at the exact place.
    pub fn try_new(width: u64, height: u64, squares: &[Square]) -> Result<Tiling, NotTiling>
        ensures accepted { IsOk result ↔ IsAccepted width height squares.now }
        ensures value { IfOk result (λ t.
            t ≡ record { width = width; height = height; squares = in_code_order squares.now }) }
        ensures refused { IfErr result (IsRefusal width height squares.now) }
    {
        if let Some(refusal) = refusal_of(width, height, squares) {
            return Err(refusal);
        }
        Ok(Tiling {
            width,
            height,
            squares: in_order(squares),
        })
    }

    /// The tiling of a rectangle by squares that are known to tile it and stand in code order. Nothing is tested.
    pub fn from_known(width: u64, height: u64, squares: ArrayVec<Square, MOST_SQUARES>) -> Tiling
        requires { IsKept (record { width = width; height = height; squares = squares.items }) }
        ensures { result ≡ record { width = width; height = height; squares = squares.items } }
    {
        Tiling {
            width,
            height,
            squares,
        }
    }

    /// The tiling of a rectangle of one cell by one square.
    pub fn unit() -> Tiling
        ensures { result ≡ record { width = 1; height = 1; squares = (record { x = 0; y = 0; s = 1 }) ∷ [] } }
    {
        let mut squares = ArrayVec::new();
        squares.push(Square { x: 0, y: 0, s: 1 });
        Tiling::from_known(1, 1, squares)
    }

    /// Becomes the tiling of a rectangle by squares that are known to tile it and stand in code order. Nothing is
    /// tested.
    pub fn become_known(&mut self, width: u64, height: u64, squares: &[Square])
        requires { IsKept (record { width = width; height = height; squares = squares.now }) }
        ensures { self.new ≡ record { width = width; height = height; squares = squares.now } }
    {
        replace(&mut self.squares, squares);
        self.width = width;
        self.height = height;
    }

    /// Becomes the tiling of a rectangle, `width` columns by `height` levels, by squares that come in any order, in the
    /// room of the one that was here. Each cell has to lie in exactly one of them (Brooks, Smith, Stone and Tutte 1940,
    /// with whole sides). It is refused exactly where `NotTiling` says so, at the exact place: more than 200 squares,
    /// no width or no height, a side that is 0 or too long, a square that reaches out, two that share a cell, or a cell
    /// that lies in none. Then it stays the tiling that it was.
    pub fn try_become(
        &mut self,
        width: u64,
        height: u64,
        squares: &[Square],
    ) -> Result<(), NotTiling>
        ensures accepted { IsOk result ↔ IsAccepted width height squares.now }
        ensures value { IfOk result (λ _.
            self.new ≡ record { width = width; height = height; squares = in_code_order squares.now }) }
        ensures refused { IfErr result (IsRefusal width height squares.now) }
        ensures same { IfErr result (λ _. self.new ≡ self.old) }
    {
        if let Some(refusal) = refusal_of(width, height, squares) {
            return Err(refusal);
        }
        replace_in_order(&mut self.squares, squares);
        self.width = width;
        self.height = height;
        Ok(())
    }

    /// The width: how many columns the rectangle has.
    pub fn width(&self) -> u64
        ensures value { result ≡ self.now.width }
        ensures kept { IsKept self.now }
    {
        self.width
    }

    /// The height: how many levels the rectangle has.
    pub fn height(&self) -> u64
        ensures value { result ≡ self.now.height }
        ensures kept { IsKept self.now }
    {
        self.height
    }

    /// The order: how many squares there are, 1 to 200.
    pub fn order(&self) -> usize
        ensures value { result ≡ order self.now }
        ensures kept { IsKept self.now }
    {
        self.squares.len()
    }

    /// The squares, in code order.
    pub fn squares(&self) -> &[Square]
        ensures value { result.now ≡ self.now.squares }
        ensures kept { IsKept self.now }
    {
        self.squares.as_slice()
    }

    /// Whether a group of the code begins at the square at place `i`, from 0: always at 0, and otherwise unless the
    /// square before it has the same top level and ends where this one begins (Bouwkamp 1946-47).
    pub fn begins_group(&self, i: usize) -> bool
        requires { i < length self.now.squares }
        ensures { result ≡ begins_group self.now.squares i }
    {
        i == 0 || !stands_beside(self.squares[i - 1], self.squares[i])
    }
}

// Whether `here` is level with `before` and begins at its right edge.
fn stands_beside(before: Square, here: Square) -> bool
    requires { before.x + before.s < 2 ^ 64 }
    ensures { result ≡ stands_beside before here }
{
    before.y == here.y && before.x + before.s == here.x
}

/// Whether a square's corner comes no later than the cell in column `x` at level `y`, in the code order: from top to
/// bottom and from left to right.
pub fn is_no_later(r: &Square, x: u64, y: u64) -> bool
    ensures { result ≡ is_no_later x y r.now }
{
    r.y < y || (r.y == y && r.x <= x)
}

// Puts these squares in the place of those that are kept.
fn replace(kept: &mut ArrayVec<Square, MOST_SQUARES>, squares: &[Square])
    requires { length squares.now ≤ MOST_SQUARES }
    ensures { kept.new.items ≡ squares.now }
{
    kept.clear();
    if kept.try_extend_from_slice(squares).is_err() {
        unreachable!();
    }
}

// A copy of the squares in code order.
fn in_order(squares: &[Square]) -> ArrayVec<Square, MOST_SQUARES>
    requires few { length squares.now ≤ MOST_SQUARES }
    requires apart { ShareNoCell squares.now }
    requires sides { HaveSides squares.now }
    ensures { result.items ≡ in_code_order squares.now }
{
    let mut sorted = ArrayVec::new();
    replace_in_order(&mut sorted, squares);
    sorted
}

// Puts these squares, in code order, in the place of those that are kept.
fn replace_in_order(kept: &mut ArrayVec<Square, MOST_SQUARES>, squares: &[Square])
    requires few { length squares.now ≤ MOST_SQUARES }
    requires apart { ShareNoCell squares.now }
    requires sides { HaveSides squares.now }
    ensures { kept.new.items ≡ in_code_order squares.now }
{
    replace(kept, squares);
    put_in_order(kept);
}

/// Puts squares into code order. No two of them may share a cell, and each must have a side of 1 to
/// 999,999,999,999,999.
pub fn put_in_order(squares: &mut ArrayVec<Square, MOST_SQUARES>)
    requires sides { HaveSides squares.old.items }
    requires apart { ShareNoCell squares.old.items }
    ensures { squares.new.items ≡ in_code_order squares.old.items }
{
    squares.sort_unstable_by_key(|q| (q.y, q.x));
}
