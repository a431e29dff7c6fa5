//! A rectangle that grows square by square.

ghost use Rattle.std.specs.List.{AllByRecursion};
ghost use Rattle.std.specs.Prelude.{length, map, ◌+◌, ◌/◌, ◌<◌, ◌^◌, ◌≡◌, ◌≤◌};
ghost use Rattle.bk_tiling.specs.Scale.{moved_square};
ghost use Rattle.bk_tiling.specs.declared.TheConstants.{LONGEST_SIDE, MOST_SQUARES};
ghost use Rattle.bk_gen.specs.Attaching.{goes_up_or_down, is_odd};

use arrayvec::ArrayVec;
use bk_tiling::{MOST_SQUARES, Square, Tiling, put_in_order};
use std::marker::Model;

// A rectangle tiled by squares that stand in any order.
#[derive(Drop)]
pub(crate) struct Growing {
    width: u64,
    height: u64,
    squares: ArrayVec<Square, MOST_SQUARES>,
}

impl Model for Growing {
    ghost use Rattle.bk_tiling.specs.Tiling.{Tiling as Tiled};
    ghost use Rattle.bk_gen.specs.Growing.{IsGrowing};

    ghost Value = { Tiled };

    ghost view = { λ g. record { width = g.width; height = g.height; squares = g.squares.items } };

    ghost invariant = { λ g. IsGrowing (record { width = g.width; height = g.height; squares = g.squares.items }) };
}

impl Growing {
    ghost use Rattle.bk_tiling.specs.CodeOrder.{in_code_order};
    ghost use Rattle.bk_gen.specs.Attaching.{next_side, with_next};
    ghost use Rattle.bk_gen.specs.Growing.{IsGrowing, moved_all, with_behind, with_corner};

    // The rectangle tiled by these squares.
    pub(crate) fn of(width: u64, height: u64, squares: &[Square]) -> Growing
        requires { IsGrowing (record { width = width; height = height; squares = squares.now }) }
        ensures { result ≡ record { width = width; height = height; squares = squares.now } }
    {
        let Ok(squares) = ArrayVec::try_from(squares) else {
            unreachable!();
        };
        Growing {
            width,
            height,
            squares,
        }
    }

    // How many squares there are.
    pub(crate) fn order(&self) -> usize
        ensures value { result ≡ length self.now.squares }
        ensures growing { IsGrowing self.now }
    {
        self.squares.len()
    }

    // The side of the square that is attached at this step.
    pub(crate) fn next_side(&self, v: u64, step: usize) -> u64
        ensures { result ≡ next_side v step self.now }
    {
        if goes_up_or_down(v, step) {
            self.width
        } else {
            self.height
        }
    }

    // Attaches the square of this step.
    pub(crate) fn attach(&mut self, v: u64, step: usize)
        requires few { length self.old.squares < MOST_SQUARES }
        requires side { next_side v step self.old ≤ LONGEST_SIDE }
        ensures { self.new ≡ with_next v step self.old }
    {
        let (width, height) = (self.width, self.height);
        let (wide, high) = (width + height, height + width);
        match (goes_up_or_down(v, step), is_set(v, step % 64)) {
            (false, false) => self.put_behind(width, 0, height, wide, height),
            (false, true) => self.put_in_front(height, height, 0, wide, height),
            (true, false) => self.put_behind(0, height, width, width, high),
            (true, true) => self.put_in_front(width, 0, width, width, high),
        }
    }

    // Puts a square behind the others, which makes a rectangle of this size.
    fn put_behind(&mut self, x: u64, y: u64, s: u64, width: u64, height: u64)
        requires few { length self.old.squares < MOST_SQUARES }
        requires grows { IsGrowing (with_behind (record { x = x; y = y; s = s }) width height self.old) }
        ensures { self.new ≡ with_behind (record { x = x; y = y; s = s }) width height self.old }
    {
        self.squares.push(Square { x, y, s });
        self.width = width;
        self.height = height;
    }

    // Puts a square in the left upper corner, once the others are moved to the right or down, which makes a rectangle
    // of this size.
    fn put_in_front(&mut self, s: u64, right: u64, down: u64, width: u64, height: u64)
        requires few { length self.old.squares < MOST_SQUARES }
        requires right { right ≤ LONGEST_SIDE }
        requires down { down ≤ LONGEST_SIDE }
        requires grows { IsGrowing (with_corner s width height (moved_all right down self.old)) }
        ensures { self.new ≡ with_corner s width height (moved_all right down self.old) }
    {
        move_all(self.squares.as_mut_slice(), right, down);
        self.squares.push(Square { x: 0, y: 0, s });
        self.width = width;
        self.height = height;
    }

    // The tiling, with its squares in code order.
    pub(crate) fn into_tiling(self) -> Tiling
        ensures { result ≡ record self { squares = in_code_order self.squares } }
    {
        let Growing {
            width,
            height,
            mut squares,
        } = self;
        put_in_order(&mut squares);
        Tiling::from_known(width, height, squares)
    }
}

// Moves squares to the right and down.
fn move_all(squares: &mut [Square], right: u64, down: u64)
    requires { AllByRecursion (λ q. (q.x + right < 2 ^ 64) × (q.y + down < 2 ^ 64)) squares.old }
    ensures { squares.new ≡ map (moved_square right down) squares.old }
{
    for q in squares.iter_mut() {
        *q = Square {
            x: q.x + right,
            y: q.y + down,
            s: q.s,
        };
    }
}

// Whether the next square goes below or above: the number and the step are odd.
fn goes_up_or_down(v: u64, step: usize) -> bool
    ensures { result ≡ goes_up_or_down v step }
{
    v % 2 == 1 && step % 2 == 1
}

// Whether a bit of the number is 1, the lowest being bit 0.
fn is_set(v: u64, place: usize) -> bool
    requires { place < 64 }
    ensures { result ≡ is_odd (v / 2 ^ place) }
{
    (v >> place) % 2 == 1
}
