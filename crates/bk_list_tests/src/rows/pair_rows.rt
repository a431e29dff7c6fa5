//! Rectangles of one size that are laid together, and some that are not.

use super::tilings::tiling;
use arrayvec::ArrayVec;
use bk_pair::{KeptTiling, PairFault, join, lay_pair};
use bk_tiling::{LONGEST_SIDE, Square, Tiling};
use std::alloc::{AllocError, Global};
use std::process::Abort;
use std::test::Fail;

// Why two rectangles aren't laid together, if they aren't.
fn not_laid(a: &Tiling, b: &Tiling) -> Option<PairFault> {
    lay_pair(a, b).err()
}

// Why they aren't joined, if they aren't.
fn not_joined(a: &Tiling, b: &Tiling) -> Option<PairFault> {
    join(a, b).err()
}

// Whether a square has this width, as its height, and these sides.
fn is_square(square: &Tiling, width: u64, sides: &[u64]) -> bool {
    if square.width() != width || square.height() != width || square.order() != sides.len() {
        return false;
    }
    for (q, side) in square.squares().iter().zip(sides) {
        if q.s != *side {
            return false;
        }
    }
    true
}

// Whether two rectangles are laid together to it.
fn is_laid(a: &Tiling, b: &Tiling, width: u64, sides: &[u64]) -> bool {
    match lay_pair(a, b) {
        Ok(square) => is_square(&square, width, sides),
        Err(_) => false,
    }
}

// Whether they are laid together to a rectangle of this width and order.
fn is_laid_in_order(a: &Tiling, b: &Tiling, width: u64, order: usize) -> bool {
    match lay_pair(a, b) {
        Ok(square) => square.width() == width && square.order() == order,
        Err(_) => false,
    }
}

#[test]
fn a_rectangle_is_laid_with_itself(rt: HostRuntime) {
    let small = tiling(&rt, "[2,1][1]");
    assert!(rt; is_laid(&small, &small, 5, &[2, 1, 2, 1, 3, 2, 1, 1]));
}

// Asserts why small rectangles, one of which is a square, aren't joined.
fn assert_small(rt: &impl Abort) {
    let small = tiling(rt, "[2,1][1]");
    assert!(rt; not_joined(&small, &small) == Some(PairFault::Twice { side: 1 }));
    let long = tiling(rt, "[1,1]");
    assert!(rt; not_joined(&small, &long) == Some(PairFault::Size));
    let one = tiling(rt, "[1]");
    assert!(rt; not_joined(&one, &one) == Some(PairFault::Square));
    assert!(rt; not_laid(&one, &one) == Some(PairFault::Square));
}

// A row of a hundred squares.
fn hundred() -> Result<Tiling, Fail> {
    let mut ones = ArrayVec::<Square, 200>::new();
    for x in 0..100 {
        ones.try_push(Square { x, y: 0, s: 1 })?;
    }
    Ok(Tiling::try_new(100, 1, ones.as_slice())?)
}

// The rectangles 33x32 and 69x61 of order 9.
const CODE_33X32: &str = "[18,15][7,8][14,4][10,1][9]";

const CODE_69X61: &str = "[36,33][5,28][25,9,2][7][16]";

// Two perfect rectangles that no square joins: with itself one has all sides twice, and the other is of another size.
#[test]
fn the_rectangles_of_order_nine(rt: HostRuntime) {
    let (first, second) = (tiling(&rt, CODE_33X32), tiling(&rt, CODE_69X61));
    assert!(rt; not_joined(&first, &first) == Some(PairFault::Twice { side: 1 }));
    assert!(rt; not_joined(&first, &second) == Some(PairFault::Size));
    assert!(rt; not_laid(&first, &first) == None);
}

// Two perfect rectangles of order 13 and one size, with no side in common.
const ONE_OF_593X422: &str = "[247,154,192][116,38][230][175,72][49,67][103,18][85]";

const OTHER_OF_593X422: &str = "[222,164,207][80,41,43][39,2][37,215][200,22][178]";

// The sides of the square that they make, in code order.
const SIDES_OF_1015: &[u64] = &[
    247, 154, 192, 422, 116, 38, 230, 175, 72, 49, 67, 103, 18, 85, 593, 222, 200, 22, 178, 164,
    80, 41, 39, 2, 37, 43, 215, 207,
];

// Whether two rectangles join to a square of this width and these sides.
fn is_joined(a: &Tiling, b: &Tiling, width: u64, sides: &[u64]) -> bool {
    match join(a, b) {
        Ok(square) => is_square(&square, width, sides),
        Err(_) => false,
    }
}

// Whether two rectangles can be laid together as kept ones, and join or not.
fn kept_join(alloc: Global, a: &Tiling, b: &Tiling, joins: bool) -> Result<bool, AllocError> {
    let (first, second) = (KeptTiling::new(alloc, a)?, KeptTiling::new(alloc, b)?);
    Ok(first.can_be_laid(&second) && first.joins(&second) == joins)
}

// Whether a rectangle is kept with this size and with its squares.
fn is_kept(alloc: Global, a: &Tiling, width: u64, height: u64) -> Result<bool, AllocError> {
    let kept = KeptTiling::new(alloc, a)?;
    Ok(kept.width() == width && kept.height() == height && kept.tiling().squares() == a.squares())
}

#[test]
fn two_rectangles_join_to_a_perfect_square(rt: HostRuntime) -> Result<(), Fail> {
    let (one, other) = (tiling(&rt, ONE_OF_593X422), tiling(&rt, OTHER_OF_593X422));
    assert!(rt; is_joined(&one, &other, 1015, SIDES_OF_1015));
    assert!(rt; kept_join(rt.alloc(), &one, &other, true)?);
    assert!(rt; kept_join(rt.alloc(), &one, &one, false)?);
    assert!(rt; is_kept(rt.alloc(), &one, 593, 422)?);
    Ok(())
}

// Two squares of the longest side beside each other: the width is no side.
#[test]
fn rectangles_too_long_for_a_square(rt: HostRuntime) -> Result<(), Fail> {
    let side = LONGEST_SIDE;
    let beside = [
        Square {
            x: 0,
            y: 0,
            s: side,
        },
        Square {
            x: side,
            y: 0,
            s: side,
        },
    ];
    let long = Tiling::try_new(2 * side, side, &beside)?;
    let fault = Some(PairFault::Long {
        side: 1_999_999_999_999_998,
    });
    assert!(rt; not_laid(&long, &long) == fault);
    assert!(rt; not_joined(&long, &long) == fault);
    Ok(())
}

#[test]
fn pairs_are_refused(rt: HostRuntime) -> Result<(), Fail> {
    assert_small(&rt);
    let hundred = hundred()?;
    assert!(rt; not_laid(&hundred, &hundred) == Some(PairFault::Many { n: 202 }));
    assert!(rt; not_joined(&hundred, &hundred) == Some(PairFault::Many { n: 202 }));
    Ok(())
}

// A strip of height 2: squares of side 2 up to an even column, and two rows of squares of side 1 behind it.
fn strip(width: u64, from: u64) -> Result<Tiling, Fail> {
    let mut squares = ArrayVec::<Square, 200>::new();
    for x in 0..from {
        if x % 2 == 0 {
            squares.try_push(Square { x, y: 0, s: 2 })?;
        }
    }
    for y in 0..2 {
        for x in from..width {
            squares.try_push(Square { x, y, s: 1 })?;
        }
    }
    Ok(Tiling::try_new(width, 2, squares.as_slice())?)
}

// Why a strip and another one of its width aren't laid together, if they aren't.
fn strips_not_laid(width: u64, first: u64, second: u64) -> Result<Option<PairFault>, Fail> {
    let (a, b) = (strip(width, first)?, strip(width, second)?);
    Ok(not_laid(&a, &b))
}

// Strips of 198 squares together are laid with two squares more, and those of 199 aren't.
#[test]
fn two_hundred_squares_are_laid(rt: HostRuntime) -> Result<(), Fail> {
    assert!(rt; strips_not_laid(51, 2, 2)? == None);
    assert!(rt; strips_not_laid(52, 2, 4)? == Some(PairFault::Many { n: 201 }));
    Ok(())
}

// Whether rectangles with a side as long as the height of both are laid, and not joined.
fn upright_are_laid_alone(rt: &impl Abort) -> bool {
    let upright = tiling(rt, "[2][1,1]");
    let rows = tiling(rt, "[1,1][2]");
    not_laid(&upright, &rows) == None
        && not_joined(&upright, &rows) == Some(PairFault::Twice { side: 1 })
}

// A side that both have, and one that is as long as their height: they are laid, and not joined.
#[test]
fn shared_sides_are_laid_alone(rt: HostRuntime) {
    let wide = tiling(&rt, "[3,2][1,1]");
    assert!(rt; is_laid_in_order(&wide, &wide, 8, 10));
    assert!(rt; not_joined(&wide, &wide) == Some(PairFault::Twice { side: 1 }));
    assert!(rt; upright_are_laid_alone(&rt));
}
