//! Members that are squares.

ghost use Rattle.std.specs.Prelude.{◌<◌, ◌≡◌};

use bk_play::Steps;
use bk_tiling::Tiling;
use bk_walk::{MOST_MEMBERS, Walk};
use bk_word::{Class, LARGEST_LISTED_ORDER};
use std::alloc::Global;
use std::marker::Brand;
use std::process::Abort;
use std::sync::ledger::{Blank, Ledger};

// The side of a square, and the sides in its code.
type Sides = (u64, &'static [u64]);

// [12,11][2,5,4][11,1][3][1,3][7,2][5]
const OF_13: Sides = (23, &[12, 11, 2, 5, 4, 11, 1, 3, 1, 3, 7, 2, 5]);

// [20,19][8,11][8,5,7][3,2][12,5][11][2,9][7]
const FIRST_OF_15: Sides = (39, &[20, 19, 8, 11, 8, 5, 7, 3, 2, 12, 5, 11, 2, 9, 7]);

// [23,18][7,11][18,3,2][1,5,3][4][2,1][12][11]
const SECOND_OF_15: Sides = (41, &[23, 18, 7, 11, 18, 3, 2, 1, 5, 3, 4, 2, 1, 12, 11]);

// [20,19][2,5,12][19,1][3][8][1,3,8][7,2][5]
const THIRD_OF_15: Sides = (39, &[20, 19, 2, 5, 12, 19, 1, 3, 8, 1, 3, 8, 7, 2, 5]);

// Orders, and the imperfect members that are squares, in the order of their words. No perfect one of so few squares is
// one.
static ORDERS: [(u8, &[Sides]); 5] = [
    (9, &[]),
    (12, &[]),
    (13, &[OF_13]),
    (14, &[]),
    (15, &[FIRST_OF_15, SECOND_OF_15, THIRD_OF_15]),
];

fn rows_of_orders() -> &'static [(u8, &'static [Sides])] {
    &ORDERS
}

// A walk through the imperfect members of an order.
fn walk_of(rt: &impl Abort, alloc: Global, order: u8) -> Walk {
    assert!(rt; order >= 2 && usize::from(order) <= LARGEST_LISTED_ORDER);
    Walk::new(alloc, order, Class::Imperfect, None)
}

// The next member of a walk that is a square.
fn next_square<L: Ledger>(walk: &mut Walk, steps: &mut Steps<L>) -> Option<Tiling> {
    for _ in 0..MOST_MEMBERS {
        let entry = walk.advance(steps)?.ok()?;
        if entry.tiling.width() == entry.tiling.height() {
            return Some(entry.tiling);
        }
    }
    None
}

// Whether a tiling has this width and these sides.
fn is_square(tiling: &Tiling, square: &Sides) -> bool {
    let (width, sides) = square;
    tiling.width() == *width
        && tiling.order() == sides.len()
        && tiling
            .squares()
            .iter()
            .zip(*sides)
            .all(|(q, side)| q.s == *side)
}

// Whether the next square is this one, or none is left.
fn comes_next<L: Ledger>(walk: &mut Walk, square: Option<&Sides>, steps: &mut Steps<L>) -> bool {
    match (next_square(walk, steps), square) {
        (Some(tiling), Some(square)) => is_square(&tiling, square),
        (None, None) => true,
        _ => false,
    }
}

fn orders<L: Ledger>(rt: &impl Abort, alloc: Global, blank: Blank)
    requires name { blank.name ≡ L.name }
    requires parts { blank.parts ≡ L.parts }
    requires some { 0 < L.parts }
{
    let mut steps: Steps<L> = Steps::new(blank);
    for (order, squares) in rows_of_orders() {
        let mut walk = walk_of(rt, alloc, *order);
        for square in *squares {
            assert!(rt; comes_next(&mut walk, Some(square), &mut steps), "{order}");
        }
        assert!(rt; comes_next(&mut walk, None, &mut steps), "{order}");
    }
}

#[test]
fn walks_come_to_just_these_squares(rt: HostRuntime) {
    orders::<Brand>(&rt, rt.alloc(), Blank::new(1));
}
