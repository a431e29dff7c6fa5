//! Rows of `bk_tiling`.

use super::tilings::{Placed, squares_of, tiling};
use bk_tiling::*;
use std::process::Abort;

// The nine squares of the 33 by 32 rectangle, in no order.
fn nine_in_no_order() -> &'static [Placed] {
    &[
        (24, 22, 1),
        (18, 15, 7),
        (14, 18, 4),
        (0, 0, 18),
        (24, 23, 9),
        (18, 0, 15),
        (25, 15, 8),
        (14, 22, 10),
        (0, 18, 14),
    ]
}

// Why no rectangle of a size is tiled by these squares.
fn refusal(rt: &impl Abort, width: u64, height: u64, placed: &[Placed]) -> Option<NotTiling> {
    let squares = squares_of(rt, placed);
    refused(width, height, squares.as_slice())
}

fn refused(width: u64, height: u64, squares: &[Square]) -> Option<NotTiling> {
    match Tiling::try_new(width, height, squares) {
        Ok(_) => None,
        Err(why) => Some(why),
    }
}

// A size, squares, and why they don't tile the rectangle.
type Row = (u64, u64, &'static [Placed], NotTiling);

static ROWS: [Row; 9] = [
    (2, 0, &[(0, 0, 1)], NotTiling::Empty),
    (0, 2, &[(0, 0, 1)], NotTiling::Empty),
    (2, 1, &[(0, 0, 1), (1, 0, 0)], NotTiling::Side { i: 1 }),
    (
        2,
        1,
        &[(0, 0, 1_000_000_000_000_000)],
        NotTiling::Side { i: 0 },
    ),
    (
        2,
        1,
        &[(0, 0, 1), (u64::MAX, 0, 1)],
        NotTiling::Outside { i: 1 },
    ),
    (
        2,
        1,
        &[(0, 0, 1), (1, 0, 1), (1, 0, 1)],
        NotTiling::Overlap { i: 1, j: 2 },
    ),
    (
        2,
        2,
        &[(1, 1, 1), (0, 0, 2), (0, 0, 1)],
        NotTiling::Overlap { i: 0, j: 1 },
    ),
    (2, 1, &[(0, 0, 1)], NotTiling::Uncovered { x: 1, y: 0 }),
    (
        2,
        2,
        &[(1, 0, 1), (0, 1, 1)],
        NotTiling::Uncovered { x: 0, y: 0 },
    ),
];

fn rows() -> &'static [Row] {
    &ROWS
}

#[test]
fn refuses_at_the_place(rt: HostRuntime) {
    for (width, height, placed, want) in rows() {
        assert_eq!(rt; refusal(&rt, *width, *height, placed), Some(*want));
    }
    let why = refusal(&rt, 33, 33, nine_in_no_order());
    assert_eq!(rt; why, Some(NotTiling::Uncovered { x: 0, y: 32 }));
    let crowd = [Square { x: 0, y: 0, s: 1 }; 201];
    assert_eq!(rt; refused(0, 1, &crowd), Some(NotTiling::Many { n: 201 }));
}

// Asserts the size of a tiling, its sides in code order, and that a group begins at each second square.
fn assert_tiling(rt: &impl Abort, tiling: &Tiling, sides: &[u64]) {
    assert_eq!(rt; (tiling.width(), tiling.height()), (33, 32));
    assert_eq!(rt; tiling.order(), sides.len());
    for (q, side) in tiling.squares().iter().zip(sides) {
        assert_eq!(rt; q.s, *side);
    }
    for i in 0..tiling.order() {
        assert_eq!(rt; tiling.begins_group(i), i % 2 == 0);
    }
}

#[test]
fn puts_nine_squares_in_order(rt: HostRuntime) {
    let tiling = tiling(&rt, (33, 32, nine_in_no_order()));
    assert_tiling(&rt, &tiling, &[18, 15, 7, 8, 14, 4, 10, 1, 9]);
}
