//! Tilings for the rows.

use arrayvec::ArrayVec;
use bk_tiling::{MOST_SQUARES, Square, Tiling};
use std::process::Abort;

/// A square by its column, its level and its side.
pub(crate) type Placed = (u64, u64, u64);

/// A rectangle by its width, its height and its squares.
pub(crate) type Rectangle = (u64, u64, &'static [Placed]);

/// Squares of these columns, levels and sides.
pub(crate) fn squares_of(rt: &impl Abort, placed: &[Placed]) -> ArrayVec<Square, MOST_SQUARES> {
    let mut squares = ArrayVec::new();
    for (x, y, s) in placed {
        let square = Square {
            x: *x,
            y: *y,
            s: *s,
        };
        assert!(rt; squares.try_push(square).is_ok());
    }
    squares
}

/// The tiling of a rectangle by its squares.
pub(crate) fn tiling(rt: &impl Abort, rectangle: Rectangle) -> Tiling {
    let (width, height, placed) = rectangle;
    let squares = squares_of(rt, placed);
    match Tiling::try_new(width, height, squares.as_slice()) {
        Ok(tiling) => tiling,
        Err(_) => panic!(rt; "they tile it"),
    }
}

/// The 33 by 32 rectangle of nine squares.
pub(crate) fn nine_squares() -> Rectangle {
    (
        33,
        32,
        &[
            (0, 0, 18),
            (18, 0, 15),
            (18, 15, 7),
            (25, 15, 8),
            (0, 18, 14),
            (14, 18, 4),
            (14, 22, 10),
            (24, 22, 1),
            (24, 23, 9),
        ],
    )
}

/// Four squares of one size.
pub(crate) fn four_squares() -> Rectangle {
    (2, 2, &[(0, 0, 1), (1, 0, 1), (0, 1, 1), (1, 1, 1)])
}

/// Two squares beside one of twice their size.
pub(crate) fn three_squares() -> Rectangle {
    (3, 2, &[(0, 0, 2), (2, 0, 1), (2, 1, 1)])
}

/// Nine squares of a perfect rectangle, turned and twice as large.
pub(crate) fn turned_squares() -> Rectangle {
    (
        64,
        66,
        &[
            (0, 0, 36),
            (36, 0, 28),
            (36, 28, 8),
            (44, 28, 20),
            (0, 36, 30),
            (30, 36, 14),
            (44, 48, 2),
            (46, 48, 18),
            (30, 50, 16),
        ],
    )
}

/// A simple square of thirteen squares.
pub(crate) fn thirteen_squares() -> Rectangle {
    (
        23,
        23,
        &[
            (0, 0, 12),
            (12, 0, 11),
            (12, 11, 2),
            (14, 11, 5),
            (19, 11, 4),
            (0, 12, 11),
            (11, 12, 1),
            (11, 13, 3),
            (19, 15, 1),
            (20, 15, 3),
            (11, 16, 7),
            (18, 16, 2),
            (18, 18, 5),
        ],
    )
}
