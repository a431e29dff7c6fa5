//! Rows of `bk_sym`.

use super::tilings::*;
use bk_sym::*;
use bk_tiling::Tiling;
use std::process::Abort;

// An image of a tiling.
fn turned(tiling: &Tiling, which: Turn) -> Tiling {
    image(tiling, which)
}

// The canonical tiling, and whether a tiling is it.
fn canon(tiling: &Tiling) -> Tiling {
    canonical(tiling)
}

fn is_canon(tiling: &Tiling) -> bool {
    is_canonical(tiling)
}

// A tiling in lowest terms.
fn scaled(tiling: &Tiling) -> Tiling {
    scale_down(tiling)
}

// A tiling's width, its height and its sides in code order.
type Sides = (u64, u64, &'static [u64]);

// Asserts the size of a tiling and its sides in code order.
fn assert_sides(rt: &impl Abort, tiling: &Tiling, want: Sides) {
    let (width, height, sides) = want;
    assert_eq!(rt; tiling.width(), width);
    assert_eq!(rt; tiling.height(), height);
    assert_eq!(rt; tiling.order(), sides.len());
    for (q, side) in tiling.squares().iter().zip(sides) {
        assert_eq!(rt; q.s, *side);
    }
}

// Asserts the images of a tiling.
fn assert_images(rt: &impl Abort, tiling: &Tiling, rows: &[(Turn, Sides)]) {
    for (which, sides) in rows {
        assert_sides(rt, &turned(tiling, *which), *sides);
    }
}

static IMAGES_OF_THREE: [(Turn, Sides); 8] = [
    (Turn::Same, (3, 2, &[2, 1, 1])),
    (Turn::FlipY, (3, 2, &[2, 1, 1])),
    (Turn::FlipX, (3, 2, &[1, 2, 1])),
    (Turn::Half, (3, 2, &[1, 2, 1])),
    (Turn::Swap, (2, 3, &[2, 1, 1])),
    (Turn::SwapFlipX, (2, 3, &[2, 1, 1])),
    (Turn::SwapFlipY, (2, 3, &[1, 1, 2])),
    (Turn::SwapHalf, (2, 3, &[1, 1, 2])),
];

fn images_of_three() -> &'static [(Turn, Sides)] {
    &IMAGES_OF_THREE
}

// The eight images of the rectangle of nine squares are all different.
static IMAGES_OF_NINE: [(Turn, Sides); 8] = [
    (Turn::Same, (33, 32, &[18, 15, 7, 8, 14, 4, 10, 1, 9])),
    (Turn::FlipX, (33, 32, &[15, 18, 8, 7, 4, 14, 1, 10, 9])),
    (Turn::FlipY, (33, 32, &[14, 10, 9, 1, 8, 4, 7, 18, 15])),
    (Turn::Half, (33, 32, &[9, 10, 14, 8, 1, 7, 4, 18, 15])),
    (Turn::Swap, (32, 33, &[18, 14, 4, 10, 15, 7, 1, 9, 8])),
    (Turn::SwapFlipX, (32, 33, &[14, 18, 10, 4, 7, 15, 9, 1, 8])),
    (Turn::SwapFlipY, (32, 33, &[15, 8, 9, 7, 1, 10, 18, 4, 14])),
    (Turn::SwapHalf, (32, 33, &[9, 8, 15, 1, 7, 10, 4, 18, 14])),
];

fn images_of_nine() -> &'static [(Turn, Sides)] {
    &IMAGES_OF_NINE
}

#[test]
fn eight_images(rt: HostRuntime) {
    assert_images(&rt, &tiling(&rt, three_squares()), images_of_three());
    assert_images(&rt, &tiling(&rt, nine_squares()), images_of_nine());
}

// Nine squares in lowest terms, as they lie and as they stand.
fn lying() -> Sides {
    (33, 32, &[18, 15, 7, 8, 14, 4, 10, 1, 9])
}

fn standing() -> Sides {
    (32, 33, &[18, 14, 4, 10, 15, 7, 1, 9, 8])
}

#[test]
fn one_canonical(rt: HostRuntime) {
    let turned = tiling(&rt, turned_squares());
    assert!(rt; !is_canon(&turned));
    assert_sides(&rt, &scaled(&turned), standing());

    let nine = canon(&turned);
    assert!(rt; is_canon(&nine));
    assert_sides(&rt, &nine, lying());
    assert_sides(&rt, &canon(&nine), lying());
}

// The sides of the images of a square of thirteen squares.
fn images_of_thirteen() -> &'static [(Turn, &'static [u64])] {
    &[
        (Turn::Same, &[12, 11, 2, 5, 4, 11, 1, 3, 1, 3, 7, 2, 5]),
        (Turn::FlipX, &[11, 12, 4, 5, 2, 1, 11, 3, 3, 1, 2, 7, 5]),
        (Turn::FlipY, &[11, 7, 5, 2, 3, 3, 5, 1, 4, 1, 2, 12, 11]),
        (Turn::Half, &[5, 7, 11, 3, 2, 1, 5, 3, 4, 2, 1, 12, 11]),
        (Turn::Swap, &[12, 11, 1, 3, 7, 11, 2, 5, 2, 5, 4, 1, 3]),
        (Turn::SwapFlipX, &[11, 12, 7, 3, 1, 2, 11, 5, 5, 2, 1, 4, 3]),
        (Turn::SwapFlipY, &[11, 4, 3, 5, 1, 2, 5, 7, 2, 3, 12, 1, 11]),
        (Turn::SwapHalf, &[5, 3, 4, 11, 2, 1, 5, 7, 3, 2, 1, 12, 11]),
    ]
}

// The greatest of them.
fn greatest_of_thirteen() -> Sides {
    (23, 23, &[12, 11, 2, 5, 4, 11, 1, 3, 1, 3, 7, 2, 5])
}

// Asserts an image of a square, which is canonical where it is the square itself.
fn assert_image(rt: &impl Abort, square: &Tiling, which: Turn, sides: &'static [u64]) {
    let turned = turned(square, which);
    assert_sides(rt, &turned, (23, 23, sides));
    assert_eq!(rt; is_canon(&turned), which == Turn::Same);
    assert_sides(rt, &canon(&turned), greatest_of_thirteen());
}

// A simple tiling of a square, of thirteen squares: each of its eight images lies.
#[test]
fn one_canonical_square(rt: HostRuntime) {
    let square = tiling(&rt, thirteen_squares());
    for (which, sides) in images_of_thirteen() {
        assert_image(&rt, &square, *which, sides);
    }
}
