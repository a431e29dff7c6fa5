//! Rows of `bk_simple`.

use super::codes::{Groups, laid};
use bk_simple::*;
use bk_tiling::Tiling;
use std::process::Abort;

// A side that stands twice in a tiling.
fn twice(tiling: &Tiling) -> Option<u64> {
    repeated(tiling)
}

// The column and the level of a part, its width and its height.
type Part = (u64, u64, u64, u64);

// The first part of a tiling.
fn first_part(tiling: &Tiling) -> Option<Part> {
    let found = part(tiling)?;
    Some((found.x, found.y, found.width, found.height))
}

// Asserts which side the tiling of a code repeats, and its part.
fn assert_simple(rt: &impl Abort, code: &[&[u64]], side: Option<u64>, part: Option<Part>) {
    let tiling = laid(rt, code);
    assert_eq!(rt; twice(&tiling), side);
    assert_eq!(rt; first_part(&tiling), part);
}

// The codes of the 33 by 32 and the 69 by 61 rectangle of nine squares, of the perfect square of 21 squares, and of one
// square.
static PERFECT_AND_SIMPLE: [Groups; 4] = [
    &[&[18, 15], &[7, 8], &[14, 4], &[10, 1], &[9]],
    &[&[36, 33], &[5, 28], &[25, 9, 2], &[7], &[16]],
    &[
        &[50, 35, 27],
        &[8, 19],
        &[15, 17, 11],
        &[6, 24],
        &[29, 25, 9, 2],
        &[7, 18],
        &[16],
        &[42],
        &[4, 37],
        &[33],
    ],
    &[&[1]],
];

fn perfect_and_simple_codes() -> &'static [Groups] {
    &PERFECT_AND_SIMPLE
}

#[test]
fn perfect_and_simple(rt: HostRuntime) {
    for code in perfect_and_simple_codes() {
        assert_simple(&rt, code, None, None);
    }
}

#[test]
fn repeated_sides_and_parts(rt: HostRuntime) {
    assert_simple(&rt, &[&[1], &[1]], Some(1), None);
    assert_simple(&rt, &[&[1, 1], &[1, 1]], Some(1), Some((0, 0, 2, 1)));
    assert_simple(&rt, &[&[2, 1], &[1]], Some(1), Some((2, 0, 1, 2)));
}

// A square of side 32, and the 33 by 32 rectangle of nine squares beside it.
const NINE_BESIDE_ONE: Groups = &[&[32, 18, 15], &[7, 8], &[14, 4], &[10, 1], &[9]];

// A square of side 33, and the 33 by 32 rectangle of nine squares below it.
const NINE_BELOW_ONE: Groups = &[&[33], &[18, 15], &[7, 8], &[14, 4], &[10, 1], &[9]];

// The first square begins no part, though its row or its column goes on.
#[test]
fn parts_beside_and_below(rt: HostRuntime) {
    assert_simple(&rt, NINE_BESIDE_ONE, None, Some((32, 0, 33, 32)));
    assert_simple(&rt, NINE_BELOW_ONE, None, Some((0, 33, 33, 32)));
}
