//! Rows of `bk_draw`.

use super::tilings::*;
use arrayvec::ArrayVec;
use bk_draw::*;
use bk_tiling::Tiling;
use std::process::Abort;

// A row of a drawing.
type Drawn = ArrayVec<u8, 402>;

// Draws a row of a tiling.
fn draw(rt: &impl Abort, tiling: &Tiling, y: u64, row: &mut Drawn) {
    assert!(rt; tiling.width() <= LARGEST_DRAWN);
    draw_row(tiling, y, row);
}

fn rows_of_three() -> &'static [(u64, &'static [u8])] {
    &[(0, b"+-++\n"), (1, b"| ++\n"), (2, b"+-++\n")]
}

// Whether a row of a tiling is drawn so, over an older one.
fn is_drawn(rt: &impl Abort, tiling: &Tiling, y: u64, row: &mut Drawn, want: &[u8]) -> bool {
    draw(rt, tiling, y, row);
    row.as_slice() == want
}

#[test]
fn rows_of_three_squares(rt: HostRuntime) {
    let tiling = tiling(&rt, three_squares());
    let mut row = ArrayVec::new();
    for (y, want) in rows_of_three() {
        assert!(rt; is_drawn(&rt, &tiling, *y, &mut row, want), "{y}");
    }
}

// Asserts the length of a row, and how it begins and ends.
fn assert_wide(rt: &impl Abort, row: &[u8], begin: &[u8], end: &[u8]) {
    assert_eq!(rt; row.len(), 402);
    assert!(rt; row.starts_with(begin));
    assert!(rt; row.ends_with(end));
}

#[test]
fn widest_row(rt: HostRuntime) {
    let tiling = tiling(&rt, (400, 400, &[(0, 0, 400)]));
    let mut row = ArrayVec::new();
    draw(&rt, &tiling, 400, &mut row);
    assert_wide(&rt, &row, b"+-", b"-+\n");
    draw(&rt, &tiling, 200, &mut row);
    assert_wide(&rt, &row, b"| ", b" |\n");
}
