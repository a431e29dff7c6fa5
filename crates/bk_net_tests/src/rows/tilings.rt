//! Tilings for the rows, by their codes.

use bk_profile::lay_code;
use bk_text::{Line, read_line};
use bk_tiling::Tiling;
use std::process::Abort;

/// The 33 by 32 rectangle of nine squares.
pub(crate) const NINE_SQUARES: &str = "[18,15][7,8][14,4][10,1][9]";

/// Four squares of one size.
pub(crate) const FOUR_SQUARES: &str = "[1,1][1,1]";

/// The wires of the diagram of the nine squares.
pub(crate) const WIRES_OF_NINE: &[(u16, u16)] = &[
    (0, 2),
    (0, 1),
    (1, 3),
    (1, 4),
    (2, 5),
    (2, 3),
    (3, 5),
    (3, 4),
    (4, 5),
];

/// The tiling that has the code in a line.
pub(crate) fn tiling(rt: &impl Abort, line: &str) -> Tiling {
    match read_line(line.as_bytes()) {
        Ok(Line::Item { code, .. }) if 0 < code.groups() => match lay_code(&code) {
            Ok(tiling) => tiling,
            Err(_) => panic!(rt; "{line} isn't laid"),
        },
        _ => panic!(rt; "{line} isn't read"),
    }
}
