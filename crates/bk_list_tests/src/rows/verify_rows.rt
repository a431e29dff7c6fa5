//! Rows of `bk_verify`.

use super::library_rows::{Row, verify_list};
use bk_verify::Fed;
use std::marker::Brand;
use std::sync::ledger::Blank;

const NINE: &str = "[18,15][7,8][14,4][10,1][9]";

// The nine squares of the rectangle 33x32, turned and twice as large.
const TURNED: &str = "[36,28][8,20][30,14][2,18][16]";

// Simple, and not perfect.
const IMPERFECT: &str = "[6,4,5][3,1][6][5,1][4]";

// A list of order 9 with two that are foreign.
const LIST: &[Row] = &[
    (1, NINE, Some(Fed::New)),
    (4, TURNED, Some(Fed::Repeats { line: 1 })),
    (5, NINE, Some(Fed::Repeats { line: 1 })),
    (6, "[1]", Some(Fed::Foreign)),
    (6, IMPERFECT, Some(Fed::Foreign)),
];

#[test]
fn a_list_is_held_against_its_catalogue(rt: HostRuntime) {
    verify_list::<Brand>(&rt, rt.alloc(), Blank::new(1), LIST);
}
