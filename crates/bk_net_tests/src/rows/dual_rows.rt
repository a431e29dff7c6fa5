//! Rows of `bk_dual`.

use super::tilings::*;
use bk_dual::*;
use bk_tiling::Tiling;
use std::process::Abort;

// A simple square of thirteen squares.
const THIRTEEN_SQUARES: &str = "[12,11][2,5,4][11,1][3][1,3][7,2][5]";

// Whether the diagram of a tiling's vertical segments has these nodes and wires.
fn is_diagram(tiling: &Tiling, nodes: u16, wires: &[(u16, u16)]) -> bool {
    let dual = dual_of(tiling);
    dual.nodes() == nodes && dual.wires() == wires
}

// Asserts the nodes and the wires of the diagram of the vertical segments.
fn assert_diagram(rt: &impl Abort, code: &str, nodes: u16, wires: &[(u16, u16)]) {
    let tiling = tiling(rt, code);
    assert!(rt; is_diagram(&tiling, nodes, wires), "{nodes}");
}

// The wires of the diagrams of nine and of thirteen squares.
fn wires_of_nine() -> &'static [(u16, u16)] {
    &[
        (0, 2),
        (0, 1),
        (1, 2),
        (1, 3),
        (2, 5),
        (2, 4),
        (3, 4),
        (3, 5),
        (4, 5),
    ]
}

fn wires_of_thirteen() -> &'static [(u16, u16)] {
    &[
        (0, 2),
        (0, 1),
        (1, 2),
        (1, 3),
        (1, 4),
        (2, 7),
        (2, 3),
        (3, 5),
        (4, 6),
        (4, 7),
        (5, 7),
        (5, 6),
        (6, 7),
    ]
}

#[test]
fn diagrams(rt: HostRuntime) {
    assert_diagram(&rt, NINE_SQUARES, 6, wires_of_nine());
    assert_diagram(&rt, THIRTEEN_SQUARES, 8, wires_of_thirteen());
}

// Whether the wires of a tiling's diagram stand for these squares, and it has so many points where four squares meet.
fn is_order(tiling: &Tiling, order: &[u16], count: u32) -> bool {
    dual_order(tiling).as_slice() == order && crossings(tiling) == count
}

// Asserts which squares the wires stand for, and how many crossings there are.
fn assert_order(rt: &impl Abort, code: &str, order: &[u16], count: u32) {
    let tiling = tiling(rt, code);
    assert!(rt; is_order(&tiling, order, count), "{order:?}");
}

#[test]
fn orders_and_crossings(rt: HostRuntime) {
    assert_order(&rt, NINE_SQUARES, &[1, 5, 6, 7, 2, 3, 8, 9, 4], 0);
    let thirteen = &[1, 6, 7, 8, 11, 2, 3, 4, 12, 13, 5, 9, 10];
    assert_order(&rt, THIRTEEN_SQUARES, thirteen, 0);
    assert_order(&rt, FOUR_SQUARES, &[1, 3, 2, 4], 1);
    assert!(rt; crossings(&tiling(&rt, "[2,1][1]")) == 0);
}
