//! Rows of `bk_code`.

use super::codes::*;
use super::tilings::*;
use bk_code::*;
use bk_tiling::Tiling;
use std::cmp::Ordering;
use std::process::Abort;

fn assert_groups(rt: &impl Abort, code: &Code, groups: &[&[u64]]) {
    assert_eq!(rt; code.groups(), groups.len());
    for (g, group) in groups.iter().enumerate() {
        assert!(rt; g < code.groups());
        assert_eq!(rt; code.group(g), *group);
    }
}

// The code of a tiling.
fn code_in(tiling: &Tiling) -> Code {
    code_of(tiling)
}

// Asserts the groups of the code of a rectangle.
fn assert_code(rt: &impl Abort, rectangle: Rectangle, groups: Groups) {
    let code = code_in(&tiling(rt, rectangle));
    assert_groups(rt, &code, groups);
    assert_eq!(rt; flat(&code).len(), rectangle.2.len());
}

// The groups of the code of nine squares.
fn groups_of_nine() -> Groups {
    &[&[18, 15], &[7, 8], &[14, 4], &[10, 1], &[9]]
}

#[test]
fn reads_codes_off_tilings(rt: HostRuntime) {
    assert_code(&rt, nine_squares(), groups_of_nine());
    assert_code(&rt, four_squares(), &[&[1, 1], &[1, 1]]);
}

// Three squares in two groups, added group by group.
fn two_groups() -> Code {
    let mut code = Code::new();
    code.add_group(&[2, 1]);
    code.add_group(&[1]);
    code
}

#[test]
fn adds_groups(rt: HostRuntime) {
    assert_eq!(rt; Code::new().groups(), 0);
    let code = two_groups();
    assert_groups(&rt, &code, &[&[2, 1], &[1]]);
    assert_eq!(rt; flat(&code), [2, 1, 1].as_slice());
}

// How two codes compare.
fn compared(a: &Code, b: &Code) -> Ordering {
    cmp_codes(a, b)
}

fn pairs_of_codes() -> &'static [(Groups, Groups, Ordering)] {
    &[
        (&[&[2, 1], &[1]], &[&[2, 1], &[1]], Ordering::Equal),
        (&[&[2, 1], &[1]], &[&[2], &[1, 1]], Ordering::Equal),
        (&[&[2, 1]], &[&[2, 1], &[1]], Ordering::Less),
        (&[&[3]], &[&[2, 9]], Ordering::Greater),
        (&[], &[&[1]], Ordering::Less),
    ]
}

#[test]
fn compares_flat_lists(rt: HostRuntime) {
    for (a, b, want) in pairs_of_codes() {
        let got = compared(&code_with(&rt, a), &code_with(&rt, b));
        assert_eq!(rt; got, *want);
    }
}
