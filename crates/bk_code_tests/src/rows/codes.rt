//! Codes for the rows.

use bk_code::*;
use bk_profile::lay_code;
use bk_tiling::{LONGEST_SIDE, MOST_SQUARES, Tiling};
use std::process::Abort;

/// The sides of the groups of a code.
pub(crate) type Groups = &'static [&'static [u64]];

// Adds a side, in a group of its own where it is the first of one.
fn add(rt: &impl Abort, code: &mut Code, is_first: bool, side: u64) {
    assert!(rt; side >= 1 && side <= LONGEST_SIDE);
    assert!(rt; flat(code).len() < MOST_SQUARES);
    if is_first {
        code.begin_group(side);
    } else {
        assert!(rt; code.groups() > 0);
        code.push_side(side);
    }
}

/// The code with these groups, built side by side.
pub(crate) fn code_with(rt: &impl Abort, groups: &[&[u64]]) -> Code {
    let mut code = Code::new();
    for group in groups {
        for (i, side) in group.iter().enumerate() {
            add(rt, &mut code, i == 0, *side);
        }
    }
    code
}

/// The tiling that has the code with these groups.
pub(crate) fn laid(rt: &impl Abort, groups: &[&[u64]]) -> Tiling {
    let code = code_with(rt, groups);
    assert!(rt; code.groups() > 0);
    match lay_code(&code) {
        Ok(tiling) => tiling,
        Err(_) => panic!(rt; "it is laid"),
    }
}
