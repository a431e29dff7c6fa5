//! Rows of `bk_profile`.

use super::codes::*;
use bk_code::{Code, flat};
use bk_profile::*;
use bk_tiling::{LONGEST_SIDE, Tiling};
use std::process::Abort;
use std::test::Fail;

// A tiling's width, height and order, or why there is none.
type Size = Result<(u64, u64, usize), Refusal>;

fn size(laid: Result<Tiling, Refusal>) -> Size {
    match laid {
        Ok(tiling) => Ok((tiling.width(), tiling.height(), tiling.order())),
        Err(refusal) => Err(refusal),
    }
}

// What the code with these groups is laid to.
fn laid(rt: &impl Abort, groups: Groups) -> Size {
    let code = code_with(rt, groups);
    assert!(rt; code.groups() > 0);
    size(lay_code(&code))
}

fn rows_of_codes() -> &'static [(Groups, Size)] {
    &[
        (
            &[&[18, 15], &[7, 8], &[14, 4], &[10, 1], &[9]],
            Ok((33, 32, 9)),
        ),
        (
            &[&[36, 33], &[5, 28], &[25, 9, 2], &[7], &[16]],
            Ok((69, 61, 9)),
        ),
        (&[&[1], &[1]], Ok((1, 2, 2))),
        (&[&[1, 1], &[1, 1]], Ok((2, 2, 4))),
        (&[&[2, 1], &[1]], Ok((3, 2, 3))),
        (
            &[&[18, 15], &[7, 9]],
            Err(Refusal::Gap {
                group: 2,
                gap: 15,
                sum: 16,
            }),
        ),
        (
            &[&[18, 15], &[7, 8], &[14, 4], &[10, 1]],
            Err(Refusal::Open {
                least: 23,
                greatest: 32,
            }),
        ),
    ]
}

#[test]
fn lays_codes(rt: HostRuntime) {
    for (groups, want) in rows_of_codes() {
        assert_eq!(rt; laid(&rt, groups), *want);
    }
}

// What the sides of a code are laid to under a width.
fn laid_flat(rt: &impl Abort, width: u64, code: &Code) -> Size {
    assert!(rt; !flat(code).is_empty());
    assert!(rt; width >= 1 && width <= 999_999_999_999_999_999);
    size(lay_flat(width, flat(code)))
}

fn rows_of_flat_lists() -> &'static [(u64, &'static [u64], Size)] {
    &[
        (33, &[18, 15, 7, 8, 14, 4, 10, 1, 9], Ok((33, 32, 9))),
        (
            32,
            &[18, 15, 7, 8, 14, 4, 10, 1, 9],
            Err(Refusal::Gap {
                group: 1,
                gap: 32,
                sum: 33,
            }),
        ),
        (
            33,
            &[18, 15, 7, 8, 14, 4, 10, 1],
            Err(Refusal::Open {
                least: 23,
                greatest: 32,
            }),
        ),
        (
            33,
            &[18, 15, 7, 8, 14, 4, 10],
            Err(Refusal::Gap {
                group: 4,
                gap: 11,
                sum: 10,
            }),
        ),
        (
            999_999_999_999_999_999,
            &[1],
            Err(Refusal::Gap {
                group: 1,
                gap: 999_999_999_999_999_999,
                sum: 1,
            }),
        ),
    ]
}

#[test]
fn lays_flat_lists(rt: HostRuntime) {
    for (width, sides, want) in rows_of_flat_lists() {
        let code = code_with(&rt, &[*sides]);
        assert_eq!(rt; laid_flat(&rt, *width, &code), *want);
    }
}

// Lays a group of two sides.
fn lay_two(rt: &impl Abort, profile: &mut Profile, sides: &[u64; 2]) -> Result<(), GapFault> {
    assert!(rt; sides[0] >= 1 && sides[0] <= LONGEST_SIDE);
    assert!(rt; sides[1] >= 1 && sides[1] <= LONGEST_SIDE);
    assert!(rt; profile.laid().len() < 100);
    profile.lay(sides)
}

// The column, the width and the level of the gap.
fn gap(profile: &Profile) -> (u64, u64, u64) {
    let gap = profile.gap();
    (gap.x, gap.width, gap.level)
}

// The squares that are laid, by their columns, levels and sides.
fn assert_laid(rt: &impl Abort, profile: &Profile, squares: &[(u64, u64, u64)]) {
    assert_eq!(rt; profile.laid().len(), squares.len());
    for (q, (x, y, s)) in profile.laid().iter().zip(squares) {
        assert_eq!(rt; (q.x, q.y, q.s), (*x, *y, *s));
    }
}

#[test]
fn lays_group_by_group(rt: HostRuntime) {
    let mut profile = Profile::new(33);
    assert_eq!(rt; gap(&profile), (0, 33, 0));
    assert_eq!(rt; lay_two(&rt, &mut profile, &[18, 15]), Ok(()));
    assert_eq!(rt; gap(&profile), (18, 15, 15));
    let fault = GapFault { gap: 15, sum: 16 };
    assert_eq!(rt; lay_two(&rt, &mut profile, &[7, 9]), Err(fault));
    assert_eq!(rt; (profile.least(), profile.greatest()), (15, 18));
    assert_laid(&rt, &profile, &[(0, 0, 18), (18, 0, 15)]);
}

#[test]
fn names_its_refusals(rt: HostRuntime) -> Result<(), Fail> {
    let gap = Refusal::Gap {
        group: 2,
        gap: 15,
        sum: 16,
    };
    let open = Refusal::Open {
        least: 23,
        greatest: 32,
    };
    for (refusal, name) in [(gap, "Gap"), (open, "Open")] {
        assert_eq!(rt; format!(in rt.alloc(); "{refusal}")?.as_str(), name);
    }
    Ok(())
}
