//! Items of two sizes.

use bk_alike::{AddFault, Alike};
use bk_tiling::{Square, Tiling};
use std::test::Fail;

// A line, the size of a rectangle, and its squares.
type Row = (u64, (u64, u64), &'static [Square]);

const ONE: &[Square] = &[Square { x: 0, y: 0, s: 1 }];

// A rectangle that lies, the square, and the rectangle that stands, twice as large.
const ROWS: &[Row] = &[
    (
        1,
        (3, 2),
        &[
            Square { x: 0, y: 0, s: 2 },
            Square { x: 2, y: 0, s: 1 },
            Square { x: 2, y: 1, s: 1 },
        ],
    ),
    (2, (1, 1), ONE),
    (
        4,
        (4, 6),
        &[
            Square { x: 0, y: 0, s: 4 },
            Square { x: 0, y: 4, s: 2 },
            Square { x: 2, y: 4, s: 2 },
        ],
    ),
];

// Whether the tiling of a line is added.
fn is_added(alike: &mut Alike, row: &Row) -> bool {
    let (line, (width, height), squares) = row;
    match Tiling::try_new(*width, *height, squares) {
        Ok(tiling) => alike.add(*line, &tiling).is_ok(),
        Err(_) => false,
    }
}

// Whether the list has these numbers of items and of groups.
fn are_counts(alike: &Alike, items: usize, groups: usize) -> bool {
    alike.len() == items && alike.groups() == groups
}

// Whether a group is there, with this size and these members.
fn is_group(alike: &Alike, g: usize, size: (u64, u64), members: &[u32]) -> bool {
    g < alike.groups() && alike.size(g) == size && alike.members(g) == members
}

#[test]
fn items_are_grouped_by_size(rt: HostRuntime) {
    let mut alike = Alike::new(rt.alloc());
    for row in ROWS {
        let line = row.0;
        assert!(rt; is_added(&mut alike, row), "{line}");
    }
    assert!(rt; are_counts(&alike, 3, 2));
    assert!(rt; is_group(&alike, 0, (3, 2), &[0, 2]));
    assert!(rt; is_group(&alike, 1, (1, 1), &[1]));
}

// The line from 1 on at which a tiling is added no more, and why, if there is one in the first 16,385.
fn first_refused(alike: &mut Alike, tiling: &Tiling) -> Option<(u64, AddFault)> {
    for line in 1..16_386 {
        if let Err(fault) = alike.add(line, tiling) {
            return Some((line, fault));
        }
    }
    None
}

#[test]
fn no_more_than_16384_items_are_kept(rt: HostRuntime) -> Result<(), Fail> {
    let one = Tiling::try_new(1, 1, ONE)?;
    let mut alike = Alike::new(rt.alloc());
    assert!(rt;
        matches!(
            first_refused(&mut alike, &one),
            Some((16_385, AddFault::Full))
        )
    );
    assert!(rt; are_counts(&alike, 16_384, 1));
    Ok(())
}
