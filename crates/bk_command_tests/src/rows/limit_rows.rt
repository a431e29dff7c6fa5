//! Each command at its limits.

use super::command_runs::*;
use arrayvec::ArrayVec;
use bk_ports::MemSource;
use std::alloc::{AllocError, Global};
use std::test::Fail;

const LONGEST: &str = "[999999999999999]";

fn rows_of_the_longest_side() -> &'static [Row] {
    &[
        (
            "check",
            LONGEST,
            0,
            "ok 1 999999999999999x999999999999999 perfect simple\n",
        ),
        ("canon", LONGEST, 0, "1x1 [1]\n"),
        (
            "net",
            LONGEST,
            0,
            "2 0-1 ; 999999999999999 999999999999999\n",
        ),
        (
            "dual",
            LONGEST,
            0,
            "2 0-1 ; 999999999999999 999999999999999 ; 1 ; 0\n",
        ),
        ("word", LONGEST, 0, "1\n"),
        (
            "alike",
            LONGEST,
            0,
            "1x1 1\n1 [1]\n; groups 1 items 1 refused 0\n",
        ),
        ("pair", LONGEST, 0, "; pairs 0 items 1 refused 0\n"),
        ("draw", LONGEST, 1, "no large\n"),
    ]
}

// One square of the longest side.
#[test]
fn the_longest_side(rt: HostRuntime) {
    expect_rows(&rt, rt.alloc(), 9_000, rows_of_the_longest_side());
    let image = "999999999999999x999999999999999 [999999999999999]\n";
    let images = ("", image, 8, "");
    assert!(rt; is_built(rt.alloc(), "images", (LONGEST, "", 0, ""), 0, images));
}

// A tower of two hundred squares of side 1.
const TOWER: Parts = ("", "[1]", 200, "");

// One of the longest side.
const LONGEST_TOWER: Parts = ("", "[999999999999999]", 200, "");

static ROWS_OF_TOWERS: [(&'static str, Parts, Parts); 12] = [
    (
        "check",
        TOWER,
        ("ok 200 1x200 imperfect 1 compound 0,0 1x2\n", "", 0, ""),
    ),
    ("canon", TOWER, ("200x1 [1", ",1", 199, "]\n")),
    ("draw", TOWER, ("", "++\n", 201, "")),
    ("word", ("", "[1]", 33, ""), ("1", ".1", 32, "\n")),
    ("word", ("", "[1]", 65, ""), ("1", ".1", 64, "\n")),
    ("word", ("", "[1]", 129, ""), ("1", ".1", 128, "\n")),
    ("word", TOWER, ("1", ".1", 199, "\n")),
    ("solve", ("1", ".1", 32, ""), ("1x33 ", "[1]", 33, "\n")),
    ("solve", ("1", ".1", 64, ""), ("1x65 ", "[1]", 65, "\n")),
    ("solve", ("1", ".1", 128, ""), ("1x129 ", "[1]", 129, "\n")),
    ("solve", ("1", ".1", 199, ""), ("1x200 ", "[1]", 200, "\n")),
    (
        "check",
        LONGEST_TOWER,
        (
            "ok 200 999999999999999x199999999999999800 imperfect 999999999999999",
            " compound 0,0 999999999999999x1999999999999998\n",
            1,
            "",
        ),
    ),
];

fn rows_of_towers() -> &'static [(&'static str, Parts, Parts)] {
    &ROWS_OF_TOWERS
}

#[test]
fn towers_of_up_to_two_hundred_squares(rt: HostRuntime) {
    for (command, input, output) in rows_of_towers() {
        let part = input.1;
        assert!(rt;
            is_built(rt.alloc(), command, *input, 0, *output),
            "{command} {part}"
        );
    }
}

// The images of the tower.
fn images_of_the_tower() -> Text {
    let mut images = ArrayVec::new();
    for _ in 0..4 {
        add(&mut images, ("1x200 ", "[1]", 200, "\n"));
    }
    for _ in 0..4 {
        add(&mut images, ("200x1 [1", ",1", 199, "]\n"));
    }
    images
}

// The dual diagram of the tower.
fn dual_of_the_tower(alloc: Global) -> Result<Text, AllocError> {
    let mut dual = built(("2", " 0-1", 200, " ; 200"));
    add(&mut dual, ("", " 1", 200, " ;"));
    for square in 1..=200 {
        let number = format!(in alloc; " {square}")?;
        let _ = dual.try_extend_from_slice(number.as_str().as_bytes());
    }
    add(&mut dual, (" ; 0\n", "", 0, ""));
    Ok(dual)
}

// The line of a ladder of 92 rungs: each node is joined to the last one and to the next.
fn ladder(alloc: Global) -> Result<Text, AllocError> {
    let mut line = built(("94", "", 0, ""));
    for node in 0..92 {
        let next = node + 1;
        let wires = format!(in alloc; " {node}-93 {node}-{next}")?;
        let _ = line.try_extend_from_slice(wires.as_str().as_bytes());
    }
    add(&mut line, (" 92-93", "", 0, ""));
    Ok(line)
}

// The total of its currents in lowest terms is the 186th Fibonacci number, which has 128 bits.
#[test]
fn a_wide_flow(rt: HostRuntime) -> Result<(), Fail> {
    let line = ladder(rt.alloc())?;
    assert!(rt; ends_at_once(rt.alloc(), "flow", &line, (1, b"wide\n")));
    Ok(())
}

// Whether these are the images of the tower.
fn tower_has_images(alloc: Global) -> bool {
    let (tower, images) = (built(TOWER), images_of_the_tower());
    ends_at_once(alloc, "images", &tower, (0, &images))
}

// Whether this is its dual diagram.
fn tower_has_dual(alloc: Global) -> Result<bool, AllocError> {
    let (tower, dual) = (built(TOWER), dual_of_the_tower(alloc)?);
    Ok(ends_at_once(alloc, "dual", &tower, (0, &dual)))
}

// Whether these are the currents of its Smith diagram, as `net` writes it.
fn tower_has_currents(alloc: Global) -> Result<bool, AllocError> {
    let tower = built(TOWER);
    let mut source = MemSource::new(&tower, 9_000, &[]);
    let (status, net) = ran(alloc, "net", &mut source, NO_WRITE)?;
    let currents = built(("1", " 1", 200, "\n"));
    Ok(status == 0 && ends_at_once(alloc, "flow", &net, (0, &currents)))
}

// The images of the tower; its dual diagram; and the currents of its Smith diagram.
#[test]
fn diagrams_of_two_hundred_squares(rt: HostRuntime) -> Result<(), Fail> {
    assert!(rt; tower_has_images(rt.alloc()));
    assert!(rt; tower_has_dual(rt.alloc())?);
    assert!(rt; tower_has_currents(rt.alloc())?);
    Ok(())
}

// The one canonical item of both towers.
const GROUP: Parts = (
    "200x1 1\n1 [1",
    ",1",
    199,
    "]\n; groups 1 items 1 refused 0\n",
);

// What is written of an item that is foreign to the catalogue of order 8, which has no member.
const FOREIGN: Parts = (
    "line 1 foreign\n; end order 8 members 0 missing 0 foreign 1 repeated 0 refused 0\n",
    "",
    0,
    "",
);

// A command, its input, the status and what is written.
static ROWS_OF_LISTS: [(&'static str, Parts, u8, Parts); 5] = [
    ("alike", TOWER, 0, GROUP),
    ("verify --order 8", TOWER, 1, FOREIGN),
    ("alike", LONGEST_TOWER, 0, GROUP),
    ("verify --order 8", LONGEST_TOWER, 1, FOREIGN),
    ("verify --order 8", (LONGEST, "", 0, ""), 1, FOREIGN),
];

fn rows_of_lists() -> &'static [(&'static str, Parts, u8, Parts)] {
    &ROWS_OF_LISTS
}

// Two hundred squares of side 1 or of the longest side are one canonical item, which is no member.
#[test]
fn lists_of_two_hundred_squares(rt: HostRuntime) {
    for (command, input, status, output) in rows_of_lists() {
        let part = input.1;
        assert!(rt;
            is_built(rt.alloc(), command, *input, *status, *output),
            "{command} {part}"
        );
    }
}
