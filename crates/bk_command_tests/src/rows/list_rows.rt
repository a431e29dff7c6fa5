//! Lists that are grouped, paired or verified, as tables. The input comes in parts of eight bytes.

use super::command_runs::*;
use super::command_words::words;
use bk_ports::{MemSink, MemSource};
use std::alloc::{AllocError, Global};
use std::test::Fail;

fn rows_of_groups() -> &'static [Row] {
    &[
        (
            "alike",
            "[2,1][1]\n[1]\n[2][1,1]\n",
            0,
            "3x2 2\n1 [2,1][1]\n3 [2,1][1]\n1x1 1\n2 [1]\n; groups 2 items 3 refused 0\n",
        ),
        ("alike", "", 0, "; groups 0 items 0 refused 0\n"),
        (
            "alike",
            "[1]\n[2,1][1]\n; a comment\n[1]\n[2][1,1]",
            0,
            "1x1 2\n1 [1]\n4 [1]\n3x2 2\n2 [2,1][1]\n5 [2,1][1]\n; groups 2 items 4 refused 0\n",
        ),
        (
            "alike",
            "[1,1]\n[18,,15]\n[1][1]\n33x32\n[2,1][1]",
            1,
            "line 2 no text 4\nline 4 no text 5\n\
             2x1 2\n1 [1,1]\n3 [1,1]\n3x2 1\n5 [2,1][1]\n; groups 2 items 3 refused 2\n",
        ),
        (
            "alike",
            "33x32 [18,15][7,8][14,4][10,1][9]\n[18,15][7,9]\n[2,2]",
            1,
            "line 2 no gap 2 15 16\n33x32 1\n1 [18,15][7,8][14,4][10,1][9]\n2x1 1\n3 [1,1]\n\
             ; groups 2 items 2 refused 1\n",
        ),
    ]
}

#[test]
fn items_are_grouped(rt: HostRuntime) {
    expect_rows(&rt, rt.alloc(), 8, rows_of_groups());
}

// Of the rectangles 593x422 the sides differ, so two of them with two squares make the perfect square of side 1015.
fn rows_of_pairs() -> &'static [Row] {
    &[
        (
            "pair --kind any",
            "[2,1][1]\n[1,2][1]\n",
            0,
            "1 2 5x5 [2,1,2][1][3,2][1,1]\n; pairs 1 items 2 refused 0\n",
        ),
        (
            "pair",
            "[2,1][1]\n[1,2][1]\n",
            0,
            "; pairs 0 items 2 refused 0\n",
        ),
        ("pair", "", 0, "; pairs 0 items 0 refused 0\n"),
        (
            "pair --kind any",
            "[1]\n[1]\n[1,1][1,1]",
            0,
            "; pairs 0 items 3 refused 0\n",
        ),
        (
            "pair --kind any",
            "[2,1][1]\n[1,1]\n[2,1][1]\n[1\n[2,1][1]",
            1,
            "line 4 no text 2\n1 3 5x5 [2,1,2][1][3,2][1,1]\n1 5 5x5 [2,1,2][1][3,2][1,1]\n\
             3 5 5x5 [2,1,2][1][3,2][1,1]\n; pairs 3 items 4 refused 1\n",
        ),
        (
            "pair --kind perfect",
            "33x32 [18,15][7,8][14,4][10,1][9]\n33x32 [18,15][7,8][14,4][10,1][9]",
            0,
            "; pairs 0 items 2 refused 0\n",
        ),
        (
            "pair",
            "[247,154,192][116,38][230][175,72][49,67][103,18][85]\n\
             [247,154,192][116,38][230][175,72][49,67][103,18][85]\n\
             [222,164,207][80,41,43][39,2][37,215][200,22][178]\n",
            0,
            "1 3 1015x1015 [247,154,192,422][116,38][230][175,72][49,67][103,18][85][593,222,200][22,178]\
             [164,80][41,39][2,37][43][215][207]\n\
             2 3 1015x1015 [247,154,192,422][116,38][230][175,72][49,67][103,18][85][593,222,200][22,178]\
             [164,80][41,39][2,37][43][215][207]\n; pairs 2 items 3 refused 0\n",
        ),
    ]
}

// Both members of order 9, and one alone.
fn rows_of_whole_lists() -> &'static [Row] {
    &[
        (
            "verify --order 9",
            "[18,15][7,8][14,4][10,1][9]\n[36,33][5,28][25,9,2][7][16]\n",
            0,
            "; end order 9 members 2 missing 0 foreign 0 repeated 0 refused 0\n",
        ),
        (
            "verify --order 9",
            "[36,33][5,28][25,9,2][7][16]\n",
            1,
            "missing 9 33x32 [18,15][7,8][14,4][10,1][9] ; 2u.2aa.2ue.2eue.1e\n\
             ; end order 9 members 2 missing 1 foreign 0 repeated 0 refused 0\n",
        ),
    ]
}

#[test]
fn a_list_is_the_catalogue(rt: HostRuntime) {
    expect_rows(&rt, rt.alloc(), 8, rows_of_whole_lists());
}

#[test]
fn items_are_paired(rt: HostRuntime) {
    expect_rows(&rt, rt.alloc(), 8, rows_of_pairs());
}

fn rows_of_faults() -> &'static [FailingRow] {
    &[
        ("alike", "[1]\n[1]\n[1]", 1, NO_WRITE, 3, ""),
        ("pair", "[1\n[1]\n[1]", 1, NO_WRITE, 3, "line 1 no text 2\n"),
        ("alike", "[1\n[1]", NO_READ, (0, 3), 4, "lin"),
        ("alike", "[1]", NO_READ, (0, 2), 4, "1x"),
        ("alike", "[1]", NO_READ, (1, 2), 4, "1x1 1\n1 "),
        ("alike", "[1]", NO_READ, (2, 1), 4, "1x1 1\n1 [1]\n;"),
        ("pair --kind any", "[1,1]\n[1,1]", NO_READ, (0, 3), 4, "1 2"),
        (
            "pair --kind any",
            "[1,1]\n[1,1]",
            NO_READ,
            (1, 2),
            4,
            "1 2 3x3 [1,1,1][2,1][1]\n; ",
        ),
    ]
}

#[test]
fn failed_reads_and_writes(rt: HostRuntime) {
    expect_failing_rows(&rt, rt.alloc(), 8, rows_of_faults());
}

// Whether what is written of the pairs of two columns of so many squares ends so.
fn columns_are_paired(alloc: Global, squares: usize, last: &str) -> Result<bool, AllocError> {
    let mut input = built(("", "[1]", squares, "\n"));
    add(&mut input, ("", "[1]", squares, "\n"));
    let mut source = MemSource::new(&input, 8, &[]);
    let (status, text) = ran(alloc, "pair --kind any", &mut source, NO_WRITE)?;
    Ok(status == 0 && text.as_slice().ends_with(last.as_bytes()))
}

#[test]
fn two_hundred_squares_are_not_too_many(rt: HostRuntime) -> Result<(), Fail> {
    assert!(rt; columns_are_paired(rt.alloc(), 99, "]\n; pairs 1 items 2 refused 0\n")?);
    assert!(rt; columns_are_paired(rt.alloc(), 100, "; pairs 0 items 2 refused 0\n")?);
    Ok(())
}

// Whether what is written of 16,384 squares and one more begins and ends so.
fn is_full(text: &[u8]) -> bool {
    text.starts_with(b"line 16385 no more\n1x1 16384\n1 [1]\n2 [1]\n")
        && text.ends_with(b"\n16384 [1]\n; groups 1 items 16384 refused 1\n")
}

// Whether `alike` over this input has the status 1 and writes this in this room.
fn fills(alloc: Global, input: &[u8], room: &mut [u8]) -> Result<bool, AllocError> {
    let words = words(alloc, "alike")?;
    let mut source = MemSource::new(input, 9_000, &[]);
    let mut out = MemSink::new(room, &[]);
    let mut no_room = [];
    let mut err = MemSink::new(&mut no_room, &[]);
    let status = status_of(alloc, &words, &mut source, &mut out, &mut err);
    Ok(status == 1 && is_full(out.written()))
}

#[test]
fn no_more_than_16384_items_are_listed(rt: HostRuntime) -> Result<(), Fail> {
    let input = repeated(rt.alloc(), b"[1]\n", 16_385)?;
    let mut room = repeated(rt.alloc(), &[0], 180_000)?;
    assert!(rt; fills(rt.alloc(), input.as_slice(), room.as_mut_slice())?);
    Ok(())
}
