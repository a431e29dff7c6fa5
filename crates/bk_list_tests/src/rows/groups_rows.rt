//! Rows of `bk_alike`.

use bk_alike::{Wanted, list_lines};
use bk_ask::Kind;
use bk_ports::{Ended, MemSink, MemSource};
use std::alloc::{AllocError, Global};
use std::test::Fail;

const PERFECT: Wanted = Wanted::Pairs(Kind::Perfect);

const ANY: Wanted = Wanted::Pairs(Kind::Any);

// What is wanted of a list, how it ends and what is written.
type Row = (Wanted, &'static str, Ended, &'static str);

// Whether a list ends so and writes this.
fn is_listed(alloc: Global, row: &Row) -> bool {
    let (wanted, list, ended, report) = row;
    let mut source = MemSource::new(list.as_bytes(), 50, &[]);
    let mut room = [0; 1000];
    let mut out = MemSink::new(&mut room, &[]);
    list_lines(alloc, *wanted, &mut source, &mut out) == *ended
        && out.written() == report.as_bytes()
}

fn rows_of_two_sizes() -> &'static [(Wanted, &'static str)] {
    &[
        (
            Wanted::Groups,
            "3x2 3\n1 [2,1][1]\n3 [2,1][1]\n5 [2,1][1]\n2x1 2\n2 [1,1]\n4 [1,1]\n; groups 2 items 5 refused 0\n",
        ),
        (
            ANY,
            "1 3 5x5 [2,1,2][1][3,2][1,1]\n1 5 5x5 [2,1,2][1][3,2][1,1]\n2 4 3x3 [1,1,1][2,1][1]\n\
             3 5 5x5 [2,1,2][1][3,2][1,1]\n; pairs 4 items 5 refused 0\n",
        ),
        (PERFECT, "; pairs 0 items 5 refused 0\n"),
    ]
}

// Three items of one size and two of another, alternating.
#[test]
fn two_sizes_alternate(rt: HostRuntime) {
    let list = "[2,1][1]\n[1,1]\n[2][1,1]\n[1][1]\n[1,2][1]";
    for (wanted, report) in rows_of_two_sizes() {
        let row = (*wanted, list, Ended::NoneRefused, *report);
        assert!(rt; is_listed(rt.alloc(), &row), "{report}");
    }
}

const APART: &str = "[222,164,207][80,41,43][39,2][37,215][200,22][178]\n[1]\n[1,,1]\n\
    [247,154,192][116,38][230][175,72][49,67][103,18][85]\n[1]";

const ONE_IN_COMMON: &str =
    "[58,48][20,28][41,17][7,13][24][5,23][18]\n[55,51][15,8,9,19][44,11][7,1][10][33][29]";

const AS_HIGH: &str = "[377,136,95][34,61][7,27][123,20][108][118,5][113]\n\
    [209,205,194][11,183][44,172][168,41][1,43][42][85]";

fn rows_of_perfect_rectangles() -> &'static [Row] {
    &[
        (
            PERFECT,
            APART,
            Ended::SomeRefused,
            "line 3 no text 3\n1 4 1015x1015 [222,164,207,422][80,41,43][39,2][37,215][200,22][178]\
             [593,247,175][72,103][154,116,49][18,85][67][38,230][192]\n; pairs 1 items 4 refused 1\n",
        ),
        (
            PERFECT,
            ONE_IN_COMMON,
            Ended::NoneRefused,
            "; pairs 0 items 2 refused 0\n",
        ),
        (
            ANY,
            ONE_IN_COMMON,
            Ended::NoneRefused,
            "1 2 205x205 [58,48,99][20,28][41,17][7,13][24][5,23][18]\
             [106,55,44][11,33][51,15][8,7][1,10,29][9][19]\n; pairs 1 items 2 refused 0\n",
        ),
        (
            PERFECT,
            AS_HIGH,
            Ended::NoneRefused,
            "; pairs 0 items 2 refused 0\n",
        ),
        (
            ANY,
            AS_HIGH,
            Ended::NoneRefused,
            "1 2 985x985 [377,136,95,377][34,61][7,27][123,20][108][118,5][113]\
             [608,209,168][41,42,85][205,44,1][43][172][194,11][183]\n; pairs 1 items 2 refused 0\n",
        ),
    ]
}

// Two perfect rectangles of one size that have no side in common, two that have one, and two of which one has a side as
// long as both are high.
#[test]
fn perfect_rectangles(rt: HostRuntime) {
    for row in rows_of_perfect_rectangles() {
        let report = row.3;
        assert!(rt; is_listed(rt.alloc(), row), "{report}");
    }
}

// Appends a text so many times.
fn push_times(text: &str, times: usize, list: &mut Vec<u8>) -> Result<(), AllocError> {
    for _ in 0..times {
        list.extend_from_slice(text.as_bytes())?;
    }
    Ok(())
}

// Two strips of width 2. Each is given by its number of squares of side 2, and by that of its rows of two squares of
// side 1 below them.
fn list_of_strips(alloc: Global, strips: [(usize, usize); 2]) -> Result<Vec<u8>, AllocError> {
    let mut list = Vec::new(alloc);
    for (squares, rows) in strips {
        push_times("[2]", squares, &mut list)?;
        push_times("[1,1]", rows, &mut list)?;
        list.push(b'\n')?;
    }
    Ok(list)
}

// Whether no line of two strips is refused, and what is written of them begins and ends so.
fn strips_are_listed(alloc: Global, list: &[u8], begin: &str, end: &str) -> bool {
    let mut source = MemSource::new(list, 50, &[]);
    let mut room = [0; 1000];
    let mut out = MemSink::new(&mut room, &[]);
    list_lines(alloc, ANY, &mut source, &mut out) == Ended::NoneRefused
        && out.written().starts_with(begin.as_bytes())
        && out.written().ends_with(end.as_bytes())
}

// How many squares of side 2 and how many rows two strips have, and how what is written begins and ends.
type Strips = ([(usize, usize); 2], &'static str, &'static str);

static ROWS_OF_STRIPS: [Strips; 2] = [
    (
        [(1, 49), (1, 49)],
        "1 2 53x53 [2,1,",
        ",1]\n; pairs 1 items 2 refused 0\n",
    ),
    ([(1, 50), (2, 48)], "; pairs 0 ", "items 2 refused 0\n"),
];

fn rows_of_strips() -> &'static [Strips] {
    &ROWS_OF_STRIPS
}

// Strips of 99 and 99 squares, and of 101 and 98.
#[test]
fn strips_of_198_and_199_squares(rt: HostRuntime) -> Result<(), Fail> {
    for (strips, begin, end) in rows_of_strips() {
        let list = list_of_strips(rt.alloc(), *strips)?;
        assert!(rt; strips_are_listed(rt.alloc(), &list, begin, end), "{end}");
    }
    Ok(())
}
