//! Runs over lines.

use super::command_runs::*;
use super::command_words::{HELP, words};
use bk_ports::{FillSource, MemSink, MemSource};
use std::alloc::{AllocError, Global};

// Codes, and what `check` answers.
fn codes() -> &'static [(&'static str, &'static str)] {
    &[
        (
            "33x32 [18,15][7,8][14,4][10,1][9]",
            "ok 9 33x32 perfect simple\n",
        ),
        (
            "(36,33)(5,28)(25,9,2)(7)(16)",
            "ok 9 69x61 perfect simple\n",
        ),
        (
            "[50, 35, 27], [8, 19], [15, 17, 11], [6, 24], [29, 25, 9, 2], [7, 18], [16], [42], [4, 37], [33]",
            "ok 21 112x112 perfect simple\n",
        ),
        (
            "9 33x32 [18,15][7,8][14,4][10,1][9] ; 2u.2aa.2ue.2eue.1e\n\
             9 69x61 [36,33][5,28][25,9,2][7][16] ; 2u.2aa.3uue.1ea.1ee\n\
             ; end order 9 listed 2\n",
            "ok 9 33x32 perfect simple\nok 9 69x61 perfect simple\n",
        ),
        (
            "[12,11][2,5,4][11,1][3][1,3][7,2][5]",
            "ok 13 23x23 imperfect 1 simple\n",
        ),
        ("[1]", "ok 1 1x1 perfect simple\n"),
        ("[1][1]", "ok 2 1x2 imperfect 1 simple\n"),
        ("[1,1][1,1]", "ok 4 2x2 imperfect 1 compound 0,0 2x1\n"),
        ("[2,1][1]", "ok 3 3x2 imperfect 1 compound 2,0 1x2\n"),
        ("[18,15][7,9]", "no gap 2 15 16\n"),
        ("[18,15][7,8][14,4][10,1]", "no open 23 32\n"),
        ("32x33 [18,15][7,8][14,4][10,1][9]", "no size 33x32\n"),
        ("10 33x32 [18,15][7,8][14,4][10,1][9]", "no order 9\n"),
        ("[18,,15]", "no text 4\n"),
        ("[]", "no text 1\n"),
        ("33x32", "no text 5\n"),
        ("[1234567890123456]", "no text 16\n"),
        ("", ""),
        (" \t; a comment", ""),
        (
            "9 33 32 18 15 7 8 14 4 10 1 9",
            "ok 9 33x32 perfect simple\n",
        ),
        ("9 32 33 18 15 7 8 14 4 10 1 9", "no gap 1 32 33\n"),
        ("9 33 31 18 15 7 8 14 4 10 1 9", "no size 33x32\n"),
        ("8 33 32 18 15 7 8 14 4 10 1 9", "no order 9\n"),
        ("8 33 32 18 15 7 8 14 4 10 1", "no open 23 32\n"),
        ("7 33 32 18 15 7 8 14 4 10", "no gap 4 11 10\n"),
        ("9 33 32", "no text 7\n"),
        ("9 33 32 1x", "no text 9\n"),
        (
            "1 999999999999999999 1 1",
            "no gap 1 999999999999999999 1\n",
        ),
    ]
}

#[test]
fn codes_are_checked(rt: HostRuntime) {
    for (line, answer) in codes() {
        let status = u8::from(answer.starts_with("no "));
        let row = ("check", *line, NO_READ, NO_WRITE, status, *answer);
        assert!(rt; is_row(rt.alloc(), 7, &row), "{line}");
    }
}

// Inputs, and what `check` answers.
static LONG_LINES: [(Parts, &'static str); 6] = [
    (("", "[", 8_192, ""), "no text 1\n"),
    (("", "1", 8_192, ""), "no text 18\n"),
    (("[1", ",1", 300, ""), "no text 602\n"),
    (("[1", ",1", 300, "]"), "no many\n"),
    (("", "[1]", 201, ""), "no many\n"),
    (
        ("", "9", 8_193, "\n[1]"),
        "no long\nok 1 1x1 perfect simple\n",
    ),
];

fn long_lines() -> &'static [(Parts, &'static str)] {
    &LONG_LINES
}

#[test]
fn lines_that_are_too_long_or_have_too_many_sides(rt: HostRuntime) {
    for (input, answers) in long_lines() {
        let (output, times) = ((*answers, "", 0, ""), input.2);
        assert!(rt;
            is_built(rt.alloc(), "check", *input, 1, output),
            "{times}: {answers}"
        );
    }
}

fn rows_of_tilings() -> &'static [Row] {
    &[
        (
            "canon",
            "[36,28][8,20][30,14][2,18][16]",
            0,
            "33x32 [18,15][7,8][14,4][10,1][9]\n",
        ),
        (
            "canon",
            "33x32 [18,15][7,8][14,4][10,1][9]",
            0,
            "33x32 [18,15][7,8][14,4][10,1][9]\n",
        ),
        (
            "canon",
            "[5,3,4,11][2,1][5][7][3,2][1,12][11]",
            0,
            "23x23 [12,11][2,5,4][11,1][3][1,3][7,2][5]\n",
        ),
        (
            "images",
            "[2,1][1]",
            0,
            "3x2 [2,1][1]\n3x2 [1,2][1]\n3x2 [2,1][1]\n3x2 [1,2][1]\n\
             2x3 [2][1,1]\n2x3 [2][1,1]\n2x3 [1,1][2]\n2x3 [1,1][2]\n",
        ),
        (
            "net",
            "[18,15][7,8][14,4][10,1][9]",
            0,
            "6 0-2 0-1 1-3 1-4 2-5 2-3 3-5 3-4 4-5 ; 33 18 15 7 8 14 4 10 1 9\n",
        ),
        (
            "net",
            "[1,1][1,1]\n[1]",
            0,
            "3 0-1 0-1 1-2 1-2 ; 2 1 1 1 1\n2 0-1 ; 1 1\n",
        ),
        (
            "dual",
            "33x32 [18,15][7,8][14,4][10,1][9]",
            0,
            "6 0-2 0-1 1-2 1-3 2-5 2-4 3-4 3-5 4-5 ; 32 18 14 4 10 15 7 1 9 8 ; 1 5 6 7 2 3 8 9 4 ; 0\n",
        ),
        (
            "dual",
            "[1,1][1,1]",
            0,
            "3 0-1 0-1 1-2 1-2 ; 2 1 1 1 1 ; 1 3 2 4 ; 1\n",
        ),
        ("draw", "[2,1][1]", 0, "+-++\n| ++\n+-++\n"),
        ("draw", "[401]\n4x4 [401]", 1, "no large\nno size 401x401\n"),
    ]
}

#[test]
fn tilings_are_turned_hung_and_drawn(rt: HostRuntime) {
    expect_rows(&rt, rt.alloc(), 90, rows_of_tilings());
    let cut = ("draw", "[2,1][1]", NO_READ, (1, 0), 4, "+-++\n");
    assert!(rt; is_row(rt.alloc(), 90, &cut));
}

fn rows_of_words() -> &'static [Row] {
    &[
        (
            "word",
            "[25,17,23][11,6][5,24][22,3][19]\n[1]\n[1,1][1,1]\n4x4 [1]",
            1,
            "3ua.2aue.2ue.2ea.1ee\n1\n2e.2e\nno size 1x1\n",
        ),
        (
            "flow",
            "6 0-2 0-1 1-3 1-4 2-5 2-3 3-5 3-4 4-5 ; 33 18 15 7 8 14 4 10 1 9\n\
             4 0-1 0-2 1-2 1-3 2-3\n2 1-0\n; a comment\n",
            0,
            "33 18 15 7 8 14 4 10 1 9\n2 1 1 0 1 1\n1 -1\n",
        ),
        (
            "flow",
            "4 0-1 2-3\n2\n1\n3 0-1 1-3\n202\n2 0-1x",
            1,
            "no loose 0\nno loose 0\nno nodes 1\nno wire 2\nno nodes 202\nno text 5\n",
        ),
        (
            "flow",
            "18 0-1 1-2 2-3 3-4 4-5 5-6 6-7 7-8 8-9 9-10 10-11 11-12 12-13 13-14 14-15 15-16 16-17",
            0,
            "1 1 1 1 1 1 1 1 1 1 1 1 1 1 1 1 1 1\n",
        ),
        (
            "solve",
            "2u.2eu.1e\n 2e.2e ; a comment\n2u.2ea.1e\n \t; no word\n",
            1,
            "8x5 [5,3][2,1][1]\n2x2 [1,1][1,1]\nnone\n",
        ),
        (
            "solve",
            "3ua.2aue.2ue.2ea.1ee\n1\n2e.2e\n",
            0,
            "65x47 [25,17,23][11,6][5,24][22,3][19]\n1x1 [1]\n2x2 [1,1][1,1]\n",
        ),
        (
            "solve",
            "2u.2e.1\n2uu\n2u.2eu\n2.1\n2u.\n  2ux\n201\n2u.2eu ; not done",
            1,
            "illegal 2\nillegal 1\nunfinished\nno text 1\nno text 3\nno text 4\nno text 3\nunfinished\n",
        ),
        (
            "solve",
            "1.1.1.1.1.1.1.1.1.1.1.1.1.1.1.1.1",
            0,
            "1x17 [1][1][1][1][1][1][1][1][1][1][1][1][1][1][1][1][1]\n",
        ),
    ]
}

#[test]
fn words_flows_and_tilings_of_words(rt: HostRuntime) {
    expect_rows(&rt, rt.alloc(), 90, rows_of_words());
}

#[test]
fn a_word_of_two_hundred_moves(rt: HostRuntime) {
    let tower = ("", "[1]", 200, "");
    let answer = ("1", ".1", 199, "\n");
    assert!(rt; is_built(rt.alloc(), "word", tower, 0, answer));
}

#[test]
fn words_that_are_wide_or_have_too_many_squares(rt: HostRuntime) {
    let wide = ("2u", ".2eu", 98, ".1e");
    let many = ("201", "u", 200, "");
    assert!(rt; is_built(rt.alloc(), "solve", wide, 1, ("wide\n", "", 0, "")));
    assert!(rt; is_built(rt.alloc(), "solve", many, 1, ("no many\n", "", 0, "")));
}

fn rows_of_faults() -> &'static [FailingRow] {
    &[
        ("check", "[1]", 3, NO_WRITE, 3, ""),
        (
            "check",
            "[1]\n[2,1][1]\n",
            6,
            NO_WRITE,
            3,
            "ok 1 1x1 perfect simple\n",
        ),
        (
            "check",
            "[1]\n[2",
            NO_READ,
            NO_WRITE,
            1,
            "ok 1 1x1 perfect simple\nno text 2\n",
        ),
        ("check", "[1]\n[1]\n", NO_READ, (0, 0), 4, ""),
        (
            "check",
            "[1]\n[2\n",
            NO_READ,
            (1, 5),
            4,
            "ok 1 1x1 perfect simple\nno te",
        ),
        (
            "check",
            "[1]\n[2\n",
            NO_READ,
            (1, 50),
            4,
            "ok 1 1x1 perfect simple\nno text 2\n",
        ),
        (
            "check",
            "[2\n[1]\n",
            NO_READ,
            (2, 0),
            1,
            "no text 2\nok 1 1x1 perfect simple\n",
        ),
    ]
}

#[test]
fn faults_end_the_run(rt: HostRuntime) {
    expect_failing_rows(&rt, rt.alloc(), 1, rows_of_faults());
}

const USAGE: &str = "usage: bouwkamp COMMAND [--NAME VALUE]...\n";

// Words that ask nothing, and `help`: the write that fails, the status, and what is kept.
fn rows_of_errors() -> &'static [(&'static str, FailedWrite, u8, &'static str)] {
    &[
        ("", NO_WRITE, 2, USAGE),
        ("checks", NO_WRITE, 2, USAGE),
        ("check --", NO_WRITE, 2, USAGE),
        ("list", NO_WRITE, 2, USAGE),
        ("list --order 1", NO_WRITE, 2, USAGE),
        ("list --order 17", NO_WRITE, 2, USAGE),
        ("verify --order 17", NO_WRITE, 2, USAGE),
        ("verify --order 9 --class perfect", NO_WRITE, 2, USAGE),
        ("list --order=9", NO_WRITE, 2, USAGE),
        ("list --order 9 --order 9", NO_WRITE, 2, USAGE),
        ("list --order 9 --from 3", NO_WRITE, 2, USAGE),
        (
            "list --order 9 --from 17uuuuuuuuuuuuuuuu",
            NO_WRITE,
            2,
            USAGE,
        ),
        ("list --order 9 --class compound", NO_WRITE, 2, USAGE),
        ("trial --seed 0", NO_WRITE, 2, USAGE),
        ("check --", (0, 5), 2, "usage"),
        ("check --", (1, 0), 2, USAGE),
        ("help", NO_WRITE, 0, HELP),
        ("help", (0, 6), 0, "usage:"),
        ("help", (1, 0), 0, HELP),
        ("help me", NO_WRITE, 2, USAGE),
    ]
}

// Whether a run with no room for output, whose first read fails, has this status, and the text on errors is this.
fn tells(alloc: Global, words: &[String], write: FailedWrite, want: (u8, &[u8])) -> bool {
    let mut source = MemSource::new(b"[1]\n", 1, &[0]);
    let mut no_room = [];
    let mut out = MemSink::new(&mut no_room, &[]);
    let mut room = [0; 700];
    let writes = [write];
    let mut err = MemSink::new(&mut room, &writes);
    status_of(alloc, words, &mut source, &mut out, &mut err) == want.0 && err.written() == want.1
}

// Whether a command line with no room for output, whose first read fails, has this status, and the text on errors is
// this.
fn line_tells(alloc: Global, line: &str, write: FailedWrite, want: (u8, &[u8])) -> bool {
    match words(alloc, line) {
        Ok(words) => tells(alloc, &words, write, want),
        Err(AllocError) => false,
    }
}

// A text on errors, by one call, of which a failed write keeps a part, and no read.
#[test]
fn texts_on_errors(rt: HostRuntime) {
    for (line, write, status, text) in rows_of_errors() {
        let want = (*status, text.as_bytes());
        assert!(rt; line_tells(rt.alloc(), line, *write, want), "{line}");
    }
}

#[test]
fn no_words(rt: HostRuntime) {
    assert!(rt; tells(rt.alloc(), &[], NO_WRITE, (2, USAGE.as_bytes())));
}

// Whether a check of this byte again and again, as often as said, has this status and writes this.
fn ends_with(alloc: Global, byte: u8, bytes: u64, want: (u8, &[u8])) -> bool {
    let mut source = FillSource::new(byte, bytes);
    ends_so(alloc, "check", &mut source, NO_WRITE, want)
}

// The longest input, and one of a byte more.
#[test]
fn the_longest_input(rt: HostRuntime) {
    assert!(rt; ends_with(rt.alloc(), b';', 1 << 30, (1, b"no long\n")));
    assert!(rt; ends_with(rt.alloc(), b';', (1 << 30) + 1, (7, b"")));
}

// The longest input of empty lines, none of which has an answer.
#[test]
fn the_longest_input_of_empty_lines(rt: HostRuntime) {
    assert!(rt; ends_with(rt.alloc(), b'\n', 1 << 30, (0, b"")));
}

// One line more.
#[test]
fn an_empty_line_too_many(rt: HostRuntime) {
    assert!(rt; ends_with(rt.alloc(), b'\n', (1 << 30) + 1, (7, b"")));
}
