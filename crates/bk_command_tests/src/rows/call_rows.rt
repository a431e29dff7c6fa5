//! One call for each answer: where the write of a number fails, the answers before it stand written, and no part of
//! more.

use super::command_runs::*;
use arrayvec::ArrayVec;
use bk_ports::MemSource;
use std::alloc::{AllocError, Global};
use std::process::Abort;
use std::test::Fail;

// A command, an input, and the answers.
type Calls = (&'static str, &'static str, &'static [&'static str]);

fn rows_of_calls() -> &'static [Calls] {
    &[
        (
            "check",
            "; a comment\n\n[1]\n \n[2\n[1][1]\n\n",
            &[
                "ok 1 1x1 perfect simple\n",
                "no text 2\n",
                "ok 2 1x2 imperfect 1 simple\n",
            ],
        ),
        (
            "canon",
            " \n[2][2]\n[1,2][1]",
            &["2x1 [1,1]\n", "3x2 [2,1][1]\n"],
        ),
        (
            "images",
            ";\n[2,1][1]",
            &[
                "3x2 [2,1][1]\n",
                "3x2 [1,2][1]\n",
                "3x2 [2,1][1]\n",
                "3x2 [1,2][1]\n",
                "2x3 [2][1,1]\n",
                "2x3 [2][1,1]\n",
                "2x3 [1,1][2]\n",
                "2x3 [1,1][2]\n",
            ],
        ),
        ("net", "[1]\n;\n[1", &["2 0-1 ; 1 1\n", "no text 2\n"]),
        (
            "dual",
            ";\n[1]\n[2]\n",
            &["2 0-1 ; 1 1 ; 1 ; 0\n", "2 0-1 ; 2 2 ; 1 ; 0\n"],
        ),
        ("draw", ";\n[2,1][1]", &["+-++\n", "| ++\n", "+-++\n"]),
        ("word", "[1]\n;\n[1,1][1,1]\n", &["1\n", "2e.2e\n"]),
        (
            "flow",
            ";\n2 1-0\n\n4 0-1 2-3\n",
            &["1 -1\n", "no loose 0\n"],
        ),
        (
            "solve",
            ";\n2e.2e\n\n2u.2ea.1e\n",
            &["2x2 [1,1][1,1]\n", "none\n"],
        ),
    ]
}

const SMALL: &str = "9 33x32 [18,15][7,8][14,4][10,1][9] ; 2u.2aa.2ue.2eue.1e\n";

const LARGE: &str = "9 69x61 [36,33][5,28][25,9,2][7][16] ; 2u.2aa.3uue.1ea.1ee\n";

// A command that writes of all its lines together, or of none, with an input, and the answers.
fn rows_of_lists() -> &'static [Calls] {
    &[
        (
            "list --order 9",
            "",
            &[SMALL, LARGE, "; end order 9 listed 2\n"],
        ),
        (
            "list --order 9 --limit 1",
            "",
            &[SMALL, "; limit order 9 listed 1\n"],
        ),
        (
            "verify --order 9",
            "[18,15][7,8][14,4][10,1][9]\n[36,28][8,20][30,14][2,18][16]\n[1\n[1]\n",
            &[
                "line 2 repeats 1\n",
                "line 3 no text 2\n",
                "line 4 foreign\n",
                "missing 9 69x61 [36,33][5,28][25,9,2][7][16] ; 2u.2aa.3uue.1ea.1ee\n",
                "; end order 9 members 2 missing 1 foreign 1 repeated 1 refused 1\n",
            ],
        ),
        (
            "alike",
            "[2,1][1]\n[1\n[1]\n",
            &[
                "line 2 no text 2\n",
                "3x2 1\n",
                "1 [2,1][1]\n",
                "1x1 1\n",
                "3 [1]\n",
                "; groups 2 items 2 refused 1\n",
            ],
        ),
        (
            "pair --kind any",
            "[2,1][1]\n[1,2][1]\n[1][2]\n",
            &[
                "line 3 no gap 2 1 2\n",
                "1 2 5x5 [2,1,2][1][3,2][1,1]\n",
                "; pairs 1 items 2 refused 1\n",
            ],
        ),
        (
            "trial --seed 0 --count 2",
            "",
            &["trial seed 0 count 2 ok 2 perfect 1 simple 0 squares 272\n"],
        ),
    ]
}

// What a command writes over an input, where the write of this number fails, and its status.
fn stopped(
    alloc: Global,
    command: &str,
    input: &[u8],
    fails: u64,
) -> Result<(u8, Text), AllocError> {
    let mut source = MemSource::new(input, 9_000, &[]);
    ran(alloc, command, &mut source, (fails, 0))
}

// Whether a command writes this where the write of this number fails, and ends with the status of a failed write.
fn stops_so(alloc: Global, command: &str, input: &[u8], fails: u64, text: &[u8]) -> bool {
    match stopped(alloc, command, input, fails) {
        Ok((status, got)) => status == 4 && got.as_slice() == text,
        Err(AllocError) => false,
    }
}

// Whether it writes this and ends with a status of a whole run, where the write of this number would fail.
fn goes_through(alloc: Global, command: &str, input: &str, fails: u64, text: &[u8]) -> bool {
    match stopped(alloc, command, input.as_bytes(), fails) {
        Ok((status, got)) => status < 2 && got.as_slice() == text,
        Err(AllocError) => false,
    }
}

// Asserts that a command writes each of its answers by one call, and makes no call besides.
fn expect_calls(rt: &impl Abort, alloc: Global, row: &Calls) {
    let (command, input, answers) = row;
    let mut stands: Text = ArrayVec::new();
    for (call, answer) in answers.iter().enumerate() {
        let bytes = input.as_bytes();
        let stops = stops_so(alloc, command, bytes, call as u64, stands.as_slice());
        assert!(rt; stops, "{command} {call}");
        let _ = stands.try_extend_from_slice(answer.as_bytes());
    }
    let calls = answers.len() as u64;
    assert!(rt;
        goes_through(alloc, command, input, calls, stands.as_slice()),
        "{command}"
    );
}

// Each answer is one call, each image and each row of a drawing too; where there is no answer there is no call.
#[test]
fn each_answer_is_one_call(rt: HostRuntime) {
    for row in rows_of_calls() {
        expect_calls(&rt, rt.alloc(), row);
    }
}

// Each line about a list is one call, each entry and each last line.
#[test]
fn each_line_of_a_list_is_one_call(rt: HostRuntime) {
    for row in rows_of_lists() {
        expect_calls(&rt, rt.alloc(), row);
    }
}

// Whether a command refuses each of two squares behind 16,384 by one call: the second call fails, and the first line
// stands.
fn refuses_by_one_call(alloc: Global, command: &str) -> Result<bool, AllocError> {
    let input = repeated(alloc, b"[1]\n", 16_386)?;
    let first = b"line 16385 no more\n";
    Ok(stops_so(alloc, command, input.as_slice(), 1, first))
}

// The refusal of an item that is one too many is one call.
#[test]
fn no_more_to_group_is_one_call(rt: HostRuntime) -> Result<(), Fail> {
    assert!(rt; refuses_by_one_call(rt.alloc(), "alike")?);
    Ok(())
}

#[test]
fn no_more_to_pair_is_one_call(rt: HostRuntime) -> Result<(), Fail> {
    assert!(rt; refuses_by_one_call(rt.alloc(), "pair")?);
    Ok(())
}
