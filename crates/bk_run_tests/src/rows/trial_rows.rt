//! Lines about trial codes.

use arrayvec::ArrayVec;
use bk_gen::*;

// Seeds, how many trial codes of each there are, and the lines.
fn rows() -> &'static [(u64, u32, &'static str)] {
    &[
        (
            0,
            0,
            "trial seed 0 count 0 ok 0 perfect 0 simple 0 squares 0\n",
        ),
        (
            0,
            2,
            "trial seed 0 count 2 ok 2 perfect 1 simple 0 squares 272\n",
        ),
        (
            1,
            1,
            "trial seed 1 count 1 ok 1 perfect 1 simple 0 squares 72\n",
        ),
        (
            u64::MAX,
            2,
            "trial seed 18446744073709551615 count 2 ok 2 perfect 1 simple 0 squares 274\n",
        ),
    ]
}

// Whether the line about so many trial codes of a seed is this.
fn is_line(seed: u64, count: u32, text: &str, line: &mut ArrayVec<u8, 9000>) -> bool {
    trial(seed, count, line);
    line.as_slice() == text.as_bytes()
}

#[test]
fn lines(rt: HostRuntime) {
    let mut line = ArrayVec::new();
    for (seed, count, text) in rows() {
        assert!(rt; is_line(*seed, *count, text, &mut line), "{text}");
    }
}

// The line about forty trial codes of one seed.
fn forty_trials() -> ArrayVec<u8, 9000> {
    let mut line = ArrayVec::new();
    trial(7, 40, &mut line);
    line
}

// Whether two lines about them are the same and begin so.
fn are_same(line: &[u8], again: &[u8]) -> bool {
    line == again && line.starts_with(b"trial seed 7 count 40 ok 40 perfect ")
}

// Forty trials give the same line twice.
#[test]
fn forty(rt: HostRuntime) {
    let line = forty_trials();
    let again = forty_trials();
    assert!(rt; are_same(line.as_slice(), again.as_slice()));
}
