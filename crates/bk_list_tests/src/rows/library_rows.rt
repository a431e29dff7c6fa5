//! The crates as a library: a list of codes is held against the catalogue of order 9. README shows this.

ghost use Rattle.std.specs.Prelude.{◌<◌, ◌≡◌};

use bk_code::flat;
use bk_play::Steps;
use bk_profile::lay_code;
use bk_text::{Line, read_line};
use bk_verify::{Fed, Rest, Verifier};
use std::alloc::Global;
use std::marker::Brand;
use std::process::Abort;
use std::sync::ledger::{Blank, Ledger};

/// A number, a line, and what the code in it is in the list so far.
pub(super) type Row = (u64, &'static str, Option<Fed>);

// What the code in a line is in the list so far: nothing if there is no code or no tiling, or if memory is out.
fn feed(verifier: &mut Verifier, number: u64, line: &str) -> Option<Fed> {
    match read_line(line.as_bytes()) {
        Ok(Line::Item { code, .. }) if 0 < code.groups() => {
            let tiling = lay_code(&code).ok()?;
            verifier.feed(number, &tiling).ok()
        }
        _ => None,
    }
}

fn feed_list(rt: &impl Abort, verifier: &mut Verifier, list: &[Row]) {
    for (number, line, fed) in list {
        assert!(rt; feed(verifier, *number, line) == *fed, "{number} {line}");
    }
}

// Whether the next member that the list lacks has these sides. If there are none, whether it lacks no more members.
fn lacks<L: Ledger>(rest: &mut Rest, sides: &[u64], steps: &mut Steps<L>) -> bool {
    match rest.advance(steps) {
        Some(Ok(entry)) => flat(&entry.code) == sides,
        Some(Err(_)) => false,
        None => sides.is_empty(),
    }
}

// Whether a list lacks the second of two members alone.
fn lacks_second<L: Ledger>(rest: &mut Rest, steps: &mut Steps<L>) -> bool {
    rest.members() == 0
        && lacks(rest, &[36, 33, 5, 28, 25, 9, 2, 7, 16], steps)
        && lacks(rest, &[], steps)
        && rest.members() == 2
}

/// Holds a list that lacks the second member alone against the catalogue of order 9.
pub(super) fn verify_list<L: Ledger>(rt: &impl Abort, alloc: Global, blank: Blank, list: &[Row])
    requires name { blank.name ≡ L.name }
    requires parts { blank.parts ≡ L.parts }
    requires some { 0 < L.parts }
{
    let mut verifier = Verifier::new(alloc, 9);
    feed_list(rt, &mut verifier, list);
    let mut steps: Steps<L> = Steps::new(blank);
    let mut rest = verifier.finish();
    assert!(rt; lacks_second(&mut rest, &mut steps));
}

const LIST: &[Row] = &[
    (1, "[18,15][7,8][14,4][10,1][9]", Some(Fed::New)),
    (
        2,
        "(36,28)(8,20)(30,14)(2,18)(16) ; turned, twice as large",
        Some(Fed::Repeats { line: 1 }),
    ),
    (3, "[1]", Some(Fed::Foreign)),
    (4, "[18,15][7,9]", None),
];

#[test]
fn codes_are_held_against_a_catalogue(rt: HostRuntime) {
    verify_list::<Brand>(&rt, rt.alloc(), Blank::new(1), LIST);
}
