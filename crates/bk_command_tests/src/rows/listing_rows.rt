//! Listings and trials, as tables.

use super::command_runs::*;
use arrayvec::ArrayVec;
use bk_ports::MemSource;
use std::alloc::{AllocError, Global};
use std::process::Abort;
use std::test::Fail;

const WHOLE: &str = "9 33x32 [18,15][7,8][14,4][10,1][9] ; 2u.2aa.2ue.2eue.1e\n\
    9 69x61 [36,33][5,28][25,9,2][7][16] ; 2u.2aa.3uue.1ea.1ee\n\
    ; end order 9 listed 2\n";

const SECOND: &str =
    "9 69x61 [36,33][5,28][25,9,2][7][16] ; 2u.2aa.3uue.1ea.1ee\n; end order 9 listed 1\n";

// A command line, the write that fails, the status, and what is written.
type Unread = (&'static str, FailedWrite, u8, &'static str);

// Whether a command line, whose source fails at once, writes this and ends with this status.
fn is_unread(alloc: Global, row: Unread) -> bool {
    let (line, write, status, output) = row;
    is_row(alloc, 1, &(line, "[1]\n", 0, write, status, output))
}

fn rows_of_listings() -> &'static [(&'static str, &'static str)] {
    &[
        ("list --order 9", WHOLE),
        ("list --order 9 --class perfect", WHOLE),
        ("list --order 9 --from 2u.2aa", WHOLE),
        ("list --from 1 --order 9", WHOLE),
        ("list --order 9 --from 2u.2aa.2ue.2eue.1e", SECOND),
        (
            "list --order 9 --from 2u.2aa.2ue.2eue.1e --limit 1",
            "9 69x61 [36,33][5,28][25,9,2][7][16] ; 2u.2aa.3uue.1ea.1ee\n; limit order 9 listed 1\n",
        ),
        (
            "list --order 9 --limit 1",
            "9 33x32 [18,15][7,8][14,4][10,1][9] ; 2u.2aa.2ue.2eue.1e\n; limit order 9 listed 1\n",
        ),
        (
            "list --order 9 --limit 2",
            "9 33x32 [18,15][7,8][14,4][10,1][9] ; 2u.2aa.2ue.2eue.1e\n\
             9 69x61 [36,33][5,28][25,9,2][7][16] ; 2u.2aa.3uue.1ea.1ee\n\
             ; limit order 9 listed 2\n",
        ),
        ("list --order 9 --limit 3", WHOLE),
        ("list --order 9 --limit 0", "; limit order 9 listed 0\n"),
        (
            "list --order 9 --from 2u.2aa.3uue.1ea.1ee",
            "; end order 9 listed 0\n",
        ),
        ("list --order 9 --from 3aa", "; end order 9 listed 0\n"),
        ("list --order 8", "; end order 8 listed 0\n"),
        (
            "list --order 2 --class imperfect",
            "2 2x1 [1,1] ; 2e\n; end order 2 class imperfect listed 1\n",
        ),
        (
            "list --order 9 --class imperfect",
            "9 15x11 [6,4,5][3,1][6][5,1][4] ; 3ua.2aue.2ue.1a.1ee\n; end order 9 class imperfect listed 1\n",
        ),
        (
            "list --order 13 --class imperfect --from 2u.3aau.2ue.1ue.2ea.2eue --limit 1",
            "13 23x23 [12,11][2,5,4][11,1][3][1,3][7,2][5] ; 2u.3aau.2ue.1ue.2ea.2eue.1e\n\
             ; limit order 13 class imperfect listed 1\n",
        ),
        (
            "list --order 9 --class simple",
            "9 33x32 [18,15][7,8][14,4][10,1][9] ; 2u.2aa.2ue.2eue.1e\n\
             9 69x61 [36,33][5,28][25,9,2][7][16] ; 2u.2aa.3uue.1ea.1ee\n\
             9 15x11 [6,4,5][3,1][6][5,1][4] ; 3ua.2aue.2ue.1a.1ee\n\
             ; end order 9 class simple listed 3\n",
        ),
    ]
}

#[test]
fn order_nine(rt: HostRuntime) {
    for (line, output) in rows_of_listings() {
        assert!(rt;
            is_unread(rt.alloc(), (*line, NO_WRITE, 0, *output)),
            "{line}"
        );
    }
}

// The listing of order 9 whose writes fail.
fn rows_of_failed_writes() -> &'static [(FailedWrite, &'static str)] {
    &[
        ((0, 0), ""),
        (
            (1, 10),
            "9 33x32 [18,15][7,8][14,4][10,1][9] ; 2u.2aa.2ue.2eue.1e\n9 69x61 [3",
        ),
        (
            (2, 5),
            "9 33x32 [18,15][7,8][14,4][10,1][9] ; 2u.2aa.2ue.2eue.1e\n\
             9 69x61 [36,33][5,28][25,9,2][7][16] ; 2u.2aa.3uue.1ea.1ee\n; end",
        ),
    ]
}

#[test]
fn failed_writes(rt: HostRuntime) {
    for (write, output) in rows_of_failed_writes() {
        let row = ("list --order 9", *write, 4, *output);
        assert!(rt; is_unread(rt.alloc(), row), "{output}");
    }
}

fn rows_of_trials() -> &'static [Unread] {
    &[
        (
            "trial --seed 0 --count 2",
            NO_WRITE,
            0,
            "trial seed 0 count 2 ok 2 perfect 1 simple 0 squares 272\n",
        ),
        (
            "trial --seed 0 --count 0",
            NO_WRITE,
            0,
            "trial seed 0 count 0 ok 0 perfect 0 simple 0 squares 0\n",
        ),
        (
            "trial --seed 1 --count 1",
            NO_WRITE,
            0,
            "trial seed 1 count 1 ok 1 perfect 1 simple 0 squares 72\n",
        ),
        (
            "trial --count 2 --seed 18446744073709551615",
            NO_WRITE,
            0,
            "trial seed 18446744073709551615 count 2 ok 2 perfect 1 simple 0 squares 274\n",
        ),
        ("trial --seed 0 --count 0", (0, 7), 4, "trial s"),
    ]
}

#[test]
fn trials(rt: HostRuntime) {
    for row in rows_of_trials() {
        let output = row.3;
        assert!(rt; is_unread(rt.alloc(), *row), "{output}");
    }
}

// Runs a command line over an empty source, and gives what is written, once the status is 0.
fn listed(rt: &impl Abort, alloc: Global, line: &str) -> Result<Text, AllocError> {
    let mut source = MemSource::new(b"", 1, &[]);
    let (status, text) = ran(alloc, line, &mut source, NO_WRITE)?;
    assert!(rt; status == 0, "{line}");
    Ok(text)
}

// Asserts that a command line lists this entry alone, and gives the one that lists the next.
fn expect_entry(
    rt: &impl Abort,
    alloc: Global,
    command: &str,
    entry: &str,
) -> Result<String, Fail> {
    let text = listed(rt, alloc, command)?;
    let want = format!(in alloc; "{entry}\n; limit order 10 listed 1\n")?;
    assert!(rt; text.as_slice() == want.as_str().as_bytes());
    let Some((_, word)) = entry.split_once(" ; ") else {
        return Err(Fail::new("no text"));
    };
    Ok(format!(in alloc; "list --order 10 --limit 1 --from {word}")?)
}

// Whether a listing of order 10 has this entry and this end.
fn is_order_ten(whole: &str) -> bool {
    whole.ends_with("\n; end order 10 listed 6\n")
        && whole.contains("10 65x47 [25,17,23][11,6][5,24][22,3][19] ; 3ua.2aue.2ue.2ea.1ee\n")
}

// Whether nothing is listed behind the last entry of order 10.
fn ends_ten(alloc: Global, command: &str) -> bool {
    let mut source = MemSource::new(b"[1]\n", 1, &[0]);
    let want = (0, b"; end order 10 listed 0\n".as_slice());
    ends_so(alloc, command, &mut source, NO_WRITE, want)
}

// The entries of order 10, whole, and then one by one, each after the word of the one before.
#[test]
fn order_ten(rt: HostRuntime) -> Result<(), Fail> {
    let text = listed(&rt, rt.alloc(), "list --order 10")?;
    let Ok(whole) = str::from_utf8(text.as_slice()) else {
        return Err(Fail::new("no text"));
    };
    assert!(rt; is_order_ten(whole));
    let mut command = String::from_str(rt.alloc(), "list --order 10 --limit 1")?;
    for entry in whole.split('\n').take(6) {
        command = expect_entry(&rt, rt.alloc(), command.as_str(), entry)?;
    }
    assert!(rt; ends_ten(rt.alloc(), command.as_str()));
    Ok(())
}

// The listing of order 11 in three parts, each after the last word of the part before: two of eight entries, and what
// is left. Beside each stands how its last line begins.
fn parts_of_eleven() -> &'static [(&'static str, &'static str)] {
    &[
        ("list --order 11 --limit 8", "limit order 11 listed 8\n"),
        (
            "list --order 11 --limit 8 --from 2u.2aa.3uuu.2eaa.1ee.1ee",
            "limit order 11 listed 8\n",
        ),
        (
            "list --order 11 --from 2u.3eaa.3uue.2eae.1ee",
            "end order 11 listed ",
        ),
    ]
}

// Puts entries and a line feed behind a text, as far as there is room; whether there was room for all.
fn is_put(together: &mut Text, entries: &str) -> bool {
    together.try_extend_from_slice(entries.as_bytes()).is_ok() && together.try_push(b'\n').is_ok()
}

// Adds the entries that a command line lists before its last line, which begins so.
fn add_entries(
    rt: &impl Abort,
    alloc: Global,
    line: &str,
    last: &str,
    together: &mut Text,
) -> Result<(), Fail> {
    let part = listed(rt, alloc, line)?;
    let Ok(text) = str::from_utf8(part.as_slice()) else {
        return Err(Fail::new("no text"));
    };
    let Some((entries, end)) = text.split_once("\n; ") else {
        return Err(Fail::new("no last line"));
    };
    assert!(rt;
        end.starts_with(last) && is_put(together, entries),
        "{line}"
    );
    Ok(())
}

// The entries of order 11, whole, and then in parts.
#[test]
fn order_eleven(rt: HostRuntime) -> Result<(), Fail> {
    let mut whole = ArrayVec::new();
    add_entries(
        &rt,
        rt.alloc(),
        "list --order 11",
        "end order 11 listed ",
        &mut whole,
    )?;
    let mut together = ArrayVec::new();
    for (line, last) in parts_of_eleven() {
        add_entries(&rt, rt.alloc(), line, last, &mut together)?;
    }
    assert!(rt; whole.as_slice() == together.as_slice());
    Ok(())
}
