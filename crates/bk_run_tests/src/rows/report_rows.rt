//! Lines as they are written.

ghost use Rattle.std.specs.Prelude.{◌≢◌};

use arrayvec::ArrayVec;
use bk_code::code_of;
use bk_flow::solve;
use bk_net::{Net, NetLine, read_net};
use bk_report::{
    Last, Refused, write_alike, write_check, write_entry, write_flow, write_foreign, write_group,
    write_last, write_line_refused, write_member, write_missing, write_net, write_pair,
    write_pairs, write_refused, write_repeats, write_tiling, write_trial, write_verified,
    write_word_line,
};
use bk_tiling::{Square, Tiling};
use bk_word::{Class, Word, read_word};
use std::alloc::Global;
use std::test::Fail;

// A line as it is written.
type Line = ArrayVec<u8, 9000>;

// Whether a line is written so.
fn is(line: &Line, text: &str) -> bool {
    line.as_slice() == text.as_bytes()
}

// Two squares beside one of twice their size.
fn three_squares() -> Result<Tiling, Fail> {
    let squares = [
        Square { x: 0, y: 0, s: 2 },
        Square { x: 2, y: 0, s: 1 },
        Square { x: 2, y: 1, s: 1 },
    ];
    Ok(Tiling::try_new(3, 2, &squares)?)
}

// The word of three squares in the rectangle 3x2.
fn word_of_three(alloc: Global) -> Result<Word, Fail> {
    Ok(read_word(alloc, b"2u.1e")?)
}

// Refusals and their texts.
fn refusals() -> &'static [(Refused, &'static str)] {
    &[
        (Refused::Long, "no long\n"),
        (Refused::Text { at: 0 }, "no text 0\n"),
        (Refused::Many, "no many\n"),
        (Refused::Order { sides: 9 }, "no order 9\n"),
        (
            Refused::Gap {
                group: 2,
                gap: 15,
                sum: 16,
            },
            "no gap 2 15 16\n",
        ),
        (
            Refused::Open {
                least: 23,
                greatest: 32,
            },
            "no open 23 32\n",
        ),
        (
            Refused::Size {
                width: 33,
                height: 32,
            },
            "no size 33x32\n",
        ),
        (Refused::Large, "no large\n"),
        (Refused::Nodes { count: 202 }, "no nodes 202\n"),
        (Refused::Wire { place: 2 }, "no wire 2\n"),
        (Refused::Loose { node: 65_535 }, "no loose 65535\n"),
        (Refused::Wide, "wide\n"),
        (Refused::Nothing, "none\n"),
        (Refused::Illegal { place: 1 }, "illegal 1\n"),
        (Refused::Unfinished, "unfinished\n"),
        (Refused::More, "no more\n"),
    ]
}

// Whether the line of a refusal is written so.
fn is_refused(refused: &Refused, text: &str, line: &mut Line) -> bool {
    write_refused(refused, line);
    is(line, text)
}

#[test]
fn refusals_have_their_texts(rt: HostRuntime) {
    let mut line = ArrayVec::new();
    for (refused, text) in refusals() {
        assert!(rt; is_refused(refused, text, &mut line), "{text}");
    }
}

// Whether the code of three squares is written so.
fn is_code(tiling: &Tiling, line: &mut Line) -> bool {
    write_tiling(tiling, line);
    is(line, "3x2 [2,1][1]\n")
}

// Whether what is said of them is.
fn is_checked(tiling: &Tiling, line: &mut Line) -> bool {
    write_check(tiling, line);
    is(line, "ok 3 3x2 imperfect 1 compound 2,0 1x2\n")
}

// Whether their net is.
fn is_net(tiling: &Tiling, line: &mut Line) -> bool {
    write_net(tiling, line);
    is(line, "3 0-2 0-1 1-2 ; 3 2 1 1\n")
}

#[test]
fn a_tiling_has_its_lines(rt: HostRuntime) -> Result<(), Fail> {
    let tiling = three_squares()?;
    let mut line = ArrayVec::new();
    assert!(rt; is_code(&tiling, &mut line));
    assert!(rt; is_checked(&tiling, &mut line));
    assert!(rt; is_net(&tiling, &mut line));
    Ok(())
}

// Whether the word of three squares is written so.
fn is_word(word: &Word, line: &mut Line) -> bool {
    if word.moves() == 0 {
        return false;
    }
    write_word_line(word, line);
    is(line, "2u.1e\n")
}

// Whether their entry is.
fn is_entry(tiling: &Tiling, word: &Word, line: &mut Line) -> bool {
    if word.moves() == 0 {
        return false;
    }
    write_entry(tiling, &code_of(tiling), word, line);
    is(line, "3 3x2 [2,1][1] ; 2u.1e\n")
}

#[test]
fn a_word_has_its_lines(rt: HostRuntime) -> Result<(), Fail> {
    let tiling = three_squares()?;
    let word = word_of_three(rt.alloc())?;
    let mut line = ArrayVec::new();
    assert!(rt; is_word(&word, &mut line));
    assert!(rt; is_entry(&tiling, &word, &mut line));
    Ok(())
}

// How a listing ends, its order, its class and how many members it has, and its last line.
type Ending = (Last, u8, Class, u64, &'static str);

// Listings and their last lines.
fn endings() -> &'static [Ending] {
    &[
        (Last::End, 9, Class::Perfect, 2, "; end order 9 listed 2\n"),
        (
            Last::Limit,
            9,
            Class::Perfect,
            1,
            "; limit order 9 listed 1\n",
        ),
        (
            Last::End,
            2,
            Class::Imperfect,
            1,
            "; end order 2 class imperfect listed 1\n",
        ),
        (
            Last::Wide,
            16,
            Class::Simple,
            u64::MAX,
            "; wide order 16 class simple listed 18446744073709551615 at 2u.1e\n",
        ),
    ]
}

// Whether the last line of a listing is written so.
fn is_ending(ending: &Ending, word: &Word, line: &mut Line) -> bool {
    let (last, order, class, listed, text) = ending;
    if word.moves() == 0 {
        return false;
    }
    write_last(*last, *order, *class, *listed, word, line);
    is(line, text)
}

#[test]
fn listings_have_their_last_lines(rt: HostRuntime) -> Result<(), Fail> {
    let word = word_of_three(rt.alloc())?;
    let mut line = ArrayVec::new();
    for ending in endings() {
        let text = ending.4;
        assert!(rt; is_ending(ending, &word, &mut line), "{text}");
    }
    Ok(())
}

// Whether the line about a line that is refused is written so.
fn is_line_refused(line: &mut Line) -> bool {
    write_line_refused(16_385, &Refused::More, line);
    is(line, "line 16385 no more\n")
}

// Whether the line about one that repeats another is.
fn is_repeated(line: &mut Line) -> bool {
    write_repeats(2, 1, line);
    is(line, "line 2 repeats 1\n")
}

// Whether the line about one that is foreign is.
fn is_foreign(line: &mut Line) -> bool {
    write_foreign(3, line);
    is(line, "line 3 foreign\n")
}

// Whether the line of a group is written so.
fn is_group(line: &mut Line) -> bool {
    write_group(33, 32, 2, line);
    is(line, "33x32 2\n")
}

// Whether the line of a member of a group is.
fn is_member(tiling: &Tiling, line: &mut Line) -> bool {
    write_member(4, tiling, line);
    is(line, "4 [2,1][1]\n")
}

// Whether the line of a pair is.
fn is_pair(tiling: &Tiling, line: &mut Line) -> bool {
    write_pair(1, 2, tiling, line);
    is(line, "1 2 3x2 [2,1][1]\n")
}

// Whether the last line of groups is written so.
fn is_end_of_groups(line: &mut Line) -> bool {
    write_alike(1, 2, 3, line);
    is(line, "; groups 1 items 2 refused 3\n")
}

// Whether the last line of pairs is.
fn is_end_of_pairs(line: &mut Line) -> bool {
    write_pairs(1, 2, 3, line);
    is(line, "; pairs 1 items 2 refused 3\n")
}

#[test]
fn lines_of_lists_have_their_texts(rt: HostRuntime) -> Result<(), Fail> {
    let tiling = three_squares()?;
    let mut line = ArrayVec::new();
    assert!(rt; is_line_refused(&mut line));
    assert!(rt; is_repeated(&mut line));
    assert!(rt; is_foreign(&mut line));
    assert!(rt; is_group(&mut line));
    assert!(rt; is_member(&tiling, &mut line));
    assert!(rt; is_pair(&tiling, &mut line));
    assert!(rt; is_end_of_groups(&mut line));
    assert!(rt; is_end_of_pairs(&mut line));
    Ok(())
}

// Whether the line of a member that a list lacks is written so.
fn is_missing(tiling: &Tiling, word: &Word, line: &mut Line) -> bool {
    if word.moves() == 0 {
        return false;
    }
    write_missing(tiling, &code_of(tiling), word, line);
    is(line, "missing 3 3x2 [2,1][1] ; 2u.1e\n")
}

// Whether the last line of a list that is verified is this one, if its walk ends so.
fn is_verified(last: Last, word: &Word, line: &mut Line, text: &str) -> bool
    requires { last ≢ Last.Limit }
{
    if word.moves() == 0 {
        return false;
    }
    write_verified(last, 9, [1, 2, 3, 4, 5], word, line);
    is(line, text)
}

const VERIFIED: &str = "; end order 9 members 1 missing 2 foreign 3 repeated 4 refused 5\n";

const WIDE: &str = "; wide order 9 members 1 missing 2 foreign 3 repeated 4 refused 5 at 2u.1e\n";

#[test]
fn verified_lists_have_their_lines(rt: HostRuntime) -> Result<(), Fail> {
    let tiling = three_squares()?;
    let word = word_of_three(rt.alloc())?;
    let mut line = ArrayVec::new();
    assert!(rt; is_missing(&tiling, &word, &mut line));
    assert!(rt; is_verified(Last::End, &word, &mut line, VERIFIED));
    assert!(rt; is_verified(Last::Wide, &word, &mut line, WIDE));
    Ok(())
}

// Whether the line of the flow of a net is written so.
fn is_flow(alloc: Global, net: &Net, text: &str, line: &mut Line) -> bool {
    match solve(alloc, net) {
        Ok(flow) => {
            write_flow(&flow, line);
            is(line, text)
        }
        Err(_) => false,
    }
}

// Whether that of the net of a line of text is.
fn has_flow(alloc: Global, net: &str, text: &str, line: &mut Line) -> bool {
    match read_net(net.as_bytes()) {
        Ok(NetLine::Item { net }) => is_flow(alloc, &net, text, line),
        _ => false,
    }
}

fn nets_and_flows() -> &'static [(&'static str, &'static str)] {
    &[
        ("4 0-1 0-2 1-2 1-3 2-3", "2 1 1 0 1 1\n"),
        ("2 1-0", "1 -1\n"),
    ]
}

#[test]
fn a_flow_has_its_line(rt: HostRuntime) {
    let mut line = ArrayVec::new();
    for (net, text) in nets_and_flows() {
        assert!(rt; has_flow(rt.alloc(), net, text, &mut line), "{net}");
    }
}

// A seed, how many trial codes of it there are, how many of them are accepted and perfect, their squares, and the line.
type Trial = (u64, u32, u64, u64, u64, &'static str);

fn rows_of_trials() -> &'static [Trial] {
    &[
        (
            0,
            2,
            2,
            1,
            272,
            "trial seed 0 count 2 ok 2 perfect 1 simple 0 squares 272\n",
        ),
        (
            0,
            0,
            0,
            0,
            0,
            "trial seed 0 count 0 ok 0 perfect 0 simple 0 squares 0\n",
        ),
        (
            u64::MAX,
            2,
            2,
            1,
            274,
            "trial seed 18446744073709551615 count 2 ok 2 perfect 1 simple 0 squares 274\n",
        ),
    ]
}

// Whether the line about trial codes is written so.
fn is_trial(trial: &Trial, line: &mut Line) -> bool {
    let (seed, count, ok, perfect, squares, text) = trial;
    write_trial(*seed, *count, *ok, *perfect, 0, *squares, line);
    is(line, text)
}

#[test]
fn trials_have_their_lines(rt: HostRuntime) {
    let mut line = ArrayVec::new();
    for trial in rows_of_trials() {
        let text = trial.5;
        assert!(rt; is_trial(trial, &mut line), "{text}");
    }
}
