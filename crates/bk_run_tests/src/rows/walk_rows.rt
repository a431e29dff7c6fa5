//! Rows of `bk_walk`.

ghost use Rattle.std.specs.Prelude.{◌<◌, ◌≡◌};

use arrayvec::ArrayVec;
use bk_code::flat;
use bk_play::Steps;
use bk_walk::*;
use bk_word::{Class, LARGEST_LISTED_ORDER, Word, read_word, write_word};
use std::alloc::Global;
use std::marker::Brand;
use std::process::Abort;
use std::sync::ledger::{Blank, Ledger};

// The sides of a member's code, and the text of its word.
type Listed = (&'static [u64], &'static str);

const FIRST_WORD: &str = "2u.2aa.2ue.2eue.1e";

const SECOND_WORD: &str = "2u.2aa.3uue.1ea.1ee";

const FIRST_OF_9: Listed = (&[18, 15, 7, 8, 14, 4, 10, 1, 9], FIRST_WORD);

const SECOND_OF_9: Listed = (&[36, 33, 5, 28, 25, 9, 2, 7, 16], SECOND_WORD);

const IMPERFECT_OF_9: Listed = (&[6, 4, 5, 3, 1, 6, 5, 1, 4], "3ua.2aue.2ue.1a.1ee");

const PAIR: Listed = (&[1, 1], "2e");

// So many moves a whole walk of order 9 pushes, where the equations between the sides of the first five squares cut it,
// and so many without this cut. Both numbers are measured, and a change of a cut may change them.
const PUSHES_OF_9: u64 = 1568;

const PUSHES_WITHOUT_FORMS: u64 = 1569;

const ONE_OF_10: &str = "3ua.2aue.2ue.2ea.1ee";

const SIDES_OF_10: &[u64] = &[25, 17, 23, 11, 6, 5, 24, 22, 3, 19];

// The word of a text.
fn word_in(rt: &impl Abort, alloc: Global, text: &str) -> Word {
    read_word(alloc, text.as_bytes()).expect(rt, "it is a word")
}

// A walk from the cursor of this text, or from the start.
fn walk_from(rt: &impl Abort, alloc: Global, order: u8, class: Class, text: Option<&str>) -> Walk {
    assert!(rt; order >= 2 && usize::from(order) <= LARGEST_LISTED_ORDER);
    match text {
        Some(text) => {
            let word = word_in(rt, alloc, text);
            assert!(rt; word.order() <= LARGEST_LISTED_ORDER);
            Walk::new(alloc, order, class, Some(word))
        }
        None => Walk::new(alloc, order, class, None),
    }
}

// The next member of a walk, if there is one and it isn't wide.
fn next<L: Ledger>(walk: &mut Walk, steps: &mut Steps<L>) -> Option<Entry> {
    walk.advance(steps)?.ok()
}

// Whether a walk is at its end.
fn is_over<L: Ledger>(walk: &mut Walk, steps: &mut Steps<L>) -> bool {
    walk.advance(steps).is_none()
}

// The text of a word, or none of a word without a move.
fn text_of(word: &Word) -> ArrayVec<u8, 9000> {
    let mut text = ArrayVec::new();
    if word.moves() > 0 {
        write_word(word, &mut text);
    }
    text
}

// Whether a word is written so.
fn is_written(word: &Word, text: &str) -> bool {
    word.moves() > 0 && text_of(word).as_slice() == text.as_bytes()
}

// Whether a member has these sides and this word.
fn is_member(entry: &Entry, sides: &[u64], text: &str) -> bool {
    flat(&entry.code) == sides && is_written(&entry.word, text)
}

// Whether the next member of a walk has these sides and this word, and the walk is there.
fn lists_one<L: Ledger>(walk: &mut Walk, sides: &[u64], text: &str, steps: &mut Steps<L>) -> bool {
    match next(walk, steps) {
        Some(entry) => is_member(&entry, sides, text) && is_written(walk.cursor(), text),
        None => false,
    }
}

// Goes on with the walk; whether it gives these members and then ends, asked twice.
fn lists<L: Ledger>(walk: &mut Walk, members: &[Listed], steps: &mut Steps<L>) -> bool {
    for (sides, text) in members {
        if !lists_one(walk, sides, text, steps) {
            return false;
        }
    }
    is_over(walk, steps) && is_over(walk, steps)
}

// An order, a class, and the cursor that a walk begins after.
type Start = (u8, Class, Option<&'static str>);

// Whether a walk gives these members and then ends.
fn lists_from<L: Ledger>(
    rt: &impl Abort,
    alloc: Global,
    start: Start,
    members: &[Listed],
    steps: &mut Steps<L>,
) -> bool {
    let (order, class, text) = start;
    let mut walk = walk_from(rt, alloc, order, class, text);
    lists(&mut walk, members, steps)
}

// Orders, classes, and their members.
static ORDERS: [(u8, Class, &[Listed]); 6] = [
    (2, Class::Perfect, &[]),
    (2, Class::Imperfect, &[PAIR]),
    (2, Class::Simple, &[PAIR]),
    (9, Class::Perfect, &[FIRST_OF_9, SECOND_OF_9]),
    (9, Class::Imperfect, &[IMPERFECT_OF_9]),
    (9, Class::Simple, &[FIRST_OF_9, SECOND_OF_9, IMPERFECT_OF_9]),
];

fn orders() -> &'static [(u8, Class, &'static [Listed])] {
    &ORDERS
}

fn whole_orders<L: Ledger>(rt: &impl Abort, alloc: Global, blank: Blank)
    requires name { blank.name ≡ L.name }
    requires parts { blank.parts ≡ L.parts }
    requires some { 0 < L.parts }
{
    let mut steps: Steps<L> = Steps::new(blank);
    for (order, class, members) in orders() {
        let start = (*order, *class, None);
        assert!(rt;
            lists_from(rt, alloc, start, members, &mut steps),
            "{order} {class:?}"
        );
    }
    for order in 3..9 {
        lists_none(rt, alloc, order, &mut steps);
    }
}

// Walks of the order list no member in any class.
fn lists_none<L: Ledger>(rt: &impl Abort, alloc: Global, order: u8, steps: &mut Steps<L>) {
    for class in [Class::Perfect, Class::Imperfect, Class::Simple] {
        let start = (order, class, None);
        assert!(rt;
            lists_from(rt, alloc, start, &[], steps),
            "{order} {class:?}"
        );
    }
}

#[test]
fn lists_whole_orders(rt: HostRuntime) {
    whole_orders::<Brand>(&rt, rt.alloc(), Blank::new(1));
}

// Cursors at members, at words that no member has, at words that are not legal or of other orders, and after all words.
static CURSORS: [(&str, &[Listed]); 9] = [
    (FIRST_WORD, &[SECOND_OF_9]),
    (SECOND_WORD, &[]),
    ("1", &[FIRST_OF_9, SECOND_OF_9]),
    ("2u.2aa", &[FIRST_OF_9, SECOND_OF_9]),
    ("2uu", &[]),
    ("2u.2aa.3uu.1", &[SECOND_OF_9]),
    ("2u.2aa.2ue.2eue.1e.1", &[SECOND_OF_9]),
    ("3aa", &[]),
    ("16uuuuuuuuuuuuuuuuu", &[]),
];

fn rows_of_cursors() -> &'static [(&'static str, &'static [Listed])] {
    &CURSORS
}

fn cursors<L: Ledger>(rt: &impl Abort, alloc: Global, blank: Blank)
    requires name { blank.name ≡ L.name }
    requires parts { blank.parts ≡ L.parts }
    requires some { 0 < L.parts }
{
    let mut steps: Steps<L> = Steps::new(blank);
    for (text, members) in rows_of_cursors() {
        let start = (9, Class::Perfect, Some(*text));
        assert!(rt; lists_from(rt, alloc, start, members, &mut steps), "{text}");
    }
}

#[test]
fn goes_on_after_any_cursor(rt: HostRuntime) {
    cursors::<Brand>(&rt, rt.alloc(), Blank::new(1));
}

// Whether a member has this word, and then these sides; none if it has others.
fn fits(entry: &Entry, sides: &[u64], text: &str) -> Option<bool> {
    if !is_written(&entry.word, text) {
        Some(false)
    } else if flat(&entry.code) == sides {
        Some(true)
    } else {
        None
    }
}

// Whether the next member of a walk has the one word of order 10, and then its sides; none if there is no member.
fn next_fits<L: Ledger>(walk: &mut Walk, steps: &mut Steps<L>) -> Option<bool> {
    let entry = next(walk, steps)?;
    fits(&entry, SIDES_OF_10, ONE_OF_10)
}

// Whether a walk of order 10 gives six members, one of them this one, and then ends.
fn lists_six<L: Ledger>(rt: &impl Abort, alloc: Global, steps: &mut Steps<L>) -> bool {
    let mut walk = walk_from(rt, alloc, 10, Class::Perfect, None);
    let mut is_there = false;
    for _ in 0..6 {
        match next_fits(&mut walk, steps) {
            Some(fits) => is_there = is_there || fits,
            None => return false,
        }
    }
    is_there && is_over(&mut walk, steps)
}

// The members of order 10, of which there are six.
fn order_10<L: Ledger>(rt: &impl Abort, alloc: Global, blank: Blank)
    requires name { blank.name ≡ L.name }
    requires parts { blank.parts ≡ L.parts }
    requires some { 0 < L.parts }
{
    let mut steps: Steps<L> = Steps::new(blank);
    assert!(rt; lists_six(rt, alloc, &mut steps));
}

#[test]
fn lists_six_of_order_10(rt: HostRuntime) {
    order_10::<Brand>(&rt, rt.alloc(), Blank::new(1));
}

// How many moves a walk of order 9 pushes that begins here, gives these members and ends.
fn pushes_of<L: Ledger>(
    rt: &impl Abort,
    alloc: Global,
    from: Option<&str>,
    members: &[Listed],
    steps: &mut Steps<L>,
) -> Option<u64> {
    let mut walk = walk_from(rt, alloc, 9, Class::Perfect, from);
    if walk.pushes() == 0 && lists(&mut walk, members, steps) {
        Some(walk.pushes())
    } else {
        None
    }
}

// How many moves a walk of order 9 pushes to its first member.
fn pushes_to_first<L: Ledger>(rt: &impl Abort, alloc: Global, steps: &mut Steps<L>) -> Option<u64> {
    let mut walk = walk_from(rt, alloc, 9, Class::Perfect, None);
    if is_over(&mut walk, steps) {
        None
    } else {
        Some(walk.pushes())
    }
}

// Whether a walk pushes so few moves more in two parts than as a whole, and each of them some.
fn are_few(all: u64, first: u64, second: u64) -> bool {
    first >= 5
        && second >= 5
        && first <= 1000000
        && second <= 1000000
        && all <= 1000000
        && first + second <= all + 16
}

// A walk that is cut at its first entry and continued pushes at most 16 moves more than a whole one, and a whole one
// fewer than without the equations between sides.
fn parts_of_order_9<L: Ledger>(rt: &impl Abort, alloc: Global, blank: Blank)
    requires name { blank.name ≡ L.name }
    requires parts { blank.parts ≡ L.parts }
    requires some { 0 < L.parts }
{
    let mut steps: Steps<L> = Steps::new(blank);
    let all = pushes_of(rt, alloc, None, &[FIRST_OF_9, SECOND_OF_9], &mut steps);
    let all = all.expect(rt, "both members");
    let first = pushes_to_first(rt, alloc, &mut steps).expect(rt, "the first member");
    let second = pushes_of(rt, alloc, Some(FIRST_WORD), &[SECOND_OF_9], &mut steps);
    let second = second.expect(rt, "the second member");
    assert!(rt; all >= 8 && all < PUSHES_WITHOUT_FORMS);
    assert!(rt; are_few(all, first, second), "{all} {first} {second}");
}

#[test]
fn counts_pushes(rt: HostRuntime) {
    parts_of_order_9::<Brand>(&rt, rt.alloc(), Blank::new(1));
}

// The eighth and the sixteenth word among the members of order 11.
const EIGHTH_OF_11: &str = "2u.2aa.3uuu.2eaa.1ee.1ee";

const SIXTEENTH_OF_11: &str = "2u.3eaa.3uue.2eae.1ee";

// Whether two members have the same word and the same code.
fn are_same(entry: &Entry, same: &Entry) -> bool {
    entry.word.moves() > 0
        && text_of(&entry.word).as_slice() == text_of(&same.word).as_slice()
        && flat(&entry.code) == flat(&same.code)
}

// Goes on with two walks; whether they give the same member.
fn go_together<L: Ledger>(whole: &mut Walk, part: &mut Walk, steps: &mut Steps<L>) -> bool {
    let Some(entry) = next(whole, steps) else {
        return false;
    };
    match next(part, steps) {
        Some(same) => are_same(&entry, &same),
        None => false,
    }
}

// Goes on with two walks of order 11, one of which begins here; whether they give the same eight members.
fn go_along<L: Ledger>(
    rt: &impl Abort,
    alloc: Global,
    whole: &mut Walk,
    from: Option<&str>,
    steps: &mut Steps<L>,
) -> bool {
    let mut walk = walk_from(rt, alloc, 11, Class::Perfect, from);
    for _ in 0..8 {
        if !go_together(whole, &mut walk, steps) {
            return false;
        }
    }
    true
}

// Goes on with two walks to the end; whether they give the same members and end together.
fn end_together<L: Ledger>(whole: &mut Walk, part: &mut Walk, steps: &mut Steps<L>) -> bool {
    for _ in 0..MOST_MEMBERS {
        match next(whole, steps) {
            Some(entry) => match next(part, steps) {
                Some(same) if are_same(&entry, &same) => {}
                _ => return false,
            },
            None => return is_over(part, steps),
        }
    }
    false
}

// A whole walk of order 11, and one in three parts, each after the last member of the part before; whether they agree.
fn parts_agree<L: Ledger>(rt: &impl Abort, alloc: Global, steps: &mut Steps<L>) -> bool {
    let mut whole = walk_from(rt, alloc, 11, Class::Perfect, None);
    if !go_along(rt, alloc, &mut whole, None, steps) {
        return false;
    }
    if !go_along(rt, alloc, &mut whole, Some(EIGHTH_OF_11), steps) {
        return false;
    }
    let mut last = walk_from(rt, alloc, 11, Class::Perfect, Some(SIXTEENTH_OF_11));
    end_together(&mut whole, &mut last, steps)
}

// How many moves a whole walk of order 9 pushes, and the parts of order 11.
fn with_equations<L: Ledger>(rt: &impl Abort, alloc: Global, blank: Blank)
    requires name { blank.name ≡ L.name }
    requires parts { blank.parts ≡ L.parts }
    requires some { 0 < L.parts }
{
    let mut steps: Steps<L> = Steps::new(blank);
    let nine = pushes_of(rt, alloc, None, &[FIRST_OF_9, SECOND_OF_9], &mut steps);
    assert!(rt; nine == Some(PUSHES_OF_9));
    assert!(rt; parts_agree(rt, alloc, &mut steps));
}

#[test]
fn equations_lose_no_member(rt: HostRuntime) {
    with_equations::<Brand>(&rt, rt.alloc(), Blank::new(1));
}

// The number of perfect members of order 16 (sequence A002839 of the OEIS).
const PERFECT_OF_16: usize = 9_016;

// How many members a walk gives, or the most that a table has room for.
fn count_members<L: Ledger>(walk: &mut Walk, steps: &mut Steps<L>) -> usize {
    for count in 0..MOST_MEMBERS {
        if is_over(walk, steps) {
            return count;
        }
    }
    MOST_MEMBERS
}

// A whole walk of order 16 gives all its members, and pushes few moves for each. It makes one table: one that made a
// table at each call would search as often as there are members, and would take many times as long as a test may.
fn whole_order_16<L: Ledger>(rt: &impl Abort, alloc: Global, blank: Blank)
    requires name { blank.name ≡ L.name }
    requires parts { blank.parts ≡ L.parts }
    requires some { 0 < L.parts }
{
    let mut steps: Steps<L> = Steps::new(blank);
    let mut walk = walk_from(rt, alloc, 16, Class::Perfect, None);
    assert!(rt; count_members(&mut walk, &mut steps) == PERFECT_OF_16);
    assert!(rt; walk.pushes() <= 128 + 16 * PERFECT_OF_16 as u64);
}

#[test]
fn lists_all_of_order_16(rt: HostRuntime) {
    whole_order_16::<Brand>(&rt, rt.alloc(), Blank::new(1));
}
