//! Rows of `bk_word`.

use super::texts::built;
use arrayvec::ArrayVec;
use bk_word::*;
use std::alloc::Global;
use std::cmp::Ordering;
use std::process::Abort;

// Whether the first word is smaller than the second, the second greater than the first, and the first equal to itself.
fn is_less(first: &Word, second: &Word) -> bool {
    first.cmp(second) == Ordering::Less
        && second.cmp(first) == Ordering::Greater
        && first.cmp(first) == Ordering::Equal
}

// Whether the word of the first text is smaller than that of the second.
fn reads_less(alloc: Global, less: &str, more: &str) -> bool {
    let Ok(first) = read_word(alloc, less.as_bytes()) else {
        return false;
    };
    match read_word(alloc, more.as_bytes()) {
        Ok(second) => is_less(&first, &second),
        Err(_) => false,
    }
}

// Two words of a row, the smaller one first.
fn rows_in_order() -> &'static [(&'static str, &'static str)] {
    &[
        ("2a", "2e"),
        ("2e", "2u"),
        ("2u", "3aa"),
        ("2u", "2u.1a"),
        ("2u.2a", "2u.2aa"),
        ("1.2uu", "2a"),
        ("9aaaaaaaa", "10aaaaaaaaa"),
    ]
}

#[test]
fn order(rt: HostRuntime) {
    for (less, more) in rows_in_order() {
        assert!(rt; reads_less(rt.alloc(), less, more), "{less}, {more}");
    }
}

// Texts and their orders.
fn rows_of_texts() -> &'static [(&'static str, u8)] {
    &[
        ("1", 1),
        ("2u.2eu", 4),
        ("2u.2eu.1e", 5),
        ("2u.2aa.3uue.1ea.1ee", 9),
        ("3ua.2aue.2ue.2ea.1ee", 10),
        (
            "1ae.12aeuaeuaeuaeu.100aaaaaaaaaaaaaaaaaaaaaaaaaaaaaaaaaaaaaa\
             aaaaaaaaaaaaaaaaaaaaaaaaaaaaaaaaaaaaaaaaaaaaaaaaaaaaaaaaaaaaa",
            113,
        ),
    ]
}

// Whether a word is written so.
fn is_written(word: &Word, text: &[u8]) -> bool {
    if word.moves() == 0 {
        return false;
    }
    let mut out = ArrayVec::new();
    write_word(word, &mut out);
    out.as_slice() == text
}

// Whether a text is that of a word of this order, by both calls, and is written as it was read.
fn reads_in_order(alloc: Global, text: &[u8], order: u8) -> bool {
    match read_word(alloc, text) {
        Ok(word) => {
            text_order(text) == Some(order)
                && word.order() == usize::from(order)
                && is_written(&word, text)
        }
        Err(_) => false,
    }
}

// Texts with their orders, which are written as they were read.
#[test]
fn texts(rt: HostRuntime) {
    for (text, order) in rows_of_texts() {
        assert!(rt;
            reads_in_order(rt.alloc(), text.as_bytes(), *order),
            "{text}"
        );
    }
}

// Whether a text is none, and so many bytes of it begin one.
fn begins_one(alloc: Global, text: &[u8], place: usize) -> bool {
    match read_word(alloc, text) {
        Err(WordFault::Text { at }) => text_order(text).is_none() && at == place,
        _ => false,
    }
}

fn rows_of_no_texts() -> &'static [(&'static str, usize)] {
    &[
        ("2.1", 1),
        ("2u.", 3),
        ("2uuuu", 4),
        ("2ux", 2),
        ("", 0),
        ("0", 0),
        ("1.0", 2),
        ("1000", 3),
        ("1..1", 2),
        ("3u.1", 2),
        ("2u.2eu.1e 1", 9),
    ]
}

// Texts that are none, and how many bytes of each begin one.
#[test]
fn no_texts(rt: HostRuntime) {
    for (text, place) in rows_of_no_texts() {
        assert!(rt; begins_one(rt.alloc(), text.as_bytes(), *place), "{text}");
    }
}

// Whether a text has too many squares by both calls.
fn is_too_many(alloc: Global, text: &[u8]) -> bool {
    match read_word(alloc, text) {
        Err(WordFault::Many) => text_order(text) == Some(201),
        _ => false,
    }
}

// Whether a text of so many more moves of one square than one has too many.
fn are_too_many(alloc: Global, times: usize) -> bool {
    let more = built("1", ".1", times, "");
    is_too_many(alloc, more.as_slice())
}

// Whether a text of 200 moves of one square is read in order.
fn reads_most(alloc: Global) -> bool {
    let most = built("1", ".1", 199, "");
    reads_in_order(alloc, most.as_slice(), 200)
}

// 200 squares, and more.
#[test]
fn many(rt: HostRuntime) {
    assert!(rt; reads_most(rt.alloc()));
    for times in [200, 201, 400] {
        assert!(rt; are_too_many(rt.alloc(), times), "{times}");
    }
}

// A copy of a word, move by move.
fn pushed(rt: &impl Abort, alloc: Global, whole: &Word) -> Word {
    let mut pushed = Word::new(alloc);
    for i in 0..whole.moves() {
        let m = whole.get(i);
        assert!(rt; pushed.order() + usize::from(m.count) <= LARGEST_ORDER);
        assert!(rt; pushed.push(&m).is_ok());
    }
    pushed
}

// Whether a copy of a word at once is this one.
fn is_copied(alloc: Global, word: &Word, whole: &Word) -> bool {
    match word.copy(alloc) {
        Ok(copy) => copy.cmp(whole) == Ordering::Equal,
        Err(NoMemory) => false,
    }
}

// Whether a word of 100 moves has 99 and is less than another one when its last move is taken back.
fn is_less_without_last(word: &mut Word, whole: &Word) -> bool {
    if word.moves() != 100 {
        return false;
    }
    word.pop();
    word.moves() == 99 && word.cmp(whole) == Ordering::Less
}

// The word of a staircase of 199 squares.
fn stairs(rt: &impl Abort, alloc: Global) -> Word {
    let text = built("2u", ".2eu", 98, ".1e");
    match read_word(alloc, text.as_slice()) {
        Ok(word) => word,
        Err(_) => panic!(rt; "the text of a word"),
    }
}

// The staircase of 199 squares, pushed move by move, is its copy; it follows what is left without its last move.
#[test]
fn staircase(rt: HostRuntime) {
    let whole = stairs(&rt, rt.alloc());
    assert!(rt; whole.order() == 199);
    let mut pushed = pushed(&rt, rt.alloc(), &whole);
    assert!(rt; is_copied(rt.alloc(), &pushed, &whole));
    assert!(rt; is_less_without_last(&mut pushed, &whole));
}

fn rows_of_items() -> &'static [(&'static str, Option<(usize, usize)>)] {
    &[
        ("2u.2eu", Some((0, 6))),
        (" \t2u \r; note", Some((2, 4))),
        ("2u 1;;", Some((0, 4))),
        ("", None),
        (" \t\r", None),
        ("  ; 2u", None),
    ]
}

// Lines, and where the item of each begins and ends.
#[test]
fn items(rt: HostRuntime) {
    for (line, item) in rows_of_items() {
        assert!(rt; word_item(line.as_bytes()) == *item, "{line}");
    }
}

fn names_of_faults() -> &'static [(WordFault, &'static str)] {
    &[
        (WordFault::Text { at: 3 }, "Text"),
        (WordFault::Many, "Many"),
        (WordFault::NoMemory, "NoMemory"),
    ]
}

// Whether a fault is printed as this name.
fn is_printed(alloc: Global, fault: &WordFault, name: &str) -> bool {
    match format!(in alloc; "{fault}") {
        Ok(text) => text.as_str() == name,
        Err(_) => false,
    }
}

// Whether the lack of memory is printed as its name.
fn no_memory_is_printed(alloc: Global) -> bool {
    let fault = NoMemory;
    match format!(in alloc; "{fault}") {
        Ok(text) => text.as_str() == "NoMemory",
        Err(_) => false,
    }
}

// Each fault is printed as its name.
#[test]
fn messages(rt: HostRuntime) {
    for (fault, name) in names_of_faults() {
        assert!(rt; is_printed(rt.alloc(), fault, name), "{name}");
    }
    assert!(rt; no_memory_is_printed(rt.alloc()));
}
