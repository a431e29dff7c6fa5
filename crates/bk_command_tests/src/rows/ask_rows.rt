//! Command lines and what they ask, as tables, and the text of `help`.

use super::command_words::{HELP, words};
use arrayvec::ArrayVec;
use bk_ask::*;
use bk_grammar::push_bytes;
use bk_word::Class;
use std::alloc::{AllocError, Global};

// What is asked, as a word or as the values of its options. A cursor is shown by its order.
#[derive(PartialEq, Eq, Drop)]
enum Shown {
    Nothing,
    Alone(&'static str),
    Listing(u8, Class, Option<usize>, Option<u64>),
    Trial(u64, u32),
    Verify(u8),
    Pair(Kind),
}

fn seen(ask: Option<Ask>) -> Shown {
    match ask {
        None => Shown::Nothing,
        Some(Ask::Check) => Shown::Alone("check"),
        Some(Ask::Canon) => Shown::Alone("canon"),
        Some(Ask::Images) => Shown::Alone("images"),
        Some(Ask::Net) => Shown::Alone("net"),
        Some(Ask::Flow) => Shown::Alone("flow"),
        Some(Ask::Word) => Shown::Alone("word"),
        Some(Ask::Solve) => Shown::Alone("solve"),
        Some(Ask::Draw) => Shown::Alone("draw"),
        Some(Ask::Dual) => Shown::Alone("dual"),
        Some(Ask::Alike) => Shown::Alone("alike"),
        Some(Ask::Help) => Shown::Alone("help"),
        Some(
            Ask::List {
                order,
                class,
                from,
                limit,
            },
        ) => Shown::Listing(order, class, from.map(|word| word.order()), limit),
        Some(Ask::Trial { seed, count }) => Shown::Trial(seed, count),
        Some(Ask::Verify { order }) => Shown::Verify(order),
        Some(Ask::Pair { kind }) => Shown::Pair(kind),
    }
}

// What the words ask.
fn read_words(alloc: Global, words: &[String]) -> Shown {
    seen(asked(alloc, words))
}

// Whether the words of a line ask this.
fn asks(alloc: Global, line: &str, want: &Shown) -> bool {
    match words(alloc, line) {
        Ok(words) => read_words(alloc, words.as_slice()) == *want,
        Err(AllocError) => false,
    }
}

const STAND_ALONE: &[&str] = &[
    "check", "canon", "images", "net", "flow", "word", "solve", "draw", "dual", "alike", "help",
];

#[test]
fn commands_that_stand_alone(rt: HostRuntime) {
    for name in STAND_ALONE {
        assert!(rt; asks(rt.alloc(), name, &Shown::Alone(*name)), "{name}");
    }
}

static LINES_WITH_OPTIONS: [(&'static str, Shown); 13] = [
    (
        "list --order 2",
        Shown::Listing(2, Class::Perfect, None, None),
    ),
    (
        "list --order 16",
        Shown::Listing(16, Class::Perfect, None, None),
    ),
    (
        "list --limit 1 --order 9",
        Shown::Listing(9, Class::Perfect, None, Some(1)),
    ),
    (
        "list --order 9 --limit 1000000000 --class imperfect --from 2u.2aa.2ue.2eue.1e",
        Shown::Listing(9, Class::Imperfect, Some(9), Some(1_000_000_000)),
    ),
    (
        "list --class simple --from 16aaaaaaaaaaaaaaa --order 10 --limit 0",
        Shown::Listing(10, Class::Simple, Some(16), Some(0)),
    ),
    (
        "list --class perfect --order 9 --from 3aa",
        Shown::Listing(9, Class::Perfect, Some(3), None),
    ),
    ("trial --seed 0 --count 2", Shown::Trial(0, 2)),
    (
        "trial --count 100000 --seed 18446744073709551615",
        Shown::Trial(u64::MAX, 100_000),
    ),
    ("verify --order 2", Shown::Verify(2)),
    ("verify --order 16", Shown::Verify(16)),
    ("pair", Shown::Pair(Kind::Perfect)),
    ("pair --kind perfect", Shown::Pair(Kind::Perfect)),
    ("pair --kind any", Shown::Pair(Kind::Any)),
];

fn lines_with_options() -> &'static [(&'static str, Shown)] {
    &LINES_WITH_OPTIONS
}

#[test]
fn commands_with_options(rt: HostRuntime) {
    for (line, ask) in lines_with_options() {
        assert!(rt; asks(rt.alloc(), line, ask), "{line}");
    }
}

fn lines_that_ask_nothing() -> &'static [&'static str] {
    &[
        "",
        "Check",
        "check ",
        "check check",
        "help --order 9",
        "verify",
        "verify --order 1",
        "verify --order 17",
        "verify --order 9 --order 9",
        "verify --order 9 --class perfect",
        "alike --kind any",
        "pair any",
        "pair --kind",
        "pair --kind Any",
        "pair --kind imperfect",
        "pair --kind any --kind any",
        "pair --kind any --order 9",
        "list",
        "list --order 17",
        "list --order 1",
        "list --order 0",
        "list --order 09",
        "list --order +9",
        "list --order",
        "list --order ",
        "list --order=9",
        "list --ord 9",
        "list -order 9",
        "list --order 9 --order 9",
        "list --order 9 --order 10",
        "list --order 9 --",
        "list --order 9 --from 3",
        "list --order 9 --from",
        "list --order 9 --from 17uuuuuuuuuuuuuuuu",
        "list --order 9 --limit 1000000001",
        "list --order 9 --limit 00",
        "list --order 9 --limit -1",
        "list --order 9 --class Perfect",
        "list --order 9 --class compound",
        "list --order 9 --seed 1",
        "list --limit 1",
        "trial",
        "trial --seed 0",
        "trial --count 2",
        "trial --seed 18446744073709551616 --count 2",
        "trial --seed 0 --count 100001",
        "trial --seed 0 --count 2 --order 9",
        "trial --seed 00 --count 2",
    ]
}

#[test]
fn words_that_ask_nothing(rt: HostRuntime) {
    for line in lines_that_ask_nothing() {
        assert!(rt; asks(rt.alloc(), line, &Shown::Nothing), "{line}");
    }
    assert!(rt; read_words(rt.alloc(), &[]) == Shown::Nothing);
}

// The text of `help`, over an older text.
#[test]
fn help(rt: HostRuntime) {
    let mut out = ArrayVec::new();
    push_bytes(b"an older text", &mut out);
    write_help(&mut out);
    assert!(rt; out.as_slice() == HELP.as_bytes());
}
