//! Rows of `bk_skel`.

use super::texts::built;
use bk_skel::*;
use bk_tiling::{LONGEST_SIDE, Square, Tiling};
use bk_word::{INLINE_ORDER, Word, read_word};
use std::alloc::Global;

// A tiling's width, its height and its sides in code order.
type Rectangle = (u64, u64, &'static [u64]);

// Whether the sides of squares are these.
fn are_sides(squares: &[Square], sides: &[u64]) -> bool {
    squares.len() == sides.len() && squares.iter().zip(sides).all(|(q, side)| q.s == *side)
}

// Whether a tiling has this size and these sides.
fn is_tiling(tiling: &Tiling, rectangle: &Rectangle) -> bool {
    let (width, height, sides) = rectangle;
    tiling.width() == *width
        && tiling.height() == *height
        && tiling.order() == sides.len()
        && are_sides(tiling.squares(), sides)
}

// Whether a tiling is this rectangle, or both are none.
fn is_rectangle(tiling: &Option<Tiling>, want: &Option<Rectangle>) -> bool {
    match (tiling, want) {
        (Some(tiling), Some(rectangle)) => is_tiling(tiling, rectangle),
        (None, None) => true,
        _ => false,
    }
}

// Whether a word of at most 16 squares is realised as this rectangle without memory.
fn is_realised_small(word: &Word, want: &Option<Rectangle>) -> bool {
    let Ok(skel) = skeleton_of(word) else {
        return false;
    };
    if !skel.is_closed() || skel.order() > INLINE_ORDER {
        return false;
    }
    match realise_small(&skel) {
        Ok(tiling) => is_rectangle(&tiling, want),
        Err(_) => false,
    }
}

// Whether a word is realised as this rectangle.
fn is_realised(alloc: Global, word: &Word, want: &Option<Rectangle>) -> bool {
    if word.moves() == 0 {
        return false;
    }
    match realise(alloc, word) {
        Ok(tiling) => is_rectangle(&tiling, want),
        Err(_) => false,
    }
}

// Whether the word of a text is realised as this rectangle, also without memory where its order is at most 16.
fn realises(alloc: Global, text: &str, want: &Option<Rectangle>) -> bool {
    match read_word(alloc, text.as_bytes()) {
        Ok(word) => {
            is_realised(alloc, &word, want)
                && (word.order() > INLINE_ORDER || is_realised_small(&word, want))
        }
        Err(_) => false,
    }
}

static WORDS_AND_RECTANGLES: [(&'static str, Option<Rectangle>); 8] = [
    ("2u.2eu.1e", Some((8, 5, &[5, 3, 2, 1, 1]))),
    ("2e.2e", Some((2, 2, &[1, 1, 1, 1]))),
    ("1", Some((1, 1, &[1]))),
    ("2u.2ea.1e", None),
    ("2a.1u.1e", None),
    (
        "2u.2aa.2ue.2eue.1e",
        Some((33, 32, &[18, 15, 7, 8, 14, 4, 10, 1, 9])),
    ),
    (
        "3ua.2aue.2ue.2ea.1ee",
        Some((65, 47, &[25, 17, 23, 11, 6, 5, 24, 22, 3, 19])),
    ),
    (
        "1.1.1.1.1.1.1.1.1.1.1.1.1.1.1.1.1",
        Some((1, 17, &[1, 1, 1, 1, 1, 1, 1, 1, 1, 1, 1, 1, 1, 1, 1, 1, 1])),
    ),
];

fn words_and_rectangles() -> &'static [(&'static str, Option<Rectangle>)] {
    &WORDS_AND_RECTANGLES
}

#[test]
fn realises_words(rt: HostRuntime) {
    for (text, want) in words_and_rectangles() {
        assert!(rt; realises(rt.alloc(), text, want), "{text}");
    }
}

// Whether a word is realised in this room as this rectangle, which then stands in the room for a tiling.
fn is_realised_in(
    alloc: Global,
    word: &Word,
    room: &mut Room,
    tiling: &mut Tiling,
    want: &Option<Rectangle>,
) -> bool {
    if word.moves() == 0 {
        return false;
    }
    match (realise_in(alloc, word, room, tiling), want) {
        (Ok(Realised::Found), Some(rectangle)) => is_tiling(tiling, rectangle),
        (Ok(Realised::Nothing), None) => true,
        _ => false,
    }
}

// Whether the word of a text is realised in this room as this rectangle.
fn realises_in(
    alloc: Global,
    text: &str,
    room: &mut Room,
    tiling: &mut Tiling,
    want: &Option<Rectangle>,
) -> bool {
    match read_word(alloc, text.as_bytes()) {
        Ok(word) => is_realised_in(alloc, &word, room, tiling, want),
        Err(_) => false,
    }
}

// One room serves all words, the same one twice, and one behind a word that is refused.
#[test]
fn realises_words_in_one_room(rt: HostRuntime) {
    let mut room = Room::new();
    let mut tiling = Tiling::unit();
    for (text, want) in words_and_rectangles() {
        for _ in 0..2 {
            assert!(rt;
                realises_in(rt.alloc(), text, &mut room, &mut tiling, want),
                "{text}"
            );
        }
        assert!(rt; !realises_in(rt.alloc(), "2u.2e.1", &mut room, &mut tiling, want));
    }
}

// Whether the flow of a closed skeleton of few squares has this total and these currents.
fn has_flow(skel: &Skel, total: i64, currents: &[i64]) -> bool {
    if !skel.is_closed() || skel.order() > INLINE_ORDER {
        return false;
    }
    let flow = flow_of(skel);
    flow.total() == total && flow.currents() == currents
}

// Whether the flow of the net of a word has.
fn word_has_flow(alloc: Global, text: &str, total: i64, currents: &[i64]) -> bool {
    match skeleton(alloc, text.as_bytes()) {
        Some(skel) => has_flow(&skel, total, currents),
        None => false,
    }
}

fn words_and_flows() -> &'static [(&'static str, i64, &'static [i64])] {
    &[
        ("1", 1, &[1]),
        ("2e.2e", 2, &[1, 1, 1, 1]),
        ("2u.2eu.1e", 8, &[5, 3, 2, 1, 1]),
        ("2u.2ea.1e", 2, &[1, 1, 0, 1, 1]),
    ]
}

// The net of 2u.2ea.1e is a bridge in balance, whose middle wire has no current: so no tiling has this word.
#[test]
fn flows_of_words(rt: HostRuntime) {
    for (text, total, currents) in words_and_flows() {
        assert!(rt; word_has_flow(rt.alloc(), text, *total, currents), "{text}");
    }
}

// Why a word is refused.
fn refusal(alloc: Global, text: &[u8]) -> Option<SolveFault> {
    let word = read_word(alloc, text).ok()?;
    if word.moves() == 0 {
        return None;
    }
    realise(alloc, &word).err()
}

fn words_that_are_refused() -> &'static [(&'static str, SolveFault)] {
    &[
        ("2u.2e.1", SolveFault::Illegal { place: 2 }),
        ("2uu", SolveFault::Illegal { place: 1 }),
        ("2u.2eu", SolveFault::OpenEnd),
        ("1.2a", SolveFault::OpenEnd),
    ]
}

// Whether the word of a staircase of 199 squares is refused as wide.
fn stairs_are_wide(alloc: Global) -> bool {
    let stairs = built("2u", ".2eu", 98, ".1e");
    refusal(alloc, stairs.as_slice()) == Some(SolveFault::Wide)
}

#[test]
fn refuses_words(rt: HostRuntime) {
    for (text, want) in words_that_are_refused() {
        assert!(rt;
            refusal(rt.alloc(), text.as_bytes()) == Some(*want),
            "{text}"
        );
    }
    assert!(rt; stairs_are_wide(rt.alloc()));
}

// The skeleton of a word.
fn skeleton(alloc: Global, text: &[u8]) -> Option<Skel> {
    let word = read_word(alloc, text).ok()?;
    skeleton_of(&word).ok()
}

static SIDES_AND_RECTANGLES: [(&'static [u64], Option<Rectangle>); 5] = [
    (&[5, 3, 2, 1, 1], Some((8, 5, &[5, 3, 2, 1, 1]))),
    (&[10, 6, 4, 2, 2], Some((16, 10, &[10, 6, 4, 2, 2]))),
    (&[5, 3, 1, 2, 1], None),
    (&[5, 3, 2, 2, 1], None),
    (&[3, 5, 2, 1, 1], None),
];

fn sides_and_rectangles() -> &'static [(&'static [u64], Option<Rectangle>)] {
    &SIDES_AND_RECTANGLES
}

// Whether sides that squares may have are laid on a skeleton as this rectangle.
fn is_laid(skel: &Skel, sides: &[u64], want: &Option<Rectangle>) -> bool {
    if !skel.is_closed() || skel.order() != sides.len() {
        return false;
    }
    sides.iter().all(|side| *side >= 1 && *side <= LONGEST_SIDE)
        && is_rectangle(&placed(skel, sides), want)
}

#[test]
fn places_sides(rt: HostRuntime) {
    let skel = skeleton(rt.alloc(), b"2u.2eu.1e").expect(&rt, "it is legal");
    for (sides, want) in sides_and_rectangles() {
        assert!(rt; is_laid(&skel, sides, want), "{sides:?}");
    }
}
