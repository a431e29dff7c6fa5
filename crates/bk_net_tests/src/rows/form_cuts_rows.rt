//! Words of three moves, as a table: of some the last move is ruled out by the sides of the first squares, of others it
//! isn't.

ghost use Rattle.std.specs.Prelude.{◌≡◌};
ghost use Rattle.bk_word.specs.Outline.{IsLegalMove};
ghost use Rattle.bk_word.specs.Play.{outline_of};
ghost use Rattle.bk_walk_cuts.specs.Trace.{IsTraceOf};

use arrayvec::ArrayVec;
use bk_play::{Skel, open_side};
use bk_walk_cuts::Tracing;
use bk_word::{Class, LARGEST_ORDER, Move, Sign, Word, read_word};
use std::alloc::Global;

// Plays a move after these moves, and traces it, where it is legal; whether it is.
fn play_and_trace(skel: &mut Skel, sides: &mut Tracing, m: &Move) -> bool
    requires trace { IsTraceOf skel.old sides.old }
    ensures trace { IsTraceOf skel.new sides.new }
{
    if !skel.legal(m) || skel.order() + usize::from(m.count) > LARGEST_ORDER {
        return false;
    }
    sides.push(skel, m);
    skel.play(m);
    true
}

// Whether a move after these moves is ruled out in a class, if it is legal.
fn is_out(skel: &Skel, sides: &Tracing, m: &Move, class: Class) -> Option<bool>
    requires trace { IsTraceOf skel.now sides.now }
{
    if skel.legal(m) {
        Some(sides.rules_out(skel, m, class))
    } else {
        None
    }
}

// Whether the last move of a word is ruled out in a class, if all are legal.
fn is_last_out(word: &Word, class: Class) -> Option<bool> {
    let last = word.moves().checked_sub(1)?;
    let mut skel = Skel::new();
    let mut sides = Tracing::new();
    for i in 0..last {
        if !play_and_trace(&mut skel, &mut sides, &word.get(i)) {
            return None;
        }
    }
    is_out(&skel, &sides, &word.get(last), class)
}

// Whether the last move of the word of a text is ruled out in a class, if all are legal.
fn is_ruled_out(alloc: Global, text: &str, class: Class) -> Option<bool> {
    match read_word(alloc, text.as_bytes()) {
        Ok(word) => is_last_out(&word, class),
        Err(_) => None,
    }
}

// Words of three moves, with a class, and whether the last move is ruled out in it.
fn rows() -> &'static [(&'static str, Class, bool)] {
    &[
        ("2u.2ea.1e", Class::Perfect, true),
        ("2u.2ea.1e", Class::Imperfect, false),
        ("2u.2ea.1e", Class::Simple, false),
        ("2u.2ea.1a", Class::Perfect, false),
        ("2u.2aa.2ue", Class::Perfect, false),
        ("3aa.2ue.1ea", Class::Perfect, false),
        ("3ua.2eaa.1e", Class::Perfect, false),
    ]
}

// In 2u.2ea.1e the third side would be 0, so that the first two are equal. Of the other rows one begins a member's
// word, and the others differ in a sign, in the class, or by a square more than is followed.
#[test]
fn moves_are_ruled_out(rt: HostRuntime) {
    for (text, class, want) in rows() {
        assert!(rt;
            is_ruled_out(rt.alloc(), text, *class) == Some(*want),
            "{text}"
        );
    }
}

// The next sign of a code: its last digit of three.
fn next_sign(code: &mut u32) -> Sign {
    let digit = *code % 3;
    *code /= 3;
    match digit {
        0 => Sign::Above,
        1 => Sign::Even,
        _ => Sign::Under,
    }
}

// A move of so many squares after these moves, with the signs of a code.
fn next_move(skel: &Skel, count: u8, code: &mut u32) -> Move {
    let (left, right) = skel.walls();
    let mut signs = ArrayVec::new();
    for _ in 1..usize::from(count) + open_side(left) + open_side(right) {
        if !signs.is_full() {
            signs.push(next_sign(code));
        }
    }
    Move { count, signs }
}

// Whether a move has the sign even between two of its own squares.
fn has_even(skel: &Skel, m: &Move) -> bool {
    let (left, right) = skel.walls();
    let last = m.signs.len().saturating_sub(open_side(right));
    m.signs
        .iter()
        .take(last)
        .skip(open_side(left))
        .any(|sign| *sign == Sign::Even)
}

// Whether a move hangs one square under one square, or has the sign even between two of its own: then the search passes
// over it before it asks about the sides, since two are equal.
fn is_passed_over(skel: &Skel, m: &Move) -> bool {
    (m.count == 1 && skel.valley_len() == 1) || has_even(skel, m)
}

// Whether a move is legal, and in each class ruled out where it would be.
fn same_answers(skel: &Skel, sides: &Tracing, m: &Move) -> bool
    requires trace { IsTraceOf skel.now sides.now }
{
    if !skel.legal(m) {
        return false;
    }
    for class in [Class::Perfect, Class::Imperfect, Class::Simple] {
        if sides.rules_out(skel, m, class) != sides.would_rule_out(skel, m, class) {
            return false;
        }
    }
    true
}

// Whether along the word of these counts with the signs of a code each move is ruled out where it would be.
fn along(counts: &[u8], signs: u32) -> bool {
    let mut code = signs;
    let mut skel = Skel::new();
    let mut sides = Tracing::new();
    for count in counts {
        let m = next_move(&skel, *count, &mut code);
        if is_passed_over(&skel, &m) {
            return true;
        }
        if !same_answers(&skel, &sides, &m) || !play_and_trace(&mut skel, &mut sides, &m) {
            return false;
        }
    }
    true
}

// The words of at most 5 squares begin those of these counts, which have so many codes: 3 for each sign.
fn counts_of_words() -> &'static [(&'static [u8], u32)] {
    &[
        (&[5], 81),
        (&[1, 4], 243),
        (&[2, 3], 243),
        (&[3, 2], 243),
        (&[4, 1], 243),
        (&[1, 1, 3], 729),
        (&[1, 2, 2], 729),
        (&[1, 3, 1], 729),
        (&[2, 1, 2], 729),
        (&[2, 2, 1], 729),
        (&[3, 1, 1], 729),
        (&[1, 1, 1, 2], 2187),
        (&[1, 1, 2, 1], 2187),
        (&[1, 2, 1, 1], 2187),
        (&[2, 1, 1, 1], 2187),
        (&[1, 1, 1, 1, 1], 6561),
    ]
}

// No move that brings no more equations than squares would be ruled out.
#[test]
fn no_other_move_is_ruled_out(rt: HostRuntime) {
    for (counts, codes) in counts_of_words() {
        for code in 0..*codes {
            assert!(rt; along(counts, code), "{code}");
        }
    }
}
