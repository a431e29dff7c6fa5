//! The members of an order by a plain walk through the legal words, in ascending order. It asks no table and no net,
//! and judges each complete word by its tiling.
//!
//! It is cut only where a simple tiling of three squares or more can't go on: a square alone above or below another of
//! its width, two equal squares side by side, one segment before the end, and more segments to be closed than squares
//! are left, where a valley of one square asks for two.

use arrayvec::ArrayVec;
use bk_catalogue::{closing_bound, single_valleys};
use bk_lay::word_of;
use bk_packed::Packed;
use bk_play::{Skel, open_side};
use bk_simple::{part, repeated};
use bk_skel::{realise_small, skeleton_of};
use bk_sym::is_canonical;
use bk_word::{Class, LARGEST_LISTED_ORDER, LARGEST_ORDER, Move, Sign, Word};
use std::alloc::{AllocError, Global};
use std::process::Abort;

// No walk of these tests takes so many steps.
const MOST_STEPS: u32 = 1_000_000_000;

// No move has so many signs, and no outline.
const MOST_SIGNS: usize = 201;

/// A member of an order.
#[derive(Drop)]
pub(crate) struct Member {
    /// Its word.
    pub(crate) word: Word,
    /// The word packed.
    pub(crate) number: u128,
    /// Whether its sides all differ.
    pub(crate) is_perfect: bool,
}

impl Member {
    /// Whether it is of the class.
    pub(crate) fn is_of(&self, class: Class) -> bool {
        match class {
            Class::Perfect => self.is_perfect,
            Class::Imperfect => !self.is_perfect,
            Class::Simple => true,
        }
    }
}

// Where a step of the walk leads.
enum Went {
    On,
    Complete,
    Ended,
}

/// All members of an order, perfect and imperfect, in ascending order of their words.
pub(crate) fn members(
    rt: &impl Abort,
    alloc: Global,
    order: u8,
) -> Result<Vec<Member>, AllocError> {
    let mut found = Vec::new(alloc);
    let mut skel = Skel::new();
    let mut next = least_move();
    for _ in 0..MOST_STEPS {
        match step(rt, &mut skel, &mut next, order) {
            Went::On => {}
            Went::Complete => {
                if let Some(member) = member_at(rt, alloc, &skel) {
                    found.push(member)?;
                }
            }
            Went::Ended => return Ok(found),
        }
    }
    panic!(rt; "a walk ends")
}

/// The packed number of a legal word of at most 16 squares.
pub(crate) fn number_of(rt: &impl Abort, word: &Word) -> u128 {
    assert!(rt; skeleton_of(word).is_ok() && word.order() <= LARGEST_LISTED_ORDER);
    Packed::of(word).number()
}

fn least_move() -> Move {
    Move {
        count: 1,
        signs: ArrayVec::new(),
    }
}

// Back from moves after which none is left, or down by the next move, where its segments can be closed by the squares
// that are left.
fn step(rt: &impl Abort, skel: &mut Skel, next: &mut Move, order: u8) -> Went {
    if skel.order() + usize::from(next.count) > usize::from(order) {
        let moves = skel.moves();
        if moves == 0 {
            return Went::Ended;
        }
        *next = skel.get(moves - 1);
        skel.pop();
        raise(rt, next);
        return Went::On;
    }
    pad(rt, next, skel);
    assert!(rt; skel.legal(next) && skel.order() + usize::from(next.count) <= LARGEST_LISTED_ORDER);
    if has_part(skel, next) {
        raise(rt, next);
        return Went::On;
    }
    skel.play(next);
    if cannot_end(rt, skel, order) {
        skel.pop();
        raise(rt, next);
        return Went::On;
    }
    *next = least_move();
    if skel.order() == usize::from(order) {
        Went::Complete
    } else {
        Went::On
    }
}

// Whether a legal move hangs one square under one square, or two level ones side by side.
fn has_part(skel: &Skel, m: &Move) -> bool {
    if m.count == 1 {
        return skel.valley_len() <= 1;
    }
    let (left, _) = skel.walls();
    let own = m
        .signs
        .iter()
        .skip(open_side(left))
        .take(usize::from(m.count.saturating_sub(1)));
    own.filter(|sign| **sign == Sign::Even).count() > 0
}

// Whether one segment is left too early, or more have to be closed than squares are left.
fn cannot_end(rt: &impl Abort, skel: &Skel, order: u8) -> bool {
    if skel.is_closed() {
        return skel.order() < usize::from(order);
    }
    let signs = skel.signs();
    let sizes = skel.sizes();
    assert!(rt; signs.len() < MOST_SIGNS && sizes.len() == signs.len() + 1);
    let closed = closing_bound(signs);
    let lone = single_valleys(signs, sizes);
    assert!(rt; closed < MOST_SIGNS && lone < MOST_SIGNS);
    skel.order() + closed + lone > usize::from(order)
}

// Puts signs above behind those of the move, until it is legal.
fn pad(rt: &impl Abort, m: &mut Move, skel: &Skel) {
    let (left, right) = skel.walls();
    let wanted = usize::from(m.count) + open_side(left) + open_side(right);
    assert!(rt; m.signs.len() < MOST_SIGNS);
    for _ in m.signs.len() + 1..wanted {
        assert!(rt; m.signs.len() < MOST_SIGNS);
        m.signs.push(Sign::Above);
    }
}

// Makes of the move the next after it: raises the last sign that isn't under, and drops those behind it; where all are
// under, it hangs one square more.
fn raise(rt: &impl Abort, m: &mut Move) {
    for _ in 0..MOST_SIGNS {
        let raised = match m.signs.pop() {
            Some(Sign::Above) => Sign::Even,
            Some(Sign::Even) => Sign::Under,
            Some(Sign::Under) => continue,
            None => break,
        };
        assert!(rt; m.signs.len() < MOST_SIGNS);
        m.signs.push(raised);
        return;
    }
    assert!(rt; usize::from(m.count) < LARGEST_ORDER);
    m.count += 1;
}

// The member whose word is that of the skeleton, if one has it.
fn member_at(rt: &impl Abort, alloc: Global, skel: &Skel) -> Option<Member> {
    assert!(rt; skel.is_closed() && skel.order() <= LARGEST_LISTED_ORDER);
    let Ok(Some(tiling)) = realise_small(skel) else {
        return None;
    };
    if !is_canonical(&tiling) || part(&tiling).is_some() {
        return None;
    }
    let word = word_of(alloc, &tiling).expect(rt, "there is memory");
    let number = number_of(rt, &word);
    Some(Member {
        word,
        number,
        is_perfect: repeated(&tiling).is_none(),
    })
}
