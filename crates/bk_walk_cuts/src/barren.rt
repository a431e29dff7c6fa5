//! Cuts: which moves are passed over, because no member's word goes on by them.
#![tactic(auto)]

ghost use Rattle.std.specs.Prelude.{IfSome, IsTrue, Some, [], false, length, slice_get, ℕ, ◌+◌, ◌<◌, ◌≡◌, ◌≤◌, ◌⊎◌};
ghost use Rattle.bk_word.specs.Outline.{IsLegalMove, has_left_wall};
ghost use Rattle.bk_word.specs.Play.{outline_of};
ghost use Rattle.bk_word.specs.Word.{order_of};
ghost use Rattle.bk_word.specs.declared.Class.{Class};
ghost use Rattle.bk_word.specs.declared.Class.TheVariants.{Perfect};
ghost use Rattle.bk_word.specs.declared.TheConstants.{LARGEST_LISTED_ORDER};
ghost use Rattle.bk_catalogue.specs.Cuts.{IsBarren};
ghost use Rattle.bk_walk_cuts.specs.MoveCuts.{GrowsByAtMostOne, IsCut, IsFrontEndingEven, passed};

use crate::lined::LinedSkel;
use crate::moves::pass;
use crate::owing::cut_owing;
use bk_catalogue::single_valleys;
use bk_play::{Skel, open_side};
use bk_word::{Class, Move, Sign};

/// Passes over a legal move `m`, played after the moves of `lined`, by which no member's word of the order and the
/// class goes on, and over others of which this is as plain: `m` is then the move to go on from. The move must hang no
/// more squares than the order leaves. False if it isn't plain; the move is then as it was.
pub fn skip(lined: &LinedSkel, class: Class, order: u8, m: &mut Move) -> bool
    requires legal { IsLegalMove (outline_of lined.now) m.old }
    requires count { m.old.count ≤ LARGEST_LISTED_ORDER }
    requires signs { length m.old.signs ≤ LARGEST_LISTED_ORDER + 2 }
    requires small { order_of lined.now + m.old.count ≤ order }
    ensures cut { IsTrue result → IsCut order class lined.now m.old m.new }
    ensures near { GrowsByAtMostOne m.old m.new }
    ensures kept { result ≡ false → m.new ≡ m.old }
{
    match cut_front(lined, class, order, m) {
        None => false,
        Some(kept) => {
            pass(m, kept);
            true
        }
    }
}

// With how many of the move's signs those moves of its count begin by which it is plain that no member's word goes on.
fn cut_front(lined: &LinedSkel, class: Class, order: u8, m: &Move) -> Option<usize>
    requires legal { IsLegalMove (outline_of lined.now) m.now }
    requires small { order_of lined.now + m.now.count ≤ order }
    ensures { IfSome result (λ kept. IsCut order class lined.now m.now (passed kept m.now)) }
{
    let by_signs = cut_by_signs(lined.skel(), class, order, m);
    if by_signs.is_none() && lined.rules_out(m, class) {
        return Some(m.signs.len());
    }
    by_signs
}

// With how many of the move's signs those moves of its count begin by which, by counts and signs alone, it is plain
// that no member's word goes on.
fn cut_by_signs(skel: &Skel, class: Class, order: u8, m: &Move) -> Option<usize>
    requires legal { IsLegalMove (outline_of skel.now) m.now }
    requires small { order_of skel.now + m.now.count ≤ order }
    ensures { IfSome result (λ kept. IsCut order class skel.now m.now (passed kept m.now)) }
{
    let even = cut_even(skel, class, order, m);
    if even.is_some() {
        return even;
    }
    if is_under_one(skel, m) {
        return Some(0);
    }
    if is_shorter_first(skel, m) {
        return Some(m.signs.len());
    }
    cut_owing(skel, order, m)
}

// With how many of the move's signs those moves of its count begin by which no member's word goes on, since two equal
// squares stand side by side under one segment. Where the class isn't perfect, this is a cut at orders of at least 3.
fn cut_even(skel: &Skel, class: Class, order: u8, m: &Move) -> Option<usize>
    ensures { IfSome result (λ kept. IsCut order class skel.now m.now (passed kept m.now)) }
{
    if !bars_even(class, order) {
        return None;
    }
    let (left_wall, _) = skel.walls();
    first_even(m, open_side(left_wall))
}

// Whether no member has two equal squares side by side under one segment.
fn bars_even(class: Class, order: u8) -> bool
    ensures { IsTrue result → (class ≡ Perfect) ⊎ (3 ≤ order) }
{
    match class {
        Class::Perfect => true,
        Class::Imperfect | Class::Simple => order >= 3,
    }
}

// How many signs there are up to the first even one between two of the move's own squares, where its own begin at
// `from`.
fn first_even(m: &Move, from: usize) -> Option<usize>
    requires { from ≤ 1 }
    ensures { IfSome result (IsFrontEndingEven from m.now.count m.now.signs) }
{
    let end = from + usize::from(m.count);
    for (i, sign) in m.signs.as_slice().iter().enumerate() {
        if i >= from && i + 1 < end && *sign == Sign::Even {
            return Some(i + 1);
        }
    }
    None
}

// Whether the move hangs one square under just one, as all moves of its count do.
fn is_under_one(skel: &Skel, m: &Move) -> bool
    ensures { IsTrue result → (n : ℕ) (class : Class) → IsCut n class skel.now m.now (passed 0 m.now) }
{
    m.count == 1 && skel.valley_len() == 1
}

// Whether the move is the first one, of two squares of which the left one is the shorter.
fn is_shorter_first(skel: &Skel, m: &Move) -> bool
    requires { IsLegalMove (outline_of skel.now) m.now }
    ensures { IsTrue result
        → (n : ℕ) (class : Class) → IsCut n class skel.now m.now (passed (length m.now.signs) m.now) }
{
    if skel.moves() != 0 || m.count != 2 {
        return false;
    }
    m.signs.as_slice()[0].is_above()
}

/// Whether it is plain that no member's word of `order` begins with the moves of `lined`, in any class.
pub fn is_barren(lined: &LinedSkel, order: u8) -> bool
    ensures { IsTrue result → (class : Class) → IsBarren order class lined.now }
{
    is_whole_early(lined.skel(), order) || owes_too_many(lined, order)
}

// Whether one segment is left while fewer squares hang than the order.
fn is_whole_early(skel: &Skel, order: u8) -> bool
    ensures { IsTrue result → (class : Class) → IsBarren order class skel.now }
{
    skel.is_closed() && skel.order() < usize::from(order)
}

// Whether fewer squares are left than must still hang: one for each segment that ends above its neighbour on one
// segment's side, one for that segment itself where a vertical line from the top bounds it or ended on it, and one more
// for each valley of just one square. At orders under 3 nothing is said.
fn owes_too_many(lined: &LinedSkel, order: u8) -> bool
    ensures { IsTrue result → (class : Class) → IsBarren order class lined.now }
{
    if order < 3 {
        return false;
    }
    let skel = lined.skel();
    let left = usize::from(order).saturating_sub(skel.order());
    let closings = lined.line_bound();
    closings > left || single_valleys(skel.signs(), skel.sizes()) > left - closings
}
