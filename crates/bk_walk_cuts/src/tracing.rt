//! What is kept along the first moves of a word, and taken back with them.
#![tactic(auto)]

ghost use Rattle.std.specs.Prelude.{IsTrue, List, [], false, length, min, take, ℕ, ◌++◌, ◌+◌, ◌-◌, ◌<◌, ◌∷◌, ◌≡◌, ◌≤◌};
ghost use Rattle.bk_word.specs.Outline.{IsLegalMove, valley_of};
ghost use Rattle.bk_word.specs.Play.{new_squares, outline_of};
ghost use Rattle.bk_word.specs.Word.{order_of};
ghost use Rattle.bk_word.specs.declared.Class.TheVariants.{Perfect};
ghost use Rattle.bk_walk_cuts.specs.KnownSides.{Answers, AreSidesApart, KeepsFirst};
ghost use Rattle.bk_walk_cuts.specs.FormCuts.{IsCutByForms, IsCutByLevels, LevelsContradict, WidthsContradict};
ghost use Rattle.bk_walk_cuts.specs.FormCuts.{kept_by_widths, kept_with_move};
ghost use Rattle.bk_walk_cuts.specs.SideForms.{brings_more};
ghost use Rattle.bk_walk_cuts.specs.SidesOfTilings.{MeetsMove};
ghost use Rattle.bk_walk_cuts.specs.Trace.{IsRuledOut, IsTraceOf};

use crate::asking::{compares_otherwise, contradicts, has_equal_sides};
use crate::levels::{FOLLOWED, level_of, levels_along, new_numbers, push_bottoms};
use arrayvec::ArrayVec;
use bk_forms::{Form, Ledger};
use bk_play::Skel;
use bk_word::{Class, Move};
use std::marker::Model;

// How many equations and squares there were before a move.
#[derive(Clone, Copy, Default, Drop)]
pub(crate) struct Mark {
    pub(crate) equations: usize,
    pub(crate) squares: usize,
}

/// Equations between the sides of a word's squares, and the levels of their bottoms, along its first moves while at
/// most 5 squares hang.
#[derive(Drop)]
pub struct Tracing {
    ledger: Ledger,
    bottoms: ArrayVec<Form, FOLLOWED>,
    marks: ArrayVec<Mark, FOLLOWED>,
}

impl Model for Tracing {
    ghost use Rattle.bk_walk_cuts.specs.Trace.{Trace};

    ghost Value = { Trace };

    ghost view = { λ t. record { kept = t.ledger; bottoms = t.bottoms.items; marks = t.marks.items } };
}

impl Tracing {
    /// Nothing, along no move.
    pub fn new() -> Tracing
        ensures { IsTraceOf [] result }
    {
        Tracing {
            ledger: Ledger::new(),
            bottoms: ArrayVec::new(),
            marks: ArrayVec::new(),
        }
    }

    /// Whether a legal move after these moves is known to be ruled out: no tiling of the class has a word that begins
    /// so. It is said only while at most 5 squares hang with it, and of a move that brings more equations than squares;
    /// there always where the widths or the levels beside a sign even contradict the equations before, where levels are
    /// known to compare otherwise than a sign says, and in the class perfect where two sides are known to be equal.
    pub fn rules_out(&self, skel: &Skel, m: &Move, class: Class) -> bool
        requires trace { IsTraceOf skel.now self.now }
        requires legal { IsLegalMove (outline_of skel.now) m.now }
        ensures sound { IsTrue result → IsRuledOut class (skel.now ++ m.now ∷ []) }
        ensures few { IsTrue result → order_of skel.now + m.now.count ≤ FOLLOWED }
        ensures more { IsTrue result → IsTrue (brings_more m.now) }
        ensures all { length self.now.marks ≡ length skel.now → order_of skel.now + m.now.count ≤ FOLLOWED
            → IsTrue (brings_more m.now)
            → IsCutByForms class skel.now m.now self.now.kept self.now.bottoms → IsTrue result }
    {
        if !binds_earlier(m) {
            return false;
        }
        self.would_rule_out(skel, m, class)
    }

    /// Whether a legal move after these moves is known to be ruled out, also where it brings no more equations than
    /// squares.
    pub fn would_rule_out(&self, skel: &Skel, m: &Move, class: Class) -> bool
        requires trace { IsTraceOf skel.now self.now }
        requires legal { IsLegalMove (outline_of skel.now) m.now }
        ensures sound { IsTrue result → IsRuledOut class (skel.now ++ m.now ∷ []) }
        ensures few { IsTrue result → order_of skel.now + m.now.count ≤ FOLLOWED }
        ensures all { length self.now.marks ≡ length skel.now → order_of skel.now + m.now.count ≤ FOLLOWED
            → IsCutByForms class skel.now m.now self.now.kept self.now.bottoms → IsTrue result }
    {
        if !self.follows(skel, m) {
            return false;
        }
        let levels = levels_along(self.bottoms.as_slice(), skel, m);
        let mut ledger = self.ledger.copy();
        is_refused(&mut ledger, levels.as_slice(), skel, m, class)
    }

    /// Goes on by a legal move after these moves. It must be called before the move is played. A move with which 5
    /// squares hang isn't followed, since none after it is.
    pub fn push(&mut self, skel: &Skel, m: &Move)
        requires trace { IsTraceOf skel.now self.old }
        requires legal { IsLegalMove (outline_of skel.now) m.now }
        ensures trace { IsTraceOf (skel.now ++ m.now ∷ []) self.new }
        ensures followed { length self.old.marks ≡ length skel.now → order_of skel.now + m.now.count < FOLLOWED
            → length self.new.marks ≡ length skel.now + 1 }
    {
        if skel.order() + usize::from(m.count) >= FOLLOWED {
            return;
        }
        if !self.follows(skel, m) {
            return;
        }
        self.push_followed(skel, m);
    }

    // Goes on by a move that is followed.
    fn push_followed(&mut self, skel: &Skel, m: &Move)
        requires trace { IsTraceOf skel.now self.old }
        requires legal { IsLegalMove (outline_of skel.now) m.now }
        requires all { length self.old.marks ≡ length skel.now }
        requires few { order_of skel.now + m.now.count ≤ FOLLOWED }
        ensures trace { IsTraceOf (skel.now ++ m.now ∷ []) self.new }
        ensures followed { length self.new.marks ≡ length skel.now + 1 }
    {
        self.marks.push(Mark {
            equations: self.ledger.len(),
            squares: self.bottoms.len(),
        });
        let levels = levels_along(self.bottoms.as_slice(), skel, m);
        let level = level_of(self.bottoms.as_slice(), skel.valley_squares());
        let _ = add_equations(&mut self.ledger, levels.as_slice(), skel, m);
        push_bottoms(&mut self.bottoms, &level, skel.order(), m.count);
    }

    /// Takes the last of these moves back. It must be called before the move is taken back, and there must be one.
    pub fn pop(&mut self, skel: &Skel)
        requires trace { IsTraceOf skel.now self.old }
        requires some { 0 < length skel.now }
        ensures trace { IsTraceOf (take (length skel.now - 1) skel.now) self.new }
        ensures followed { length self.new.marks ≡ min (length self.old.marks) (length skel.now - 1) }
    {
        if self.marks.len() < skel.moves() {
            return;
        }
        if let Some(mark) = self.marks.pop() {
            self.ledger.cut(mark.equations);
            self.bottoms.truncate(mark.squares);
        }
    }

    // Whether all moves so far are followed, and this one too.
    fn follows(&self, skel: &Skel, m: &Move) -> bool
        ensures all { IsTrue result → length self.now.marks ≡ length skel.now }
        ensures few { IsTrue result → order_of skel.now + m.now.count ≤ FOLLOWED }
        ensures no { result ≡ false → length self.now.marks ≡ length skel.now
            → order_of skel.now + m.now.count ≤ FOLLOWED → ⊥ }
    {
        self.marks.len() == skel.moves() && skel.order() + usize::from(m.count) <= FOLLOWED
    }
}

// Whether a move brings more equations than squares: that of the widths, and one for each sign even. Any other says
// what its own squares are, and nothing of those before.
fn binds_earlier(m: &Move) -> bool
    ensures { result ≡ brings_more m.now }
{
    let even = m
        .signs
        .as_slice()
        .iter()
        .filter(|sign| sign.is_even())
        .count();
    even >= usize::from(m.count)
}

// Whether a move is known to be ruled out, which compares these levels. The ledger then has the move's equations too.
fn is_refused(ledger: &mut Ledger, levels: &[Form], skel: &Skel, m: &Move, class: Class) -> bool
    requires few { order_of skel.now + m.now.count ≤ FOLLOWED }
    ensures sound { IsTrue result → (sides : List ℕ) → MeetsMove skel.now m.now ledger.old levels.now sides
        → (class ≡ Perfect → AreSidesApart (order_of skel.now + m.now.count) sides) → ⊥ }
    ensures all { IsCutByLevels class skel.now m.now ledger.old levels.now → IsTrue result }
{
    if add_equations(ledger, levels, skel, m) {
        return true;
    }
    if compares_otherwise(ledger, levels, m.signs.as_slice()) {
        return true;
    }
    class == Class::Perfect && has_equal_sides(ledger, skel.order() + usize::from(m.count))
}

// Adds the equations of a move, which compares these levels. Whether one contradicts those before.
fn add_equations(ledger: &mut Ledger, levels: &[Form], skel: &Skel, m: &Move) -> bool
    requires few { order_of skel.now + m.now.count ≤ FOLLOWED }
    ensures meets { (sides : List ℕ) → MeetsMove skel.now m.now ledger.old levels.now sides
        → Answers ledger.new sides result }
    ensures first { KeepsFirst ledger.old ledger.new }
    ensures kept { result ≡ false → ledger.new ≡ kept_with_move (outline_of skel.now) m.now ledger.old levels.now }
    ensures widths { WidthsContradict ledger.old (valley_of (outline_of skel.now))
        (new_squares (outline_of skel.now) m.now) → IsTrue result }
    ensures levels { LevelsContradict
        (kept_by_widths ledger.old (valley_of (outline_of skel.now)) (new_squares (outline_of skel.now) m.now))
        levels.now m.now.signs → IsTrue result }
{
    let numbers = new_numbers(skel.order(), m.count);
    contradicts(
        ledger,
        skel.valley_squares(),
        numbers.as_slice(),
        levels,
        m.signs.as_slice(),
    )
}
