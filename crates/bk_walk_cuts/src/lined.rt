//! Words that are played and taken back, with the vertical lines that run from the top and the equations between first
//! sides.
#![tactic(auto)]

ghost use Rattle.std.specs.Prelude.{IsTrue, [], length, replicate, take, ℕ, ◌++◌, ◌+◌, ◌-◌, ◌<◌, ◌∷◌, ◌≡◌, ◌≤◌};
ghost use Rattle.bk_word.specs.Outline.{IsLegalMove};
ghost use Rattle.bk_word.specs.Play.{IsLegal, outline_of};
ghost use Rattle.bk_word.specs.Word.{order_of};
ghost use Rattle.bk_word.specs.declared.TheConstants.{LARGEST_ORDER};
ghost use Rattle.bk_catalogue.specs.Cuts.{IsBarren};
ghost use Rattle.bk_catalogue.specs.VerticalCut.{line_bound_of};
ghost use Rattle.bk_walk_cuts.specs.Trace.{IsTraceOf};

use crate::tracing::Tracing;
use arrayvec::ArrayVec;
use bk_catalogue::{begins_on_line, line_bound};
use bk_play::{Skel, Steps};
use bk_word::{Class, LARGEST_ORDER, Move};
use std::marker::Model;
use std::sync::ledger::Ledger;

// A whole walk of a lower order saves one push by the equations between sides, and loses more time on them.
const LEAST_TRACED_ORDER: u8 = 9;

/// A skeleton, of each of its squares whether its left edge lies on a vertical line that runs from the top between
/// squares of the first move, and what is known of the sides of its first squares, where that is followed. It is seen
/// as the list of its moves.
#[derive(Drop)]
pub struct LinedSkel {
    skel: Skel,
    lines: ArrayVec<bool, LARGEST_ORDER>,
    sides: Tracing,
    is_traced: bool,
}

impl Model for LinedSkel {
    ghost use Rattle.bk_word.specs.Word.{Word as Moves};
    ghost use Rattle.bk_walk_cuts.specs.LinedWords.{IsKeptLined};

    ghost Value = { Moves };

    ghost view = { λ s. s.skel };

    ghost invariant = { λ s. IsKeptLined s.skel s.lines.items s.sides };
}

impl LinedSkel {
    /// The skeleton of no move, for a walk of the order.
    pub fn new(order: u8) -> LinedSkel
        ensures { result ≡ [] }
    {
        LinedSkel {
            skel: Skel::new(),
            lines: ArrayVec::new(),
            sides: Tracing::new(),
            is_traced: order >= LEAST_TRACED_ORDER,
        }
    }

    /// The skeleton, for reading.
    pub fn skel(&self) -> &Skel
        ensures value { result.now ≡ self.now }
        ensures legal { IsLegal self.now }
    {
        &self.skel
    }

    /// Plays a move, which must be legal, with at most 200 squares then. It is one step.
    pub fn push<L: Ledger>(&mut self, m: &Move, steps: &mut Steps<L>)
        requires legal { IsLegalMove (outline_of self.old) m.now }
        requires few { order_of self.old + m.now.count ≤ LARGEST_ORDER }
        ensures moves { self.new ≡ self.old ++ m.now ∷ [] }
        ensures step { steps.new ≡ steps.old + 1 }
    {
        let is_first = self.skel.moves() == 0;
        let is_on = begins_on_line(self.skel.valley_squares(), &self.lines);
        push_lines(&mut self.lines, is_on, is_first, usize::from(m.count));
        trace(&mut self.sides, self.is_traced, &self.skel, m);
        self.skel.push(m, steps);
    }

    /// Takes the last move back. There must be one.
    pub fn pop(&mut self)
        requires { 0 < length self.old }
        ensures { self.new ≡ take (length self.old - 1) self.old }
    {
        self.sides.pop(&self.skel);
        self.skel.pop();
        self.lines.truncate(self.skel.order());
    }

    /// Takes moves back until so many are left. From then on the sides are followed no further: it is for a walk that
    /// knows the next member's word, or that there is none, and so asks no cut of the moves that it plays.
    pub fn shorten(&mut self, moves: usize)
        requires { moves ≤ length self.old }
        ensures { self.new ≡ take moves self.old }
    {
        self.is_traced = false;
        'moves: while moves < self.skel.moves() {
            self.pop();
        }
    }

    /// Whether a legal move after these moves is known to be ruled out by the sides of the first squares.
    pub(crate) fn rules_out(&self, m: &Move, class: Class) -> bool
        requires { IsLegalMove (outline_of self.now) m.now }
        ensures { IsTrue result → (n : ℕ) → IsBarren n class (self.now ++ m.now ∷ []) }
    {
        self.sides.rules_out(&self.skel, m, class)
    }

    /// The closing bound after the moves, where a segment that a line bounds or ended on has one closing more.
    pub(crate) fn line_bound(&self) -> usize
        ensures { result ≡ line_bound_of self.now }
    {
        line_bound(
            self.skel.signs(),
            self.skel.sizes(),
            self.skel.ends(),
            &self.lines,
        )
    }
}

// Appends of the squares of a move whether their left edges lie on a vertical line that runs from the top between
// squares of the first move: of the first square what is said of the valley's left edge, of the others whether the move
// is the first.
fn push_lines<const N: usize>(
    lines: &mut ArrayVec<bool, N>,
    valley: bool,
    is_first: bool,
    count: usize,
)
    requires some { 0 < count }
    requires fits { length lines.old.items + count ≤ N }
    ensures { lines.new.items ≡ lines.old.items ++ valley ∷ replicate (count - 1) is_first }
{
    lines.push(valley);
    'others: for _ in 1..count {
        lines.push(is_first);
    }
}

// Goes on with what is known of the sides by a legal move, where it is followed.
fn trace(sides: &mut Tracing, is_traced: bool, skel: &Skel, m: &Move)
    requires trace { IsTraceOf skel.now sides.old }
    requires legal { IsLegalMove (outline_of skel.now) m.now }
    ensures { IsTraceOf (skel.now ++ m.now ∷ []) sides.new }
{
    if !is_traced {
        return;
    }
    sides.push(skel, m);
}
