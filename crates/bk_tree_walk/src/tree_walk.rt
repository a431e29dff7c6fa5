//! The walk through the tree of legal words, step by step.
#![tactic(auto)]

ghost use Rattle.std.specs.Prelude.{IfNone, IfSome, IsTrue, [], false, length, min, take, ℕ, ◌++◌, ◌+◌, ◌-◌, ◌<◌, ◌^◌};
ghost use Rattle.std.specs.Prelude.{◌∷◌, ◌≡◌, ◌≤◌};
ghost use Rattle.bk_word.specs.Outline.{IsLegalMove, open_sides as sides_open};
ghost use Rattle.bk_word.specs.Play.{IsComplete, outline_of};
ghost use Rattle.bk_word.specs.Word.{order_of};
ghost use Rattle.bk_word.specs.declared.TheConstants.{LARGEST_LISTED_ORDER, LEAST_LISTED_ORDER};
ghost use Rattle.bk_catalogue.specs.NextMove.{first_move as first_of_all};
ghost use Rattle.bk_catalogue.specs.Catalogue.{IsEntry};
ghost use Rattle.bk_catalogue.specs.Repeated.{HasNoMember};
ghost use Rattle.bk_tree_walk.specs.declared.Went.TheVariants.{Met};
ghost use Rattle.bk_tree_walk.specs.TreePlace.{GoesOnFrom, IsClimbed, IsKeptTreeWalk, IsReady, SettlesTo, StaysOf};
ghost use Rattle.bk_tree_walk.specs.TreePlace.{StepLeadsTo};

use crate::Went;
use crate::judging::find_member;
use bk_play::{Skel, Steps, open_side};
use bk_skel::LayingRoom;
use bk_tiling::Tiling;
use bk_walk_cuts::{
    LinedSkel, begin_anew, first_move, is_barren, least_legal_from, next_move, skip,
};
use bk_word::{Class, Move};
use std::marker::Model;
use std::sync::ledger::Ledger;

/// A walk to the words of members of an order and a class. It is seen as the order, the class, the moves that it has
/// played, the move from which it looks for the next legal one, and how many moves it has pushed. It has room for the
/// squares of a tiling.
#[derive(Drop)]
pub struct TreeWalk {
    pub(crate) order: u8,
    class: Class,
    pub(crate) lined: LinedSkel,
    pub(crate) next: Move,
    pub(crate) laying: LayingRoom,
    pushes: u64,
}

impl Model for TreeWalk {
    ghost use Rattle.bk_tree_walk.specs.TreePlace.{IsKeptTreeWalk, TreeWalkState};

    ghost Value = { TreeWalkState };

    ghost view = { λ s. record {
      order = s.order;
      class = s.class;
      front = s.lined;
      next = s.next;
      pushes = s.pushes;
    } };

    ghost invariant = { λ s. IsKeptTreeWalk
        (record { order = s.order; class = s.class; front = s.lined; next = s.next; pushes = s.pushes }) };
}

impl TreeWalk {
    /// A walk that has played no move. The order is 2 to 16.
    pub fn new(order: u8, class: Class) -> TreeWalk
        requires least { LEAST_LISTED_ORDER ≤ order }
        requires most { order ≤ LARGEST_LISTED_ORDER }
        ensures { result ≡ record { order = order; class = class; front = []; next = first_of_all; pushes = 0 } }
    {
        TreeWalk {
            order,
            class,
            lined: LinedSkel::new(order),
            next: first_move(),
            laying: LayingRoom::new(),
            pushes: 0,
        }
    }

    /// Its order.
    pub fn order(&self) -> u8
        ensures { result ≡ self.now.order }
    {
        self.order
    }

    /// Its class.
    pub fn class(&self) -> Class
        ensures { result ≡ self.now.class }
    {
        self.class
    }

    /// The moves that it has played, for reading.
    pub fn skel(&self) -> &Skel
        ensures value { result.now ≡ self.now.front }
        ensures kept { IsKeptTreeWalk self.now }
    {
        self.lined.skel()
    }

    /// The move from which it looks for the next legal one.
    pub fn next(&self) -> &Move
        ensures { result.now ≡ self.now.next }
    {
        &self.next
    }

    /// How many moves it has pushed.
    pub fn pushes(&self) -> u64
        ensures value { result ≡ self.now.pushes }
        ensures kept { IsKeptTreeWalk self.now }
    {
        self.pushes
    }

    /// Makes the next move the least legal one that isn't before it, so that the walk can go on by it. Where that one
    /// hangs more squares than the order leaves, as each after it does too, it takes the last move back, or is at the
    /// end where none is played, and says where that leads.
    pub fn settle(&mut self) -> Option<Went>
        ensures settles { SettlesTo self.old self.new result }
        ensures stays { (steps : ℕ) → StaysOf self.old self.new steps steps }
    {
        least_legal_from(&mut self.next, open_sides(&self.lined));
        if !hangs_over(&self.lined, &self.next, self.order) {
            return None;
        }
        if climb(&mut self.lined, &mut self.next) {
            return Some(Went::On);
        }
        begin_anew(&mut self.next);
        Some(Went::End)
    }

    /// Goes one step on through the tree: over moves that are cut, or down by the next move. This must be legal and
    /// hang no more squares than the order leaves, as it does after a `settle` that gave `None`. Where the step is to
    /// the word of a member, `tiling` becomes that member.
    pub fn walk_on<L: Ledger>(&mut self, steps: &mut Steps<L>, tiling: &mut Tiling) -> Went
        requires { IsReady self.old }
        ensures leads { StepLeadsTo self.old self.new (steps.new - steps.old) result }
        ensures member { result ≡ Met
            → IsEntry self.old.order self.old.class (record { tiling = tiling.new; word = self.new.front }) }
        ensures stays { StaysOf self.old self.new steps.old steps.new }
    {
        if skip(&self.lined, self.class, self.order, &mut self.next) {
            return Went::On;
        }
        self.go_down(steps);
        if is_barren(&self.lined, self.order) {
            self.lined.pop();
            next_move(&mut self.next);
            return Went::On;
        }
        begin_anew(&mut self.next);
        if is_members(
            &self.lined,
            self.class,
            self.order,
            &mut self.laying,
            tiling,
        ) {
            Went::Met
        } else {
            Went::On
        }
    }

    /// Takes moves back until so many are left, where the next member's word is known, or that there is none. From then
    /// on fewer moves are cut.
    pub fn shorten(&mut self, moves: usize)
        requires { moves ≤ length self.old.front }
        ensures state { self.new ≡ record self.old { front = take moves self.old.front } }
        ensures stays { (steps : ℕ) → StaysOf self.old self.new steps steps }
    {
        self.lined.shorten(moves);
    }

    /// Pushes a move, and counts it. It must be legal and hang no more squares than the order leaves. The next move
    /// stays.
    pub fn push<L: Ledger>(&mut self, m: &Move, steps: &mut Steps<L>)
        requires legal { IsLegalMove (outline_of self.old.front) m.now }
        requires few { order_of self.old.front + m.now.count ≤ self.old.order }
        ensures state { self.new
            ≡ record self.old {
              front = self.old.front ++ m.now ∷ [];
              pushes = min (self.old.pushes + 1) (2 ^ 64 - 1);
            } }
        ensures step { steps.new ≡ steps.old + 1 }
    {
        self.lined.push(m, steps);
        self.pushes = self.pushes.saturating_add(1);
    }

    // Pushes the next move, and counts it. It stays the next.
    pub(crate) fn go_down<L: Ledger>(&mut self, steps: &mut Steps<L>)
        requires { IsReady self.old }
        ensures state { self.new
            ≡ record self.old {
              front = self.old.front ++ self.old.next ∷ [];
              pushes = min (self.old.pushes + 1) (2 ^ 64 - 1);
            } }
        ensures step { steps.new ≡ steps.old + 1 }
    {
        self.lined.push(&self.next, steps);
        self.pushes = self.pushes.saturating_add(1);
    }
}

// Whether the moves that are played and this one hang more squares than the order.
fn hangs_over(lined: &LinedSkel, m: &Move, order: u8) -> bool
    ensures over { IsTrue result → order < order_of lined.now + m.now.count }
    ensures few { result ≡ false → order_of lined.now + m.now.count ≤ order }
{
    lined.skel().order() + usize::from(m.count) > usize::from(order)
}

// How many sides of the leftmost valley are no walls.
fn open_sides(lined: &LinedSkel) -> usize
    ensures value { result ≡ sides_open (outline_of lined.now) }
    ensures few { result ≤ 2 }
{
    let (left, right) = lined.skel().walls();
    open_side(left) + open_side(right)
}

// Takes the last move back, and makes `next` the move after it. False where no move is played.
fn climb(lined: &mut LinedSkel, next: &mut Move) -> bool
    requires small { order_of lined.old ≤ LARGEST_LISTED_ORDER }
    ensures on { IsTrue result → IsClimbed lined.old lined.new next.new }
    ensures end { result ≡ false → lined.old ≡ [] }
    ensures kept { result ≡ false → lined.new ≡ [] }
{
    let moves = lined.skel().moves();
    if moves == 0 {
        return false;
    }
    lined.skel().read_move(moves - 1, next);
    lined.pop();
    next_move(next);
    true
}

// Whether the moves are the word of a member of the order. Where they are, `tiling` becomes that member. In
// `laying` is room for the squares that are laid.
fn is_members(
    lined: &LinedSkel,
    class: Class,
    order: u8,
    laying: &mut LayingRoom,
    tiling: &mut Tiling,
) -> bool
    requires order { order ≤ LARGEST_LISTED_ORDER }
    ensures yes { IsTrue result → IsEntry order class (record { tiling = tiling.new; word = lined.now }) }
    ensures none { result ≡ false → IsComplete lined.now → order_of lined.now ≡ order → HasNoMember class lined.now }
{
    is_complete_of(lined, order) && find_member(lined.skel(), class, laying, tiling)
}

// Whether the moves are a complete word of the order.
fn is_complete_of(lined: &LinedSkel, order: u8) -> bool
    ensures whole { IsTrue result → IsComplete lined.now × (order_of lined.now ≡ order) }
    ensures unready { result ≡ false → IsComplete lined.now → order_of lined.now ≡ order → ⊥ }
{
    let skel = lined.skel();
    skel.order() == usize::from(order) && skel.is_closed()
}
