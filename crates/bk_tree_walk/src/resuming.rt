//! Where a walk goes on: after a cursor.
#![tactic(auto)]

ghost use Rattle.std.specs.Prelude.{IsTrue, false, length, take, ◌+◌, ◌≡◌, ◌≤◌};
ghost use Rattle.bk_word.specs.Outline.{IsLegalMove};
ghost use Rattle.bk_word.specs.Play.{outline_of};
ghost use Rattle.bk_word.specs.Word.{order_of};
ghost use Rattle.bk_word.specs.declared.TheConstants.{LARGEST_LISTED_ORDER, LARGEST_ORDER};
ghost use Rattle.bk_tree_walk.specs.TreePlace.{HasPassed, StaysOf, place_of};

use crate::tree_walk::TreeWalk;
use bk_play::Steps;
use bk_walk_cuts::{LinedSkel, begin_anew};
use bk_word::{Move, Word};
use std::sync::ledger::Ledger;

impl TreeWalk {
    /// Pushes the moves of the cursor that are not played yet, as far as they are legal and hang at most as many
    /// squares as the order, and goes to the place from which nothing is passed but what isn't after the cursor. The
    /// moves that are played must begin the cursor, which hangs at most 16 squares.
    #[inline(never)]
    pub fn resume<L: Ledger>(&mut self, cursor: &Word, steps: &mut Steps<L>)
        requires begun { take (length self.old.front) cursor.now ≡ self.old.front }
        requires few { order_of cursor.now ≤ LARGEST_LISTED_ORDER }
        ensures place { HasPassed self.old.order self.old.class cursor.now (place_of self.new) 0 }
        ensures few { steps.new ≤ steps.old + LARGEST_LISTED_ORDER }
        ensures stays { StaysOf self.old self.new steps.old steps.new }
    {
        'moves: for i in self.lined.skel().moves()..cursor.moves() {
            self.next = cursor.get(i);
            if !can_play(&self.lined, &self.next, self.order) {
                return;
            }
            self.go_down(steps);
        }
        begin_anew(&mut self.next);
    }
}

// Whether a move is legal, and hangs no more squares than the order leaves.
fn can_play(lined: &LinedSkel, m: &Move, order: u8) -> bool
    requires { m.now.count ≤ LARGEST_ORDER }
    ensures legal { IsTrue result → IsLegalMove (outline_of lined.now) m.now }
    ensures few { IsTrue result → order_of lined.now + m.now.count ≤ order }
    ensures no { result ≡ false → IsLegalMove (outline_of lined.now) m.now → order_of lined.now + m.now.count ≤ order
        → ⊥ }
{
    let skel = lined.skel();
    skel.order() + usize::from(m.count) <= usize::from(order) && skel.legal(m)
}
