//! How a walk goes to the word of a member, by its number.
#![tactic(auto)]

ghost use Rattle.std.specs.Prelude.{length, ◌+◌, ◌-◌, ◌<◌, ◌^◌, ◌≡◌};
ghost use Rattle.bk_tree_walk.specs.TreePlace.{IsReady, Meets, StaysOf, place_of};
ghost use Rattle.bk_tree_walk.specs.WholeWords.{IsMembersWord};
ghost use Rattle.bk_walk.specs.Leaping.{GoesToWord, IsAtNumber, IsNextFrom};

use bk_packed::{read_next, shared_moves};
use bk_play::Steps;
use bk_tree_walk::TreeWalk;
use bk_word::Move;
use std::sync::ledger::Ledger;

// Goes to the word of this number, that of the least member's word that isn't before the place: takes back the moves
// with which it doesn't begin, and pushes the others.
pub(crate) fn leap<L: Ledger>(tree: &mut TreeWalk, number: u128, steps: &mut Steps<L>)
    requires ready { IsReady tree.old }
    requires next { IsNextFrom tree.old.order tree.old.class (place_of tree.old) number }
    ensures meets { Meets tree.old.order tree.old.class (place_of tree.old) tree.new.front (steps.new - steps.old) }
    ensures member { IsMembersWord tree.old.order tree.old.class tree.new.front }
    ensures stays { StaysOf tree.old tree.new steps.old steps.new }
{
    let shared = shared_moves(tree.skel(), number);
    tree.shorten(shared);
    go_to(tree, number, steps);
}

// Pushes the moves by which the word of this number goes on.
fn go_to<L: Ledger>(tree: &mut TreeWalk, number: u128, steps: &mut Steps<L>)
    requires goes { GoesToWord tree.old.order tree.old.front number }
    requires known { tree.old.pushes < 2 ^ 64 }
    ensures at { IsAtNumber tree.old.order tree.new.front number }
    ensures steps { steps.new + length tree.old.front ≡ steps.old + length tree.new.front }
    ensures stays { StaysOf tree.old tree.new steps.old steps.new }
{
    let order = usize::from(tree.order());
    let mut next = Move::empty();
    'moves: while tree.skel().order() < order {
        read_next(tree.skel(), number, &mut next);
        tree.push(&next, steps);
    }
}
