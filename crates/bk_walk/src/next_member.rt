//! The way to the next member's word: step by step through the tree of words, or by a table of members.
#![tactic(auto)]

ghost use Rattle.std.specs.Prelude.{IsTrue, ◌-◌, ◌≡◌};
ghost use Rattle.bk_catalogue.specs.Catalogue.{IsEntry};
ghost use Rattle.bk_tree_walk.specs.TreePlace.{Finds, IsReady, StaysOf, place_of};
ghost use Rattle.bk_walk.specs.Leaping.{IsStep, TellsOfPlace};

use crate::MemberTable;
use crate::leaping::leap;
use crate::table_answer::{
    LEAST_TABLED_ORDER, PUSHES_BEFORE_A_TABLE, TableAnswer, answer_of_table,
};
use bk_packed::number_with;
use bk_play::Steps;
use bk_tiling::Tiling;
use bk_tree_walk::{TreeWalk, Went};
use std::sync::ledger::Ledger;

// Goes on from the tree walk's place to the next member's word, and answers whether there is one. `tiling` becomes that
// member.
#[inline(never)]
pub(crate) fn find_next<const ROOM: usize, L: Ledger>(
    tree: &mut TreeWalk,
    table: &mut MemberTable<ROOM>,
    steps: &mut Steps<L>,
    tiling: &mut Tiling,
) -> bool
    ensures finds { Finds tree.old tree.new (steps.new - steps.old) result }
    ensures member { IsTrue result
        → IsEntry tree.old.order tree.old.class (record { tiling = tiling.new; word = tree.new.front }) }
    ensures stays { StaysOf tree.old tree.new steps.old steps.new }
{
    let _known = tree.pushes();
    'places: loop {
        match step(tree, table, steps, tiling) {
            Went::On => {}
            Went::End => return false,
            Went::Met => return true,
        }
    }
}

// Takes one step: back from moves after which none is left, or else one from where the next move is legal.
fn step<const ROOM: usize, L: Ledger>(
    tree: &mut TreeWalk,
    table: &mut MemberTable<ROOM>,
    steps: &mut Steps<L>,
    tiling: &mut Tiling,
) -> Went
    ensures { IsStep tree.old steps.old (record { tree = tree.new; steps = steps.new; tiling = tiling.new }) result }
{
    match tree.settle() {
        Some(went) => went,
        None => step_when_ready(tree, table, steps, tiling),
    }
}

// Takes one step from a place where the next move is legal: to the member or the end that a table of members tells of,
// or, where none tells, on through the tree.
fn step_when_ready<const ROOM: usize, L: Ledger>(
    tree: &mut TreeWalk,
    table: &mut MemberTable<ROOM>,
    steps: &mut Steps<L>,
    tiling: &mut Tiling,
) -> Went
    requires { IsReady tree.old }
    ensures { IsStep tree.old steps.old (record { tree = tree.new; steps = steps.new; tiling = tiling.new }) result }
{
    match consult_table(tree, table) {
        TableAnswer::Unknown => tree.walk_on(steps, tiling),
        TableAnswer::Next(number) => {
            leap(tree, number, steps);
            tree.realise(tiling);
            Went::Met
        }
        TableAnswer::NoMore => {
            tree.shorten(0);
            Went::End
        }
    }
}

// What the table of members tells of the words from the place on. Where it tells nothing it is made anew, from there
// on. Orders that aren't worth a table make none, nor does a walk that has pushed few moves: it tells nothing then.
fn consult_table<const ROOM: usize>(tree: &TreeWalk, table: &mut MemberTable<ROOM>) -> TableAnswer
    requires { IsReady tree.now }
    ensures { TellsOfPlace tree.now.order tree.now.class (place_of tree.now) result }
{
    if ROOM == 0 || tree.pushes() < PUSHES_BEFORE_A_TABLE || tree.order() < LEAST_TABLED_ORDER {
        return TableAnswer::Unknown;
    }
    let number = number_with(tree.skel(), tree.next());
    match answer_of_table(table, tree.order(), tree.class(), number) {
        TableAnswer::Unknown => {
            table.fill(tree.order(), tree.class(), number);
            answer_of_table(table, tree.order(), tree.class(), number)
        }
        answer => answer,
    }
}
