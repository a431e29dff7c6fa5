//! Moves after which all signs are under. Where no more moves are left than segments, these are closed one by one at
//! the right wall, so how the word ends is known before the move is played.
#![tactic(auto)]

ghost use Rattle.std.specs.List.{AllByRecursion, list_any};
ghost use Rattle.std.specs.Prelude.{IsTrue, [], count_by, drop, length, ◌++◌, ◌+◌, ◌<◌, ◌∷◌, ◌≡◌, ◌≤◌};
ghost use Rattle.bk_word.specs.Outline.{IsLegalMove, valley_place};
ghost use Rattle.bk_word.specs.Play.{outline_of};
ghost use Rattle.bk_word.specs.Signs.{is_above, is_even};
ghost use Rattle.bk_word.specs.Word.{order_of};
ghost use Rattle.bk_word.specs.declared.Sign.TheVariants.{Under};
ghost use Rattle.bk_layout.specs.NormalCuts.{IsNormalBarren};
ghost use Rattle.bk_free_search.specs.AllUnder.{StandsAfter};
ghost use Rattle.bk_free_search.specs.Sought.{IsNextMove};
ghost use Rattle.bk_free_search.specs.declared.counts.TheConstants.{FEW, LARGEST_COUNT};
ghost use Rattle.bk_word.specs.declared.TheConstants.{INLINE_ORDER};

use crate::ahead::{are_most_moves, most_moves};
use crate::board::Board;
use crate::counts::one_if;
use bk_play::SmallMove;
use bk_word::Sign;

/// What stands after a move: how many squares at the top and at each wall, and how many signs.
#[derive(Drop)]
pub(crate) struct After {
    pub(crate) top: u8,
    pub(crate) left: usize,
    pub(crate) right: usize,
    pub(crate) signs: usize,
}

/// Whether no word of a normal layout goes on by this legal move, since all signs are under then, no more moves are
/// left than segments, and to close these one by one doesn't end the word, or ends one with too many squares at a wall.
pub(crate) fn ends_otherwise(board: &Board, m: &SmallMove, order: u8) -> bool
    requires { IsNextMove order board.now m.now }
    ensures { IsTrue result → IsNormalBarren order (board.now ++ m.now ∷ []) }
{
    if !are_under_then(board, m) {
        return false;
    }
    let after = look_after(board, m);
    let moves = board.skel().moves() + 1 + after.signs;
    if moves + 1 < most_moves(order, after.top, after.left.max(after.right)) {
        return false;
    }
    if board.skel().order() + usize::from(m.count) + after.signs != usize::from(order) {
        return true;
    }
    if after.right + after.signs < after.left {
        return true;
    }
    are_most_moves(order, moves) && usize::from(after.top) < after.right + after.signs
}

// Whether none of the move's own signs is above, nor one of those behind the leftmost valley: then all are under after
// the move.
fn are_under_then(board: &Board, m: &SmallMove) -> bool
    ensures { IsTrue result → AllByRecursion (λ s. s ≡ Under) (outline_of (board.now ++ m.now ∷ [])).signs }
{
    if is_any_above(m.signs.as_slice()) {
        return false;
    }
    let skel = board.skel();
    !is_any_above(behind(skel.signs(), skel.valley_place().place))
}

// What stands after the legal move.
fn look_after(board: &Board, m: &SmallMove) -> After
    requires few { order_of board.now + m.now.count ≤ INLINE_ORDER }
    requires legal { IsLegalMove (outline_of board.now) m.now }
    ensures stands { StandsAfter board.now m.now result }
    ensures few { (result.left ≤ LARGEST_COUNT + 1) × (result.right ≤ LARGEST_COUNT + 1) × (result.signs ≤ FEW) }
{
    let counts = board.counts();
    let (left, right) = board.at_walls_then();
    After {
        top: top_after(counts.moves, counts.top, m.count),
        left,
        right,
        signs: board.skel().signs().len() + usize::from(m.count) - 1 - evens_in(m.signs.as_slice()),
    }
}

// How many squares hang from the top after a move of `count` squares, where `top` hung there before. Only the first
// move hangs squares from the top.
fn top_after(moves: u8, top: u8, count: u8) -> u8
    ensures none { moves ≡ 0 → result ≡ count }
    ensures some { 0 < moves → result ≡ top }
{
    if moves == 0 { count } else { top }
}

// The signs behind that at a place.
fn behind(signs: &[Sign], place: usize) -> &[Sign]
    requires { place ≤ length signs.now }
    ensures { result.now ≡ drop (place + 1) signs.now }
{
    if place == signs.len() {
        return &[];
    }
    &signs[place + 1..]
}

// Whether one of the signs is above.
fn is_any_above(signs: &[Sign]) -> bool
    ensures { result ≡ list_any is_above signs.now }
{
    'signs: for sign in signs {
        if sign.is_above() {
            return true;
        }
    }
    false
}

/// How many of the signs are even.
pub(crate) fn evens_in(signs: &[Sign]) -> usize
    ensures { result ≡ count_by is_even signs.now }
{
    let mut evens = 0;
    'signs: for sign in signs {
        evens += one_if(sign.is_even());
    }
    evens
}
