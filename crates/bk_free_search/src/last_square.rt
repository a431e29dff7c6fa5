//! The last square of a word: it is even with the segments at both its sides, so what the word then is can be asked
//! before the square is played.
#![tactic(auto)]

ghost use Rattle.std.specs.Prelude.{IfNone, IfSome, IsTrue, replicate, ◌+◌, ◌≡◌, ◌≤◌};
ghost use Rattle.bk_word.specs.Outline.{open_sides};
ghost use Rattle.bk_word.specs.Play.{outline_of};
ghost use Rattle.bk_word.specs.Word.{order_of};
ghost use Rattle.bk_word.specs.declared.Sign.TheVariants.{Even};
ghost use Rattle.bk_layout.specs.LastMoves.{even_square};
ghost use Rattle.bk_layout.specs.NormalCuts.{IsNormalBarren};

use crate::ahead::are_most_moves;
use crate::board::Board;
use crate::joining::joins_parted;
use bk_play::{SmallMove, SmallSkel, open_side};
use bk_short::Short;
use bk_word::Sign;

/// The move by which words of a normal layout go on from the board, of which one square is left: `None` where none goes
/// on.
pub(crate) fn last_move(board: &Board, order: u8) -> Option<SmallMove>
    requires least { 3 ≤ order }
    requires one { order_of board.now + 1 ≡ order }
    ensures last { IfSome result (λ m. m ≡ even_square (outline_of board.now)) }
    ensures barren { IfNone result (IsNormalBarren order board.now) }
{
    if stays_open(board, order) {
        return None;
    }
    if bars_counts(board, order) {
        return None;
    }
    let last = even_square(open_sides(board.skel()));
    if joins_parted(board, &board.skel().valley_place(), &last) {
        return None;
    }
    Some(last)
}

// Whether the last square would hang under a segment of just one, or wouldn't join all that stand open.
fn stays_open(board: &Board, order: u8) -> bool
    requires least { 3 ≤ order }
    requires one { order_of board.now + 1 ≡ order }
    ensures { IsTrue result → IsNormalBarren order board.now }
{
    let skel = board.skel();
    if skel.valley_squares().len() == 1 {
        return true;
    }
    skel.signs().len() != open_sides(skel)
}

// Whether the whole word has more squares at the bottom than at the top, or at the left wall than at the right, or at
// the right wall than at the top where it has as many moves as can be.
fn bars_counts(board: &Board, order: u8) -> bool
    requires least { 3 ≤ order }
    requires one { order_of board.now + 1 ≡ order }
    ensures { IsTrue result → IsNormalBarren order board.now }
{
    let counts = board.counts();
    let skel = board.skel();
    let (left, right) = board.at_walls_then();
    if usize::from(counts.top) + skel.valley_squares().len() < skel.ends().len() + 1 {
        return true;
    }
    if right < left {
        return true;
    }
    are_most_moves(order, usize::from(counts.moves) + 1) && usize::from(counts.top) < right
}

// How many sides of the leftmost valley are no walls: so many segments stand beside it.
fn open_sides(skel: &SmallSkel) -> usize
    ensures is { result ≡ open_sides (outline_of skel.now) }
    ensures few { result ≤ 2 }
{
    let (left_wall, right_wall) = skel.walls();
    open_side(left_wall) + open_side(right_wall)
}

// One square, even with so many segments.
fn even_square(sides: usize) -> SmallMove
    requires few { sides ≤ 2 }
    ensures count { result.count ≡ 1 }
    ensures signs { result.signs ≡ replicate sides Even }
{
    let mut signs = Short::new();
    'sides: for _side in 0..sides {
        signs.push(Sign::Even);
    }
    SmallMove { count: 1, signs }
}
