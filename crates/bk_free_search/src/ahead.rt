//! How many moves a word has left at most, and how many signs of its next move are even at least.

ghost use Rattle.std.specs.Prelude.{IsTrue, cond, nat_lt, ◌*◌, ◌+◌, ◌/◌, ◌<◌, ◌≡◌, ◌≤◌};
ghost use Rattle.bk_word.specs.Word.{order_of};
ghost use Rattle.bk_free_search.specs.AskedSigns.{AreEvensNeeded, AreMovesLeft};
ghost use Rattle.bk_free_search.specs.declared.counts.TheConstants.{MANY};
ghost use Rattle.bk_word.specs.declared.TheConstants.{LARGEST_ORDER};

use crate::board::Board;

/// How many moves are left after the next one, and how many signs of this one are even at least.
#[derive(Drop)]
pub(crate) struct Ahead {
    pub(crate) moves: usize,
    pub(crate) evens: usize,
}

/// What is ahead of a board in words of the order.
pub(crate) fn look_ahead(board: &Board, order: u8) -> Ahead
    requires few { order_of board.now ≤ LARGEST_ORDER }
    ensures moves { AreMovesLeft order board.now result.moves }
    ensures evens { AreEvensNeeded order board.now result.evens }
{
    let counts = board.counts();
    let moves = usize::from(counts.moves) + 1;
    let (left, right) = board.at_walls_then();
    let most = most_then(order, counts.moves, counts.top, left.max(right));
    let segments = board.skel().signs().len() + 1;
    let moves_left = most.saturating_sub(moves);
    // The moves behind the next one take at most three of the squares and open segments each, and only two at a wall.
    // If more squares lie at the left wall than at the right one, some of these moves must hang at the right wall.
    // What they can't take must be joined to the next move, by one even sign each.
    let to_take = usize::from(order) + 3 * moves + segments + left.saturating_sub(right);
    Ahead {
        moves: moves_left,
        evens: to_take.saturating_sub(usize::from(counts.squares) + 3 * most + 2),
    }
}

/// The most moves of a word of the order in which `top` squares hang from the top and `wall` lie at a wall: half of one
/// square more, and one less than just half where more lie at the wall than hang from the top.
pub(crate) fn most_moves(order: u8, top: u8, wall: usize) -> usize
    ensures { result ≡ cond (nat_lt top wall) (order / 2) ((order + 1) / 2) }
{
    if usize::from(top) < wall {
        usize::from(order) / 2
    } else {
        (usize::from(order) + 1) / 2
    }
}

/// Whether a word of the order that has so many moves has as many as any: half of one square more.
#[inline(always)]
pub(crate) fn are_most_moves(order: u8, moves: usize) -> bool
    requires { moves ≤ MANY }
    ensures { IsTrue result → 2 * moves ≡ order + 1 }
{
    2 * moves == usize::from(order) + 1
}

// The most moves of a word that goes on from `moves` moves so that then `wall` squares lie at a wall.
fn most_then(order: u8, moves: u8, top: u8, wall: usize) -> usize
    ensures none { moves ≡ 0 → result ≡ (order + 1) / 2 }
    ensures some { 0 < moves → result ≡ cond (nat_lt top wall) (order / 2) ((order + 1) / 2) }
    ensures few { 2 * result ≤ order + 1 }
{
    if moves == 0 {
        return (usize::from(order) + 1) / 2;
    }
    most_moves(order, top, wall)
}
