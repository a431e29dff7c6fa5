//! The search's state: its board, the move that is being made, and what is done at a complete word.

ghost use Rattle.std.specs.Prelude.{List, [], length, ℕ, ◌++◌, ◌+◌, ◌-◌, ◌<◌, ◌∷◌, ◌≡◌, ◌≤◌};
ghost use Rattle.bk_word.specs.Play.{IsComplete};
ghost use Rattle.bk_word.specs.Word.{Word as Moves, order_of};
ghost use Rattle.bk_word.specs.declared.Sign.{Sign as SeenSign};
ghost use Rattle.bk_layout.specs.NormalImage.{IsNormalSought};
ghost use Rattle.bk_free_search.specs.AskedSigns.{IsNextCount, StandBeside};
ghost use Rattle.bk_free_search.specs.Sought.{GoesOn};
ghost use Rattle.bk_free_search.specs.declared.asking.Beside.{Beside as BesideSeen};
ghost use Rattle.bk_word.specs.Outline.{open_side};
ghost use Rattle.bk_free_search.specs.Unchanged.{KeepsMet};
ghost use Rattle.bk_word.specs.declared.TheConstants.{INLINE_ORDER, LARGEST_LISTED_ORDER};

use crate::asking::{Next, OpenSides};
use crate::board::Board;
use crate::last_square::last_move;
use crate::searching::Leaves;
use bk_play::SmallMove;
use bk_short::Short;
use bk_word::{INLINE_ORDER, Sign};

/// A search for words of an order: the board on which it plays them.
#[derive(Drop)]
pub(crate) struct Search {
    pub(crate) board: Board,
    pub(crate) order: u8,
}

/// A next move that is being made: its count and its first signs, and what is known of it by its count.
#[derive(Drop)]
pub(crate) struct Begun {
    pub(crate) m: SmallMove,
    pub(crate) next: Next,
}

/// A sign that a begun move may have next, and whether it is barred: whether no word is known to go on by it.
#[derive(Clone, Copy, Drop)]
pub(crate) struct NextSign {
    pub(crate) sign: Sign,
    pub(crate) barred: bool,
}

/// A move of no square.
pub(crate) fn not_begun() -> Begun
    ensures { result.m.signs ≡ [] }
{
    Begun {
        m: SmallMove {
            count: 0,
            signs: Short::of([Sign::Above; INLINE_ORDER + 1], 0),
        },
        next: Next::default(),
    }
}

/// Begins a next move of `count` squares, after which `left` squares are still to hang, at a valley with these open
/// sides.
#[inline]
pub(crate) fn begin(begun: &mut Begun, sides: OpenSides, count: u8, left: usize)
    requires some { 0 < count }
    requires left { sides.left ≤ 1 }
    requires right { sides.right ≤ 1 }
    ensures next { (order : ℕ) (front : Moves) (around : BesideSeen) → StandBeside order front around
        → sides.left ≡ open_side around.left_wall → sides.right ≡ open_side around.right_wall
        → left ≡ order - order_of front - count
        → IsNextCount order front count begun.new.next }
    ensures count { begun.new.m.count ≡ count }
    ensures signs { begun.new.m.signs ≡ begun.old.m.signs }
{
    let own = usize::from(count) - 1 + sides.left;
    begun.m.count = count;
    begun.next = Next {
        wanted: own + sides.right,
        own,
        left,
    };
}

/// The move with one sign more.
#[inline(always)]
pub(crate) fn push_sign(m: &mut SmallMove, sign: Sign)
    requires { length m.old.signs ≤ INLINE_ORDER }
    ensures count { m.new.count ≡ m.old.count }
    ensures signs { m.new.signs ≡ m.old.signs ++ sign ∷ [] }
{
    m.signs.push(sign);
}

/// The move without its last sign. There must be one.
#[inline(always)]
pub(crate) fn pop_sign(m: &mut SmallMove)
    requires { 0 < length m.old.signs }
    ensures count { m.new.count ≡ m.old.count }
    ensures signs { (signs : List SeenSign) (sign : SeenSign) → m.old.signs ≡ signs ++ sign ∷ [] → m.new.signs ≡ signs }
{
    m.signs.pop();
}

/// Meets the word of the board, if it is complete. What that takes stands in no frame of the search, which has one for
/// each sign.
#[inline(never)]
pub(crate) fn meet_closed<S: Leaves>(board: &Board, leaves: &mut S)
    requires few { order_of board.now ≤ INLINE_ORDER }
    ensures met { IsComplete board.now → S.has_met leaves.new board.now }
    ensures kept { KeepsMet S.has_met S.fixed leaves.old leaves.new }
{
    if board.skel().is_closed() {
        leaves.meet(board);
    }
}

/// Meets the word that goes on from the board by the last square, if one does that a normal layout has. The board is
/// left as it was.
#[inline(never)]
pub(crate) fn meet_with_last<S: Leaves>(board: &mut Board, order: u8, leaves: &mut S)
    requires least { 3 ≤ order }
    requires most { order ≤ LARGEST_LISTED_ORDER }
    requires one { order_of board.old + 1 ≡ order }
    ensures all { (w : Moves) → IsNormalSought order w → GoesOn board.old w → S.has_met leaves.new w }
    ensures kept { KeepsMet S.has_met S.fixed leaves.old leaves.new }
    ensures board { board.new ≡ board.old }
{
    let last = match last_move(board, order) {
        Some(last) => last,
        None => return,
    };
    let before = board.outline();
    board.play(&last);
    meet_closed(board, leaves);
    board.take_back(&before);
}
