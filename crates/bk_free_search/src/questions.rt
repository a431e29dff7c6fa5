//! What is asked of words that have begun: each answer that bars them rests on a law that no word of a normal layout
//! goes on so.

ghost use Rattle.std.specs.Prelude.{IfNone, IfSome, IsTrue, List, [], false, length, true, ℕ, ◌++◌, ◌+◌, ◌<◌, ◌∷◌, ◌≡◌};
ghost use Rattle.std.specs.Prelude.{◌-◌, ◌≤◌};
ghost use Rattle.bk_word.specs.Outline.{has_left_wall, open_side};
ghost use Rattle.bk_word.specs.Play.{outline_of};
ghost use Rattle.bk_word.specs.Word.{Word as Moves, order_of};
ghost use Rattle.bk_word.specs.declared.Sign.{Sign as SeenSign};
ghost use Rattle.bk_word.specs.declared.Sign.TheVariants.{Above, Even, Under};
ghost use Rattle.bk_play.specs.SmallSkeleton.{IsValleyPlace};
ghost use Rattle.bk_layout.specs.NormalCuts.{IsNormalBarren};
ghost use Rattle.bk_free_search.specs.AskedSigns.{AreFewAsks, BarsNext, BarsSigns, IsAsked, IsMoveBegun, IsWithOwn};
ghost use Rattle.bk_free_search.specs.AskedSigns.{StandBeside, asks_then};
ghost use Rattle.bk_free_search.specs.Sought.{IsNextMove};
ghost use Rattle.bk_free_search.specs.Strong.{IsFewPassed};
ghost use Rattle.bk_free_search.specs.declared.asking.Beside.{Beside as SeenBeside};
ghost use Rattle.bk_free_search.specs.declared.counts.TheConstants.{MANY};
ghost use Rattle.bk_free_search.specs.declared.state.Begun.{Begun as SeenBegun};
ghost use Rattle.bk_free_search.specs.declared.state.Search.{Search as SeenSearch};

use crate::all_under::ends_otherwise;
use crate::asking::{Asked, Beside, asked_with, is_over};
use crate::behind::{Asks, Behind};
use crate::joining::joins_barrenly;
use crate::state::{Begun, Search};
use bk_play::{ValleyPlace, open_side};
use bk_word::Sign;

impl Search {
    /// Whether the next move would be the last one, though two squares or more are left, or would need more even signs
    /// than it has neighbours.
    pub(crate) fn lacks_next(&self, beside: &Beside) -> bool
        requires few { order_of self.now.board < self.now.order }
        requires beside { StandBeside self.now.order self.now.board beside.now }
        ensures { IsTrue result → IsNormalBarren self.now.order self.now.board }
    {
        if beside.ahead.moves == 0 && self.board.skel().order() + 1 < usize::from(self.order) {
            return true;
        }
        open_side(beside.left_wall) + open_side(beside.right_wall) < beside.ahead.evens
    }

    /// Whether no word goes on by this move, which has all its signs, and after which squares are left.
    pub(crate) fn bars_move(&self, begun: &Begun, valley: &ValleyPlace) -> bool
        requires next { IsNextMove self.now.order self.now.board begun.now.m }
        requires valley { IsValleyPlace self.now.board valley.now }
        ensures { IsTrue result → IsNormalBarren self.now.order (self.now.board ++ begun.now.m ∷ []) }
    {
        if joins_barrenly(&self.board, valley, &begun.m, self.order) {
            return true;
        }
        ends_otherwise(&self.board, &begun.m, self.order)
    }
}

/// Whether more moves or squares are asked for with a next move's first signs, which have no right neighbour's sign
/// behind them, than are left.
#[inline(always)]
pub(crate) fn asks_too_much(begun: &Begun, around: &Beside, asked: &Asked) -> bool
    requires few { IsFewPassed asked.now.passed MANY }
    requires small { AreFewAsks around.now.behind.even MANY }
    ensures { IsTrue result → (s : SeenSearch) (signs : List SeenSign) → IsMoveBegun s begun.now around.now
        → IsAsked s.board signs asked.now → open_side (has_left_wall (outline_of s.board)) ≤ length signs
        → length signs ≤ begun.now.next.own → BarsSigns s.order s.board begun.now.m.count signs }
{
    is_over(
        &asked.passed,
        &around.behind.even,
        around.ahead.moves,
        begun.next.left,
    )
}

/// Whether they are with all its signs, where the last one isn't even.
#[inline(always)]
pub(crate) fn asks_too_much_then(begun: &Begun, around: &Beside, asked: &Asked) -> bool
    requires few { IsFewPassed asked.now.passed MANY }
    requires small { AreFewAsks around.now.behind.under MANY }
    requires small_above { AreFewAsks around.now.behind.above MANY }
    ensures { IsTrue result → (s : SeenSearch) (signs : List SeenSign) → IsMoveBegun s begun.now around.now
        → IsAsked s.board signs asked.now → length signs ≡ begun.now.next.wanted
        → BarsSigns s.order s.board begun.now.m.count signs }
{
    is_over(
        &asked.passed,
        asks_then(&around.behind, asked.passed.low),
        around.ahead.moves,
        begun.next.left,
    )
}

// What is asked for behind a last sign that isn't even: whether it is under is said.
#[inline(always)]
fn asks_then(behind: &Behind, low: bool) -> &Asks
    ensures { result.now ≡ asks_then behind.now low }
{
    if low { &behind.under } else { &behind.above }
}

// Whether a sign that isn't even at the left neighbour leaves too few that can be.
#[inline(always)]
fn needs_left_even(around: &Beside) -> bool
    ensures { IsTrue result → (n : ℕ) (front : Moves) → StandBeside n front around.now → (count : ℕ) (sign : SeenSign)
        → (sign ≡ Even → ⊥)
        → BarsSigns n front count (sign ∷ []) }
{
    open_side(around.right_wall) < around.ahead.evens
}

// Whether one that isn't even at the right neighbour does.
#[inline(always)]
fn lacks_even(around: &Beside, asked: &Asked) -> bool
    ensures { IsTrue result → (s : SeenSearch) (b : SeenBegun) → IsMoveBegun s b around.now
        → IsAsked s.board b.m.signs asked.now → length b.m.signs + 1 ≡ b.next.wanted
        → (sign : SeenSign) → (sign ≡ Even → ⊥) → BarsNext s b sign }
{
    asked.evens < around.ahead.evens
}

/// Whether fewer squares are left after a next move at the left wall than are asked for before its first sign.
#[inline(always)]
pub(crate) fn bars_none(begun: &Begun, around: &Beside) -> bool
    ensures { IsTrue result → (s : SeenSearch) → IsMoveBegun s begun.now around.now → begun.now.m.signs ≡ []
        → has_left_wall (outline_of s.board) ≡ true
        → BarsSigns s.order s.board begun.now.m.count begun.now.m.signs }
{
    begun.next.left < around.needs.none
}

/// Whether no word goes on with the sign even at a left neighbour: fewer squares are left than are asked for with it.
#[inline(always)]
pub(crate) fn bars_first_even(begun: &Begun, around: &Beside) -> bool
    ensures { IsTrue result → (s : SeenSearch) → IsMoveBegun s begun.now around.now → begun.now.m.signs ≡ []
        → has_left_wall (outline_of s.board) ≡ false → BarsNext s begun.now Even }
{
    begun.next.left < around.needs.even
}

/// Whether none does with the sign under there: likewise, or since too few signs then can be even.
#[inline(always)]
pub(crate) fn bars_first_under(begun: &Begun, around: &Beside) -> bool
    ensures { IsTrue result → (s : SeenSearch) → IsMoveBegun s begun.now around.now → begun.now.m.signs ≡ []
        → has_left_wall (outline_of s.board) ≡ false → BarsNext s begun.now Under }
{
    needs_left_even(around) || begun.next.left < around.needs.under
}

/// Whether none does with the sign above between two of the move's own squares: rule R bars it behind the sign even
/// alone.
#[inline(always)]
pub(crate) fn bars_own_above(begun: &Begun, asked: &Asked) -> bool
    ensures { IsTrue result → (s : SeenSearch) (around : SeenBeside) → IsWithOwn s begun.now around asked.now
        → length begun.now.m.signs < begun.now.next.own → BarsNext s begun.now Above }
{
    begun.m.signs.len() == 1 && asked.evens == 1
}

/// Whether none does with this sign, which isn't even, at a right neighbour: too few signs then are even, or too much
/// is asked for.
#[inline(always)]
pub(crate) fn bars_last(begun: &Begun, around: &Beside, asked: &Asked, sign: Sign) -> bool
    requires few { IsFewPassed asked.now.passed (MANY - 1) }
    requires evens { asked.now.evens ≤ MANY }
    requires small { AreFewAsks around.now.behind.under MANY }
    requires small_above { AreFewAsks around.now.behind.above MANY }
    ensures { IsTrue result → (s : SeenSearch) → IsWithOwn s begun.now around.now asked.now
        → length begun.now.m.signs + 1 ≡ begun.now.next.wanted → (sign ≡ Even → ⊥) → BarsNext s begun.now sign }
{
    lacks_even(around, asked) || asks_too_much_then(begun, around, &asked_with(asked, sign))
}
