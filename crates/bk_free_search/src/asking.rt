//! What a next move's first signs ask for, counted sign by sign.

ghost use Rattle.std.specs.Prelude.{IsTrue, List, [], length, ℕ, ◌++◌, ◌+◌, ◌-◌, ◌<◌, ◌∷◌, ◌≡◌, ◌≤◌};
ghost use Rattle.bk_word.specs.Outline.{has_left_wall, open_side, valley_place};
ghost use Rattle.bk_word.specs.Play.{IsLegal, outline_of};
ghost use Rattle.bk_word.specs.Word.{Move as SeenMove, Word as Moves, order_of};
ghost use Rattle.bk_word.specs.declared.Sign.{Sign as SeenSign};
ghost use Rattle.bk_word.specs.declared.Sign.TheVariants.{Even, Under};
ghost use Rattle.bk_play.specs.SmallSkeleton.{IsValleyPlace};
ghost use Rattle.bk_free_search.specs.Apart.{IsCountedTo};
ghost use Rattle.bk_free_search.specs.AskedSigns.{AreAskedBefore, AreFewAsks, AreFewBefore, AreMarks, AreNeeds};
ghost use Rattle.bk_free_search.specs.AskedSigns.{IsAsked, IsOver, NeedsLeft, StandBeside};
ghost use Rattle.bk_free_search.specs.Strong.{IsFewPassed, seen_passed};
ghost use Rattle.bk_free_search.specs.declared.counts.TheConstants.{FEW};
ghost use Rattle.bk_free_search.specs.declared.line_set.TheConstants.{MOST_LINES};
ghost use Rattle.bk_word.specs.declared.TheConstants.{INLINE_ORDER};

use crate::ahead::{Ahead, look_ahead};
use crate::behind::{Asks, Behind, behind_valley};
use crate::board::Board;
use crate::counts::{MANY, one_if};
use crate::line_set::LineSet;
use crate::marks::{has_mark, is_left_on_line, is_wide_then, marks_of};
use crate::strong::{Passed, in_front_of_mark, none_passed, past_one};
use bk_play::{ValleyPlace, open_side};
use bk_word::Sign;

/// What stands beside the leftmost valley: whether the walls do, what the segments before it ask for, and those behind
/// it, what is ahead, and where the valley is.
#[derive(Drop)]
pub(crate) struct Beside {
    pub(crate) left_wall: bool,
    pub(crate) right_wall: bool,
    pub(crate) before: Before,
    pub(crate) behind: Behind,
    pub(crate) ahead: Ahead,
    pub(crate) needs: Needs,
    pub(crate) valley: ValleyPlace,
}

/// What is asked for before the first sign of a next move, and with the sign even or under at a left neighbour.
#[derive(Drop)]
pub(crate) struct Before {
    pub(crate) none: Asked,
    pub(crate) even: Asked,
    pub(crate) under: Asked,
}

/// How many squares must be left after the next move at least, by what is asked for before its first sign, and with the
/// sign even or under at a left neighbour.
#[derive(Drop)]
pub(crate) struct Needs {
    pub(crate) none: usize,
    pub(crate) even: usize,
    pub(crate) under: usize,
}

/// Of a next move of some count: how many signs it has, how many of them without that at a right neighbour, and how
/// many squares are left after it.
#[derive(Default, Drop)]
pub(crate) struct Next {
    pub(crate) wanted: usize,
    pub(crate) own: usize,
    pub(crate) left: usize,
}

/// How many segments stand beside the leftmost valley: one or none at its left, and at its right.
#[derive(Clone, Copy, Drop)]
pub(crate) struct OpenSides {
    pub(crate) left: usize,
    pub(crate) right: usize,
}

/// What is counted in front of a segment, and how many of a move's first signs are even.
#[derive(Clone, Copy, Drop)]
pub(crate) struct Asked {
    pub(crate) passed: Passed,
    pub(crate) evens: usize,
}

/// What stands beside the leftmost valley of a board, from which words of the order are looked for.
pub(crate) fn stand_beside(board: &Board, order: u8) -> Beside
    requires few { order_of board.now ≤ INLINE_ORDER }
    ensures { StandBeside order board.now result }
{
    let signs = board.skel().signs();
    let valley = board.skel().valley_place();
    let place = valley.place;
    let left_wall = place == 0;
    let right_wall = place == signs.len();
    let marks = marks_of(board);
    let before = before_valley(board, marks, &valley);
    let behind = behind_valley(board, marks, place);
    let ahead = look_ahead(board, order);
    let needs = needs_of(&before, &behind, ahead.moves);
    Beside {
        left_wall,
        right_wall,
        before,
        behind,
        ahead,
        needs,
        valley,
    }
}

// How many squares must be left after the next move at least, where so many moves are.
fn needs_of(before: &Before, behind: &Behind, moves: usize) -> Needs
    requires before { AreFewBefore before.now }
    requires behind { AreFewAsks behind.now.even (FEW + 1) }
    ensures { AreNeeds before.now behind.now moves result }
{
    Needs {
        none: least_left(&before.none.passed, &behind.even, moves),
        even: least_left(&before.even.passed, &behind.even, moves),
        under: least_left(&before.under.passed, &behind.even, moves),
    }
}

// What is asked for before the leftmost valley of a board.
fn before_valley(board: &Board, marks: LineSet, valley: &ValleyPlace) -> Before
    requires few { order_of board.now ≤ INLINE_ORDER }
    requires marks { AreMarks board.now marks }
    requires valley { IsValleyPlace board.now valley.now }
    ensures asked { AreAskedBefore board.now result }
    ensures few { AreFewBefore result }
{
    let place = valley.place;
    if place == 0 {
        let none = Asked {
            passed: none_passed(),
            evens: 0,
        };
        return Before {
            none,
            even: none,
            under: none,
        };
    }
    let passed = pass_before(board, marks, place - 1);
    Before {
        none: Asked { passed, evens: 0 },
        even: left_even(board, marks, place - 1, passed),
        under: left_under(board, marks, valley, passed),
    }
}

/// How many segments stand beside it.
pub(crate) fn sides_beside(beside: &Beside) -> OpenSides
    ensures left { result.left ≡ open_side beside.now.left_wall }
    ensures right { result.right ≡ open_side beside.now.right_wall }
{
    OpenSides {
        left: open_side(beside.left_wall),
        right: open_side(beside.right_wall),
    }
}

/// What is asked for with one sign more, behind one of the move's own squares.
#[inline(always)]
pub(crate) fn asked_with(asked: &Asked, sign: Sign) -> Asked
    requires few { IsFewPassed asked.now.passed MANY }
    requires evens { asked.now.evens ≤ MANY }
    ensures asked { (front : Moves) (signs : List SeenSign) → IsAsked front signs asked.now
        → open_side (has_left_wall (outline_of front)) ≤ length signs
        → IsAsked front (signs ++ sign ∷ []) result }
    ensures few { (k : ℕ) → IsFewPassed asked.now.passed k → IsFewPassed result.passed (k + 1) }
{
    Asked {
        passed: past_one(asked.passed, sign, false),
        evens: asked.evens + one_if(sign.is_even()),
    }
}

/// Whether the segments up to a place and those behind ask for more moves than are left, or for more squares.
#[inline(always)]
pub(crate) fn is_over(passed: &Passed, asks: &Asks, moves: usize, left: usize) -> bool
    requires few { IsFewPassed passed.now MANY }
    requires small { AreFewAsks asks.now MANY }
    ensures { IsTrue result → IsOver passed.now asks.now moves left }
{
    let most = (passed.most + asks.add).max(passed.aboves + asks.most);
    if moves < most {
        return true;
    }
    left < most + passed.more + asks.more
}

// How many squares must be left at least, for the segments up to a place and those behind: more than there ever are
// where they ask for more moves than are left.
#[inline]
fn least_left(passed: &Passed, asks: &Asks, moves: usize) -> usize
    requires few { IsFewPassed passed.now MANY }
    requires small { AreFewAsks asks.now MANY }
    ensures { NeedsLeft passed.now asks.now moves result }
{
    let most = (passed.most + asks.add).max(passed.aboves + asks.most);
    if most > moves {
        return MANY;
    }
    most + passed.more + asks.more
}

// What is counted over so many segments, all before the one before the valley.
fn pass_before(board: &Board, marks: LineSet, many: usize) -> Passed
    requires few { order_of board.now ≤ INLINE_ORDER }
    requires marks { AreMarks board.now marks }
    requires many { many + 1 ≡ valley_place (outline_of board.now).signs }
    ensures counted { (m : SeenMove) → IsLegal (board.now ++ m ∷ [])
        → IsCountedTo board.now m many (seen_passed result) }
    ensures few { IsFewPassed result many }
    ensures small { many ≤ MOST_LINES }
{
    let signs = board.skel().signs();
    let mut passed = none_passed();
    'segments: for i in 0..many {
        passed = past_one(passed, signs[i], has_mark(marks, i));
    }
    passed
}

// What is asked for with the sign even at a left neighbour, which is the segment at a place.
fn left_even(board: &Board, marks: LineSet, place: usize, passed: Passed) -> Asked
    requires marks { AreMarks board.now marks }
    requires place { place + 1 ≡ valley_place (outline_of board.now).signs }
    requires few { IsFewPassed passed FEW }
    requires counted { (m : SeenMove) → IsLegal (board.now ++ m ∷ [])
        → IsCountedTo board.now m place (seen_passed passed) }
    ensures { IsAsked board.now (Even ∷ []) result }
{
    Asked {
        passed: past_one(passed, Sign::Even, is_wide_then(board, marks, place)),
        evens: 1,
    }
}

// What is asked for with the sign under at a left neighbour, the segment at a place, where the valley stands behind it.
fn left_under(board: &Board, marks: LineSet, valley: &ValleyPlace, passed: Passed) -> Asked
    requires marks { AreMarks board.now marks }
    requires valley { IsValleyPlace board.now valley.now }
    requires some { 0 < valley.now.place }
    requires few { IsFewPassed passed FEW }
    requires counted { (m : SeenMove) → IsLegal (board.now ++ m ∷ [])
        → IsCountedTo board.now m (valley.now.place - 1) (seen_passed passed) }
    ensures { IsAsked board.now (Under ∷ []) result }
{
    let behind = past_one(passed, Sign::Under, has_mark(marks, valley.place - 1));
    if is_left_on_line(board, valley) {
        return Asked {
            passed: in_front_of_mark(behind),
            evens: 0,
        };
    }
    Asked {
        passed: behind,
        evens: 0,
    }
}
