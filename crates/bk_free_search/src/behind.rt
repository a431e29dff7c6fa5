//! What the segments behind the leftmost valley ask for, whatever is counted before them.

ghost use Rattle.std.specs.Prelude.{Bool, List, [], cond, drop, false, length, nat_eq, slice_index_or, true, ℕ, ◌&&◌};
ghost use Rattle.std.specs.Prelude.{◌+◌, ◌-◌, ◌≡◌, ◌≤◌, ◌<◌, ◌∷◌};
ghost use Rattle.bk_catalogue.specs.SingleValleys.{single_valley};
ghost use Rattle.bk_word.specs.Outline.{valley_place};
ghost use Rattle.bk_word.specs.Play.{outline_of};
ghost use Rattle.bk_word.specs.Signs.{is_under};
ghost use Rattle.bk_word.specs.Word.{order_of};
ghost use Rattle.bk_word.specs.declared.Sign.{Sign as SeenSign};
ghost use Rattle.bk_word.specs.declared.Sign.TheVariants.{Above};
ghost use Rattle.bk_free_search.specs.Apart.{AreAsks};
ghost use Rattle.bk_free_search.specs.AskedSigns.{AreBehind, AreFewAsks, AreMarks};
ghost use Rattle.bk_free_search.specs.NodeLines.{Has};
ghost use Rattle.bk_free_search.specs.declared.counts.TheConstants.{FEW, MANY};
ghost use Rattle.bk_word.specs.declared.TheConstants.{INLINE_ORDER};

use crate::board::Board;
use crate::line_set::LineSet;
use crate::marks::{has_mark, is_wide_then};
use bk_word::Sign;

/// What some segments ask for: how many moves those before them are asked for besides, how many moves one of their own
/// is, and how many squares more.
#[derive(Clone, Copy, Drop)]
pub(crate) struct Asks {
    pub(crate) add: usize,
    pub(crate) most: usize,
    pub(crate) more: usize,
}

/// What the segments behind the leftmost valley ask for, by the sign before the first of them.
#[derive(Drop)]
pub(crate) struct Behind {
    pub(crate) above: Asks,
    pub(crate) even: Asks,
    pub(crate) under: Asks,
}

/// What is asked for behind the leftmost valley of a board, which is the segment at this place. At the right wall the
/// last new square stands there.
pub(crate) fn behind_valley(board: &Board, marks: LineSet, place: usize) -> Behind
    requires few { order_of board.now ≤ INLINE_ORDER }
    requires marks { AreMarks board.now marks }
    requires place { place ≡ valley_place (outline_of board.now).signs }
    ensures { AreBehind board.now result }
{
    let signs = board.skel().signs();
    let sizes = board.skel().sizes();
    if place == signs.len() {
        return Behind {
            above: at_end(false, false),
            even: at_end(false, false),
            under: at_end(true, false),
        };
    }
    let first = place + 1;
    let mark = has_mark(marks, first);
    let wide = is_wide_then(board, marks, first);
    let single = sizes[first] == 1;
    if first == signs.len() {
        return Behind {
            above: at_end(false, mark),
            even: at_end(false, wide),
            under: at_end(single, mark),
        };
    }
    let rest = asks_from(signs, sizes, marks, first + 1);
    let sign = signs[first];
    Behind {
        above: in_front(rest, sign, false, mark),
        even: in_front(rest, sign, false, wide),
        under: in_front(rest, sign, single, mark),
    }
}

// What the segments from a place on ask for.
fn asks_from(signs: &[Sign], sizes: &[u8], marks: LineSet, from: usize) -> Asks
    requires long { length sizes.now ≡ length signs.now + 1 }
    requires some { 0 < from }
    requires within { from ≤ length signs.now }
    requires few { length signs.now < FEW }
    ensures asks { (all : List Bool) → length all ≡ length sizes.now
        → ((i : ℕ) → Has marks i → slice_index_or all i false ≡ true)
        → AreAsks (is_under (slice_index_or signs.now (from - 1) Above)) (drop from signs.now) (drop from sizes.now)
        (drop from all)
        result }
    ensures few { AreFewAsks result FEW }
{
    let last = signs.len();
    let mut asks = at_end(is_single(signs, sizes, last), has_mark(marks, last));
    for i in (from..last).rev() {
        asks = in_front(
            asks,
            signs[i],
            is_single(signs, sizes, i),
            has_mark(marks, i),
        );
    }
    asks
}

// Whether the segment at a place, not the first, is a valley of one square if the sign at its right is above or a wall
// stands there.
fn is_single(signs: &[Sign], sizes: &[u8], place: usize) -> bool
    requires some { 0 < place }
    requires within { place ≤ length signs.now }
    requires long { length sizes.now ≡ length signs.now + 1 }
    ensures { result ≡ (is_under (slice_index_or signs.now (place - 1) Above) && nat_eq
        (slice_index_or sizes.now place 0) 1) }
{
    signs[place - 1].is_under() && sizes[place] == 1
}

// What the last segment asks for: whether it is a valley of one square, and marked.
fn at_end(single: bool, mark: bool) -> Asks
    ensures asks { (low : Bool) (size : ℕ) (marked : Bool) → cond {A = ℕ} single 1 0 ≡ single_valley low size
        → (mark ≡ true → marked ≡ true)
        → AreAsks low [] (size ∷ []) (marked ∷ []) result }
    ensures few { AreFewAsks result 1 }
{
    let one = usize::from(single);
    Asks {
        add: 2 * one,
        most: usize::from(mark).max(3 * one),
        more: 2 * one,
    }
}

// What a segment in front of others asks for, with this sign at its right.
fn in_front(rest: Asks, sign: Sign, single: bool, mark: bool) -> Asks
    requires { AreFewAsks rest MANY }
    ensures asks { (low : Bool) (signs : List SeenSign) (size : ℕ) (sizes : List ℕ) (marked : Bool) (marks : List Bool)
        → AreAsks (is_under sign) signs sizes marks rest
        → cond {A = ℕ} single 1 0 ≡ single_valley low size
        → (mark ≡ true → marked ≡ true)
        → AreAsks low (sign ∷ signs) (size ∷ sizes) (marked ∷ marks) result }
    ensures few { (k : ℕ) → AreFewAsks rest k → AreFewAsks result (k + 1) }
{
    let one = usize::from(single);
    let mark = usize::from(mark);
    match sign {
        Sign::Above => Asks {
            add: rest.add + one,
            most: (rest.add + mark.max(2 * one)).max(rest.most + 1),
            more: rest.more + one,
        },
        Sign::Even => Asks {
            add: rest.add,
            most: (rest.add + mark).max(rest.most),
            more: rest.more,
        },
        Sign::Under => Asks {
            add: rest.add + 1,
            most: (rest.add + mark + 1).max(rest.most),
            more: rest.more,
        },
    }
}
