//! Moves of one square by which no word goes on, because of the segments that they join. It is known before they are
//! played.
#![tactic(auto)]

ghost use Rattle.std.specs.Prelude.{IsTrue, Some, [], length, slice_get, ◌++◌, ◌<◌, ◌∷◌, ◌≡◌, ◌≤◌};
ghost use Rattle.bk_word.specs.Outline.{IsLegalMove, valley_place};
ghost use Rattle.bk_word.specs.Play.{IsLegal, outline_of};
ghost use Rattle.bk_play.specs.SmallSkeleton.{IsValleyPlace};
ghost use Rattle.bk_layout.specs.NodeCut.{ShareANode};
ghost use Rattle.bk_layout.specs.NetWord.{IsNetBarren};
ghost use Rattle.bk_free_search.specs.Joining.{JoinsLeft, JoinsRight};

use crate::all_under::evens_in;
use crate::board::Board;
use crate::line_set::{no_line, with_line};
use bk_play::{SmallMove, SmallSkel, ValleyPlace};
use bk_word::Sign;

/// Whether no word of the order goes on from the board's moves by this legal one, as it hangs one square: it leaves one
/// segment while squares are left, or two lines at the segment that it joins share a closed node. A move of more
/// squares joins no two segments that stand open before.
pub(crate) fn joins_barrenly(board: &Board, valley: &ValleyPlace, m: &SmallMove, order: u8) -> bool
    requires valley { IsValleyPlace board.now valley.now }
    requires legal { IsLegalMove (outline_of board.now) m.now }
    ensures { IsTrue result → IsNetBarren order (board.now ++ m.now ∷ []) }
{
    if m.count != 1 {
        return false;
    }
    leaves_one_early(board.skel(), m, order) || joins_parted(board, valley, m)
}

// Whether a legal move of one square leaves one segment, and fewer squares hang then than the order.
fn leaves_one_early(skel: &SmallSkel, m: &SmallMove, order: u8) -> bool
    requires word { IsLegal skel.now }
    requires legal { IsLegalMove (outline_of skel.now) m.now }
    requires one { m.now.count ≡ 1 }
    ensures { IsTrue result → IsNetBarren order (skel.now ++ m.now ∷ []) }
{
    if skel.signs().len() != m.signs.len() || skel.order() + 1 >= usize::from(order) {
        return false;
    }
    evens_in(m.signs.as_slice()) == m.signs.len()
}

// Whether, after a legal move of one square, two lines at the segment that it joins bound a part of the tiling.
pub(crate) fn joins_parted(board: &Board, valley: &ValleyPlace, m: &SmallMove) -> bool
    requires valley { IsValleyPlace board.now valley.now }
    requires legal { IsLegalMove (outline_of board.now) m.now }
    requires one { m.now.count ≡ 1 }
    ensures { IsTrue result → ShareANode (board.now ++ m.now ∷ []) }
{
    let skel = board.skel();
    let ends = skel.ends();
    let earlier = joined_left(skel, valley, m);
    let later = joined_right(skel, valley, m);
    if earlier.is_empty() && later.is_empty() {
        return false;
    }
    let lefts = board.lines_left_of(earlier);
    let rights = board.lines_right_of(later);
    let squares = &ends[valley.start..valley.end];
    board.touch_one(lefts, with_line(rights, board.right_end(squares)))
        || board.touch_one(with_line(no_line(), board.left_end(squares)), rights)
}

// The squares of the segment at the left of the valley, where the move joins its square with them; else none.
fn joined_left<'a>(skel: &'a SmallSkel, valley: &ValleyPlace, m: &SmallMove) -> &'a [u8]
    requires word { IsLegal skel.now }
    requires valley { IsValleyPlace skel.now valley.now }
    ensures { JoinsLeft (outline_of skel.now) m.now result.now }
{
    if valley.place == 0 || m.signs.as_slice().first() != Some(&Sign::Even) {
        return &[];
    }
    let many = usize::from(skel.sizes()[valley.place - 1]);
    &skel.ends()[valley.start - many..valley.start]
}

// The squares of the segment at the right of the valley, where the move joins its square with them; else none.
fn joined_right<'a>(skel: &'a SmallSkel, valley: &ValleyPlace, m: &SmallMove) -> &'a [u8]
    requires word { IsLegal skel.now }
    requires valley { IsValleyPlace skel.now valley.now }
    ensures { JoinsRight (outline_of skel.now) m.now result.now }
{
    if valley.place == skel.signs().len() || m.signs.as_slice().last() != Some(&Sign::Even) {
        return &[];
    }
    let many = usize::from(skel.sizes()[valley.place + 1]);
    &skel.ends()[valley.end..valley.end + many]
}
