//! The search through all words of an order that have no barren beginning.

ghost use Rattle.std.specs.Prelude.{IsTrue, [], length, ◌++◌, ◌+◌, ◌<◌, ◌∷◌, ◌≡◌, ◌≤◌};
ghost use Rattle.bk_word.specs.Play.{IsComplete};
ghost use Rattle.bk_word.specs.Word.{Word as Moves, order_of};
ghost use Rattle.bk_word.specs.declared.Sign.TheVariants.{Above};
ghost use Rattle.bk_layout.specs.NormalImage.{IsNormalSought};
ghost use Rattle.bk_play.specs.SmallSkeleton.{IsValleyPlace};
ghost use Rattle.bk_free_search.specs.AskedSigns.{BarsNext, IsMoveBegun, IsOwnSign, IsWithOwn};
ghost use Rattle.bk_free_search.specs.Sought.{IsNextMove};
ghost use Rattle.bk_free_search.specs.Unchanged.{MeetsAllBy, MeetsAllFrom};
ghost use Rattle.bk_word.specs.declared.TheConstants.{INLINE_ORDER, LARGEST_LISTED_ORDER};

use crate::asking::{Asked, Beside, asked_with, sides_beside, stand_beside};
use crate::board::Board;
use crate::cuts::least_count;
use crate::questions::{
    asks_too_much, asks_too_much_then, bars_first_even, bars_first_under, bars_last, bars_none,
    bars_own_above,
};
use crate::state::{
    Begun, NextSign, Search, begin, meet_closed, meet_with_last, not_begun, pop_sign, push_sign,
};
use bk_play::ValleyPlace;
use bk_word::Sign;

/// What is done with the complete words that a search meets.
pub trait Leaves {
    ghost use Rattle.bk_word.specs.Word.{Word as Moves};

    /// What holds once a word was met.
    ghost has_met: { Self → Moves → Type 0 };

    /// The type of what no meeting changes.
    ghost Fixed: { Type 0 };

    /// What no meeting changes of these leaves.
    ghost fixed: { Self → Self.Fixed };

    /// Meets the complete word of a board, of at most 16 squares.
    fn meet(&mut self, board: &Board)
        requires complete { IsComplete board.now }
        requires few { order_of board.now ≤ INLINE_ORDER }
        ensures met { has_met self.new board.now }
        ensures kept { (w : Moves) → has_met self.old w → has_met self.new w }
        ensures fixed { fixed self.new ≡ fixed self.old };
}

/// Meets each word that is sought: complete, of the order, which is from 3 to 16, by rule R, and with no beginning that
/// no word of a normal layout has. What no meeting changes is as it was.
pub fn search<S: Leaves>(leaves: &mut S, order: u8)
    requires least { 3 ≤ order }
    requires most { order ≤ LARGEST_LISTED_ORDER }
    ensures all { (w : Moves) → IsNormalSought order w → S.has_met leaves.new w }
    ensures kept { (w : Moves) → S.has_met leaves.old w → S.has_met leaves.new w }
    ensures fixed { S.fixed leaves.new ≡ S.fixed leaves.old }
{
    let mut search = Search {
        board: Board::new(),
        order,
    };
    search.meet_all(leaves);
}

impl Search {
    // Meets the word of the board where so many squares hang, else those that go on from it.
    #[cycle(search)]
    fn meet_all<S: Leaves>(&mut self, leaves: &mut S)
        requires least { 3 ≤ self.old.order }
        requires most { self.old.order ≤ LARGEST_LISTED_ORDER }
        requires few { order_of self.old.board ≤ self.old.order }
        ensures { MeetsAllFrom S.has_met S.fixed self.old.board
            (record { search = self.old; leaves = leaves.old })
            (record { search = self.new; leaves = leaves.new }) }
    {
        let hung = self.board.skel().order();
        if hung == usize::from(self.order) {
            meet_closed(&self.board, leaves);
            return;
        }
        if hung + 1 == usize::from(self.order) {
            meet_with_last(&mut self.board, self.order, leaves);
            return;
        }
        self.with_counts(leaves);
    }

    // Meets all that go on from the board's moves, where two squares or more are left. The next move doesn't hang them
    // all.
    #[cycle(search)]
    fn with_counts<S: Leaves>(&mut self, leaves: &mut S)
        requires least { 3 ≤ self.old.order }
        requires most { self.old.order ≤ LARGEST_LISTED_ORDER }
        requires few { order_of self.old.board + 1 < self.old.order }
        ensures { MeetsAllFrom S.has_met S.fixed self.old.board
            (record { search = self.old; leaves = leaves.old })
            (record { search = self.new; leaves = leaves.new }) }
    {
        let around = stand_beside(&self.board, self.order);
        if self.lacks_next(&around) {
            return;
        }
        let left = self.order - self.board.skel().order() as u8;
        let sides = sides_beside(&around);
        let mut begun = not_begun();
        'counts: for count in least_count(self.board.skel(), &around.valley)..left {
            begin(&mut begun, sides, count, usize::from(left - count));
            self.with_left(&mut begun, &around, leaves);
        }
    }

    // Meets those that go on by a move of the count. The sign at a left neighbour is even or under; at the left wall
    // there is none.
    #[cycle(search)]
    #[inline(always)]
    fn with_left<S: Leaves>(&mut self, begun: &mut Begun, around: &Beside, leaves: &mut S)
        requires begun { IsMoveBegun self.old begun.old around.now }
        requires none { begun.old.m.signs ≡ [] }
        ensures { MeetsAllBy S.has_met S.fixed begun.old.m.signs
            (record { search = self.old; begun = begun.old; leaves = leaves.old })
            (record { search = self.new; begun = begun.new; leaves = leaves.new }) }
    {
        if around.left_wall {
            if bars_none(begun, around) {
                return;
            }
            self.with_own(begun, around, &around.before.none, leaves);
            return;
        }
        let before = &around.before;
        let even = NextSign {
            sign: Sign::Even,
            barred: bars_first_even(begun, around),
        };
        self.with_sign(begun, around, &before.even, even, leaves);
        let under = NextSign {
            sign: Sign::Under,
            barred: bars_first_under(begun, around),
        };
        self.with_sign(begun, around, &before.under, under, leaves);
    }

    // Meets those that go on by a move that begins so, with the sign at a left neighbour. The signs between its own
    // squares are above or under.
    #[cycle(search)]
    fn with_own<S: Leaves>(
        &mut self,
        begun: &mut Begun,
        around: &Beside,
        asked: &Asked,
        leaves: &mut S,
    )
        requires { IsWithOwn self.old begun.old around.now asked.now }
        ensures { MeetsAllBy S.has_met S.fixed begun.old.m.signs
            (record { search = self.old; begun = begun.old; leaves = leaves.old })
            (record { search = self.new; begun = begun.new; leaves = leaves.new }) }
    {
        if begun.m.signs.len() == begun.next.own {
            self.with_right(begun, around, asked, leaves);
            return;
        }
        self.with_above(begun, around, asked, leaves);
        let with_under = asked_with(asked, Sign::Under);
        let under = NextSign {
            sign: Sign::Under,
            barred: asks_too_much(begun, around, &with_under),
        };
        self.with_sign(begun, around, &with_under, under, leaves);
    }

    // Meets those whose next sign, between two of the move's own squares, is above. There are none where rule R bars
    // it, or where too much is asked for with it.
    #[cycle(search)]
    #[inline(always)]
    fn with_above<S: Leaves>(
        &mut self,
        begun: &mut Begun,
        around: &Beside,
        asked: &Asked,
        leaves: &mut S,
    )
        requires with_own { IsWithOwn self.old begun.old around.now asked.now }
        requires own { length begun.old.m.signs < begun.old.next.own }
        ensures { MeetsAllBy S.has_met S.fixed (begun.old.m.signs ++ Above ∷ [])
            (record { search = self.old; begun = begun.old; leaves = leaves.old })
            (record { search = self.new; begun = begun.new; leaves = leaves.new }) }
    {
        if bars_own_above(begun, asked) {
            return;
        }
        let with_above = asked_with(asked, Sign::Above);
        let above = NextSign {
            sign: Sign::Above,
            barred: asks_too_much(begun, around, &with_above),
        };
        self.with_sign(begun, around, &with_above, above, leaves);
    }

    // Meets those whose next sign is this, and which go on to the move's own squares. There are none where it is
    // barred.
    #[cycle(search)]
    #[inline(always)]
    fn with_sign<S: Leaves>(
        &mut self,
        begun: &mut Begun,
        around: &Beside,
        asked: &Asked,
        next: NextSign,
        leaves: &mut S,
    )
        requires own { IsOwnSign self.old begun.old around.now asked.now next.sign }
        requires barred { IsTrue next.barred → BarsNext self.old begun.old next.sign }
        ensures { MeetsAllBy S.has_met S.fixed (begun.old.m.signs ++ next.sign ∷ [])
            (record { search = self.old; begun = begun.old; leaves = leaves.old })
            (record { search = self.new; begun = begun.new; leaves = leaves.new }) }
    {
        if next.barred {
            return;
        }
        push_sign(&mut begun.m, next.sign);
        self.with_own(begun, around, asked, leaves);
        pop_sign(&mut begun.m);
    }

    // Meets those that go on by a move that begins so, with all signs but one at a right neighbour. At the right wall
    // there is none.
    #[cycle(search)]
    #[inline(always)]
    fn with_right<S: Leaves>(
        &mut self,
        begun: &mut Begun,
        around: &Beside,
        asked: &Asked,
        leaves: &mut S,
    )
        requires with_own { IsWithOwn self.old begun.old around.now asked.now }
        requires own { length begun.old.m.signs ≡ begun.old.next.own }
        ensures { MeetsAllBy S.has_met S.fixed begun.old.m.signs
            (record { search = self.old; begun = begun.old; leaves = leaves.old })
            (record { search = self.new; begun = begun.new; leaves = leaves.new }) }
    {
        if around.right_wall {
            if asks_too_much_then(begun, around, asked) {
                return;
            }
            self.with_move(begun, &around.valley, leaves);
            return;
        }
        let even = NextSign {
            sign: Sign::Even,
            barred: false,
        };
        self.with_last(begun, around, even, leaves);
        let above = NextSign {
            sign: Sign::Above,
            barred: bars_last(begun, around, asked, Sign::Above),
        };
        self.with_last(begun, around, above, leaves);
        let under = NextSign {
            sign: Sign::Under,
            barred: bars_last(begun, around, asked, Sign::Under),
        };
        self.with_last(begun, around, under, leaves);
    }

    // Meets those whose last sign is this. There are none where it is barred.
    #[cycle(search)]
    #[inline(always)]
    fn with_last<S: Leaves>(
        &mut self,
        begun: &mut Begun,
        around: &Beside,
        next: NextSign,
        leaves: &mut S,
    )
        requires begun { IsMoveBegun self.old begun.old around.now }
        requires last { length begun.old.m.signs + 1 ≡ begun.old.next.wanted }
        requires barred { IsTrue next.barred → BarsNext self.old begun.old next.sign }
        ensures { MeetsAllBy S.has_met S.fixed (begun.old.m.signs ++ next.sign ∷ [])
            (record { search = self.old; begun = begun.old; leaves = leaves.old })
            (record { search = self.new; begun = begun.new; leaves = leaves.new }) }
    {
        if next.barred {
            return;
        }
        push_sign(&mut begun.m, next.sign);
        self.with_move(begun, &around.valley, leaves);
        pop_sign(&mut begun.m);
    }

    // Meets those that go on by the move, which has all its signs.
    #[cycle(search)]
    fn with_move<S: Leaves>(&mut self, begun: &Begun, valley: &ValleyPlace, leaves: &mut S)
        requires next { IsNextMove self.old.order self.old.board begun.now.m }
        requires valley { IsValleyPlace self.old.board valley.now }
        ensures { MeetsAllFrom S.has_met S.fixed (self.old.board ++ begun.now.m ∷ [])
            (record { search = self.old; leaves = leaves.old })
            (record { search = self.new; leaves = leaves.new }) }
    {
        if self.bars_move(begun, valley) {
            return;
        }
        let before = self.board.outline();
        self.board.play(&begun.m);
        self.meet_all(leaves);
        self.board.take_back(&before);
    }
}
