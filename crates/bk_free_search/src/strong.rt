//! The strong bound: how many moves and squares the segments before one ask for, counted from left to right.

ghost use Rattle.std.specs.Prelude.{true, ℕ, ◌+◌, ◌∷◌, ◌≡◌, ◌≤◌};
ghost use Rattle.bk_layout.specs.StrongPass.{none_passed, pass};
ghost use Rattle.bk_free_search.specs.Strong.{IsFewPassed, seen_passed, with_mark};
ghost use Rattle.bk_free_search.specs.declared.counts.TheConstants.{MANY};

use bk_word::Sign;

/// What a pass has counted up to a segment: the greatest number of moves that a segment before it asks for, how many
/// signs are above, how many squares more the valleys of one square ask for, and whether the segment has a wall or the
/// sign under at its left.
#[derive(Clone, Copy, Drop)]
pub(crate) struct Passed {
    pub(crate) most: usize,
    pub(crate) aboves: usize,
    pub(crate) more: usize,
    pub(crate) low: bool,
}

/// In front of the first segment nothing is counted.
pub(crate) fn none_passed() -> Passed
    ensures passed { seen_passed result ≡ none_passed }
    ensures few { IsFewPassed result 0 }
{
    Passed {
        most: 0,
        aboves: 0,
        more: 0,
        low: true,
    }
}

/// What is counted behind a segment of one square, with this sign behind it, which may be marked.
#[inline(always)]
pub(crate) fn past_one(passed: Passed, sign: Sign, mark: bool) -> Passed
    requires { IsFewPassed passed MANY }
    ensures passed { seen_passed result ≡ pass (seen_passed passed) sign 1 mark }
    ensures few { (k : ℕ) → IsFewPassed passed k → IsFewPassed result (k + 1) }
{
    let single = usize::from(passed.low);
    let here = passed.aboves + usize::from(mark);
    match sign {
        Sign::Above => Passed {
            most: (passed.most + single).max(here.max(passed.aboves + 2 * single)),
            aboves: passed.aboves + 1,
            more: passed.more + single,
            low: false,
        },
        Sign::Even => Passed {
            most: passed.most.max(here),
            aboves: passed.aboves,
            more: passed.more,
            low: false,
        },
        Sign::Under => Passed {
            most: passed.most.max(here) + 1,
            aboves: passed.aboves,
            more: passed.more,
            low: true,
        },
    }
}

/// What is counted in front of a marked segment, where its mark is counted already.
pub(crate) fn in_front_of_mark(passed: Passed) -> Passed
    requires { IsFewPassed passed MANY }
    ensures passed { seen_passed result ≡ with_mark (seen_passed passed) }
    ensures few { (k : ℕ) → IsFewPassed passed k → IsFewPassed result k }
{
    Passed {
        most: passed.most.max(passed.aboves + 1),
        ..passed
    }
}
