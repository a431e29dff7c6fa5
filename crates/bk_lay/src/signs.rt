//! The signs between the bottoms of squares.

ghost use Rattle.std.specs.List.{AllByRecursion};
ghost use Rattle.std.specs.Prelude.{[], length, map, option_to_list, ◌+◌, ◌++◌, ◌<◌, ◌^◌, ◌∷◌, ◌≡◌, ◌≤◌};
ghost use Rattle.bk_tiling.specs.declared.TheConstants.{MOST_SQUARES};
ghost use Rattle.bk_lay.specs.LevelRuns.{bottoms_of};
ghost use Rattle.bk_lay.specs.TilingWord.{sign_between, signs_between};

use arrayvec::ArrayVec;
use bk_tiling::Square;
use bk_word::{MOST_SIGNS, Sign};

// Makes of signs those between the bottoms of squares, from left to right, and the levels beside these.
pub(crate) fn write_signs(
    signs: &mut ArrayVec<Sign, MOST_SIGNS>,
    before: Option<u64>,
    squares: &[Square],
    after: Option<u64>,
)
    requires few { length squares.now ≤ MOST_SQUARES }
    requires fit { AllByRecursion (λ q. q.y + q.s < 2 ^ 64) squares.now }
    ensures { signs.new.items
        ≡ signs_between (option_to_list before ++ bottoms_of squares.now ++ option_to_list after) }
{
    signs.clear();
    let mut last = before;
    for q in squares {
        let bottom = q.y + q.s;
        push_sign(signs, last, bottom);
        last = Some(bottom);
    }
    if let Some(level) = after {
        push_sign(signs, last, level);
    }
}

// Appends the sign between two levels, where there is one at the left.
fn push_sign(signs: &mut ArrayVec<Sign, MOST_SIGNS>, left: Option<u64>, right: u64)
    requires { length signs.old.items < MOST_SIGNS }
    ensures { signs.new.items ≡ signs.old.items ++ signs_between (option_to_list left ++ right ∷ []) }
{
    if let Some(level) = left {
        signs.push(sign_between(level, right));
    }
}

/// The sign between the levels of two neighbouring bottoms, from left to right: above where the left one is less, even
/// where they are equal, under where it is greater.
pub fn sign_between(left: u64, right: u64) -> Sign
    ensures { result ≡ sign_between left right }
{
    if left < right {
        Sign::Above
    } else if left == right {
        Sign::Even
    } else {
        Sign::Under
    }
}
