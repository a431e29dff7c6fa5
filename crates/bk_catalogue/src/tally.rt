//! The closing bound of signs, counted sign by sign.
#![tactic(auto)]

ghost use Rattle.std.specs.Prelude.{IfNone, IfSome, List, [], count_by, drop, length, take, ◌++◌, ◌+◌, ◌<◌, ◌^◌, ◌∷◌};
ghost use Rattle.std.specs.Prelude.{◌≡◌, ◌≤◌};
ghost use Rattle.bk_word.specs.Signs.{is_under};
ghost use Rattle.bk_word.specs.declared.Sign.{Sign as SeenSign};
ghost use Rattle.bk_catalogue.specs.ClosingBound.{closing_bound as bound_of};
ghost use Rattle.bk_catalogue.specs.Tally.{IsTally};
ghost use Rattle.bk_catalogue.specs.declared.tally.TheConstants.{TALLY_LIMIT};

use bk_word::Sign;

/// The signs that are counted at once are fewer than this, and the room for what must be closed is less.
pub const TALLY_LIMIT: usize = 1000;

// The closing bound of signs, and how many of them are above.
#[derive(Drop)]
struct Tally {
    bound: usize,
    aboves: usize,
}

// The tally of signs with one more behind them.
fn tally_with(tally: Tally, sign: Sign) -> Tally
    requires few { tally.bound < 2 ^ 63 }
    requires low { tally.aboves ≤ tally.bound }
    ensures tally { (signs : List SeenSign) → IsTally signs tally.bound tally.aboves
        → IsTally (signs ++ sign ∷ []) result.bound result.aboves }
    ensures low { result.aboves ≤ result.bound }
    ensures one { result.bound ≤ tally.bound + 1 }
{
    match sign {
        Sign::Above => Tally {
            bound: tally.bound.max(tally.aboves + 1),
            aboves: tally.aboves + 1,
        },
        Sign::Even => tally,
        Sign::Under => Tally {
            bound: tally.bound + 1,
            aboves: tally.aboves,
        },
    }
}

/// The closing bound of the signs between the open segments, from left to right: how many of these segments must be
/// closed at least. There must be fewer signs than `TALLY_LIMIT`.
pub fn closing_bound(signs: &[Sign]) -> usize
    requires { length signs.now < TALLY_LIMIT }
    ensures { result ≡ bound_of signs.now }
{
    let mut tally = Tally {
        bound: 0,
        aboves: 0,
    };
    'signs: for sign in signs {
        tally = tally_with(tally, *sign);
    }
    tally.bound
}

// The tally of signs, where the bound doesn't pass the room; else it goes no further than to one that does.
fn tally_of(signs: &[Sign], room: usize) -> Option<Tally>
    requires { room < TALLY_LIMIT }
    ensures within { IfSome result (λ tally. IsTally signs.now tally.bound tally.aboves) }
    ensures low { IfSome result (λ tally. tally.aboves ≤ tally.bound) }
    ensures room { IfSome result (λ tally. tally.bound ≤ room) }
    ensures over { IfNone result (room < bound_of signs.now) }
{
    let mut tally = Tally {
        bound: 0,
        aboves: 0,
    };
    'signs: for sign in signs {
        tally = tally_with(tally, *sign);
        if tally.bound > room {
            return None;
        }
    }
    Some(tally)
}

/// How many of `signs` bring the closing bound of `before` and these together above `room`, the number of squares that
/// are left, below `TALLY_LIMIT`. `None` comes exactly where all of them don't. It looks no further than to the first
/// that does.
pub fn first_over(before: &[Sign], signs: &[Sign], room: usize) -> Option<usize>
    requires { room < TALLY_LIMIT }
    ensures over { IfSome result (λ kept. room < bound_of (before.now ++ take kept signs.now)) }
    ensures none { IfNone result (bound_of (before.now ++ signs.now) ≤ room) }
{
    let mut tally = match tally_of(before, room) {
        Some(tally) => tally,
        None => return Some(0),
    };
    'signs: for (i, sign) in signs.iter().enumerate() {
        tally = tally_with(tally, *sign);
        if tally.bound > room {
            return Some(i + 1);
        }
    }
    None
}

/// How many of `signs` are under behind the one at `place`, from 0: a place of the list, or its end.
pub fn unders_behind(signs: &[Sign], place: usize) -> usize
    requires { place ≤ length signs.now }
    ensures { result ≡ count_by is_under (drop (place + 1) signs.now) }
{
    if place == signs.len() {
        return 0;
    }
    signs[place + 1..]
        .iter()
        .filter(|sign| sign.is_under())
        .count()
}
