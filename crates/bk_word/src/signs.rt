//! Tests of a sign.
#![tactic(auto)]

ghost use Rattle.std.specs.Prelude.{◌≡◌};
ghost use Rattle.bk_word.specs.Play.{parts};
ghost use Rattle.bk_word.specs.Signs.{is_above, is_even, is_under};

use crate::Sign;

impl Sign {
    /// Whether the left one of the two bottoms is higher.
    pub fn is_above(self) -> bool
        ensures { result ≡ is_above self }
    {
        matches!(self, Sign::Above)
    }

    /// Whether both bottoms are level.
    pub fn is_even(self) -> bool
        ensures { result ≡ is_even self }
    {
        matches!(self, Sign::Even)
    }

    /// Whether the left one of the two bottoms is lower.
    pub fn is_under(self) -> bool
        ensures { result ≡ is_under self }
    {
        matches!(self, Sign::Under)
    }

    /// Whether the sign stays between two segments: the two bottoms aren't level.
    pub fn parts(self) -> bool
        ensures { result ≡ parts self }
    {
        !matches!(self, Sign::Even)
    }
}
