//! How many valleys have just one square: a move that closes one hangs at least two.
#![tactic(auto)]

ghost use Rattle.std.specs.Prelude.{length, ◌+◌, ◌≡◌};
ghost use Rattle.bk_catalogue.specs.SingleValleys.{single_valley, single_valleys};

use bk_word::Sign;

/// How many valleys have just one square: the signs between the open segments, and how many squares each segment has,
/// from left to right. There is one segment more than signs. A move that closes such a valley hangs at least two
/// squares.
pub fn single_valleys(signs: &[Sign], sizes: &[u8]) -> usize
    requires { length sizes.now ≡ length signs.now + 1 }
    ensures { result ≡ single_valleys signs.now sizes.now }
{
    let mut found: usize = 0;
    let mut low = true;
    for (i, sign) in signs.iter().enumerate() {
        match *sign {
            Sign::Above => {
                found += single_valley(low, sizes[i]);
                low = false;
            }
            Sign::Even => low = false,
            Sign::Under => low = true,
        }
    }
    found + single_valley(low, sizes[signs.len()])
}

// One for a segment of one square that is low at the left.
fn single_valley(low: bool, size: u8) -> usize
    ensures { result ≡ single_valley low size }
{
    usize::from(low && size == 1)
}
