//! Trial codes: large valid codes that are made from two numbers; and the line about them, for which they are written,
//! read again, laid and counted.
#![tactic(auto)]

ghost use Rattle.std.specs.Prelude.{length, ◌-◌, ◌≡◌};
ghost use Rattle.bk_tiling.specs.declared.TheConstants.{MOST_SQUARES};
ghost use Rattle.bk_gen.specs.Attaching.{attached};
ghost use Rattle.bk_gen.specs.TrialCodes.{first_rectangle, mixed, sample, trial_tiling};

mod first;
mod growing;
mod laws;
mod laying;
mod tally;
mod trial_line;

use bk_code::{Code, code_of};
use bk_tiling::{LONGEST_SIDE, MOST_SQUARES, Tiling};
use first::first_rectangle;
use growing::Growing;
pub use laws::{a_sample_is_laid, a_seed_has_one_line, each_sample_has_a_tiling};
pub use trial_line::trial;

/// The trial code of a seed and a place: the code (Bouwkamp 1946-47) of a large rectangle that is made from the two.
/// Let v be (seed + k) times 0x9E3779B97F4A7C15, both modulo 2^64.
///
/// The rectangle to start with is, by v modulo 3, `[18,15][7,8][14,4][10,1][9]`, `[36,33][5,28][25,9,2][7][16]` or
/// `[25,17,23][11,6][5,24][22,3][19]`. Then squares are attached, step by step from 0. Where v and the step are odd,
/// the square has the width as its side, and is put below where bit `step` modulo 64 of v is 0, and above where it is
/// 1. Otherwise it has the height as its side, and is put at the right where that bit is 0, and at the left where it is
/// 1. This ends where there are 200 squares, or where the next side would be above 999,999,999,999,999. The trial codes
/// are our own.
pub fn sample(seed: u64, k: u32) -> Code
    ensures { result ≡ sample seed k }
{
    code_of(&trial_tiling(mixed(seed, k)))
}

// The number that a seed and a place give.
fn mixed(seed: u64, k: u32) -> u64
    ensures { result ≡ mixed seed k }
{
    seed.wrapping_add(u64::from(k))
        .wrapping_mul(0x9E37_79B9_7F4A_7C15)
}

// The tiling of a number.
fn trial_tiling(v: u64) -> Tiling
    ensures { result ≡ trial_tiling v }
{
    grown(v).into_tiling()
}

// The rectangle of a number, to which all squares are attached.
fn grown(v: u64) -> Growing
    ensures { result ≡ attached (MOST_SQUARES - length (first_rectangle v).squares) v 0 (first_rectangle v) }
{
    let mut growing = first_rectangle(v);
    for step in 0..MOST_SQUARES - growing.order() {
        if growing.next_side(v, step) > LONGEST_SIDE {
            return growing;
        }
        growing.attach(v, step);
    }
    growing
}
