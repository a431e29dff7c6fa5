//! The text of a line about trial codes.

ghost use Rattle.std.specs.Prelude.{◌≡◌};
ghost use Rattle.bk_report.specs.Trial.{trial_line};

use crate::template::push_filled;
use bk_grammar::AnswerBuffer;

/// What is counted of trial codes.
#[derive(Clone, Copy)]
pub struct TrialCounts {
    /// How many of them are accepted.
    pub accepted: u64,
    /// How many of their tilings are perfect.
    pub perfect: u64,
    /// How many of their tilings are simple.
    pub simple: u64,
    /// How many squares their tilings have together.
    pub squares: u64,
}

/// Writes a line about `count` trial codes of a seed: how many of them were accepted, how many were perfect and how
/// many simple (Brooks, Smith, Stone and Tutte 1940), and how many squares they had together.
pub fn write_trial(
    seed: u64,
    count: u32,
    ok: u64,
    perfect: u64,
    simple: u64,
    squares: u64,
    out: &mut AnswerBuffer,
)
    ensures { out.new.items
        ≡ trial_line seed count (record { accepted = ok; perfect = perfect; simple = simple; squares = squares }) }
{
    out.clear();
    let numbers = [seed, u64::from(count), ok, perfect, simple, squares];
    push_filled(
        b"trial seed # count # ok # perfect # simple # squares #\n",
        &numbers,
        out,
    );
}
