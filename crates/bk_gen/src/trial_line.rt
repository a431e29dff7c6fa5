//! Trial codes are made, written, read again, laid and counted.

ghost use Rattle.bk_gen.specs.TrialLine.{IsTrialLine};

use crate::tally::tally_of;
use bk_grammar::AnswerBuffer;
use bk_report::write_trial;

/// Makes the trial codes of a seed at the places from 0 on, `count` of them. Each one is written as text, read again
/// and laid. Clears the buffer and leaves a line about them, with its line feed: the seed, the count, how many were
/// accepted (all of them), how many are perfect and how many simple (Brooks, Smith, Stone and Tutte 1940), and how many
/// squares they have together. Trial codes and the text are this project's own.
pub fn trial(seed: u64, count: u32, out: &mut AnswerBuffer)
    ensures { IsTrialLine seed count out.new.items }
{
    let counts = tally_of(seed, count, out);
    write_trial(
        seed,
        count,
        counts.accepted,
        counts.perfect,
        counts.simple,
        counts.squares,
        out,
    );
}
