//! What is counted of trial codes.

ghost use Rattle.std.specs.Prelude.{IsTrue, ◌+◌, ◌<◌, ◌^◌, ◌↔◌, ◌≡◌};
ghost use Rattle.bk_tiling.specs.Tiling.{order};
ghost use Rattle.bk_simple.specs.Simple.{IsPerfect, IsSimple};
ghost use Rattle.bk_gen.specs.Counting.{CountsOn};
ghost use Rattle.bk_gen.specs.TrialLine.{IsTrialTally};

use crate::laying::laid_again;
use bk_grammar::AnswerBuffer;
use bk_report::TrialCounts;
use bk_simple::{is_perfect, part};
use bk_tiling::Tiling;

// What is counted of the trial codes of a seed at the places below the count. The buffer gets their texts.
pub(crate) fn tally_of(seed: u64, count: u32, text: &mut AnswerBuffer) -> TrialCounts
    ensures { IsTrialTally seed count result }
{
    let mut counts = TrialCounts {
        accepted: 0,
        perfect: 0,
        simple: 0,
        squares: 0,
    };
    for k in 0..count {
        if let Some(tiling) = laid_again(seed, k, text) {
            count_tiling(&tiling, &mut counts);
        }
    }
    counts
}

// Counts a further tiling.
fn count_tiling(tiling: &Tiling, counts: &mut TrialCounts)
    requires accepted { counts.old.accepted < 2 ^ 62 }
    requires perfect { counts.old.perfect < 2 ^ 62 }
    requires simple { counts.old.simple < 2 ^ 62 }
    requires squares { counts.old.squares < 2 ^ 62 }
    ensures accepted { counts.new.accepted ≡ counts.old.accepted + 1 }
    ensures perfect { CountsOn (IsPerfect tiling.now) counts.old.perfect counts.new.perfect }
    ensures simple { CountsOn (IsSimple tiling.now) counts.old.simple counts.new.simple }
    ensures squares { counts.new.squares ≡ counts.old.squares + order tiling.now }
{
    counts.accepted += 1;
    counts.perfect += u64::from(is_perfect(tiling));
    counts.simple += u64::from(part(tiling).is_none());
    counts.squares += tiling.order() as u64;
}
