//! A run over lines each of which is answered for itself.

ghost use Rattle.bk_ports.specs.Answered.{answers_of, of_fronts};
ghost use Rattle.bk_ports.specs.Ending.{EndsWith, streams_between};
ghost use Rattle.bk_ports.specs.Faults.{CountsTell, IsCalm, IsDoneOrWanting, faults_between};

use crate::input::enter_lines;
use crate::{Answerer, Ended, Failed, Outcome, Register, Sink, Source};
use bk_grammar::AnswerBuffer;

// A register that keeps nothing of a line: each is answered for itself, at one desk.
struct Steady<'a, A: Answerer> {
    answerer: &'a A,
    desk: A::Desk,
}

impl<A: Answerer> Register for Steady<'_, A> {
    ghost use Rattle.std.specs.Prelude.{◌≡◌};

    ghost enters = { λ s number line pieces refused l. A.answers s.answerer.now line pieces refused
        × (l.answerer.now ≡ s.answerer.now) };

    ghost may_want = { λ s number line. A.may_want s.answerer.now line };

    ghost is_ready = { λ _ _. Unit {0} };

    fn enter<O: Sink>(
        &mut self,
        _number: u64,
        line: &[u8],
        buffer: &mut AnswerBuffer,
        out: &mut O,
    ) -> Result<Outcome, Failed> {
        self.answerer.answer(line, &mut self.desk, buffer, out)
    }

    ghost use Rattle.std.specs.Prelude.{refl};

    ghost empty_line = { λ s n. (A.empty_line s.answerer.now, refl) };

    ghost still_ready = { λ s n h. tt };
}

/// Takes the bytes of the source to their end and answers their lines, in order. Each line that was taken with its line
/// feed is answered before the next read. Of an input of more than 2^30 bytes, 2^30 are taken, and then a read gives
/// one more. Returns how the run ended.
#[inline(never)]
pub fn answer_lines<S: Source, O: Sink, A: Answerer>(
    answerer: &A,
    source: &mut S,
    out: &mut O,
) -> Ended
    // What each ending says of the bytes.
    ensures ending { EndsWith
        (answers_of (of_fronts (record { answers = A.answers answerer.now; may_want = A.may_want answerer.now })))
        (streams_between S.left O.written (source.old, out.old) (source.new, out.new))
        result }

    // Where nothing goes wrong, all lines are answered, or memory is wanting at one that was read.
    ensures complete { IsCalm (S.left source.old)
        (faults_between S.faults O.faults (source.old, out.old) (source.new, out.new))
        → IsDoneOrWanting result }

    // What the ending tells of the counts of faults.
    ensures faults { CountsTell result
        (faults_between S.faults O.faults (source.old, out.old) (source.new, out.new)) }
{
    let mut steady = Steady {
        answerer,
        desk: answerer.desk(),
    };
    let ended = enter_lines(&mut steady, source, out);
    let Steady {
        answerer: _,
        desk: _,
    } = steady;
    ended
}
