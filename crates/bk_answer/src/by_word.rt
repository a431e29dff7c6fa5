//! The answer to a line of a code by the word of its tiling.

ghost use Rattle.std.specs.Prelude.{◌<◌};
ghost use Rattle.bk_ports.specs.Causes.{HasCause};
ghost use Rattle.bk_tiling.specs.Tiling.{IsTiling, order};
ghost use Rattle.bk_word.specs.declared.TheConstants.{INLINE_ORDER};
ghost use Rattle.bk_answer.specs.Answer.{MayWant};
ghost use Rattle.bk_answer.specs.CodeAnswer.{AnswersCodeLine};
ghost use Rattle.bk_answer.specs.Replies.{IsReplyWith};
ghost use Rattle.bk_answer.specs.Telling.{TellsPieces};
ghost use Rattle.bk_answer.specs.declared.command.Command.TheVariants.{Memory};
ghost use Rattle.bk_answer.specs.declared.command.MemoryCommand.TheVariants.{Word};

use crate::answer::{accepted, refuse};
use crate::items::{Desk, lay_line};
use bk_grammar::AnswerBuffer;
use bk_lay::word_of;
use bk_ports::{Failed, Outcome, Sink};
use bk_report::write_word_line;
use bk_tiling::Tiling;
use bk_word::NoMemory;
use std::alloc::Global;

// Answers a line of a code by the word of its tiling.
pub(crate) fn answer_by_word<O: Sink>(
    alloc: Global,
    line: &[u8],
    desk: &mut Desk,
    buffer: &mut AnswerBuffer,
    out: &mut O,
) -> Result<Outcome, Failed>
    ensures reply { IsReplyWith (AnswersCodeLine (Memory Word) line.now) (MayWant (Memory Word) line.now)
        (O.written out.old) (O.written out.new) result }
    ensures cause { HasCause (O.faults out.old) (O.faults out.new) result }
{
    match lay_line(line, desk) {
        Ok(Some(tiling)) => tell_word(alloc, tiling, buffer, out),
        Ok(None) => Ok(Outcome::Accepted),
        Err(refused) => refuse(refused, buffer, out),
    }
}

// Writes the word of a tiling, or says that memory is wanting.
fn tell_word<O: Sink>(
    alloc: Global,
    tiling: &Tiling,
    buffer: &mut AnswerBuffer,
    out: &mut O,
) -> Result<Outcome, Failed>
    requires { IsTiling tiling.now }
    ensures reply { IsReplyWith (TellsPieces (Memory Word) tiling.now) (INLINE_ORDER < order tiling.now)
        (O.written out.old) (O.written out.new) result }
    ensures cause { HasCause (O.faults out.old) (O.faults out.new) result }
{
    match word_of(alloc, tiling) {
        Ok(word) => {
            write_word_line(&word, buffer);
            accepted(out.write_all(buffer.as_slice()))
        }
        Err(NoMemory) => Ok(Outcome::NoMemory),
    }
}
