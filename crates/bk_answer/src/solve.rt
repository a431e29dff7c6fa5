//! The answer to a word line.

ghost use Rattle.std.specs.Prelude.{length, ◌<◌};
ghost use Rattle.bk_ports.specs.Causes.{HasCause};
ghost use Rattle.bk_word.specs.Word.{order_of};
ghost use Rattle.bk_word.specs.declared.TheConstants.{INLINE_ORDER};
ghost use Rattle.bk_answer.specs.Answer.{MayWant};
ghost use Rattle.bk_answer.specs.Replies.{IsReplyWith};
ghost use Rattle.bk_answer.specs.declared.command.Command.TheVariants.{Memory};
ghost use Rattle.bk_answer.specs.declared.command.MemoryCommand.TheVariants.{Solve};
ghost use Rattle.bk_answer.specs.WordAnswer.{AnswersWord, AnswersWordLine};

use crate::answer::{accepted, refuse};
use crate::items::Desk;
use bk_grammar::AnswerBuffer;
use bk_ports::{Failed, LONGEST_LINE, Outcome, Sink};
use bk_report::{Refused, write_tiling};
use bk_skel::{Realised, SolveFault, realise_in};
use bk_word::{Word, WordFault, read_word, word_item};
use std::alloc::Global;

// Answers a word line.
pub(crate) fn answer_word_line<O: Sink>(
    alloc: Global,
    line: &[u8],
    desk: &mut Desk,
    buffer: &mut AnswerBuffer,
    out: &mut O,
) -> Result<Outcome, Failed>
    ensures reply { IsReplyWith (AnswersWordLine line.now) (MayWant (Memory Solve) line.now) (O.written out.old)
        (O.written out.new) result }
    ensures cause { HasCause (O.faults out.old) (O.faults out.new) result }
{
    if line.len() > LONGEST_LINE {
        return refuse(Refused::Long, buffer, out);
    }
    let Some((start, end)) = word_item(line) else {
        return Ok(Outcome::Accepted);
    };
    match read_word(alloc, &line[start..end]) {
        Ok(word) => {
            // From this read the proof has it that there are at most 200 squares.
            let _few = word.order();
            answer_word(alloc, &word, desk, buffer, out)
        }
        Err(WordFault::Text { at }) => refuse(Refused::Text { at: start + at }, buffer, out),
        Err(WordFault::Many) => refuse(Refused::Many, buffer, out),
        Err(WordFault::NoMemory) => Ok(Outcome::NoMemory),
    }
}

// Answers a word by its tiling.
fn answer_word<O: Sink>(
    alloc: Global,
    word: &Word,
    desk: &mut Desk,
    buffer: &mut AnswerBuffer,
    out: &mut O,
) -> Result<Outcome, Failed>
    requires { 0 < length word.now }
    ensures reply { IsReplyWith (AnswersWord word.now) (INLINE_ORDER < order_of word.now) (O.written out.old)
        (O.written out.new) result }
    ensures cause { HasCause (O.faults out.old) (O.faults out.new) result }
{
    match realise_in(alloc, word, &mut desk.room, &mut desk.tiling) {
        Ok(Realised::Found) => {
            write_tiling(&desk.tiling, buffer);
            accepted(out.write_all(buffer.as_slice()))
        }
        Ok(Realised::Nothing) => refuse(Refused::Nothing, buffer, out),
        Err(SolveFault::Illegal { place }) => refuse(Refused::Illegal { place }, buffer, out),
        Err(SolveFault::OpenEnd) => refuse(Refused::Unfinished, buffer, out),
        Err(SolveFault::Wide) => refuse(Refused::Wide, buffer, out),
        Err(SolveFault::NoMemory) => Ok(Outcome::NoMemory),
    }
}
