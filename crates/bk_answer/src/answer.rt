//! The answer to a line.

ghost use Rattle.std.specs.Prelude.{IfOk, OnErr, ◌≡◌};
ghost use Rattle.bk_ports.specs.Causes.{AppendsPrefix, HasCause};
ghost use Rattle.std.specs.Io.KnownBytes.{Appends};
ghost use Rattle.bk_report.specs.Refusals.{refusal_line};
ghost use Rattle.bk_answer.specs.Replies.{accepted_if};

use crate::by_word::answer_by_word;
use crate::command::MemoryCommand;
use crate::flow::answer_net_line;
use crate::items::Desk;
use crate::solve::answer_word_line;
use bk_grammar::AnswerBuffer;
use bk_ports::{Answerer, Failed, Outcome, Sink};
use bk_report::{Refused, write_refused};
use std::alloc::Global;

/// A command that answers lines and takes memory for large items, and where it takes that from.
#[derive(Clone, Copy)]
pub struct MemoryAnswerer {
    /// What is asked of each line.
    pub command: MemoryCommand,
    /// Where memory comes from.
    pub alloc: Global,
}

impl Answerer for MemoryAnswerer {
    ghost use Rattle.bk_answer.specs.Answer.{AnswersLine, MayWant};
    ghost use Rattle.bk_answer.specs.declared.command.Command.TheVariants.{Memory};

    ghost answers = { λ a. AnswersLine (Memory a.command) };

    ghost may_want = { λ a. MayWant (Memory a.command) };

    type Desk = Desk;

    fn desk(&self) -> Desk {
        Desk::new()
    }

    fn answer<O: Sink>(
        &self,
        line: &[u8],
        desk: &mut Desk,
        buffer: &mut AnswerBuffer,
        out: &mut O,
    ) -> Result<Outcome, Failed> {
        match self.command {
            MemoryCommand::Word => answer_by_word(self.alloc, line, desk, buffer, out),
            MemoryCommand::Flow => answer_net_line(self.alloc, line, buffer, out),
            MemoryCommand::Solve => answer_word_line(self.alloc, line, desk, buffer, out),
        }
    }

    ghost use Rattle.bk_answer.specs.EmptyLine.{no_answer_to_empty};

    ghost empty_line = { λ a. no_answer_to_empty (Memory a.command) };
}

// Answers by the line of a refusal.
pub(crate) fn refuse<O: Sink>(
    refused: Refused,
    buffer: &mut AnswerBuffer,
    out: &mut O,
) -> Result<Outcome, Failed>
    ensures outcome { IfOk result (λ outcome. (outcome ≡ Outcome.Refused)
        × Appends (O.written out.old) (O.written out.new) (refusal_line refused)) }
    ensures failed { OnErr result (AppendsPrefix (O.written out.old) (O.written out.new) (refusal_line refused)) }
    ensures cause { HasCause (O.faults out.old) (O.faults out.new) result }
{
    write_refused(&refused, buffer);
    out.write_all(buffer.as_slice())?;
    Ok(Outcome::Refused)
}

// What a call that writes an answer comes to.
pub(crate) fn accepted(written: Result<(), Failed>) -> Result<Outcome, Failed>
    ensures { result ≡ accepted_if written }
{
    written?;
    Ok(Outcome::Accepted)
}
