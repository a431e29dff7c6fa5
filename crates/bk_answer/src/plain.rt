//! The commands that read codes and take no memory: nothing on their way has an allocator.

ghost use Rattle.std.specs.Prelude.{IsTrue, ◌↔◌, ◌≡◌};
ghost use Rattle.bk_ports.specs.Causes.{HasCause};
ghost use Rattle.bk_tiling.specs.Tiling.{IsTiling, Tiling as Seen};
ghost use Rattle.bk_sym.specs.Canonical.{IsCanonicalOf};
ghost use Rattle.bk_report.specs.Answers.{tiling_line};
ghost use Rattle.bk_answer.specs.CodeAnswer.{AnswersCodeLine, AnswersTiling};
ghost use Rattle.bk_answer.specs.declared.command.Command.TheVariants.{Plain};
ghost use Rattle.bk_answer.specs.Replies.{IsReplyWith};
ghost use Rattle.bk_answer.specs.Telling.{Allows, TellsPieces};

use crate::answer::{accepted, refuse};
use crate::images_and_drawing::{write_drawing, write_images};
use crate::items::{Desk, lay_line};
use bk_draw::LARGEST_DRAWN;
use bk_grammar::AnswerBuffer;
use bk_ports::{Answerer, Failed, Outcome, Sink};
use bk_report::{Refused, write_check, write_dual, write_net, write_tiling};
use bk_sym::canonical;
use bk_tiling::Tiling;

/// A command that reads lines of codes and takes no memory.
#[derive(Clone, Copy)]
pub enum PlainCommand {
    /// Whether a code is that of a tiling, and what the tiling is.
    Check,
    /// The canonical tiling.
    Canon,
    /// The eight images: turned and mirrored.
    Images,
    /// The Smith diagram, and the sides as its currents.
    Net,
    /// The dual diagram, the sides as its currents, the squares of its wires, and the crossings.
    Dual,
    /// A drawing in characters, where it is at most 400 wide and 400 high.
    Draw,
}

/// A command that answers lines and takes no memory.
#[derive(Clone, Copy)]
pub struct PlainAnswerer {
    /// What is asked of each line.
    pub command: PlainCommand,
}

impl Answerer for PlainAnswerer {
    ghost use Rattle.bk_answer.specs.Plain.{PlainAnswers, PlainWants};

    ghost answers = { λ a. PlainAnswers a.command };

    ghost may_want = { λ a. PlainWants a.command };

    type Desk = Desk;

    fn desk(&self) -> Desk {
        Desk::new()
    }

    fn answer<O: Sink>(
        &self,
        line: &[u8],
        desk: &mut Desk,
        buffer: &mut AnswerBuffer,
        out: &mut O,
    ) -> Result<Outcome, Failed> {
        self.command.answer_line(line, desk, buffer, out)
    }

    ghost use Rattle.bk_answer.specs.EmptyLine.{no_plain_answer_to_empty};

    ghost empty_line = { λ a. no_plain_answer_to_empty a.command };
}

impl PlainCommand {
    // Answers a line of a code.
    pub(crate) fn answer_line<O: Sink>(
        self,
        line: &[u8],
        desk: &mut Desk,
        buffer: &mut AnswerBuffer,
        out: &mut O,
    ) -> Result<Outcome, Failed>
        ensures reply { IsReplyWith (AnswersCodeLine (Plain self) line.now) ⊥
            (O.written out.old) (O.written out.new) result }
        ensures cause { HasCause (O.faults out.old) (O.faults out.new) result }
    {
        match lay_line(line, desk) {
            Ok(Some(tiling)) => self.answer_tiling(tiling, buffer, out),
            Ok(None) => Ok(Outcome::Accepted),
            Err(refused) => refuse(refused, buffer, out),
        }
    }

    // Answers the tiling of a line.
    fn answer_tiling<O: Sink>(
        self,
        tiling: &Tiling,
        buffer: &mut AnswerBuffer,
        out: &mut O,
    ) -> Result<Outcome, Failed>
        requires { IsTiling tiling.now }
        ensures reply { IsReplyWith (AnswersTiling (Plain self) tiling.now) ⊥
            (O.written out.old) (O.written out.new) result }
        ensures cause { HasCause (O.faults out.old) (O.faults out.new) result }
    {
        if !self.allows(tiling) {
            return refuse(Refused::Large, buffer, out);
        }
        self.tell(tiling, buffer, out)
    }

    // Whether the command answers this tiling.
    fn allows(self, tiling: &Tiling) -> bool
        ensures { IsTrue result ↔ Allows (Plain self) tiling.now }
    {
        match self {
            PlainCommand::Draw => tiling.width() <= LARGEST_DRAWN
                && tiling.height() <= LARGEST_DRAWN,
            _ => true,
        }
    }

    // Writes what is told of a tiling.
    fn tell<O: Sink>(
        self,
        tiling: &Tiling,
        buffer: &mut AnswerBuffer,
        out: &mut O,
    ) -> Result<Outcome, Failed>
        requires tiling { IsTiling tiling.now }
        requires allowed { Allows (Plain self) tiling.now }
        ensures reply { IsReplyWith (TellsPieces (Plain self) tiling.now) ⊥
            (O.written out.old) (O.written out.new) result }
        ensures cause { HasCause (O.faults out.old) (O.faults out.new) result }
    {
        match self {
            PlainCommand::Check => write_check(tiling, buffer),
            PlainCommand::Canon => write_canonical(tiling, buffer),
            PlainCommand::Images => return accepted(write_images(tiling, buffer, out)),
            PlainCommand::Net => write_net(tiling, buffer),
            PlainCommand::Dual => write_dual(tiling, buffer),
            PlainCommand::Draw => return accepted(write_drawing(tiling, out)),
        }
        accepted(out.write_all(buffer.as_slice()))
    }
}

// Clears the buffer and leaves the line of the canonical tiling.
fn write_canonical(tiling: &Tiling, buffer: &mut AnswerBuffer)
    ensures { (c : Seen) × IsCanonicalOf tiling.now c × (buffer.new.items ≡ tiling_line c) }
{
    write_tiling(&canonical(tiling), buffer);
}
