//! The lines of a list, entered one after another.

ghost use Rattle.std.specs.Prelude.{IfOk, List, OnErr, OnOk, ℕ, ◌+◌, ◌≡◌, ◌≤◌};
ghost use Rattle.bk_ports.specs.WrittenAnswer.{HasOutcome, IsAnswerBegun};
ghost use Rattle.bk_ports.specs.Causes.{HasCause};
ghost use Rattle.bk_ports.specs.declared.line.TheConstants.{LARGEST_LINE_NUMBER};
ghost use Rattle.bk_word.specs.declared.TheConstants.{LARGEST_LISTED_ORDER, LEAST_LISTED_ORDER};
ghost use Rattle.bk_answer.specs.Item.{HasTiling};

use crate::{Entries, Fed, NoMemory};
use bk_answer::{Desk, lay_line};
use bk_grammar::AnswerBuffer;
use bk_ports::{Failed, Outcome, Register, Sink};
use bk_report::{write_foreign, write_line_refused, write_repeats};
use bk_tiling::Tiling;
use std::alloc::Global;
use std::marker::Model;

/// How many lines of a list were foreign, repeated an earlier one and were refused.
#[derive(Clone, Copy)]
pub(crate) struct LineCounts {
    pub foreign: u64,
    pub repeated: u64,
    pub refused: u64,
}

/// What a run keeps of the lines: the members that were seen, and the counts.
#[derive(Drop)]
pub(crate) struct Verifying {
    pub entries: Entries,
    pub lines: LineCounts,
}

// The register of a run: what it keeps of the lines, and the desk on which they are laid. It is seen as what it keeps.
#[derive(Drop)]
pub(crate) struct VerifyRegister {
    kept: Verifying,
    desk: Desk,
}

ghost use Rattle.bk_verify_report.specs.ListLine.{CountsAreBelow, EntersLine, MayWantAt, none_entered};
ghost use Rattle.bk_verify_report.specs.declared.entering.Verifying.{Verifying};

impl Model for VerifyRegister {
    ghost Value = { Verifying };

    ghost view = { λ r. r.kept };
}

impl VerifyRegister {
    // A register for the catalogue of an order. No line is entered.
    pub(crate) fn new(alloc: Global, order: u8) -> VerifyRegister
        requires least { LEAST_LISTED_ORDER ≤ order }
        requires most { order ≤ LARGEST_LISTED_ORDER }
        ensures { result ≡ none_entered order }
    {
        VerifyRegister {
            kept: Verifying {
                entries: Entries::new(alloc, order),
                lines: LineCounts {
                    foreign: 0,
                    repeated: 0,
                    refused: 0,
                },
            },
            desk: Desk::new(),
        }
    }

    // What is kept of the lines.
    pub(crate) fn into_kept(self) -> Verifying
        ensures { result ≡ self }
    {
        self.kept
    }
}

impl Register for VerifyRegister {
    ghost use Rattle.bk_verify_report.specs.EmptyIsPassedOver.{counts_below_next, empty_is_passed_over};

    ghost enters = { λ s number line pieces refused next.
        EntersLine s number line (record { pieces = pieces; refused = refused }) next };

    ghost may_want = { MayWantAt };

    ghost is_ready = { CountsAreBelow };

    fn enter<O: Sink>(
        &mut self,
        number: u64,
        line: &[u8],
        buffer: &mut AnswerBuffer,
        out: &mut O,
    ) -> Result<Outcome, Failed> {
        match lay_line(line, &mut self.desk) {
            Ok(None) => Ok(Outcome::Accepted),
            Ok(Some(tiling)) => feed(&mut self.kept, number, tiling, buffer, out),
            Err(refused) => {
                self.kept.lines.refused += 1;
                write_line_refused(number, &refused, buffer);
                out.write_all(buffer.as_slice())?;
                Ok(Outcome::Refused)
            }
        }
    }

    ghost empty_line = { empty_is_passed_over };

    ghost still_ready = { counts_below_next };
}

// Feeds the tiling of a line of this number, whichever line states it, and writes what is told of it.
fn feed<O: Sink>(
    state: &mut Verifying,
    number: u64,
    tiling: &Tiling,
    buffer: &mut AnswerBuffer,
    out: &mut O,
) -> Result<Outcome, Failed>
    requires early { number ≤ LARGEST_LINE_NUMBER }
    requires ready { CountsAreBelow state.old number }
    ensures outcome { (line : List ℕ) → HasTiling line tiling.now → IfOk result
        (λ o. HasOutcome (λ pieces refused. EntersLine state.old number line
        (record { pieces = pieces; refused = refused }) state.new)
        (MayWantAt state.old number line) (O.written out.old) (O.written out.new) o) }
    ensures failed { (line : List ℕ) → HasTiling line tiling.now → OnErr result
        (IsAnswerBegun (λ pieces refused. (last : Verifying)
        × EntersLine state.old number line (record { pieces = pieces; refused = refused }) last)
        (O.written out.old) (O.written out.new)) }
    ensures cause { HasCause (O.faults out.old) (O.faults out.new) result }
    ensures ready { OnOk result (CountsAreBelow state.new (number + 1)) }
{
    match state.entries.feed(number, tiling) {
        Err(NoMemory) => Ok(Outcome::NoMemory),
        Ok(Fed::New) => Ok(Outcome::Accepted),
        Ok(Fed::Repeats { line: first }) => {
            state.lines.repeated += 1;
            write_repeats(number, first, buffer);
            out.write_all(buffer.as_slice())?;
            Ok(Outcome::Accepted)
        }
        Ok(Fed::Foreign) => {
            state.lines.foreign += 1;
            write_foreign(number, buffer);
            out.write_all(buffer.as_slice())?;
            Ok(Outcome::Accepted)
        }
    }
}
