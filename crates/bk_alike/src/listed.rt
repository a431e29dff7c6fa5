//! The items of a list, and the lines that are refused.

ghost use Rattle.std.specs.Prelude.{IfOk, OnErr, OnOk, ◌+◌, ◌<◌, ◌^◌, ◌≡◌};
ghost use Rattle.bk_ports.specs.WrittenAnswer.{HasOutcome, IsAnswerBegun};
ghost use Rattle.bk_ports.specs.Causes.{HasCause};

use crate::{AddFault, Alike};
use bk_answer::{Desk, lay_line};
use bk_grammar::AnswerBuffer;
use bk_ports::{Failed, Outcome, Register, Sink};
use bk_report::{Refused, write_line_refused};
use std::alloc::Global;
use std::marker::Model;

// The items that are kept, how many lines were refused, and the desk on which the lines are laid. It is seen without
// the desk.
#[derive(Drop)]
pub(crate) struct ItemList {
    items: Alike,
    refused: u64,
    desk: Desk,
}

impl Model for ItemList {
    ghost use Rattle.bk_alike.specs.Listed.{Listed};

    ghost Value = { Listed };

    ghost view = { λ s. record { items = s.items; refused = s.refused } };
}

impl ItemList {
    ghost use Rattle.bk_alike.specs.Listed.{listing_start, with_refused};
    ghost use Rattle.bk_report.specs.ListLines.{refused_line};
    ghost use Rattle.std.specs.Prelude.{Bool, List, [], ℕ, ◌∷◌, true, ◌≤◌};
    ghost use Rattle.std.specs.Io.KnownBytes.{Appends};
    ghost use Rattle.bk_ports.specs.Causes.{AppendsPrefix};

    // No items, and no refused lines.
    pub(crate) fn new(alloc: Global) -> ItemList
        ensures { result ≡ listing_start.state }
    {
        ItemList {
            items: Alike::new(alloc),
            refused: 0,
            desk: Desk::new(),
        }
    }

    // The items.
    pub(crate) fn items(&self) -> &Alike
        ensures { result.now ≡ self.now.items }
    {
        &self.items
    }

    // How many lines were refused.
    pub(crate) fn refused(&self) -> u64
        ensures { result ≡ self.now.refused }
    {
        self.refused
    }

    // Answers by a refusal.
    fn refuse<O: Sink>(
        &mut self,
        number: u64,
        refused: Refused,
        buffer: &mut AnswerBuffer,
        out: &mut O,
    ) -> Result<Outcome, Failed>
        requires { self.old.refused < 2 ^ 63 }
        ensures state { self.new ≡ with_refused self.old }
        ensures outcome { IfOk result (λ o. (o ≡ Outcome.Refused)
            × Appends (O.written out.old) (O.written out.new) (refused_line number refused)) }
        ensures failed { OnErr result
            (AppendsPrefix (O.written out.old) (O.written out.new) (refused_line number refused)) }
        ensures cause { HasCause (O.faults out.old) (O.faults out.new) result }
    {
        self.refused += 1;
        write_line_refused(number, &refused, buffer);
        out.write_all(buffer.as_slice())?;
        Ok(Outcome::Refused)
    }
}

impl Register for ItemList {
    ghost use Rattle.bk_alike.specs.Listed.{ListsLine, MayWantItem};
    ghost use Rattle.std.specs.Prelude.{◌<◌};

    ghost enters = { λ s number bytes pieces refused next.
        ListsLine s number bytes (record { pieces = pieces; refused = refused }) next };

    ghost may_want = { MayWantItem };

    ghost is_ready = { λ s number. s.refused < number };

    fn enter<O: Sink>(
        &mut self,
        number: u64,
        line: &[u8],
        buffer: &mut AnswerBuffer,
        out: &mut O,
    ) -> Result<Outcome, Failed> {
        match lay_line(line, &mut self.desk) {
            Ok(None) => Ok(Outcome::Accepted),
            Ok(Some(tiling)) => match self.items.add(number, tiling) {
                Ok(()) => Ok(Outcome::Accepted),
                Err(AddFault::Full) => self.refuse(number, Refused::More, buffer, out),
                Err(AddFault::NoMemory) => Ok(Outcome::NoMemory),
            },
            Err(refused) => self.refuse(number, refused, buffer, out),
        }
    }

    ghost use Rattle.bk_alike.specs.EmptyIsSkipped.{empty_is_skipped, refused_below_next};

    ghost empty_line = { empty_is_skipped };

    ghost still_ready = { refused_below_next };
}
