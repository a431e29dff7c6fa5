//! What stands behind the lines of a list: the missing members and the last line.

ghost use Rattle.std.specs.Prelude.{IfOk, OnErr, OnOk, [], ◌<◌, ◌≡◌, ◌≤◌};
ghost use Rattle.bk_ports.specs.Causes.{HasCause};
ghost use Rattle.bk_word.specs.declared.Class.TheVariants.{Perfect};
ghost use Rattle.bk_word.specs.declared.TheConstants.{LARGEST_LISTED_ORDER};
ghost use Rattle.bk_catalogue.specs.Following.{HasNoneAfter};
ghost use Rattle.bk_verify_report.specs.ReportEnd.{kept_of_rest};
ghost use Rattle.bk_verify_report.specs.KeptEntries.{AreKeptAfter};
ghost use Rattle.bk_verify_report.specs.MissingLines.{AreMissingListed, ClosesReport, IsClosingBegun, IsListingBegun};

use crate::entering::{LineCounts, Verifying};
use crate::missing_line::write_missing_entry;
use crate::rest::Rest;
use bk_grammar::AnswerBuffer;
use bk_members::Members;
use bk_play::Steps;
use bk_ports::{Failed, Sink};
use bk_report::{Last, ReportCounts, write_verified};
use std::alloc::Global;
use std::sync::ledger::{Blank, Ledger};

// Writes the missing members and the last line, and tells whether the list and the catalogue differ.
pub(crate) fn close_report<M: Members, L: Ledger, O: Sink>(
    alloc: Global,
    state: Verifying,
    blank: Blank,
    buffer: &mut AnswerBuffer,
    out: &mut O,
) -> Result<bool, Failed>
    requires name { blank.name ≡ L.name }
    requires parts { blank.parts ≡ L.parts }
    requires some { 0 < L.parts }
    requires most { state.entries.order ≤ LARGEST_LISTED_ORDER }
    ensures closed { IfOk result
        (λ differs. ClosesReport state.entries.order state differs (O.written out.old) (O.written out.new)) }
    ensures begun { OnErr result (IsClosingBegun state.entries.order state (O.written out.old) (O.written out.new)) }
    ensures cause { HasCause (O.faults out.old) (O.faults out.new) result }
{
    let Verifying { entries, lines } = state;
    let mut rest = Rest::<M>::of(alloc, entries);
    let mut steps = Steps::<L>::new(blank);
    close_rest(&mut rest, lines, &mut steps, buffer, out)
}

// Writes the missing members and the last line by what is left of the members, which no line was written of yet, and by
// the counts of the lines.
fn close_rest<M: Members, L: Ledger, O: Sink>(
    rest: &mut Rest<M>,
    lines: LineCounts,
    steps: &mut Steps<L>,
    buffer: &mut AnswerBuffer,
    out: &mut O,
) -> Result<bool, Failed>
    requires most { rest.old.walk.order ≤ LARGEST_LISTED_ORDER }
    requires start { rest.old.walk.cursor ≡ [] }
    ensures closed { IfOk result (λ differs.
        ClosesReport rest.old.walk.order (kept_of_rest rest.old lines) differs (O.written out.old) (O.written out.new)) }
    ensures begun { OnErr result
        (IsClosingBegun rest.old.walk.order (kept_of_rest rest.old lines) (O.written out.old)
        (O.written out.new)) }
    ensures cause { HasCause (O.faults out.old) (O.faults out.new) result }
{
    let missing = write_missing_members(rest, steps, buffer, out)?;
    let counts = ReportCounts {
        members: rest.members(),
        missing,
        foreign: lines.foreign,
        repeated: lines.repeated,
        refused: lines.refused,
    };
    write_verified(
        Last::End,
        rest.order(),
        counts.in_order(),
        rest.cursor(),
        buffer,
    );
    out.write_all(buffer.as_slice())?;
    Ok(counts.has_fault())
}

// Writes a line for each missing member, ascending, each by one call, and gives how many there are.
fn write_missing_members<M: Members, L: Ledger, O: Sink>(
    rest: &mut Rest<M>,
    steps: &mut Steps<L>,
    buffer: &mut AnswerBuffer,
    out: &mut O,
) -> Result<u64, Failed>
    requires most { rest.old.walk.order ≤ LARGEST_LISTED_ORDER }
    requires start { rest.old.walk.cursor ≡ [] }
    ensures listed { IfOk result
        (λ missing. AreMissingListed (record { order = rest.old.walk.order; pairs = rest.old.pairs })
        rest.new.walk.cursor missing (O.written out.old) (O.written out.new)) }
    ensures all { OnOk result (AreKeptAfter rest.old.walk.order rest.old.pairs rest.new.walk.cursor) }
    ensures ended { OnOk result (HasNoneAfter rest.old.walk.order Perfect rest.new.walk.cursor) }
    ensures begun { OnErr result
        (IsListingBegun rest.old.walk.order rest.old.pairs (O.written out.old) (O.written out.new)) }
    ensures cause { HasCause (O.faults out.old) (O.faults out.new) result }
    ensures order { rest.new.walk.order ≡ rest.old.walk.order }
{
    let mut entry = rest.entry_room();
    let mut missing: u64 = 0;
    'members: while rest.advance_in(steps, &mut entry) {
        write_missing_entry(&entry.tiling, &entry.code, &entry.word, buffer, out)?;
        missing += 1;
    }
    Ok(missing)
}
