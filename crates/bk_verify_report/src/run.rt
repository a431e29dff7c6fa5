//! A whole run.

ghost use Rattle.std.specs.Prelude.{◌≤◌};
ghost use Rattle.bk_ports.specs.Ending.{EndsWith, streams_between};
ghost use Rattle.bk_ports.specs.Faults.{CountsTell, IsCalm, IsDoneOrWanting, faults_between};
ghost use Rattle.bk_word.specs.declared.TheConstants.{LARGEST_LISTED_ORDER, LEAST_LISTED_ORDER};
ghost use Rattle.bk_verify_report.specs.VerifyRun.{report_of};

use crate::closing::close_report;
use crate::reading::read_list;
use bk_grammar::AnswerBuffer;
use bk_members::Members;
use bk_ports::{Ended, Failed, Sink, Source};
use std::alloc::Global;
use std::marker::Brand;
use std::sync::ledger::Blank;

/// Holds the codes on the lines of the source against the perfect catalogue of an order, which is 2 to 16, and writes
/// the report: in order of the lines which are foreign, repeat an earlier one or are refused; then the missing members,
/// ascending; and a last line with five counts. A list is held against the catalogue up to scale, turns and mirrors.
/// That there is a catalogue to hold it against is of Bouwkamp and Duijvestijn; the report is this project's own.
///
/// If the whole report is written and no write fails, the run ends with `NoneRefused` if nothing is missing, foreign,
/// repeated or refused, and with `SomeRefused` if something is. Otherwise it ends with `ReadFailed` or `WriteFailed`
/// after a failed read or write, with `TooMany` if the input has more than 2^30 bytes, or with `NoMemory`, which comes
/// only at a line whose tiling stands for a member that isn't kept yet.
pub fn verify<M: Members, S: Source, O: Sink>(
    alloc: Global,
    order: u8,
    source: &mut S,
    out: &mut O,
) -> Ended
    requires least { LEAST_LISTED_ORDER ≤ order }
    requires most { order ≤ LARGEST_LISTED_ORDER }

    // What each ending says of the bytes.
    ensures verified { EndsWith (report_of order)
        (streams_between S.left O.written (source.old, out.old) (source.new, out.new))
        result }

    // Where no call fails and at most 2^30 bytes come, the whole report is written, or memory is wanting.
    ensures complete { IsCalm (S.left source.old)
        (faults_between S.faults O.faults (source.old, out.old) (source.new, out.new))
        → IsDoneOrWanting result }

    // What the ending tells of the counts of faults.
    ensures faults { CountsTell result
        (faults_between S.faults O.faults (source.old, out.old) (source.new, out.new)) }
{
    match read_list(alloc, order, source, out) {
        Err(ended) => ended,
        Ok(list) => {
            let mut buffer = AnswerBuffer::new();
            match close_report::<M, Brand, O>(alloc, list, Blank::new(1), &mut buffer, out) {
                Ok(false) => Ended::NoneRefused,
                Ok(true) => Ended::SomeRefused,
                Err(Failed) => Ended::WriteFailed,
            }
        }
    }
}
