//! The lines of a whole list.

ghost use Rattle.std.specs.Prelude.{IfErr, IfOk, OnOk, ◌≡◌, ◌≤◌};
ghost use Rattle.bk_ports.specs.Ending.{EndsWith, streams_between};
ghost use Rattle.bk_ports.specs.Faults.{CountsTell, IsCalm, IsDoneOrWanting, faults_between};
ghost use Rattle.bk_word.specs.declared.TheConstants.{LARGEST_LISTED_ORDER, LEAST_LISTED_ORDER};
ghost use Rattle.bk_verify_report.specs.ListReading.{IsListRead};
ghost use Rattle.bk_verify_report.specs.VerifyRun.{report_of};

use crate::entering::{VerifyRegister, Verifying};
use bk_ports::{Ended, Sink, Source, enter_lines};
use std::alloc::Global;

/// Holds the codes on the lines of the source against the perfect catalogue of an order, which is 2 to 16, and writes
/// in order of the lines which are foreign, repeat an earlier one or are refused. Gives what is kept of them where all
/// were read, and else how the run ends.
pub(crate) fn read_list<S: Source, O: Sink>(
    alloc: Global,
    order: u8,
    source: &mut S,
    out: &mut O,
) -> Result<Verifying, Ended>
    requires least { LEAST_LISTED_ORDER ≤ order }
    requires most { order ≤ LARGEST_LISTED_ORDER }

    // Where all lines were read, no read and no write has failed.
    ensures read { IfOk result (IsListRead order
        (streams_between S.left O.written (source.old, out.old) (source.new, out.new))) }
    ensures reads { OnOk result (S.faults source.new ≡ S.faults source.old) }
    ensures writes { OnOk result (O.faults out.new ≡ O.faults out.old) }

    // What each other ending says of the bytes, and of the counts of faults.
    ensures stopped { IfErr result (EndsWith (report_of order)
        (streams_between S.left O.written (source.old, out.old) (source.new, out.new))) }
    ensures complete { IfErr result (λ ended. IsCalm (S.left source.old)
        (faults_between S.faults O.faults (source.old, out.old) (source.new, out.new))
        → IsDoneOrWanting ended) }
    ensures faults { IfErr result (λ ended. CountsTell ended
        (faults_between S.faults O.faults (source.old, out.old) (source.new, out.new))) }
{
    let mut register = VerifyRegister::new(alloc, order);
    let ended = enter_lines(&mut register, source, out);
    match ended {
        Ended::NoneRefused | Ended::SomeRefused => Ok(register.into_kept()),
        Ended::ReadFailed | Ended::WriteFailed | Ended::NoMemory | Ended::TooMany => Err(ended),
    }
}
