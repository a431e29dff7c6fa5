//! Lists that are read to their end.

ghost use Rattle.std.specs.Prelude.{◌≤◌};
ghost use Rattle.bk_ports.specs.Ending.{streams_between};
ghost use Rattle.bk_ports.specs.Faults.{faults_between};
ghost use Rattle.bk_word.specs.declared.TheConstants.{LARGEST_LISTED_ORDER, LEAST_LISTED_ORDER};
ghost use Rattle.bk_alike.specs.GroupsEnd.{list_output};
ghost use Rattle.bk_verify_report.specs.VerifyRun.{report_of};
ghost use Rattle.bk_top.specs.ReadsToEnd.{ReadsToEnd};

use crate::run_status::status;
use bk_alike::{Wanted, list_lines};
use bk_ports::{Sink, Source};
use bk_verify_report::verify;
use bk_walk::Walk;
use std::alloc::Global;

// Lists the lines, and gives the status.
#[inline(never)]
pub(crate) fn list_to_end<S: Source, O: Sink>(
    alloc: Global,
    wanted: Wanted,
    source: &mut S,
    out: &mut O,
) -> u8
    ensures { ReadsToEnd (list_output wanted)
        (streams_between S.left O.written (source.old, out.old) (source.new, out.new))
        (faults_between S.faults O.faults (source.old, out.old) (source.new, out.new))
        result }
{
    status(list_lines(alloc, wanted, source, out))
}

// Holds the list against the catalogue of an order, and gives the status.
#[inline(never)]
pub(crate) fn verify_list<S: Source, O: Sink>(
    alloc: Global,
    order: u8,
    source: &mut S,
    out: &mut O,
) -> u8
    requires least { LEAST_LISTED_ORDER ≤ order }
    requires most { order ≤ LARGEST_LISTED_ORDER }
    ensures { ReadsToEnd (report_of order)
        (streams_between S.left O.written (source.old, out.old) (source.new, out.new))
        (faults_between S.faults O.faults (source.old, out.old) (source.new, out.new))
        result }
{
    status(verify::<Walk, S, O>(alloc, order, source, out))
}
