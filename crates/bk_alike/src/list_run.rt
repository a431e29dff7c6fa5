//! The run of a command that lists lines.

ghost use Rattle.bk_ports.specs.Ending.{EndsWith, streams_between};
ghost use Rattle.bk_ports.specs.Faults.{CountsTell, IsCalm, IsDoneOrWanting, faults_between};
ghost use Rattle.bk_alike.specs.GroupsEnd.{list_output};
ghost use Rattle.bk_alike.specs.Listed.{listing_start};
ghost use Rattle.std.specs.Prelude.{◌≡◌};

use crate::Wanted;
use crate::closing::write_closing;
use crate::listed::ItemList;
use bk_ports::{Ended, Failed, Sink, Source, enter_lines};
use std::alloc::Global;

/// Reads lines of codes to the end of the source, keeps the canonical tiling of each accepted one, at most 16,384 of
/// them, and answers each refused line by its number and the cause. Behind them it writes what is wanted: the items
/// grouped by size, or the pairs of items that two squares complete to a square (Brooks, Smith, Stone and Tutte 1940),
/// and a last line with counts.
pub fn list_lines<S: Source, O: Sink>(
    alloc: Global,
    wanted: Wanted,
    source: &mut S,
    out: &mut O,
) -> Ended
    // What each ending says of the bytes.
    ensures ending { EndsWith (list_output wanted)
        (streams_between S.left O.written (source.old, out.old) (source.new, out.new))
        result }

    // Where nothing goes wrong, all is written, or memory is wanting.
    ensures complete { IsCalm (S.left source.old)
        (faults_between S.faults O.faults (source.old, out.old) (source.new, out.new))
        → IsDoneOrWanting result }

    // What the ending tells of the counts of faults.
    ensures faults { CountsTell result
        (faults_between S.faults O.faults (source.old, out.old) (source.new, out.new)) }
{
    let mut list = ItemList::new(alloc);
    list_into(&mut list, wanted, source, out)
}

// Lists lines by an item list that has no items or refused lines yet.
fn list_into<S: Source, O: Sink>(
    list: &mut ItemList,
    wanted: Wanted,
    source: &mut S,
    out: &mut O,
) -> Ended
    requires { list.old ≡ listing_start.state }
    ensures ending { EndsWith (list_output wanted)
        (streams_between S.left O.written (source.old, out.old) (source.new, out.new))
        result }
    ensures complete { IsCalm (S.left source.old)
        (faults_between S.faults O.faults (source.old, out.old) (source.new, out.new))
        → IsDoneOrWanting result }
    ensures faults { CountsTell result
        (faults_between S.faults O.faults (source.old, out.old) (source.new, out.new)) }
{
    let ended = enter_lines(list, source, out);
    match ended {
        Ended::NoneRefused | Ended::SomeRefused => match write_closing(wanted, list, out) {
            Ok(()) => ended,
            Err(Failed) => Ended::WriteFailed,
        },
        Ended::ReadFailed | Ended::WriteFailed | Ended::NoMemory | Ended::TooMany => ended,
    }
}
