//! What is written behind the lines of a list.

ghost use Rattle.std.specs.List.{AllByRecursion, flat_map};
ghost use Rattle.std.specs.Prelude.{Some, length, slice_get, ◌<◌, ◌≡◌, ℕ};
ghost use Rattle.bk_ports.specs.Causes.{HasCause};
ghost use Rattle.bk_alike.specs.Alike.{sizes};
ghost use Rattle.bk_alike.specs.GroupsEnd.{closing_lines, group_lines, member_at};
ghost use Rattle.bk_alike.specs.WrittenLines.{WritesLines};

use crate::listed::ItemList;
use crate::pairs::write_all_pairs;
use crate::{Alike, Wanted};
use bk_grammar::AnswerBuffer;
use bk_ports::{Failed, Sink};
use bk_report::{write_alike, write_group, write_member, write_pairs};

// Writes what is wanted behind the lines, and a last line.
pub(crate) fn write_closing<O: Sink>(
    wanted: Wanted,
    list: &ItemList,
    out: &mut O,
) -> Result<(), Failed>
    ensures lines { WritesLines (closing_lines wanted list.now) (O.written out.old) (O.written out.new) result }
    ensures cause { HasCause (O.faults out.old) (O.faults out.new) result }
{
    let items = list.items();
    let (kept, refused) = (items.len() as u64, list.refused());
    let mut buffer = AnswerBuffer::new();
    match wanted {
        Wanted::Groups => {
            write_groups(items, &mut buffer, out)?;
            write_alike(items.groups() as u64, kept, refused, &mut buffer);
            out.write_all(buffer.as_slice())
        }
        Wanted::Pairs(kind) => {
            let pairs = write_all_pairs(kind, items, &mut buffer, out)?;
            write_pairs(pairs, kept, refused, &mut buffer);
            out.write_all(buffer.as_slice())
        }
    }
}

// Writes all groups.
fn write_groups<O: Sink>(
    items: &Alike,
    buffer: &mut AnswerBuffer,
    out: &mut O,
) -> Result<(), Failed>
    ensures lines { WritesLines (flat_map (group_lines items.now) (sizes items.now)) (O.written out.old)
        (O.written out.new) result }
    ensures cause { HasCause (O.faults out.old) (O.faults out.new) result }
{
    for g in 0..items.groups() {
        write_one_group(items, g, buffer, out)?;
    }
    Ok(())
}

// Writes a group: its size, and its items.
fn write_one_group<O: Sink>(
    items: &Alike,
    g: usize,
    buffer: &mut AnswerBuffer,
    out: &mut O,
) -> Result<(), Failed>
    requires { g < length (sizes items.now) }
    ensures lines { (a : ℕ × ℕ) → slice_get (sizes items.now) g ≡ Some a
        → WritesLines (group_lines items.now a) (O.written out.old) (O.written out.new) result }
    ensures cause { HasCause (O.faults out.old) (O.faults out.new) result }
{
    let (width, height) = items.size(g);
    let members = items.members(g);
    write_group(width, height, members.len() as u64, buffer);
    out.write_all(buffer.as_slice())?;
    write_members(items, members, buffer, out)
}

// Writes the items at these places.
fn write_members<O: Sink>(
    items: &Alike,
    places: &[u32],
    buffer: &mut AnswerBuffer,
    out: &mut O,
) -> Result<(), Failed>
    requires { AllByRecursion (λ place. place < length items.now) places.now }
    ensures lines { WritesLines (flat_map (member_at items.now) places.now) (O.written out.old)
        (O.written out.new) result }
    ensures cause { HasCause (O.faults out.old) (O.faults out.new) result }
{
    for place in places {
        let (line, tiling) = items.item(*place as usize);
        write_member(line, &tiling.tiling(), buffer);
        out.write_all(buffer.as_slice())?;
    }
    Ok(())
}
