//! What a table of members tells of those from a number on.
#![tactic(auto)]

ghost use Rattle.std.specs.Prelude.{◌≡◌, ◌≤◌};
ghost use Rattle.bk_walk.specs.Leaping.{Tells};

use crate::MemberTable;
use bk_word::Class;

/// The most members that the table of a walk has room for: enough for all of an order up to 16.
pub const MOST_MEMBERS: usize = 10_240;

/// The least order of which a walk makes a table. Walks of lower orders push few moves, so a listing that is stopped
/// and continued pushes hardly more of them than a whole one.
pub(crate) const LEAST_TABLED_ORDER: u8 = 10;

/// How many moves a walk pushes before it makes a table.
pub(crate) const PUSHES_BEFORE_A_TABLE: u64 = 128;

// What a table tells of the members whose numbers aren't below a number.
#[derive(Clone, Copy)]
pub(crate) enum TableAnswer {
    // this is the least
    Next(u128),
    // there is none
    NoMore,
    // it doesn't tell
    Unknown,
}

// What the table tells of the members of this order and class whose numbers aren't below this one. A table of another
// order or class, or one that begins at a greater number, tells nothing; nor does one that was cut, of those above its
// greatest.
pub(crate) fn answer_of_table<const ROOM: usize>(
    table: &MemberTable<ROOM>,
    order: u8,
    class: Class,
    number: u128,
) -> TableAnswer
    ensures { Tells order class number result }
{
    if table.order() != order || table.class() != class || number < table.from() {
        return TableAnswer::Unknown;
    }
    match table.next_from(number) {
        Some(next) => TableAnswer::Next(next),
        None => {
            if table.is_cut() {
                TableAnswer::Unknown
            } else {
                TableAnswer::NoMore
            }
        }
    }
}
