//! A whole listing.

ghost use Rattle.std.specs.Prelude.{IfOk, OnErr, ◌-◌, ◌≡◌, ◌≤◌};
ghost use Rattle.bk_ports.specs.Causes.{HasCause};
ghost use Rattle.bk_word.specs.declared.TheConstants.{LARGEST_LISTED_ORDER};
ghost use Rattle.bk_list.specs.Stepping.{TakesSteps, TookSteps};
ghost use Rattle.bk_list.specs.ListedMembers.{catalogue_of, listing_of};
ghost use Rattle.bk_list.specs.Writing.{BeginsListing, StandsBehind, WritesListing};

use crate::entries::{EntryRoom, write_entries};
use bk_grammar::AnswerBuffer;
use bk_members::Members;
use bk_play::Steps;
use bk_ports::{Failed, Sink};
use bk_report::{Last, write_last};
use std::sync::ledger::Ledger;

/// Writes the listing of these members: the entry line of each one, ascending by word, up to the limit if there is one;
/// and then the last line. Each line is one call, made as soon as the line is known. It gives how the listing ended: at
/// its limit, or because there are no more members; never at a wide word, since there is none
/// (`no_listing_ends_at_a_wide_word`). The members then go on behind the last entry, so nothing beyond the limit was
/// looked at.
///
/// The order is at most 16. If a write fails the answer is `Failed`, and what was written begins a listing. It takes no
/// memory. The catalogue's subject is that of Bouwkamp and Duijvestijn; words and their order are our own.
///
/// A step is a push of a move. A listing that ends because there are no more members takes at most as many steps as
/// there are legal words of at least one move and at most the order after the cursor, and 16 for each entry and 16
/// more; one that ends at its limit at most as many as there are of these up to the word of its last entry, and 16 for
/// each entry. If the write of an entry fails, it takes no more than one that ends at its limit with that entry, and
/// the members go on behind that entry; so no entry is looked for before the one before it is written. If the write of
/// the last line fails, it takes no more than the whole listing.
pub fn write_listing<M: Members, L: Ledger, O: Sink>(
    members: &mut M,
    limit: Option<u64>,
    steps: &mut Steps<L>,
    out: &mut O,
) -> Result<Last, Failed>
    requires most { (M.at members.old).order ≤ LARGEST_LISTED_ORDER }
    ensures listed { let l = listing_of (M.at members.old) limit in
        IfOk result (λ last. WritesListing l last (O.written out.old) (O.written out.new)) }
    ensures begun { let l = listing_of (M.at members.old) limit in
        OnErr result (BeginsListing l (O.written out.old) (O.written out.new)) }
    ensures cause { HasCause (O.faults out.old) (O.faults out.new) result }
    ensures stands { let l = listing_of (M.at members.old) limit in
        IfOk result (λ last. StandsBehind l last (M.at members.new).cursor) }
    ensures steps { let l = listing_of (M.at members.old) limit in
        IfOk result (λ last. TakesSteps l last (steps.new - steps.old)) }
    ensures stopped { let l = listing_of (M.at members.old) limit in
        OnErr result (TookSteps l (O.written out.old) (O.written out.new) (M.at members.new).cursor
        (steps.new - steps.old)) }
    ensures catalogue { catalogue_of (M.at members.new) ≡ catalogue_of (M.at members.old) }
{
    let mut room = EntryRoom {
        entry: members.entry_room(),
        buffer: AnswerBuffer::new(),
    };
    let (last, listed) = write_entries(members, limit, steps, &mut room, out)?;
    write_last(
        last,
        members.order(),
        members.class(),
        listed,
        members.cursor(),
        &mut room.buffer,
    );
    out.write_all(room.buffer.as_slice())?;
    Ok(last)
}
