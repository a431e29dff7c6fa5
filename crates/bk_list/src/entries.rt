//! The entries of a listing, written as soon as each is known.

ghost use Rattle.std.specs.Prelude.{IfOk, IsTrue, OnErr, Some, false, ◌-◌, ◌≡◌, ◌≤◌};
ghost use Rattle.bk_ports.specs.Causes.{HasCause};
ghost use Rattle.bk_catalogue.specs.Tree.{IsAtMostTree};
ghost use Rattle.bk_word.specs.declared.TheConstants.{LARGEST_LISTED_ORDER};
ghost use Rattle.bk_list.specs.Stepping.{AreNextSteps, IsReached, StoppedAtEntry};
ghost use Rattle.bk_list.specs.ListedMembers.{catalogue_of, listing_of};
ghost use Rattle.bk_list.specs.Writing.{BeginsListing, HasEntries, IsNext, IsNextBegun};

use bk_grammar::AnswerBuffer;
use bk_members::{Entry, Members};
use bk_play::Steps;
use bk_ports::{Failed, Sink};
use bk_report::{Last, write_entry};
use std::sync::ledger::Ledger;

// Room for an entry and for its line.
#[derive(Drop)]
pub(crate) struct EntryRoom {
    pub entry: Entry,
    pub buffer: AnswerBuffer,
}

// Writes the entries of a listing, up to its end, and gives how it ends and how many entries it has.
pub(crate) fn write_entries<M: Members, L: Ledger, O: Sink>(
    members: &mut M,
    limit: Option<u64>,
    steps: &mut Steps<L>,
    room: &mut EntryRoom,
    out: &mut O,
) -> Result<(Last, u64), Failed>
    requires { (M.at members.old).order ≤ LARGEST_LISTED_ORDER }
    ensures ended { let l = listing_of (M.at members.old) limit in
        IfOk result (λ r. (lines : HasEntries l r.0 r.1 (O.written out.old) (O.written out.new))
        × IsReached l r.0 lines.entries (M.at members.new).cursor (steps.new - steps.old)) }
    ensures begun { let l = listing_of (M.at members.old) limit in
        OnErr result (BeginsListing l (O.written out.old) (O.written out.new)) }
    ensures cause { HasCause (O.faults out.old) (O.faults out.new) result }
    ensures stopped { let l = listing_of (M.at members.old) limit in
        OnErr result (StoppedAtEntry l (O.written out.old) (O.written out.new) (M.at members.new).cursor
        (steps.new - steps.old)) }
    ensures catalogue { catalogue_of (M.at members.new) ≡ catalogue_of (M.at members.old) }
{
    let mut listed: u64 = 0;
    'entries: loop {
        if is_reached(limit, listed) {
            return Ok((Last::Limit, listed));
        }
        let is_there = write_next(members, steps, room, out)?;
        if !is_there {
            return Ok((Last::End, listed));
        }
        listed += 1;
    }
}

// Whether as many entries are listed as the limit allows.
fn is_reached(limit: Option<u64>, listed: u64) -> bool
    ensures yes { IsTrue result → limit ≡ Some listed }
    ensures no { result ≡ false → limit ≡ Some listed → ⊥ }
{
    matches!(limit, Some(most) if most == listed)
}

// Writes the entry of the next member, by one call, and gives whether there was a member.
fn write_next<M: Members, L: Ledger, O: Sink>(
    members: &mut M,
    steps: &mut Steps<L>,
    room: &mut EntryRoom,
    out: &mut O,
) -> Result<bool, Failed>
    ensures next { let from = M.at members.old in let then = M.at members.new in
        IfOk result (IsNext from then (O.written out.old) (O.written out.new)) }
    ensures begun { let from = M.at members.old in let then = M.at members.new in
        OnErr result (IsNextBegun from then (O.written out.old) (O.written out.new)) }
    ensures cause { HasCause (O.faults out.old) (O.faults out.new) result }
    ensures catalogue { catalogue_of (M.at members.new) ≡ catalogue_of (M.at members.old) }
    ensures steps { let from = M.at members.old in let then = M.at members.new in
        IfOk result (λ is_there. AreNextSteps is_there from.order from.cursor then.cursor (steps.new - steps.old)) }
    ensures stopped { let from = M.at members.old in let then = M.at members.new in
        OnErr result (IsAtMostTree from.order from.cursor (Some then.cursor) (steps.new - steps.old)) }
{
    let EntryRoom { entry, buffer } = room;
    if !members.advance_in(steps, entry) {
        return Ok(false);
    }
    write_entry(&entry.tiling, &entry.code, &entry.word, buffer);
    out.write_all(buffer.as_slice())?;
    Ok(true)
}
