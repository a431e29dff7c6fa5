//! A listing of the catalogue.

ghost use Rattle.std.specs.Prelude.{IfOk, OnErr, ◌<◌, ◌≡◌, ◌≤◌};
ghost use Rattle.bk_ports.specs.Causes.{HasCause};
ghost use Rattle.bk_word.specs.Word.{order_of};
ghost use Rattle.bk_word.specs.declared.TheConstants.{LARGEST_LISTED_ORDER, LEAST_LISTED_ORDER};
ghost use Rattle.bk_catalogue.specs.Following.{start_cursor};
ghost use Rattle.bk_list.specs.ListedMembers.{listing_of};
ghost use Rattle.bk_list.specs.Writing.{BeginsListing, StandsBehind, WritesListing};
ghost use Rattle.bk_top.specs.Words.{listing_asked};

use bk_list::write_listing;
use bk_members::Members;
use bk_play::Steps;
use bk_ports::{Failed, Sink};
use bk_report::Last;
use bk_word::{Class, Word};
use std::alloc::Global;
use std::marker::Brand;
use std::sync::ledger::{Blank, Ledger};

// What is asked of a catalogue: its order and its class, the word after which a listing begins, and a limit of it.
#[derive(Drop)]
pub struct AskedListing {
    pub order: u8,
    pub class: Class,
    pub from: Option<Word>,
    pub limit: Option<u64>,
}

// Writes the listing that is asked by members of this kind.
#[inline(never)]
pub(crate) fn list_catalogue<M: Members, O: Sink>(
    alloc: Global,
    asked: AskedListing,
    out: &mut O,
) -> Result<Last, Failed>
    requires least { LEAST_LISTED_ORDER ≤ asked.order }
    requires most { asked.order ≤ LARGEST_LISTED_ORDER }
    requires few { order_of (start_cursor asked.from) ≤ LARGEST_LISTED_ORDER }
    ensures listed { IfOk result
        (λ last. WritesListing (listing_asked asked) last (O.written out.old) (O.written out.new)) }
    ensures begun { OnErr result (BeginsListing (listing_asked asked) (O.written out.old) (O.written out.new)) }
    ensures cause { HasCause (O.faults out.old) (O.faults out.new) result }
{
    let AskedListing {
        order,
        class,
        from,
        limit,
    } = asked;
    let mut members = M::after(alloc, order, class, from);
    list_members::<M, Brand, O>(Blank::new(1), &mut members, limit, out)
}

// Writes the listing of these members, whose steps nobody else counts.
fn list_members<M: Members, L: Ledger, O: Sink>(
    blank: Blank,
    members: &mut M,
    limit: Option<u64>,
    out: &mut O,
) -> Result<Last, Failed>
    requires name { blank.name ≡ L.name }
    requires parts { blank.parts ≡ L.parts }
    requires some { 0 < L.parts }
    requires most { (M.at members.old).order ≤ LARGEST_LISTED_ORDER }
    ensures listed { let l = listing_of (M.at members.old) limit in
        IfOk result (λ last. WritesListing l last (O.written out.old) (O.written out.new)) }
    ensures begun { let l = listing_of (M.at members.old) limit in OnErr result
        (BeginsListing l (O.written out.old) (O.written out.new)) }
    ensures cause { HasCause (O.faults out.old) (O.faults out.new) result }
    ensures stands { let l = listing_of (M.at members.old) limit in IfOk result
        (λ last. StandsBehind l last (M.at members.new).cursor) }
{
    let mut steps = Steps::<L>::new(blank);
    write_listing(members, limit, &mut steps, out)
}
