//! A verifier: it is fed the entries of a list, tells what each of them is, and hands on what it keeps.

ghost use Rattle.std.specs.Prelude.{IfOk, OnErr, [], ◌≡◌, ◌≤◌};
ghost use Rattle.bk_word.specs.declared.TheConstants.{LARGEST_LISTED_ORDER, LEAST_LISTED_ORDER};
ghost use Rattle.bk_verify_report.specs.KeptEntries.{IsFed, IsFirstSight, AreKeptEntries};
ghost use Rattle.bk_verify_report.specs.Rest.{rest_of};

use crate::Rest;
use bk_tiling::Tiling;
use bk_verify_report::{Entries, Fed, NoMemory};
use std::alloc::Global;
use std::marker::Model;

/// A verifier of a list against the perfect catalogue of an order. It is seen as the order and the list of the pairs,
/// each a line and the canonical tiling that was new there, in the order of first sight.
#[derive(Drop)]
pub struct Verifier {
    alloc: Global,
    entries: Entries,
}

impl Model for Verifier {
    ghost use Rattle.bk_verify_report.specs.KeptEntries.{AreKeptEntries, EntriesState};

    ghost Value = { EntriesState };

    ghost view = { λ v. v.entries };

    ghost invariant = { λ v. AreKeptEntries v.entries };
}

impl Verifier {
    /// A verifier against the catalogue of an order, which is 2 to 16. It keeps nothing yet, and takes no memory.
    pub fn new(alloc: Global, order: u8) -> Verifier
        requires least { LEAST_LISTED_ORDER ≤ order }
        requires most { order ≤ LARGEST_LISTED_ORDER }
        ensures { result ≡ record { order = order; pairs = [] } }
    {
        let entries = Entries::new(alloc, order);
        Verifier { alloc, entries }
    }

    /// Feeds the entry of a line, and tells what it is: by its canonical tiling alone, which is a member where it has
    /// as many squares as the order and is perfect and simple. A member that isn't kept is kept from this line, unless
    /// there is no memory for it: then, as after each other answer, the verifier is as before.
    pub fn feed(&mut self, line: u64, tiling: &Tiling) -> Result<Fed, NoMemory>
        ensures fed { IfOk result (λ fed. IsFed self.old line tiling.now fed self.new) }
        ensures unchanged { OnErr result (self.new ≡ self.old) }
        ensures wanting { OnErr result (IsFirstSight self.old tiling.now) }
        ensures kept { AreKeptEntries self.new }
    {
        self.entries.feed(line, tiling)
    }

    /// Hands on what it keeps, to name the members that no entry had. It takes no memory.
    pub fn finish(self) -> Rest
        ensures { result ≡ rest_of self }
    {
        Rest::of(self.alloc, self.entries)
    }
}
