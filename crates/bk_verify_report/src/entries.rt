//! The entries of a list, held against a catalogue: what each of them is, and what is kept of them.

ghost use Rattle.std.specs.Prelude.{IfOk, MatchOption, OnErr, [], length, ◌≡◌, ◌≤◌};
ghost use Rattle.bk_word.specs.declared.TheConstants.{INLINE_ORDER, LARGEST_LISTED_ORDER, LEAST_LISTED_ORDER};
ghost use Rattle.bk_verify_report.specs.KeptEntries.{IsFed, IsFirstSight, IsKeptFrom, AreKeptEntries, IsNotKept};

use crate::kept::KeptMembers;
use bk_simple::is_perfect_simple;
use bk_sym::canonical;
use bk_tiling::Tiling;
use std::alloc::Global;
use std::marker::Model;

/// What an entry of a list is.
#[derive(Clone, Copy, Debug, PartialEq, Eq)]
pub enum Fed {
    /// The first one of its member.
    New,
    /// A further one of a member: the line of the first one.
    Repeats { line: u64 },
    /// One of no member.
    Foreign,
}

/// There was no memory to keep a member.
#[derive(Clone, Copy, Debug, PartialEq, Eq)]
pub struct NoMemory;

/// The entries of a list, held against the perfect catalogue of an order. It is seen as the order and the list of the
/// pairs, each a line and the canonical tiling that was new there, in the order of first sight.
#[derive(Drop)]
pub struct Entries {
    order: u8,
    kept: KeptMembers,
}

impl Model for Entries {
    ghost use Rattle.bk_verify_report.specs.KeptEntries.{AreKeptEntries, EntriesState};

    ghost Value = { EntriesState };

    ghost view = { λ v. record { order = v.order; pairs = v.kept } };

    ghost invariant = { λ v. AreKeptEntries (record { order = v.order; pairs = v.kept }) };
}

impl Entries {
    /// No entries yet, against the catalogue of an order, which is 2 to 16. It takes no memory.
    pub fn new(alloc: Global, order: u8) -> Entries
        requires least { LEAST_LISTED_ORDER ≤ order }
        requires most { order ≤ LARGEST_LISTED_ORDER }
        ensures { result ≡ record { order = order; pairs = [] } }
    {
        Entries {
            order,
            kept: KeptMembers::new(alloc),
        }
    }

    /// Feeds the entry of a line, and tells what it is: by its canonical tiling alone, which is a member where it has
    /// as many squares as the order and is perfect and simple. A member that isn't kept is kept from this line, unless
    /// there is no memory for it: then, as after each other answer, all is as before.
    pub fn feed(&mut self, line: u64, tiling: &Tiling) -> Result<Fed, NoMemory>
        ensures fed { IfOk result (λ fed. IsFed self.old line tiling.now fed self.new) }
        ensures unchanged { OnErr result (self.new ≡ self.old) }
        ensures wanting { OnErr result (IsFirstSight self.old tiling.now) }
        ensures kept { AreKeptEntries self.new }
    {
        if tiling.order() != usize::from(self.order) {
            return Ok(Fed::Foreign);
        }
        let member = canonical(tiling);
        if let Some(first) = self.kept.line_of(&member) {
            return Ok(Fed::Repeats { line: first });
        }
        if !is_perfect_simple(&member) {
            return Ok(Fed::Foreign);
        }
        self.kept.keep(line, &member)?;
        Ok(Fed::New)
    }

    /// The order of the catalogue, which is 2 to 16.
    pub fn order(&self) -> u8
        ensures order { result ≡ self.now.order }
        ensures least { LEAST_LISTED_ORDER ≤ result }
        ensures most { result ≤ LARGEST_LISTED_ORDER }
    {
        self.order
    }

    /// The line from which a tiling of at most 16 squares is kept.
    pub fn line_of(&self, tiling: &Tiling) -> Option<u64>
        requires { length tiling.now.squares ≤ INLINE_ORDER }
        ensures { MatchOption result (IsNotKept self.now.pairs tiling.now) (IsKeptFrom self.now.pairs tiling.now) }
    {
        self.kept.line_of(tiling)
    }
}
