//! The members that were seen, each with the line on which it was first.

ghost use Rattle.std.specs.Prelude.{List, MatchOption, MatchResult, OnErr, OnOk, [], length, ◌++◌, ◌∷◌, ◌≡◌, ◌≤◌};
ghost use Rattle.bk_word.specs.declared.TheConstants.{INLINE_ORDER};
ghost use Rattle.bk_verify_report.specs.KeptEntries.{IsKeptFrom, IsNotKept};
ghost use Rattle.bk_verify_report.specs.StoredMember.{IsKeyOf, IsSeenOf};

use crate::entries::NoMemory;
use arrayvec::ArrayVec;
use bk_tiling::{Square, Tiling};
use bk_word::INLINE_ORDER;
use indexmap::IndexMap;
use std::alloc::Global;
use std::marker::Model;

// The width and the flat list of a tiling of at most 16 squares, which fix it.
#[derive(PartialEq, Eq, Hash, Drop)]
pub(crate) struct Flat {
    width: u64,
    sides: ArrayVec<u64, INLINE_ORDER>,
}

// What is kept of a member besides them, with the line on which it was first.
#[derive(Drop)]
pub(crate) struct Seen {
    line: u64,
    height: u64,
    squares: ArrayVec<Square, INLINE_ORDER>,
}

// Members with the lines on which they were first, in the order of first sight.
#[derive(Drop)]
pub(crate) struct KeptMembers {
    entries: IndexMap<Flat, Seen>,
}

impl Model for KeptMembers {
    ghost use Rattle.std.specs.List.{AllByRecursion};
    ghost use Rattle.std.specs.Prelude.{List, map};
    ghost use Rattle.bk_verify_report.specs.KeptEntries.{Kept};

    ghost Value = { List Kept };

    ghost use Rattle.bk_verify_report.specs.StoredMember.{IsStoredMember, kept_member};

    ghost view = { λ m. map kept_member m.entries.entries };

    ghost invariant = { λ m. AllByRecursion IsStoredMember m.entries.entries };
}

impl KeptMembers {
    // No members.
    pub(crate) fn new(alloc: Global) -> KeptMembers
        ensures { result ≡ [] }
    {
        KeptMembers {
            entries: IndexMap::new(alloc),
        }
    }

    // The line from which a tiling is kept.
    pub(crate) fn line_of(&self, tiling: &Tiling) -> Option<u64>
        requires { length tiling.now.squares ≤ INLINE_ORDER }
        ensures { MatchOption result (IsNotKept self.now tiling.now) (IsKeptFrom self.now tiling.now) }
    {
        self.entries.get(&flat_of(tiling)).map(|seen| seen.line)
    }

    // Keeps a tiling that isn't kept, from a line.
    pub(crate) fn keep(&mut self, line: u64, tiling: &Tiling) -> Result<(), NoMemory>
        requires few { length tiling.now.squares ≤ INLINE_ORDER }
        requires new { IsNotKept self.old tiling.now }
        ensures kept { OnOk result (self.new ≡ self.old ++ record { line = line; tiling = tiling.now } ∷ []) }
        ensures unchanged { OnErr result (self.new ≡ self.old) }
    {
        match self.entries.insert(flat_of(tiling), seen_on(line, tiling)) {
            Ok(_) => Ok(()),
            Err(_) => Err(NoMemory),
        }
    }
}

// The width and the flat list of a tiling.
fn flat_of(tiling: &Tiling) -> Flat
    requires { length tiling.now.squares ≤ INLINE_ORDER }
    ensures { IsKeyOf result tiling.now }
{
    let mut sides = ArrayVec::new();
    for q in tiling.squares() {
        sides.push(q.s);
    }
    Flat {
        width: tiling.width(),
        sides,
    }
}

// The line, and what there is of a tiling besides its width and flat list.
fn seen_on(line: u64, tiling: &Tiling) -> Seen
    requires { length tiling.now.squares ≤ INLINE_ORDER }
    ensures { IsSeenOf line result tiling.now }
{
    let Ok(squares) = ArrayVec::try_from(tiling.squares()) else {
        unreachable!();
    };
    Seen {
        line,
        height: tiling.height(),
        squares,
    }
}
