//! What a verifier leaves: a walk over the members that no entry had.

ghost use Rattle.std.specs.Prelude.{IfNone, IfOk, IfSome, IsNone, IsOk, IsTrue, MatchOption, false, ◌≡◌, ◌≤◌, ◌↔◌};
ghost use Rattle.bk_code.specs.Code.{code_of as code_seen};
ghost use Rattle.bk_word.specs.declared.Class.TheVariants.{Perfect};
ghost use Rattle.bk_catalogue.specs.Following.{HasNoneAfter};
ghost use Rattle.bk_verify_report.specs.KeptEntries.{AreKeptAfter, CountsMembers, IsNextMissing, IsUpTo};
ghost use Rattle.bk_verify_report.specs.Rest.{rest_of};

use crate::Entries;
use bk_members::{Entry, Members, WideAt};
use bk_play::Steps;
use bk_word::{Class, Word};
use std::alloc::Global;
use std::marker::Model;
use std::sync::ledger::Ledger;

/// What a verifier leaves once all entries are fed: it goes through the catalogue and names each member that isn't
/// kept. It is seen as the kept pairs and a walk. No wide word comes on the way, for no word of its orders is wide
/// (`bk_skel::no_small_word_is_wide`). No call takes memory.
#[derive(Drop)]
pub struct Rest<M: Members> {
    entries: Entries,
    walk: M,
    members: u64,
}

impl<M: Members> Model for Rest<M> {
    ghost use Rattle.bk_verify_report.specs.Rest.{IsKeptRest, RestState};

    ghost Value = { RestState };

    ghost view = { λ r. record { pairs = r.entries.pairs; walk = M.at r.walk } };

    ghost invariant = { λ r. IsKeptRest (M.at r.walk) r.members };
}

impl<M: Members> Rest<M> {
    /// What is left of the members by these entries, which name each member that had one. It takes no memory.
    pub fn of(alloc: Global, entries: Entries) -> Rest<M>
        ensures { result ≡ rest_of entries }
    {
        let walk = M::after(alloc, entries.order(), Class::Perfect, None);
        Rest {
            entries,
            walk,
            members: 0,
        }
    }

    /// Goes on to the least member after the cursor that isn't kept, and gives it with its code and its word, which is
    /// the cursor then. `None` comes only where each member after the cursor is kept; no member follows the cursor
    /// then, and each later call gives `None`. `Err` would name a wide word of the order, but there is none, so it
    /// never comes.
    pub fn advance<L: Ledger>(&mut self, steps: &mut Steps<L>) -> Option<Result<Entry, WideAt>>
        ensures entry { IfSome result (λ r. IfOk r (λ e.
            IsNextMissing self.old.walk.order self.old.pairs self.old.walk.cursor e.tiling e.word
            × (e.code ≡ code_seen e.tiling))) }
        ensures narrow { IfSome result (λ r. IsOk r) }
        ensures none { IfNone result (AreKeptAfter self.old.walk.order self.old.pairs self.old.walk.cursor) }
        ensures cursor { MatchOption result (HasNoneAfter self.old.walk.order Perfect self.new.walk.cursor)
            (λ r. IfOk r (λ e. self.new.walk.cursor ≡ e.word)) }
        ensures ended { IsTrue self.new.walk.ended ↔ IsNone result }
        ensures later { IsTrue self.old.walk.ended → IsNone result }
        ensures pairs { self.new.pairs ≡ self.old.pairs }
        ensures order { self.new.walk.order ≡ self.old.walk.order }
        ensures class { self.new.walk.class ≡ self.old.walk.class }
    {
        let mut entry = self.entry_room();
        if !self.advance_in(steps, &mut entry) {
            return None;
        }
        Some(Ok(entry))
    }

    // What `advance` does, with an entry that is there: `true` comes where `advance` gives a member, and `entry`
    // becomes that member with its code and its word, whatever it was; `false` comes where `advance` gives `None`. It
    // counts the members that it passes.
    pub(crate) fn advance_in<L: Ledger>(&mut self, steps: &mut Steps<L>, entry: &mut Entry) -> bool
        ensures entry { IsTrue result →
            IsNextMissing self.old.walk.order self.old.pairs self.old.walk.cursor entry.new.tiling entry.new.word }
        ensures code { IsTrue result → entry.new.code ≡ code_seen entry.new.tiling }
        ensures none { result ≡ false → AreKeptAfter self.old.walk.order self.old.pairs self.old.walk.cursor }
        ensures end { result ≡ false → HasNoneAfter self.old.walk.order Perfect self.new.walk.cursor }
        ensures cursor { IsTrue result → self.new.walk.cursor ≡ entry.new.word }
        ensures ended { IsTrue self.new.walk.ended ↔ (result ≡ false) }
        ensures later { IsTrue self.old.walk.ended → result ≡ false }
        ensures pairs { self.new.pairs ≡ self.old.pairs }
        ensures order { self.new.walk.order ≡ self.old.walk.order }
        ensures class { self.new.walk.class ≡ self.old.walk.class }
    {
        'members: while self.walk.advance_in(steps, entry) {
            self.members += 1;
            if self.entries.line_of(&entry.tiling).is_none() {
                return true;
            }
        }
        false
    }

    // Room for an entry, to be written by `advance_in`.
    pub(crate) fn entry_room(&self) -> Entry {
        self.walk.entry_room()
    }

    // The order of the catalogue.
    pub(crate) fn order(&self) -> u8
        ensures { result ≡ self.now.walk.order }
    {
        self.walk.order()
    }

    // The cursor: the word of the member that was given last, or the word of no moves.
    pub(crate) fn cursor(&self) -> &Word {
        self.walk.cursor()
    }

    /// How many members there are up to the cursor, kept or not; after a `None` that is all of them.
    pub fn members(&self) -> u64
        ensures reached { CountsMembers self.now.walk.order (IsUpTo self.now.walk.cursor) result }
    {
        self.members
    }
}
