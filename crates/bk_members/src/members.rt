//! The members of a catalogue, one after another: what a walk answers, by whatever it goes.

ghost use Rattle.std.specs.Prelude.{IsTrue, None, Some, [], false, ◌-◌, ◌∷◌, ◌≡◌, ◌≤◌, ◌↔◌};
ghost use Rattle.bk_code.specs.Code.{code_of};
ghost use Rattle.bk_word.specs.Word.{order_of};
ghost use Rattle.bk_word.specs.declared.TheConstants.{LARGEST_LISTED_ORDER, LEAST_LISTED_ORDER};
ghost use Rattle.bk_catalogue.specs.Following.{HasNoneAfter, start_cursor};
ghost use Rattle.bk_catalogue.specs.Tree.{IsAtMostTree, PushesGrow};
ghost use Rattle.bk_members.specs.NextMember.{IsNextMember, MembersState};

use bk_code::Code;
use bk_play::Steps;
use bk_tiling::Tiling;
use bk_word::{Class, Word};
use std::alloc::Global;
use std::sync::ledger::Ledger;

/// A member of a catalogue, with its Bouwkamp code and its word.
#[derive(Drop)]
pub struct Entry {
    pub tiling: Tiling,
    pub code: Code,
    pub word: Word,
}

impl Entry {
    /// Room for an entry, to be written by `Members::advance_in`: the unit square, with a code of no group and a word
    /// of no move. It takes no memory.
    pub fn room(alloc: Global) -> Entry
        ensures tiling { result.tiling
            ≡ record { width = 1; height = 1; squares = (record { x = 0; y = 0; s = 1 }) ∷ [] } }
        ensures code { result.code ≡ [] }
        ensures word { result.word ≡ [] }
    {
        Entry {
            tiling: Tiling::unit(),
            code: Code::new(),
            word: Word::new(alloc),
        }
    }
}

/// A complete word that is wide, so that it isn't known whether a tiling has it. No walk comes to one, since no word of
/// its orders is wide (`bk_skel::no_small_word_is_wide`).
#[derive(Drop)]
pub struct WideAt {
    pub word: Word,
}

/// The members of a catalogue of an order and a class, in ascending order of their words, from a word on. No call takes
/// memory. Words and their order are our own.
pub trait Members: Drop {
    /// What is seen of the members: the order, the class, the cursor (the word after which they go on), whether they
    /// have ended, and how many moves were pushed.
    ghost at: { Self → MembersState };

    /// The members after the given word, or after the word of no moves. The order is 2 to 16, and that of the word at
    /// most 16; the word need not be legal, complete or of the catalogue's order.
    fn after(alloc: Global, order: u8, class: Class, from: Option<Word>) -> Self
        requires least { LEAST_LISTED_ORDER ≤ order }
        requires most { order ≤ LARGEST_LISTED_ORDER }
        requires few { order_of (start_cursor from) ≤ LARGEST_LISTED_ORDER }
        ensures { at result ≡ record {
          order = order;
          class = class;
          cursor = start_cursor from;
          ended = false;
          pushes = 0;
        } };

    /// Goes on to the least member after the cursor: then `true` comes, `entry` becomes that member with its code and
    /// its word, whatever it was, and this word is the cursor. `false` comes only where no member's word is after the
    /// cursor, which stays, and `entry` is left as it is or not; each later call gives `false` too.
    ///
    /// A step is a push of a move. A call takes at most 16 steps more than there are legal words of at least one move
    /// and at most the order, after the old cursor and not after the new one, or, with `false`, after the cursor.
    fn advance_in<L: Ledger>(&mut self, steps: &mut Steps<L>, entry: &mut Entry) -> bool
        ensures entry { IsTrue result → IsNextMember (at self.old).order (at self.old).class (at self.old).cursor
            (record { tiling = entry.new.tiling; word = entry.new.word }) }
        ensures code { IsTrue result → entry.new.code ≡ code_of entry.new.tiling }
        ensures none { result ≡ false → HasNoneAfter (at self.old).order (at self.old).class (at self.old).cursor }
        ensures cursor { IsTrue result → (at self.new).cursor ≡ entry.new.word }
        ensures stays { result ≡ false → (at self.new).cursor ≡ (at self.old).cursor }
        ensures ended { IsTrue (at self.new).ended ↔ (result ≡ false) }
        ensures later { IsTrue (at self.old).ended → result ≡ false }
        ensures order { (at self.new).order ≡ (at self.old).order }
        ensures class { (at self.new).class ≡ (at self.old).class }
        ensures steps { IsTrue result →
            IsAtMostTree (at self.old).order (at self.old).cursor (Some (at self.new).cursor) (steps.new - steps.old) }
        ensures steps_to_end { result ≡ false
            → IsAtMostTree (at self.old).order (at self.old).cursor None (steps.new - steps.old) }
        ensures pushes { PushesGrow (at self.old).pushes (at self.new).pushes steps.old steps.new };

    /// Room for an entry, as `Entry::room` makes it.
    fn entry_room(&self) -> Entry
        ensures tiling { result.tiling
            ≡ record { width = 1; height = 1; squares = (record { x = 0; y = 0; s = 1 }) ∷ [] } }
        ensures code { result.code ≡ [] }
        ensures word { result.word ≡ [] };

    /// The order of their catalogue.
    fn order(&self) -> u8
        ensures { result ≡ (at self.now).order };

    /// The class of their catalogue.
    fn class(&self) -> Class
        ensures { result ≡ (at self.now).class };

    /// The cursor: the word of the member that was given last, or the word after which they begin.
    fn cursor(&self) -> &Word
        ensures { result.now ≡ (at self.now).cursor };
}
