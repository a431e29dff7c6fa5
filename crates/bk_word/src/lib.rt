//! Words: lists of moves that hang squares under valleys; also the classes, and the orders that are listed.
#![tactic(auto)]

ghost use Rattle.std.specs.Prelude.{IfOk, IsOk, OnErr, OnOk, Some, [], length, slice_get, take, ◌+◌, ◌++◌, ◌-◌, ◌<◌};
ghost use Rattle.std.specs.Prelude.{◌∷◌, ◌≡◌, ◌≤◌};
ghost use Rattle.bk_word.specs.KeptWord.{CanStand, IsKeptWord};
ghost use Rattle.bk_word.specs.StoredWord.{IsStoredWord, stored, stored_move, word_in};
ghost use Rattle.bk_word.specs.Word.{order_of, word_cmp};

mod item;
mod laws;
mod reader;
mod reading;
mod signs;
mod storage;
mod writer;

use arrayvec::ArrayVec;
pub use item::word_item;
pub use laws::{a_text_is_of_one_word, a_written_word_is_read, words_are_in_total_order};
pub use reading::{WordFault, read_word, text_order};
use smallvec::SmallVec;
use std::alloc::Global;
use std::cmp::Ordering;
use std::marker::Model;
use storage::{append_move, count_place, counts, signs_at, sum_of_counts};
use thiserror::Error;
pub use writer::{LONGEST_WORD_TEXT, write_word};

/// The most squares that a word hangs.
pub const LARGEST_ORDER: usize = 200;

/// The most signs that a move has.
pub const MOST_SIGNS: usize = LARGEST_ORDER + 1;

/// The least order of a catalogue that is listed.
pub const LEAST_LISTED_ORDER: usize = 2;

/// The largest order of a catalogue that is listed.
pub const LARGEST_LISTED_ORDER: usize = 16;

/// A word of at most this many squares takes no memory; each word of a catalogue that is listed is one.
pub const INLINE_ORDER: usize = LARGEST_LISTED_ORDER;

// How many bytes of a word are kept without memory. A word of n squares has at most 3 n bytes.
pub(crate) const INLINE_BYTES: usize = 64;

/// How the left one of two neighbouring bottoms stands to the right one.
#[derive(Clone, Copy, Default, PartialEq, Eq, Drop)]
pub enum Sign {
    /// The left one is higher.
    Above,
    /// Both are level.
    #[default]
    Even,
    /// The left one is lower.
    Under,
}

/// Which simple tilings a catalogue holds.
#[derive(Clone, Copy, Debug, PartialEq, Eq, Drop)]
pub enum Class {
    /// Tilings whose sides all differ.
    Perfect,
    /// Tilings with two equal sides.
    Imperfect,
    /// All.
    Simple,
}

/// A move: how many squares are hung under a valley, and the signs between their bottoms and those beside the valley,
/// from left to right.
#[derive(Drop)]
pub struct Move {
    pub count: u8,
    pub signs: ArrayVec<Sign, MOST_SIGNS>,
}

impl Model for Move {
    ghost use Rattle.bk_word.specs.Word.{Move as SeenMove};

    ghost Value = { SeenMove };

    ghost view = { λ m. record { count = m.count; signs = m.signs.items } };
}

impl Move {
    /// Room for a move: one of no square and no sign, which is legal nowhere.
    pub fn empty() -> Move
        ensures { result ≡ record { count = 0; signs = [] } }
    {
        Move {
            count: 0,
            signs: ArrayVec::new(),
        }
    }
}

/// There is no memory.
#[derive(Clone, Copy, Debug, Drop, Error)]
#[error("NoMemory")]
pub struct NoMemory;

/// A word: a list of moves, whose order is the sum of their counts, at most 200. Each move hangs a square, and has one
/// sign less than squares, as many or one more. Words are our own.
#[derive(Drop)]
pub struct Word {
    bytes: SmallVec<u8, INLINE_BYTES>,
}

impl Model for Word {
    ghost use Rattle.bk_word.specs.Word.{Word as Moves};
    ghost use Rattle.bk_word.specs.StoredWord.{IsKeptBuffer, word_in};

    ghost Value = { Moves };

    ghost view = { λ w. word_in w.bytes.items };

    ghost invariant = { λ w. IsKeptBuffer w.bytes.items w.bytes.capacity };
}

impl Word {
    /// The word of no moves, which takes no memory.
    pub fn new(alloc: Global) -> Word
        ensures { result ≡ [] }
    {
        Word {
            bytes: SmallVec::new(alloc),
        }
    }

    /// Appends a move. It must be one that can stand in a word, and the order at most 200 then. Where there is no
    /// memory the word is as it was. It takes none where the word then has at most 64 bytes, a byte for each count and
    /// each sign, and so none where the order is then at most 16.
    pub fn push(&mut self, m: &Move) -> Result<(), NoMemory>
        requires stands { CanStand m.now }
        requires few { order_of self.old + m.now.count ≤ LARGEST_ORDER }
        ensures ok { OnOk result (self.new ≡ self.old ++ m.now ∷ []) }
        ensures unchanged { OnErr result (self.new ≡ self.old) }
        ensures inline { order_of self.old + m.now.count ≤ INLINE_ORDER → IsOk result }
        ensures bytes { length (stored self.old) + length (stored_move m.now) ≤ INLINE_BYTES → IsOk result }
    {
        let signs = m.signs.as_slice();
        if self.bytes.reserve(1 + signs.len()).is_err() {
            return Err(NoMemory);
        }
        append_move(&mut self.bytes, m.count, signs);
        Ok(())
    }

    /// Takes the last move off. There must be one.
    pub fn pop(&mut self)
        requires { 0 < length self.old }
        ensures { self.new ≡ take (length self.old - 1) self.old }
    {
        let last = self.moves() - 1;
        let place = count_place(self.bytes.as_slice(), last);
        self.bytes.truncate(place);
    }

    /// How many moves there are.
    pub fn moves(&self) -> usize
        ensures value { result ≡ length self.now }
        ensures kept { IsKeptWord self.now }
    {
        counts(self.bytes.as_slice())
    }

    /// The move at place i, from 0. There must be one.
    pub fn get(&self, i: usize) -> Move
        requires { i < length self.now }
        ensures value { slice_get self.now i ≡ Some result }
        ensures stands { CanStand result }
        ensures few { result.count ≤ LARGEST_ORDER }
    {
        let bytes = self.bytes.as_slice();
        let place = count_place(bytes, i);
        Move {
            count: bytes[place],
            signs: signs_at(&bytes[place + 1..]),
        }
    }

    /// The order: how many squares the moves hang.
    pub fn order(&self) -> usize
        ensures value { result ≡ order_of self.now }
        ensures few { result ≤ LARGEST_ORDER }
    {
        sum_of_counts(self.bytes.as_slice())
    }

    /// A copy of the word. It takes no memory where the word has at most 64 bytes, nor so where the order is at most
    /// 16.
    pub fn copy(&self, alloc: Global) -> Result<Word, NoMemory>
        ensures ok { IfOk result (λ w. w ≡ self.now) }
        ensures inline { order_of self.now ≤ INLINE_ORDER → IsOk result }
        ensures bytes { length (stored self.now) ≤ INLINE_BYTES → IsOk result }
    {
        Word::from_bytes(alloc, self.bytes.as_slice())
    }

    /// Which of two words comes first: they go by their moves, and these by their counts and then by their signs, above
    /// before even before under. A proper prefix comes first, of moves and of signs.
    pub fn cmp(&self, other: &Word) -> Ordering
        ensures { result ≡ word_cmp self.now other.now }
    {
        self.bytes.as_slice().cmp(other.bytes.as_slice())
    }

    // The word that is stored so.
    pub(crate) fn from_bytes(alloc: Global, bytes: &[u8]) -> Result<Word, NoMemory>
        requires { IsStoredWord bytes.now }
        ensures ok { IfOk result (λ w. w ≡ word_in bytes.now) }
        ensures inline { order_of (word_in bytes.now) ≤ INLINE_ORDER → IsOk result }
        ensures bytes { length bytes.now ≤ INLINE_BYTES → IsOk result }
    {
        let bytes = SmallVec::from_slice(alloc, bytes).map_err(|_| NoMemory)?;
        let _fits = bytes.len();
        Ok(Word { bytes })
    }

    // The bytes in which the word is stored.
    pub(crate) fn bytes(&self) -> &[u8]
        ensures value { result.now ≡ stored self.now }
        ensures kept { IsKeptWord self.now }
    {
        self.bytes.as_slice()
    }
}
