//! Words packed into numbers that compare as the words do.
#![tactic(auto)]

ghost use Rattle.std.specs.Prelude.{[], length, ◌++◌, ◌+◌, ◌<◌, ◌^◌, ◌∷◌, ◌≡◌, ◌≤◌};
ghost use Rattle.bk_word.specs.Outline.{IsLegalMove};
ghost use Rattle.bk_word.specs.Play.{IsLegal, outline_of};
ghost use Rattle.bk_tiling.specs.Tiling.{order};
ghost use Rattle.bk_word.specs.Word.{Word as Moves, order_of};
ghost use Rattle.bk_lay.specs.TilingWord.{IsWordOf};
ghost use Rattle.bk_packed.specs.Packed.{packed, word_digits};
ghost use Rattle.bk_packed.specs.TilingDigits.{HasDigitsOf};
ghost use Rattle.bk_packed.specs.declared.digits.TheConstants.{MOST_DIGITS};
ghost use Rattle.bk_word.specs.declared.TheConstants.{LARGEST_LISTED_ORDER};

use crate::digits::{MOST_DIGITS, move_before, number_of, push_digits};
use arrayvec::ArrayVec;
use bk_lay::Laying;
use bk_play::Skel;
use bk_tiling::Tiling;
use bk_word::{Move, Word};
use std::marker::Model;

/// A legal word of at most 16 squares packed into one number: four bits for the count of each move, less one, and two
/// for each of its signs, from the top of 128 bits. Among words of one order the numbers compare as the words do.
#[derive(Clone, Copy, Drop)]
pub struct Packed {
    number: u128,
}

impl Model for Packed {
    ghost use Rattle.std.specs.Prelude.{ℕ, ◌<◌, ◌^◌};

    ghost Value = { ℕ };

    ghost view = { λ p. p.number };

    ghost invariant = { λ p. p.number < 2 ^ 128 };

    ghost inverse = { λ n. record { number = n } };
}

impl Packed {
    /// A word of at most 16 squares, packed.
    pub fn of(word: &Word) -> Packed
        requires legal { IsLegal word.now }
        requires few { order_of word.now ≤ LARGEST_LISTED_ORDER }
        ensures { result ≡ packed word.now }
    {
        let digits = digits_of(word);
        Packed {
            number: number_of(digits.as_slice()),
        }
    }

    /// The word of a tiling of at most 16 squares, packed as the tiling is laid.
    pub fn of_tiling(laying: &mut Laying, tiling: &Tiling) -> Packed
        requires { order tiling.now ≤ LARGEST_LISTED_ORDER }
        ensures { (w : Moves) → IsWordOf tiling.now w → result ≡ packed w }
    {
        let digits = digits_of_tiling(laying, tiling);
        Packed {
            number: number_of(digits.as_slice()),
        }
    }

    /// The number.
    pub fn number(&self) -> u128
        ensures { result ≡ self.now }
    {
        self.number
    }
}

/// The packed number of the skeleton's moves and one more, which must be legal after them, with at most 16 squares in
/// all.
pub fn number_with(skel: &Skel, m: &Move) -> u128
    requires legal { IsLegal skel.now }
    requires next { IsLegalMove (outline_of skel.now) m.now }
    requires few { order_of skel.now + m.now.count ≤ LARGEST_LISTED_ORDER }
    ensures { result ≡ packed (skel.now ++ m.now ∷ []) }
{
    let mut number = number_of_move(m);
    'moves: for i in (0..skel.moves()).rev() {
        number = move_before(skel.count_at(i), skel.signs_at(i), number);
    }
    number
}

// The packed number of one move.
fn number_of_move(m: &Move) -> u128
    requires some { 0 < m.now.count }
    requires few { m.now.count ≤ LARGEST_LISTED_ORDER }
    requires room { length m.now.signs + 2 ≤ MOST_DIGITS }
    ensures { result ≡ packed (m.now ∷ []) }
{
    move_before(m.count, m.signs.as_slice(), 0)
}

// The digits of a word.
fn digits_of(word: &Word) -> ArrayVec<u8, MOST_DIGITS>
    requires legal { IsLegal word.now }
    requires few { order_of word.now ≤ LARGEST_LISTED_ORDER }
    ensures { result.items ≡ word_digits word.now }
{
    let mut digits = ArrayVec::new();
    'moves: for i in 0..word.moves() {
        push_digits(&mut digits, &word.get(i));
    }
    digits
}

// The digits of a tiling's word.
fn digits_of_tiling(laying: &mut Laying, tiling: &Tiling) -> ArrayVec<u8, MOST_DIGITS>
    requires { order tiling.now ≤ LARGEST_LISTED_ORDER }
    ensures { HasDigitsOf tiling.now result.items }
{
    let mut digits = ArrayVec::new();
    let mut m = Move::empty();
    laying.begin(tiling);
    'moves: while laying.next_in(tiling, &mut m) {
        push_digits(&mut digits, &m);
    }
    digits
}
