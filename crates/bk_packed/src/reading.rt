//! Words read back from their numbers, move by move.
#![tactic(auto)]

ghost use Rattle.std.specs.Prelude.{IsTrue, length, map, ℕ, ◌++◌, ◌+◌, ◌<◌, ◌∷◌, ◌≡◌, ◌≤◌, ◌↔◌};
ghost use Rattle.bk_word.specs.Play.{IsLegal};
ghost use Rattle.bk_word.specs.Word.{Move as SeenMove, Word as Moves, order_of, sign_place};
ghost use Rattle.bk_packed.specs.Packed.{digit_at as digit_of, move_digits, packed, word_digits};
ghost use Rattle.bk_packed.specs.ReadMoves.{GoesOnByNumber, HasDigits, IsSharedFront};
ghost use Rattle.bk_packed.specs.declared.digits.TheConstants.{MOST_DIGITS};
ghost use Rattle.bk_word.specs.declared.TheConstants.{LARGEST_LISTED_ORDER};

use crate::digits::{digit_at, sign_of, sign_place};
use arrayvec::ArrayVec;
use bk_play::{Skel, open_side};
use bk_word::{MOST_SIGNS, Move, Sign};

/// With how many of the skeleton's moves the legal word of this number begins that has at least as many squares, at
/// most 16: all up to the first in which the two differ.
pub fn shared_moves(skel: &Skel, number: u128) -> usize
    requires legal { IsLegal skel.now }
    requires few { order_of skel.now ≤ LARGEST_LISTED_ORDER }
    ensures within { result ≤ length skel.now }
    ensures shared { (w : Moves) → IsLegal w → order_of w ≤ LARGEST_LISTED_ORDER → order_of skel.now ≤ order_of w
        → packed w ≡ number → IsSharedFront skel.now w result }
{
    let mut place = 0;
    'moves: for i in 0..skel.moves() {
        let signs = skel.signs_at(i);
        if !has_move(number, place, skel.count_at(i), signs) {
            return i;
        }
        place += 2 + signs.len();
    }
    skel.moves()
}

/// Makes of a move the one by which the word of this number goes on from the skeleton's moves. It must be that of a
/// legal word of at most 16 squares that goes on from them.
pub fn read_next(skel: &Skel, number: u128, m: &mut Move)
    requires { GoesOnByNumber skel.now number }
    ensures { (next : SeenMove) (rest : Moves) → IsLegal (skel.now ++ next ∷ rest)
        → order_of (skel.now ++ next ∷ rest) ≤ LARGEST_LISTED_ORDER
        → packed (skel.now ++ next ∷ rest) ≡ number → m.new ≡ next }
{
    let place = digits_played(skel);
    m.count = 4 * digit_at(number, place) + digit_at(number, place + 1) + 1;
    let (left, right) = skel.walls();
    let wanted = usize::from(m.count) + open_side(left) + open_side(right) - 1;
    read_signs(&mut m.signs, number, place + 2, wanted);
}

// Makes of signs so many whose places the number has as its digits from the place on.
fn read_signs(signs: &mut ArrayVec<Sign, MOST_SIGNS>, number: u128, place: usize, count: usize)
    requires room { place + count ≤ MOST_DIGITS }
    requires digits { (k : ℕ) → k < count → digit_of number (place + k) < 3 }
    ensures many { length signs.new.items ≡ count }
    ensures read { HasDigits number place (map sign_place signs.new.items) }
{
    signs.clear();
    'signs: for i in 0..count {
        signs.push(sign_of(digit_at(number, place + i)));
    }
}

// How many digits the skeleton's moves have.
fn digits_played(skel: &Skel) -> usize
    requires legal { IsLegal skel.now }
    requires few { order_of skel.now ≤ LARGEST_LISTED_ORDER }
    ensures { result ≡ length (word_digits skel.now) }
{
    2 * skel.moves() + skel.played_signs().len()
}

// Whether the number has the digits of a move of this count and these signs from the place on.
fn has_move(number: u128, place: usize, count: u8, signs: &[Sign]) -> bool
    requires some { 0 < count }
    requires within { place + 2 + length signs.now ≤ MOST_DIGITS }
    ensures { IsTrue result ↔ HasDigits number place (move_digits (record { count = count; signs = signs.now })) }
{
    if 4 * digit_at(number, place) + digit_at(number, place + 1) + 1 != count {
        return false;
    }
    has_signs(number, place + 2, signs)
}

// Whether it has those of these signs.
fn has_signs(number: u128, place: usize, signs: &[Sign]) -> bool
    requires { place + length signs.now ≤ MOST_DIGITS }
    ensures { IsTrue result ↔ HasDigits number place (map sign_place signs.now) }
{
    'signs: for (i, sign) in signs.iter().enumerate() {
        if digit_at(number, place + i) != sign_place(*sign) {
            return false;
        }
    }
    true
}
