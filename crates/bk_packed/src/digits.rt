//! Digits of base 4, from the top of 128 bits.
#![tactic(auto)]

ghost use Rattle.std.specs.Prelude.{List, [], length, map, ℕ, ◌%◌, ◌++◌, ◌+◌, ◌-◌, ◌/◌, ◌<◌, ◌∷◌, ◌≡◌, ◌≤◌};
ghost use Rattle.bk_word.specs.Word.{sign_place};
ghost use Rattle.bk_packed.specs.Packed.{AreDigits, begun_by, digit_at, move_digits};
ghost use Rattle.bk_packed.specs.declared.digits.TheConstants.{MOST_DIGITS};
ghost use Rattle.bk_word.specs.declared.TheConstants.{LARGEST_LISTED_ORDER};

use arrayvec::ArrayVec;
use bk_word::{Move, Sign};

// The most digits that a packed word has.
pub(crate) const MOST_DIGITS: usize = 64;

// The unit of the first of them, the power 63 of 4.
const FIRST_UNIT: u128 = 0x4000_0000_0000_0000_0000_0000_0000_0000;

// The unit of the second, the power 62 of 4.
const SECOND_UNIT: u128 = 0x1000_0000_0000_0000_0000_0000_0000_0000;

// Appends the digits of a move.
pub(crate) fn push_digits(digits: &mut ArrayVec<u8, MOST_DIGITS>, m: &Move)
    requires some { 0 < m.now.count }
    requires room { length digits.old.items + length m.now.signs + 2 ≤ MOST_DIGITS }
    ensures { digits.new.items ≡ digits.old.items ++ move_digits m.now }
{
    push_count(digits, m.count);
    push_signs(digits, m.signs.as_slice());
}

// Appends those of its signs.
pub(crate) fn push_signs(digits: &mut ArrayVec<u8, MOST_DIGITS>, signs: &[Sign])
    requires room { length digits.old.items + length signs.now ≤ MOST_DIGITS }
    ensures { digits.new.items ≡ digits.old.items ++ map sign_place signs.now }
{
    'signs: for sign in signs {
        digits.push(sign_place(*sign));
    }
}

// Appends those of its count.
pub(crate) fn push_count(digits: &mut ArrayVec<u8, MOST_DIGITS>, count: u8)
    requires some { 0 < count }
    requires room { length digits.old.items + 2 ≤ MOST_DIGITS }
    ensures { digits.new.items ≡ digits.old.items ++ (count - 1) / 4 ∷ (count - 1) % 4 ∷ [] }
{
    digits.push((count - 1) / 4);
    digits.push((count - 1) % 4);
}

// The place of a sign among above, even and under.
pub(crate) fn sign_place(sign: Sign) -> u8
    ensures { result ≡ sign_place sign }
{
    match sign {
        Sign::Above => 0,
        Sign::Even => 1,
        Sign::Under => 2,
    }
}

// The sign at this place.
pub(crate) fn sign_of(place: u8) -> Sign
    requires { place < 3 }
    ensures { sign_place result ≡ place }
{
    match place {
        0 => Sign::Above,
        1 => Sign::Even,
        _ => Sign::Under,
    }
}

// The number of 64 digits of base 4 that begins with these.
pub(crate) fn number_of(digits: &[u8]) -> u128
    requires few { length digits.now ≤ MOST_DIGITS }
    requires digits { AreDigits digits.now }
    ensures { result ≡ begun_by MOST_DIGITS digits.now }
{
    let mut number = 0;
    'digits: for i in (0..digits.len()).rev() {
        number = u128::from(digits[i]) * FIRST_UNIT + number / 4;
    }
    number
}

// The number of 64 digits that begins with those of a move's count and signs and goes on with those of a number.
pub(crate) fn move_before(count: u8, signs: &[Sign], behind: u128) -> u128
    requires some { 0 < count }
    requires few { count ≤ LARGEST_LISTED_ORDER }
    ensures { (ds : List ℕ) → length signs.now + length ds + 2 ≤ MOST_DIGITS → behind ≡ begun_by MOST_DIGITS ds
        → result ≡ begun_by MOST_DIGITS ((count - 1) / 4 ∷ (count - 1) % 4 ∷ map sign_place signs.now ++ ds) }
{
    u128::from(count - 1) * SECOND_UNIT + signs_before(signs, behind) / 16
}

// The number of 64 digits that begins with those of signs and goes on with those of a number.
fn signs_before(signs: &[Sign], behind: u128) -> u128
    ensures { (ds : List ℕ) → length signs.now + length ds ≤ MOST_DIGITS → behind ≡ begun_by MOST_DIGITS ds
        → result ≡ begun_by MOST_DIGITS (map sign_place signs.now ++ ds) }
{
    let mut number = behind;
    'signs: for i in (0..signs.len()).rev() {
        number = u128::from(sign_place(signs[i])) * FIRST_UNIT + number / 4;
    }
    number
}

// The digit of a number at a place, from the first of 64.
pub(crate) fn digit_at(number: u128, place: usize) -> u8
    requires { place < MOST_DIGITS }
    ensures { result ≡ digit_at number place }
{
    ((number >> (126 - 2 * place)) % 4) as u8
}
