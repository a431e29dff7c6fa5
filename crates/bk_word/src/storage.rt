//! The bytes in which a word is stored.
#![tactic(auto)]

ghost use Rattle.std.specs.Prelude.{count_by, drop, length, map, slice_index, true, ◌+◌, ◌++◌, ◌<◌, ◌∷◌, ◌≡◌, ◌≤◌};
ghost use Rattle.smallvec.specs.SmallVec.{HasRoomFor};
ghost use Rattle.bk_word.specs.Word.{order_of};
ghost use Rattle.bk_word.specs.declared.TheConstants.{LARGEST_ORDER};
ghost use Rattle.bk_word.specs.StoredWord.{is_count, leading_signs, sign_byte, sign_of as sign_of_byte, word_in};

use crate::{INLINE_BYTES, MOST_SIGNS, Sign};
use arrayvec::ArrayVec;
use smallvec::SmallVec;

// The bytes of the signs. Those of counts are below them.
const ABOVE: u8 = 201;

const EVEN: u8 = 202;

const UNDER: u8 = 203;

// Whether a byte is that of a count.
pub(crate) fn is_count(byte: u8) -> bool
    ensures { result ≡ is_count byte }
{
    byte < ABOVE
}

// The byte of a sign.
pub(crate) fn byte_of(sign: Sign) -> u8
    ensures { result ≡ sign_byte sign }
{
    match sign {
        Sign::Above => ABOVE,
        Sign::Even => EVEN,
        Sign::Under => UNDER,
    }
}

// The sign that a byte stands for.
pub(crate) fn sign_of(byte: u8) -> Sign
    ensures { result ≡ sign_of_byte byte }
{
    match byte {
        ABOVE => Sign::Above,
        EVEN => Sign::Even,
        _ => Sign::Under,
    }
}

// Appends the bytes of a move of so many squares with these signs, for which there must be room.
pub(crate) fn append_move(bytes: &mut SmallVec<u8, INLINE_BYTES>, count: u8, signs: &[Sign])
    requires { HasRoomFor bytes.old (1 + length signs.now) }
    ensures items { bytes.new.items ≡ bytes.old.items ++ count ∷ map sign_byte signs.now }
    ensures capacity { bytes.new.capacity ≡ bytes.old.capacity }
{
    bytes.push_reserved(count);
    'signs: for sign in signs {
        bytes.push_reserved(byte_of(*sign));
    }
}

// The signs before the first count, of which there are at most 201.
pub(crate) fn signs_at(bytes: &[u8]) -> ArrayVec<Sign, MOST_SIGNS>
    requires { length (leading_signs bytes.now) ≤ MOST_SIGNS }
    ensures { result.items ≡ leading_signs bytes.now }
{
    let mut signs = ArrayVec::new();
    for byte in bytes {
        if is_count(*byte) {
            return signs;
        }
        signs.push(sign_of(*byte));
    }
    signs
}

// The place of the byte of the i-th count, from 0, which must be there.
pub(crate) fn count_place(bytes: &[u8], i: usize) -> usize
    requires { i < length (word_in bytes.now) }
    ensures within { result < length bytes.now }
    ensures count { is_count (slice_index bytes.now result) ≡ true }
    ensures behind { word_in (drop result bytes.now) ≡ drop i (word_in bytes.now) }
{
    let mut left = i;
    for (place, byte) in bytes.iter().enumerate() {
        if is_count(*byte) {
            if left == 0 {
                return place;
            }
            left -= 1;
        }
    }
    unreachable!()
}

// How many counts there are.
pub(crate) fn counts(bytes: &[u8]) -> usize
    ensures { result ≡ count_by is_count bytes.now }
{
    bytes.iter().filter(|byte| is_count(**byte)).count()
}

// The sum of the counts.
pub(crate) fn sum_of_counts(bytes: &[u8]) -> usize
    requires { order_of (word_in bytes.now) ≤ LARGEST_ORDER }
    ensures { result ≡ order_of (word_in bytes.now) }
{
    let mut order = 0;
    for byte in bytes {
        if is_count(*byte) {
            order += usize::from(*byte);
        }
    }
    order
}
