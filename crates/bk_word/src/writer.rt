//! Writing the text of a word.
#![tactic(auto)]

ghost use Rattle.std.specs.Prelude.{flat_map, length, ◌+◌, ◌++◌, ◌<◌, ◌≡◌, ◌≤◌};
ghost use Rattle.arrayvec.specs.ArrayVec.{array_vec_len};
ghost use Rattle.bk_grammar.specs.declared.TheConstants.{ANSWER_ROOM, LONGEST_NUMBER_TEXT};
ghost use Rattle.bk_word.specs.StoredWord.{piece};
ghost use Rattle.bk_word.specs.WordText.{letter as letter_of_sign, word_text};
ghost use Rattle.bk_word.specs.declared.writer.TheConstants.{LONGEST_WORD_TEXT};

use crate::storage::{is_count, sign_of};
use crate::{Sign, Word};
use bk_grammar::{AnswerBuffer, push_bytes, push_number};

/// No word is written in more bytes.
pub const LONGEST_WORD_TEXT: usize = 800;

/// Appends the text of a word: its moves with a dot between each two, and of each the count and the letters of its
/// signs. The word must have a move, and `out` room for `LONGEST_WORD_TEXT` bytes and a number.
pub fn write_word(word: &Word, out: &mut AnswerBuffer)
    requires some { 0 < length word.now }
    requires room { array_vec_len out.old + LONGEST_WORD_TEXT + LONGEST_NUMBER_TEXT ≤ ANSWER_ROOM }
    ensures text { out.new.items ≡ out.old.items ++ word_text word.now }
    ensures short { length (word_text word.now) ≤ LONGEST_WORD_TEXT }
{
    let bytes = word.bytes();
    push_number(u64::from(bytes[0]), out);
    write_pieces(&bytes[1..], out);
}

// Appends what is written of bytes that aren't the first.
fn write_pieces(bytes: &[u8], out: &mut AnswerBuffer)
    requires { array_vec_len out.old + length (flat_map piece bytes.now) + LONGEST_NUMBER_TEXT ≤ ANSWER_ROOM }
    ensures { out.new.items ≡ out.old.items ++ flat_map piece bytes.now }
{
    for byte in bytes {
        if is_count(*byte) {
            push_bytes(b".", out);
            push_number(u64::from(*byte), out);
        } else {
            out.push(letter(sign_of(*byte)));
        }
    }
}

// The letter of a sign.
fn letter(sign: Sign) -> u8
    ensures { result ≡ letter_of_sign sign }
{
    match sign {
        Sign::Above => b'a',
        Sign::Even => b'e',
        Sign::Under => b'u',
    }
}
