//! Words for the grammars of lines: blanks, comments, numbers, and where bytes leave a grammar; and
//! what writers of lines share.
#![tactic(auto)]

ghost use Rattle.std.specs.Fmt.{decimal};
ghost use Rattle.std.specs.Prelude.{◌+◌, ◌++◌, ◌≡◌, ◌≤◌, length};
ghost use Rattle.arrayvec.specs.ArrayVec.{array_vec_len};
ghost use Rattle.bk_grammar.specs.declared.TheConstants.{LONGEST_NUMBER_TEXT};

use arrayvec::ArrayVec;
use itoa::Buffer;

/// The most bytes of an answer. The longest is that of `flow`, with 8,241.
pub const ANSWER_ROOM: usize = 9000;

/// No number is written in more bytes: so many digits has the greatest.
pub const LONGEST_NUMBER_TEXT: usize = 20;

/// Room for one answer, which is made once and used for line after line.
pub type AnswerBuffer = ArrayVec<u8, ANSWER_ROOM>;

/// Appends bytes to a line. The line must have room for them.
pub fn push_bytes<const N: usize>(bytes: &[u8], line: &mut ArrayVec<u8, N>)
    requires { array_vec_len line.old + length bytes.now ≤ N }
    ensures { line.new.items ≡ line.old.items ++ bytes.now }
{
    let _fits = line.try_extend_from_slice(bytes);
}

/// Appends the decimal digits of a number to a line, which must have room for `LONGEST_NUMBER_TEXT` bytes.
pub fn push_number<const N: usize>(number: u64, line: &mut ArrayVec<u8, N>)
    requires { array_vec_len line.old + LONGEST_NUMBER_TEXT ≤ N }
    ensures text { line.new.items ≡ line.old.items ++ decimal number }
    ensures short { length (decimal number) ≤ LONGEST_NUMBER_TEXT }
{
    let mut buffer = Buffer::new();
    push_bytes(buffer.format(number).as_bytes(), line);
}
