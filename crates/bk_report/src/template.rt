//! Texts with marks that stand for numbers.

ghost use Rattle.std.specs.Prelude.{length, ◌*◌, ◌+◌, ◌++◌, ◌≡◌, ◌≤◌};
ghost use Rattle.arrayvec.specs.ArrayVec.{array_vec_len};
ghost use Rattle.bk_grammar.specs.declared.TheConstants.{ANSWER_ROOM, LONGEST_NUMBER_TEXT};
ghost use Rattle.bk_report.specs.Templates.{filled};

use bk_grammar::{AnswerBuffer, push_number};

// Appends a text with a number in place of each `#`, one after another.
pub(crate) fn push_filled(text: &[u8], numbers: &[u64], out: &mut AnswerBuffer)
    requires { array_vec_len out.old + length text.now + LONGEST_NUMBER_TEXT * length numbers.now ≤ ANSWER_ROOM }
    ensures text { out.new.items ≡ out.old.items ++ filled text.now numbers.now }
    ensures short { array_vec_len out.new
        ≤ array_vec_len out.old + length text.now + LONGEST_NUMBER_TEXT * length numbers.now }
{
    let mut next = 0;
    for byte in text {
        if *byte == b'#' && next < numbers.len() {
            push_number(numbers[next], out);
            next += 1;
            continue;
        }
        out.push(*byte);
    }
}
