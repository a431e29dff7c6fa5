//! The texts of answers to accepted items.

ghost use Rattle.std.specs.Prelude.{◌≡◌, ◌≤◌, ◌++◌, ◌+◌, ◌∷◌, [], option_map, length};
ghost use Rattle.arrayvec.specs.ArrayVec.{array_vec_len};
ghost use Rattle.bk_code.specs.Code.{code_of};
ghost use Rattle.bk_grammar.specs.declared.TheConstants.{ANSWER_ROOM};
ghost use Rattle.bk_simple.specs.Border.{rectangle_of};
ghost use Rattle.bk_text.specs.CodeText.{code_text, size_text};
ghost use Rattle.bk_text.specs.declared.writer.TheConstants.{LONGEST_CODE_TEXT};
ghost use Rattle.bk_report.specs.Answers.{IsCheckLine, perfect_text, simple_text, spaced, tiling_line, verdict_line};
ghost use Rattle.bk_report.specs.declared.answer.TheConstants.{LONGEST_CHECK_LINE, LONGEST_PERFECT_TEXT};
ghost use Rattle.bk_report.specs.declared.answer.TheConstants.{LONGEST_SIMPLE_TEXT, LONGEST_TILING_TEXT};

use crate::template::push_filled;
use bk_code::{Code, code_of};
use bk_grammar::{AnswerBuffer, push_bytes};
use bk_simple::{SubRect, part, repeated};
use bk_text::{LONGEST_CODE_TEXT, LONGEST_SIZE_TEXT, write_code, write_size};
use bk_tiling::Tiling;

/// The size and the code of a tiling are written in no more bytes.
pub(crate) const LONGEST_TILING_TEXT: usize = LONGEST_SIZE_TEXT + 1 + LONGEST_CODE_TEXT;

/// No answer of `check` to an accepted item has more bytes.
const LONGEST_CHECK_LINE: usize = 300;

/// Whether a tiling is perfect is written in no more bytes.
const LONGEST_PERFECT_TEXT: usize = 40;

/// Whether a tiling is simple is written in no more bytes.
const LONGEST_SIMPLE_TEXT: usize = 130;

/// Writes the answer of `check` to an item that has this tiling: `ok`, the order, the size, and whether it is perfect
/// and simple (Brooks, Smith, Stone and Tutte 1940).
pub fn write_check(tiling: &Tiling, out: &mut AnswerBuffer)
    ensures { IsCheckLine tiling.now out.new.items }
{
    out.clear();
    push_verdicts(tiling, repeated(tiling), part(tiling), out);
}

/// Writes the size and the code of a tiling: the answer of each command that gives a tiling.
pub fn write_tiling(tiling: &Tiling, out: &mut AnswerBuffer)
    ensures { out.new.items ≡ tiling_line tiling.now }
{
    out.clear();
    push_tiling(tiling, &code_of(tiling), out);
    out.push(b'\n');
}

// Appends the size of a tiling, and its code.
pub(crate) fn push_tiling(tiling: &Tiling, code: &Code, out: &mut AnswerBuffer)
    requires code { code.now ≡ code_of tiling.now }
    requires room { array_vec_len out.old + LONGEST_TILING_TEXT ≤ ANSWER_ROOM }
    ensures text { out.new.items
        ≡ out.old.items ++ spaced (size_text tiling.now.width tiling.now.height ∷ code_text (code_of tiling.now) ∷ []) }
    ensures short { array_vec_len out.new ≤ array_vec_len out.old + LONGEST_TILING_TEXT }
{
    write_size(tiling.width(), tiling.height(), out);
    out.push(b' ');
    write_code(code, out);
}

// Appends the code of a tiling. It has a square, so its code has a group.
pub(crate) fn push_code(tiling: &Tiling, out: &mut AnswerBuffer)
    requires { array_vec_len out.old + LONGEST_CODE_TEXT ≤ ANSWER_ROOM }
    ensures text { out.new.items ≡ out.old.items ++ code_text (code_of tiling.now) }
    ensures short { length (code_text (code_of tiling.now)) ≤ LONGEST_CODE_TEXT }
{
    let order = tiling.order();
    prove!(0 < order);
    write_code(&code_of(tiling), out);
}

// Appends the order, the size and the verdicts of a tiling as a line.
fn push_verdicts(
    tiling: &Tiling,
    repeated: Option<u64>,
    part: Option<SubRect>,
    out: &mut AnswerBuffer,
)
    requires { array_vec_len out.old + LONGEST_CHECK_LINE ≤ ANSWER_ROOM }
    ensures { out.new.items ≡ out.old.items ++ verdict_line tiling.now repeated (option_map rectangle_of part) }
{
    push_filled(b"ok # ", &[tiling.order() as u64], out);
    write_size(tiling.width(), tiling.height(), out);
    out.push(b' ');
    push_perfect(repeated, out);
    out.push(b' ');
    push_simple(part, out);
    out.push(b'\n');
}

// Appends 'perfect', or 'imperfect' and the side.
fn push_perfect(repeated: Option<u64>, out: &mut AnswerBuffer)
    requires { array_vec_len out.old + LONGEST_PERFECT_TEXT ≤ ANSWER_ROOM }
    ensures text { out.new.items ≡ out.old.items ++ perfect_text repeated }
    ensures short { array_vec_len out.new ≤ array_vec_len out.old + LONGEST_PERFECT_TEXT }
{
    match repeated {
        None => push_bytes(b"perfect", out),
        Some(side) => push_filled(b"imperfect #", &[side], out),
    }
}

// Appends 'simple', or 'compound' and the rectangle.
fn push_simple(part: Option<SubRect>, out: &mut AnswerBuffer)
    requires { array_vec_len out.old + LONGEST_SIMPLE_TEXT ≤ ANSWER_ROOM }
    ensures text { out.new.items ≡ out.old.items ++ simple_text (option_map rectangle_of part) }
    ensures short { array_vec_len out.new ≤ array_vec_len out.old + LONGEST_SIMPLE_TEXT }
{
    match part {
        None => push_bytes(b"simple", out),
        Some(r) => {
            push_filled(b"compound #,# ", &[r.x, r.y], out);
            write_size(r.width, r.height, out);
        }
    }
}
