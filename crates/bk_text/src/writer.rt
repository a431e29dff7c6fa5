//! Writing codes and sizes in their one spelling.

ghost use Rattle.std.specs.Fmt.{decimal};
ghost use Rattle.std.specs.List.{AllByRecursion};
ghost use Rattle.std.specs.Prelude.{◌*◌, ◌+◌, ◌++◌, ◌<◌, ◌≡◌, ◌≤◌, length};
ghost use Rattle.arrayvec.specs.ArrayVec.{array_vec_len};
ghost use Rattle.bk_grammar.specs.declared.TheConstants.{ANSWER_ROOM};
ghost use Rattle.bk_tiling.specs.KeptTiling.{IsSide};
ghost use Rattle.bk_text.specs.CodeText.{code_text, group_text, size_text};
ghost use Rattle.bk_text.specs.declared.writer.TheConstants.{LONGEST_CODE_TEXT, LONGEST_SIDE_TEXT, LONGEST_SIZE_TEXT};

use bk_code::Code;
use bk_grammar::{AnswerBuffer, LONGEST_NUMBER_TEXT, push_bytes, push_number};
use bk_tiling::MOST_SQUARES;
use itoa::Buffer;

/// No code is written in more bytes.
pub const LONGEST_CODE_TEXT: usize = MOST_SQUARES * (LONGEST_SIDE_TEXT + 2);

/// No size is written in more bytes.
pub const LONGEST_SIZE_TEXT: usize = 2 * LONGEST_NUMBER_TEXT + 1;

/// No side is written in more bytes.
pub const LONGEST_SIDE_TEXT: usize = 15;

/// Appends a code in its one spelling: each group in square brackets, `,` between its sides, and no blanks. The code
/// must have a group, and the line room for `LONGEST_CODE_TEXT` bytes.
pub fn write_code(code: &Code, line: &mut AnswerBuffer)
    requires some { 0 < length code.now }
    requires room { array_vec_len line.old + LONGEST_CODE_TEXT ≤ ANSWER_ROOM }
    ensures text { line.new.items ≡ line.old.items ++ code_text code.now }
    ensures short { length (code_text code.now) ≤ LONGEST_CODE_TEXT }
{
    for g in 0..code.groups() {
        spell_group(code.group(g), line);
    }
}

// Appends a group, for which there must be room.
fn spell_group(sides: &[u64], line: &mut AnswerBuffer)
    requires some { 0 < length sides.now }
    requires sides { AllByRecursion IsSide sides.now }
    requires room { array_vec_len line.old + (LONGEST_SIDE_TEXT + 2) * length sides.now ≤ ANSWER_ROOM }
    ensures { line.new.items ≡ line.old.items ++ group_text sides.now }
{
    push_bytes(b"[", line);
    push_side(sides[0], line);
    let others = &sides[1..];
    for side in others {
        push_bytes(b",", line);
        push_side(*side, line);
    }
    push_bytes(b"]", line);
}

// Appends a side, for which there must be room.
#[tactic(auto, using(crate::proofs::Spelling::short_side))]
fn push_side(side: u64, line: &mut AnswerBuffer)
    requires side { IsSide side }
    requires room { array_vec_len line.old + LONGEST_SIDE_TEXT ≤ ANSWER_ROOM }
    ensures text { line.new.items ≡ line.old.items ++ decimal side }
    ensures short { length (decimal side) ≤ LONGEST_SIDE_TEXT }
{
    let mut buffer = Buffer::new();
    push_bytes(buffer.format(side).as_bytes(), line);
}

/// Appends a size: the width, `x` and the height. The line must have room for `LONGEST_SIZE_TEXT` bytes.
pub fn write_size(width: u64, height: u64, line: &mut AnswerBuffer)
    requires { array_vec_len line.old + LONGEST_SIZE_TEXT ≤ ANSWER_ROOM }
    ensures text { line.new.items ≡ line.old.items ++ size_text width height }
    ensures short { length (size_text width height) ≤ LONGEST_SIZE_TEXT }
{
    push_number(width, line);
    push_bytes(b"x", line);
    push_number(height, line);
}
