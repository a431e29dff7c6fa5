//! The text of a flow.

ghost use Rattle.std.specs.Fmt.{signed_decimal};
ghost use Rattle.std.specs.Prelude.{flat_map, length, ◌+◌, ◌++◌, ◌≡◌, ◌≤◌, ◌∷◌};
ghost use Rattle.arrayvec.specs.ArrayVec.{array_vec_len};
ghost use Rattle.bk_grammar.specs.declared.TheConstants.{ANSWER_ROOM};
ghost use Rattle.bk_net.specs.declared.TheConstants.{MOST_WIRES};
ghost use Rattle.bk_report.specs.Answers.{flow_line};
ghost use Rattle.bk_report.specs.declared.flow.TheConstants.{LONGEST_CURRENTS_TEXT, LONGEST_WHOLE_TEXT};

use bk_flow::Flow;
use bk_grammar::{AnswerBuffer, push_bytes};
use bk_net::MOST_WIRES;
use itoa::Buffer;

/// No whole number is written in more bytes, with its sign.
const LONGEST_WHOLE_TEXT: usize = 40;

/// The currents of the wires are written in no more bytes, with a blank before each.
const LONGEST_CURRENTS_TEXT: usize = (LONGEST_WHOLE_TEXT + 1) * MOST_WIRES;

/// Writes a flow (Kirchhoff): the total and the currents in the order of the wires, joined by single blanks, each
/// negative one with `-` before it.
pub fn write_flow(flow: &Flow, out: &mut AnswerBuffer)
    ensures { out.new.items ≡ flow_line flow.now }
{
    out.clear();
    push_whole(flow.total(), out);
    push_currents(flow.currents(), out);
    out.push(b'\n');
}

// Appends currents with a blank before each.
fn push_currents(currents: &[i128], out: &mut AnswerBuffer)
    requires few { length currents.now ≤ MOST_WIRES }
    requires room { array_vec_len out.old + LONGEST_CURRENTS_TEXT ≤ ANSWER_ROOM }
    ensures text { out.new.items ≡ out.old.items ++ flat_map (λ c. 32 ∷ signed_decimal c) currents.now }
    ensures short { array_vec_len out.new ≤ array_vec_len out.old + LONGEST_CURRENTS_TEXT }
{
    for current in currents {
        out.push(b' ');
        push_whole(*current, out);
    }
}

// Appends a whole number, a negative one with `-` before its digits.
fn push_whole(number: i128, out: &mut AnswerBuffer)
    requires { array_vec_len out.old + LONGEST_WHOLE_TEXT ≤ ANSWER_ROOM }
    ensures text { out.new.items ≡ out.old.items ++ signed_decimal number }
    ensures short { length (signed_decimal number) ≤ LONGEST_WHOLE_TEXT }
{
    let mut buffer = Buffer::new();
    push_bytes(buffer.format(number).as_bytes(), out);
}
