//! The lines of one block of bytes.

ghost use Rattle.std.specs.Prelude.{◌≡◌, ◌≤◌, ◌+◌, length, IfOk, IfErr, OnOk};
ghost use Rattle.bk_ports.specs.declared.line.TheConstants.{LARGEST_LINE_NUMBER};
ghost use Rattle.bk_ports.specs.Lines.{closed_lines, open_line, kept_front};
ghost use Rattle.bk_ports.specs.Answered.{CountFits};
ghost use Rattle.bk_ports.specs.Entering.{AreAllEntered, IsEntryStopped, entering_from};

use crate::line::{OpenLine, Stop, close_line, keep};
use crate::{Register, Sink};
use bk_grammar::AnswerBuffer;
use memchr::memchr;

// Enters the lines that end in the block, the first of which began with the kept bytes, and keeps what follows the
// last line feed. It says whether one of them is refused.
pub fn enter_block<R: Register, O: Sink>(
    register: &mut R,
    block: &[u8],
    kept: &mut OpenLine,
    buffer: &mut AnswerBuffer,
    out: &mut O,
) -> Result<bool, Stop>
    requires early { kept.old.number + length block.now ≤ LARGEST_LINE_NUMBER }
    requires ready { R.is_ready register.old kept.old.number }
    ensures entered { IfOk result
        (λ refused. AreAllEntered
        (entering_from (record { enters = R.enters; may_want = R.may_want }) register.old kept.old.number) register.new
        (closed_lines kept.old.front.items block.now) refused (O.written out.old) (O.written out.new)) }
    ensures stopped { IfErr result
        (λ stop. IsEntryStopped
        (entering_from (record { enters = R.enters; may_want = R.may_want }) register.old kept.old.number) stop
        (closed_lines kept.old.front.items block.now) (O.written out.old) (O.written out.new)) }
    ensures count { CountFits (O.faults out.old) (O.faults out.new) result }
    ensures ready { OnOk result (R.is_ready register.new kept.new.number) }
    ensures number { OnOk result (kept.new.number
        ≡ kept.old.number + length (closed_lines kept.old.front.items block.now)) }
    ensures early { OnOk result (kept.new.number ≤ kept.old.number + length block.now) }
    ensures front { OnOk result (kept.new.front.items ≡ kept_front (open_line kept.old.front.items block.now)) }
{
    let mut refused = false;
    let mut rest = block;
    'lines: while let Some(end) = memchr(b'\n', rest) {
        let is_refused = close_line(register, kept, &rest[..end], buffer, out)?;
        refused |= is_refused;
        rest = &rest[end + 1..];
    }
    keep(&mut kept.front, rest);
    Ok(refused)
}
