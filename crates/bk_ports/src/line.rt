//! One line, which may come in pieces.

ghost use Rattle.std.specs.Prelude.{◌≡◌, ◌≤◌, ◌+◌, ◌++◌, ◌∷◌, [], length, IfOk, IfErr, OnOk};
ghost use Rattle.bk_ports.specs.Lines.{kept_front};
ghost use Rattle.bk_ports.specs.WrittenAnswer.{IsWritten, IsStopped};
ghost use Rattle.bk_ports.specs.Answered.{CountFits};
ghost use Rattle.bk_ports.specs.Entering.{AreAllEntered, IsEntryStopped, entering_from};

use crate::{Failed, Outcome, Register, Sink};
use arrayvec::ArrayVec;
use bk_grammar::AnswerBuffer;

/// How many bytes a line may have. A longer one is refused, whatever it holds.
pub const LONGEST_LINE: usize = 8_192;

/// The largest number that a line may be entered with. The lines of an input have smaller ones.
pub const LARGEST_LINE_NUMBER: u64 = 1 << 31;

// The most bytes that are kept of a line: one more than it may have.
const KEPT: usize = LONGEST_LINE + 1;

// What is kept of a line: its first 8,193 bytes.
pub type LineFront = ArrayVec<u8, KEPT>;

// A line whose end has not come.
#[derive(Drop)]
pub struct OpenLine {
    // Its number, from 1.
    pub number: u64,
    // What is kept of its bytes.
    pub front: LineFront,
}

// Why no further line is entered.
#[derive(Clone, Copy)]
pub enum Stop {
    WriteFailed,
    NoMemory,
}

// Adds bytes to a line, as far as they are kept.
pub fn keep(front: &mut LineFront, piece: &[u8])
    ensures { front.new.items ≡ kept_front (front.old.items ++ piece.now) }
{
    let fitting = front.remaining_capacity().min(piece.len());
    let _fits = front.try_extend_from_slice(&piece[..fitting]);
}

// Enters a line, of which the kept front is here, and says whether it is refused.
pub fn enter_line<R: Register, O: Sink>(
    register: &mut R,
    number: u64,
    line: &[u8],
    buffer: &mut AnswerBuffer,
    out: &mut O,
) -> Result<bool, Stop>
    requires short { length line.now ≤ LONGEST_LINE + 1 }
    requires early { number ≤ LARGEST_LINE_NUMBER }
    requires ready { R.is_ready register.old number }
    ensures entered { IfOk result
        (λ refused. IsWritten (λ pieces p. R.enters register.old number line.now pieces p register.new)
        (O.written out.old) (O.written out.new) refused) }
    ensures stopped { IfErr result (λ stop. IsStopped (λ pieces p. (last : R)
        × R.enters register.old number line.now pieces p last)
        (R.may_want register.old number line.now) (O.written out.old) (O.written out.new) stop) }
    ensures count { CountFits (O.faults out.old) (O.faults out.new) result }
    ensures ready { OnOk result (R.is_ready register.new (number + 1)) }
{
    if line.is_empty() {
        return Ok(false);
    }
    match register.enter(number, line, buffer, out) {
        Ok(Outcome::Accepted) => Ok(false),
        Ok(Outcome::Refused) => Ok(true),
        Ok(Outcome::NoMemory) => Err(Stop::NoMemory),
        Err(Failed) => Err(Stop::WriteFailed),
    }
}

// Enters the line that began with the kept bytes and has this end, and says whether it is refused.
pub fn close_line<R: Register, O: Sink>(
    register: &mut R,
    kept: &mut OpenLine,
    end: &[u8],
    buffer: &mut AnswerBuffer,
    out: &mut O,
) -> Result<bool, Stop>
    requires early { kept.old.number ≤ LARGEST_LINE_NUMBER }
    requires ready { R.is_ready register.old kept.old.number }
    ensures entered { IfOk result
        (λ refused. AreAllEntered
        (entering_from (record { enters = R.enters; may_want = R.may_want }) register.old kept.old.number) register.new
        ((kept.old.front.items ++ end.now) ∷ []) refused (O.written out.old) (O.written out.new)) }
    ensures stopped { IfErr result
        (λ stop. IsEntryStopped
        (entering_from (record { enters = R.enters; may_want = R.may_want }) register.old kept.old.number) stop
        ((kept.old.front.items ++ end.now) ∷ []) (O.written out.old) (O.written out.new)) }
    ensures count { CountFits (O.faults out.old) (O.faults out.new) result }
    ensures ready { OnOk result (R.is_ready register.new kept.new.number) }
    ensures next { kept.new.number ≡ kept.old.number + 1 }
    ensures emptied { kept.new.front.items ≡ [] }
{
    let number = kept.number;
    kept.number = number + 1;
    if kept.front.is_empty() {
        let front = &end[..end.len().min(KEPT)];
        return enter_line(register, number, front, buffer, out);
    }
    keep(&mut kept.front, end);
    let entered = enter_line(register, number, &kept.front, buffer, out);
    kept.front.clear();
    entered
}
