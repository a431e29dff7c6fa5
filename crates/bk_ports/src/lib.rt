//! Where bytes come from and go to; and lines of bytes that come in any cuts, answered one after another.
//!
//! A line ends at a line feed, which isn't part of it, or at the end of the input. The limits of 8,192 bytes a line and
//! of 2^30 bytes an input are this program's own.
#![tactic(auto)]

ghost use Rattle.std.specs.Prelude.{ℕ, [], ◌+◌, ◌<◌, ◌≤◌, Bool, List, false, length, IfOk, OnOk, OnErr, Option};
ghost use Rattle.std.specs.Io.KnownBytes.{Appends, ReadConsumes};
ghost use Rattle.bk_ports.specs.WrittenAnswer.{HasOutcome, IsAnswerBegun};
ghost use Rattle.bk_ports.specs.Causes.{HasCause, AppendsPrefix};

mod block;
mod flushed;
mod input;
mod laws;
mod line;
mod memory;
mod standard;
mod steady;

use bk_grammar::AnswerBuffer;
pub use input::{MOST_BYTES, enter_lines};
pub use laws::{
    after_a_failed_call_the_other_stream_is_left, each_line_is_answered_before_the_next_read,
};
pub use line::{LARGEST_LINE_NUMBER, LONGEST_LINE};
pub use memory::{FillSource, MemSink, MemSource};
pub use standard::{StandardError, StandardOutput, StdSink, StdSource};
pub use steady::answer_lines;

/// A read or a write failed.
#[derive(Clone, Copy, Debug, PartialEq, Eq)]
pub struct Failed;

/// Where bytes come from.
pub trait Source {
    /// The bytes that are still to come, where the source tells them.
    ghost left: { Self → Option (List ℕ) };

    /// How many calls have failed.
    ghost faults: { Self → ℕ };

    /// Takes the next bytes into the front of the buffer, which must have room for one. Returns how many came; none
    /// come only at the end. If it fails, no byte was taken, and the count of faults has risen, unless it stands at its
    /// last value.
    fn read(&mut self, buf: &mut [u8]) -> Result<usize, Failed>
        requires { 0 < length buf.old }
        ensures count { IfOk result (λ n. n ≤ length buf.new) }
        ensures bytes { ReadConsumes (left self.old) (left self.new) result buf.new }
        ensures cause { HasCause (faults self.old) (faults self.new) result };
}

/// Where bytes go to.
pub trait Sink {
    /// The bytes that were taken, where the sink tells them.
    ghost written: { Self → Option (List ℕ) };

    /// How many calls have failed.
    ghost faults: { Self → ℕ };

    /// Writes all bytes, or fails and has written a prefix of them. If it fails, the count of faults has risen,
    /// unless it stands at its last value.
    fn write_all(&mut self, bytes: &[u8]) -> Result<(), Failed>
        ensures ok { OnOk result (Appends (written self.old) (written self.new) bytes.now) }
        ensures err { OnErr result (AppendsPrefix (written self.old) (written self.new) bytes.now) }
        ensures cause { HasCause (faults self.old) (faults self.new) result };
}

/// What came of a line.
#[derive(Clone, Copy)]
pub enum Outcome {
    /// It is answered, and not by a refusal; or it needs no answer.
    Accepted,
    /// It is answered by the text of a refusal.
    Refused,
    /// Memory was wanting, and nothing was written.
    NoMemory,
}

/// Answers lines, each for itself.
pub trait Answerer {
    /// Room to work in, for one line after another: it holds anything before and after.
    type Desk: Drop;

    /// A desk for a run.
    fn desk(&self) -> Self::Desk;

    /// The pieces that may be written for a line, each by one call, and whether they are the text of a refusal.
    ghost answers: { Self → List ℕ → List (List ℕ) → Bool → Type 0 };

    /// The lines at which memory may be wanting.
    ghost may_want: { Self → List ℕ → Type 0 };

    /// Writes the answer to a line, which comes without its line feed. Of a line of more than 8,192 bytes its first
    /// 8,193 come. The buffer holds any bytes before and after. Returns what came of the line, or that a write failed:
    /// then a beginning of an answer is written, which may be nothing or all of it.
    fn answer<O: Sink>(
        &self,
        line: &[u8],
        desk: &mut Self::Desk,
        buffer: &mut AnswerBuffer,
        out: &mut O,
    ) -> Result<Outcome, Failed>
        requires { length line.now ≤ LONGEST_LINE + 1 }
        ensures outcome { IfOk result (λ o. HasOutcome (answers self.now line.now) (may_want self.now line.now)
            (O.written out.old) (O.written out.new) o) }
        ensures failed { OnErr result
            (IsAnswerBegun (answers self.now line.now) (O.written out.old) (O.written out.new)) }
        ensures cause { HasCause (O.faults out.old) (O.faults out.new) result };

    /// An empty line needs no answer.
    ghost empty_line: { (a : Self) → answers a [] [] false };
}

/// Enters lines one after another, and keeps what it needs of them. Lines are numbered from 1, and all of them count.
pub trait Register {
    /// How a line is entered: the state before, the number of the line, the line, the pieces that are written for it,
    /// each by one call, whether they are the text of a refusal, and the state after.
    ghost enters: { Self → ℕ → List ℕ → List (List ℕ) → Bool → Self → Type 0 };

    /// Where memory may be wanting: the state before, the number of the line, and the line.
    ghost may_want: { Self → ℕ → List ℕ → Type 0 };

    /// What holds of the state before the line of this number.
    ghost is_ready: { Self → ℕ → Type 0 };

    /// Enters a line, which comes without its line feed, and writes what is to be written for it. Of a line of more
    /// than 8,192 bytes its first 8,193 come. Its number is at most 2^31, and the state must be ready for it. The
    /// buffer holds any bytes before and after. Returns what came of the line, or that a write failed: then a beginning
    /// of what is to be written for it is written, which may be nothing or all of it.
    fn enter<O: Sink>(
        &mut self,
        number: u64,
        line: &[u8],
        buffer: &mut AnswerBuffer,
        out: &mut O,
    ) -> Result<Outcome, Failed>
        requires short { length line.now ≤ LONGEST_LINE + 1 }
        requires early { number ≤ LARGEST_LINE_NUMBER }
        requires ready { is_ready self.old number }
        ensures outcome { IfOk result
            (λ o. HasOutcome (λ pieces refused. enters self.old number line.now pieces refused self.new)
            (may_want self.old number line.now) (O.written out.old) (O.written out.new) o) }
        ensures failed { OnErr result (IsAnswerBegun (λ pieces refused. (last : Self)
            × enters self.old number line.now pieces refused last)
            (O.written out.old) (O.written out.new)) }
        ensures cause { HasCause (O.faults out.old) (O.faults out.new) result }
        ensures ready { OnOk result (is_ready self.new (number + 1)) };

    /// An empty line changes nothing and needs no answer.
    ghost empty_line: { (s : Self) (n : ℕ) → enters s n [] [] false s };

    /// A line that follows an empty line can be entered after it.
    ghost still_ready: { (s : Self) (n : ℕ) → is_ready s n → is_ready s (n + 1) };
}

/// How a run over lines ends, and what stands written then.
#[derive(Clone, Copy, PartialEq, Eq)]
pub enum Ended {
    /// All lines of the input are answered, and none is refused.
    NoneRefused,
    /// All lines of the input are answered, and at least one is refused.
    SomeRefused,
    /// A read failed. All lines whose line feed was taken are answered.
    ReadFailed,
    /// A write failed. The beginning of the answers is written, in order; the failed write may have kept its whole
    /// piece.
    WriteFailed,
    /// Memory was wanting at a line. All lines before it are answered.
    NoMemory,
    /// 2^30 bytes were taken, and the next read gave one more. All lines whose line feed is among these 2^30 bytes are
    /// answered.
    TooMany,
}
