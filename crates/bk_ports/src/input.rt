//! All lines of an input.

ghost use Rattle.std.specs.Prelude.{◌≡◌, ◌≤◌, ◌<◌, ◌+◌, ◌||◌, IfOk, IfErr, length};
ghost use Rattle.std.specs.Io.KnownBytes.{ReadConsumes};
ghost use Rattle.bk_ports.specs.Causes.{HasCause};
ghost use Rattle.bk_ports.specs.declared.line.TheConstants.{LARGEST_LINE_NUMBER};
ghost use Rattle.bk_ports.specs.Lines.{line_at_end};
ghost use Rattle.bk_ports.specs.ReadSize.{asked_count};
ghost use Rattle.bk_ports.specs.Answered.{CountFits};
ghost use Rattle.bk_ports.specs.Ending.{EndsWith, ended_of, streams_between, verdict_of};
ghost use Rattle.bk_ports.specs.Entering.{AreAllEntered, IsEntryStopped, entering_from, entries_of};
ghost use Rattle.bk_ports.specs.Faults.{CountsTell, IsCalm, IsDoneOrWanting, faults_between};

use crate::block::enter_block;
use crate::line::{LineFront, OpenLine, Stop, enter_line};
use crate::{Ended, Failed, Register, Sink, Source};
use bk_grammar::AnswerBuffer;

/// The most bytes that are taken of an input.
pub const MOST_BYTES: usize = 1 << 30;

// The most bytes that a read asks for.
const BLOCK: usize = 16_384;

/// Takes the bytes of the source to their end and enters their lines in the register, in order and numbered from 1.
/// Each line that was taken with its line feed is entered before the next read. Of an input of more than 2^30 bytes,
/// 2^30 are taken, and then a read gives one more. Returns how the run ended.
pub fn enter_lines<R: Register, S: Source, O: Sink>(
    register: &mut R,
    source: &mut S,
    out: &mut O,
) -> Ended
    requires { R.is_ready register.old 1 }

    // What each ending says of the bytes and of the register.
    ensures ending { EndsWith
        (entries_of (entering_from (record { enters = R.enters; may_want = R.may_want }) register.old 1) register.new)
        (streams_between S.left O.written (source.old, out.old) (source.new, out.new))
        result }

    // Where nothing goes wrong, all lines are entered, or memory is wanting.
    ensures complete { IsCalm (S.left source.old)
        (faults_between S.faults O.faults (source.old, out.old) (source.new, out.new))
        → IsDoneOrWanting result }

    // What the ending tells of the counts of faults.
    ensures faults { CountsTell result
        (faults_between S.faults O.faults (source.old, out.old) (source.new, out.new)) }
{
    let mut block = [0u8; BLOCK];
    let mut kept = OpenLine {
        number: 1,
        front: LineFront::new(),
    };
    let mut buffer = AnswerBuffer::new();
    let mut refused = false;
    let mut taken: usize = 0;
    'reads: loop {
        let Ok(count) = read_block(source, &mut block, taken) else {
            return Ended::ReadFailed;
        };
        if count == 0 {
            return match enter_last(register, &kept, &mut buffer, out) {
                Ok(is_refused) => verdict(refused | is_refused),
                Err(stop) => stop.ended(),
            };
        }
        if taken == MOST_BYTES {
            return Ended::TooMany;
        }
        match enter_block(register, &block[..count], &mut kept, &mut buffer, out) {
            Ok(is_refused) => refused |= is_refused,
            Err(stop) => return stop.ended(),
        }
        taken += count;
    }
}

impl Stop {
    // How a run ends that stopped so.
    fn ended(self) -> Ended
        ensures { result ≡ ended_of self }
    {
        match self {
            Stop::WriteFailed => Ended::WriteFailed,
            Stop::NoMemory => Ended::NoMemory,
        }
    }
}

// Takes the next bytes into the front of the block, none past the most that are taken, or past them at most one.
// Returns how many came.
fn read_block<S: Source>(
    source: &mut S,
    block: &mut [u8; BLOCK],
    taken: usize,
) -> Result<usize, Failed>
    requires { taken ≤ MOST_BYTES }
    ensures count { IfOk result (λ n. n ≤ BLOCK) }
    ensures within { IfOk result (λ n. taken < MOST_BYTES → taken + n ≤ MOST_BYTES) }
    ensures one { IfOk result (λ n. taken ≡ MOST_BYTES → n ≤ 1) }
    ensures bytes { ReadConsumes (S.left source.old) (S.left source.new) result block.new }
    ensures cause { HasCause (S.faults source.old) (S.faults source.new) result }
{
    let most = (MOST_BYTES - taken).clamp(1, BLOCK);
    read_once(source, &mut block[..most], taken)
}

// Reads once, and returns how many bytes came. The buffer must be as long as a read should ask for once `taken` bytes
// were taken. Each read of an input is this one.
fn read_once<S: Source>(source: &mut S, buf: &mut [u8], taken: usize) -> Result<usize, Failed>
    requires asked { length buf.old ≡ asked_count taken }
    ensures count { IfOk result (λ n. n ≤ length buf.new) }
    ensures bytes { ReadConsumes (S.left source.old) (S.left source.new) result buf.new }
    ensures cause { HasCause (S.faults source.old) (S.faults source.new) result }
{
    source.read(buf)
}

// Enters the line that the end of the input ends, if it has bytes, and says whether it is refused.
fn enter_last<R: Register, O: Sink>(
    register: &mut R,
    kept: &OpenLine,
    buffer: &mut AnswerBuffer,
    out: &mut O,
) -> Result<bool, Stop>
    requires early { kept.now.number ≤ LARGEST_LINE_NUMBER }
    requires ready { R.is_ready register.old kept.now.number }
    ensures entered { IfOk result
        (λ refused. AreAllEntered
        (entering_from (record { enters = R.enters; may_want = R.may_want }) register.old kept.now.number) register.new
        (line_at_end kept.now.front.items) refused (O.written out.old) (O.written out.new)) }
    ensures stopped { IfErr result
        (λ stop. IsEntryStopped
        (entering_from (record { enters = R.enters; may_want = R.may_want }) register.old kept.now.number) stop
        (line_at_end kept.now.front.items) (O.written out.old) (O.written out.new)) }
    ensures count { CountFits (O.faults out.old) (O.faults out.new) result }
{
    if kept.front.is_empty() {
        return Ok(false);
    }
    enter_line(register, kept.number, &kept.front, buffer, out)
}

// How a run ends that entered all lines.
fn verdict(refused: bool) -> Ended
    ensures { result ≡ verdict_of refused }
{
    if refused {
        Ended::SomeRefused
    } else {
        Ended::NoneRefused
    }
}
