//! A line about trial codes.

ghost use Rattle.bk_top.specs.Outside.{port};
ghost use Rattle.bk_top.specs.Running.{Tries};

use bk_gen::trial;
use bk_grammar::AnswerBuffer;
use bk_ports::{Failed, Sink};

// Writes the line about trial codes, and gives the status.
#[inline(never)]
pub(crate) fn try_codes<O: Sink>(seed: u64, count: u32, out: &mut O) -> u8
    ensures { Tries seed count (port O.written O.faults out.old) (port O.written O.faults out.new) result }
{
    let mut line = AnswerBuffer::new();
    trial(seed, count, &mut line);
    match out.write_all(line.as_slice()) {
        Ok(()) => 0,
        Err(Failed) => 4,
    }
}
