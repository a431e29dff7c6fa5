//! Lines that are answered by a command, each for itself.

ghost use Rattle.bk_answer.specs.Answer.{AnswersLine, MayWant};
ghost use Rattle.bk_ports.specs.Answered.{answers_of, of_fronts};
ghost use Rattle.bk_ports.specs.Ending.{EndsWith, streams_between};
ghost use Rattle.bk_ports.specs.Faults.{CountsTell, faults_between};

use bk_answer::{Command, MemoryAnswerer, PlainAnswerer};
use bk_ports::{Ended, Sink, Source, answer_lines};
use std::alloc::Global;

// Answers the lines of a source by a command. What answers them has an allocator only where the command takes memory.
pub(crate) fn answer_by<S: Source, O: Sink>(
    alloc: Global,
    command: Command,
    source: &mut S,
    out: &mut O,
) -> Ended
    ensures ending { EndsWith
        (answers_of (of_fronts (record { answers = AnswersLine command; may_want = MayWant command })))
        (streams_between S.left O.written (source.old, out.old) (source.new, out.new))
        result }
    ensures faults { CountsTell result
        (faults_between S.faults O.faults (source.old, out.old) (source.new, out.new)) }
{
    match command {
        Command::Plain(command) => answer_lines(&PlainAnswerer { command }, source, out),
        Command::Memory(command) => answer_lines(&MemoryAnswerer { command, alloc }, source, out),
    }
}
