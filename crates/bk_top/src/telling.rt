//! The texts that are written on errors.

ghost use Rattle.bk_ask.specs.Help.{help_text, usage};
ghost use Rattle.bk_top.specs.Outside.{port};
ghost use Rattle.bk_top.specs.Running.{IsToldText};

use bk_ask::{write_help, write_usage};
use bk_grammar::AnswerBuffer;
use bk_ports::Sink;

// Writes how a command line is built.
pub(crate) fn tell_usage<E: Sink>(err: &mut E)
    ensures { IsToldText usage (port E.written E.faults err.old) (port E.written E.faults err.new) }
{
    let mut text = AnswerBuffer::new();
    write_usage(&mut text);
    try_to_write(text.as_slice(), err);
}

// Writes the text of `help`.
pub(crate) fn tell_help<E: Sink>(err: &mut E)
    ensures { IsToldText help_text (port E.written E.faults err.old) (port E.written E.faults err.new) }
{
    let mut text = AnswerBuffer::new();
    write_help(&mut text);
    try_to_write(text.as_slice(), err);
}

// Writes a text by one call. Where that fails, nothing more is done.
fn try_to_write<E: Sink>(text: &[u8], err: &mut E)
    ensures { IsToldText text.now (port E.written E.faults err.old) (port E.written E.faults err.new) }
{
    let _ = err.write_all(text);
}
