//! The line of a missing member.

ghost use Rattle.std.specs.Io.KnownBytes.{Appends};
ghost use Rattle.std.specs.Prelude.{OnErr, OnOk, length, ◌<◌, ◌≡◌};
ghost use Rattle.bk_ports.specs.Causes.{AppendsPrefix, HasCause};
ghost use Rattle.bk_code.specs.Code.{code_of as code_seen};
ghost use Rattle.bk_report.specs.ListLines.{missing_line};

use bk_code::Code;
use bk_grammar::AnswerBuffer;
use bk_ports::{Failed, Sink};
use bk_report::write_missing;
use bk_tiling::Tiling;
use bk_word::Word;

/// Writes the line of a missing member by one call. The code is that of the tiling, and the word must have a move.
pub(crate) fn write_missing_entry<O: Sink>(
    tiling: &Tiling,
    code: &Code,
    word: &Word,
    buffer: &mut AnswerBuffer,
    out: &mut O,
) -> Result<(), Failed>
    requires code { code.now ≡ code_seen tiling.now }
    requires some { 0 < length word.now }
    ensures written { OnOk result (Appends (O.written out.old) (O.written out.new) (missing_line tiling.now word.now)) }
    ensures begun { OnErr result
        (AppendsPrefix (O.written out.old) (O.written out.new) (missing_line tiling.now word.now)) }
    ensures cause { HasCause (O.faults out.old) (O.faults out.new) result }
{
    write_missing(tiling, code, word, buffer);
    out.write_all(buffer.as_slice())
}
