//! A writer that was flushed.

ghost use Rattle.std.specs.Io.KnownBytes.{Keeps};

use crate::Failed;
use std::io::Write;

// Says that a writer was flushed: nothing but `flush` makes it.
#[derive(Clone, Copy)]
pub struct Flushed {
    _seal: (),
}

// Flushes a writer.
pub fn flush<W: Write>(writer: &mut W) -> Result<Flushed, Failed>
    ensures { Keeps (W.contents writer.old) (W.contents writer.new) }
{
    writer.flush().map_err(|_| Failed)?;
    Ok(Flushed { _seal: () })
}
