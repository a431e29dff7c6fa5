//! Runs of command lines for the tests.

ghost use Rattle.std.specs.Prelude.{◌<◌};

use super::command_words::words;
use arrayvec::ArrayVec;
use bk_ports::{MemSink, MemSource, Sink, Source};
use bk_top::run;
use std::alloc::{AllocError, Global};
use std::process::Abort;

// What is read or written in a run.
pub(crate) type Text = ArrayVec<u8, 9000>;

// The number of a write that fails, and how many bytes it keeps.
pub(crate) type FailedWrite = (u64, usize);

// A command line, its input, the status and what is written.
pub(crate) type Row = (&'static str, &'static str, u8, &'static str);

// A command line, its input, the read and the write that fail, the status and what is written.
pub(crate) type FailingRow = (
    &'static str,
    &'static str,
    u64,
    FailedWrite,
    u8,
    &'static str,
);

// The number of no read.
pub(crate) const NO_READ: u64 = u64::MAX;

// Where no write fails.
pub(crate) const NO_WRITE: FailedWrite = (u64::MAX, 0);

// The status of a run.
pub(crate) fn status_of<S: Source, O: Sink, E: Sink>(
    alloc: Global,
    words: &[String],
    source: &mut S,
    out: &mut O,
    err: &mut E,
) -> u8 {
    run(alloc, words, source, out, err)
}

// Runs a command line over a source, with no room for errors, and gives the status and what is written.
pub(crate) fn ran<S: Source>(
    alloc: Global,
    line: &str,
    source: &mut S,
    write: FailedWrite,
) -> Result<(u8, Text), AllocError> {
    let words = words(alloc, line)?;
    let mut room = [0; 9000];
    let writes = [write];
    let mut out = MemSink::new(&mut room, &writes);
    let mut no_room = [];
    let mut err = MemSink::new(&mut no_room, &[]);
    let status = status_of(alloc, &words, source, &mut out, &mut err);
    let mut text = ArrayVec::new();
    let _ = text.try_extend_from_slice(out.written());
    Ok((status, text))
}

// Whether a command line over a source ends with this status and writes this.
pub(crate) fn ends_so<S: Source>(
    alloc: Global,
    line: &str,
    source: &mut S,
    write: FailedWrite,
    want: (u8, &[u8]),
) -> bool {
    match ran(alloc, line, source, write) {
        Ok((status, text)) => status == want.0 && text.as_slice() == want.1,
        Err(AllocError) => false,
    }
}

// Whether a command line over an input that is read at once ends with this status and writes this.
pub(crate) fn ends_at_once(alloc: Global, line: &str, input: &[u8], want: (u8, &[u8])) -> bool {
    let mut source = MemSource::new(input, 9_000, &[]);
    ends_so(alloc, line, &mut source, NO_WRITE, want)
}

// Whether a command line ends with the status and writes what a row says, where a read gives at most so many bytes.
pub(crate) fn is_row(alloc: Global, most: usize, row: &FailingRow) -> bool
    requires some { 0 < most }
{
    let (line, input, read, write, status, output) = row;
    let reads = [*read];
    let mut source = MemSource::new(input.as_bytes(), most, &reads);
    let want = (*status, output.as_bytes());
    ends_so(alloc, line, &mut source, *write, want)
}

// Asserts that each command line ends and writes as its row says, where no read and no write fails.
pub(crate) fn expect_rows(rt: &impl Abort, alloc: Global, most: usize, rows: &[Row])
    requires some { 0 < most }
{
    for (line, input, status, output) in rows {
        let row = (*line, *input, NO_READ, NO_WRITE, *status, *output);
        assert!(rt; is_row(alloc, most, &row), "{line} over {input}");
    }
}

// Asserts that each command line ends and writes as its row says, with the reads and the writes that fail.
pub(crate) fn expect_failing_rows(rt: &impl Abort, alloc: Global, most: usize, rows: &[FailingRow])
    requires some { 0 < most }
{
    for row in rows {
        let (line, input) = (row.0, row.1);
        assert!(rt; is_row(alloc, most, row), "{line} over {input}");
    }
}

// A text so many times.
pub(crate) fn repeated(alloc: Global, text: &[u8], times: usize) -> Result<Vec<u8>, AllocError> {
    let mut all = Vec::new(alloc);
    for _ in 0..times {
        all.extend_from_slice(text)?;
    }
    Ok(all)
}

// A front, a part so many times, and an end.
pub(crate) type Parts = (&'static str, &'static str, usize, &'static str);

// Adds them to a text.
pub(crate) fn add(text: &mut Text, parts: Parts) {
    let (front, part, times, end) = parts;
    let _ = text.try_extend_from_slice(front.as_bytes());
    for _ in 0..times {
        let _ = text.try_extend_from_slice(part.as_bytes());
    }
    let _ = text.try_extend_from_slice(end.as_bytes());
}

// The text of them alone.
pub(crate) fn built(parts: Parts) -> Text {
    let mut text = ArrayVec::new();
    add(&mut text, parts);
    text
}

// Whether a command line over such an input, which is read at once, ends with this status and writes such a text.
pub(crate) fn is_built(alloc: Global, line: &str, input: Parts, status: u8, output: Parts) -> bool {
    let (text, answer) = (built(input), built(output));
    ends_at_once(alloc, line, &text, (status, &answer))
}
