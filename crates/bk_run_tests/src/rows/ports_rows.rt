//! One run of each source and sink, with faults.

ghost use Rattle.std.specs.Prelude.{◌<◌, length};

use bk_ports::{FillSource, MemSink, MemSource, Sink, Source, StdSink, StdSource};
use std::io::{self, ErrorKind, Read, Write};

// What one call of a source gives.
fn piece<'a, S: Source>(source: &mut S, buf: &'a mut [u8]) -> Option<&'a [u8]>
    requires { 0 < length buf.old }
{
    let count = source.read(buf).ok()?;
    Some(&buf[..count])
}

// Whether one call of a source gives this, or fails where this is "failed".
fn gives<S: Source>(source: &mut S, buf: &mut [u8], want: &str) -> bool
    requires { 0 < length buf.old }
{
    piece(source, buf).unwrap_or(b"failed") == want.as_bytes()
}

#[test]
fn a_memory_source_gives_pieces(rt: HostRuntime) {
    let mut source = MemSource::new(b"abcdef", 2, &[1]);
    let mut buf = [0; 4];
    for want in ["ab", "failed", "cd", "ef", ""] {
        assert!(rt; gives(&mut source, &mut buf, want), "{want}");
    }
}

#[test]
fn a_fill_source_gives_copies(rt: HostRuntime) {
    let mut source = FillSource::new(b'x', 5);
    let mut buf = [0; 3];
    for want in ["xxx", "xx", ""] {
        assert!(rt; gives(&mut source, &mut buf, want), "{want}");
    }
}

// Whether bytes fit into a sink, and it keeps this then.
fn keeps(sink: &mut MemSink<'_>, bytes: &str, fits: bool, kept: &str) -> bool {
    sink.write_all(bytes.as_bytes()).is_ok() == fits && sink.written() == kept.as_bytes()
}

// Writes one after another, whether they fit, and what is kept then.
fn writes_and_kept() -> &'static [(&'static str, bool, &'static str)] {
    &[
        ("abc", true, "abc"),
        ("def", false, "abcde"),
        ("fg", true, "abcdefg"),
        ("hi", false, "abcdefgh"),
        ("", true, "abcdefgh"),
    ]
}

#[test]
fn a_memory_sink_keeps_what_fits(rt: HostRuntime) {
    let mut room = [0; 8];
    let mut sink = MemSink::new(&mut room, &[(1, 2), (1, 9)]);
    for (bytes, fits, kept) in writes_and_kept() {
        assert!(rt; keeps(&mut sink, bytes, *fits, kept), "{bytes}");
    }
}

#[derive(Drop)]
struct Broken;

impl Read for Broken {
    fn read(&mut self, _buf: &mut [u8]) -> io::Result<usize> {
        Err(io::Error::from(ErrorKind::Other))
    }
}

impl Write for Broken {
    fn write(&mut self, buf: &[u8]) -> io::Result<usize> {
        Ok(buf.len())
    }

    fn flush(&mut self) -> io::Result<()> {
        Err(io::Error::from(ErrorKind::Other))
    }
}

#[test]
fn a_reader_is_a_source(rt: HostRuntime) {
    let mut buf = [0; 4];
    let mut source = StdSource::new(b"abcdef".as_slice());
    for want in ["abcd", "ef", ""] {
        assert!(rt; gives(&mut source, &mut buf, want), "{want}");
    }
    assert!(rt; StdSource::new(Broken).read(&mut buf).is_err());
}

#[test]
fn a_writer_is_a_sink(rt: HostRuntime) {
    let mut room = [0; 4];
    let mut sink = StdSink::new(room.as_mut_slice());
    assert!(rt; sink.write_all(b"abc").is_ok());
    assert!(rt; sink.write_all(b"de").is_err(), "a write takes no byte");
    assert!(rt;
        StdSink::new(Broken).write_all(b"a").is_err(),
        "a flush fails"
    );
}

// A reader of the digits from 1 on, one a call, whose second call is interrupted.
#[derive(Drop)]
struct Digits(u8);

impl Read for Digits {
    fn read(&mut self, buf: &mut [u8]) -> io::Result<usize> {
        self.0 = self.0.saturating_add(1);
        if self.0 == 2 {
            return Err(interrupted());
        }
        match buf.first_mut() {
            Some(first) => {
                *first = b'0'.saturating_add(self.0);
                Ok(1)
            }
            None => Ok(0),
        }
    }
}

#[test]
fn a_source_answers_an_error_and_reads_on(rt: HostRuntime) {
    let mut buf = [0; 4];
    let mut source = StdSource::new(Digits(0));
    for want in ["1", "failed", "3", "4"] {
        assert!(rt; gives(&mut source, &mut buf, want), "{want}");
    }
}

// A writer that does one thing at each call, as its bytes say: a digit is a write that takes at most so many bytes, `!`
// one that is interrupted, `f` a flush, and `x` one that fails. Any other call fails, and the writer stays where it is.
#[derive(Drop)]
struct Script(&'static [u8]);

fn interrupted() -> io::Error {
    io::Error::from(ErrorKind::Interrupted)
}

impl Write for Script {
    fn write(&mut self, buf: &[u8]) -> io::Result<usize> {
        let Some((step, rest)) = self.0.split_first() else {
            return Err(interrupted());
        };
        if step.is_ascii_digit() {
            self.0 = rest;
            return Ok(buf.len().min(usize::from(*step - b'0')));
        }
        if *step == b'!' {
            self.0 = rest;
        }
        Err(interrupted())
    }

    fn flush(&mut self) -> io::Result<()> {
        let Some((step, rest)) = self.0.split_first() else {
            return Err(interrupted());
        };
        if *step == b'f' || *step == b'x' {
            self.0 = rest;
        }
        if *step == b'f' {
            Ok(())
        } else {
            Err(interrupted())
        }
    }
}

// Writes one after another, and whether they succeed.
fn writes_and_answers() -> &'static [(&'static str, bool)] {
    &[
        ("abc", true),
        ("de", false),
        ("f", false),
        ("g", true),
        ("h", false),
        ("", true),
        ("i", false),
    ]
}

#[test]
fn a_sink_answers_an_error_and_writes_on(rt: HostRuntime) {
    let mut sink = StdSink::new(Script(b"21f!1x1f0f"));
    for (bytes, fits) in writes_and_answers() {
        assert!(rt;
            sink.write_all(bytes.as_bytes()).is_ok() == *fits,
            "{bytes}"
        );
    }
}
