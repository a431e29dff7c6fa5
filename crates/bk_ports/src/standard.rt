//! Readers and writers of std as sources and sinks.

ghost use Rattle.std.specs.Prelude.{◌≡◌, ℕ, ◌+◌, ◌-◌, ◌<◌, ◌≤◌, length, IfOk, OnOk, OnErr};
ghost use Rattle.std.specs.Io.KnownBytes.{Appends, ReadConsumes};
ghost use Rattle.bk_ports.specs.Causes.{counted, HasCause, AppendsPrefix};
ghost use Rattle.bk_ports.specs.ToldCalls.{count_after, told_of};

use crate::flushed::{Flushed, flush};
use crate::{Failed, Sink, Source};
use std::io::{Read, Stderr, Stdout, Write};

/// A reader of std. Each of its errors is answered `Failed` and counted, in a `u64` that stays at its last value.
#[derive(Drop)]
pub struct StdSource<R: Read> {
    inner: R,
    faults: u64,
}

impl<R: Read> StdSource<R> {
    /// The source of what the reader gives. It tells what the reader tells of its bytes.
    pub fn new(inner: R) -> StdSource<R>
        ensures left { ⟦<StdSource<R> as Source>⟧.left result ≡ R.remaining inner }
        ensures faults { ⟦<StdSource<R> as Source>⟧.faults result ≡ 0 }
    {
        StdSource { inner, faults: 0 }
    }
}

impl<R: Read> Source for StdSource<R> {
    ghost left = { λ s. R.remaining s.inner };

    ghost faults = { λ s. s.faults };

    fn read(&mut self, buf: &mut [u8]) -> Result<usize, Failed>
        ensures count { IfOk result (λ n. n ≤ length buf.new) }
        ensures bytes { let told = ⟦<StdSource<R> as Source>⟧.left in
            ReadConsumes (told self.old) (told self.new) result buf.new }
        ensures cause { let count = ⟦<StdSource<R> as Source>⟧.faults in
            HasCause (count self.old) (count self.new) result }
        ensures counts { let count = ⟦<StdSource<R> as Source>⟧.faults in
            OnErr result (count self.new ≡ counted (count self.old)) }
    {
        told(self.inner.read(buf), &mut self.faults)
    }
}

/// A writer of std. Each error, and each write that takes no byte of a piece that isn't empty, is answered `Failed` and
/// counted, in a `u64` that stays at its last value.
#[derive(Drop)]
pub struct StdSink<W: Write> {
    inner: W,
    faults: u64,
}

impl<W: Write> StdSink<W> {
    /// The sink that gives to the writer. It tells what the writer tells of its bytes.
    pub fn new(inner: W) -> StdSink<W>
        ensures written { ⟦<StdSink<W> as Sink>⟧.written result ≡ W.contents inner }
        ensures faults { ⟦<StdSink<W> as Sink>⟧.faults result ≡ 0 }
    {
        StdSink { inner, faults: 0 }
    }
}

impl<W: Write> Sink for StdSink<W> {
    ghost written = { λ s. W.contents s.inner };

    ghost faults = { λ s. s.faults };

    fn write_all(&mut self, bytes: &[u8]) -> Result<(), Failed>
        ensures ok { let told = ⟦<StdSink<W> as Sink>⟧.written in
            OnOk result (Appends (told self.old) (told self.new) bytes.now) }
        ensures err { let told = ⟦<StdSink<W> as Sink>⟧.written in
            OnErr result (AppendsPrefix (told self.old) (told self.new) bytes.now) }
        ensures cause { let count = ⟦<StdSink<W> as Sink>⟧.faults in
            HasCause (count self.old) (count self.new) result }
        ensures counts { let count = ⟦<StdSink<W> as Sink>⟧.faults in
            OnErr result (count self.new ≡ counted (count self.old)) }
    {
        match told(write_each(&mut self.inner, bytes), &mut self.faults) {
            Ok(Flushed { .. }) => Ok(()),
            Err(Failed) => Err(Failed),
        }
    }
}

/// A sink that is standard output. No other sink of this crate is one.
pub trait StandardOutput {}

impl StandardOutput for StdSink<Stdout> {}

/// A sink that is standard error. No other sink of this crate is one.
pub trait StandardError {}

impl StandardError for StdSink<Stderr> {}

// What is told of one call of a reader or a writer: its error is answered `Failed` and counted.
fn told<T: Drop, E: Drop>(called: Result<T, E>, faults: &mut u64) -> Result<T, Failed>
    ensures told { result ≡ told_of called }
    ensures count { faults.new ≡ count_after called faults.old }
    ensures cause { HasCause faults.old faults.new result }
{
    match called {
        Ok(given) => Ok(given),
        Err(_) => {
            *faults = faults.saturating_add(1);
            Err(Failed)
        }
    }
}

// Writes all bytes and flushes, or has written a prefix of them. Success can't be told without a flush, since only that
// gives a `Flushed`.
fn write_each<W: Write>(writer: &mut W, bytes: &[u8]) -> Result<Flushed, Failed>
    ensures ok { OnOk result (Appends (W.contents writer.old) (W.contents writer.new) bytes.now) }
    ensures prefix { AppendsPrefix (W.contents writer.old) (W.contents writer.new) bytes.now }
{
    let mut done = 0;
    while done < bytes.len() {
        match writer.write(&bytes[done..]) {
            Ok(0) => return Err(Failed),
            Ok(count) => done += count,
            Err(_) => return Err(Failed),
        }
    }
    flush(writer)
}
