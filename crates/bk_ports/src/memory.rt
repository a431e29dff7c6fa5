//! Sources and sinks in memory. They take no memory of their own.

ghost use Rattle.std.specs.Prelude.{◌≡◌, ℕ, ◌+◌, ◌-◌, ◌<◌, ◌≤◌, ◌++◌, ◌↔◌, [], List, length, IfOk, OnOk, OnErr, IsOk};
ghost use Rattle.std.specs.Prelude.{IsErr, Some, None, Contains};
ghost use Rattle.std.specs.Prelude.{min, take, replicate};
ghost use Rattle.std.specs.Io.KnownBytes.{Appends, ReadConsumes};
ghost use Rattle.bk_ports.specs.Causes.{counted, HasCause, AppendsPrefix};
ghost use Rattle.bk_ports.specs.Stores.{Copies, given_count, after_read, limit_of, fitting_count, kept_count};
ghost use Rattle.bk_ports.specs.Stores.{after_write};

use crate::{Failed, Sink, Source};
use std::marker::Model;

/// Bytes in memory, given in pieces, where some calls fail.
#[derive(Drop)]
pub struct MemSource<'a> {
    bytes: &'a [u8],
    most: usize,
    fails: &'a [u64],
    call: u64,
    faults: u64,
}

impl<'a> Model for MemSource<'a> {
    ghost use Rattle.std.specs.Prelude.{◌<◌};
    ghost use Rattle.bk_ports.specs.Stores.{Supply};

    ghost Value = { Supply };

    ghost view = { λ s. record {
      left = s.bytes.now;
      most = s.most;
      fails = s.fails.now;
      call = s.call;
      faults = s.faults;
    } };

    ghost invariant = { λ s. 0 < s.most };
}

impl<'a> MemSource<'a> {
    /// The source of these bytes, which gives at most `most` of them in a call, 1 or more. The calls whose numbers,
    /// from 0, stand in `fails` fail and give nothing.
    pub fn new(bytes: &'a [u8], most: usize, fails: &'a [u64]) -> MemSource<'a>
        requires { 0 < most }
        ensures { result ≡ record { left = bytes.now; most = most; fails = fails.now; call = 0; faults = 0 } }
    {
        MemSource {
            bytes,
            most,
            fails,
            call: 0,
            faults: 0,
        }
    }
}

impl Source for MemSource<'_> {
    ghost left = { λ s. Some s.left };

    ghost faults = { λ s. s.faults };

    fn read(&mut self, buf: &mut [u8]) -> Result<usize, Failed>
        requires { 0 < length buf.old }
        ensures count { IfOk result (λ n. n ≤ length buf.new) }
        ensures bytes { ReadConsumes (Some self.old.left) (Some self.new.left) result buf.new }
        ensures cause { HasCause self.old.faults self.new.faults result }

        // The exact result.
        ensures fails { IsErr result ↔ Contains self.old.fails self.old.call }
        ensures given { IfOk result (λ n. n ≡ given_count self.old (length buf.old)) }
        ensures after { self.new ≡ after_read self.old result }
    {
        let call = self.call;
        self.call = call.saturating_add(1);
        if self.fails.contains(&call) {
            self.faults = self.faults.saturating_add(1);
            return Err(Failed);
        }
        let count = self.bytes.len().min(buf.len()).min(self.most);
        let (now, later) = self.bytes.split_at(count);
        buf[..count].copy_from_slice(now);
        self.bytes = later;
        Ok(count)
    }
}

/// Copies of one byte, given without a fault.
#[derive(Drop)]
pub struct FillSource {
    byte: u8,
    left: u64,
}

impl Model for FillSource {
    ghost use Rattle.bk_ports.specs.Stores.{Copies};

    ghost Value = { Copies };

    ghost view = { λ s. record { byte = s.byte; count = s.left } };
}

impl FillSource {
    /// The source of `count` copies of the byte.
    pub fn new(byte: u8, count: u64) -> FillSource
        ensures { result ≡ record { byte = byte; count = count } }
    {
        FillSource { byte, left: count }
    }
}

impl Source for FillSource {
    ghost left = { λ s. Some (replicate s.count s.byte) };

    ghost faults = { λ _. 0 };

    fn read(&mut self, buf: &mut [u8]) -> Result<usize, Failed>
        requires { 0 < length buf.old }
        ensures count { IfOk result (λ n. n ≤ length buf.new) }
        ensures bytes { let told = λ (s : Copies). Some (replicate s.count s.byte) in
            ReadConsumes (told self.old) (told self.new) result buf.new }
        ensures cause { HasCause 0 0 result }

        // The exact result.
        ensures ok { IsOk result }
        ensures given { IfOk result (λ n. n ≡ min self.old.count (length buf.old)) }
        ensures after { IfOk result (λ n. self.new ≡ record self.old { count = self.old.count - n }) }
    {
        let count = self.left.min(buf.len() as u64);
        buf[..count as usize].fill(self.byte);
        self.left -= count;
        Ok(count as usize)
    }
}

/// Room in memory, where some calls fail.
#[derive(Drop)]
pub struct MemSink<'a> {
    room: &'a mut [u8],
    kept: usize,
    fails: &'a [(u64, usize)],
    call: u64,
    faults: u64,
}

impl<'a> Model for MemSink<'a> {
    ghost use Rattle.std.specs.Prelude.{◌≤◌, length, take};
    ghost use Rattle.bk_ports.specs.Stores.{Store};

    ghost Value = { Store };

    ghost view = { λ s. record {
      room = length s.room.now;
      kept = take s.kept s.room.now;
      fails = s.fails.now;
      call = s.call;
      faults = s.faults;
    } };

    ghost invariant = { λ s. s.kept ≤ length s.room.now };
}

impl<'a> MemSink<'a> {
    /// The sink that keeps bytes in the room. A call whose number, from 0, stands first in a pair of `fails` fails, and
    /// keeps as many bytes of its piece as the first such pair's second number says, at most those that fit. A call
    /// whose piece doesn't fit fails, and keeps what fits.
    pub fn new(room: &'a mut [u8], fails: &'a [(u64, usize)]) -> MemSink<'a>
        ensures { result ≡ record { room = length room.old; kept = []; fails = fails.now; call = 0; faults = 0 } }
    {
        MemSink {
            room,
            kept: 0,
            fails,
            call: 0,
            faults: 0,
        }
    }

    /// The bytes that were kept.
    pub fn written(&self) -> &[u8]
        ensures { result.now ≡ self.now.kept }
    {
        &self.room[..self.kept]
    }
}

impl Sink for MemSink<'_> {
    ghost written = { λ s. Some s.kept };

    ghost faults = { λ s. s.faults };

    fn write_all(&mut self, bytes: &[u8]) -> Result<(), Failed>
        ensures ok { OnOk result (Appends (Some self.old.kept) (Some self.new.kept) bytes.now) }
        ensures err { OnErr result (AppendsPrefix (Some self.old.kept) (Some self.new.kept) bytes.now) }
        ensures cause { HasCause self.old.faults self.new.faults result }

        // The exact result.
        ensures fits { IsOk result
            ↔ ((limit_of self.old.fails self.old.call ≡ None) × (fitting_count self.old bytes.now ≡ length bytes.now)) }
        ensures after { self.new ≡ after_write self.old bytes.now result }
    {
        let limit = limit_at(self.fails, self.call);
        self.call = self.call.saturating_add(1);
        let fitting = bytes.len().min(self.room.len() - self.kept);
        let count = fitting.min(limit.unwrap_or(bytes.len()));
        copy_at(self.room, self.kept, &bytes[..count]);
        self.kept += count;
        if limit.is_some() || fitting < bytes.len() {
            self.faults = self.faults.saturating_add(1);
            return Err(Failed);
        }
        Ok(())
    }
}

// How many bytes a call may keep, where it is one that fails.
fn limit_at(fails: &[(u64, usize)], call: u64) -> Option<usize>
    ensures { result ≡ limit_of fails.now call }
{
    let (_, most) = fails.iter().find(|(number, _)| *number == call)?;
    Some(*most)
}

// Writes bytes from a place on.
fn copy_at(room: &mut [u8], at: usize, bytes: &[u8])
    requires { at + length bytes.now ≤ length room.old }
    ensures { take (at + length bytes.now) room.new ≡ take at room.old ++ bytes.now }
{
    room[at..at + bytes.len()].copy_from_slice(bytes);
}
