//! How many bytes each read asks for: 16,384, at most what is left of the first 2^30 bytes, and then one.

ghost use Rattle.std.specs.Prelude.{None};

use super::command_runs::{NO_WRITE, ran};
use arrayvec::ArrayVec;
use bk_ports::{Failed, Source};
use std::alloc::{AllocError, Global};
use std::process::Abort;

// Lengths of buffers, and how many reads in a row came with each.
type Asked = ArrayVec<(usize, u32), 8>;

// Copies of `;`, at most so many in a read. It notes what each read asks for.
#[derive(Drop)]
struct NotingSource {
    left: u64,
    most: u64,
    asked: Asked,
}

impl Source for NotingSource {
    ghost left = { λ _. None };

    ghost faults = { λ _. 0 };

    fn read(&mut self, buf: &mut [u8]) -> Result<usize, Failed> {
        note(&mut self.asked, buf.len());
        let count = self.left.min(self.most).min(buf.len() as u64);
        buf[..count as usize].fill(b';');
        self.left -= count;
        Ok(count as usize)
    }
}

// Adds a read that asks for so many bytes.
fn note(asked: &mut Asked, length: usize) {
    let count = asked.len();
    if count > 0 && asked[count - 1].0 == length {
        asked[count - 1].1 = asked[count - 1].1.saturating_add(1);
    } else {
        let _ = asked.try_push((length, 1));
    }
}

// What the reads of a command ask for over so many bytes, and its status.
fn asked(alloc: Global, command: &str, left: u64, most: u64) -> Result<(Asked, u8), AllocError> {
    let mut source = NotingSource {
        left,
        most,
        asked: ArrayVec::new(),
    };
    let (status, _) = ran(alloc, command, &mut source, NO_WRITE)?;
    Ok((source.asked, status))
}

// So many bytes, the most in a read, and how many reads ask for a block.
fn short_inputs() -> &'static [(u64, u64, u32)] {
    &[
        (0, 16_384, 1),
        (3, 16_384, 2),
        (3, 1, 4),
        (16_383, 16_384, 2),
        (16_384, 16_384, 2),
        (16_385, 16_384, 3),
        (32_768, 16_384, 3),
    ]
}

// Whether the reads of a command over so many bytes ask for this, and its status, if one is told, is this.
fn asks(
    alloc: Global,
    command: &str,
    input: (u64, u64),
    want: &[(usize, u32)],
    end: Option<u8>,
) -> bool {
    match asked(alloc, command, input.0, input.1) {
        Ok((asked, status)) => {
            asked.as_slice() == want && (end.is_none() || end == Some(status))
        }
        Err(AllocError) => false,
    }
}

// Asserts them of a command.
fn expect_short(rt: &impl Abort, alloc: Global, command: &str) {
    for (left, most, times) in short_inputs() {
        let asks = asks(alloc, command, (*left, *most), &[(16_384, *times)], None);
        assert!(rt; asks, "{command} {left}");
    }
}

// A whole block is asked for, also behind an input that ends with one.
#[test]
fn reads_of_short_inputs(rt: HostRuntime) {
    for command in [
        "check",
        "canon",
        "images",
        "net",
        "dual",
        "draw",
        "word",
        "flow",
        "solve",
        "verify --order 2",
        "alike",
        "pair",
    ] {
        expect_short(&rt, rt.alloc(), command);
    }
}

// So many bytes, the most in a read, what the reads ask for, and the status.
type Long = (u64, u64, &'static [(usize, u32)], u8);

// The length of the longest input.
const WHOLE: u64 = 1 << 30;

// Inputs about as long as the longest.
static LONG_INPUTS: [Long; 4] = [
    (WHOLE - 5, 16_384, &[(16_384, 65_536), (5, 1)], 1),
    (WHOLE, 16_384, &[(16_384, 65_536), (1, 1)], 1),
    (WHOLE + 1, 16_384, &[(16_384, 65_536), (1, 1)], 7),
    (
        WHOLE + 9,
        10_000,
        &[(16_384, 107_373), (11_824, 1), (1_824, 1), (1, 1)],
        7,
    ),
];

fn long_inputs() -> &'static [Long] {
    &LONG_INPUTS
}

// Asserts them of a command.
fn expect_long(rt: &impl Abort, alloc: Global, command: &str) {
    for (left, most, want, status) in long_inputs() {
        let asks = asks(alloc, command, (*left, *most), want, Some(*status));
        assert!(rt; asks, "{command} {left}");
    }
}

// Towards 2^30 bytes no read asks for more than are left of them, and behind them one asks for one byte.
#[test]
fn reads_of_long_inputs(rt: HostRuntime) {
    for command in ["check", "verify --order 2", "alike", "pair"] {
        expect_long(&rt, rt.alloc(), command);
    }
}
