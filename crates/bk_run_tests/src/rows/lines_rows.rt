//! Runs over lines whose answers are easy to foresee.

ghost use Rattle.std.specs.Prelude.{◌<◌};

use arrayvec::ArrayVec;
use bk_ports::{
    Answerer, Ended, Failed, FillSource, MemSink, MemSource, Outcome, Register, Sink, Source,
    answer_lines, enter_lines,
};
use std::process::Abort;

// A line is answered by its length. One that begins with `!` is refused, and at one that begins with `?` memory is
// wanting.
struct Lengths;

impl Answerer for Lengths {
    type Desk = ();

    fn desk(&self) {}

    ghost answers = { λ _ _ _ _. Unit {0} };

    ghost may_want = { λ _ _. Unit {0} };

    fn answer<O: Sink>(
        &self,
        line: &[u8],
        _desk: &mut (),
        buffer: &mut ArrayVec<u8, 9000>,
        out: &mut O,
    ) -> Result<Outcome, Failed> {
        if line.first() == Some(&b'?') {
            return Ok(Outcome::NoMemory);
        }
        let mut digits = itoa::Buffer::new();
        buffer.clear();
        let _ = buffer.try_extend_from_slice(digits.format(line.len()).as_bytes());
        let _ = buffer.try_push(b'\n');
        out.write_all(buffer)?;
        if line.first() == Some(&b'!') {
            Ok(Outcome::Refused)
        } else {
            Ok(Outcome::Accepted)
        }
    }

    ghost empty_line = { λ _. tt };
}

// Whether a run over an input in pieces of at most so many bytes ends so, and writes this.
fn runs_so(input: &[u8], most: usize, ending: Ended, text: &[u8]) -> bool
    requires { 0 < most }
{
    let mut source = MemSource::new(input, most, &[]);
    let mut room = [0; 100];
    let mut out = MemSink::new(&mut room, &[]);
    answer_lines(&Lengths, &mut source, &mut out) == ending && out.written() == text
}

// Asserts how the runs over an input end in pieces of each length up to 11, and what they write.
fn assert_runs(rt: &impl Abort, input: &str, ending: Ended, text: &[u8]) {
    for most in 1..12 {
        assert!(rt;
            runs_so(input.as_bytes(), most, ending, text),
            "{input}, at most {most}"
        );
    }
}

// Inputs, how their runs end, and what is written.
fn inputs_and_answers() -> &'static [(&'static str, Ended, &'static [u8])] {
    &[
        ("", Ended::NoneRefused, b""),
        ("\n", Ended::NoneRefused, b""),
        ("a", Ended::NoneRefused, b"1\n"),
        ("ab\n\ncde\n", Ended::NoneRefused, b"2\n3\n"),
        ("\n\nab\n\ncde", Ended::NoneRefused, b"2\n3\n"),
        ("ab\n!\ncde\n", Ended::SomeRefused, b"2\n1\n3\n"),
        ("ab\ncde\n!x", Ended::SomeRefused, b"2\n3\n2\n"),
        ("ab\n!\n?\ncde\n", Ended::NoMemory, b"2\n1\n"),
        ("ab\n?", Ended::NoMemory, b"2\n"),
    ]
}

#[test]
fn lines_come_in_any_cuts(rt: HostRuntime) {
    for (input, ending, text) in inputs_and_answers() {
        assert_runs(&rt, input, *ending, text);
    }
}

// Whether a run over a line of so many bytes writes this.
fn runs_long(length: u64, text: &[u8]) -> bool {
    let mut source = FillSource::new(b'a', length);
    let mut room = [0; 100];
    let mut out = MemSink::new(&mut room, &[]);
    answer_lines(&Lengths, &mut source, &mut out) == Ended::NoneRefused && out.written() == text
}

// Lengths of lines, and what is written.
fn lengths_and_answers() -> &'static [(u64, &'static [u8])] {
    &[
        (8191, b"8191\n"),
        (8192, b"8192\n"),
        (8193, b"8193\n"),
        (9000, b"8193\n"),
        (40_000, b"8193\n"),
    ]
}

#[test]
fn a_long_line_is_kept_as_far_as_it_counts(rt: HostRuntime) {
    for (length, text) in lengths_and_answers() {
        assert!(rt; runs_long(*length, text), "a line of {length} bytes");
    }
}

#[test]
fn a_long_line_ends_at_its_line_feed(rt: HostRuntime) {
    let mut input = [b'a'; 9004];
    input[9000] = b'\n';
    for most in [1, 10, 8192, 8193, 9000, 9001, 9004] {
        let fits = runs_so(&input, most, Ended::NoneRefused, b"8193\n3\n");
        assert!(rt; fits, "at most {most}");
    }
}

// The longest pieces, the reads and the writes that fail, how the run ends, what it writes, and what the source gives
// then.
type Faulty = (
    usize,
    &'static [u64],
    &'static [(u64, usize)],
    Ended,
    &'static [u8],
    Result<usize, Failed>,
);

// Runs with faults.
static FAULTY_RUNS: [Faulty; 7] = [
    (3, &[2], &[], Ended::ReadFailed, b"2\n2\n", Ok(3)),
    (4, &[1], &[], Ended::ReadFailed, b"2\n", Ok(4)),
    (100, &[0], &[], Ended::ReadFailed, b"", Ok(9)),
    (100, &[1], &[], Ended::ReadFailed, b"2\n2\n", Ok(0)),
    (4, &[1, 2], &[], Ended::ReadFailed, b"2\n", Err(Failed)),
    (3, &[2], &[(1, 1)], Ended::WriteFailed, b"2\n2", Err(Failed)),
    (3, &[], &[(2, 2)], Ended::WriteFailed, b"2\n2\n3\n", Ok(0)),
];

fn faulty_runs() -> &'static [Faulty] {
    &FAULTY_RUNS
}

// Whether a run with faults is so. After it the source gives what comes next: a failed read was the last one.
fn fails_so(run: &Faulty) -> bool {
    let (most, read_fails, write_fails, ending, text, next) = run;
    if *most == 0 {
        return false;
    }
    let mut source = MemSource::new(b"ab\ncd\nefg", *most, read_fails);
    let mut room = [0; 100];
    let mut out = MemSink::new(&mut room, write_fails);
    answer_lines(&Lengths, &mut source, &mut out) == *ending
        && out.written() == *text
        && source.read(&mut [0; 9]) == *next
}

#[test]
fn a_fault_ends_the_run(rt: HostRuntime) {
    for run in faulty_runs() {
        let (most, read_fails, write_fails, _, _, _) = run;
        assert!(rt; fails_so(run), "{most} {read_fails:?} {write_fails:?}");
    }
}

// A register of the numbers of lines: each is answered by its number, and the last one is kept.
#[derive(Drop)]
struct Numbers {
    last: u64,
}

impl Register for Numbers {
    ghost enters = { λ _ _ _ _ _ _. Unit {0} };

    ghost may_want = { λ _ _ _. Unit {0} };

    ghost is_ready = { λ _ _. Unit {0} };

    fn enter<O: Sink>(
        &mut self,
        number: u64,
        line: &[u8],
        buffer: &mut ArrayVec<u8, 9000>,
        out: &mut O,
    ) -> Result<Outcome, Failed> {
        match Lengths.answer(line, &mut (), buffer, out) {
            Ok(outcome) => {
                self.last = number;
                Ok(outcome)
            }
            Err(failed) => Err(failed),
        }
    }

    ghost empty_line = { λ _ _. tt };

    ghost still_ready = { λ _ _ _. tt };
}

// Whether a numbered run over an input in pieces of at most so many bytes ends so, and what is written and the last
// number.
fn numbers_so(input: &[u8], most: usize, ending: Ended, text: &[u8], last: u64) -> bool
    requires { 0 < most }
{
    let mut source = MemSource::new(input, most, &[]);
    let mut room = [0; 100];
    let mut out = MemSink::new(&mut room, &[]);
    let mut numbers = Numbers { last: 0 };
    enter_lines(&mut numbers, &mut source, &mut out) == ending
        && out.written() == text
        && numbers.last == last
}

// Asserts them of an input in pieces of each length up to 11.
fn assert_numbers(rt: &impl Abort, input: &str, ending: Ended, text: &[u8], last: u64) {
    for most in 1..12 {
        let fits = numbers_so(input.as_bytes(), most, ending, text, last);
        assert!(rt; fits, "{input}, at most {most}");
    }
}

// Inputs, how their numbered runs end, what is written, and the last number.
fn inputs_and_numbers() -> &'static [(&'static str, Ended, &'static [u8], u64)] {
    &[
        ("", Ended::NoneRefused, b"", 0),
        ("a", Ended::NoneRefused, b"1\n", 1),
        ("ab\n\n\ncde\n\n", Ended::NoneRefused, b"2\n3\n", 4),
        ("\n\na\n\n!b", Ended::SomeRefused, b"1\n2\n", 5),
        ("a\n\n?\nb", Ended::NoMemory, b"1\n", 3),
        ("\n\n\n", Ended::NoneRefused, b"", 0),
    ]
}

#[test]
fn all_lines_are_numbered(rt: HostRuntime) {
    for (input, ending, text, last) in inputs_and_numbers() {
        assert_numbers(&rt, input, *ending, text, *last);
    }
}
