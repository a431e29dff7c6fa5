//! Lines of codes.
#![tactic(auto)]

ghost use Rattle.bk_text.specs.CodeLine.{IsLine};
ghost use Rattle.bk_text.specs.GatheredSides.{line_gathered};
ghost use Rattle.bk_text.specs.ReadLine.{IsInRange, IsTextFaultOf, stands_for};
ghost use Rattle.std.specs.Prelude.{IfErr, IfOk};

mod gatherer;
mod laws;
mod reader;
mod sides;
mod writer;

use arrayvec::ArrayVec;
use bk_code::Code;
use bk_tiling::MOST_SQUARES;
pub use gatherer::Gatherer;
pub use laws::{
    a_line_has_one_meaning, a_written_code_is_read, a_written_item_is_read,
    a_written_size_and_code_are_read, a_written_size_is_a_size, bytes_leave_lines_at_one_place,
};
pub use reader::{Ending, Header, Table};
use reader::{Place, kind_of};
use thiserror::Error;
pub use writer::{LONGEST_CODE_TEXT, LONGEST_SIDE_TEXT, LONGEST_SIZE_TEXT, write_code, write_size};

/// What a line of codes stands for: nothing; a code, with the order and the size that are stated; or a table row, which
/// states an order and a size and gives the sides without groups.
#[derive(Drop)]
pub enum Line {
    Skip,
    Item {
        order: Option<u64>,
        size: Option<(u64, u64)>,
        code: Code,
    },
    Flat {
        order: u64,
        width: u64,
        height: u64,
        sides: ArrayVec<u64, MOST_SQUARES>,
    },
}

/// Why a line is refused.
#[derive(Debug, Drop, Error)]
pub enum TextFault {
    /// The bytes are no line: the longest start of them that begins a line has `at` bytes.
    #[error("Text")]
    Text { at: usize },
    /// The bytes are a line of more than 200 sides.
    #[error("Many")]
    Many,
}

/// Reads a line of codes, given without its line feed: what it stands for by the grammar of lines. `Text` comes exactly
/// where the bytes are no line, with the length of their longest start that begins a line. `Many` comes exactly where
/// they are a line of more than 200 sides. The group notation is Bouwkamp's (1946-47); the headers, the comments and
/// the table rows are our own.
pub fn read_line(line: &[u8]) -> Result<Line, TextFault>
    ensures read { IfOk result (λ l. IsLine (stands_for l) line.now) }
    ensures range { IfOk result (λ l. IsInRange (stands_for l)) }
    ensures fault { IfErr result (λ fault. IsTextFaultOf fault line.now) }
{
    let mut gatherer = Gatherer::new();
    let ending = read_into(line, &mut gatherer)?;
    Ok(gatherer.finish(ending))
}

/// Does what `read_line` does in a gatherer that is there, and holds anything before: the groups and the sides of the
/// line are left in it, and what kind of line it is is returned. So nothing large is made for a line.
pub fn read_into(line: &[u8], gatherer: &mut Gatherer) -> Result<Ending, TextFault>
    ensures read { IfOk result (λ ending. IsLine (line_gathered ending gatherer.new) line.now) }
    ensures range { IfOk result (λ ending. IsInRange (line_gathered ending gatherer.new)) }
    ensures fault { IfErr result (λ fault. IsTextFaultOf fault line.now) }
{
    let mut place = Place::Start;
    let mut at = 0;
    gatherer.clear();
    'bytes: while at < line.len() {
        let taken = gatherer.take_ahead(&mut place, &line[at..]);
        if taken > 0 {
            at += taken;
            continue;
        }
        let kind = kind_of(line[at]);
        let Some(next) = place.next(kind) else {
            return Err(TextFault::Text { at });
        };
        gatherer.take(place, kind);
        place = next;
        at += 1;
    }
    match place.ending() {
        Some(ending) => {
            gatherer.take_last(place);
            gatherer.ended(ending)
        }
        None => Err(TextFault::Text { at: line.len() }),
    }
}
