//! Why an item is refused, and the texts that say so.

ghost use Rattle.std.specs.Prelude.{length, ◌≡◌, ◌≤◌, ◌++◌, ◌+◌};
ghost use Rattle.arrayvec.specs.ArrayVec.{array_vec_len};
ghost use Rattle.bk_grammar.specs.declared.TheConstants.{ANSWER_ROOM};
ghost use Rattle.bk_report.specs.Refusals.{refusal_line, refusal_text};
ghost use Rattle.bk_report.specs.Templates.{filled};
ghost use Rattle.bk_report.specs.declared.refusal.TheConstants.{LONGEST_REFUSAL_TEXT, LONGEST_TEMPLATE};

use crate::template::push_filled;
use bk_grammar::{AnswerBuffer, LONGEST_NUMBER_TEXT};

/// No text of a refusal has more bytes, with a mark for each number.
const LONGEST_TEMPLATE: usize = 20;

/// No refusal is written in more bytes.
const LONGEST_REFUSAL_TEXT: usize = LONGEST_TEMPLATE + 3 * LONGEST_NUMBER_TEXT;

/// Why an item is refused. The names and their order are this project's own.
#[derive(Clone, Copy)]
pub enum Refused {
    /// The line is too long.
    Long,
    /// The line is outside its grammar: its first `at` bytes begin a line of the grammar, and no more of them do.
    Text { at: usize },
    /// There are too many sides, wires or squares of a word.
    Many,
    /// Another order is stated than the number of sides.
    Order { sides: usize },
    /// The sum of a group, counted from 1, isn't the width of the gap.
    Gap { group: usize, gap: u64, sum: u64 },
    /// All groups fit, and the depths in the end lie between these two.
    Open { least: u64, greatest: u64 },
    /// Another size is stated than that of the tiling.
    Size { width: u64, height: u64 },
    /// The drawing would be too large.
    Large,
    /// A net can't have this number of nodes.
    Nodes { count: u64 },
    /// A wire, counted from 1, has a node that isn't there, or one node twice.
    Wire { place: usize },
    /// The least node that no wires join to the last one.
    Loose { node: u16 },
    /// A number of the stated elimination passes 127 bits; or, of a word, a side would have more than 15 digits.
    Wide,
    /// No tiling has the word.
    Nothing,
    /// A move, counted from 1, is illegal.
    Illegal { place: usize },
    /// The word isn't complete.
    Unfinished,
    /// No more items are kept.
    More,
}

/// Writes the line of a refusal.
pub fn write_refused(refused: &Refused, out: &mut AnswerBuffer)
    ensures { out.new.items ≡ refusal_line refused.now }
{
    out.clear();
    push_refusal(refused, out);
    out.push(b'\n');
}

// Appends the text of a refusal.
pub(crate) fn push_refusal(refused: &Refused, out: &mut AnswerBuffer)
    requires { array_vec_len out.old + LONGEST_REFUSAL_TEXT ≤ ANSWER_ROOM }
    ensures text { out.new.items ≡ out.old.items ++ refusal_text refused.now }
    ensures short { array_vec_len out.new ≤ array_vec_len out.old + LONGEST_REFUSAL_TEXT }
{
    let (text, numbers) = template_of(refused);
    push_filled(text, &numbers, out);
}

// The text of a refusal with a mark for each number, and the numbers.
fn template_of(refused: &Refused) -> (&'static [u8], [u64; 3])
    ensures text { filled result.0.now result.1 ≡ refusal_text refused.now }
    ensures short { length result.0.now ≤ LONGEST_TEMPLATE }
{
    match *refused {
        Refused::Long => (b"no long", [0, 0, 0]),
        Refused::Text { at } => (b"no text #", [at as u64, 0, 0]),
        Refused::Many => (b"no many", [0, 0, 0]),
        Refused::Order { sides } => (b"no order #", [sides as u64, 0, 0]),
        Refused::Gap { group, gap, sum } => (b"no gap # # #", [group as u64, gap, sum]),
        Refused::Open { least, greatest } => (b"no open # #", [least, greatest, 0]),
        Refused::Size { width, height } => (b"no size #x#", [width, height, 0]),
        Refused::Large => (b"no large", [0, 0, 0]),
        Refused::Nodes { count } => (b"no nodes #", [count, 0, 0]),
        Refused::Wire { place } => (b"no wire #", [place as u64, 0, 0]),
        Refused::Loose { node } => (b"no loose #", [u64::from(node), 0, 0]),
        Refused::Wide => (b"wide", [0, 0, 0]),
        Refused::Nothing => (b"none", [0, 0, 0]),
        Refused::Illegal { place } => (b"illegal #", [place as u64, 0, 0]),
        Refused::Unfinished => (b"unfinished", [0, 0, 0]),
        Refused::More => (b"no more", [0, 0, 0]),
    }
}
