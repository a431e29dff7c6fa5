//! The lines about a list that is read.

ghost use Rattle.std.specs.Prelude.{IsTrue, length, ◌<◌, ◌≡◌, ◌↔◌};
ghost use Rattle.bk_report.specs.ListLines.{alike_line, foreign_line, group_line, member_line, missing_line, pair_line};
ghost use Rattle.bk_report.specs.ListLines.{counts_in, faults, pairs_line, refused_line, repeats_line, verified_line};
ghost use Rattle.bk_code.specs.Code.{code_of};

use crate::answer::{push_code, push_tiling};
use crate::listing_lines::{Last, push_entry, push_name, push_wide};
use crate::refusal::{Refused, push_refusal};
use crate::template::push_filled;
use bk_code::{Code, code_of};
use bk_grammar::{AnswerBuffer, push_bytes};
use bk_text::write_size;
use bk_tiling::Tiling;
use bk_word::Word;

/// Writes the refusal of the line of this number.
pub fn write_line_refused(line: u64, refused: &Refused, out: &mut AnswerBuffer)
    ensures { out.new.items ≡ refused_line line refused.now }
{
    out.clear();
    push_filled(b"line # ", &[line], out);
    push_refusal(refused, out);
    out.push(b'\n');
}

/// Writes that the line of this number repeats an earlier one.
pub fn write_repeats(line: u64, first: u64, out: &mut AnswerBuffer)
    ensures { out.new.items ≡ repeats_line line first }
{
    out.clear();
    push_filled(b"line # repeats #\n", &[line, first], out);
}

/// Writes that the line of this number has no member of the catalogue.
pub fn write_foreign(line: u64, out: &mut AnswerBuffer)
    ensures { out.new.items ≡ foreign_line line }
{
    out.clear();
    push_filled(b"line # foreign\n", &[line], out);
}

/// Writes that a list lacks a member of the catalogue: `missing`, and the entry of the tiling. The code is that of the
/// tiling, and the word must have a move.
pub fn write_missing(tiling: &Tiling, code: &Code, word: &Word, out: &mut AnswerBuffer)
    requires code { code.now ≡ code_of tiling.now }
    requires some { 0 < length word.now }
    ensures { out.new.items ≡ missing_line tiling.now word.now }
{
    out.clear();
    push_bytes(b"missing ", out);
    push_entry(tiling, code, word, out);
    out.push(b'\n');
}

/// What is counted of a list that is held against a catalogue.
#[derive(Clone, Copy)]
pub struct ReportCounts {
    /// How many members the catalogue has.
    pub members: u64,
    /// How many of them are missing.
    pub missing: u64,
    /// How many lines have no member of the catalogue.
    pub foreign: u64,
    /// How many lines repeat an earlier one.
    pub repeated: u64,
    /// How many lines are refused.
    pub refused: u64,
}

impl ReportCounts {
    /// The five counts in the order in which the last line has them.
    pub fn in_order(&self) -> [u64; 5]
        ensures { counts_in result ≡ self.now }
    {
        [
            self.members,
            self.missing,
            self.foreign,
            self.repeated,
            self.refused,
        ]
    }

    /// Whether something is missing, foreign, repeated or refused.
    pub fn has_fault(&self) -> bool
        ensures { IsTrue result ↔ 0 < faults self.now }
    {
        self.missing > 0 || self.foreign > 0 || self.repeated > 0 || self.refused > 0
    }
}

/// Writes the last line of a list that was held against a catalogue: how that ended, which is never at a limit, the
/// order, five counts, and for `wide` the word at which it ended. The counts are how many members there are, how many
/// of them are missing, and how many lines are foreign, repeated and refused. That word must then have a move.
pub fn write_verified(last: Last, order: u8, counts: [u64; 5], word: &Word, out: &mut AnswerBuffer)
    requires ended { last ≡ Last.Limit → ⊥ }
    requires some { last ≡ Last.Wide → 0 < length word.now }
    ensures { out.new.items ≡ verified_line last order (counts_in counts) word.now }
{
    let [members, missing, foreign, repeated, refused] = counts;
    out.clear();
    push_bytes(b"; ", out);
    push_name(last, out);
    let numbers = [
        u64::from(order),
        members,
        missing,
        foreign,
        repeated,
        refused,
    ];
    push_filled(
        b" order # members # missing # foreign # repeated # refused #",
        &numbers,
        out,
    );
    push_wide(last, word, out);
    out.push(b'\n');
}

/// Writes the size of a group of rectangles and how many items it has.
pub fn write_group(width: u64, height: u64, items: u64, out: &mut AnswerBuffer)
    ensures { out.new.items ≡ group_line width height items }
{
    out.clear();
    write_size(width, height, out);
    push_filled(b" #\n", &[items], out);
}

/// Writes an item of a group: the number of its line, and its code.
pub fn write_member(line: u64, tiling: &Tiling, out: &mut AnswerBuffer)
    ensures { out.new.items ≡ member_line line tiling.now }
{
    out.clear();
    push_filled(b"# ", &[line], out);
    push_code(tiling, out);
    out.push(b'\n');
}

/// Writes what two items make together: the numbers of their lines, and the size and the code of the square.
pub fn write_pair(first: u64, second: u64, tiling: &Tiling, out: &mut AnswerBuffer)
    ensures { out.new.items ≡ pair_line first second tiling.now }
{
    out.clear();
    push_filled(b"# # ", &[first, second], out);
    push_tiling(tiling, &code_of(tiling), out);
    out.push(b'\n');
}

/// Writes the last line behind groups: how many groups and items there are, and how many lines were refused.
pub fn write_alike(groups: u64, items: u64, refused: u64, out: &mut AnswerBuffer)
    ensures { out.new.items ≡ alike_line groups items refused }
{
    out.clear();
    push_filled(
        b"; groups # items # refused #\n",
        &[groups, items, refused],
        out,
    );
}

/// Writes the last line behind pairs: how many pairs and items there are, and how many lines were refused.
pub fn write_pairs(pairs: u64, items: u64, refused: u64, out: &mut AnswerBuffer)
    ensures { out.new.items ≡ pairs_line pairs items refused }
{
    out.clear();
    push_filled(
        b"; pairs # items # refused #\n",
        &[pairs, items, refused],
        out,
    );
}
