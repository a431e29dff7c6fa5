//! The lines of listings.

ghost use Rattle.std.specs.Prelude.{[], flat_map, length, ◌+◌, ◌++◌, ◌<◌, ◌∷◌, ◌≡◌, ◌≤◌};
ghost use Rattle.arrayvec.specs.ArrayVec.{array_vec_len};
ghost use Rattle.bk_code.specs.Code.{code_of};
ghost use Rattle.bk_grammar.specs.declared.TheConstants.{ANSWER_ROOM};
ghost use Rattle.bk_report.specs.Answers.{line};
ghost use Rattle.bk_report.specs.Listings.{class_words, entry_text, last_line, last_name, wide_words};
ghost use Rattle.bk_report.specs.declared.listing_lines.TheConstants.{LONGEST_CLASS_TEXT, LONGEST_ENTRY_TEXT};
ghost use Rattle.bk_report.specs.declared.listing_lines.TheConstants.{LONGEST_NAME_TEXT, LONGEST_WIDE_TEXT};

use crate::answer::push_tiling;
use crate::template::push_filled;
use bk_code::Code;
use bk_grammar::{AnswerBuffer, push_bytes};
use bk_tiling::Tiling;
use bk_word::{Class, Word, write_word};

/// No entry of a tiling is written in more bytes.
const LONGEST_ENTRY_TEXT: usize = 4600;

/// How a listing ended is written in no more bytes.
const LONGEST_NAME_TEXT: usize = 5;

/// No class is written in more bytes.
const LONGEST_CLASS_TEXT: usize = 20;

/// No wide word at which a listing ended is written in more bytes.
const LONGEST_WIDE_TEXT: usize = 1000;

/// How a listing ended.
#[derive(Clone, Copy)]
pub enum Last {
    /// No further entry is there.
    End,
    /// As many entries as were asked for are listed.
    Limit,
    /// The next word is too wide to decide.
    Wide,
}

/// Writes the entry of a tiling in a catalogue: the order, the size, the code, and then ` ; ` and the text of the word.
/// The code is that of the tiling, and the word must have a move.
pub fn write_entry(tiling: &Tiling, code: &Code, word: &Word, out: &mut AnswerBuffer)
    requires code { code.now ≡ code_of tiling.now }
    requires some { 0 < length word.now }
    ensures { out.new.items ≡ line (entry_text tiling.now word.now ∷ []) }
{
    out.clear();
    push_entry(tiling, code, word, out);
    out.push(b'\n');
}

// Appends the entry of a tiling with its code and its word.
pub(crate) fn push_entry(tiling: &Tiling, code: &Code, word: &Word, out: &mut AnswerBuffer)
    requires code { code.now ≡ code_of tiling.now }
    requires some { 0 < length word.now }
    requires room { array_vec_len out.old + LONGEST_ENTRY_TEXT ≤ ANSWER_ROOM }
    ensures text { out.new.items ≡ out.old.items ++ entry_text tiling.now word.now }
    ensures short { array_vec_len out.new ≤ array_vec_len out.old + LONGEST_ENTRY_TEXT }
{
    push_filled(b"# ", &[tiling.order() as u64], out);
    push_tiling(tiling, code, out);
    push_bytes(b" ; ", out);
    write_word(word, out);
}

/// Writes the last line of a listing: `; end`, `; limit` or `; wide`, the order, the class unless that is the perfect
/// one, how many entries were listed, and for `wide` the word at which it ended. That word must then have a move.
pub fn write_last(
    last: Last,
    order: u8,
    class: Class,
    listed: u64,
    word: &Word,
    out: &mut AnswerBuffer,
)
    requires { last ≡ Last.Wide → 0 < length word.now }
    ensures { out.new.items ≡ last_line last order class listed word.now }
{
    out.clear();
    push_bytes(b"; ", out);
    push_name(last, out);
    push_filled(b" order #", &[u64::from(order)], out);
    push_class(class, out);
    push_filled(b" listed #", &[listed], out);
    push_wide(last, word, out);
    out.push(b'\n');
}

// Appends how a listing ended.
pub(crate) fn push_name(last: Last, out: &mut AnswerBuffer)
    requires { array_vec_len out.old + LONGEST_NAME_TEXT ≤ ANSWER_ROOM }
    ensures text { out.new.items ≡ out.old.items ++ last_name last }
    ensures short { array_vec_len out.new ≤ array_vec_len out.old + LONGEST_NAME_TEXT }
{
    match last {
        Last::End => push_bytes(b"end", out),
        Last::Limit => push_bytes(b"limit", out),
        Last::Wide => push_bytes(b"wide", out),
    }
}

// Appends a class with a blank before each word, and nothing for the perfect one.
fn push_class(class: Class, out: &mut AnswerBuffer)
    requires { array_vec_len out.old + LONGEST_CLASS_TEXT ≤ ANSWER_ROOM }
    ensures text { out.new.items ≡ out.old.items ++ flat_map (λ l. 32 ∷ l) (class_words class) }
    ensures short { array_vec_len out.new ≤ array_vec_len out.old + LONGEST_CLASS_TEXT }
{
    match class {
        Class::Perfect => {}
        Class::Imperfect => push_bytes(b" class imperfect", out),
        Class::Simple => push_bytes(b" class simple", out),
    }
}

// Appends the wide word at which a listing ended, where it did so.
pub(crate) fn push_wide(last: Last, word: &Word, out: &mut AnswerBuffer)
    requires some { last ≡ Last.Wide → 0 < length word.now }
    requires room { array_vec_len out.old + LONGEST_WIDE_TEXT ≤ ANSWER_ROOM }
    ensures text { out.new.items ≡ out.old.items ++ flat_map (λ l. 32 ∷ l) (wide_words last word.now) }
    ensures short { array_vec_len out.new ≤ array_vec_len out.old + LONGEST_WIDE_TEXT }
{
    match last {
        Last::End | Last::Limit => {}
        Last::Wide => {
            push_bytes(b" at ", out);
            write_word(word, out);
        }
    }
}
