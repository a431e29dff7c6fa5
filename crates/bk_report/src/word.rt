//! The text of a word as an answer.

ghost use Rattle.std.specs.Prelude.{length, ◌<◌, ◌≡◌};
ghost use Rattle.bk_report.specs.Listings.{word_line};

use bk_grammar::AnswerBuffer;
use bk_word::{Word, write_word};

/// Writes the text of a word, which must have a move.
pub fn write_word_line(word: &Word, out: &mut AnswerBuffer)
    requires { 0 < length word.now }
    ensures { out.new.items ≡ word_line word.now }
{
    out.clear();
    write_word(word, out);
    out.push(b'\n');
}
