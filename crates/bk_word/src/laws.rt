//! What is proved of words and of their texts.

ghost use Rattle.std.specs.Cmp.{IsTotalOrder};
ghost use Rattle.bk_word.specs.Word.{word_cmp};
ghost use Rattle.bk_word.specs.WordTextLaws.{ATextIsOfOneWord, AWrittenWordIsRead};

/// The order of words is total.
pub fn words_are_in_total_order()
    ensures { IsTotalOrder word_cmp }
{}

/// No bytes are the text of two words.
pub fn a_text_is_of_one_word()
    ensures { ATextIsOfOneWord }
{}

/// What is written of a word is its text.
pub fn a_written_word_is_read()
    ensures { AWrittenWordIsRead }
{}
