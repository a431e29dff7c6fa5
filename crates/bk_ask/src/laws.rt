//! What words ask.

ghost use Rattle.bk_ask.specs.AskLaws.{WordsAskOneThing};

/// Words ask one thing only.
pub fn words_ask_one_thing()
    ensures { WordsAskOneThing }
{}
