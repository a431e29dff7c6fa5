//! What is proved of the words of tilings.

ghost use Rattle.bk_lay.specs.WordLaws.{EveryTilingHasAWord, ATilingHasOneWord, LeftmostIsFirstRise};
ghost use Rattle.bk_lay.specs.WordLaws.{TilingWordIsComplete};

/// Every tiling has a word.
pub fn every_tiling_has_a_word()
    ensures { EveryTilingHasAWord }
{}

/// No tiling has two words.
pub fn a_tiling_has_one_word()
    ensures { ATilingHasOneWord }
{}

/// The word of a tiling is legal and complete, and hangs as many squares as the tiling has.
pub fn a_tiling_word_is_complete()
    ensures { TilingWordIsComplete }
{}

/// A valley is the leftmost one exactly where the columns never get deeper from the left wall to it.
pub fn the_leftmost_valley_is_the_first_rise()
    ensures { LeftmostIsFirstRise }
{}
