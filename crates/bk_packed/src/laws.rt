//! How words and their packed numbers compare. Each clause is a law, and its function does nothing.

ghost use Rattle.bk_packed.specs.PackedLaws.{PackedPlacesCompare, PackedWordsCompare};

/// Legal words of one order, at most 16, compare as their packed numbers do.
pub fn packed_words_compare()
    ensures { PackedWordsCompare }
{}

/// A place in the tree of words, complete or not, doesn't follow a legal word of at least as many squares, at most 16,
/// exactly where its packed number isn't greater.
pub fn packed_places_compare()
    ensures { PackedPlacesCompare }
{}
