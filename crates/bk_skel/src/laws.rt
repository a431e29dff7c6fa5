//! A law on words, which its clause says: the function does nothing.

ghost use Rattle.bk_skel.specs.NarrowWord.{NoSmallWordIsWide};

/// No complete word of at most 16 squares is wide: each number that the stated elimination of its net writes is below
/// 2^127, and each side of its squares is at most 2^34.
pub fn no_small_word_is_wide()
    ensures { NoSmallWordIsWide }
{}
