//! What is proved of listings: how they end, how one goes on where another stopped, and that a whole one is the
//! catalogue.

ghost use Rattle.bk_list.specs.ListingLaws.{AListingGoesOn, AWholeListingIsTheCatalogue, NoListingEndsAtAWideWord};
ghost use Rattle.bk_list.specs.Resuming.{NothingIsMissing, OnlyNamedOnesAreMissing, RunsGoOn};
ghost use Rattle.bk_list.specs.StoppedListing.{EachListingEndsInOneOfThreeWays};

/// A listing that was stopped goes on from the word of its last entry: the entries of the first, then those of the
/// second, are the entries of one listing without a limit, which ends as the second does.
pub fn a_listing_goes_on()
    ensures { AListingGoesOn }
{}

/// Runs one after another, each from where the one before it stopped (the named word where one was named, and else the
/// word of its last entry), have together members after the first cursor alone, ascending, so each once; and each
/// member after it that they lack has a word that was named, or comes after the place where the last run stopped.
pub fn runs_go_on()
    ensures { RunsGoOn }
{}

/// Over all runs, up to one that ended because there were no more members, only a member whose own word was named can
/// be missing. (None is named where the order is at most 16: `nothing_is_missing`.)
pub fn only_named_ones_are_missing()
    ensures { OnlyNamedOnesAreMissing }
{}

/// Over all runs of an order of at most 16, up to one that ended because there were no more members, nothing is
/// missing: they have together the entries of one listing without a limit, which ends there.
pub fn nothing_is_missing()
    ensures { NothingIsMissing }
{}

/// A listing from the start, without a limit, that ends because there are no more members is the whole catalogue: a
/// line for each entry, each once, in order. By `bk_catalogue::each_simple_tiling_is_listed_once` each simple tiling of
/// the order and the class, canonical or not, then has exactly one line.
pub fn a_whole_listing_is_the_catalogue()
    ensures { AWholeListingIsTheCatalogue }
{}

/// Each listing ends in one of three ways: because there are no more members, at its limit, or at a wide word that its
/// last line names; and how it ends is the name of that way. (None of an order of at most 16 ends in the third:
/// `no_listing_ends_at_a_wide_word`.)
pub fn each_listing_ends_in_one_of_three_ways()
    ensures { EachListingEndsInOneOfThreeWays }
{}

/// No listing of an order of at most 16 ends at a wide word: by `bk_skel::no_small_word_is_wide` there is none of the
/// order.
pub fn no_listing_ends_at_a_wide_word()
    ensures { NoListingEndsAtAWideWord }
{}
