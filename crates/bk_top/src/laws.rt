//! Laws of runs of `list`.

ghost use Rattle.bk_top.specs.WholeCatalogue.{AListIsWholeUnlessAWriteFails, AWholeListIsTheCatalogue};

/// A run that is asked for a listing from the start, without a limit, and ends with status 0 has written the whole
/// catalogue of the order and the class, and nothing else on its output. By
/// `bk_catalogue::each_simple_tiling_is_listed_once` each simple tiling of them, canonical or not, has exactly one
/// entry there.
pub fn a_whole_list_is_the_catalogue()
    ensures { AWholeListIsTheCatalogue }
{}

/// A run that is asked for a listing from the start, without a limit, ends with status 0, and so has written the whole
/// catalogue, unless a write fails: by `bk_list::no_listing_ends_at_a_wide_word` no listing ends otherwise.
pub fn a_list_is_whole_unless_a_write_fails()
    ensures { AListIsWholeUnlessAWriteFails }
{}
