//! The catalogue and its members.

ghost use Rattle.bk_catalogue.specs.Once.{EachSimpleTilingIsListedOnce};
ghost use Rattle.bk_catalogue.specs.CanonicalCorners.{CornersAreNoLonger};

/// A simple tiling is listed once in the catalogue of its order and class: as the entry of its canonical tiling.
pub fn each_simple_tiling_is_listed_once()
    ensures { EachSimpleTilingIsListedOnce }
{}

/// No square that comes to the top left corner in a lying image of a canonical tiling is longer than its top left
/// square.
pub fn corners_are_no_longer()
    ensures { CornersAreNoLonger }
{}
