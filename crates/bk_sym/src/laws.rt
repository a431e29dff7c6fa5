//! Laws of images: functions that do nothing, each with a statement that is proved.

ghost use Rattle.bk_sym.specs.ImageLaws.{ACanonicalTilingIsItsOwn, ACanonicalTilingIsOne, AlikeTilingsHaveOneCanonical};
ghost use Rattle.bk_sym.specs.ImageLaws.{EveryTilingHasACanonical, ImagesAreTilings, ImagesAreUndone, ImagesOfImages};
ghost use Rattle.bk_sym.specs.ImageLaws.{OneCanonicalMeansAlike};

/// Each image of a tiling is a tiling.
pub fn images_are_tilings()
    ensures { ImagesAreTilings }
{}

/// Each tiling has a canonical tiling.
pub fn every_tiling_has_a_canonical()
    ensures { EveryTilingHasACanonical }
{}

/// A tiling has at most one canonical tiling, and it is a tiling.
pub fn a_canonical_tiling_is_one()
    ensures { ACanonicalTilingIsOne }
{}

/// An image of an image is an image: the turns form a group of eight.
pub fn images_of_images()
    ensures { ImagesOfImages }
{}

/// A tiling is an image of each of its images.
pub fn images_are_undone()
    ensures { ImagesAreUndone }
{}

/// Tilings that are images of each other, up to scale, have the same canonical tiling: all images and all multiples of
/// a tiling have.
pub fn alike_tilings_have_one_canonical()
    ensures { AlikeTilingsHaveOneCanonical }
{}

/// Of two tilings with the same canonical tiling each is an image of the other, up to scale.
pub fn one_canonical_means_alike()
    ensures { OneCanonicalMeansAlike }
{}

/// A canonical tiling is its own canonical tiling.
pub fn a_canonical_tiling_is_its_own()
    ensures { ACanonicalTilingIsItsOwn }
{}
