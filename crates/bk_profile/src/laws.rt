//! Laws of laying.

ghost use Rattle.bk_profile.specs.LayingLaws.{ACodeIsLaid, ACodeIsRefusedInOneWay, AFlatListIsRefusedInOneWay};
ghost use Rattle.bk_profile.specs.LayingLaws.{ARefusedCodeHasNoTiling, ARefusedFlatListHasNoTiling};

/// The groups of a tiling's code fit into the gaps, and lay its squares.
pub fn a_code_is_laid()
    ensures { ACodeIsLaid }
{}

/// A code has one refusal at most, and so has a flat list.
pub fn laying_ends_in_one_way()
    ensures code { ACodeIsRefusedInOneWay }
    ensures flat { AFlatListIsRefusedInOneWay }
{}

/// A group that does not fit, or an open end, excludes every tiling: none has a code, or a width and a flat list, that
/// are refused.
pub fn a_refusal_excludes_every_tiling()
    ensures code { ARefusedCodeHasNoTiling }
    ensures flat { ARefusedFlatListHasNoTiling }
{}
