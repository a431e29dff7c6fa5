//! Laws of trial codes and of their line.

ghost use Rattle.bk_gen.specs.TrialLaws.{EachSampleHasATiling};
ghost use Rattle.bk_gen.specs.TrialLineLaws.{ASampleIsLaid, ASeedHasOneLine};

/// Each trial code is the code of a tiling of at most 200 squares, none above 999,999,999,999,999.
pub fn each_sample_has_a_tiling()
    ensures { EachSampleHasATiling }
{}

/// A seed and a count have one line.
pub fn a_seed_has_one_line()
    ensures { ASeedHasOneLine }
{}

/// Laying accepts each trial code (`bk_gen::sample`): its tiling has the code, and no group of it misfits, nor is its
/// end open (`bk_profile::lay_code`).
pub fn a_sample_is_laid()
    ensures { ASampleIsLaid }
{}
