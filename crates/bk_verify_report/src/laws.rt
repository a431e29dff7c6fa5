//! Laws of entries that are fed, and of reports.

ghost use Rattle.bk_verify_report.specs.ReportLaw.{AListHasOneReport};
ghost use Rattle.bk_verify_report.specs.VerifyLaws.{AVerifierTellsTheTruth, AnEntryIsToldOneThing};
ghost use Rattle.bk_verify_report.specs.VerifyLaws.{MissingOnesAreNotKept, TruthsStay};

/// An entry is told one thing.
pub fn an_entry_is_told_one_thing()
    ensures { AnEntryIsToldOneThing }
{}

/// What a verifier tells of an entry is the truth, where what it keeps are the first entries of the members that were
/// fed; and then it keeps them again.
pub fn a_verifier_tells_the_truth()
    ensures { AVerifierTellsTheTruth }
{}

/// What is true of an entry stays so where more entries follow.
pub fn truths_stay()
    ensures { TruthsStay }
{}

/// The missing members are those that aren't kept.
pub fn missing_ones_are_not_kept()
    ensures { MissingOnesAreNotKept }
{}

/// A list has one report: what is told of its lines, the five counts and the bytes are a function of its lines.
pub fn a_list_has_one_report()
    ensures { AListHasOneReport }
{}
