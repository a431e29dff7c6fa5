//! A law of candidates, which its clause says: the function does nothing.

ghost use Rattle.bk_found.specs.Candidate.{TheCandidateIsTheTiling};

/// The candidate of a signed word of a tiling in lowest terms, by the primitive flow of the word's net, is this tiling.
pub fn the_candidate_is_the_tiling()
    ensures { TheCandidateIsTheTiling }
{}
