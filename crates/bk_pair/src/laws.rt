//! Which pairs there are, and what they make.

ghost use Rattle.bk_pair.specs.OwnSides.{PairsByConditions};
ghost use Rattle.bk_pair.specs.PairSquare.{APairMakesASquare};
ghost use Rattle.bk_pair.specs.PairTest.{TheTestsDecide};

/// The tests that the definitions of pairs of a list compute with decide whether two tilings are laid together, and
/// whether they join.
pub fn the_tests_decide()
    ensures { TheTestsDecide }
{}

/// Two tilings that can be laid together make a squared square, and two that join a perfect one: so each pair of a list
/// stands with the perfect square that it makes, and of any kind with a squared square.
pub fn a_pair_makes_a_square()
    ensures { APairMakesASquare }
{}

/// Two tilings join to a perfect square exactly where they are of one size that is no square's, both are perfect, no
/// side is in both, none is their width or their height, they have at most 198 squares together, and neither width nor
/// height is above 999,999,999,999,999.
pub fn a_pair_meets_its_conditions()
    ensures { PairsByConditions }
{}
