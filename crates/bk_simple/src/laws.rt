//! Laws of parts and sides: functions that do nothing, each with a statement that is proved.

ghost use Rattle.bk_simple.specs.FirstLaws.{AFirstPartIsOne, ALeastRepeatedSideIsOne};

/// A tiling has at most one first part.
pub fn a_first_part_is_one()
    ensures { AFirstPartIsOne }
{}

/// A tiling has at most one least repeated side.
pub fn a_least_repeated_side_is_one()
    ensures { ALeastRepeatedSideIsOne }
{}
