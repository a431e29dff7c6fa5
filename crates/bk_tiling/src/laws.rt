//! Laws of refusals: a list of squares is refused in one way, or accepted.

ghost use Rattle.bk_tiling.specs.RefusalLaws.{RefusedInOneWay, RefusedOrAccepted};

/// A list of squares is refused in one way only.
pub fn a_list_is_refused_in_one_way()
    ensures { RefusedInOneWay }
{}

/// A list of squares that is refused is not accepted.
pub fn a_refused_list_is_not_accepted()
    ensures { RefusedOrAccepted }
{}
