//! Laws of codes.

ghost use Rattle.bk_code.specs.CodeLaws.{AFlatListFixesATiling, CodesAreOrdered};

/// A width and a flat list of sides fix a tiling.
pub fn a_flat_list_fixes_a_tiling()
    ensures { AFlatListFixesATiling }
{}

/// Codes are totally ordered by their flat lists, as `cmp_codes` compares them.
pub fn codes_are_ordered()
    ensures { CodesAreOrdered }
{}
