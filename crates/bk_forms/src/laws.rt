//! Laws on kept equations, which their clauses say: the functions do nothing.

ghost use Rattle.bk_forms.specs.FormLaws.{ContradictionIsSound, ComparisonIsSound, AdditionIsExact};

/// After a contradiction no positive sides that meet the kept equations give both forms one value.
pub fn a_contradiction_is_sound()
    ensures { ContradictionIsSound }
{}

/// A comparison that is known holds for all positive sides that meet the kept equations.
pub fn a_comparison_is_sound()
    ensures { ComparisonIsSound }
{}

/// The sides that meet the equations kept after an addition are those that met the ones kept before and give both
/// forms one value.
pub fn an_addition_is_exact()
    ensures { AdditionIsExact }
{}
