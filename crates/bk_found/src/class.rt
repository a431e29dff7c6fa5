//! What a class allows of the currents of a flow.

ghost use Rattle.std.specs.List.Sorted.{IsPermutation};
ghost use Rattle.std.specs.Prelude.{false, length, map, nat_abs, ◌↔◌, ◌≡◌, ◌≤◌};
ghost use Rattle.bk_tiling.specs.Tiling.{Tiling as Tiled, sides_of};
ghost use Rattle.bk_simple.specs.Simple.{IsPerfect};
ghost use Rattle.bk_catalogue.specs.Catalogue.{IsOfClass};
ghost use Rattle.bk_word.specs.declared.TheConstants.{INLINE_ORDER};

use arrayvec::ArrayVec;
use bk_simple::are_different;
use bk_word::{Class, INLINE_ORDER};

// Whether the class allows a tiling whose sides have the magnitudes of these currents.
pub(crate) fn class_allows(currents: &[i64], class: Class) -> bool
    requires few { length currents.now ≤ INLINE_ORDER }
    ensures { result ≡ false → (t : Tiled) → IsPermutation (sides_of t) (map nat_abs currents.now) → IsOfClass class t
        → ⊥ }
{
    match class {
        Class::Perfect => !has_repeated(currents),
        Class::Imperfect => has_repeated(currents),
        Class::Simple => true,
    }
}

// Whether two currents have one magnitude: then no tiling whose sides these are is perfect, and else each is.
fn has_repeated(currents: &[i64]) -> bool
    requires few { length currents.now ≤ INLINE_ORDER }
    ensures { (t : Tiled) → IsPermutation (sides_of t) (map nat_abs currents.now) → (result ≡ false ↔ IsPerfect t) }
{
    !are_different(magnitudes_of(currents).as_slice())
}

fn magnitudes_of(currents: &[i64]) -> ArrayVec<u64, INLINE_ORDER>
    requires few { length currents.now ≤ INLINE_ORDER }
    ensures { result.items ≡ map nat_abs currents.now }
{
    let mut magnitudes = ArrayVec::new();
    'currents: for current in currents {
        magnitudes.push(current.unsigned_abs());
    }
    magnitudes
}
