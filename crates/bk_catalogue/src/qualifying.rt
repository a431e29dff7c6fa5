//! Whether a tiling is a member of a catalogue.

ghost use Rattle.std.specs.Prelude.{IsTrue, false, length, ◌≡◌};
ghost use Rattle.bk_simple.specs.Simple.{IsSimple};
ghost use Rattle.bk_catalogue.specs.Catalogue.{IsMember, IsOfClass};

use crate::corners::begins_greatest;
use bk_simple::{is_perfect, is_perfect_simple, part};
use bk_sym::is_canonical;
use bk_tiling::Tiling;
use bk_word::Class;

/// Whether a tiling is a member of the class and of its own order: simple, of the class, and its own canonical tiling.
pub fn qualifies(tiling: &Tiling, class: Class) -> bool
    ensures yes { IsTrue result → IsMember (length tiling.now.squares) class tiling.now }
    ensures no { result ≡ false → IsMember (length tiling.now.squares) class tiling.now → ⊥ }
{
    let _kept = tiling.order();
    if !begins_greatest(tiling) {
        return false;
    }
    is_canonical(tiling) && is_simple_of(tiling, class)
}

/// Whether a tiling is simple and of the class.
pub fn is_simple_of(tiling: &Tiling, class: Class) -> bool
    ensures simple { IsTrue result → IsSimple tiling.now }
    ensures class { IsTrue result → IsOfClass class tiling.now }
    ensures no { result ≡ false → IsSimple tiling.now → IsOfClass class tiling.now → ⊥ }
{
    match class {
        Class::Perfect => is_perfect_simple(tiling),
        Class::Imperfect => !is_perfect(tiling) && part(tiling).is_none(),
        Class::Simple => part(tiling).is_none(),
    }
}
