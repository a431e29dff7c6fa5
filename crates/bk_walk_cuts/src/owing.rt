//! A cut: moves whose first signs ask for more squares than are left.
#![tactic(auto)]

ghost use Rattle.std.specs.Prelude.{IfSome, ◌+◌, ◌≤◌};
ghost use Rattle.bk_word.specs.Word.{order_of};
ghost use Rattle.bk_word.specs.declared.Class.{Class};
ghost use Rattle.bk_walk_cuts.specs.MoveCuts.{IsCut, passed};

use bk_catalogue::{first_over, unders_behind};
use bk_play::Skel;
use bk_word::Move;

// With how many of the move's signs those moves of its count begin that ask for more squares than are left after it:
// one for each segment that ends above its neighbour on one segment's side.
pub(crate) fn cut_owing(skel: &Skel, order: u8, m: &Move) -> Option<usize>
    requires { order_of skel.now + m.now.count ≤ order }
    ensures { IfSome result (λ kept. (class : Class) → IsCut order class skel.now m.now (passed kept m.now)) }
{
    let left = usize::from(order) - skel.order() - usize::from(m.count);
    let signs = skel.signs();
    let place = skel.valley_place();
    let room = left.saturating_sub(unders_behind(signs, place));
    first_over(&signs[..place.saturating_sub(1)], m.signs.as_slice(), room)
}
