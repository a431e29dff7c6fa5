//! What a complete word tells: whether a member of the catalogue has it.
#![tactic(auto)]

ghost use Rattle.std.specs.Prelude.{Any, IfNone, IfSome, IsTrue, false, pos, ◌<ℤ◌, ◌↔◌, ◌≡◌, ◌≤◌};
ghost use Rattle.bk_net.specs.Flow.{IsPrimitiveFlow};
ghost use Rattle.bk_word.specs.Play.{IsComplete};
ghost use Rattle.bk_word.specs.Word.{order_of};
ghost use Rattle.bk_word.specs.declared.TheConstants.{LARGEST_LISTED_ORDER};
ghost use Rattle.bk_word_net.specs.WordNet.{net_of_word};
ghost use Rattle.bk_catalogue.specs.Catalogue.{IsEntry};
ghost use Rattle.bk_catalogue.specs.Repeated.{HasNoMember, HasTwoAlike};
ghost use Rattle.bk_tree_walk.specs.WholeWords.{IsUnfit};

use bk_catalogue::qualifies;
use bk_flow::NarrowFlow;
use bk_play::Skel;
use bk_skel::{LayingRoom, Realised, flow_of, realise_by_in};
use bk_tiling::Tiling;
use bk_word::Class;

// Whether a member of the class has a complete word of at most 16 squares. Where one has, `tiling` becomes that member.
// In `laying` is room for the squares that are laid.
pub(crate) fn find_member(
    skel: &Skel,
    class: Class,
    laying: &mut LayingRoom,
    tiling: &mut Tiling,
) -> bool
    requires whole { IsComplete skel.now }
    requires few { order_of skel.now ≤ LARGEST_LISTED_ORDER }
    ensures yes { IsTrue result → IsEntry (order_of skel.now) class (record { tiling = tiling.new; word = skel.now }) }
    ensures no { result ≡ false → HasNoMember class skel.now }
{
    match fit_flow(skel, class) {
        Some(flow) => find_by_flow(skel, &flow, class, laying, tiling),
        None => false,
    }
}

// The flow of the net of a complete word of at most 16 squares, where it is fit: no current is less than 1, and in the
// class perfect no two are the same. Of a word without such a flow no member of the class has it.
fn fit_flow(skel: &Skel, class: Class) -> Option<NarrowFlow>
    requires whole { IsComplete skel.now }
    requires few { order_of skel.now ≤ LARGEST_LISTED_ORDER }
    ensures flow { IfSome result (λ f. IsPrimitiveFlow (net_of_word skel.now) f.total f.currents) }
    ensures fit { IfSome result (λ f. ¬ (IsUnfit class f.currents)) }
    ensures none { IfNone result (HasNoMember class skel.now) }
{
    let flow = flow_of(skel);
    if is_unfit(flow.currents(), class) {
        None
    } else {
        Some(flow)
    }
}

// Whether a member of the class has a complete word, by the word's flow, which is fit. Where one has, `tiling` becomes
// that member.
fn find_by_flow(
    skel: &Skel,
    flow: &NarrowFlow,
    class: Class,
    laying: &mut LayingRoom,
    tiling: &mut Tiling,
) -> bool
    requires whole { IsComplete skel.now }
    requires flow { IsPrimitiveFlow (net_of_word skel.now) flow.now.total flow.now.currents }
    requires fit { ¬ (IsUnfit class flow.now.currents) }
    ensures yes { IsTrue result → IsEntry (order_of skel.now) class (record { tiling = tiling.new; word = skel.now }) }
    ensures no { result ≡ false → HasNoMember class skel.now }
{
    match realise_by_in(skel, flow, laying, tiling) {
        Realised::Found => qualifies(tiling, class),
        Realised::Nothing => false,
    }
}

// Whether a current is less than 1, or the class is perfect and two are the same.
fn is_unfit(currents: &[i64], class: Class) -> bool
    ensures { IsTrue result ↔ IsUnfit class currents.now }
{
    if has_below_one(currents) {
        return true;
    }
    class == Class::Perfect && has_two_alike(currents)
}

// Whether a number is less than 1.
fn has_below_one(numbers: &[i64]) -> bool
    ensures { IsTrue result ↔ Any (λ n. n <ℤ pos 1) numbers.now }
{
    numbers.iter().any(|number| *number < 1)
}

// Whether two numbers are the same.
fn has_two_alike(numbers: &[i64]) -> bool
    ensures { IsTrue result ↔ HasTwoAlike numbers.now }
{
    for (i, number) in numbers.iter().enumerate() {
        if numbers[..i].contains(number) {
            return true;
        }
    }
    false
}
