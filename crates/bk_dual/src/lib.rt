//! Dual diagrams and crossings.
#![tactic(auto)]

ghost use Rattle.std.specs.Prelude.{All, count_by, ℕ, ◌<◌, ◌==◌, ◌≡◌, ◌≤◌};
ghost use Rattle.bk_dual.specs.Dual.{crossings, dual_diagram, dual_flow, dual_order, number_at};
ghost use Rattle.bk_dual.specs.DualWires.{WiresLeadAcross};
ghost use Rattle.bk_net.specs.Flow.{IsOneFlow};
ghost use Rattle.bk_net.specs.Net.{HasNoLoose};
ghost use Rattle.bk_tiling.specs.KeptTiling.{IsKept};
ghost use Rattle.bk_tiling.specs.Tiling.{IsOneOf, order};

mod laws;

use arrayvec::ArrayVec;
use bk_net::{Net, net_of};
use bk_sym::{Turn, image};
use bk_tiling::{MOST_SQUARES, Square, Tiling, is_no_later};
pub use laws::nodes_and_crossings;

/// The dual diagram of a tiling (Brooks, Smith, Stone and Tutte 1940): the Smith diagram of the tiling with columns and
/// levels exchanged. Its nodes are the vertical segments, from left to right, and then the right side of the rectangle.
/// A square's wire leads from the vertical segment at its left to the one at its right; the wires come in the code
/// order of that image. No node is loose, and the sides are the one flow of the diagram, at a total of the height.
pub fn dual_of(tiling: &Tiling) -> Net
    ensures diagram { result ≡ dual_diagram tiling.now }
    ensures joined { HasNoLoose result }
    ensures flow { IsOneFlow result (dual_flow tiling.now) }
{
    let (net, _columns) = net_of(&image(tiling, Turn::Swap));
    net
}

/// For each wire of the dual diagram the number, from 1, of its square in the tiling. Each number up to the order
/// stands there once, and no other. The order is our own. The wire leads from the vertical segment at the left of that
/// square to the one at its right, which is the right side of the rectangle where the square ends there.
pub fn dual_order(tiling: &Tiling) -> ArrayVec<u16, MOST_SQUARES>
    ensures value { result.items ≡ dual_order tiling.now }
    ensures once { (n : ℕ) → 0 < n → n ≤ order tiling.now → count_by (λ m. m == n) result.items ≡ 1 }
    ensures range { All (λ n. (0 < n) × (n ≤ order tiling.now)) result.items }
    ensures wires { WiresLeadAcross tiling.now result.items }
    ensures kept { IsKept tiling.now }
{
    let _order = tiling.order();
    let turned = image(tiling, Turn::Swap);
    let mut numbers = ArrayVec::new();
    for q in turned.squares() {
        numbers.push(number_of(tiling, exchanged(*q)));
    }
    numbers
}

/// How many crossings there are: points that are corners of four squares (Brooks, Smith, Stone and Tutte 1940).
pub fn crossings(tiling: &Tiling) -> u32
    ensures { result ≡ crossings tiling.now }
{
    let (net, _levels) = net_of(tiling);
    let dual = dual_of(tiling);
    let nodes = usize::from(net.nodes()) + usize::from(dual.nodes());
    (tiling.order() + 3 - nodes) as u32
}

// The square with column and level exchanged.
fn exchanged(q: Square) -> Square
    ensures { result ≡ record { x = q.y; y = q.x; s = q.s } }
{
    Square {
        x: q.y,
        y: q.x,
        s: q.s,
    }
}

// The number of a square of the tiling. The squares stand in code order, so it is how many come no later than the
// square.
fn number_of(tiling: &Tiling, q: Square) -> u16
    requires one { IsOneOf q tiling.now.squares }
    ensures { result ≡ number_at tiling.now q.x q.y }
{
    let squares = tiling.squares();
    squares.partition_point(|r| is_no_later(r, q.x, q.y)) as u16
}
