//! The Smith diagram of a tiling.
#![tactic(auto)]

ghost use Rattle.std.specs.Prelude.{length, map, slice_index, ◌+◌, ◌<◌, ◌≡◌, ◌≢◌};
ghost use Rattle.bk_net.specs.Diagram.{group_level, node_below, node_levels, smith_diagram};
ghost use Rattle.bk_net.specs.Flow.{IsOneFlow};
ghost use Rattle.bk_net.specs.GroupNumbers.{group_numbers};
ghost use Rattle.bk_net.specs.Net.{HasNoLoose};
ghost use Rattle.bk_net.specs.SmithFlow.{smith_flow};
ghost use Rattle.bk_tiling.specs.SquareGroups.{square_groups};
ghost use Rattle.bk_tiling.specs.Tiling.{IsOneOf};

use crate::{MOST_NODES, Net};
use arrayvec::ArrayVec;
use bk_tiling::{MOST_SQUARES, Square, Tiling, is_no_later};

/// The Smith diagram of a tiling, and the level of each node (Brooks, Smith, Stone and Tutte 1940). The nodes are the
/// groups of the code and then the bottom, so squares that touch at one level hang from one node (our own rule). A
/// square's wire leads from its group to the one on whose segment it stands, or to the bottom; the wires come in code
/// order. No node is loose, and the sides are the one flow of the diagram.
pub fn net_of(tiling: &Tiling) -> (Net, ArrayVec<u64, MOST_NODES>)
    ensures diagram { result.0 ≡ smith_diagram tiling.now }
    ensures levels { result.1.items ≡ node_levels tiling.now }
    ensures joined { HasNoLoose result.0 }
    ensures flow { IsOneFlow result.0 (smith_flow tiling.now) }
{
    let (mut levels, nodes) = groups_of(tiling);
    let net = wired(tiling, levels.len() as u16, nodes.as_slice());
    levels.push(tiling.height());
    (net, levels)
}

// The level of each group, and for each square the number of its group.
fn groups_of(tiling: &Tiling) -> (ArrayVec<u64, MOST_NODES>, ArrayVec<u16, MOST_SQUARES>)
    ensures levels { result.0.items ≡ map group_level (square_groups tiling.now.squares) }
    ensures nodes { result.1.items ≡ group_numbers tiling.now.squares }
{
    let squares = tiling.squares();
    let mut levels = ArrayVec::new();
    let mut nodes = ArrayVec::new();
    let mut groups: u16 = 0;
    for (i, q) in squares.iter().enumerate() {
        if tiling.begins_group(i) {
            levels.push(q.y);
            groups += 1;
        }
        nodes.push(groups - 1);
    }
    (levels, nodes)
}

// The diagram, from the number of groups and the number of each square's group.
fn wired(tiling: &Tiling, bottom: u16, nodes: &[u16]) -> Net
    requires bottom { bottom ≡ length (square_groups tiling.now.squares) }
    requires nodes { nodes.now ≡ group_numbers tiling.now.squares }
    ensures { result ≡ smith_diagram tiling.now }
{
    let squares = tiling.squares();
    let mut net = Net::new(bottom + 1);
    for (i, q) in squares.iter().enumerate() {
        net.add(nodes[i], node_below(tiling, bottom, nodes, *q));
    }
    net
}

// The node on which a square of the tiling stands.
fn node_below(tiling: &Tiling, bottom: u16, nodes: &[u16], q: Square) -> u16
    requires one { IsOneOf q tiling.now.squares }
    requires bottom { bottom ≡ length (square_groups tiling.now.squares) }
    requires nodes { nodes.now ≡ group_numbers tiling.now.squares }
    ensures { result ≡ node_below (square_groups tiling.now.squares) q }
{
    let height = tiling.height();
    if q.y + q.s == height {
        return bottom;
    }
    nodes[place_below(tiling, q)]
}

// The place of the square under the left column of a square that stands above the bottom. The squares stand from top to
// bottom and from left to right, so it is the last that comes no later than the column's cell at the square's bottom.
fn place_below(tiling: &Tiling, q: Square) -> usize
    requires one { IsOneOf q tiling.now.squares }
    requires above { q.y + q.s ≢ tiling.now.height }
    ensures within { result < length tiling.now.squares }
    ensures node { slice_index (group_numbers tiling.now.squares) result
        ≡ node_below (square_groups tiling.now.squares) q }
{
    let squares = tiling.squares();
    let level = q.y + q.s;
    let after = squares.partition_point(|r| is_no_later(r, q.x, level));
    after - 1
}
