//! What a network line stands for.
#![tactic(auto)]

ghost use Rattle.std.specs.Prelude.{All, IfErr, IfNone, IfOk, IfSome, IsTrue, List, false, length, ◌↔◌, ◌≡◌, ◌≤◌, ℕ};
ghost use Rattle.bk_net.specs.GatheredWires.{IsNoNet, KeepsWires, and_wire};
ghost use Rattle.bk_net.specs.NetLine.{IsNetLine, Item};
ghost use Rattle.bk_net.specs.ReadNet.{IsFirstFault, IsKeptLine, IsNetFaultOf, IsNodeCount, JoinsNodes, net_line_of};

use crate::reader::{NetEnding, Place, kind_of};
use crate::{MOST_NODES, MOST_WIRES, Net, NetFault, NetLine};
use arrayvec::ArrayVec;

/// Reads a network line, given without its line feed: a number of nodes, and wires from a node to a node. What each
/// line stands for is told by the grammar of network lines. It is refused, in this order: `Text` exactly where the
/// bytes are no such line, with the length of their longest start that begins one; `Many` exactly where there are more
/// than 200 wires; `Nodes` exactly where the number of nodes isn't 2 to 201; `Wire` exactly where a wire names a node
/// that isn't there or one node twice, with the first such place, from 1. The form of the line is our own.
pub fn read_net(line: &[u8]) -> Result<NetLine, NetFault>
    ensures read { IfOk result (λ l. IsNetLine (net_line_of l) line.now) }
    ensures kept { IfOk result IsKeptLine }
    ensures fault { IfErr result (λ fault. IsNetFaultOf fault line.now) }
{
    let mut place = Place::Start;
    let mut wires = ArrayVec::new();
    let mut many = false;
    for (at, byte) in line.iter().enumerate() {
        let kind = kind_of(*byte);
        let Some(next) = place.next(kind) else {
            return Err(NetFault::Text { at });
        };
        many = with_wire(&mut wires, many, place.ended_wire(kind));
        place = next;
    }
    let Some(ending) = place.ending() else {
        return Err(NetFault::Text { at: line.len() });
    };
    many = with_wire(&mut wires, many, place.last_wire());
    match ending {
        NetEnding::Empty => Ok(NetLine::Skip),
        NetEnding::Nodes(nodes) => net_item(nodes, many, &wires),
    }
}

// Keeps a wire, if there is one and there is room for it. Returns whether there were more wires than are kept.
fn with_wire(
    wires: &mut ArrayVec<(u16, u16), MOST_WIRES>,
    many: bool,
    wire: Option<(u16, u16)>,
) -> bool
    ensures { (all : List (ℕ × ℕ)) → KeepsWires all wires.old.items many
        → KeepsWires (and_wire wire all) wires.new.items result }
{
    match wire {
        Some(wire) => many || wires.try_push(wire).is_err(),
        None => many,
    }
}

// The net of so many nodes with the kept wires, unless there were more.
fn net_item(nodes: u16, many: bool, wires: &[(u16, u16)]) -> Result<NetLine, NetFault>
    requires few { length wires.now ≤ MOST_WIRES }
    ensures all { IfOk result (λ l. many ≡ false) }
    ensures item { IfOk result (λ l. net_line_of l ≡ Item nodes wires.now) }
    ensures kept { IfOk result IsKeptLine }
    ensures fault { IfErr result (IsNoNet nodes many wires.now) }
{
    if many {
        return Err(NetFault::Many);
    }
    if nodes < 2 || usize::from(nodes) > MOST_NODES {
        return Err(NetFault::Nodes {
            count: u64::from(nodes),
        });
    }
    if let Some(place) = first_fault(nodes, wires) {
        return Err(NetFault::Wire { place });
    }
    Ok(NetLine::Item {
        net: net_with(nodes, wires),
    })
}

// The place, from 1, of the first wire that names a node that is not there, or one node twice.
fn first_fault(nodes: u16, wires: &[(u16, u16)]) -> Option<usize>
    ensures none { IfNone result (All (JoinsNodes nodes) wires.now) }
    ensures some { IfSome result (IsFirstFault nodes wires.now) }
{
    let before = wires.iter().position(|wire| !joins_nodes(nodes, *wire))?;
    Some(before + 1)
}

// Whether a wire leads from one of the nodes to another one.
fn joins_nodes(nodes: u16, wire: (u16, u16)) -> bool
    ensures { IsTrue result ↔ JoinsNodes nodes wire }
{
    let (from, to) = wire;
    from < nodes && to < nodes && from != to
}

// The net of so many nodes with these wires.
fn net_with(nodes: u16, wires: &[(u16, u16)]) -> Net
    requires count { IsNodeCount nodes }
    requires few { length wires.now ≤ MOST_WIRES }
    requires ends { All (JoinsNodes nodes) wires.now }
    ensures { result ≡ record { nodes = nodes; wires = wires.now } }
{
    let mut net = Net::new(nodes);
    for (from, to) in wires {
        net.add(*from, *to);
    }
    net
}
