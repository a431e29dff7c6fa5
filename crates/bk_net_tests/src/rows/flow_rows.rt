//! Rows of `bk_flow`.

ghost use Rattle.std.specs.Prelude.{◌+◌, ◌*◌, ◌≡◌, ◌≤◌};

use bk_flow::{
    Flow, FlowFault, MOST_SMALL_WIRES, NarrowFlow, narrow_flow, solve, solve_small, whole_flow,
};
use bk_net::{Net, NetLine, read_net};
use std::alloc::Global;

// The net of a line.
fn net_in(line: &str) -> Option<Net> {
    match read_net(line.as_bytes()) {
        Ok(NetLine::Item { net }) => Some(net),
        _ => None,
    }
}

// Whether a flow has this total and these currents.
fn is_flow(flow: &Flow, total: i128, currents: &[i128]) -> bool {
    flow.total() == total && flow.currents() == currents
}

// Whether the flow of a net has this total and these currents.
fn flows(alloc: Global, net: &Net, total: i128, currents: &[i128]) -> bool {
    match solve(alloc, net) {
        Ok(flow) => is_flow(&flow, total, currents),
        Err(_) => false,
    }
}

// Whether a small net without a loose node has such a flow, which takes no memory.
fn flows_small(net: &Net, total: i128, currents: &[i128]) -> bool {
    if net.loose().is_some() || net.wires().len() > MOST_SMALL_WIRES {
        return false;
    }
    match solve_small(net) {
        Ok(flow) => is_flow(&flow, total, currents),
        Err(_) => false,
    }
}

// Whether the flow of the net of a line has this total and these currents, in memory and without.
fn flows_both_ways(alloc: Global, line: &str, total: i128, currents: &[i128]) -> bool {
    match net_in(line) {
        Some(net) => flows(alloc, &net, total, currents) && flows_small(&net, total, currents),
        None => false,
    }
}

static FLOWS: [(&str, i128, &[i128]); 7] = [
    ("4 0-1 0-2 1-2 1-3 2-3", 2, &[1, 1, 0, 1, 1]),
    ("2 1-0", 1, &[-1]),
    (
        "6 0-2 0-1 1-3 1-4 2-5 2-3 3-5 3-4 4-5",
        33,
        &[18, 15, 7, 8, 14, 4, 10, 1, 9],
    ),
    (
        "9 0-1 0-2 0-3 1-2 1-4 2-5 2-3 3-5 3-6 4-5 4-7 5-7 5-6 6-8 7-8 7-6",
        1262,
        &[
            358, 393, 511, 35, 323, 310, 118, 192, 437, 22, 301, 279, 245, 648, 614, -34,
        ],
    ),
    ("2 0-1 1-0 0-1", 3, &[1, -1, 1]),
    ("3 0-2 0-1", 1, &[1, 0]),
    ("3 0-1 0-1 1-2 1-2 1-2", 6, &[3, 3, 2, 2, 2]),
];

fn rows_of_flows() -> &'static [(&'static str, i128, &'static [i128])] {
    &FLOWS
}

#[test]
fn flows_of_small_nets(rt: HostRuntime) {
    for (line, total, currents) in rows_of_flows() {
        assert!(rt;
            flows_both_ways(rt.alloc(), line, *total, currents),
            "{line}"
        );
    }
}

// Whether numbers of 64 bits are these.
fn are_numbers(numbers: &[i64], want: &[i128]) -> bool {
    numbers.len() == want.len()
        && numbers
            .iter()
            .zip(want)
            .all(|(number, other)| i128::from(*number) == *other)
}

// Whether a flow in 64 bits has this total and these currents.
fn is_narrow_flow(flow: &NarrowFlow, total: i128, currents: &[i128]) -> bool {
    i128::from(flow.total()) == total && are_numbers(flow.currents(), currents)
}

// Whether the flow of a small net is found with this total and these currents, and by potentials of 32 bits too.
fn flows_narrowly(net: &Net, total: i128, currents: &[i128]) -> bool {
    if net.loose().is_some() || net.wires().len() > MOST_SMALL_WIRES {
        return false;
    }
    match whole_flow(net) {
        Some(flow) => {
            is_narrow_flow(&flow, total, currents)
                && is_narrow_flow(&narrow_flow(net), total, currents)
        }
        None => false,
    }
}

// Whether the flow of the net of a line, as a whole flow and as a narrow one, has this total and these currents.
fn line_flows_narrowly(line: &str, total: i128, currents: &[i128]) -> bool {
    match net_in(line) {
        Some(net) => flows_narrowly(&net, total, currents),
        None => false,
    }
}

// Whole numbers of 32 bits decide each of these nets.
#[test]
fn narrow_flows(rt: HostRuntime) {
    for (line, total, currents) in rows_of_flows() {
        assert!(rt; line_flows_narrowly(line, *total, currents), "{line}");
    }
}

// Whether the flow of the net of a line has this total and these currents, in memory.
fn flows_in_memory(alloc: Global, line: &str, total: i128, currents: &[i128]) -> bool {
    match net_in(line) {
        Some(net) => flows(alloc, &net, total, currents),
        None => false,
    }
}

// Seventeen wires are more than a small net has.
#[test]
fn the_flow_of_a_path_in_memory(rt: HostRuntime) {
    let line =
        "18 0-1 1-2 2-3 3-4 4-5 5-6 6-7 7-8 8-9 9-10 10-11 11-12 12-13 13-14 14-15 15-16 16-17";
    assert!(rt; flows_in_memory(rt.alloc(), line, 1, &[1; 17]));
}

// Why the net of a line has no flow.
fn fault_of(alloc: Global, line: &str) -> Option<FlowFault> {
    solve(alloc, &net_in(line)?).err()
}

fn nets_and_loose_nodes() -> &'static [(&'static str, u16)] {
    &[
        ("4 0-1 2-3", 0),
        ("2", 0),
        ("4 0-3 1-2", 1),
        ("3 2-0 0-2", 1),
        ("5 0-4 1-4 2-3", 2),
    ]
}

#[test]
fn nets_with_loose_nodes(rt: HostRuntime) {
    for (line, node) in nets_and_loose_nodes() {
        let want = Some(FlowFault::Loose { node: *node });
        assert!(rt; fault_of(rt.alloc(), line) == want, "{line}");
    }
}

// Each node but the last is joined to the next and to the last.
fn ladder(rungs: u16) -> Net
    requires { rungs ≤ 92 }
{
    let mut net = Net::new(rungs + 2);
    for node in 0..rungs {
        net.add(node, rungs + 1);
        net.add(node, node + 1);
    }
    net.add(rungs, rungs + 1);
    net
}

// The total of the flow of a net.
fn total_of(alloc: Global, net: &Net) -> Result<i128, FlowFault> {
    Ok(solve(alloc, net)?.total())
}

// The currents are the Fibonacci numbers from 1 on, and the total is the next: of 92 rungs it is the 186th, which has
// 128 bits.
#[test]
fn ladders(rt: HostRuntime) {
    assert!(rt; total_of(rt.alloc(), &ladder(20)) == Ok(267914296));
    assert!(rt; total_of(rt.alloc(), &ladder(92)) == Err(FlowFault::Wide));
}
