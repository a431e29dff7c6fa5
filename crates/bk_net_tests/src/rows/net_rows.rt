//! Rows of `bk_net`.

use super::texts::built;
use super::tilings::*;
use bk_net::*;
use bk_tiling::Tiling;
use std::alloc::Global;
use std::process::Abort;

// Whether a net has these nodes and wires and no loose node.
fn is_net(net: &Net, nodes: usize, wires: &[(u16, u16)]) -> bool {
    usize::from(net.nodes()) == nodes && net.wires() == wires && net.loose().is_none()
}

// Whether the diagram of a tiling has these wires and levels.
fn hangs(tiling: &Tiling, wires: &[(u16, u16)], levels: &[u64]) -> bool {
    let (net, found) = net_of(tiling);
    is_net(&net, levels.len(), wires) && found.as_slice() == levels
}

// Asserts the wires and the levels of the diagram of a code's tiling.
fn assert_hung(rt: &impl Abort, code: &str, wires: &[(u16, u16)], levels: &[u64]) {
    let tiling = tiling(rt, code);
    assert!(rt; hangs(&tiling, wires, levels), "{levels:?}");
}

#[test]
fn hangs_squares(rt: HostRuntime) {
    assert_hung(&rt, NINE_SQUARES, WIRES_OF_NINE, &[0, 15, 18, 22, 23, 32]);
    let four = &[(0, 1), (0, 1), (1, 2), (1, 2)];
    assert_hung(&rt, FOUR_SQUARES, four, &[0, 1, 2]);
    assert_hung(&rt, "[1]", &[(0, 1)], &[0, 1]);
}

// What a line is read as: its nodes and its least loose node, or the fault.
fn meaning(line: &[u8]) -> Result<(u16, Option<u16>), NetFault> {
    match read_net(line)? {
        NetLine::Skip => Ok((0, None)),
        NetLine::Item { net } => Ok((net.nodes(), net.loose())),
    }
}

// The nodes and the least loose node of a line, if it is read.
fn seen_in(line: &[u8]) -> Option<(u16, Option<u16>)> {
    meaning(line).ok()
}

fn lines_that_are_read() -> &'static [(&'static str, u16, Option<u16>)] {
    &[
        ("", 0, None),
        (" \t; 2 0-1", 0, None),
        ("4 0-1 0-2 1-2 1-3 2-3", 4, None),
        (" 2  1-0\r;", 2, None),
        ("4 0-1 2-3", 4, Some(0)),
        ("3 0-2", 3, Some(1)),
        ("2", 2, Some(0)),
    ]
}

#[test]
fn reads_lines(rt: HostRuntime) {
    for (line, nodes, loose) in lines_that_are_read() {
        assert!(rt;
            seen_in(line.as_bytes()) == Some((*nodes, *loose)),
            "{line}"
        );
    }
}

fn lines_that_are_refused() -> &'static [(&'static str, &'static str)] {
    &[
        ("2 0", "Text 3"),
        ("2 0-", "Text 4"),
        ("02 0-1", "Text 1"),
        ("2 0-1x", "Text 5"),
        ("2 0 -1", "Text 3"),
        ("1000 0-1", "Text 3"),
        ("1", "Nodes 1"),
        ("202 0-1", "Nodes 202"),
        ("0 0-0", "Nodes 0"),
        ("3 0-1 1-3", "Wire 2"),
        ("3 0-1 0-2 1-1 3-3", "Wire 3"),
        ("2 0-1 ,", "Text 6"),
    ]
}

// The number of a fault.
fn place_of_fault(fault: &NetFault) -> u64 {
    match fault {
        NetFault::Text { at } => *at as u64,
        NetFault::Wire { place } => *place as u64,
        NetFault::Many => 0,
        NetFault::Nodes { count } => *count,
    }
}

// Whether a fault is printed so, with its number behind.
fn is_printed(alloc: Global, fault: &NetFault, want: &str) -> bool {
    let place = place_of_fault(fault);
    match format!(in alloc; "{fault} {place}") {
        Ok(text) => text.as_str() == want,
        Err(_) => false,
    }
}

// Whether a line is refused by such a fault.
fn is_refused(alloc: Global, line: &[u8], want: &str) -> bool {
    match meaning(line) {
        Ok(_) => false,
        Err(fault) => is_printed(alloc, &fault, want),
    }
}

#[test]
fn refuses_lines(rt: HostRuntime) {
    for (line, want) in lines_that_are_refused() {
        assert!(rt; is_refused(rt.alloc(), line.as_bytes(), want), "{line}");
    }
}

// Whether a line of two nodes and 200 wires is read.
fn reads_most() -> bool {
    let line = built("2", " 0-1", 200, "");
    seen_in(line.as_slice()) == Some((2, None))
}

// Whether one of a wire more is refused.
fn refuses_more(alloc: Global) -> bool {
    let line = built("2", " 0-1", 200, " 1-0");
    is_refused(alloc, line.as_slice(), "Many 0")
}

#[test]
fn refuses_many_wires(rt: HostRuntime) {
    assert!(rt; reads_most());
    assert!(rt; refuses_more(rt.alloc()));
}
