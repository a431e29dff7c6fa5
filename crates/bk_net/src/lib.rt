//! Networks of unit resistances, Smith diagrams and their flows.
#![tactic(auto)]

ghost use Rattle.bk_net.specs.KeptNet.{IsKeptNet};
ghost use Rattle.bk_net.specs.Net.{HasNoLoose, IsLeastLoose, Net as SeenNet};
ghost use Rattle.std.specs.Prelude.{IfNone, IfSome, [], length, ◌++◌, ◌<◌, ◌∷◌, ◌≡◌, ◌≢◌, ◌≤◌};

mod diagram;
mod labels;
mod laws;
mod read;
mod reader;

use arrayvec::ArrayVec;
use bk_tiling::MOST_SQUARES;
pub use diagram::net_of;
use labels::{labels_of, place_of_other};
pub use laws::{a_joined_net_has_one_flow, a_net_line_has_one_meaning, sides_are_the_one_flow};
pub use read::read_net;
use std::marker::Model;
use thiserror::Error;

/// The most nodes of a net: one for each group of a tiling, and the bottom.
pub const MOST_NODES: usize = MOST_SQUARES + 1;

/// The most wires of a net: one for each square of a tiling.
pub const MOST_WIRES: usize = MOST_SQUARES;

/// A network of unit resistances: 2 to 201 nodes, numbered from 0, and at most 200 wires, each between two different
/// nodes. The current goes in at node 0 and out at the last node (Brooks, Smith, Stone and Tutte 1940).
#[derive(Drop)]
pub struct Net {
    nodes: u16,
    wires: ArrayVec<(u16, u16), MOST_WIRES>,
}

impl Model for Net {
    ghost use Rattle.bk_net.specs.KeptNet.{IsKeptNet};
    ghost use Rattle.bk_net.specs.Net.{Net as SeenNet};

    ghost Value = { SeenNet };

    ghost view = { λ n. record { nodes = n.nodes; wires = n.wires.items } };

    ghost invariant = { λ n. IsKeptNet (record { nodes = n.nodes; wires = n.wires.items }) };
}

impl Net {
    /// A net of `nodes` nodes, 2 to 201, with no wires.
    pub fn new(nodes: u16) -> Net
        requires some { 2 ≤ nodes }
        requires few { nodes ≤ MOST_NODES }
        ensures { result ≡ record { nodes = nodes; wires = [] } }
    {
        Net {
            nodes,
            wires: ArrayVec::new(),
        }
    }

    /// Appends a wire from one node of the net to another one. There must be room for it. Its current counts as
    /// positive in this direction.
    pub fn add(&mut self, from: u16, to: u16)
        requires room { length self.old.wires < MOST_WIRES }
        requires from_node { from < self.old.nodes }
        requires to_node { to < self.old.nodes }
        requires differ { from ≢ to }
        ensures nodes { self.new.nodes ≡ self.old.nodes }
        ensures wires { self.new.wires ≡ self.old.wires ++ (from, to) ∷ [] }
    {
        self.wires.push((from, to));
    }

    /// How many nodes there are, 2 to 201.
    pub fn nodes(&self) -> u16
        ensures value { result ≡ self.now.nodes }
        ensures kept { IsKeptNet self.now }
    {
        self.nodes
    }

    /// The wires, in the order in which they were appended.
    pub fn wires(&self) -> &[(u16, u16)]
        ensures value { result.now ≡ self.now.wires }
        ensures kept { IsKeptNet self.now }
    {
        self.wires.as_slice()
    }

    /// The least node that is not joined to the last one by wires, whichever way they lead. There is none exactly where
    /// every node is joined to the last, and then a total fixes the flow (Kirchhoff).
    pub fn loose(&self) -> Option<u16>
        ensures none { IfNone result (HasNoLoose self.now) }
        ensures some { IfSome result (IsLeastLoose self.now) }
    {
        let nodes = self.nodes();
        let labels = labels_of(nodes, self.wires());
        let last = labels[usize::from(nodes - 1)];
        let loose = place_of_other(labels.as_slice(), last)?;
        Some(loose as u16)
    }
}

/// What a network line stands for: nothing, or a net.
#[derive(Drop)]
pub enum NetLine {
    Skip,
    Item { net: Net },
}

/// Why a network line is refused.
#[derive(Debug, Drop, Error)]
pub enum NetFault {
    /// The bytes are no network line: the longest start of them that begins one has `at` bytes.
    #[error("Text")]
    Text { at: usize },
    /// There are more than 200 wires.
    #[error("Many")]
    Many,
    /// The number of nodes is not 2 to 201.
    #[error("Nodes")]
    Nodes { count: u64 },
    /// The wire at this place, from 1, is the first that names a node that is not there, or one node twice.
    #[error("Wire")]
    Wire { place: usize },
}
