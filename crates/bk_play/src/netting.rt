//! The net of a word, from the records of its moves.

ghost use Rattle.std.specs.List.{concat, list_any};
ghost use Rattle.std.specs.Prelude.{List, cond, length, map, nat_eq, slice_index, sum, ℕ, ◌+◌, ◌++◌, ◌<◌};
ghost use Rattle.std.specs.Prelude.{◌≡◌, ◌≤◌};
ghost use Rattle.bk_word_net.specs.WordNet.{end_of};
ghost use Rattle.bk_play.specs.Wiring.{AreNumbers, AreWires, closed_of, hung_and_closed, move_wires_from};
ghost use Rattle.bk_word.specs.declared.TheConstants.{LARGEST_ORDER};
ghost use Rattle.bk_net.specs.declared.TheConstants.{MOST_WIRES};

use crate::records::MoveRecord;
use bk_net::Net;
use bk_word::LARGEST_ORDER;

// The node at which each square ends, in the order of the squares' numbers from 1: the one whose move closes it, or the
// last node where none does.
pub(crate) fn end_nodes(records: &[MoveRecord], closed: &[u8]) -> [u8; LARGEST_ORDER]
    requires few { length records.now ≤ LARGEST_ORDER }
    requires numbers { AreNumbers LARGEST_ORDER closed.now }
    requires many { length closed.now ≡ sum (closed_of records.now) }
    ensures long { length result ≡ LARGEST_ORDER }
    ensures nodes { (lists : List (List ℕ)) → closed.now ≡ concat lists → closed_of records.now ≡ map length lists
        → (k : ℕ) → k < LARGEST_ORDER → slice_index result k ≡ end_of lists (k + 1) }
{
    let mut ended = [records.len() as u8; LARGEST_ORDER];
    let mut node = records.len();
    let mut end = closed.len();
    'nodes: while node > 0 {
        node -= 1;
        let start = end - usize::from(records[node].closed);
        mark(&mut ended, &closed[start..end], node as u8);
        end = start;
    }
    ended
}

// Notes for these squares that they end at a node.
fn mark(ended: &mut [u8], squares: &[u8], node: u8)
    requires { AreNumbers (length ended.old) squares.now }
    ensures { (k : ℕ) → k < length ended.old
        → slice_index ended.new k ≡ cond (list_any (nat_eq (k + 1)) squares.now) node (slice_index ended.old k) }
{
    for square in squares {
        ended[usize::from(*square) - 1] = node;
    }
}

// The net in which the moves of these records hang squares that end at these nodes.
pub(crate) fn wired(records: &[MoveRecord], ends: &[u8]) -> Net
    requires some { 0 < length records.now }
    requires few { length records.now ≤ LARGEST_ORDER }
    requires all { length ends.now ≡ sum (hung_and_closed records.now) }
    requires room { length ends.now ≤ MOST_WIRES }
    requires wires { AreWires (length records.now + 1) (move_wires_from 0 (hung_and_closed records.now) ends.now) }
    ensures { result ≡ record {
      nodes = length records.now + 1;
      wires = move_wires_from 0 (hung_and_closed records.now) ends.now;
    } }
{
    let mut net = Net::new(records.len() as u16 + 1);
    let mut rest = ends;
    for (node, noted) in records.iter().enumerate() {
        let (own, behind) = rest.split_at(usize::from(noted.count));
        let from = node as u16;
        add_wires(&mut net, from, own);
        rest = behind;
    }
    net
}

// Appends a wire from a node to each of others.
fn add_wires(net: &mut Net, node: u16, ends: &[u8])
    requires room { length net.old.wires + length ends.now ≤ MOST_WIRES }
    requires wires { AreWires net.old.nodes (map (λ e. (node, e)) ends.now) }
    ensures nodes { net.new.nodes ≡ net.old.nodes }
    ensures wires { net.new.wires ≡ net.old.wires ++ map (λ e. (node, e)) ends.now }
{
    for end in ends {
        net.add(node, u16::from(*end));
    }
}
