//! The text of a Smith diagram.

ghost use Rattle.std.specs.Prelude.{decimal, flat_map, length, ◌+◌, ◌++◌, ◌*◌, ◌≡◌, ◌≤◌, ◌∷◌};
ghost use Rattle.arrayvec.specs.ArrayVec.{array_vec_len};
ghost use Rattle.bk_grammar.specs.declared.TheConstants.{ANSWER_ROOM, LONGEST_NUMBER_TEXT};
ghost use Rattle.bk_text.specs.declared.writer.TheConstants.{LONGEST_SIDE_TEXT};
ghost use Rattle.bk_tiling.specs.KeptTiling.{IsSide};
ghost use Rattle.bk_report.specs.Answers.{net_line, wire_text};
ghost use Rattle.bk_report.specs.declared.net.TheConstants.{LARGEST_PLACE, LONGEST_NET_TEXT, LONGEST_PLACE_TEXT};
ghost use Rattle.bk_report.specs.declared.net.TheConstants.{LONGEST_SIDES_TEXT, LONGEST_WIRE_TEXT};

use bk_grammar::{AnswerBuffer, LONGEST_NUMBER_TEXT, push_bytes, push_number};
use bk_net::{MOST_WIRES, Net, net_of};
use bk_text::LONGEST_SIDE_TEXT;
use bk_tiling::{MOST_SQUARES, Tiling};

/// No node and no square has a greater number.
pub(crate) const LARGEST_PLACE: u16 = 999;

/// No such number is written in more bytes.
pub(crate) const LONGEST_PLACE_TEXT: usize = 3;

/// No wire is written in more bytes, with a blank before it.
const LONGEST_WIRE_TEXT: usize = 2 * (1 + LONGEST_PLACE_TEXT);

/// The number of nodes and the wires are written in no more bytes.
const LONGEST_NET_TEXT: usize = LONGEST_PLACE_TEXT + LONGEST_WIRE_TEXT * MOST_WIRES;

/// The width and the sides of a tiling are written in no more bytes.
const LONGEST_SIDES_TEXT: usize = LONGEST_NUMBER_TEXT + (LONGEST_SIDE_TEXT + 1) * MOST_SQUARES;

/// Writes the Smith diagram of a tiling (Brooks, Smith, Stone and Tutte 1940): the number of nodes and the wires `A-B`,
/// then ` ; `, the width and the sides in code order. The width is the total and the sides are the currents of the one
/// flow.
pub fn write_net(tiling: &Tiling, out: &mut AnswerBuffer)
    ensures { out.new.items ≡ net_line tiling.now }
{
    let (net, _levels) = net_of(tiling);
    out.clear();
    push_net(&net, out);
    push_bytes(b" ; ", out);
    push_sides(tiling, out);
    out.push(b'\n');
}

// Appends the number of nodes, and the wires with a blank before each.
pub(crate) fn push_net(net: &Net, out: &mut AnswerBuffer)
    requires { array_vec_len out.old + LONGEST_NET_TEXT + LONGEST_NUMBER_TEXT ≤ ANSWER_ROOM }
    ensures text { out.new.items
        ≡ out.old.items ++ decimal net.now.nodes ++ flat_map (λ w. 32 ∷ wire_text w) net.now.wires }
    ensures short { array_vec_len out.new ≤ array_vec_len out.old + LONGEST_NET_TEXT }
{
    push_place(net.nodes(), out);
    for (from, to) in net.wires() {
        push_wire(*from, *to, out);
    }
}

// Appends a blank and the wire between two nodes.
fn push_wire(from: u16, to: u16, out: &mut AnswerBuffer)
    requires from { from ≤ LARGEST_PLACE }
    requires to { to ≤ LARGEST_PLACE }
    requires room { array_vec_len out.old + LONGEST_WIRE_TEXT + LONGEST_NUMBER_TEXT ≤ ANSWER_ROOM }
    ensures text { out.new.items ≡ out.old.items ++ 32 ∷ wire_text (from, to) }
    ensures short { array_vec_len out.new ≤ array_vec_len out.old + LONGEST_WIRE_TEXT }
{
    out.push(b' ');
    push_place(from, out);
    out.push(b'-');
    push_place(to, out);
}

// Appends the width of a tiling, and the sides with a blank before each.
pub(crate) fn push_sides(tiling: &Tiling, out: &mut AnswerBuffer)
    requires { array_vec_len out.old + LONGEST_SIDES_TEXT + LONGEST_NUMBER_TEXT ≤ ANSWER_ROOM }
    ensures text { out.new.items
        ≡ out.old.items ++ decimal tiling.now.width ++ flat_map (λ q. 32 ∷ decimal q.s) tiling.now.squares }
    ensures short { array_vec_len out.new ≤ array_vec_len out.old + LONGEST_SIDES_TEXT }
{
    push_number(tiling.width(), out);
    for q in tiling.squares() {
        out.push(b' ');
        push_side(q.s, out);
    }
}

// Appends a side.
#[tactic(auto, using(bk_text::proofs::Spelling::short_side))]
fn push_side(side: u64, out: &mut AnswerBuffer)
    requires side { IsSide side }
    requires room { array_vec_len out.old + LONGEST_NUMBER_TEXT ≤ ANSWER_ROOM }
    ensures text { out.new.items ≡ out.old.items ++ decimal side }
    ensures short { length (decimal side) ≤ LONGEST_SIDE_TEXT }
{
    push_number(side, out);
}

// Appends the number of a node, or of a square.
#[tactic(auto, using(crate::proofs::Spaces::short_place))]
pub(crate) fn push_place(place: u16, out: &mut AnswerBuffer)
    requires small { place ≤ LARGEST_PLACE }
    requires room { array_vec_len out.old + LONGEST_NUMBER_TEXT ≤ ANSWER_ROOM }
    ensures text { out.new.items ≡ out.old.items ++ decimal place }
    ensures short { length (decimal place) ≤ LONGEST_PLACE_TEXT }
{
    push_number(u64::from(place), out);
}
