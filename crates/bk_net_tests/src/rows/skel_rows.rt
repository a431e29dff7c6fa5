//! Rows of `bk_skel`.

ghost use Rattle.std.specs.Prelude.{◌<◌, ◌≡◌};

use super::tilings::WIRES_OF_NINE;
use bk_net::Net;
use bk_skel::*;
use bk_word::{LARGEST_ORDER, Move, Word, read_word};
use std::alloc::Global;
use std::marker::Brand;
use std::process::Abort;
use std::sync::ledger::{Blank, Ledger};

// A valley before a move: its place, its walls and its squares.
type Stands = (usize, bool, bool, &'static [u8]);

// A word, the valley before each of its moves, and the wires of its net.
type Row = (&'static str, &'static [Stands], &'static [(u16, u16)]);

// The words of a 33 by 32 and a 65 by 47 rectangle, of four squares of one size, and of one square.
static ROWS: [Row; 4] = [
    (
        "2u.2aa.2ue.2eue.1e",
        &[
            (0, true, true, &[]),
            (1, false, true, &[2]),
            (0, true, false, &[1]),
            (1, false, false, &[6, 3]),
            (1, false, true, &[8, 4]),
        ],
        WIRES_OF_NINE,
    ),
    (
        "3ua.2aue.2ue.2ea.1ee",
        &[
            (0, true, true, &[]),
            (1, false, false, &[2]),
            (0, true, false, &[1]),
            (2, false, true, &[5, 3]),
            (1, false, false, &[7, 4, 8]),
        ],
        &[
            (0, 2),
            (0, 1),
            (0, 3),
            (1, 4),
            (1, 3),
            (2, 5),
            (2, 4),
            (3, 4),
            (3, 5),
            (4, 5),
        ],
    ),
    (
        "2e.2e",
        &[(0, true, true, &[]), (0, true, true, &[1, 2])],
        &[(0, 1), (0, 1), (1, 2), (1, 2)],
    ),
    ("1", &[(0, true, true, &[])], &[(0, 1)]),
];

fn rows() -> &'static [Row] {
    &ROWS
}

// Whether a valley is this one.
fn is_valley(valley: &Valley, stands: &Stands) -> bool {
    let (place, left, right, squares) = stands;
    valley.place == *place
        && valley.left_wall == *left
        && valley.right_wall == *right
        && valley.squares.as_slice() == *squares
}

// Whether the valley after these moves is this one, with its walls and its length.
fn stands_so(skel: &Skel, stands: &Stands) -> bool {
    let (_, left, right, squares) = stands;
    is_valley(&skel.valley(), stands)
        && skel.walls() == (*left, *right)
        && skel.valley_len() == squares.len()
}

// Goes on by a move; whether it is legal.
fn push<L: Ledger>(skel: &mut Skel, m: &Move, steps: &mut Steps<L>) -> bool {
    if !skel.legal(m) || skel.order() + usize::from(m.count) > LARGEST_ORDER {
        return false;
    }
    skel.push(m, steps);
    true
}

// Whether two moves are the same.
fn is_same(kept: &Move, m: &Move) -> bool {
    kept.count == m.count && kept.signs.as_slice() == m.signs.as_slice()
}

// Whether this is the last move.
fn is_last(skel: &Skel, m: &Move) -> bool {
    skel.moves() > 0 && is_same(&skel.get(skel.moves() - 1), m)
}

// Goes on by a move; whether the valley before it is this one, and it is legal and then the last move.
fn goes_on<L: Ledger>(skel: &mut Skel, stands: &Stands, m: &Move, steps: &mut Steps<L>) -> bool {
    stands_so(skel, stands) && push(skel, m, steps) && is_last(skel, m)
}

// Plays the moves of a word; whether the valleys before them are these.
fn plays<L: Ledger>(
    skel: &mut Skel,
    word: &Word,
    valleys: &[Stands],
    steps: &mut Steps<L>,
) -> bool {
    for (i, stands) in valleys.iter().enumerate() {
        if i >= word.moves() || !goes_on(skel, stands, &word.get(i), steps) {
            return false;
        }
    }
    word.moves() == valleys.len()
}

// Takes all moves back.
fn take_back(skel: &mut Skel) {
    while skel.moves() > 0 {
        skel.pop();
    }
}

// Whether a net has these nodes and wires.
fn is_net(net: &Net, nodes: usize, wires: &[(u16, u16)]) -> bool {
    usize::from(net.nodes()) == nodes && net.wires() == wires
}

// Whether so many squares hang, and one segment is left.
fn hangs(skel: &Skel, order: usize) -> bool {
    skel.order() == order && skel.sizes().len() == 1 && skel.signs().len() == 0
}

// Whether what is closed after all moves of a row is its net.
fn is_closed(skel: &Skel, nodes: usize, wires: &[(u16, u16)]) -> bool {
    skel.is_closed() && hangs(skel, wires.len()) && is_net(&skel.net(), nodes, wires)
}

// Takes all moves back and plays a row; whether its valleys and its net are these.
fn plays_anew<L: Ledger>(skel: &mut Skel, word: &Word, row: &Row, steps: &mut Steps<L>) -> bool {
    let (_, valleys, wires) = row;
    take_back(skel);
    !skel.is_closed()
        && plays(skel, word, valleys, steps)
        && is_closed(skel, valleys.len().saturating_add(1), wires)
}

// Plays a row, takes it back, and plays it again.
fn plays_twice<L: Ledger>(alloc: Global, row: &Row, steps: &mut Steps<L>) -> bool {
    let Ok(word) = read_word(alloc, row.0.as_bytes()) else {
        return false;
    };
    let mut skel = Skel::new();
    plays_anew(&mut skel, &word, row, steps) && plays_anew(&mut skel, &word, row, steps)
}

fn play_rows<L: Ledger>(rt: &impl Abort, alloc: Global, blank: Blank)
    requires name { blank.name ≡ L.name }
    requires parts { blank.parts ≡ L.parts }
    requires some { 0 < L.parts }
{
    let mut steps: Steps<L> = Steps::new(blank);
    for row in rows() {
        let text = row.0;
        assert!(rt; plays_twice(alloc, row, &mut steps), "{text}");
    }
}

#[test]
fn plays_words(rt: HostRuntime) {
    play_rows::<Brand>(&rt, rt.alloc(), Blank::new(1));
}

// Which of these moves is the first that is not legal after those before it.
fn first_illegal<L: Ledger>(word: &Word, steps: &mut Steps<L>) -> Option<usize> {
    let mut skel = Skel::new();
    for i in 0..word.moves() {
        if !push(&mut skel, &word.get(i), steps) {
            return Some(i);
        }
    }
    None
}

// Whether this move of the word of a text is the first that is not legal.
fn is_first_illegal<L: Ledger>(
    alloc: Global,
    text: &str,
    want: Option<usize>,
    steps: &mut Steps<L>,
) -> bool {
    match read_word(alloc, text.as_bytes()) {
        Ok(word) => first_illegal(&word, steps) == want,
        Err(_) => false,
    }
}

// Words, and which of their moves is the first that is not legal.
fn beginnings() -> &'static [(&'static str, Option<usize>)] {
    &[
        ("2u.2eu.1e", None),
        ("2u.2e.1", Some(1)),
        ("2uu", Some(0)),
        ("2u.2euu", Some(1)),
        ("2u.2ea.1", Some(2)),
    ]
}

fn refuses_rows<L: Ledger>(rt: &impl Abort, alloc: Global, blank: Blank)
    requires name { blank.name ≡ L.name }
    requires parts { blank.parts ≡ L.parts }
    requires some { 0 < L.parts }
{
    let mut steps: Steps<L> = Steps::new(blank);
    for (text, want) in beginnings() {
        assert!(rt; is_first_illegal(alloc, text, *want, &mut steps), "{text}");
    }
}

#[test]
fn tells_legal_moves(rt: HostRuntime) {
    refuses_rows::<Brand>(&rt, rt.alloc(), Blank::new(1));
}
