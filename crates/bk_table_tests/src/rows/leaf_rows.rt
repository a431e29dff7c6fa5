//! Rows of `bk_found`.

use bk_found::{Ties, candidate_of};
use bk_free_search::Board;
use bk_play::SmallMove;
use bk_short::Short;
use bk_tiling::Tiling;
use bk_word::{Class, INLINE_ORDER, Move, Sign, Word, read_word};
use std::process::Abort;

// A tiling's width, its height and its sides in code order.
type Sides = (u64, u64, &'static [u64]);

// The signs of a move in a short list, which must have room for them.
fn signs_of(rt: &impl Abort, m: &Move) -> Short<Sign, 17> {
    let mut signs = Short::new();
    for sign in m.signs.as_slice() {
        assert!(rt; signs.len() < 17);
        signs.push(*sign);
    }
    signs
}

// Goes on by a move, which must be legal.
fn play(rt: &impl Abort, board: &mut Board, m: &Move) {
    let m = SmallMove {
        count: m.count,
        signs: signs_of(rt, m),
    };
    assert!(rt;
        board.skel().legal(&m) && board.skel().order() + usize::from(m.count) <= INLINE_ORDER
    );
    board.play(&m);
}

// No counts are said to tie.
const NO_TIES: Ties = Ties {
    level: false,
    across: false,
    size: false,
};

// The tiling at a complete word, if one of the class is found.
fn found_at(rt: &impl Abort, board: &Board, class: Class) -> Option<Tiling> {
    assert!(rt; board.skel().is_closed() && board.skel().order() <= INLINE_ORDER);
    let placed = candidate_of(board.skel(), board.lefts(), NO_TIES, class)?;
    match Tiling::try_new(placed.width, placed.height, &placed.squares) {
        Ok(tiling) => Some(tiling),
        Err(_) => None,
    }
}

// Whether a tiling has this size, and these sides in its code.
fn is_tiling(tiling: &Tiling, want: &Sides) -> bool {
    let (width, height, sides) = want;
    tiling.width() == *width
        && tiling.height() == *height
        && tiling.order() == sides.len()
        && tiling
            .squares()
            .iter()
            .zip(*sides)
            .all(|(q, side)| q.s == *side)
}

// Whether a tiling is this one, or both are none.
fn is_found(found: &Option<Tiling>, want: &Option<Sides>) -> bool {
    match (found, want) {
        (Some(tiling), Some(sides)) => is_tiling(tiling, sides),
        (None, None) => true,
        _ => false,
    }
}

// Whether this tiling is found at the leaf of a word.
fn is_at_leaf(rt: &impl Abort, word: &Word, class: Class, want: &Option<Sides>) -> bool {
    let mut board = Board::new();
    for i in 0..word.moves() {
        play(rt, &mut board, &word.get(i));
    }
    is_found(&found_at(rt, &board, class), want)
}

static WORDS: [(&str, Class, Option<Sides>); 9] = [
    ("2u.1e", Class::Imperfect, Some((3, 2, &[2, 1, 1]))),
    ("2u.1e", Class::Simple, Some((3, 2, &[2, 1, 1]))),
    ("2u.1e", Class::Perfect, None),
    // a square stands reversed, and the rectangle is higher than wide
    (
        "2a.1a.2ue.1e",
        Class::Simple,
        Some((11, 13, &[4, 7, 4, 1, 6, 5])),
    ),
    ("2u.2eu.1e", Class::Simple, Some((8, 5, &[5, 3, 2, 1, 1]))),
    (
        "2u.2aa.2ue.2eue.1e",
        Class::Perfect,
        Some((33, 32, &[18, 15, 7, 8, 14, 4, 10, 1, 9])),
    ),
    ("2u.2aa.2ue.2eue.1e", Class::Imperfect, None),
    // the square of side 7 stands reversed
    (
        "2a.2ua.3euue.1e.1e",
        Class::Perfect,
        Some((33, 32, &[18, 15, 7, 8, 14, 4, 10, 1, 9])),
    ),
    (
        "2a.2ua.3euue.1e.1e",
        Class::Simple,
        Some((33, 32, &[18, 15, 7, 8, 14, 4, 10, 1, 9])),
    ),
];

fn words() -> &'static [(&'static str, Class, Option<Sides>)] {
    &WORDS
}

#[test]
fn places_candidates(rt: HostRuntime) {
    for (text, class, want) in words() {
        let word = read_word(rt.alloc(), text.as_bytes()).expect(&rt, "it is a word");
        assert!(rt; is_at_leaf(&rt, &word, *class, want), "{text} {class:?}");
    }
}
