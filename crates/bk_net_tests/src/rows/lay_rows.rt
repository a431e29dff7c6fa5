//! Rows of `bk_lay`.

use super::tilings::*;
use arrayvec::ArrayVec;
use bk_lay::*;
use bk_tiling::{Square, Tiling};
use bk_word::{Word, write_word};
use std::alloc::Global;
use std::process::Abort;

// Whether a word is written so.
fn is_written(word: &Word, text: &str) -> bool {
    if word.moves() == 0 {
        return false;
    }
    let mut out = ArrayVec::new();
    write_word(word, &mut out);
    out.as_slice() == text.as_bytes()
}

// Whether the word of a tiling is written so.
fn has_word(alloc: Global, tiling: &Tiling, text: &str) -> bool {
    match word_of(alloc, tiling) {
        Ok(word) => is_written(&word, text),
        Err(_) => false,
    }
}

// Codes, and the texts of the words of their tilings.
static WORDS: [(&'static str, &'static str); 7] = [
    ("[1]", "1"),
    ("[2,1][1]", "2u.1e"),
    (FOUR_SQUARES, "2e.2e"),
    ("[5,3][2,1][1]", "2u.2eu.1e"),
    (NINE_SQUARES, "2u.2aa.2ue.2eue.1e"),
    ("[36,33][5,28][25,9,2][7][16]", "2u.2aa.3uue.1ea.1ee"),
    ("[25,17,23][11,6][5,24][22,3][19]", "3ua.2aue.2ue.2ea.1ee"),
];

fn codes_and_words() -> &'static [(&'static str, &'static str)] {
    &WORDS
}

#[test]
fn words(rt: HostRuntime) {
    for (code, text) in codes_and_words() {
        let tiling = tiling(&rt, code);
        assert!(rt; has_word(rt.alloc(), &tiling, text), "{text}");
    }
}

// A column of 200 squares of side 1.
fn column(rt: &impl Abort) -> Tiling {
    let mut squares = [Square { x: 0, y: 0, s: 1 }; 200];
    for (y, q) in squares.iter_mut().enumerate() {
        q.y = y as u64;
    }
    match Tiling::try_new(1, 200, &squares) {
        Ok(tiling) => tiling,
        Err(_) => panic!(rt; "they tile it"),
    }
}

// Whether each move of a word is of one square without a sign.
fn is_single(word: &Word) -> bool {
    for i in 0..word.moves() {
        let played = word.get(i);
        if played.count != 1 || played.signs.len() != 0 {
            return false;
        }
    }
    true
}

// Whether the word of a tiling has 200 moves of one square.
fn is_column(alloc: Global, tiling: &Tiling) -> bool {
    match word_of(alloc, tiling) {
        Ok(word) => word.moves() == 200 && word.order() == 200 && is_single(&word),
        Err(_) => false,
    }
}

// A column of 200 squares has a word of 200 moves, past what is kept without memory.
#[test]
fn a_column(rt: HostRuntime) {
    let column = column(&rt);
    assert!(rt; is_column(rt.alloc(), &column));
}
