//! How many words a search meets.

use bk_free_search::{Board, Leaves, search};
use bk_word::LARGEST_LISTED_ORDER;
use std::process::Abort;

// How many words are met.
#[derive(Drop)]
struct Met {
    words: usize,
}

impl Leaves for Met {
    ghost has_met = { λ _ _. Unit {0} };

    ghost Fixed = { Unit {0} };

    ghost fixed = { λ _. tt };

    fn meet(&mut self, _board: &Board) {
        self.words = self.words.saturating_add(1);
    }
}

// How many words of an order are met.
fn words_met(rt: &impl Abort, order: u8) -> usize {
    assert!(rt; order >= 3 && usize::from(order) <= LARGEST_LISTED_ORDER);
    let mut met = Met { words: 0 };
    search(&mut met, order);
    met.words
}

// Orders, and how many words are met. These numbers are measured, not derived; a change of a cut may change them.
fn rows_of_orders() -> &'static [(u8, usize)] {
    &[
        (3, 0),
        (4, 0),
        (5, 1),
        (6, 0),
        (7, 1),
        (8, 2),
        (9, 7),
        (10, 17),
        (11, 63),
        (12, 160),
        (13, 607),
    ]
}

#[test]
fn words_of_one_image_are_met(rt: HostRuntime) {
    for (order, words) in rows_of_orders() {
        assert_eq!(rt; words_met(&rt, *order), *words, "order {order}");
    }
}
