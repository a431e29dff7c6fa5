//! Texts for the rows.

use arrayvec::ArrayVec;

/// A text that is built.
pub(crate) type Text = ArrayVec<u8, 1000>;

/// A start, a piece so many times, and an end, as far as there is room.
pub(crate) fn built(start: &str, piece: &str, times: usize, end: &str) -> Text {
    let mut text = ArrayVec::new();
    let _ = text.try_extend_from_slice(start.as_bytes());
    for _ in 0..times {
        let _ = text.try_extend_from_slice(piece.as_bytes());
    }
    let _ = text.try_extend_from_slice(end.as_bytes());
    text
}
