//! Placed squares, turned before they are tried as a tiling.

ghost use Rattle.std.specs.Prelude.{cond, map, ℕ, ◌≡◌, ◌≤◌};
ghost use Rattle.bk_sym.specs.Image.{image_size, image_square};
ghost use Rattle.bk_sym.specs.declared.Turn.{Turn as Turned};

use crate::placing::Placed;
use arrayvec::ArrayVec;
use bk_sym::{Turn, image_square};
use bk_tiling::Square;
use bk_word::INLINE_ORDER;

/// A turn by which the rectangle lies. No contract says which: it brings the longest square in the corners to the top
/// left one, so that hardly another image has to be made to compare it.
pub fn best_turn(placed: &Placed) -> Turn
    ensures { (image_size result placed.now.width placed.now.height).1 ≤
        (image_size result placed.now.width placed.now.height).0 }
{
    let (right, bottom) = longest_corner(placed);
    turn_from(placed.width < placed.height, right, bottom)
}

// The turn that exchanges columns and levels or doesn't, and brings a square at the right or at the left, at the bottom
// or at the top, to the top left corner.
fn turn_from(swaps: bool, right: bool, bottom: bool) -> Turn
    ensures { (w h : ℕ) → image_size result w h ≡ cond swaps (h, w) (w, h) }
{
    match (swaps, right, bottom) {
        (false, false, false) => Turn::Same,
        (false, false, true) => Turn::FlipY,
        (false, true, false) => Turn::FlipX,
        (false, true, true) => Turn::Half,
        (true, false, false) => Turn::Swap,
        (true, false, true) => Turn::SwapFlipX,
        (true, true, false) => Turn::SwapFlipY,
        (true, true, true) => Turn::SwapHalf,
    }
}

// Whether the longest square in the corners stands at the right, and whether at the bottom.
fn longest_corner(placed: &Placed) -> (bool, bool) {
    let mut longest = 0;
    let mut corner = (false, false);
    'squares: for q in placed.squares.as_slice() {
        if q.s > longest {
            if let Some(found) = corner_of(q, placed.width, placed.height) {
                longest = q.s;
                corner = found;
            }
        }
    }
    corner
}

// Whether a square in a corner of a rectangle stands at the right, and whether at the bottom. Only of few squares it is
// asked.
#[inline(never)]
fn corner_of(q: &Square, width: u64, height: u64) -> Option<(bool, bool)> {
    let (right, bottom) = (ends_at(q.x, q.s, width), ends_at(q.y, q.s, height));
    if (q.x == 0 || right) && (q.y == 0 || bottom) {
        Some((right, bottom))
    } else {
        None
    }
}

// Whether a side that begins at a place ends at this one.
fn ends_at(place: u64, side: u64, end: u64) -> bool {
    side <= end && place == end - side
}

/// The size of a rectangle by each turn by which it lies: columns and levels.
pub fn lying_size(width: u64, height: u64) -> (u64, u64)
    ensures { (turn : Turned) → (image_size turn width height).1 ≤ (image_size turn width height).0
        → result ≡ image_size turn width height }
{
    if width < height {
        (height, width)
    } else {
        (width, height)
    }
}

/// The squares, turned with the rectangle, in the order in which they were placed.
pub fn turned_squares(placed: &Placed, which: Turn) -> ArrayVec<Square, INLINE_ORDER>
    ensures { result.items ≡ map (image_square which placed.now.width placed.now.height) placed.now.squares.items }
{
    let (width, height) = (placed.width, placed.height);
    let mut squares = ArrayVec::new();
    'squares: for q in placed.squares.as_slice() {
        squares.push(image_square(*q, which, width, height));
    }
    squares
}
