//! Drawings of tilings in characters.
#![tactic(auto)]

ghost use Rattle.std.specs.Prelude.{[], length, slice_index, ℕ, ◌&&◌, ◌+◌, ◌++◌, ◌<◌, ◌==◌, ◌^◌, ◌||◌, ◌≡◌, ◌≤◌, ◌∷◌};
ghost use Rattle.bk_draw.specs.Drawing.{character, drawing_row, is_across, is_along};
ghost use Rattle.bk_draw.specs.Mark.{IsDrawnBetween, IsDrawnOver, mark_of, seen};
ghost use Rattle.bk_draw.specs.declared.TheConstants.{LARGEST_DRAWN, LONGEST_ROW};
ghost use Rattle.bk_tiling.specs.Point.{is_at_edge, is_at_side};

mod laws;

use arrayvec::ArrayVec;
use bk_tiling::{Square, Tiling};
pub use laws::no_row_ends_with_a_space;

/// No rectangle that is wider or higher is drawn.
pub const LARGEST_DRAWN: u64 = 400;

/// No row of a drawing has more characters, with its line feed.
pub const LONGEST_ROW: usize = LARGEST_DRAWN as usize + 2;

/// Leaves in `row` one row of the drawing of a tiling, whose width is at most `LARGEST_DRAWN`: a character for each
/// point of the grid at level `y`, from left to right, and a line feed. A point is `+` at a corner of a square, else `-`
/// on an upper or lower side, else `|` on a left or right side, else a space. This drawing is our own.
pub fn draw_row(tiling: &Tiling, y: u64, row: &mut ArrayVec<u8, LONGEST_ROW>)
    requires width { tiling.now.width ≤ LARGEST_DRAWN }
    ensures { row.new.items ≡ drawing_row tiling.now y ++ 10 ∷ [] }
{
    leave_blank(row, tiling.width() as usize + 1);
    draw_squares(row.as_mut_slice(), tiling, y);
    row.push(b'\n');
}

// Leaves n spaces in the row.
fn leave_blank(row: &mut ArrayVec<u8, LONGEST_ROW>, n: usize)
    requires { n ≤ LONGEST_ROW }
    ensures length { length row.new.items ≡ n }
    ensures blank { (x : ℕ) → x < n → slice_index row.new.items x ≡ 32 }
{
    row.clear();
    for _ in 0..n {
        row.push(b' ');
    }
}

// Draws the squares over the points of a blank row at level y.
fn draw_squares(points: &mut [u8], tiling: &Tiling, y: u64)
    requires width { length points.old ≡ tiling.now.width + 1 }
    requires blank { (x : ℕ) → x < length points.old → slice_index points.old x ≡ 32 }
    ensures { (x : ℕ) → x < length points.old → slice_index points.new x ≡ character tiling.now x y }
{
    for q in tiling.squares() {
        draw_square(points, *q, y);
    }
}

// Draws the sides of a square that a row at level y meets.
fn draw_square(points: &mut [u8], q: Square, y: u64)
    requires within { q.x + q.s < length points.old }
    requires fits { q.y + q.s < 2 ^ 64 }
    ensures { IsDrawnOver q y points.old points.new }
{
    let left = q.x as usize;
    let right = (q.x + q.s) as usize;
    if is_at_edge(q, y) {
        draw_points(points, q, y, left, right + 1);
    } else if is_along(q, y) {
        draw_points(points, q, y, left, left + 1);
        draw_points(points, q, y, right, right + 1);
    }
}

// Draws the points of a square in the columns from one on to before another.
fn draw_points(points: &mut [u8], q: Square, y: u64, from: usize, to: usize)
    requires order { from ≤ to }
    requires within { to ≤ length points.old }
    requires right { q.x + q.s < 2 ^ 64 }
    requires bottom { q.y + q.s < 2 ^ 64 }
    ensures { IsDrawnBetween (λ x. mark_of q x y) from to points.old points.new }
{
    for x in from..to {
        points[x] = seen(points[x], mark_of(q, x as u64, y));
    }
}

// What is seen where one character is drawn over another.
fn seen(under: u8, over: u8) -> u8
    ensures { result ≡ seen under over }
{
    if under == b'+' || over == b'+' {
        b'+'
    } else if under == b'-' || over == b'-' {
        b'-'
    } else if under == b'|' || over == b'|' {
        b'|'
    } else {
        under
    }
}

// The character that a square draws at a point.
fn mark_of(q: Square, x: u64, y: u64) -> u8
    requires right { q.x + q.s < 2 ^ 64 }
    requires bottom { q.y + q.s < 2 ^ 64 }
    ensures { result ≡ mark_of q x y }
{
    if is_at_side(q, x) && is_at_edge(q, y) {
        b'+'
    } else if is_across(q, x) && is_at_edge(q, y) {
        b'-'
    } else if is_at_side(q, x) && is_along(q, y) {
        b'|'
    } else {
        b' '
    }
}

// Whether the column is that of the square's left or right side.
fn is_at_side(q: Square, x: u64) -> bool
    requires { q.x + q.s < 2 ^ 64 }
    ensures { result ≡ is_at_side q x }
{
    x == q.x || x == q.x + q.s
}

// Whether the level is that of the square's upper or lower side.
fn is_at_edge(q: Square, y: u64) -> bool
    requires { q.y + q.s < 2 ^ 64 }
    ensures { result ≡ is_at_edge q y }
{
    y == q.y || y == q.y + q.s
}

// Whether the column is one of those from the square's left side to its right side.
fn is_across(q: Square, x: u64) -> bool
    requires { q.x + q.s < 2 ^ 64 }
    ensures { result ≡ is_across q x }
{
    q.x <= x && x <= q.x + q.s
}

// Whether the level is one of those from the square's upper side to its lower side.
fn is_along(q: Square, y: u64) -> bool
    requires { q.y + q.s < 2 ^ 64 }
    ensures { result ≡ is_along q y }
{
    q.y <= y && y <= q.y + q.s
}
