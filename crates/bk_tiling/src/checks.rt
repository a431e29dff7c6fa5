//! The tests that squares pass before they make a tiling, each with the first place where it fails.
#![tactic(auto)]

ghost use Rattle.std.specs.Prelude.{All, IfNone, IfSome, IsTrue, count_by, find, length, nat_le, nat_lt};
ghost use Rattle.std.specs.Prelude.{slice_index_or, ℕ, ◌&&◌, ◌*◌};
ghost use Rattle.std.specs.Prelude.{◌+◌, ◌<◌, ◌^◌, ◌↔◌, ◌≡◌, ◌≤◌};
ghost use Rattle.bk_tiling.specs.Area.{area_of};
ghost use Rattle.bk_tiling.specs.KeptTiling.{IsSide};
ghost use Rattle.bk_tiling.specs.Refusal.{AreWithin, HaveSides, IsAccepted, IsFirstOverlap, IsFirstPlace};
ghost use Rattle.bk_tiling.specs.Refusal.{IsFirstUncovered, IsRefusal};
ghost use Rattle.bk_tiling.specs.Refusal.{ShareNoCell, SharesCell, sized};
ghost use Rattle.bk_tiling.specs.Sharing.{EdgesFit, IsFirstSharing, SharesWithNoneBefore};
ghost use Rattle.bk_tiling.specs.Row.{IsRowAt};
ghost use Rattle.bk_tiling.specs.Tiling.{IsWithin, covers};

use crate::{LONGEST_SIDE, MOST_SQUARES, NotTiling, Square};

// Why squares do not make a tiling of the rectangle: the first test that they fail, and where. None where they make
// one.
pub(crate) fn refusal_of(width: u64, height: u64, squares: &[Square]) -> Option<NotTiling>
    ensures none { IfNone result (IsAccepted width height squares.now) }
    ensures some { IfSome result (IsRefusal width height squares.now) }
{
    if squares.len() > MOST_SQUARES {
        return Some(NotTiling::Many { n: squares.len() });
    }
    if width == 0 || height == 0 {
        return Some(NotTiling::Empty);
    }
    if let Some(i) = first_side(squares) {
        return Some(NotTiling::Side { i });
    }
    if let Some(i) = first_outside(width, height, squares) {
        return Some(NotTiling::Outside { i });
    }
    if let Some((i, j)) = first_overlap(squares) {
        return Some(NotTiling::Overlap { i, j });
    }
    if let Some((x, y)) = first_uncovered(width, height, squares) {
        return Some(NotTiling::Uncovered { x, y });
    }
    None
}

// The first place of a side that is 0 or too long.
fn first_side(squares: &[Square]) -> Option<usize>
    ensures none { IfNone result (HaveSides squares.now) }
    ensures some { IfSome result (IsFirstPlace (λ q. ¬ (IsSide q.s)) squares.now) }
{
    squares.iter().position(|q| !is_side(q.s))
}

// Whether a square may have such a side.
fn is_side(side: u64) -> bool
    ensures { IsTrue result ↔ IsSide side }
{
    0 < side && side <= LONGEST_SIDE
}

// The first place of a square that reaches out of the rectangle.
fn first_outside(width: u64, height: u64, squares: &[Square]) -> Option<usize>
    ensures none { IfNone result (AreWithin width height squares.now) }
    ensures some { IfSome result (IsFirstPlace (λ q. ¬ (IsWithin (sized width height) q)) squares.now) }
{
    squares.iter().position(|q| reaches_past(q.x, q.s, width) || reaches_past(q.y, q.s, height))
}

// Whether s numbers from a on go past the end.
fn reaches_past(a: u64, s: u64, end: u64) -> bool
    ensures { IsTrue result ↔ (end < a + s) }
{
    a > end || s > end - a
}

// The first pair of places, by the earlier and then by the later, whose squares share a cell.
fn first_overlap(squares: &[Square]) -> Option<(usize, usize)>
    requires { All EdgesFit squares.now }
    ensures none { IfNone result (ShareNoCell squares.now) }
    ensures some { IfSome result (λ found. IsFirstOverlap squares.now found.0 found.1) }
{
    for i in 0..squares.len() {
        if let Some(j) = first_sharing(squares, i) {
            return Some((i, j));
        }
    }
    None
}

// The first square after the place i that shares a cell with the square at i.
fn first_sharing(squares: &[Square], i: usize) -> Option<usize>
    requires place { i < length squares.now }
    requires fit { All EdgesFit squares.now }
    ensures none { IfNone result (SharesWithNoneBefore squares.now i (length squares.now)) }
    ensures some { IfSome result (IsFirstSharing squares.now i) }
{
    for j in i + 1..squares.len() {
        if share_cell(squares[i], squares[j]) {
            return Some(j);
        }
    }
    None
}

// Whether two squares share a cell.
#[tactic(auto, using(crate::proofs::Refusing::shares_from, crate::proofs::Refusing::cross_from))]
fn share_cell(p: Square, q: Square) -> bool
    requires p_fits { EdgesFit p }
    requires q_fits { EdgesFit q }
    ensures { IsTrue result ↔ SharesCell p q }
{
    spans_meet(p.y, p.s, q.y, q.s) && spans_meet(p.x, p.s, q.x, q.s)
}

// Whether s numbers from a on and t numbers from b on, of which there are some, have one in common.
fn spans_meet(a: u64, s: u64, b: u64, t: u64) -> bool
    requires fit { (a + s < 2 ^ 64) × (b + t < 2 ^ 64) }
    ensures { IsTrue result ↔ ((a < b + t) × (b < a + s)) }
{
    a < b + t && b < a + s
}

// The squares over one level of the rectangle.
enum Row {
    // They cover the level, and all levels from it to this one.
    Covered { until: u64 },
    // They leave this column free, and none before it.
    Free { x: u64 },
}

// The first cell of the rectangle, by level and then by column, that lies in no square. Squares that share no cell and
// have as many as the rectangle leave none free.
fn first_uncovered(width: u64, height: u64, squares: &[Square]) -> Option<(u64, u64)>
    requires wide { 0 < width }
    requires few { length squares.now ≤ MOST_SQUARES }
    requires within { AreWithin width height squares.now }
    requires sides { HaveSides squares.now }
    requires apart { ShareNoCell squares.now }
    ensures none { IfNone result ((i j : ℕ) → i < width → j < height → 0 < count_by (covers i j) squares.now) }
    ensures some { IfSome result (λ cell. IsFirstUncovered width height squares.now cell.0 cell.1) }
{
    if area_of(squares) == u128::from(width) * u128::from(height) {
        None
    } else {
        first_free(width, height, squares)
    }
}

// The area of the squares.
fn area_of(squares: &[Square]) -> u128
    requires few { length squares.now ≤ MOST_SQUARES }
    requires sides { HaveSides squares.now }
    ensures { result ≡ area_of squares.now }
{
    let mut area = 0;
    'squares: for q in squares {
        area += u128::from(q.s) * u128::from(q.s);
    }
    area
}

// The first cell of the rectangle that lies in no square, found level by level.
fn first_free(width: u64, height: u64, squares: &[Square]) -> Option<(u64, u64)>
    requires wide { 0 < width }
    requires within { AreWithin width height squares.now }
    ensures none { IfNone result ((i j : ℕ) → i < width → j < height → 0 < count_by (covers i j) squares.now) }
    ensures some { IfSome result (λ cell. IsFirstUncovered width height squares.now cell.0 cell.1) }
{
    let mut y = 0;
    'levels: while y < height {
        match row_at(width, height, squares, y) {
            Row::Covered { until } => y = until,
            Row::Free { x } => return Some((x, y)),
        }
    }
    None
}

// The row of the rectangle at level y.
fn row_at(width: u64, height: u64, squares: &[Square], y: u64) -> Row
    requires wide { 0 < width }
    requires high { y < height }
    requires within { AreWithin width height squares.now }
    ensures { IsRowAt width squares.now y result }
{
    let mut x = 0;
    let mut until = height;
    'columns: while x < width {
        match square_over(squares, x, y) {
            Some(q) => {
                x = q.x + q.s;
                until = until.min(q.y + q.s);
            }
            None => return Row::Free { x },
        }
    }
    Row::Covered { until }
}

// The first square over the cell in column x at level y.
fn square_over(squares: &[Square], x: u64, y: u64) -> Option<Square>
    ensures { result ≡ find (covers x y) squares.now }
{
    squares
        .iter()
        .copied()
        .find(|q| spans(q.x, q.s, x) && spans(q.y, q.s, y))
}

// Whether i is one of s numbers from a on.
fn spans(a: u64, s: u64, i: u64) -> bool
    ensures { result ≡ (nat_le a i && nat_lt i (a + s)) }
{
    a <= i && i - a < s
}
