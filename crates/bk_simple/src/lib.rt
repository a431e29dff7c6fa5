//! Tests of a tiling: whether it is perfect, and whether it is simple.
#![tactic(auto)]

ghost use Rattle.std.specs.List.{All};
ghost use Rattle.std.specs.List.Sorted.{IsNonDecreasing, IsPermutation};
ghost use Rattle.std.specs.Prelude.{AllPairs, IfNone, IfSome, IsNone, IsSome, IsTrue, count_by, false, length, nat_le};
ghost use Rattle.std.specs.Prelude.{◌&&◌, ◌+◌, ◌++◌, ◌<◌, ◌^◌, ◌||◌, ◌↔◌, ◌≡◌, ◌≢◌, ◌≤◌, ◌⊎◌};
ghost use Rattle.bk_simple.specs.Border.{IsUncut, is_inside, is_outside, rectangle_of};
ghost use Rattle.bk_simple.specs.Neighbours.{IsFirstTwice, NoneTwice};
ghost use Rattle.bk_simple.specs.Simple.{IsFirstPart, IsLeastRepeated, IsPart, IsPerfect, IsSimple, top_left};
ghost use Rattle.bk_simple.specs.CornerSquares.{IsFirstPartFrom, IsHeldBetween, IsPartAt};
ghost use Rattle.bk_simple.specs.LargeParts.{HasNoLargePart, HasNoneUnder, HasNoneWider};
ghost use Rattle.bk_simple.specs.Reach.{NoneWider};
ghost use Rattle.bk_tiling.specs.Sharing.{EdgesFit};
ghost use Rattle.bk_tiling.specs.Tiling.{IsTiling, Rectangle, order, sides_of, square_of};

mod laws;

use arrayvec::ArrayVec;
use bk_tiling::{MOST_SQUARES, Square, Tiling};
pub use laws::{a_first_part_is_one, a_least_repeated_side_is_one};

/// A rectangle within a tiling. Levels grow downwards.
#[derive(Clone, Copy, PartialEq, Eq)]
pub struct SubRect {
    /// The column of its left edge.
    pub x: u64,
    /// The level of its top.
    pub y: u64,
    /// How many columns it has.
    pub width: u64,
    /// How many levels it has.
    pub height: u64,
}

// Numbers are divided by this, and their remainders marked, to tell most of them apart.
const REMAINDERS: usize = 256;

// The most squares whose sides are put into a room of their own, which is cheap to clear.
const FEW_SQUARES: usize = 20;

/// Whether a tiling is perfect: whether all sides differ (Brooks, Smith, Stone and Tutte 1940).
pub fn is_perfect(tiling: &Tiling) -> bool
    ensures { IsTrue result ↔ IsPerfect tiling.now }
{
    if tiling.order() <= FEW_SQUARES {
        have_different_sides(tiling.squares())
    } else {
        repeated(tiling).is_none()
    }
}

// Whether the sides of a few squares differ.
fn have_different_sides(squares: &[Square]) -> bool
    requires { length squares.now ≤ FEW_SQUARES }
    ensures { IsTrue result ↔ AllPairs (λ p q. p.s ≢ q.s) squares.now }
{
    let mut sides: ArrayVec<u64, FEW_SQUARES> = ArrayVec::new();
    for q in squares {
        sides.push(q.s);
    }
    are_different(sides.as_slice())
}

/// Whether no two of the numbers are equal.
pub fn are_different(numbers: &[u64]) -> bool
    ensures { IsTrue result ↔ AllPairs ◌≢◌ numbers.now }
{
    // A number whose remainder isn't marked is none of those before it, and most are told apart so.
    let mut marked = [false; REMAINDERS];
    for i in 0..numbers.len() {
        let remainder = (numbers[i] % REMAINDERS as u64) as usize;
        if marked[remainder] && numbers[..i].contains(&numbers[i]) {
            return false;
        }
        marked[remainder] = true;
    }
    true
}

/// The least side that at least two squares have. `None` exactly where the tiling is perfect: where all sides differ
/// (Brooks, Smith, Stone and Tutte 1940).
pub fn repeated(tiling: &Tiling) -> Option<u64>
    ensures perfect { IsNone result ↔ IsPerfect tiling.now }
    ensures least { IfSome result (IsLeastRepeated tiling.now) }
{
    let sides = sorted_sides(tiling);
    first_twice(sides.as_slice())
}

// The sides in ascending order.
fn sorted_sides(tiling: &Tiling) -> ArrayVec<u64, MOST_SQUARES>
    ensures same { IsPermutation (sides_of tiling.now) result.items }
    ensures sorted { IsNonDecreasing result.items }
{
    let mut sides = ArrayVec::new();
    let _few = tiling.order();
    push_sides(tiling, &mut sides);
    sides.sort_unstable();
    sides
}

/// Appends the sides of a tiling, in code order. There must be room for them.
pub fn push_sides(tiling: &Tiling, sides: &mut ArrayVec<u64, MOST_SQUARES>)
    requires room { length sides.old.items + order tiling.now ≤ MOST_SQUARES }
    ensures { sides.new.items ≡ sides.old.items ++ sides_of tiling.now }
{
    for q in tiling.squares() {
        sides.push(q.s);
    }
}

/// The first number that is followed by an equal one.
pub fn first_twice(sides: &[u64]) -> Option<u64>
    ensures none { IfNone result (NoneTwice sides.now (length sides.now)) }
    ensures first { IfSome result (IsFirstTwice sides.now) }
{
    for i in 1..sides.len() {
        if sides[i - 1] == sides[i] {
            return Some(sides[i]);
        }
    }
    None
}

/// The first part of a tiling: a rectangle that at least two of the squares tile, and not all of them. First is by the
/// number of the square at its top left corner, then by that of the square at its bottom right corner. `None` exactly
/// where the tiling is simple (Brooks, Smith, Stone and Tutte 1940).
pub fn part(tiling: &Tiling) -> Option<SubRect>
    ensures simple { IsNone result ↔ IsSimple tiling.now }
    ensures first { IfSome result (λ r. IsFirstPart tiling.now (rectangle_of r)) }
{
    for i in 0..tiling.order() {
        if let Some(found) = part_from(tiling, i) {
            return Some(found);
        }
    }
    None
}

/// Whether a tiling is perfect and simple (Brooks, Smith, Stone and Tutte 1940).
pub fn is_perfect_simple(tiling: &Tiling) -> bool
    ensures { IsTrue result ↔ (IsPerfect tiling.now × IsSimple tiling.now) }
{
    is_perfect(tiling) && (has_no_large_part(tiling) || part(tiling).is_none())
}

// Whether it is quickly seen that no part is wider and higher than the square at its top left corner. A perfect tiling
// with a part has one that is.
fn has_no_large_part(tiling: &Tiling) -> bool
    ensures none { IsTrue result → HasNoLargePart tiling.now }
    ensures tiling { IsTiling tiling.now }
{
    for i in 0..tiling.order() {
        if !has_none_past(tiling, i) {
            return false;
        }
    }
    true
}

// Whether it is quickly seen that no part that begins with the square at place i is wider.
fn has_none_past(tiling: &Tiling, i: usize) -> bool
    requires { i < length tiling.now.squares }
    ensures { IsTrue result → HasNoneWider tiling.now i }
{
    let squares = tiling.squares();
    let first = squares[i];
    let mut end = first.x + first.s;
    for last in i + 1..squares.len() {
        let q = squares[last];
        if q.y != first.y || q.x != end {
            return true;
        }
        end += q.s;
        if !has_none_under(tiling, i, last) {
            return false;
        }
    }
    true
}

// Whether it is quickly seen that no part has the squares from place i to place `last` along its top: going down both
// sides, a square reaches across one of them before squares at both end at one level, or they end so only at the end of
// the whole tiling.
fn has_none_under(tiling: &Tiling, i: usize, last: usize) -> bool
    requires places { (i < last) × (last < length tiling.now.squares) }
    requires level { (square_of tiling.now last).y ≡ (square_of tiling.now i).y }
    ensures { IsTrue result → HasNoneUnder tiling.now i last }
{
    let squares = tiling.squares();
    let (first, rightmost) = (squares[i], squares[last]);
    let (left, right) = (first.x, rightmost.x + rightmost.s);
    let (mut left_end, mut right_end) = (first.y + first.s, rightmost.y + rightmost.s);
    if left_end == right_end {
        return false;
    }
    for k in last + 1..squares.len() {
        let q = squares[k];
        if crosses(q.x, q.s, left) || crosses(q.x, q.s, right) {
            return true;
        }
        left_end = end_with(left_end, q, q.x == left);
        right_end = end_with(right_end, q, q.x + q.s == right);
        if left_end == right_end {
            return right - left == tiling.width() && left_end - first.y == tiling.height();
        }
    }
    true
}

// The level where the squares at a side end, with one more square, which stands there or not.
fn end_with(end: u64, q: Square, stands: bool) -> u64
    requires { q.y + q.s < 2 ^ 64 }
    ensures there { IsTrue stands → result ≡ q.y + q.s }
    ensures elsewhere { stands ≡ false → result ≡ end }
{
    if stands { q.y + q.s } else { end }
}

// The first part, by its bottom right square, from the top left corner of the square at place i.
fn part_from(tiling: &Tiling, i: usize) -> Option<SubRect>
    requires { i < length tiling.now.squares }
    ensures none { IfNone result ((r : Rectangle) → IsPart tiling.now r → top_left tiling.now r ≢ i) }
    ensures first { IfSome result (λ r. IsFirstPartFrom tiling.now i (rectangle_of r)) }
{
    let squares = tiling.squares();
    let first = squares[i];
    let end = right_end(tiling, i);
    for j in i + 1..tiling.order() {
        let q = squares[j];
        if crosses(q.x, q.s, first.x) {
            return None;
        }
        if let Some(found) = part_at(tiling, i, j, end) {
            return Some(found);
        }
    }
    None
}

// The column where the squares end that stand side by side from the square at place i on: no rectangle goes past it
// that begins at the top left corner of this square, and whose border cuts no square.
fn right_end(tiling: &Tiling, i: usize) -> u64
    requires { i < length tiling.now.squares }
    ensures { NoneWider tiling.now.squares (square_of tiling.now i) tiling.now.width result }
{
    let squares = tiling.squares();
    let first = squares[i];
    let mut end = first.x + first.s;
    for k in i + 1..tiling.order() {
        let q = squares[k];
        if q.y != first.y || q.x != end {
            return end;
        }
        end += q.s;
    }
    end
}

// Whether the n numbers from a on begin before a number and go on past it.
fn crosses(a: u64, n: u64, over: u64) -> bool
    ensures { IsTrue result ↔ ((a < over) × (over < a + n)) }
{
    a < over && over - a < n
}

// The part from the top left corner of the square at place i to the bottom right corner of the square at place j. None
// from there goes past column `right_end`.
fn part_at(tiling: &Tiling, i: usize, j: usize, right_end: u64) -> Option<SubRect>
    requires first { i < length tiling.now.squares }
    requires last { j < length tiling.now.squares }
    requires right { NoneWider tiling.now.squares (square_of tiling.now i) tiling.now.width right_end }
    ensures none { IfNone result ((r : Rectangle) → ¬ (IsPartAt tiling.now i j r)) }
    ensures part { IfSome result (λ r. IsPartAt tiling.now i j (rectangle_of r)) }
{
    let squares = tiling.squares();
    let tried = between(squares[i], squares[j], right_end)?;
    let inside = count_inside(tiling, i + 1, &tried)?;
    if inside >= 2 && inside < tiling.order() {
        Some(tried)
    } else {
        None
    }
}

// The rectangle from the top left corner of p to the bottom right corner of q, where both lie in it and it doesn't go
// past column `right_end`.
fn between(p: Square, q: Square, right_end: u64) -> Option<SubRect>
    requires p_fits { (p.x + p.s < 2 ^ 64) × (p.y + p.s < 2 ^ 64) }
    requires q_fits { (q.x + q.s < 2 ^ 64) × (q.y + q.s < 2 ^ 64) }
    requires sides { (0 < p.s) × (0 < q.s) }
    ensures none { IfNone result ((r : Rectangle) → ¬ (IsHeldBetween p q right_end r)) }
    ensures some { IfSome result (λ r. IsHeldBetween p q right_end (rectangle_of r)) }
{
    if q.x + q.s > right_end
        || !goes_on((p.x, p.s), (q.x, q.s))
        || !goes_on((p.y, p.s), (q.y, q.s))
    {
        return None;
    }
    Some(SubRect {
        x: p.x,
        y: p.y,
        width: q.x + q.s - p.x,
        height: q.y + q.s - p.y,
    })
}

// Whether a span of numbers, given by its first and how many they are, begins and ends no earlier than another.
fn goes_on(p: (u64, u64), q: (u64, u64)) -> bool
    requires fits { (p.0 + p.1 < 2 ^ 64) × (q.0 + q.1 < 2 ^ 64) }
    ensures { IsTrue result ↔ ((p.0 ≤ q.0) × (p.0 + p.1 ≤ q.0 + q.1)) }
{
    p.0 <= q.0 && p.0 + p.1 <= q.0 + q.1
}

// How many squares lie in the rectangle, where none lies across its border. Those from place `first` on are gone
// through before the others: the first square that lies across the border is mostly one of them.
fn count_inside(tiling: &Tiling, first: usize, r: &SubRect) -> Option<usize>
    requires place { first ≤ length tiling.now.squares }
    requires fits { (r.now.x + r.now.width < 2 ^ 64) × (r.now.y + r.now.height < 2 ^ 64) }
    ensures uncut { IsSome result ↔ IsUncut (rectangle_of r.now) tiling.now.squares }
    ensures count { IfSome result (λ n. n ≡ count_by (is_inside (rectangle_of r.now)) tiling.now.squares) }
{
    let squares = tiling.squares();
    let behind = count_among(&squares[first..], r)?;
    let before = count_among(&squares[..first], r)?;
    Some(before + behind)
}

// How many of these squares lie in the rectangle, where none lies across its border.
fn count_among(squares: &[Square], r: &SubRect) -> Option<usize>
    requires squares { All EdgesFit squares.now }
    requires fits { (r.now.x + r.now.width < 2 ^ 64) × (r.now.y + r.now.height < 2 ^ 64) }
    ensures uncut { IsSome result ↔ IsUncut (rectangle_of r.now) squares.now }
    ensures count { IfSome result (λ n. n ≡ count_by (is_inside (rectangle_of r.now)) squares.now) }
{
    let mut inside = 0;
    for q in squares {
        if lies_inside(r, *q) {
            inside += 1;
        } else if !lies_outside(r, *q) {
            return None;
        }
    }
    Some(inside)
}

// Whether all of the square lies in the rectangle.
fn lies_inside(r: &SubRect, q: Square) -> bool
    requires right { (r.now.x + r.now.width < 2 ^ 64) × (r.now.y + r.now.height < 2 ^ 64) }
    requires fits { (q.x + q.s < 2 ^ 64) × (q.y + q.s < 2 ^ 64) }
    ensures { result ≡ is_inside (rectangle_of r.now) q }
{
    is_among(q.x, q.s, r.x, r.width) && is_among(q.y, q.s, r.y, r.height)
}

// Whether the square has no cell in the rectangle.
fn lies_outside(r: &SubRect, q: Square) -> bool
    requires right { (r.now.x + r.now.width < 2 ^ 64) × (r.now.y + r.now.height < 2 ^ 64) }
    requires fits { (q.x + q.s < 2 ^ 64) × (q.y + q.s < 2 ^ 64) }
    ensures { result ≡ is_outside (rectangle_of r.now) q }
{
    is_apart(q.x, q.s, r.x, r.width) || is_apart(q.y, q.s, r.y, r.height)
}

// Whether the n numbers from a on are among the m numbers from b on.
fn is_among(a: u64, n: u64, b: u64, m: u64) -> bool
    requires fits { (a + n < 2 ^ 64) × (b + m < 2 ^ 64) }
    ensures { result ≡ (nat_le b a && nat_le (a + n) (b + m)) }
{
    b <= a && a + n <= b + m
}

// Whether the n numbers from a on end before the m numbers from b on, or begin behind them.
fn is_apart(a: u64, n: u64, b: u64, m: u64) -> bool
    requires fits { (a + n < 2 ^ 64) × (b + m < 2 ^ 64) }
    ensures { result ≡ (nat_le (a + n) b || nat_le (b + m) a) }
{
    a + n <= b || b + m <= a
}
