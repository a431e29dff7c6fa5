//! The turns and mirrors of a tiling, and its canonical tiling.
#![tactic(auto)]

ghost use Rattle.std.specs.Prelude.{IfSome, IsTrue, false, ◌+◌, ◌<◌, ◌↔◌, ◌≡◌, ◌≤◌, ◌⊎◌};
ghost use Rattle.bk_code.specs.Code.{code_cmp, code_of};
ghost use Rattle.bk_frac.specs.Divisor.{gcd as common_divisor, gcd_of};
ghost use Rattle.bk_sym.specs.Canonical.{BeginsWith, IsAtCorner, IsAtMost, IsCanonical, IsCanonicalOf, IsGreatestImage};
ghost use Rattle.bk_sym.specs.Canonical.{IsGreatestOf, Lies, scaled_down_tiling};
ghost use Rattle.bk_sym.specs.Image.{image, image_size, image_square};
ghost use Rattle.bk_tiling.specs.KeptTiling.{IsKept};
ghost use Rattle.bk_tiling.specs.Scale.{IsPrimitiveTiling, enlarged};
ghost use Rattle.bk_tiling.specs.Tiling.{sides_of};

mod laws;

use arrayvec::ArrayVec;
use bk_frac::gcd;
use bk_tiling::{Square, Tiling, put_in_order};
pub use laws::{
    a_canonical_tiling_is_its_own, a_canonical_tiling_is_one, alike_tilings_have_one_canonical,
    every_tiling_has_a_canonical, images_are_tilings, images_are_undone, images_of_images,
    one_canonical_means_alike,
};
use std::cmp::Ordering;

/// A turn or a mirror of a rectangle.
#[derive(Clone, Copy, PartialEq, Eq, Drop)]
pub enum Turn {
    /// As it is.
    Same,
    /// Left and right exchanged.
    FlipX,
    /// Top and bottom exchanged.
    FlipY,
    /// Turned by a half turn.
    Half,
    /// Columns and levels exchanged.
    Swap,
    /// Columns and levels exchanged, and then left and right.
    SwapFlipX,
    /// Columns and levels exchanged, and then top and bottom.
    SwapFlipY,
    /// Columns and levels exchanged, and then turned by a half turn.
    SwapHalf,
}

impl Turn {
    /// All turns: first the one that leaves a tiling as it is, then the others that exchange no columns and levels.
    pub const ALL: [Turn; 8] = [
        Turn::Same,
        Turn::FlipX,
        Turn::FlipY,
        Turn::Half,
        Turn::Swap,
        Turn::SwapFlipX,
        Turn::SwapFlipY,
        Turn::SwapHalf,
    ];
}

/// The image of a tiling by a turn: its squares turned or mirrored with the rectangle.
pub fn image(tiling: &Tiling, which: Turn) -> Tiling
    ensures value { result ≡ image which tiling.now }
    ensures kept { IsKept result }
{
    let (width, height) = (tiling.width(), tiling.height());
    let mut squares = ArrayVec::new();
    for q in tiling.squares() {
        squares.push(image_square(*q, which, width, height));
    }
    put_in_order(&mut squares);
    let (width, height) = turned_size(which, width, height);
    Tiling::from_known(width, height, squares)
}

/// Where a square of a rectangle of this size stands in the image. Where the square ends outside the rectangle, the
/// place from the far side is 0.
pub fn image_square(q: Square, turn: Turn, width: u64, height: u64) -> Square
    ensures { result ≡ image_square turn width height q }
{
    let right = width.saturating_sub(q.x).saturating_sub(q.s);
    let bottom = height.saturating_sub(q.y).saturating_sub(q.s);
    let (x, y) = match turn {
        Turn::Same => (q.x, q.y),
        Turn::FlipX => (right, q.y),
        Turn::FlipY => (q.x, bottom),
        Turn::Half => (right, bottom),
        Turn::Swap => (q.y, q.x),
        Turn::SwapFlipX => (bottom, q.x),
        Turn::SwapFlipY => (q.y, right),
        Turn::SwapHalf => (bottom, right),
    };
    Square { x, y, s: q.s }
}

// The width and the height of the image of a rectangle of this size.
fn turned_size(turn: Turn, width: u64, height: u64) -> (u64, u64)
    ensures { result ≡ image_size turn width height }
{
    match turn {
        Turn::Same | Turn::FlipX | Turn::FlipY | Turn::Half => (width, height),
        Turn::Swap | Turn::SwapFlipX | Turn::SwapFlipY | Turn::SwapHalf => (height, width),
    }
}

/// The tiling in lowest terms: all places and sides divided by the greatest common divisor of the sides. The division
/// is exact, and only 1 divides all sides of what it gives.
pub fn scale_down(tiling: &Tiling) -> Tiling
    ensures value { result ≡ scaled_down_tiling tiling.now }
    ensures exact { tiling.now ≡ enlarged (gcd_of (sides_of tiling.now)) result }
    ensures primitive { IsPrimitiveTiling result }
    ensures kept { IsKept result }
{
    let divisor = side_divisor(tiling);
    let mut squares = ArrayVec::new();
    for q in tiling.squares() {
        squares.push(Square {
            x: q.x / divisor,
            y: q.y / divisor,
            s: q.s / divisor,
        });
    }
    Tiling::from_known(tiling.width() / divisor, tiling.height() / divisor, squares)
}

// The greatest common divisor of the sides.
fn side_divisor(tiling: &Tiling) -> u64
    ensures value { result ≡ gcd_of (sides_of tiling.now) }
    ensures some { 0 < result }
    ensures kept { IsKept tiling.now }
{
    let squares = tiling.squares();
    let mut divisor = 0;
    for i in (0..squares.len()).rev() {
        divisor = common(squares[i].s, divisor);
        if divisor == 1 {
            return 1;
        }
    }
    divisor
}

// The greatest common divisor of two numbers.
fn common(a: u64, b: u64) -> u64
    ensures { result ≡ common_divisor a b }
{
    gcd(u128::from(a), u128::from(b)) as u64
}

/// The canonical tiling: of the images in lowest terms that are at least as wide as high, the one whose flat list of
/// sides is lexicographically greatest. This choice is our own; all images and all multiples of a tiling have the same.
pub fn canonical(tiling: &Tiling) -> Tiling
    ensures canonical { IsCanonicalOf tiling.now result }
    ensures kept { IsKept result }
{
    if side_divisor(tiling) == 1 {
        greatest_image(tiling)
    } else {
        canonical_of_multiple(tiling)
    }
}

// The canonical tiling of one that is brought into lowest terms first.
#[inline(never)]
fn canonical_of_multiple(tiling: &Tiling) -> Tiling
    ensures canonical { IsCanonicalOf tiling.now result }
    ensures kept { IsKept result }
{
    greatest_image(&scale_down(tiling))
}

// Of the images that are at least as wide as high the one with the greatest flat list of sides.
fn greatest_image(tiling: &Tiling) -> Tiling
    ensures greatest { IsGreatestOf tiling.now result }
    ensures kept { IsKept result }
{
    let first = first_turn(tiling);
    let mut greatest = image(tiling, first);
    for turn in Turn::ALL {
        if turn != first && may_be_greater(tiling, turn, &greatest) {
            become_later(&mut greatest, tiling, turn);
        }
    }
    greatest
}

// Becomes that image of another tiling, where its flat list of sides is greater. It is hardly ever needed, and its room
// only here.
#[inline(never)]
fn become_later(greatest: &mut Tiling, tiling: &Tiling, turn: Turn)
    ensures one { (greatest.new ≡ greatest.old) ⊎ (greatest.new ≡ image turn tiling.now) }
    ensures first { IsAtMost greatest.old greatest.new }
    ensures second { IsAtMost (image turn tiling.now) greatest.new }
{
    let other = image(tiling, turn);
    if !is_at_most(&other, greatest) {
        *greatest = other;
    }
}

// Whether that image lies, and begins with no shorter square than the other tiling.
fn may_be_greater(tiling: &Tiling, turn: Turn, other: &Tiling) -> bool
    ensures lying { IsTrue result → Lies (image turn tiling.now) }
    ensures left { result ≡ false → Lies (image turn tiling.now) → IsAtMost (image turn tiling.now) other.now }
{
    lies(tiling, turn) && !begins_shorter(tiling, turn, other)
}

// A turn whose image lies: of these one that brings the longest square to the top left corner, so that hardly another
// image has to be made to compare it.
fn first_turn(tiling: &Tiling) -> Turn
    ensures lying { Lies (image result tiling.now) }
    ensures kept { IsKept tiling.now }
{
    let mut first = first_lying(tiling);
    let mut longest = 0;
    for turn in Turn::ALL {
        if let Some(side) = first_side(tiling, turn) {
            if side > longest && lies(tiling, turn) {
                longest = side;
                first = turn;
            }
        }
    }
    first
}

// The side of the square that comes to the top left corner in that image.
fn first_side(tiling: &Tiling, turn: Turn) -> Option<u64>
    ensures { IfSome result (BeginsWith (image turn tiling.now)) }
{
    let (width, height) = (tiling.width(), tiling.height());
    for q in tiling.squares() {
        if comes_first(*q, turn, width, height) {
            return Some(q.s);
        }
    }
    None
}

// Whether the square that comes to the top left corner in that image is shorter than the first square of the other
// tiling.
fn begins_shorter(tiling: &Tiling, turn: Turn, other: &Tiling) -> bool
    ensures { IsTrue result → IsAtMost (image turn tiling.now) other.now }
{
    let first = other.squares()[0].s;
    let (width, height) = (tiling.width(), tiling.height());
    for q in tiling.squares() {
        if q.s < first && comes_first(*q, turn, width, height) {
            return true;
        }
    }
    false
}

// Whether a square of a rectangle of this size comes to the top left corner in the image.
fn comes_first(q: Square, turn: Turn, width: u64, height: u64) -> bool
    ensures { IsTrue result → IsAtCorner (image_square turn width height q) }
{
    let turned = image_square(q, turn, width, height);
    turned.x == 0 && turned.y == 0
}

/// Whether a tiling is its own canonical tiling.
pub fn is_canonical(tiling: &Tiling) -> bool
    ensures { IsTrue result ↔ IsCanonical tiling.now }
{
    if tiling.height() > tiling.width() {
        return false;
    }
    if side_divisor(tiling) > 1 {
        return false;
    }
    is_greatest(tiling)
}

// Whether no image that lies has a greater flat list of sides.
fn is_greatest(tiling: &Tiling) -> bool
    requires { IsKept tiling.now }
    ensures { IsTrue result ↔ IsGreatestImage tiling.now tiling.now }
{
    for turn in &Turn::ALL[1..] {
        if lies(tiling, *turn) && !is_image_at_most(tiling, *turn) {
            return false;
        }
    }
    true
}

// Whether the flat list of sides of that image is lexicographically at most the tiling's own.
fn is_image_at_most(tiling: &Tiling, turn: Turn) -> bool
    ensures { IsTrue result ↔ IsAtMost (image turn tiling.now) tiling.now }
{
    begins_shorter(tiling, turn, tiling) || is_made_image_at_most(tiling, turn)
}

// Whether the flat list of sides of that image is at most the tiling's own, by the image itself. It is hardly ever
// needed, and its room only here.
#[inline(never)]
fn is_made_image_at_most(tiling: &Tiling, turn: Turn) -> bool
    ensures { IsTrue result ↔ IsAtMost (image turn tiling.now) tiling.now }
{
    is_at_most(&image(tiling, turn), tiling)
}

// A turn whose image lies.
fn first_lying(tiling: &Tiling) -> Turn
    ensures lying { Lies (image result tiling.now) }
    ensures kept { IsKept tiling.now }
{
    if tiling.height() <= tiling.width() {
        Turn::Same
    } else {
        Turn::Swap
    }
}

// Whether that image is at least as wide as high.
fn lies(tiling: &Tiling, turn: Turn) -> bool
    ensures { IsTrue result ↔ Lies (image turn tiling.now) }
{
    let (width, height) = turned_size(turn, tiling.width(), tiling.height());
    height <= width
}

// Whether the flat list of sides of one tiling is lexicographically at most that of another.
fn is_at_most(a: &Tiling, b: &Tiling) -> bool
    ensures { IsTrue result ↔ IsAtMost a.now b.now }
{
    compare(a, b).is_le()
}

// How the flat lists of sides of two tilings compare.
fn compare(a: &Tiling, b: &Tiling) -> Ordering
    ensures { result ≡ code_cmp (code_of a.now) (code_of b.now) }
{
    a.squares()
        .iter()
        .map(|q| q.s)
        .cmp(b.squares().iter().map(|q| q.s))
}
