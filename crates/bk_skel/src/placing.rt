//! Squares placed along the moves of a complete word, from their sides.

ghost use Rattle.std.specs.List.{AllByRecursion};
ghost use Rattle.std.specs.Prelude.{IfSome, IsSomeAnd, IsTrue, drop, false, length, map, take, true, ℕ, ◌+◌, ◌++◌, ◌<◌};
ghost use Rattle.std.specs.Prelude.{◌^◌, ◌↔◌, ◌≡◌};
ghost use Rattle.bk_tiling.specs.CodeOrder.{in_code_order};
ghost use Rattle.bk_tiling.specs.Column.{depth};
ghost use Rattle.bk_tiling.specs.KeptTiling.{IsSide};
ghost use Rattle.bk_tiling.specs.SquareGroups.{laid_group};
ghost use Rattle.bk_tiling.specs.Tiling.{Tiling as Tiled};
ghost use Rattle.bk_tiling.specs.declared.Segment.{Segment as Gap};
ghost use Rattle.bk_word.specs.Outline.{Outline};
ghost use Rattle.bk_word.specs.Play.{IsComplete, numbers_from};
ghost use Rattle.bk_word.specs.Word.{order_of};
ghost use Rattle.bk_lay.specs.TilingWord.{signs_between};
ghost use Rattle.bk_word_net.specs.LaidTiling.{IsLaidWith};
ghost use Rattle.bk_skel.specs.RealisedIn.{tiling_found};
ghost use Rattle.bk_skel.specs.PartlyLaid.{CanLay, IsClosed, IsFittingGap, columns_of};
ghost use Rattle.bk_word_net.specs.LaidOutline.{FillsValley, IsNumber, bottom_at, square_at};

use arrayvec::ArrayVec;
use bk_lay::sign_between;
use bk_play::{Skel, splice_numbers};
use bk_tiling::{MOST_SQUARES, Segment, Square, Tiling, push_group, put_in_order, sum_of};
use bk_word::Sign;

/// Room in which squares are laid move by move: the width, the squares laid so far, and the numbers of those that are
/// open, from left to right. Squares are numbered from 1 in the order of laying.
#[derive(Drop)]
pub struct LayingRoom {
    width: u64,
    laid: ArrayVec<Square, MOST_SQUARES>,
    numbers: ArrayVec<u8, MOST_SQUARES>,
}

impl LayingRoom {
    /// Room for one word at a time.
    pub fn new() -> LayingRoom {
        LayingRoom {
            width: 0,
            laid: ArrayVec::new(),
            numbers: ArrayVec::new(),
        }
    }
}

/// What is found of a word that is laid in room that is there.
#[derive(Clone, Copy, PartialEq, Eq)]
pub enum Realised {
    /// A tiling, which stands in the room.
    Found,
    /// No tiling.
    Nothing,
}

/// The tiling of a closed skeleton's word whose squares have these sides, in the order in which the word lays them;
/// each is 1 to 999,999,999,999,999. It is the only one. `None` comes exactly where no tiling of the word has them:
/// where the squares of a move don't fill its valley, or their bottoms don't compare as its signs say. Words are our
/// own.
pub fn placed(skel: &Skel, sides: &[u64]) -> Option<Tiling>
    requires closed { IsComplete skel.now }
    requires count { length sides.now ≡ order_of skel.now }
    requires sides { AllByRecursion IsSide sides.now }
    ensures placed { IfSome result (IsLaidWith skel.now sides.now) }
    ensures only { (u : Tiled) → IsLaidWith skel.now sides.now u → IsSomeAnd result (λ t. t ≡ u) }
{
    let mut tiling = Tiling::unit();
    let mut laying = LayingRoom::new();
    match place(skel, sides, &mut laying, &mut tiling) {
        Realised::Found => Some(tiling),
        Realised::Nothing => None,
    }
}

// What `placed` answers, in room that is there, for the laying and for the tiling.
pub(crate) fn place(
    skel: &Skel,
    sides: &[u64],
    laying: &mut LayingRoom,
    tiling: &mut Tiling,
) -> Realised
    requires closed { IsComplete skel.now }
    requires count { length sides.now ≡ order_of skel.now }
    requires sides { AllByRecursion IsSide sides.now }
    ensures placed { IfSome (tiling_found result tiling.new) (IsLaidWith skel.now sides.now) }
    ensures only { (u : Tiled) → IsLaidWith skel.now sides.now u
        → IsSomeAnd (tiling_found result tiling.new) (λ t. t ≡ u) }
{
    let moves = skel.moves();
    let width = sum_of(&sides[..usize::from(skel.record_at(0).count)]);
    laying.width = width;
    laying.laid.clear();
    laying.numbers.clear();
    for i in 0..moves {
        let noted = skel.record_at(i);
        let from = laying.laid.len();
        let new = &sides[from..from + usize::from(noted.count)];
        let first = usize::from(noted.first);
        let end = first + usize::from(noted.closed);
        let signs = skel.signs_at(i);
        if !lay_move(laying, first, end, signs, new) {
            return Realised::Nothing;
        }
    }
    close(&mut laying.laid, &laying.numbers, laying.width, tiling);
    Realised::Found
}

// Lays squares of these sides in the leftmost valley, whose squares' numbers stand from `first` up to `end`. It is true
// where they fill it and the bottoms compare as the signs say.
fn lay_move(laying: &mut LayingRoom, first: usize, end: usize, signs: &[Sign], new: &[u64]) -> bool
    requires { (o : Outline) × CanLay
        (record { width = laying.old.width; laid = laying.old.laid.items; numbers = laying.old.numbers.items })
        (record { first = first; end = end; signs = signs.now; sides = new.now }) o }
    ensures width { laying.new.width ≡ laying.old.width }
    ensures fills { result ≡ true
        → (v : Gap) × (FillsValley laying.old.width laying.old.laid.items
        (record { count = length new.now; signs = signs.now }) new.now v
        × (laying.new.laid.items ≡ laying.old.laid.items ++ laid_group v.x v.level new.now)) }
    ensures numbers { result ≡ true
        → laying.new.numbers.items
        ≡ (take first laying.old.numbers.items ++ numbers_from (length laying.old.laid.items + 1) (length new.now))
        ++ drop end laying.old.numbers.items }
    ensures none { result ≡ false → (v : Gap)
        → ¬ (FillsValley laying.old.width laying.old.laid.items
        (record { count = length new.now; signs = signs.now }) new.now v) }
{
    let gap = gap_under(&laying.laid, &laying.numbers[first..end], laying.width);
    if sum_of(new) != gap.width {
        return false;
    }
    let number = (laying.laid.len() + 1) as u8;
    push_group(&mut laying.laid, gap, new);
    splice_numbers(&mut laying.numbers, first, end, number, new.len() as u8);
    let left = first.saturating_sub(1);
    signs_fit(
        &laying.laid,
        &laying.numbers[left..left + signs.len() + 1],
        signs,
    )
}

// Makes the tiling of all squares that are laid, whose bottoms lie at one level, and puts these in its order.
fn close(laid: &mut ArrayVec<Square, MOST_SQUARES>, numbers: &[u8], width: u64, tiling: &mut Tiling)
    requires { (o : Outline) × IsClosed width laid.old.items numbers.now o }
    ensures { tiling.new
        ≡ record { width = width; height = depth laid.old.items 0; squares = in_code_order laid.old.items } }
{
    let height = bottom_of(laid, numbers[0]);
    put_in_order(laid);
    tiling.become_known(width, height, laid.as_slice());
}

// The gap under the squares of these numbers: the columns over which they stand, at the level of their bottoms. Where
// there are none it is the top.
fn gap_under(laid: &[Square], numbers: &[u8], width: u64) -> Segment
    requires { (v : Gap) × IsFittingGap width laid.now numbers.now v }
    ensures { (v : Gap) → IsFittingGap width laid.now numbers.now v → result ≡ v }
{
    if numbers.is_empty() {
        return Segment {
            x: 0,
            width,
            level: 0,
        };
    }
    let first = square_of(laid, numbers[0]);
    Segment {
        x: first.x,
        width: columns_over(laid, numbers),
        level: first.y + first.s,
    }
}

// The square of a number.
fn square_of(laid: &[Square], number: u8) -> Square
    requires { IsNumber laid.now number }
    ensures { result ≡ square_at laid.now number }
{
    laid[usize::from(number) - 1]
}

// How many columns the squares of these numbers stand over, which stand side by side.
fn columns_over(laid: &[Square], numbers: &[u8]) -> u64
    requires known { AllByRecursion (IsNumber laid.now) numbers.now }
    requires fits { columns_of laid.now numbers.now < 2 ^ 63 }
    ensures { result ≡ columns_of laid.now numbers.now }
{
    let mut columns = 0;
    for number in numbers {
        columns += square_of(laid, *number).s;
    }
    columns
}

// Whether the bottoms of squares compare as the signs between them say.
fn signs_fit(laid: &[Square], numbers: &[u8], signs: &[Sign]) -> bool
    requires known { AllByRecursion (IsNumber laid.now) numbers.now }
    requires low { (n : ℕ) → IsNumber laid.now n → bottom_at laid.now n < 2 ^ 63 }
    requires count { length signs.now + 1 ≡ length numbers.now }
    ensures { IsTrue result ↔ (signs.now ≡ signs_between (map (bottom_at laid.now) numbers.now)) }
{
    let mut left = bottom_of(laid, numbers[0]);
    for i in 0..signs.len() {
        let right = bottom_of(laid, numbers[i + 1]);
        if signs[i] != sign_between(left, right) {
            return false;
        }
        left = right;
    }
    true
}

// The level of the bottom of a square.
fn bottom_of(laid: &[Square], number: u8) -> u64
    requires known { IsNumber laid.now number }
    requires low { bottom_at laid.now number < 2 ^ 63 }
    ensures { result ≡ bottom_at laid.now number }
{
    let square = square_of(laid, number);
    square.y + square.s
}
