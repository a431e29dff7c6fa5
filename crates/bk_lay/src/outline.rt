//! The lower outline of laid squares, as level runs of columns about its leftmost valley.

ghost use Rattle.std.specs.List.{AllByRecursion};
ghost use Rattle.std.specs.Prelude.{IfNone, IfSome, List, [], length, map, option_to_list, ℕ, ◌+◌, ◌++◌, ◌<◌, ◌^◌, ◌∷◌};
ghost use Rattle.std.specs.Prelude.{◌≡◌, ◌≤◌};
ghost use Rattle.bk_tiling.specs.declared.Square.{Square as Placed};
ghost use Rattle.bk_lay.specs.LevelRuns.{AreBeside, IsDeeperAtEnd, IsOutline, Meet, bottoms_of, last_level, runs_under};
ghost use Rattle.bk_lay.specs.TilingWord.{signs_between};

use crate::signs::write_signs;
use arrayvec::ArrayVec;
use bk_tiling::{MOST_SQUARES, Square};
use bk_word::Move;

/// A level run of columns: its first column, the column after its last, and their depth.
#[derive(Clone, Copy, Default)]
pub(crate) struct LevelRun {
    pub(crate) x: u64,
    pub(crate) end: u64,
    pub(crate) level: u64,
}

/// The lower outline of what is laid, about its leftmost valley. The runs at the left of the valley stand from left to
/// right, each less deep than the one before it; those at its right stand from right to left.
#[derive(Drop)]
pub(crate) struct Outline {
    pub(crate) left: ArrayVec<LevelRun, MOST_SQUARES>,
    pub(crate) valley: LevelRun,
    pub(crate) right: ArrayVec<LevelRun, MOST_SQUARES>,
}

impl Outline {
    // An outline of one column, under which nothing is laid.
    pub(crate) fn new() -> Outline
        ensures { IsOutline 1 [] result }
    {
        Outline {
            left: ArrayVec::new(),
            valley: LevelRun {
                x: 0,
                end: 1,
                level: 0,
            },
            right: ArrayVec::new(),
        }
    }

    // Becomes the outline of so many columns under which nothing is laid yet.
    pub(crate) fn begin(&mut self, width: u64)
        requires { 0 < width }
        ensures outline { IsOutline width [] self.new }
        ensures alone { length self.new.left.items + length self.new.right.items ≡ 0 }
    {
        self.left.clear();
        self.right.clear();
        self.valley = LevelRun {
            x: 0,
            end: width,
            level: 0,
        };
    }

    // Makes of a move the one that hangs these squares under the valley.
    pub(crate) fn move_under(&self, squares: &[Square], m: &mut Move)
        requires few { length squares.now ≤ MOST_SQUARES }
        requires fit { AllByRecursion (λ q. q.y + q.s < 2 ^ 64) squares.now }
        ensures count { m.new.count ≡ length squares.now }
        ensures signs { m.new.signs
            ≡ signs_between (last_level self.now.left.items ++ bottoms_of squares.now
            ++ last_level self.now.right.items) }
    {
        let before = level_of_last(self.left.as_slice());
        let after = level_of_last(self.right.as_slice());
        m.count = squares.len() as u8;
        write_signs(&mut m.signs, before, squares, after);
    }

    // Lays squares that fill the valley from left to right, and goes on to the valley that is then the leftmost.
    pub(crate) fn lay(&mut self, squares: &[Square])
        requires some { 0 < length squares.now }
        requires room { length self.old.left.items + (length self.old.right.items + length squares.now) ≤ MOST_SQUARES }
        requires right { AllByRecursion (λ q. q.x + q.s < 2 ^ 64) squares.now }
        requires fit { AllByRecursion (λ q. q.y + q.s < 2 ^ 64) squares.now }
        ensures outline { (width : ℕ) (laid : List Placed)
            → Meet width laid self.old.left.items (self.old.right.items ++ runs_under squares.now)
            → IsOutline width laid self.new }
        ensures fewer { length self.new.left.items + length self.new.right.items
            < length self.old.left.items + (length self.old.right.items + length squares.now) }
    {
        push_runs(&mut self.right, squares);
        self.valley = take_valley(&mut self.left, &mut self.right);
    }
}

// The level of the last of the runs.
fn level_of_last(runs: &[LevelRun]) -> Option<u64>
    ensures { option_to_list result ≡ last_level runs.now }
{
    match runs {
        [] => None,
        [.., last] => Some(last.level),
    }
}

// Appends the runs under squares that stand from left to right, the last one first.
fn push_runs(right: &mut ArrayVec<LevelRun, MOST_SQUARES>, squares: &[Square])
    requires room { length right.old.items + length squares.now ≤ MOST_SQUARES }
    requires right { AllByRecursion (λ q. q.x + q.s < 2 ^ 64) squares.now }
    requires fit { AllByRecursion (λ q. q.y + q.s < 2 ^ 64) squares.now }
    ensures { right.new.items ≡ right.old.items ++ runs_under squares.now }
{
    for i in (0..squares.len()).rev() {
        let q = squares[i];
        right.push(LevelRun {
            x: q.x,
            end: q.x + q.s,
            level: q.y + q.s,
        });
    }
}

// Takes the run of the leftmost valley out, where the runs at both sides meet.
fn take_valley(
    left: &mut ArrayVec<LevelRun, MOST_SQUARES>,
    right: &mut ArrayVec<LevelRun, MOST_SQUARES>,
) -> LevelRun
    requires some { 0 < length left.old.items + length right.old.items }
    requires room { length left.old.items + length right.old.items ≤ MOST_SQUARES }
    ensures beside { (width : ℕ) (laid : List Placed) → Meet width laid left.old.items right.old.items
        → AreBeside width laid left.new.items result right.new.items }
    ensures deeper { IsDeeperAtEnd result.level right.new.items }
    ensures fewer { length left.new.items + length right.new.items < length left.old.items + length right.old.items }
{
    let mut valley = take_last(left, right);
    'falling: while let Some(next) = pop_no_deeper(right, valley.level) {
        if next.level < valley.level {
            left.push(valley);
            valley = next;
        } else {
            valley.end = next.end;
        }
    }
    valley
}

// Takes the last run at the left out, or where there is none that at the right.
fn take_last(
    left: &mut ArrayVec<LevelRun, MOST_SQUARES>,
    right: &mut ArrayVec<LevelRun, MOST_SQUARES>,
) -> LevelRun
    requires { 0 < length left.old.items + length right.old.items }
    ensures beside { (width : ℕ) (laid : List Placed) → Meet width laid left.old.items right.old.items
        → AreBeside width laid left.new.items result right.new.items }
    ensures fewer { length left.new.items + length right.new.items + 1
        ≡ length left.old.items + length right.old.items }
{
    match left.pop() {
        Some(run) => run,
        None => right.pop().unwrap(),
    }
}

// Takes the last of the runs out where it is no deeper than a level.
fn pop_no_deeper(runs: &mut ArrayVec<LevelRun, MOST_SQUARES>, level: u64) -> Option<LevelRun>
    ensures taken { IfSome result (λ r. (runs.old.items ≡ runs.new.items ++ r ∷ []) × (r.level ≤ level)) }
    ensures kept { IfNone result ((runs.new ≡ runs.old) × IsDeeperAtEnd level runs.old.items) }
{
    let last = *runs.last()?;
    if last.level > level {
        return None;
    }
    runs.pop()
}
