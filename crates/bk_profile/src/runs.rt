//! The outline of laid squares as level runs of columns, side by side.

ghost use Rattle.std.specs.List.{All, AllByRecursion, HoldsAt};
ghost use Rattle.std.specs.Prelude.{drop, length, slice_set, sum, take, ℕ, ◌+◌, ◌++◌, ◌<◌, ◌^◌, ◌≡◌};
ghost use Rattle.std.specs.Prelude.{◌≤◌};
ghost use Rattle.bk_tiling.specs.KeptTiling.{IsSide};
ghost use Rattle.bk_profile.specs.OutlineRuns.{AreLowestRuns, IsLowest, run_start, run_under_side, runs_under_group};
ghost use Rattle.bk_profile.specs.OutlineRuns.{width_of};

use arrayvec::ArrayVec;
use bk_tiling::{MOST_SQUARES, Segment};

/// The most runs of an outline.
pub(crate) const MOST_RUNS: usize = MOST_SQUARES + 1;

/// A level run of columns: how many they are, and their depth. It begins where the run before it ends.
#[derive(Clone, Copy, Default)]
pub(crate) struct OutlineRun {
    pub(crate) width: u64,
    pub(crate) level: u64,
}

// The leftmost runs of least level that touch: their places, and the segment that they make.
#[derive(Clone, Copy)]
pub(crate) struct LowestRuns {
    // The place of the first of them.
    pub(crate) first: usize,
    // The place after the last of them.
    pub(crate) end: usize,
    // The segment that they make.
    pub(crate) segment: Segment,
}

// The leftmost runs of least level that touch.
pub(crate) fn lowest_runs(outline: &[OutlineRun]) -> LowestRuns
    requires some { 0 < length outline.now }
    requires narrow { width_of outline.now < 2 ^ 63 }
    ensures { AreLowestRuns outline.now result }
{
    let (first, end) = lowest(outline);
    LowestRuns {
        first,
        end,
        segment: segment(outline, first, end),
    }
}

// The places of the leftmost runs of least level that touch: the first of them, and the one after the last.
pub(crate) fn lowest(outline: &[OutlineRun]) -> (usize, usize)
    requires { 0 < length outline.now }
    ensures { IsLowest outline.now (length outline.now) result.0 result.1 }
{
    let mut first = 0;
    let mut end = 1;
    for i in 1..outline.len() {
        let level = outline[i].level;
        let least = outline[first].level;
        if level < least {
            first = i;
            end = i + 1;
        } else if level == least && end == i {
            end = i + 1;
        }
    }
    (first, end)
}

// The segment of the runs from one place up to another.
fn segment(outline: &[OutlineRun], first: usize, end: usize) -> Segment
    requires order { first < end }
    requires within { end ≤ length outline.now }
    requires narrow { width_of outline.now < 2 ^ 63 }
    ensures x { result.x ≡ run_start outline.now first }
    ensures end { result.x + result.width ≡ run_start outline.now end }
    ensures level { HoldsAt (λ run. result.level ≡ run.level) outline.now first }
{
    Segment {
        x: columns(&outline[..first]),
        width: columns(&outline[first..end]),
        level: outline[first].level,
    }
}

// How many columns the runs have.
fn columns(outline: &[OutlineRun]) -> u64
    requires { width_of outline.now < 2 ^ 63 }
    ensures { result ≡ width_of outline.now }
{
    let mut total = 0;
    for run in outline {
        total += run.width;
    }
    total
}

// The greatest level.
pub(crate) fn highest(outline: &[OutlineRun]) -> u64
    requires { 0 < length outline.now }
    ensures most { All (λ r. r.level ≤ result) outline.now }
    ensures some { (k : ℕ) × (k < length outline.now) × HoldsAt (λ r. r.level ≡ result) outline.now k }
{
    let mut most = outline[0].level;
    for run in outline {
        if run.level > most {
            most = run.level;
        }
    }
    most
}

// Puts the runs under a group, whose tops are at a level, in the place of the runs from one place up to another.
pub(crate) fn hang(
    outline: &mut ArrayVec<OutlineRun, MOST_RUNS>,
    first: usize,
    end: usize,
    level: u64,
    sides: &[u64],
)
    requires order { first < end }
    requires within { end ≤ length outline.old.items }
    requires some { 0 < length sides.now }
    requires room { length outline.old.items + length sides.now ≤ MOST_RUNS }
    requires high { level < 2 ^ 63 }
    requires sides { AllByRecursion IsSide sides.now }
    ensures { outline.new.items
        ≡ (take first outline.old.items ++ runs_under_group level sides.now) ++ drop end outline.old.items }
{
    set_run(outline, first, level, sides[0]);
    take_out(outline, first + 1, end);
    put_in(outline, first + 1, level, &sides[1..]);
}

// Puts the run under a square in the place of another.
fn set_run(outline: &mut ArrayVec<OutlineRun, MOST_RUNS>, place: usize, level: u64, side: u64)
    requires place { place < length outline.old.items }
    requires fits { level + side < 2 ^ 64 }
    ensures { outline.new.items ≡ slice_set outline.old.items place (run_under_side level side) }
{
    outline[place] = OutlineRun {
        width: side,
        level: level + side,
    };
}

// Takes out the runs from one place up to another.
fn take_out(outline: &mut ArrayVec<OutlineRun, MOST_RUNS>, first: usize, end: usize)
    requires order { first ≤ end }
    requires within { end ≤ length outline.old.items }
    ensures { outline.new.items ≡ take first outline.old.items ++ drop end outline.old.items }
{
    let mut last = end;
    'runs: while last > first {
        last -= 1;
        outline.remove(last);
    }
}

// Puts in the runs under a group, from a place on.
pub(crate) fn put_in(
    outline: &mut ArrayVec<OutlineRun, MOST_RUNS>,
    first: usize,
    level: u64,
    sides: &[u64],
)
    requires place { first ≤ length outline.old.items }
    requires room { length outline.old.items + length sides.now ≤ MOST_RUNS }
    requires high { level < 2 ^ 63 }
    requires sides { AllByRecursion IsSide sides.now }
    ensures { outline.new.items
        ≡ (take first outline.old.items ++ runs_under_group level sides.now) ++ drop first outline.old.items }
{
    for (i, side) in sides.iter().enumerate() {
        outline.insert(
            first + i,
            OutlineRun {
                width: *side,
                level: level + *side,
            },
        );
    }
}
