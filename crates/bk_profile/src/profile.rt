//! Squares laid gap by gap, from the top of a rectangle downwards.

ghost use Rattle.std.specs.List.{AllByRecursion};
ghost use Rattle.std.specs.Prelude.{[], IfErr, IfOk, OnErr, OnOk, length, sum, take, ◌+◌, ◌<◌, ◌≡◌, ◌≤◌};
ghost use Rattle.bk_tiling.specs.KeptTiling.{IsKept, IsSide};
ghost use Rattle.bk_tiling.specs.SquareGroups.{laid_group};
ghost use Rattle.bk_profile.specs.declared.profile.TheConstants.{WIDEST_PROFILE};
ghost use Rattle.bk_profile.specs.Gap.{IsGap, next_group};
ghost use Rattle.bk_profile.specs.Laid.{IsGreatestDepth, IsLaidTiling, IsLeastDepth, IsProfile, LaysGroup};
ghost use Rattle.bk_profile.specs.Laid.{LaysNextGroup, MisfitsGap, MisfitsNextGroup};
ghost use Rattle.bk_profile.specs.OutlineRuns.{AreLowestRuns};
ghost use Rattle.bk_profile.specs.StoredProfile.{IsStoredProfile, laid_over};

use crate::runs::{LowestRuns, MOST_RUNS, OutlineRun, hang, highest, lowest, lowest_runs, put_in};
use arrayvec::ArrayVec;
use bk_tiling::{LONGEST_SIDE, MOST_SQUARES, Segment, Square, Tiling, push_group, sum_of};
use std::marker::Model;

/// No profile is wider: 200 sides have a smaller sum.
pub const WIDEST_PROFILE: u64 = MOST_SQUARES as u64 * (LONGEST_SIDE + 1);

/// The sum of a group isn't the width of the gap that it was to go into.
#[derive(Clone, Copy, Debug, PartialEq, Eq)]
pub struct GapFault {
    /// The width of the gap.
    pub gap: u64,
    /// The sum of the group.
    pub sum: u64,
}

/// Squares laid under each other in a width, each group into the gap that is there then (Bouwkamp's rule of reading a
/// code, 1946-47). The gap is the leftmost maximal run of columns of least depth.
#[derive(Drop)]
pub struct Profile {
    width: u64,
    laid: ArrayVec<Square, MOST_SQUARES>,
    outline: ArrayVec<OutlineRun, MOST_RUNS>,
}

impl Model for Profile {
    ghost use Rattle.bk_profile.specs.Laid.{Laid};
    ghost use Rattle.bk_profile.specs.StoredProfile.{IsStoredProfile};

    ghost Value = { Laid };

    ghost view = { λ p. record { width = p.width; squares = p.laid.items } };

    ghost invariant = { λ p. IsStoredProfile (record { width = p.width; squares = p.laid.items }) p.outline.items };
}

impl Profile {
    /// The profile of this width, 1 to `WIDEST_PROFILE`, with no square laid.
    pub fn new(width: u64) -> Profile
        requires some { 0 < width }
        requires narrow { width ≤ WIDEST_PROFILE }
        ensures { result ≡ record { width = width; squares = [] } }
    {
        let mut outline = ArrayVec::new();
        outline.push(OutlineRun { width, level: 0 });
        Profile {
            width,
            laid: ArrayVec::new(),
            outline,
        }
    }

    // Takes away all squares, and begins again with this width.
    pub(crate) fn restart(&mut self, width: u64)
        requires some { 0 < width }
        requires narrow { width ≤ WIDEST_PROFILE }
        ensures { self.new ≡ record { width = width; squares = [] } }
    {
        self.width = width;
        self.laid.clear();
        self.outline.clear();
        self.outline.push(OutlineRun { width, level: 0 });
    }

    // Takes away all squares, and lays a first group under its sum as the width.
    pub(crate) fn restart_with(&mut self, sides: &[u64])
        requires some { 0 < length sides.now }
        requires few { length sides.now ≤ MOST_SQUARES }
        requires sides { AllByRecursion IsSide sides.now }
        ensures { self.new ≡ record { width = sum sides.now; squares = laid_group 0 0 sides.now } }
    {
        let width = sum_of(sides);
        let top = Segment {
            x: 0,
            width,
            level: 0,
        };
        self.width = width;
        self.laid.clear();
        push_group(&mut self.laid, top, sides);
        self.outline.clear();
        put_in(&mut self.outline, 0, 0, sides);
    }

    /// The gap: the leftmost maximal run of columns of least depth (Bouwkamp 1946-47).
    pub fn gap(&self) -> Segment
        ensures gap { IsGap self.now.width self.now.squares result }
        ensures kept { IsProfile self.now }
    {
        lowest_runs(&self.outline).segment
    }

    /// Lays a group from left to right under the gap, with the gap's level as the top level of its squares. It fits
    /// exactly where the sum of its sides is the gap's width; otherwise nothing is laid. There must be one side or
    /// more, each 1 to 999,999,999,999,999, and room for their squares.
    pub fn lay(&mut self, sides: &[u64]) -> Result<(), GapFault>
        requires some { 0 < length sides.now }
        requires sides { AllByRecursion IsSide sides.now }
        requires room { length self.old.squares + length sides.now ≤ MOST_SQUARES }
        ensures ok { OnOk result (LaysGroup self.old sides.now self.new) }
        ensures err { IfErr result (λ fault. MisfitsGap self.old sides.now fault.gap fault.sum) }
        ensures same { OnErr result (self.new ≡ self.old) }
    {
        let runs = lowest_runs(&self.outline);
        let sum = sum_of(sides);
        lay_under(&mut self.laid, &mut self.outline, runs, sum, sides)
    }

    // Lays the next group of a flat list, the shortest prefix of the sides whose sum reaches the gap's width, or all of
    // them, and tells how many sides it has. It fits exactly where its sum is the gap's width.
    pub(crate) fn lay_next(&mut self, sides: &[u64]) -> Result<usize, GapFault>
        requires some { 0 < length sides.now }
        requires sides { AllByRecursion IsSide sides.now }
        requires room { length self.old.squares + length sides.now ≤ MOST_SQUARES }
        ensures ok { IfOk result (λ taken. LaysNextGroup self.old sides.now taken self.new) }
        ensures err { IfErr result (λ fault. MisfitsNextGroup self.old sides.now fault.gap fault.sum) }
    {
        let runs = lowest_runs(&self.outline);
        let (count, sum) = next_group(runs.segment.width, sides);
        lay_under(
            &mut self.laid,
            &mut self.outline,
            runs,
            sum,
            &sides[..count],
        )?;
        Ok(count)
    }

    /// The squares laid, in the order of laying.
    pub fn laid(&self) -> &[Square]
        ensures value { result.now ≡ self.now.squares }
        ensures kept { IsProfile self.now }
    {
        self.laid.as_slice()
    }

    // Leaves the tiling of this height, where what is laid is one.
    pub(crate) fn leave_tiling(&self, height: u64, tiling: &mut Tiling)
        requires { IsKept (record { width = self.now.width; height = height; squares = self.now.squares }) }
        ensures { IsLaidTiling self.now tiling.new }
    {
        tiling.become_known(self.width, height, &self.laid);
    }

    // The width.
    pub(crate) fn width(&self) -> u64
        ensures value { result ≡ self.now.width }
        ensures kept { IsProfile self.now }
    {
        self.width
    }

    /// The least depth of a column.
    pub fn least(&self) -> u64
        ensures { IsLeastDepth self.now result }
    {
        let (first, _) = lowest(&self.outline);
        self.outline[first].level
    }

    /// The greatest depth of a column.
    pub fn greatest(&self) -> u64
        ensures { IsGreatestDepth self.now result }
    {
        highest(&self.outline)
    }
}

// Lays a group, whose sum is `total`, under the gap, which the lowest runs of the outline make. It fits exactly where
// `total` is the gap's width; otherwise nothing is laid.
fn lay_under(
    laid: &mut ArrayVec<Square, MOST_SQUARES>,
    outline: &mut ArrayVec<OutlineRun, MOST_RUNS>,
    runs: LowestRuns,
    total: u64,
    sides: &[u64],
) -> Result<(), GapFault>
    requires stored { IsStoredProfile (laid_over outline.old.items laid.old.items) outline.old.items }
    requires runs { AreLowestRuns outline.old.items runs }
    requires total { sum sides.now ≡ total }
    requires some { 0 < length sides.now }
    requires sides { AllByRecursion IsSide sides.now }
    requires room { length laid.old.items + length sides.now ≤ MOST_SQUARES }
    ensures ok { OnOk result (LaysGroup (laid_over outline.old.items laid.old.items) sides.now
        (laid_over outline.old.items laid.new.items)) }
    ensures err { IfErr result (λ fault. MisfitsGap (laid_over outline.old.items laid.old.items) sides.now fault.gap
        fault.sum) }
    ensures same { OnErr result (laid.new.items ≡ laid.old.items) }
    ensures stored { IsStoredProfile (laid_over outline.old.items laid.new.items) outline.new.items }
{
    let gap = runs.segment;
    if total != gap.width {
        return Err(GapFault {
            gap: gap.width,
            sum: total,
        });
    }
    hang(outline, runs.first, runs.end, gap.level, sides);
    push_group(laid, gap, sides);
    Ok(())
}

// The next group of a flat list: how many sides it has, the least number of them whose sum reaches the width of the
// gap, or all; and its sum.
fn next_group(gap: u64, sides: &[u64]) -> (usize, u64)
    requires gap { 0 < gap }
    requires some { 0 < length sides.now }
    requires few { length sides.now ≤ MOST_SQUARES }
    requires sides { AllByRecursion IsSide sides.now }
    ensures group { take result.0 sides.now ≡ next_group gap sides.now }
    ensures some { 0 < result.0 }
    ensures within { result.0 ≤ length sides.now }
    ensures sum { result.1 ≡ sum (take result.0 sides.now) }
{
    let mut sum = 0;
    for i in 0..sides.len() {
        sum += sides[i];
        if sum >= gap {
            return (i + 1, sum);
        }
    }
    (sides.len(), sum)
}
