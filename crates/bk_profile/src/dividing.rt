//! Laying flat lists of sides, whose groups are found by laying.

ghost use Rattle.std.specs.List.{AllByRecursion};
ghost use Rattle.std.specs.Prelude.{IfErr, IfOk, IsOk, IsOkAnd, OnErr, OnOk, length, ◌<◌, ◌≡◌, ◌≤◌};
ghost use Rattle.bk_code.specs.declared.TheConstants.{LARGEST_HEADER_NUMBER};
ghost use Rattle.bk_tiling.specs.KeptTiling.{IsSide};
ghost use Rattle.bk_tiling.specs.Tiling.{Tiling as Tiled};
ghost use Rattle.bk_profile.specs.Refused.{HasFlat, IsFlatRefused};

use crate::laying::{Refusal, even_height};
use crate::profile::{Profile, WIDEST_PROFILE};
use bk_tiling::{MOST_SQUARES, Tiling, sum_of};

/// Divides a flat list of 1 to 200 sides, each 1 to 999,999,999,999,999, into groups and lays them under a width of 1
/// to `LARGEST_HEADER_NUMBER`: the next group is the shortest prefix of the sides that are left whose sum reaches the
/// width of the gap, or all of them. The result is the one tiling that has this width and a code with this flat list.
/// It is refused exactly where no tiling has them, with the first group that doesn't fit, or with the depths where all
/// fit and the outline ends uneven. This division is our own.
pub fn lay_flat(width: u64, sides: &[u64]) -> Result<Tiling, Refusal>
    requires wide { 0 < width }
    requires narrow { width ≤ LARGEST_HEADER_NUMBER }
    requires some { 0 < length sides.now }
    requires few { length sides.now ≤ MOST_SQUARES }
    requires sides { AllByRecursion IsSide sides.now }
    ensures ok { IfOk result (HasFlat width sides.now) }
    ensures only { (t : Tiled) → HasFlat width sides.now t → IsOkAnd result (λ u. u ≡ t) }
    ensures refused { IfErr result (IsFlatRefused width sides.now) }
{
    let mut profile = Profile::new(1);
    let mut tiling = Tiling::unit();
    lay_flat_in(width, sides, &mut profile, &mut tiling)?;
    Ok(tiling)
}

/// Does what `lay_flat` does in a profile and a tiling that are there, and hold anything before: the one tiling that
/// has this width and a code with this flat list is left. So nothing large is made for a list. A width above
/// `WIDEST_PROFILE`, which no sum of 200 sides reaches, is refused before anything is laid. After a refusal the tiling
/// is as it was, and the profile may hold anything.
pub fn lay_flat_in(
    width: u64,
    sides: &[u64],
    profile: &mut Profile,
    tiling: &mut Tiling,
) -> Result<(), Refusal>
    requires wide { 0 < width }
    requires narrow { width ≤ LARGEST_HEADER_NUMBER }
    requires some { 0 < length sides.now }
    requires few { length sides.now ≤ MOST_SQUARES }
    requires sides { AllByRecursion IsSide sides.now }
    ensures ok { OnOk result (HasFlat width sides.now tiling.new) }
    ensures only { (t : Tiled) → HasFlat width sides.now t → IsOk result × (tiling.new ≡ t) }
    ensures refused { IfErr result (IsFlatRefused width sides.now) }
    ensures same { OnErr result (tiling.new ≡ tiling.old) }
{
    if width > WIDEST_PROFILE {
        return Err(Refusal::Gap {
            group: 1,
            gap: width,
            sum: sum_of(sides),
        });
    }
    profile.restart(width);
    let mut rest = sides;
    let mut group = 1;
    while !rest.is_empty() {
        let count = match profile.lay_next(rest) {
            Ok(count) => count,
            Err(fault) => {
                return Err(Refusal::Gap {
                    group,
                    gap: fault.gap,
                    sum: fault.sum,
                });
            }
        };
        rest = &rest[count..];
        group += 1;
    }
    match even_height(profile) {
        Ok(height) => {
            profile.leave_tiling(height, tiling);
            Ok(())
        }
        Err(refusal) => Err(refusal),
    }
}
