//! Laying codes: the one tiling that has a code, or why there is none.

ghost use Rattle.std.specs.Prelude.{IfErr, IfOk, IsOk, IsOkAnd, OnErr, OnOk, length, ◌<◌, ◌≡◌};
ghost use Rattle.bk_tiling.specs.Tiling.{Tiling as Tiled};
ghost use Rattle.bk_tiling.specs.KeptTiling.{IsKept};
ghost use Rattle.bk_profile.specs.Laid.{IsLaidOut};
ghost use Rattle.bk_profile.specs.Refused.{HasCode, IsOpen, IsRefused, first_sum};

use crate::profile::Profile;
use bk_code::Code;
use bk_tiling::Tiling;
use thiserror::Error;

/// Why laying gives no tiling.
#[derive(Clone, Copy, Debug, PartialEq, Eq, Error)]
pub enum Refusal {
    /// The sum of this group, counted from 1, isn't the width of the gap that it comes to; all groups before it fit.
    #[error("Gap")]
    Gap { group: usize, gap: u64, sum: u64 },
    /// All groups fit, and the least depth is below the greatest in the end.
    #[error("Open")]
    Open { least: u64, greatest: u64 },
}

/// Lays the groups of a code in order, under the sum of the first one as the width: the one tiling that has the code
/// (Bouwkamp 1946-47). The code must have a group. It is refused exactly where no tiling has it, with the first group
/// that doesn't fit, or with the depths where all fit and the outline ends uneven.
pub fn lay_code(code: &Code) -> Result<Tiling, Refusal>
    requires { 0 < length code.now }
    ensures ok { IfOk result (HasCode code.now) }
    ensures only { (t : Tiled) → HasCode code.now t → IsOkAnd result (λ u. u ≡ t) }
    ensures refused { IfErr result (IsRefused (first_sum code.now) code.now) }
{
    let mut profile = Profile::new(1);
    let mut tiling = Tiling::unit();
    lay_code_in(code, &mut profile, &mut tiling)?;
    Ok(tiling)
}

/// Does what `lay_code` does in a profile and a tiling that are there, and hold anything before: the one tiling that
/// has the code is left. So nothing large is made for a code. After a refusal the tiling is as it was, and the profile
/// may hold anything.
pub fn lay_code_in(code: &Code, profile: &mut Profile, tiling: &mut Tiling) -> Result<(), Refusal>
    requires { 0 < length code.now }
    ensures ok { OnOk result (HasCode code.now tiling.new) }
    ensures only { (t : Tiled) → HasCode code.now t → IsOk result × (tiling.new ≡ t) }
    ensures refused { IfErr result (IsRefused (first_sum code.now) code.now) }
    ensures same { OnErr result (tiling.new ≡ tiling.old) }
{
    let count = code.groups();
    profile.restart_with(code.group(0));
    for g in 1..count {
        if let Err(fault) = profile.lay(code.group(g)) {
            return Err(Refusal::Gap {
                group: g + 1,
                gap: fault.gap,
                sum: fault.sum,
            });
        }
    }
    match even_height(profile) {
        Ok(height) => {
            profile.leave_tiling(height, tiling);
            Ok(())
        }
        Err(refusal) => Err(refusal),
    }
}

// The height of what is laid, or the depths of an uneven outline.
pub(crate) fn even_height(profile: &Profile) -> Result<u64, Refusal>
    requires { IsLaidOut profile.now }
    ensures even { IfOk result (λ height. IsKept (record {
      width = profile.now.width;
      height = height;
      squares = profile.now.squares;
    })) }
    ensures uneven { IfErr result (IsOpen profile.now) }
{
    let least = profile.least();
    let greatest = profile.greatest();
    if least < greatest {
        return Err(Refusal::Open { least, greatest });
    }
    let _narrow = profile.width();
    Ok(greatest)
}
