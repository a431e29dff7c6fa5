//! The statuses that runs over lines and listings end with.

ghost use Rattle.std.specs.Prelude.{◌≡◌};
ghost use Rattle.bk_top.specs.Outside.{status_of};
ghost use Rattle.bk_top.specs.Running.{status_of_listing};

use bk_ports::{Ended, Failed};
use bk_report::Last;

// The status that a listing ends with.
pub(crate) fn listing_status(ended: &Result<Last, Failed>) -> u8
    ensures { result ≡ status_of_listing ended.now }
{
    match ended {
        Ok(Last::End | Last::Limit) => 0,
        Ok(Last::Wide) => 5,
        Err(Failed) => 4,
    }
}

// The status that a run over lines ends with.
pub(crate) fn status(ended: Ended) -> u8
    ensures { result ≡ status_of ended }
{
    match ended {
        Ended::NoneRefused => 0,
        Ended::SomeRefused => 1,
        Ended::ReadFailed => 3,
        Ended::WriteFailed => 4,
        Ended::NoMemory => 6,
        Ended::TooMany => 7,
    }
}
