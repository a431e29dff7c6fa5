//! Laying codes gap by gap.
#![tactic(auto)]

mod dividing;
mod laws;
mod laying;
mod profile;
mod runs;

pub use bk_tiling::Segment;
pub use dividing::{lay_flat, lay_flat_in};
pub use laws::{a_code_is_laid, a_refusal_excludes_every_tiling, laying_ends_in_one_way};
pub use laying::{Refusal, lay_code, lay_code_in};
pub use profile::{GapFault, Profile, WIDEST_PROFILE};
