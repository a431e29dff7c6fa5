//! The member that has a word.
#![tactic(auto)]

ghost use Rattle.std.specs.Prelude.{◌≡◌};
ghost use Rattle.bk_catalogue.specs.Catalogue.{IsEntry};
ghost use Rattle.bk_tree_walk.specs.WholeWords.{IsMembersWord};

use crate::tree_walk::TreeWalk;
use bk_skel::{Realised, flow_of, realise_by_in};
use bk_tiling::Tiling;

impl TreeWalk {
    /// Makes of a tiling the member whose word is that of the moves played. There must be one.
    #[inline(never)]
    pub fn realise(&mut self, tiling: &mut Tiling)
        requires { IsMembersWord self.old.order self.old.class self.old.front }
        ensures member { IsEntry self.old.order self.old.class (record { tiling = tiling.new; word = self.old.front }) }
        ensures same { self.new ≡ self.old }
    {
        let skel = self.lined.skel();
        match realise_by_in(skel, &flow_of(skel), &mut self.laying, tiling) {
            Realised::Found => {}
            Realised::Nothing => unreachable!(),
        }
    }
}
