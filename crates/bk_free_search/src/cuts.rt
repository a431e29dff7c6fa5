//! Cuts: moves by which no word of a sound layout goes on.
#![tactic(auto)]

ghost use Rattle.std.specs.Prelude.{[], ℕ, ◌++◌, ◌<◌, ◌∷◌, ◌≡◌, ◌≤◌};
ghost use Rattle.bk_word.specs.Word.{Move as SeenMove};
ghost use Rattle.bk_word.specs.Play.{IsLegal};
ghost use Rattle.bk_play.specs.SmallSkeleton.{IsValleyPlace};
ghost use Rattle.bk_layout.specs.NetWord.{IsNetBarren};

use bk_play::{SmallSkel, ValleyPlace};

/// A count below which each next move is barren: 2 if the leftmost valley has one square, since one square hangs under
/// no segment of just one, otherwise 1.
pub(crate) fn least_count(skel: &SmallSkel, valley: &ValleyPlace) -> u8
    requires word { IsLegal skel.now }
    requires valley { IsValleyPlace skel.now valley.now }
    ensures some { 0 < result }
    ensures few { result ≤ 2 }
    ensures barren { (n : ℕ) (m : SeenMove) → m.count < result → 0 < m.count → IsNetBarren n (skel.now ++ m ∷ []) }
{
    if skel.sizes()[valley.place] == 1 {
        2
    } else {
        1
    }
}
