//! Where counts of a word tie, corner squares tell which of two images is met.

ghost use Rattle.std.specs.Prelude.{List, false, ◌||◌, ◌≡◌};
ghost use Rattle.bk_tiling.specs.declared.Square.{Square};
ghost use Rattle.bk_layout.specs.Normal.{Counts};
ghost use Rattle.bk_layout.specs.NormalImage.{AreCornersSettled};
ghost use Rattle.bk_found.specs.Ties.{AreTiesOf};
ghost use Rattle.bk_found.specs.ToldCorners.{AreLongest};

use crate::corners::Longest;

/// Which counts of a word are known to tie.
#[derive(Clone, Copy, Drop)]
pub struct Ties {
    /// As many squares lie at the bottom as at the top.
    pub level: bool,
    /// As many lie at the left as at the right.
    pub across: bool,
    /// The nodes are just half of three more than the squares, as many squares lie at the right as at the top, and as
    /// many at the left as at the bottom.
    pub size: bool,
}

impl Ties {
    // Whether some counts tie: else corners refuse nothing.
    pub(crate) fn any(self) -> bool
        ensures { result ≡ self.level || self.across || self.size }
    {
        self.level || self.across || self.size
    }
}

// Whether the squares of a rectangle of this size, of which these are the longest in its corners, can be those of the
// image that is met, where these counts tie.
pub(crate) fn corners_allow(longest: &Longest, width: u64, height: u64, ties: Ties) -> bool
    ensures { result ≡ false → (c : Counts) (squares : List Square) → AreTiesOf c ties
        → AreLongest width height squares longest.now
        → AreCornersSettled c width height squares → ⊥ }
{
    if ties.size && width < height {
        return false;
    }
    if ties.level && longest.bottom > longest.top {
        return false;
    }
    if ties.across && longest.right > longest.left {
        return false;
    }
    true
}
