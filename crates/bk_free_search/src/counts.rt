//! How many squares a word has, in all and at each side; and bounds of what the search counts.

ghost use Rattle.std.specs.Prelude.{IsTrue, cond, ◌↔◌, ◌≡◌};
ghost use Rattle.bk_layout.specs.Normal.{IsHalf};
ghost use Rattle.bk_free_search.specs.SeenCounts.{seen_counts};

/// How many squares and moves a word has, how many squares hang from the top and stand in its first open segment, and
/// how many lie at each wall.
#[derive(Clone, Copy, Drop)]
pub struct Counts {
    pub squares: u8,
    pub moves: u8,
    pub top: u8,
    pub bottom: u8,
    pub left: u8,
    pub right: u8,
}

impl Counts {
    /// Whether the moves are half of one more than the squares.
    #[inline]
    pub fn is_half(&self) -> bool
        ensures { IsTrue result ↔ IsHalf (seen_counts self.now) }
    {
        2 * usize::from(self.moves) == usize::from(self.squares) + 1
    }
}

/// The largest of the counts of a word, which are bytes.
pub(crate) const LARGEST_COUNT: usize = 255;

/// A bound of each number that is counted over the segments of a board of at most 16 squares.
pub(crate) const FEW: usize = 100;

/// More squares than are ever left, and more than is ever counted with a next move's signs.
pub(crate) const MANY: usize = 1000;

/// One where it holds, else none.
#[inline]
pub(crate) fn one_if(holds: bool) -> usize
    ensures { result ≡ cond holds 1 0 }
{
    usize::from(holds)
}
