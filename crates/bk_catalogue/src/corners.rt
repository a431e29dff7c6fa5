//! A quick test by the squares in the corners.

ghost use Rattle.std.specs.Prelude.{IsTrue, false, ◌+◌, ◌≡◌, ◌⊎◌};
ghost use Rattle.bk_sym.specs.Canonical.{IsCanonical};

use bk_tiling::Tiling;

// Whether no square in a corner is longer than the one in the top left corner, which comes first. Where one is, an
// image has a greater flat list.
pub(crate) fn begins_greatest(tiling: &Tiling) -> bool
    ensures { result ≡ false → IsCanonical tiling.now → ⊥ }
{
    let (width, height) = (tiling.width(), tiling.height());
    let squares = tiling.squares();
    let first = squares[0].s;
    for q in squares {
        if q.s > first && is_at_wall(q.x, q.s, width) && is_at_wall(q.y, q.s, height) {
            return false;
        }
    }
    true
}

// Whether a side that begins at a place begins at 0 or ends at the end.
fn is_at_wall(place: u64, side: u64, end: u64) -> bool
    ensures { IsTrue result → (place ≡ 0) ⊎ (place + side ≡ end) }
{
    place == 0 || (side <= end && place == end - side)
}
