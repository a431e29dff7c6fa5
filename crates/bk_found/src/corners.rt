//! The longest squares in the corners, told by wires and lines before any square is placed.

ghost use Rattle.std.specs.Prelude.{cond, length, max, ◌≡◌};
ghost use Rattle.bk_found.specs.CandidateLines.{candidate_lines};
ghost use Rattle.bk_found.specs.ToldCorners.{AreLongestTold, in_bottom_corner, in_left_corner, in_right_corner};
ghost use Rattle.bk_found.specs.ToldCorners.{in_top_corner};

use crate::levels::line_place;
use crate::lines::Candidate;

// The longest side of the squares in the corners at each side of a rectangle.
#[derive(Clone, Copy, Drop)]
pub(crate) struct Longest {
    pub(crate) top: u64,
    pub(crate) bottom: u64,
    pub(crate) left: u64,
    pub(crate) right: u64,
}

// Which sides of a rectangle a square touches.
#[derive(Drop)]
pub(crate) struct Contact {
    pub(crate) top: bool,
    pub(crate) bottom: bool,
    pub(crate) left: bool,
    pub(crate) right: bool,
}

// The longest in the corners, of squares that hang from node 0 or end on the last node. No other one lies in a corner.
pub(crate) fn longest_in_corners(candidate: &Candidate) -> Longest
    ensures { AreLongestTold (candidate_lines candidate.now) (length candidate.now.wires.now) result }
{
    let (wires, currents) = (candidate.wires, candidate.currents);
    let (lefts, rights) = (candidate.lefts, candidate.rights);
    let (total, last) = (candidate.total, candidate.last);
    let width = total.unsigned_abs();
    let mut longest = Longest {
        top: 0,
        bottom: 0,
        left: 0,
        right: 0,
    };
    'squares: for (i, (from, to)) in wires.iter().enumerate() {
        let (top, bottom) = (*from == 0, *to == last);
        if top || bottom {
            let left = line_place(lefts[i], rights, total).unsigned_abs() == 0;
            let right = rights[i].unsigned_abs() == width;
            let contact = Contact {
                top,
                bottom,
                left,
                right,
            };
            longest = with_square(longest, contact, currents[i].unsigned_abs());
        }
    }
    longest
}

// The longest with one square more, of this side.
fn with_square(longest: Longest, contact: Contact, side: u64) -> Longest
    ensures top { result.top ≡ max longest.top (cond (in_top_corner contact) side 0) }
    ensures bottom { result.bottom ≡ max longest.bottom (cond (in_bottom_corner contact) side 0) }
    ensures left { result.left ≡ max longest.left (cond (in_left_corner contact) side 0) }
    ensures right { result.right ≡ max longest.right (cond (in_right_corner contact) side 0) }
{
    let across = contact.left || contact.right;
    let down = contact.top || contact.bottom;
    Longest {
        top: longer_if_counted(longest.top, contact.top && across, side),
        bottom: longer_if_counted(longest.bottom, contact.bottom && across, side),
        left: longer_if_counted(longest.left, contact.left && down, side),
        right: longer_if_counted(longest.right, contact.right && down, side),
    }
}

// The longer of two sides, if the second one counts.
fn longer_if_counted(side: u64, counts: bool, other: u64) -> u64
    ensures { result ≡ max side (cond counts other 0) }
{
    if counts && other > side { other } else { side }
}
