//! The candidate of a complete word.

ghost use Rattle.std.specs.Prelude.{IsTrue, List, length, pos, slice_index_or, ℕ, ◌<◌, ◌^◌, ◌≡◌, ◌≤◌};
ghost use Rattle.bk_tiling.specs.Scale.{IsPrimitiveTiling};
ghost use Rattle.bk_tiling.specs.Tiling.{Tiling as Tiled};
ghost use Rattle.bk_tiling.specs.declared.Square.{Square as PlacedSquare};
ghost use Rattle.bk_word.specs.Play.{IsComplete};
ghost use Rattle.bk_word.specs.Word.{order_of};
ghost use Rattle.bk_found.specs.Candidate.{placed_square};
ghost use Rattle.bk_layout.specs.LineNumbers.{lefts_of};
ghost use Rattle.bk_found.specs.Placing.{IsPlacedAt, IsSmallNumber};
ghost use Rattle.bk_found.specs.CandidateLines.{candidate_lines};
ghost use Rattle.bk_found.specs.ToldCorners.{AreLongest, AreLongestTold};
ghost use Rattle.bk_found.specs.declared.corners.Longest.{Longest};
ghost use Rattle.bk_found.specs.Found.{IsFound};
ghost use Rattle.bk_found.specs.Ties.{AreTiesOf};
ghost use Rattle.bk_layout.specs.Normal.{Counts};
ghost use Rattle.bk_layout.specs.NormalImage.{AreCornersSettled, IsMetByNormalWord};
ghost use Rattle.bk_layout.specs.WordNumbers.{counts_of_word};
ghost use Rattle.bk_catalogue.specs.Catalogue.{IsOfClass};
ghost use Rattle.bk_word.specs.declared.TheConstants.{INLINE_ORDER};

use crate::class::class_allows;
use crate::corners::longest_in_corners;
use crate::levels::{levels_of, line_place, rights_of};
use crate::lines::Candidate;
use crate::ties::{Ties, corners_allow};
use arrayvec::ArrayVec;
use bk_flow::narrow_flow;
use bk_play::{SmallSkel, small_net};
use bk_tiling::Square;
use bk_word::{Class, INLINE_ORDER};

/// Squares that were placed in a rectangle, in the order in which a word hangs them. Whether they tile it isn't known.
#[derive(Drop)]
pub struct Placed {
    /// How many columns the rectangle has.
    pub width: u64,
    /// How many levels it has.
    pub height: u64,
    /// The squares.
    pub squares: ArrayVec<Square, INLINE_ORDER>,
}

/// The candidate of a complete word, which hangs at most 16 squares. They are placed by the one flow of the word's net
/// and by the lines at their left, whose numbers `lefts` has, as a board has them. Each tiling in lowest terms, of the
/// class, which is met by the word is found. A tie that is said must hold: then images that lose by their corners are
/// passed over.
pub fn candidate_of(skel: &SmallSkel, lefts: &[u8], ties: Ties, class: Class) -> Option<Placed>
    requires complete { IsComplete skel.now }
    requires few { order_of skel.now ≤ INLINE_ORDER }
    requires lefts { lefts.now ≡ lefts_of skel.now }
    requires ties { AreTiesOf (counts_of_word skel.now) ties }
    ensures { (t : Tiled) → IsMetByNormalWord t skel.now → IsPrimitiveTiling t → IsOfClass class t → IsFound t result }
{
    let net = small_net(skel);
    let wires = net.wires();
    let flow = narrow_flow(&net);
    let (total, currents) = (flow.total(), flow.currents());
    if has_zero(currents) {
        return None;
    }
    if !class_allows(currents, class) {
        return None;
    }
    let levels = levels_of(wires, currents);
    let nodes = net.nodes();
    let width = total.unsigned_abs();
    let height = levels[usize::from(nodes) - 1].unsigned_abs();
    let rights = rights_of(lefts, currents, total);
    let candidate = Candidate {
        wires,
        currents,
        lefts,
        rights: rights.as_slice(),
        levels: &levels,
        total,
        last: nodes - 1,
    };
    if loses_by_corners(&candidate, width, height, ties) {
        return None;
    }
    Some(Placed {
        width,
        height,
        squares: squares_at(&candidate),
    })
}

// Whether the corners tell, where counts tie, that another image than the candidate is met.
fn loses_by_corners(candidate: &Candidate, width: u64, height: u64, ties: Ties) -> bool
    ensures { IsTrue result → (most : Longest)
        × AreLongestTold (candidate_lines candidate.now) (length candidate.now.wires.now) most
        × ((c : Counts) (squares : List PlacedSquare) → AreTiesOf c ties → AreLongest width height squares most
        → AreCornersSettled c width height squares → ⊥) }
{
    if !ties.any() {
        return false;
    }
    !corners_allow(&longest_in_corners(candidate), width, height, ties)
}

// Whether some current is 0: then no tiling has the flow.
fn has_zero(currents: &[i64]) -> bool
    ensures { IsTrue result → (k : ℕ) × (k < length currents.now) × (slice_index_or currents.now k (pos 1) ≡ pos 0) }
{
    currents.iter().any(|current| *current == 0)
}

// The squares between their lines and between the levels of their nodes.
fn squares_at(candidate: &Candidate) -> ArrayVec<Square, INLINE_ORDER>
    ensures many { length result.items ≡ length candidate.now.lefts.now }
    ensures each { (k : ℕ) → k < length candidate.now.lefts.now
        → IsPlacedAt (candidate_lines candidate.now) candidate.now.levels.now k
        (slice_index_or result.items k (record { x = 0; y = 0; s = 0 })) }
{
    let (lefts, wires, currents) = (candidate.lefts, candidate.wires, candidate.currents);
    let (levels, rights, total) = (candidate.levels, candidate.rights, candidate.total);
    let mut squares = ArrayVec::new();
    for k in 0..lefts.len() {
        let (from, to) = wires[k];
        let left = line_place(lefts[k], rights, total);
        squares.push(square_between(
            left,
            rights[k],
            levels[usize::from(from)],
            levels[usize::from(to)],
            currents[k],
        ));
    }
    squares
}

// The square between these lines and these levels, reversed where its current is negative.
fn square_between(left: i64, right: i64, above: i64, below: i64, current: i64) -> Square
    requires left { IsSmallNumber (2 ^ 40) left }
    requires right { IsSmallNumber (2 ^ 40) right }
    requires above { IsSmallNumber (2 ^ 40) above }
    requires below { IsSmallNumber (2 ^ 40) below }
    requires current { IsSmallNumber (2 ^ 40) current }
    ensures { result ≡ placed_square left right above below current }
{
    let (x, y) = if current < 0 {
        (right, below)
    } else {
        (left, above)
    };
    Square {
        x: x.unsigned_abs(),
        y: y.unsigned_abs(),
        s: current.unsigned_abs(),
    }
}
