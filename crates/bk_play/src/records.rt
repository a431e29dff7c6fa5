//! The record of a move, by which it is taken back.

ghost use Rattle.std.specs.Prelude.{List, cond, count_by, false, length, slice_index, sum, take, ◌+◌, ◌<◌, ◌≡◌};
ghost use Rattle.std.specs.Prelude.{◌≤◌};
ghost use Rattle.bk_word.specs.Outline.{valley_place};
ghost use Rattle.bk_word.specs.Play.{parts};
ghost use Rattle.bk_play.specs.Skeleton.{first_touched, open_sides_of_record, record_of, with_parted};
ghost use Rattle.bk_word.specs.declared.Sign.{Sign as SeenSign};
ghost use Rattle.bk_word.specs.declared.TheConstants.{LARGEST_ORDER, MOST_SIGNS};
ghost use Rattle.bk_play.specs.declared.skeleton.TheConstants.{MOST_PLAYED_SIGNS};

use bk_word::Sign;

/// What is kept of a move: where its valley stood, what stood there and beside it, what was hung, and which of the
/// signs of all moves are its own.
#[derive(Clone, Copy, Default, Drop)]
pub struct MoveRecord {
    /// How many open segments stood at the valley's left.
    pub place: u8,
    /// How many open squares stood there.
    pub first: u8,
    /// How many squares the segment left of the valley had, or 0 at the wall.
    pub left: u8,
    /// How many squares the valley had.
    pub closed: u8,
    /// How many squares the segment right of the valley had, or 0 at the wall.
    pub right: u8,
    /// How many squares were hung.
    pub count: u8,
    /// How many of the move's signs stay between two segments.
    pub parted: u8,
    /// Where the move's signs begin and end among those of all moves.
    pub from: u16,
    pub to: u16,
}

impl MoveRecord {
    // The place of the first segment that the move touches: the one left of the valley, or the valley at the wall.
    pub(crate) fn first_touched(&self) -> usize
        ensures { result ≡ first_touched self.now }
    {
        usize::from(self.place.saturating_sub(self.left.min(1)))
    }

    // How many of the valley's sides are no walls.
    pub(crate) fn open_sides(&self) -> usize
        ensures { result ≡ open_sides_of_record self.now }
    {
        usize::from(self.left.min(1) + self.right.min(1))
    }
}

// The record of a move of `count` squares with these signs, where the open segments have these sizes and signs, and
// `from` signs of earlier moves are kept.
pub(crate) fn record_for(
    sizes: &[u8],
    signs: &[Sign],
    count: u8,
    moved: &[Sign],
    from: usize,
) -> MoveRecord
    requires many { length sizes.now ≡ length signs.now + 1 }
    requires few { length sizes.now ≤ LARGEST_ORDER }
    requires small { sum sizes.now ≤ LARGEST_ORDER }
    requires moved { length moved.now ≤ MOST_SIGNS }
    requires from { from ≤ MOST_PLAYED_SIGNS }
    ensures { result ≡ record_of sizes.now signs.now (record { count = count; signs = moved.now }) from }
{
    let valley = leftmost(sizes, signs);
    let mut noted = record_at_valley(sizes, signs, valley, count, (from, moved.len()));
    noted.parted = parting(moved) as u8;
    noted
}

// The record of a move but for how many of its signs stay between two segments. The valley is given by its place among
// the open segments and by how many squares those at its left have; the move's own signs by how many signs of earlier
// moves are kept, and how many the move has.
pub(crate) fn record_at_valley(
    sizes: &[u8],
    signs: &[Sign],
    valley: (usize, usize),
    count: u8,
    own: (usize, usize),
) -> MoveRecord
    requires many { length sizes.now ≡ length signs.now + 1 }
    requires place { valley.0 ≡ valley_place signs.now }
    requires within { valley.0 ≤ length signs.now }
    requires first { valley.1 ≡ sum (take (valley_place signs.now) sizes.now) }
    requires first_few { valley.1 ≤ LARGEST_ORDER }
    requires few { length sizes.now ≤ LARGEST_ORDER }
    requires moved { own.1 ≤ MOST_SIGNS }
    requires from { own.0 ≤ MOST_PLAYED_SIGNS }
    ensures { (moved : List SeenSign) → length moved ≡ own.1
        → with_parted result (count_by parts moved)
        ≡ record_of sizes.now signs.now (record { count = count; signs = moved }) own.0 }
{
    let (place, first) = valley;
    let (from, many) = own;
    MoveRecord {
        place: place as u8,
        first: first as u8,
        left: beside(sizes, place == 0, place.saturating_sub(1)),
        closed: sizes[place],
        right: beside(sizes, place == signs.len(), place + 1),
        count,
        parted: 0,
        from: from as u16,
        to: (from + many) as u16,
    }
}

// How many open segments stand at the left of the leftmost valley, and how many squares these have.
pub(crate) fn leftmost(sizes: &[u8], signs: &[Sign]) -> (usize, usize)
    requires many { length sizes.now ≡ length signs.now + 1 }
    requires small { sum sizes.now ≤ LARGEST_ORDER }
    ensures place { result.0 ≡ valley_place signs.now }
    ensures within { result.0 ≤ length signs.now }
    ensures first { result.1 ≡ sum (take (valley_place signs.now) sizes.now) }
    ensures few { result.1 ≤ LARGEST_ORDER }
{
    let mut first = 0;
    for (i, sign) in signs.iter().enumerate() {
        if let Sign::Above = sign {
            return (i, first);
        }
        first += usize::from(sizes[i]);
    }
    (signs.len(), first)
}

// How many squares the segment at a place beside a valley has, or 0 at the wall.
fn beside(sizes: &[u8], wall: bool, place: usize) -> u8
    requires { wall ≡ false → place < length sizes.now }
    ensures { result ≡ cond wall 0 (slice_index sizes.now place) }
{
    if wall { 0 } else { sizes[place] }
}

// How many of the signs stay between two segments.
fn parting(moved: &[Sign]) -> usize
    ensures { result ≡ count_by parts moved.now }
{
    moved.iter().filter(|sign| sign.parts()).count()
}
