//! Words of at most 16 squares that are played move by move and taken back.
//!
//! A small skeleton keeps the open segments as a skeleton does, in lists that lie in the value itself. Before a move
//! its outline is copied; then the move is taken back by that copy, and what the moves appended is cut off again.

ghost use Rattle.std.specs.List.{concat, splice};
ghost use Rattle.std.specs.Prelude.{IsTrue, [], count_by, filter, length, slice_range, sum, take, ◌+◌, ◌++◌, ◌-◌, ◌<◌};
ghost use Rattle.std.specs.Prelude.{◌∷◌, ◌≡◌, ◌≤◌, ◌↔◌};
ghost use Rattle.bk_word.specs.Outline.{IsLegalMove, has_left_wall, has_right_wall, sizes_of, valley_of};
ghost use Rattle.bk_word.specs.Play.{IsComplete, numbers_from, outline_of, parts};
ghost use Rattle.bk_word.specs.Word.{order_of};
ghost use Rattle.bk_word_net.specs.WordNet.{net_of_word};
ghost use Rattle.bk_play.specs.Skeleton.{GiveWay, first_touched, joined_sizes, open_sides_of_record, sizes_after};
ghost use Rattle.bk_play.specs.Skeleton.{record_of, with_parted};
ghost use Rattle.bk_play.specs.SmallSkeleton.{IsOutlineOf, IsValleyPlace, StandsAt};
ghost use Rattle.bk_play.specs.Valley.{IsKeptSkeleton};
ghost use Rattle.bk_word.specs.declared.TheConstants.{INLINE_ORDER, LARGEST_ORDER};
ghost use Rattle.bk_play.specs.declared.skeleton.TheConstants.{MOST_PLAYED_SIGNS};
ghost use Rattle.bk_play.specs.declared.small.TheConstants.{ROOM};

use crate::netting::{end_nodes, wired};
use crate::parting::size_of_next;
use crate::records::{MoveRecord, leftmost, record_at_valley};
use crate::skeleton::open_side;
use crate::splicing::put_numbers;
use bk_net::Net;
use bk_short::Short;
use bk_word::{INLINE_ORDER, Sign};
use std::marker::Model;

// Twice as many places as a list has items at most: as many lie behind each of its items as are copied at one stroke.
const ROOM: usize = 2 * INLINE_ORDER;

// The moves of a small skeleton have at most 32 signs, each at most one more than squares, and the signs of a move are
// copied behind these.
const SIGNS_ROOM: usize = 2 * INLINE_ORDER + MOST_MOVE_SIGNS;

// The most signs that a move of at most 16 squares has.
const MOST_MOVE_SIGNS: usize = INLINE_ORDER + 1;

// The open segments. They are copied at one stroke.
#[derive(Clone, Copy, Drop)]
struct Open {
    ends: Short<u8, ROOM>,
    sizes: Short<u8, ROOM>,
    signs: Short<Sign, ROOM>,
    // how many of the segments stand at the left of the leftmost valley, and how many squares these have
    place: u8,
    first: u8,
}

/// The outline of a small skeleton, and how many closed squares, moves and signs of moves it keeps: what is needed to
/// take the next move back.
#[derive(Clone, Copy, Drop)]
pub struct SmallOutline {
    open: Open,
    closed: u8,
    records: u8,
    played: u8,
}

/// The place of the leftmost valley among the open segments, and among the open squares the place of its first one and
/// of that behind its last one.
#[derive(Clone, Copy, Drop)]
pub struct ValleyPlace {
    pub place: usize,
    pub start: usize,
    pub end: usize,
}

/// A move of at most 16 squares, which takes little room.
#[derive(Drop)]
pub struct SmallMove {
    pub count: u8,
    pub signs: Short<Sign, MOST_MOVE_SIGNS>,
}

impl Model for SmallMove {
    ghost use Rattle.bk_word.specs.Word.{Move as SeenMove};

    ghost Value = { SeenMove };

    ghost view = { λ m. record { count = m.count; signs = m.signs.items } };
}

/// A word that is played move by move, seen as the list of its moves: each legal after those before it, of at most 16
/// squares in all.
#[derive(Drop)]
pub struct SmallSkel {
    open: Open,
    closed: Short<u8, ROOM>,
    records: Short<MoveRecord, INLINE_ORDER>,
    played: Short<Sign, SIGNS_ROOM>,
}

impl Model for SmallSkel {
    ghost use Rattle.bk_word.specs.Word.{Word as Moves};
    ghost use Rattle.bk_play.specs.SmallSkeleton.{IsStoredSmall};
    ghost use Rattle.bk_play.specs.StoredLists.{moves_in, small_lists_of};

    ghost Value = { Moves };

    ghost view = { λ s. moves_in (small_lists_of s) };

    ghost invariant = { λ s. IsStoredSmall (moves_in (small_lists_of s)) (small_lists_of s) s.open.place s.open.first };
}

impl SmallSkel {
    /// The skeleton of no move: the whole top is its one segment, without squares, between two walls.
    pub fn new() -> SmallSkel
        ensures { result ≡ [] }
    {
        let mut sizes = Short::new();
        sizes.push(0);
        SmallSkel {
            open: Open {
                ends: Short::new(),
                sizes,
                signs: Short::new(),
                place: 0,
                first: 0,
            },
            closed: Short::new(),
            records: Short::new(),
            played: Short::new(),
        }
    }

    /// How the skeleton stands, by which a move that is played now is taken back.
    #[inline(always)]
    pub fn outline(&self) -> SmallOutline
        ensures { IsOutlineOf self.now result }
    {
        SmallOutline {
            open: self.open,
            closed: self.closed.len() as u8,
            records: self.records.len() as u8,
            played: self.played.len() as u8,
        }
    }

    /// Takes the last move back. There must be one, and `before` must be how the skeleton stood before it was played.
    #[inline(always)]
    pub fn take_back(&mut self, before: &SmallOutline)
        requires some { 0 < length self.old }
        requires before { IsOutlineOf (take (length self.old - 1) self.old) before.now }
        ensures { self.new ≡ take (length self.old - 1) self.old }
    {
        self.open = before.open;
        self.closed.truncate(usize::from(before.closed));
        self.records.truncate(usize::from(before.records));
        self.played.truncate(usize::from(before.played));
    }

    /// Whether the move may be played: it hangs a square, and has a sign between each two of its squares and one more
    /// for each side of the leftmost valley that is no wall.
    pub fn legal(&self, m: &SmallMove) -> bool
        ensures { IsTrue result ↔ IsLegalMove (outline_of self.now) m.now }
    {
        let (left, right) = self.walls();
        m.count > 0
            && m.signs.len() + 1 == usize::from(m.count) + open_side(left) + open_side(right)
    }

    /// Plays a move, which must be legal, with at most 16 squares then.
    pub fn play(&mut self, m: &SmallMove)
        requires legal { IsLegalMove (outline_of self.old) m.now }
        requires few { order_of self.old + m.now.count ≤ INLINE_ORDER }
        ensures { self.new ≡ self.old ++ m.now ∷ [] }
    {
        let mut noted = record_in(&self.open, m, self.played.len());
        close_and_hang(&mut self.open.ends, &mut self.closed, &noted);
        noted.parted = part_and_join(
            &mut self.open.sizes,
            &mut self.open.signs,
            &noted,
            m.signs.as_slice(),
        );
        self.played.append(&m.signs);
        self.records.push(noted);
        let (place, first) = find_valley(&self.open);
        self.open.place = place;
        self.open.first = first;
    }

    /// Where the leftmost valley stands.
    pub fn valley_place(&self) -> ValleyPlace
        ensures { IsValleyPlace self.now result }
    {
        let place = usize::from(self.open.place);
        let start = usize::from(self.open.first);
        let size = self.open.sizes.as_slice()[place];
        ValleyPlace {
            place,
            start,
            end: start + usize::from(size),
        }
    }

    /// The numbers of the leftmost valley's squares, from left to right: none at the start.
    pub fn valley_squares(&self) -> &[u8]
        ensures { result.now ≡ valley_of (outline_of self.now) }
    {
        let first = usize::from(self.open.first);
        let size = self.open.sizes.as_slice()[usize::from(self.open.place)];
        &self.open.ends.as_slice()[first..first + usize::from(size)]
    }

    /// Whether the leftmost valley has a wall at its left, and at its right.
    pub fn walls(&self) -> (bool, bool)
        ensures left { result.0 ≡ has_left_wall (outline_of self.now) }
        ensures right { result.1 ≡ has_right_wall (outline_of self.now) }
    {
        let place = usize::from(self.open.place);
        (place == 0, place == self.open.signs.len())
    }

    /// The numbers of the open squares, segment by segment from left to right. Squares are numbered from 1 in the order
    /// of hanging.
    pub fn ends(&self) -> &[u8]
        ensures { result.now ≡ concat (outline_of self.now).segments }
    {
        self.open.ends.as_slice()
    }

    /// How many squares each open segment has, from left to right.
    pub fn sizes(&self) -> &[u8]
        ensures { result.now ≡ sizes_of (outline_of self.now) }
    {
        self.open.sizes.as_slice()
    }

    /// The signs between the open segments, from left to right: above or under.
    pub fn signs(&self) -> &[Sign]
        ensures { result.now ≡ (outline_of self.now).signs }
    {
        self.open.signs.as_slice()
    }

    /// How many moves there are.
    pub fn moves(&self) -> usize
        ensures value { result ≡ length self.now }
        ensures kept { IsKeptSkeleton self.now }
    {
        self.records.len()
    }

    /// How many squares the moves hang.
    pub fn order(&self) -> usize
        ensures value { result ≡ order_of self.now }
        ensures few { result ≤ INLINE_ORDER }
    {
        self.open.ends.len() + self.closed.len()
    }

    /// Whether there is a move and one segment is left: the word of the moves is complete.
    pub fn is_closed(&self) -> bool
        ensures { IsTrue result ↔ IsComplete self.now }
    {
        self.records.len() > 0 && self.open.sizes.len() == 1
    }
}

/// The net of a small skeleton's word, which must be complete: a node for each move, and the last segment as the last
/// node; a wire for each square in the order of hanging, from the node from which it hangs to the node at which it
/// ends.
pub fn small_net(skel: &SmallSkel) -> Net
    requires { IsComplete skel.now }
    ensures { result ≡ net_of_word skel.now }
{
    let ended = end_nodes(skel.records.as_slice(), skel.closed.as_slice());
    let order = skel.open.ends.len() + skel.closed.len();
    wired(skel.records.as_slice(), &ended[..order])
}

// The record of a move where these segments are open, but for how many of the move's signs stay between two segments.
// So many signs of earlier moves are kept.
#[inline(always)]
fn record_in(segments: &Open, m: &SmallMove, from: usize) -> MoveRecord
    requires many { length segments.now.sizes.items ≡ length segments.now.signs.items + 1 }
    requires stands { StandsAt segments.now.sizes.items segments.now.signs.items
        segments.now.place segments.now.first }
    requires first { segments.now.first ≤ LARGEST_ORDER }
    requires from { from ≤ MOST_PLAYED_SIGNS }
    ensures { with_parted result (count_by parts m.now.signs)
        ≡ record_of segments.now.sizes.items segments.now.signs.items m.now from }
{
    record_at_valley(
        segments.sizes.as_slice(),
        segments.signs.as_slice(),
        (usize::from(segments.place), usize::from(segments.first)),
        m.count,
        (from, m.signs.len()),
    )
}

// Closes the valley's squares, and hangs those of the move in their place.
#[inline(always)]
fn close_and_hang(ends: &mut Short<u8, ROOM>, closed: &mut Short<u8, ROOM>, noted: &MoveRecord)
    requires within { noted.now.first + noted.now.closed ≤ length ends.old.items }
    requires few { length ends.old.items + length closed.old.items + noted.now.count ≤ INLINE_ORDER }
    ensures ends { ends.new.items ≡ splice ends.old.items noted.now.first (noted.now.first + noted.now.closed)
        (numbers_from (length ends.old.items + length closed.old.items + 1) noted.now.count) }
    ensures closed { closed.new.items
        ≡ closed.old.items ++ slice_range ends.old.items noted.now.first (noted.now.first + noted.now.closed) }
{
    let number = (ends.len() + closed.len() + 1) as u8;
    let first = usize::from(noted.first);
    let end = first + usize::from(noted.closed);
    let valley: Short<u8, INLINE_ORDER> = ends.part(first, end);
    closed.append(&valley);
    hang(ends, first, end, number, noted.count);
}

// Where the leftmost of the valleys stands: how many segments stand at its left, and how many squares these have.
#[inline(always)]
fn find_valley(segments: &Open) -> (u8, u8)
    requires many { length segments.now.sizes.items ≡ length segments.now.signs.items + 1 }
    requires small { sum segments.now.sizes.items ≤ LARGEST_ORDER }
    ensures { StandsAt segments.now.sizes.items segments.now.signs.items result.0 result.1 }
{
    let (place, first) = leftmost(segments.sizes.as_slice(), segments.signs.as_slice());
    (place as u8, first as u8)
}

// Puts so many numbers, from a first one on, in the place of the open squares from one place up to another.
#[inline]
fn hang(ends: &mut Short<u8, ROOM>, start: usize, end: usize, first: u8, count: u8)
    requires order { start ≤ end }
    requires within { end ≤ length ends.old.items }
    requires few { length ends.old.items ≤ INLINE_ORDER }
    requires fits { length ends.old.items - (end - start) + count ≤ INLINE_ORDER }
    requires small { first + INLINE_ORDER ≤ 255 }
    ensures { ends.new.items ≡ splice ends.old.items start end (numbers_from first count) }
{
    let behind: Short<u8, INLINE_ORDER> = ends.part(end, ends.len());
    ends.truncate(start);
    ends.append(&numbers(first, count));
    ends.append(&behind);
}

// So many numbers from a first one on.
#[inline]
fn numbers(first: u8, count: u8) -> Short<u8, INLINE_ORDER>
    requires few { count ≤ INLINE_ORDER }
    requires small { first + INLINE_ORDER ≤ 255 }
    ensures { result.items ≡ numbers_from first count }
{
    let mut room = [0; INLINE_ORDER];
    put_numbers(&mut room, first);
    Short::of(room, usize::from(count))
}

// Joins and parts the segments that a move touches: the new sizes and signs stand in the place of theirs. So many of
// the move's signs stay as the result says.
#[inline]
fn part_and_join(
    sizes: &mut Short<u8, ROOM>,
    signs: &mut Short<Sign, ROOM>,
    noted: &MoveRecord,
    moved: &[Sign],
) -> u8
    requires room { GiveWay INLINE_ORDER (record {
      start = first_touched noted.now;
      old = open_sides_of_record noted.now;
      new = count_by parts moved.now;
    }) sizes.old.items signs.old.items }
    requires sizes_few { length sizes.old.items ≤ INLINE_ORDER }
    requires signs_few { length signs.old.items ≤ INLINE_ORDER }
    requires small { noted.now.left + length moved.now + noted.now.right ≤ 253 }
    ensures sizes { sizes.new.items ≡ splice sizes.old.items (first_touched noted.now)
        (first_touched noted.now + (open_sides_of_record noted.now + 1)) (sizes_after noted.now moved.now) }
    ensures signs { signs.new.items ≡ splice signs.old.items (first_touched noted.now)
        (first_touched noted.now + open_sides_of_record noted.now) (filter parts moved.now) }
    ensures parted { result ≡ count_by parts moved.now }
{
    let start = noted.first_touched();
    let end = start + noted.open_sides();
    let sizes_behind: Short<u8, INLINE_ORDER> = sizes.part(end + 1, sizes.len());
    let signs_behind: Short<Sign, INLINE_ORDER> = signs.part(end, signs.len());
    sizes.truncate(start);
    signs.truncate(start);
    push_parted(sizes, signs, moved, noted.left.max(1), noted.right.max(1));
    let parted = (signs.len() - start) as u8;
    sizes.append(&sizes_behind);
    signs.append(&signs_behind);
    parted
}

// Appends the sizes of segments that the signs join or part, and the signs that stay between them.
#[inline]
fn push_parted(
    sizes: &mut Short<u8, ROOM>,
    signs: &mut Short<Sign, ROOM>,
    moved: &[Sign],
    first: u8,
    last: u8,
)
    requires sizes_fit { length sizes.old.items + count_by parts moved.now < ROOM }
    requires signs_fit { length signs.old.items + count_by parts moved.now ≤ ROOM }
    requires small { first + length moved.now + last < 256 }
    ensures sizes { sizes.new.items ≡ sizes.old.items ++ joined_sizes first last moved.now }
    ensures signs { signs.new.items ≡ signs.old.items ++ filter parts moved.now }
{
    let mut size = first;
    for (i, sign) in moved.iter().enumerate() {
        let next = size_of_next(i + 1 == moved.len(), last);
        if sign.parts() {
            sizes.push(size);
            signs.push(*sign);
            size = next;
        } else {
            size += next;
        }
    }
    sizes.push(size);
}
