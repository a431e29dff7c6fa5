//! Words that are played and taken back move by move.
//!
//! A skeleton keeps the open segments as flat lists: the numbers of all open squares from left to right, how many each
//! segment has, and the signs between the segments. A move changes the lists only at the valley and the segments beside
//! it. The closed squares stand in the order of closing, so that a move's are the last ones when it is taken back. Each
//! list is as long as what is used of it, and nothing is copied but what stands right of the valley.

ghost use Rattle.std.specs.List.{concat, splice};
ghost use Rattle.std.specs.Prelude.{IsTrue, Some, [], length, slice_get, slice_range, take, ◌+◌, ◌++◌, ◌-◌, ◌<◌, ◌∷◌};
ghost use Rattle.std.specs.Prelude.{◌≡◌, ◌≤◌, ◌↔◌};
ghost use Rattle.bk_word.specs.Outline.{IsLegalMove, has_left_wall, has_right_wall, open_side, sizes_of, valley_of};
ghost use Rattle.bk_word.specs.Outline.{valley_place};
ghost use Rattle.bk_word.specs.Play.{IsComplete, numbers_from, outline_of};
ghost use Rattle.bk_word.specs.Word.{Move as SeenMove, order_of};
ghost use Rattle.bk_play.specs.Valley.{IsKeptSkeleton, leftmost_valley};
ghost use Rattle.bk_play.specs.Skeleton.{signs_of};
ghost use Rattle.bk_play.specs.MoveRecords.{SaysWhere};
ghost use Rattle.bk_word_net.specs.WordNet.{net_of_word};
ghost use Rattle.bk_word.specs.declared.TheConstants.{LARGEST_ORDER};

use crate::counting::Steps;
use crate::netting::{end_nodes, wired};
use crate::parting::{apply_signs, undo_signs};
use crate::records::{MoveRecord, leftmost, record_for};
use crate::splicing::{append, splice, splice_numbers};
use arrayvec::ArrayVec;
use bk_net::Net;
use bk_word::{LARGEST_ORDER, Move, Sign};
use std::marker::Model;
use std::sync::ledger::Ledger;

// The most signs that the moves of a skeleton have: each at most one more than squares.
pub(crate) const MOST_PLAYED_SIGNS: usize = 2 * LARGEST_ORDER;

/// The leftmost valley of a skeleton: how many open segments stand at its left, whether it has a wall at its left and
/// at its right, and the numbers of its squares from left to right, in the order of hanging from 1.
#[derive(Drop)]
pub struct Valley {
    pub place: usize,
    pub left_wall: bool,
    pub right_wall: bool,
    pub squares: ArrayVec<u8, LARGEST_ORDER>,
}

impl Model for Valley {
    ghost use Rattle.bk_play.specs.Valley.{Valley as SeenValley};

    ghost Value = { SeenValley };

    ghost view = { λ v. record {
      place = v.place;
      left_wall = v.left_wall;
      right_wall = v.right_wall;
      squares = v.squares.items;
    } };
}

/// A word that is played move by move, seen as the list of its moves: each legal after those before it, of at most 200
/// squares in all. Such words are our own.
#[derive(Drop)]
pub struct Skel {
    ends: ArrayVec<u8, LARGEST_ORDER>,
    sizes: ArrayVec<u8, LARGEST_ORDER>,
    signs: ArrayVec<Sign, LARGEST_ORDER>,
    closed: ArrayVec<u8, LARGEST_ORDER>,
    records: ArrayVec<MoveRecord, LARGEST_ORDER>,
    played: ArrayVec<Sign, MOST_PLAYED_SIGNS>,
}

impl Model for Skel {
    ghost use Rattle.bk_word.specs.Word.{Word as Moves};
    ghost use Rattle.bk_play.specs.Skeleton.{IsStoredSkeleton};
    ghost use Rattle.bk_play.specs.StoredLists.{lists_of, moves_in};

    ghost Value = { Moves };

    ghost view = { λ s. moves_in (lists_of s) };

    ghost invariant = { λ s. IsStoredSkeleton (moves_in (lists_of s)) (lists_of s) };
}

impl Skel {
    /// The skeleton of no move: the whole top is its one segment, without squares, between two walls.
    pub fn new() -> Skel
        ensures { result ≡ [] }
    {
        let mut sizes = ArrayVec::new();
        sizes.push(0);
        Skel {
            ends: ArrayVec::new(),
            sizes,
            signs: ArrayVec::new(),
            closed: ArrayVec::new(),
            records: ArrayVec::new(),
            played: ArrayVec::new(),
        }
    }

    /// Becomes the skeleton of no move.
    pub fn clear(&mut self)
        ensures { self.new ≡ [] }
    {
        *self = Skel::new();
    }

    /// Whether the move may be played: it hangs a square, and has a sign between each two of its squares and one more
    /// for each side of the leftmost valley that is no wall.
    pub fn legal(&self, m: &Move) -> bool
        ensures { IsTrue result ↔ IsLegalMove (outline_of self.now) m.now }
    {
        let (left, right) = self.walls();
        m.count > 0
            && m.signs.len() + 1 == usize::from(m.count) + open_side(left) + open_side(right)
    }

    /// Plays a move, which must be legal, with at most 200 squares then. It is one step.
    pub fn push<L: Ledger>(&mut self, m: &Move, steps: &mut Steps<L>)
        requires legal { IsLegalMove (outline_of self.old) m.now }
        requires few { order_of self.old + m.now.count ≤ LARGEST_ORDER }
        ensures moves { self.new ≡ self.old ++ m.now ∷ [] }
        ensures step { steps.new ≡ steps.old + 1 }
    {
        self.play(m);
        steps.tick();
    }

    /// Plays a move, which must be legal, with at most 200 squares then. It counts no step, so a bound on steps says
    /// nothing of moves that are played so.
    pub fn play(&mut self, m: &Move)
        requires legal { IsLegalMove (outline_of self.old) m.now }
        requires few { order_of self.old + m.now.count ≤ LARGEST_ORDER }
        ensures { self.new ≡ self.old ++ m.now ∷ [] }
    {
        let noted = record_for(
            &self.sizes,
            &self.signs,
            m.count,
            &m.signs,
            self.played.len(),
        );
        close_and_hang(&mut self.ends, &mut self.closed, &noted);
        apply_signs(&mut self.sizes, &mut self.signs, &noted, &m.signs);
        append(&mut self.played, &m.signs);
        self.records.push(noted);
    }

    /// Takes the last move back. There must be one.
    pub fn pop(&mut self)
        requires { 0 < length self.old }
        ensures { self.new ≡ take (length self.old - 1) self.old }
    {
        let noted = take_last(&mut self.records);
        let first = usize::from(noted.first);
        let kept = self.closed.len() - usize::from(noted.closed);
        undo_signs(&mut self.sizes, &mut self.signs, &noted);
        splice(
            &mut self.ends,
            first,
            first + usize::from(noted.count),
            &self.closed[kept..],
        );
        self.closed.truncate(kept);
        self.played.truncate(usize::from(noted.from));
    }

    /// The leftmost valley: the first open segment with a wall or the sign under at its left, and a wall or the sign
    /// above at its right.
    pub fn valley(&self) -> Valley
        ensures { result ≡ leftmost_valley (outline_of self.now) }
    {
        let (place, found) = self.valley_at();
        let mut squares = ArrayVec::new();
        append(&mut squares, found);
        Valley {
            place,
            left_wall: place == 0,
            right_wall: place == self.signs.len(),
            squares,
        }
    }

    /// The numbers of the leftmost valley's squares, from left to right: none at the start.
    pub fn valley_squares(&self) -> &[u8]
        ensures { result.now ≡ valley_of (outline_of self.now) }
    {
        let (_, squares) = self.valley_at();
        squares
    }

    // How many open segments stand at the left of the leftmost valley, and the numbers of its squares.
    fn valley_at(&self) -> (usize, &[u8])
        ensures place { result.0 ≡ valley_place (outline_of self.now).signs }
        ensures squares { result.1.now ≡ valley_of (outline_of self.now) }
        ensures few { length result.1.now ≤ LARGEST_ORDER }
    {
        let (place, first) = leftmost(&self.sizes, &self.signs);
        (
            place,
            &self.ends[first..first + usize::from(self.sizes[place])],
        )
    }

    /// How many open segments stand at the left of the leftmost valley.
    pub fn valley_place(&self) -> usize
        ensures value { result ≡ valley_place (outline_of self.now).signs }
        ensures within { result ≤ length (outline_of self.now).signs }
    {
        let (place, _) = self.valley_at();
        place
    }

    /// Whether the leftmost valley has a wall at its left, and at its right.
    pub fn walls(&self) -> (bool, bool)
        ensures left { result.0 ≡ has_left_wall (outline_of self.now) }
        ensures right { result.1 ≡ has_right_wall (outline_of self.now) }
    {
        let (place, _) = self.valley_at();
        (place == 0, place == self.signs.len())
    }

    /// How many squares the leftmost valley has: none at the start.
    pub fn valley_len(&self) -> usize
        ensures { result ≡ length (valley_of (outline_of self.now)) }
    {
        self.valley_squares().len()
    }

    /// The numbers of the open squares, segment by segment from left to right. Squares are numbered from 1 in the order
    /// of hanging.
    pub fn ends(&self) -> &[u8]
        ensures { result.now ≡ concat (outline_of self.now).segments }
    {
        self.ends.as_slice()
    }

    /// How many squares each open segment has, from left to right.
    pub fn sizes(&self) -> &[u8]
        ensures { result.now ≡ sizes_of (outline_of self.now) }
    {
        self.sizes.as_slice()
    }

    /// The signs between the open segments, from left to right: above or under.
    pub fn signs(&self) -> &[Sign]
        ensures { result.now ≡ (outline_of self.now).signs }
    {
        self.signs.as_slice()
    }

    /// The signs of all moves, one after another.
    pub fn played_signs(&self) -> &[Sign]
        ensures { result.now ≡ signs_of self.now }
    {
        self.played.as_slice()
    }

    /// How many moves there are.
    pub fn moves(&self) -> usize
        ensures value { result ≡ length self.now }
        ensures kept { IsKeptSkeleton self.now }
    {
        self.records.len()
    }

    /// The move at place i, from 0. There must be one.
    pub fn get(&self, i: usize) -> Move
        requires { i < length self.now }
        ensures { slice_get self.now i ≡ Some result }
    {
        let mut m = Move::empty();
        self.read_move(i, &mut m);
        m
    }

    /// Makes of a move the one at place i, from 0, in the room that is there. There must be one at that place.
    pub fn read_move(&self, i: usize, m: &mut Move)
        requires { i < length self.now }
        ensures { slice_get self.now i ≡ Some m.new }
    {
        m.count = self.record_at(i).count;
        m.signs.clear();
        append(&mut m.signs, self.signs_at(i));
    }

    /// How many squares the move at place i, from 0, hangs. There must be one.
    pub fn count_at(&self, i: usize) -> u8
        requires { i < length self.now }
        ensures { (m : SeenMove) → slice_get self.now i ≡ Some m → result ≡ m.count }
    {
        self.record_at(i).count
    }

    /// The signs of the move at place i, from 0. There must be one.
    pub fn signs_at(&self, i: usize) -> &[Sign]
        requires { i < length self.now }
        ensures { (m : SeenMove) → slice_get self.now i ≡ Some m → result.now ≡ m.signs }
    {
        let noted = self.record_at(i);
        &self.played[usize::from(noted.from)..usize::from(noted.to)]
    }

    /// The record of the move at place i, from 0: what is kept of it. There must be one.
    pub fn record_at(&self, i: usize) -> MoveRecord
        requires { i < length self.now }
        ensures { SaysWhere self.now i result }
    {
        self.records[i]
    }

    /// How many squares the moves hang.
    pub fn order(&self) -> usize
        ensures value { result ≡ order_of self.now }
        ensures few { result ≤ LARGEST_ORDER }
    {
        self.ends.len() + self.closed.len()
    }

    /// Whether there is a move and one segment is left: the word of the moves is complete.
    pub fn is_closed(&self) -> bool
        ensures { IsTrue result ↔ IsComplete self.now }
    {
        self.records.len() > 0 && self.sizes.len() == 1
    }

    /// The net of the word, which must be complete: a node for each move, and the last segment as the last node; a wire
    /// for each square in the order of hanging, from the node from which it hangs to the node at which it ends.
    pub fn net(&self) -> Net
        requires { IsComplete self.now }
        ensures { result ≡ net_of_word self.now }
    {
        let ended = end_nodes(&self.records, &self.closed);
        let order = self.ends.len() + self.closed.len();
        wired(&self.records, &ended[..order])
    }
}

/// How many signs a side of a valley asks for: none where `wall` says that it is a wall, else one.
pub fn open_side(wall: bool) -> usize
    ensures { result ≡ open_side wall }
{
    if wall { 0 } else { 1 }
}

// Closes the valley's squares, and hangs those of the move in their place.
#[inline(always)]
fn close_and_hang(
    ends: &mut ArrayVec<u8, LARGEST_ORDER>,
    closed: &mut ArrayVec<u8, LARGEST_ORDER>,
    noted: &MoveRecord,
)
    requires within { noted.now.first + noted.now.closed ≤ length ends.old.items }
    requires few { length ends.old.items + length closed.old.items + noted.now.count ≤ LARGEST_ORDER }
    ensures ends { ends.new.items ≡ splice ends.old.items noted.now.first (noted.now.first + noted.now.closed)
        (numbers_from (length ends.old.items + length closed.old.items + 1) noted.now.count) }
    ensures closed { closed.new.items
        ≡ closed.old.items ++ slice_range ends.old.items noted.now.first (noted.now.first + noted.now.closed) }
{
    let number = (ends.len() + closed.len() + 1) as u8;
    let first = usize::from(noted.first);
    let end = first + usize::from(noted.closed);
    append(closed, &ends[first..end]);
    splice_numbers(ends, first, end, number, noted.count);
}

// Takes the last record off.
fn take_last(records: &mut ArrayVec<MoveRecord, LARGEST_ORDER>) -> MoveRecord
    requires { 0 < length records.old.items }
    ensures { records.old.items ≡ records.new.items ++ result ∷ [] }
{
    match records.pop() {
        Some(noted) => noted,
        None => unreachable!(),
    }
}
