//! Words that are played by the search, with the lines at the left and the right of their squares.
#![tactic(auto)]

ghost use Rattle.std.specs.Prelude.{IsTrue, [], cond, length, nat_eq, take, ℕ, ◌++◌, ◌+◌, ◌-◌, ◌<◌, ◌∷◌, ◌≡◌, ◌≤◌};
ghost use Rattle.bk_word.specs.Outline.{IsLegalMove};
ghost use Rattle.bk_word.specs.Play.{IsLegal, outline_of};
ghost use Rattle.bk_word.specs.Word.{order_of};
ghost use Rattle.bk_layout.specs.BeforeNextMove.{left_squares_then, right_squares_then};
ghost use Rattle.bk_layout.specs.LineNumbers.{left_end, lefts_of, right_end, square_lines};
ghost use Rattle.bk_free_search.specs.BoardOutlines.{IsBoardOutline};
ghost use Rattle.bk_free_search.specs.Joining.{TouchOneOf};
ghost use Rattle.bk_free_search.specs.NodeLines.{Has, IsLineOfOne};
ghost use Rattle.bk_layout.specs.WordNumbers.{counts_of_word, first_count};
ghost use Rattle.bk_free_search.specs.Rights.{rights_of};
ghost use Rattle.bk_free_search.specs.SeenCounts.{seen_counts};
ghost use Rattle.bk_free_search.specs.TopLines.{AreSquares};
ghost use Rattle.bk_free_search.specs.declared.counts.TheConstants.{LARGEST_COUNT};
ghost use Rattle.bk_free_search.specs.declared.line_set.TheConstants.{MOST_LINES};
ghost use Rattle.bk_word.specs.declared.TheConstants.{INLINE_ORDER};

use crate::counts::{Counts, one_if};
use crate::line_set::{LEFT_WALL, LineSet, RIGHT_WALL};
use crate::node_lines::{NewSquares, has_pair, node_lines};
use crate::sides::{left_of_first, lines_of, push_lefts, push_rights, right_of_last};
use bk_play::{SmallMove, SmallOutline, SmallSkel};
use bk_short::Short;
use bk_word::INLINE_ORDER;
use std::marker::Model;

/// A skeleton of at most 16 squares, of each of its squares the numbers of the lines at its left and its right edge, of
/// each closed node the lines that it touches, how many squares the first move hangs, and how many lie at each wall.
/// Line 0 is the left wall, 1 the right one, and k + 2 that between the square at place k, in the order of hanging from
/// 0, and the next of its move. It is seen as the list of its moves.
#[derive(Drop)]
pub struct Board {
    skel: SmallSkel,
    lefts: Short<u8, INLINE_ORDER>,
    rights: Short<u8, INLINE_ORDER>,
    nodes: Short<LineSet, INLINE_ORDER>,
    first: u8,
    left: u8,
    right: u8,
}

/// How a board stands before a move, by which that move is taken back. It is copied at one stroke.
#[derive(Clone, Copy, Drop)]
pub(crate) struct BoardOutline {
    skel: SmallOutline,
    first: u8,
    left: u8,
    right: u8,
}

impl Model for Board {
    ghost use Rattle.bk_word.specs.Word.{Word as Moves};
    ghost use Rattle.bk_free_search.specs.Boards.{IsBoardOf};

    ghost Value = { Moves };

    ghost view = { λ s. s.skel };

    ghost invariant = { λ s. IsBoardOf s.skel (record {
      lefts = s.lefts.items;
      rights = s.rights.items;
      nodes = s.nodes.items;
      first = s.first;
      left = s.left;
      right = s.right;
    }) };
}

impl Board {
    /// The board of no move.
    pub fn new() -> Board
        ensures { result ≡ [] }
    {
        Board {
            skel: SmallSkel::new(),
            lefts: Short::new(),
            rights: Short::new(),
            nodes: Short::new(),
            first: 0,
            left: 0,
            right: 0,
        }
    }

    /// How the board stands, by which a move that is played now is taken back.
    #[inline(always)]
    pub(crate) fn outline(&self) -> BoardOutline
        ensures { IsBoardOutline self.now result }
    {
        BoardOutline {
            skel: self.skel.outline(),
            first: self.first,
            left: self.left,
            right: self.right,
        }
    }

    /// Takes the last move back, before which the board stood like this. There must be one.
    #[inline(always)]
    pub(crate) fn take_back(&mut self, before: &BoardOutline)
        requires some { 0 < length self.old }
        requires before { IsBoardOutline (take (length self.old - 1) self.old) before.now }
        ensures { self.new ≡ take (length self.old - 1) self.old }
    {
        self.skel.take_back(&before.skel);
        self.lefts.truncate(self.skel.order());
        self.rights.truncate(self.skel.order());
        self.nodes.truncate(self.skel.moves());
        self.first = before.first;
        self.left = before.left;
        self.right = before.right;
    }

    /// The skeleton, for reading.
    pub fn skel(&self) -> &SmallSkel
        ensures value { result.now ≡ self.now }
        ensures legal { IsLegal result.now }
    {
        &self.skel
    }

    /// The number of the line at the left edge of each square, in the order of hanging.
    pub fn lefts(&self) -> &[u8]
        ensures { result.now ≡ lefts_of self.now }
    {
        self.lefts.as_slice()
    }

    /// How many squares the first move hangs: none where there is no move.
    pub(crate) fn first(&self) -> u8
        ensures { result ≡ first_count self.now }
    {
        self.first
    }

    /// How many squares and moves there are, and how many squares hang from the top, stand in the first open segment,
    /// which is the last one of a complete word, and lie at each wall.
    pub fn counts(&self) -> Counts
        ensures { seen_counts result ≡ counts_of_word self.now }
    {
        Counts {
            squares: self.skel.order() as u8,
            moves: self.skel.moves() as u8,
            top: self.first,
            bottom: self.skel.sizes()[0],
            left: self.left,
            right: self.right,
        }
    }

    /// How many squares lie at the left wall and at the right one after the next move, which hangs one at each wall
    /// that stands beside the leftmost valley.
    pub(crate) fn at_walls_then(&self) -> (usize, usize)
        ensures left { result.0 ≡ left_squares_then self.now }
        ensures right { result.1 ≡ right_squares_then self.now }
        ensures few { (result.0 ≤ LARGEST_COUNT + 1) × (result.1 ≤ LARGEST_COUNT + 1) }
    {
        let (left_wall, right_wall) = self.skel.walls();
        let left = usize::from(self.left);
        let right = usize::from(self.right);
        (left + one_if(left_wall), right + one_if(right_wall))
    }

    /// The lines at the left of the squares of these numbers, from 1.
    pub(crate) fn lines_left_of(&self, squares: &[u8]) -> LineSet
        requires { AreSquares squares.now (order_of self.now) }
        ensures { (line : ℕ) → Has result line → IsLineOfOne (lefts_of self.now) squares.now 0 line }
    {
        lines_of(self.lefts.as_slice(), squares)
    }

    /// The lines at the right of the squares of these numbers, from 1.
    pub(crate) fn lines_right_of(&self, squares: &[u8]) -> LineSet
        requires { AreSquares squares.now (order_of self.now) }
        ensures { (line : ℕ) → Has result line → IsLineOfOne (rights_of self.now) squares.now 1 line }
    {
        lines_of(self.rights.as_slice(), squares)
    }

    /// The line at the left of the first of these squares: the left wall where there are none.
    pub(crate) fn left_end(&self, squares: &[u8]) -> u8
        requires { AreSquares squares.now (order_of self.now) }
        ensures value { result ≡ left_end (square_lines self.now) squares.now }
        ensures low { result < MOST_LINES }
    {
        left_of_first(self.lefts.as_slice(), squares)
    }

    /// The line at the right of the last of these squares: the right wall where there are none.
    pub(crate) fn right_end(&self, squares: &[u8]) -> u8
        requires { AreSquares squares.now (order_of self.now) }
        ensures value { result ≡ right_end (square_lines self.now) squares.now }
        ensures low { result < MOST_LINES }
    {
        right_of_last(self.rights.as_slice(), squares)
    }

    /// Whether one closed node touches a line of the first set and a line of the second one, and these two lines aren't
    /// the two walls.
    pub(crate) fn touch_one(&self, lefts: LineSet, rights: LineSet) -> bool
        ensures { IsTrue result → TouchOneOf self.now lefts rights }
    {
        has_pair(self.nodes.as_slice(), lefts, rights)
    }

    /// Plays a move, which must be legal, with at most 16 squares then.
    pub fn play(&mut self, m: &SmallMove)
        requires legal { IsLegalMove (outline_of self.old) m.now }
        requires few { order_of self.old + m.now.count ≤ INLINE_ORDER }
        ensures { self.new ≡ self.old ++ m.now ∷ [] }
    {
        let squares = self.skel.valley_squares();
        let first = left_of_first(self.lefts.as_slice(), squares);
        let last = right_of_last(self.rights.as_slice(), squares);
        let behind = self.skel.order() as u8;
        push_lefts(&mut self.lefts, first, behind, m.count);
        push_rights(&mut self.rights, last, behind, m.count);
        let new = NewSquares {
            hung: behind,
            count: m.count,
            first,
            last,
        };
        let lines = node_lines(self.lefts.as_slice(), self.rights.as_slice(), squares, &new);
        self.nodes.push(lines);
        self.first = first_after(self.first, behind, m.count);
        self.left = at_wall_after(self.left, first, LEFT_WALL);
        self.right = at_wall_after(self.right, last, RIGHT_WALL);
        self.skel.play(m);
    }
}

// How many squares the first move hangs: this move's `count` if none was hung before, else as many as before.
fn first_after(first: u8, hung: u8, count: u8) -> u8
    ensures { result ≡ cond (nat_eq hung 0) count first }
{
    if hung == 0 { count } else { first }
}

// How many squares lie at a wall, which is this line, after a move whose square nearest to it lies at a line.
fn at_wall_after(hung: u8, line: u8, wall: u8) -> u8
    requires { hung < LARGEST_COUNT }
    ensures { result ≡ hung + cond (nat_eq line wall) 1 0 }
{
    if line == wall { hung + 1 } else { hung }
}
