//! The word of a tiling, move by move.

ghost use Rattle.std.specs.Prelude.{IfOk, IsOk, IsTrue, [], count_by, false, filter, length, ◌<◌, ◌≡◌};
ghost use Rattle.std.specs.Prelude.{◌≤◌};
ghost use Rattle.bk_tiling.specs.CodeOrder.{InCodeOrder, comes_before};
ghost use Rattle.bk_tiling.specs.Tiling.{order};
ghost use Rattle.bk_lay.specs.LevelRuns.{IsOutline, begins_under, corner};
ghost use Rattle.bk_tiling.specs.KeptTiling.{IsKept};
ghost use Rattle.bk_word.specs.Word.{Word as Moves};
ghost use Rattle.bk_lay.specs.TilingWord.{IsWordOf};
ghost use Rattle.bk_lay.specs.LaidMoves.{IsLaidMove, IsLaidSoFar, IsLaidTo};

use crate::outline::{LevelRun, Outline};
use bk_tiling::{Square, Tiling};
use bk_word::{INLINE_ORDER, Move, NoMemory, Word};
use std::alloc::Global;
use std::marker::Model;

/// The laying of tilings: one move after the other, and one tiling after the other in the same room.
#[derive(Drop)]
pub struct Laying {
    outline: Outline,
}

impl Model for Laying {
    ghost use Rattle.bk_lay.specs.declared.outline.Outline.{Outline as Laid};

    ghost Value = { Laid };

    ghost view = { λ t. t.outline };
}

impl Laying {
    /// Room for the laying of a tiling: the outline of one column under which nothing is laid.
    pub fn new() -> Laying
        ensures { IsOutline 1 [] result }
    {
        Laying {
            outline: Outline::new(),
        }
    }

    /// Begins a tiling, of which nothing is laid yet.
    pub fn begin(&mut self, tiling: &Tiling)
        ensures laid { IsLaidTo tiling.now [] self.new }
        ensures kept { IsKept tiling.now }
    {
        self.outline.begin(tiling.width());
    }

    /// Lays the squares of the tiling's next move, and says whether there is one. The tiling must be the one that was
    /// begun. The move stands in `m` then and goes on from those before it; where there is none more, these are the
    /// word, and `m` is left as it is. What stood in `m` before says nothing.
    pub fn next_in(&mut self, tiling: &Tiling, m: &mut Move) -> bool
        requires { IsLaidSoFar tiling.now self.old }
        ensures next { IsTrue result → (w : Moves) → IsLaidTo tiling.now w self.old
            → IsLaidMove tiling.now w self.new m.new }
        ensures last { result ≡ false → (w : Moves) → IsLaidTo tiling.now w self.old → IsWordOf tiling.now w }
        ensures same { result ≡ false → m.new ≡ m.old }
    {
        if self.outline.valley.level >= tiling.height() {
            return false;
        }
        lay_next(&mut self.outline, tiling, m);
        true
    }
}

/// The word of a tiling. Its squares are laid valley by valley, always all those under the leftmost valley of what is
/// laid: the leftmost run of columns of one depth whose neighbouring columns are deeper, or are walls. For each valley
/// there is a move: the number of its squares, and the signs between their bottoms and the depths beside the valley,
/// from left to right. There is no memory only where the order is above 16. This word is our own.
pub fn word_of(alloc: Global, tiling: &Tiling) -> Result<Word, NoMemory>
    ensures word { IfOk result (IsWordOf tiling.now) }
    ensures inline { order tiling.now ≤ INLINE_ORDER → IsOk result }
{
    let mut word = Word::new(alloc);
    let mut laying = Laying::new();
    let mut m = Move::empty();
    laying.begin(tiling);
    'moves: while laying.next_in(tiling, &mut m) {
        word.push(&m)?;
    }
    Ok(word)
}

// Lays the squares of the move that follows, and writes the move.
fn lay_next(outline: &mut Outline, tiling: &Tiling, m: &mut Move)
    requires going { IsLaidSoFar tiling.now outline.old }
    requires low { outline.old.valley.level < tiling.now.height }
    ensures { (w : Moves) → IsLaidTo tiling.now w outline.old → IsLaidMove tiling.now w outline.new m.new }
{
    let squares = squares_under(tiling.squares(), outline.valley);
    outline.move_under(squares, m);
    outline.lay(squares);
}

// The squares, in code order, whose tops lie on a run.
fn squares_under(squares: &[Square], run: LevelRun) -> &[Square]
    requires ordered { InCodeOrder squares.now }
    requires order { run.x ≤ run.end }
    ensures { result.now ≡ filter (begins_under run) squares.now }
{
    let first = place_in_order(squares, run.level, run.x);
    let end = place_from(squares, first, run.level, run.end);
    &squares[first..end]
}

// How many squares come before one with this corner, in code order.
fn place_in_order(squares: &[Square], level: u64, x: u64) -> usize
    requires { InCodeOrder squares.now }
    ensures count { result ≡ count_by (λ q. comes_before q (corner x level)) squares.now }
    ensures within { result ≤ length squares.now }
{
    squares.partition_point(|q| is_before(q, level, x))
}

// How many squares come before one with this corner, where so many are known to: the few more that do are gone over one
// by one.
fn place_from(squares: &[Square], known: usize, level: u64, x: u64) -> usize
    requires ordered { InCodeOrder squares.now }
    requires known { known ≤ count_by (λ q. comes_before q (corner x level)) squares.now }
    ensures count { result ≡ count_by (λ q. comes_before q (corner x level)) squares.now }
    ensures within { result ≤ length squares.now }
{
    let mut place = known;
    'squares: while place < squares.len() && is_before(&squares[place], level, x) {
        place += 1;
    }
    place
}

// Whether a square comes before one with this corner, in code order.
fn is_before(q: &Square, level: u64, x: u64) -> bool
    ensures { result ≡ comes_before q.now (corner x level) }
{
    q.y < level || (q.y == level && q.x < x)
}
