//! Which move comes next at a state. A walk of the orders up to 16 meets moves of at most 17 squares and 18 signs.
#![tactic(auto)]

ghost use Rattle.std.specs.Prelude.{IsTrue, None, Some, [], false, length, ◌+◌, ◌<◌, ◌≡◌, ◌≤◌};
ghost use Rattle.bk_catalogue.specs.NextMove.{fitted, first_move as first_of_all, move_after, padded, signs_after};
ghost use Rattle.bk_walk_cuts.specs.MoveCuts.{passed};
ghost use Rattle.bk_word.specs.declared.TheConstants.{LARGEST_LISTED_ORDER};

use arrayvec::ArrayVec;
use bk_word::{MOST_SIGNS, Move, Sign};

/// The move that no legal one is before: of one square, without signs.
pub fn first_move() -> Move
    ensures { result ≡ first_of_all }
{
    Move {
        count: 1,
        signs: ArrayVec::new(),
    }
}

/// Makes of a move the one that no legal one is before, in the room that is there.
pub fn begin_anew(m: &mut Move)
    ensures { m.new ≡ first_of_all }
{
    m.count = 1;
    m.signs.clear();
}

// Makes of the signs those that are next after all that begin with them: raises the last that isn't under, and drops
// those behind it. Where all are under, it drops all and answers false.
fn raise(signs: &mut ArrayVec<Sign, MOST_SIGNS>) -> bool
    requires { length signs.old.items ≤ LARGEST_LISTED_ORDER + 2 }
    ensures raised { IsTrue result → signs_after signs.old.items ≡ Some signs.new.items }
    ensures none { result ≡ false → signs_after signs.old.items ≡ None }
    ensures empty { result ≡ false → signs.new.items ≡ [] }
{
    'signs: while let Some(sign) = signs.pop() {
        match sign {
            Sign::Above => {
                signs.push(Sign::Even);
                return true;
            }
            Sign::Even => {
                signs.push(Sign::Under);
                return true;
            }
            Sign::Under => {}
        }
    }
    false
}

/// Makes of `m` the move that is next after all of its count whose signs begin with its own. It must have at most 17
/// squares and 18 signs.
pub fn next_move(m: &mut Move)
    requires count { m.old.count ≤ LARGEST_LISTED_ORDER + 1 }
    requires signs { length m.old.signs ≤ LARGEST_LISTED_ORDER + 2 }
    ensures { m.new ≡ move_after m.old }
{
    if !raise(&mut m.signs) {
        m.count += 1;
    }
}

// Makes of the move the next after all of its count that begin with so many of its signs.
pub(crate) fn pass(m: &mut Move, kept: usize)
    requires count { m.old.count ≤ LARGEST_LISTED_ORDER + 1 }
    requires signs { length m.old.signs ≤ LARGEST_LISTED_ORDER + 2 }
    ensures { m.new ≡ passed kept m.old }
{
    m.signs.truncate(kept);
    next_move(m);
}

// Puts signs above behind those of the move, until it has as many as a legal move wants at a valley of which `sides`
// sides are open.
fn pad(m: &mut Move, sides: usize)
    requires some { 0 < m.old.count }
    requires few { m.old.count ≤ LARGEST_LISTED_ORDER + 2 }
    requires sides { sides ≤ 2 }
    ensures { m.new ≡ padded sides m.old }
{
    let wanted = usize::from(m.count) - 1 + sides;
    'signs: while m.signs.len() < wanted {
        m.signs.push(Sign::Above);
    }
}

/// Makes of `m` the least legal move that isn't before it, at a valley of which `sides` sides, 2 at most, are no walls.
/// It must have 1 to 17 squares, and at most 18 signs.
pub fn least_legal_from(m: &mut Move, sides: usize)
    requires some { 0 < m.old.count }
    requires count { m.old.count ≤ LARGEST_LISTED_ORDER + 1 }
    requires signs { length m.old.signs ≤ LARGEST_LISTED_ORDER + 2 }
    requires sides { sides ≤ 2 }
    ensures { m.new ≡ fitted sides m.old }
{
    let wanted = usize::from(m.count) - 1 + sides;
    if m.signs.len() > wanted {
        pass(m, wanted);
    }
    pad(m, sides);
}
