//! Bouwkamp codes: the sides of a tiling from top to bottom and from left to right, in groups that hang from one level.
#![tactic(auto)]

ghost use Rattle.std.specs.List.{AllByRecursion};
ghost use Rattle.std.specs.Prelude.{[], length, slice_index_or, slice_range, ◌+◌, ◌++◌, ◌<◌, ◌≡◌, ◌≤◌, ◌∷◌};
ghost use Rattle.bk_tiling.specs.KeptTiling.{IsSide};
ghost use Rattle.bk_code.specs.Code.{code_cmp, code_of, flat, with_side};
ghost use Rattle.bk_code.specs.KeptCode.{IsKeptCode};
ghost use Rattle.bk_code.specs.StoredCode.{AreStarts, groups_at};

mod laws;

use arrayvec::ArrayVec;
use bk_tiling::{MOST_SQUARES, Tiling};
pub use laws::{a_flat_list_fixes_a_tiling, codes_are_ordered};
use std::cmp::Ordering;
use std::marker::Model;

/// No number of a header, which states an order and a size before a code, is greater.
pub const LARGEST_HEADER_NUMBER: u64 = 999_999_999_999_999_999;

/// A code in Bouwkamp's notation (1946-47): groups of sides, from top to bottom and from left to right. No group is
/// empty, there are at most 200 sides in all, and each is 1 to 999,999,999,999,999.
#[derive(Drop)]
pub struct Code {
    sides: ArrayVec<u64, MOST_SQUARES>,
    // The place of the first side of each group.
    starts: ArrayVec<usize, MOST_SQUARES>,
}

impl Model for Code {
    ghost use Rattle.bk_code.specs.Code.{Code as Groups};
    ghost use Rattle.bk_code.specs.StoredCode.{IsStoredCode, groups_at};

    ghost Value = { Groups };

    ghost view = { λ c. groups_at c.starts.items c.sides.items };

    ghost invariant = { λ c. IsStoredCode c.starts.items c.sides.items };
}

impl Code {
    /// The code with no group.
    pub fn new() -> Code
        ensures { result ≡ [] }
    {
        Code {
            sides: ArrayVec::new(),
            starts: ArrayVec::new(),
        }
    }

    /// Takes away all groups.
    pub fn clear(&mut self)
        ensures { self.new ≡ [] }
    {
        self.sides.clear();
        self.starts.clear();
    }

    /// Becomes the code of a tiling, as `code_of` gives it, whatever groups were there.
    pub fn become_that_of(&mut self, tiling: &Tiling)
        ensures { self.new ≡ code_of tiling.now }
    {
        let squares = tiling.squares();
        self.clear();
        for i in 0..squares.len() {
            if tiling.begins_group(i) {
                self.begin_group(squares[i].s);
            } else {
                self.push_side(squares[i].s);
            }
        }
    }

    /// Appends a group of these sides, from left to right. There must be one or more, each 1 to 999,999,999,999,999,
    /// and room for them.
    pub fn add_group(&mut self, sides: &[u64])
        requires some { 0 < length sides.now }
        requires sides { AllByRecursion IsSide sides.now }
        requires room { length (flat self.old) + length sides.now ≤ MOST_SQUARES }
        ensures group { self.new ≡ self.old ++ sides.now ∷ [] }
        ensures flat { flat self.new ≡ flat self.old ++ sides.now }
    {
        let start = self.sides.len();
        append(&mut self.sides, sides);
        self.starts.push(start);
    }

    /// Appends a group of one side, which is 1 to 999,999,999,999,999. There must be room for it.
    pub fn begin_group(&mut self, first: u64)
        requires side { IsSide first }
        requires room { length (flat self.old) < MOST_SQUARES }
        ensures group { self.new ≡ self.old ++ (first ∷ []) ∷ [] }
        ensures flat { flat self.new ≡ flat self.old ++ first ∷ [] }
    {
        self.starts.push(self.sides.len());
        self.sides.push(first);
    }

    /// Appends a side, which is 1 to 999,999,999,999,999, to the last group. There must be a group, and room for the
    /// side.
    pub fn push_side(&mut self, side: u64)
        requires some { 0 < length self.old }
        requires side { IsSide side }
        requires room { length (flat self.old) < MOST_SQUARES }
        ensures group { self.new ≡ with_side self.old side }
        ensures flat { flat self.new ≡ flat self.old ++ side ∷ [] }
    {
        self.sides.push(side);
    }

    /// How many groups there are.
    pub fn groups(&self) -> usize
        ensures value { result ≡ length self.now }
        ensures kept { IsKeptCode self.now }
    {
        self.starts.len()
    }

    /// The sides of the group at place `g`, from 0.
    pub fn group(&self, g: usize) -> &[u64]
        requires { g < length self.now }
        ensures { result.now ≡ slice_index_or self.now g [] }
    {
        sides_of_group(self.starts.as_slice(), self.sides.as_slice(), g)
    }
}

// The sides from a start to the next one, or to the end.
fn sides_of_group<'a>(starts: &[usize], sides: &'a [u64], g: usize) -> &'a [u64]
    requires place { g < length starts.now }
    requires rise { AreStarts starts.now (length sides.now) }
    ensures { result.now ≡ slice_index_or (groups_at starts.now sides.now) g [] }
{
    let (start, end) = bounds(starts, sides, g);
    &sides[start..end]
}

// Where the sides of a group begin and end.
fn bounds(starts: &[usize], sides: &[u64], g: usize) -> (usize, usize)
    requires place { g < length starts.now }
    requires rise { AreStarts starts.now (length sides.now) }
    ensures part { slice_range sides.now result.0 result.1 ≡ slice_index_or (groups_at starts.now sides.now) g [] }
    ensures order { result.0 ≤ result.1 }
    ensures within { result.1 ≤ length sides.now }
{
    if g + 1 < starts.len() {
        (starts[g], starts[g + 1])
    } else {
        (starts[g], sides.len())
    }
}

// Appends sides, for which there is room.
fn append(sides: &mut ArrayVec<u64, MOST_SQUARES>, more: &[u64])
    requires { length sides.old.items + length more.now ≤ MOST_SQUARES }
    ensures { sides.new.items ≡ sides.old.items ++ more.now }
{
    if sides.try_extend_from_slice(more).is_err() {
        unreachable!();
    }
}

/// All sides in order.
pub fn flat(code: &Code) -> &[u64]
    ensures value { result.now ≡ flat code.now }
    ensures sides { AllByRecursion IsSide result.now }
    ensures kept { IsKeptCode code.now }
{
    code.sides.as_slice()
}

/// The code of a tiling: its sides, with a cut before each square that isn't level with the one before it or doesn't
/// begin at its right edge (Bouwkamp 1946-47).
pub fn code_of(tiling: &Tiling) -> Code
    ensures { result ≡ code_of tiling.now }
{
    let mut code = Code::new();
    code.become_that_of(tiling);
    code
}

/// Compares the flat lists of two codes lexicographically; a proper prefix comes first. This order is our own.
pub fn cmp_codes(a: &Code, b: &Code) -> Ordering
    ensures { result ≡ code_cmp a.now b.now }
{
    flat(a).cmp(flat(b))
}
