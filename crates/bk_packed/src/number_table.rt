//! A table of numbers, which keeps the least ones when its room is full.
#![tactic(auto)]

ghost use Rattle.std.specs.List.{AllByRecursion};
ghost use Rattle.std.specs.Prelude.{Contains, IfNone, IfSome, IsSomeAnd, IsTrue, None, [], is_some, ℕ};
ghost use Rattle.std.specs.Prelude.{◌<◌, ◌≡◌, ◌≤◌, ◌↔◌};
ghost use Rattle.bk_packed.specs.KeptNumbers.{AreAscendingNumbers, HoldsOneMore, IsFirstFrom};

use crate::sorting::{cut_off, has, place_of, sort_and_thin};
use arrayvec::ArrayVec;
use std::marker::Model;

/// Numbers that are put one after the other and read in ascending order. Where there is no room for one more different
/// number, the upper half is dropped; from then on the table keeps no number from the least that was dropped on.
#[derive(Drop)]
pub struct NumberTable<const N: usize> {
    numbers: ArrayVec<u128, N>,
    limit: Option<u128>,
}

impl<const N: usize> Model for NumberTable<N> {
    ghost use Rattle.bk_packed.specs.KeptNumbers.{IsKeptTable, Numbers};

    ghost Value = { Numbers };

    ghost view = { λ t. record { kept = t.numbers.items; limit = t.limit } };

    ghost invariant = { λ t. IsKeptTable (record { kept = t.numbers.items; limit = t.limit }) };
}

impl<const N: usize> NumberTable<N> {
    /// A table of no number.
    pub fn new() -> NumberTable<N>
        ensures { result ≡ record { kept = []; limit = None } }
    {
        NumberTable {
            numbers: ArrayVec::new(),
            limit: None,
        }
    }

    /// Becomes a table of no number, in the room that it has.
    pub fn clear(&mut self)
        ensures { self.new ≡ record { kept = []; limit = None } }
    {
        self.numbers.clear();
        self.limit = None;
    }

    /// The numbers, in the order in which they are kept.
    pub fn numbers(&self) -> &[u128]
        ensures { result.now ≡ self.now.kept }
    {
        self.numbers.as_slice()
    }

    /// Whether some were dropped: the table then says nothing of numbers from the least of them on.
    pub fn is_cut(&self) -> bool
        ensures { result ≡ is_some self.now.limit }
    {
        self.limit.is_some()
    }

    /// The least number in the table that isn't below a bound. The numbers must ascend.
    pub fn first_from(&self, bound: u128) -> Option<u128>
        requires { AreAscendingNumbers self.now.kept }
        ensures none { IfNone result (AllByRecursion (λ y. y < bound) self.now.kept) }
        ensures first { IfSome result (IsFirstFrom self.now.kept bound) }
    {
        let numbers = self.numbers.as_slice();
        let place = place_of(numbers, bound);
        if place < numbers.len() {
            Some(numbers[place])
        } else {
            None
        }
    }

    /// Brings the numbers into ascending order, each once.
    pub fn sort_and_thin(&mut self)
        ensures ascending { AreAscendingNumbers self.new.kept }
        ensures same { (x : ℕ) → Contains self.new.kept x ↔ Contains self.old.kept x }
        ensures limit { self.new.limit ≡ self.old.limit }
    {
        sort_and_thin(&mut self.numbers);
    }

    /// Puts a number into the table, unless it is one from which on none are kept. Where there is no room, it brings
    /// the numbers into ascending order, each once, and where there is none then either, and the number isn't there, it
    /// drops the upper half. No other number is put.
    pub fn put(&mut self, number: u128)
        ensures { HoldsOneMore N self.old self.new number }
    {
        if is_dropped(self.limit, number) {
            return;
        }
        if self.numbers.len() < N {
            self.numbers.push(number);
            return;
        }
        sort_and_thin(&mut self.numbers);
        if self.numbers.len() < N {
            self.numbers.push(number);
            return;
        }
        if has(self.numbers.as_slice(), number) {
            return;
        }
        let limit = cut_off(&mut self.numbers);
        self.limit = Some(limit);
        if number < limit {
            self.numbers.push(number);
        }
    }
}

// Whether a number is one from which on none are kept.
fn is_dropped(limit: Option<u128>, number: u128) -> bool
    ensures { IsTrue result ↔ IsSomeAnd limit (λ least. least ≤ number) }
{
    match limit {
        Some(least) => least <= number,
        None => false,
    }
}
