//! A table of the members of one order and class.

ghost use Rattle.std.specs.Prelude.{IfNone, IfSome, IsTrue, None, [], is_some, ◌≡◌, ◌≤◌};
ghost use Rattle.bk_word.specs.declared.Class.TheVariants.{Simple};
ghost use Rattle.bk_word.specs.declared.TheConstants.{LARGEST_LISTED_ORDER};
ghost use Rattle.bk_packed.specs.KeptNumbers.{AreAscendingNumbers};
ghost use Rattle.bk_walk.specs.Finding.{HasMoreMembers, HasOnlyMembers};
ghost use Rattle.bk_walk.specs.MemberTables.{HasNoneFrom, IsNextNumber, IsWhole};

use crate::finding::Seeker;
use bk_free_search::search;
use bk_word::Class;
use std::marker::Model;

/// The packed words of all members of one order and class that aren't below a number; where there is no room for all,
/// of the least ones.
#[derive(Drop)]
pub struct MemberTable<const N: usize> {
    seeker: Seeker<N>,
}

impl<const N: usize> Model for MemberTable<N> {
    ghost use Rattle.bk_walk.specs.Finding.{Finding};
    ghost use Rattle.bk_walk.specs.MemberTables.{IsMemberTable};

    ghost Value = { Finding };

    ghost view = { λ t. t.seeker.finder };

    ghost invariant = { λ t. IsMemberTable t.seeker.finder };
}

impl<const N: usize> MemberTable<N> {
    /// A table of order 0, which has no member: it keeps nothing, and dropped nothing.
    pub fn new() -> MemberTable<N>
        ensures { result ≡ record {
          order = 0;
          class = Simple;
          from = 0;
          numbers = record { kept = []; limit = None };
        } }
    {
        MemberTable {
            seeker: Seeker::new(0, Class::Simple, 0),
        }
    }

    /// The table of the members of this order and class, from a number on: it is whole up to its bound. Each of them
    /// whose packed word isn't below this number has it in the table, or, where the table was cut, above the greatest
    /// that is kept. The order is 3 to 16.
    pub fn of(order: u8, class: Class, from: u128) -> MemberTable<N>
        requires least { 3 ≤ order }
        requires most { order ≤ LARGEST_LISTED_ORDER }
        ensures order { result.order ≡ order }
        ensures class { result.class ≡ class }
        ensures from { result.from ≡ from }
        ensures whole { IsWhole result }
    {
        let mut table = MemberTable::new();
        table.fill(order, class, from);
        table
    }

    /// Becomes the table of the members of this order and class, from a number on, in the room that it has. The order
    /// is 3 to 16.
    #[inline(never)]
    pub fn fill(&mut self, order: u8, class: Class, from: u128)
        requires least { 3 ≤ order }
        requires most { order ≤ LARGEST_LISTED_ORDER }
        ensures order { self.new.order ≡ order }
        ensures class { self.new.class ≡ class }
        ensures from { self.new.from ≡ from }
        ensures whole { IsWhole self.new }
    {
        self.seeker.finder.begin(order, class, from);
        search(&mut self.seeker, order);
        self.seeker.finder.sort_numbers();
    }

    /// The order of the members.
    pub fn order(&self) -> u8
        ensures { result ≡ self.now.order }
    {
        self.seeker.finder.order()
    }

    /// The class of the members.
    pub fn class(&self) -> Class
        ensures { result ≡ self.now.class }
    {
        self.seeker.finder.class()
    }

    /// The number from which words are kept.
    pub fn from(&self) -> u128
        ensures { result ≡ self.now.from }
    {
        self.seeker.finder.from()
    }

    /// The packed words that are kept, in ascending order: each is that of a member of the order and the class, and not
    /// below the number from which words are kept.
    pub fn numbers(&self) -> &[u128]
        ensures value { result.now ≡ self.now.numbers.kept }
        ensures ascending { AreAscendingNumbers self.now.numbers.kept }
        ensures only { HasOnlyMembers self.now }
    {
        self.seeker.finder.table().numbers()
    }

    /// Whether there was no room for all: the table then says nothing of those above its greatest.
    pub fn is_cut(&self) -> bool
        ensures value { result ≡ is_some self.now.numbers.limit }
        ensures full { IsTrue result → HasMoreMembers N self.now }
    {
        self.seeker.finder.table().is_cut()
    }

    /// The least number that is kept and isn't below this one: that of a member's word. From the table's own first
    /// number on no member's word has a lesser one, and where there is none, and none was dropped, there is no such
    /// member.
    pub fn next_from(&self, number: u128) -> Option<u128>
        ensures next { IfSome result (IsNextNumber self.now number) }
        ensures none { IfNone result (HasNoneFrom self.now number) }
    {
        self.seeker.finder.table().first_from(number)
    }
}
