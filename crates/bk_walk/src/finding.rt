//! How members are found: a search meets words of their images, and their numbers are put into a table.

ghost use Rattle.std.specs.Prelude.{IsSome, IsTrue, None, [], ℕ, ◌<◌, ◌≡◌, ◌≤◌};
ghost use Rattle.bk_tiling.specs.Tiling.{IsTiling, Tiling as Tiled, order};
ghost use Rattle.bk_tiling.specs.Scale.{IsPrimitiveTiling};
ghost use Rattle.bk_sym.specs.Canonical.{IsCanonical};
ghost use Rattle.bk_sym.specs.Image.{image};
ghost use Rattle.bk_sym.specs.declared.Turn.{Turn as Turned};
ghost use Rattle.bk_layout.specs.Normal.{IsHalf};
ghost use Rattle.bk_layout.specs.NormalImage.{AreSettledCounts, IsMetByNormalWord};
ghost use Rattle.bk_catalogue.specs.Catalogue.{IsMember, IsOfClass};
ghost use Rattle.bk_word.specs.Play.{IsComplete};
ghost use Rattle.bk_word.specs.Word.{Word as Moves, order_of};
ghost use Rattle.bk_word.specs.declared.TheConstants.{INLINE_ORDER, LARGEST_LISTED_ORDER};
ghost use Rattle.bk_lay.specs.TilingWord.{IsWordOf};
ghost use Rattle.bk_packed.specs.KeptNumbers.{AreAscendingNumbers, Holds};
ghost use Rattle.bk_packed.specs.Packed.{packed};
ghost use Rattle.bk_found.specs.Found.{IsFound, IsPlacementOf};
ghost use Rattle.bk_found.specs.Ties.{AreTiesOf};
ghost use Rattle.bk_free_search.specs.SeenCounts.{seen_counts};
ghost use Rattle.bk_walk.specs.Finding.{HasMoreMembers, HasOnlyMembers, IsHeld, Puts, wanted};

use bk_catalogue::is_simple_of;
use bk_found::{Placed, Ties, best_turn, candidate_of, lying_size, turned_squares};
use bk_free_search::{Board, Counts, Leaves};
use bk_lay::Laying;
use bk_packed::{NumberTable, Packed};
use bk_sym::{canonical, is_canonical};
use bk_tiling::Tiling;
use bk_word::Class;
use std::marker::Model;

// Puts the packed words of the members of an order and a class into a table, from a number on, as a search meets words
// of their images, and no other numbers.
#[derive(Drop)]
pub(crate) struct Finder<const N: usize> {
    order: u8,
    class: Class,
    from: u128,
    table: NumberTable<N>,
    laying: Laying,
}

impl<const N: usize> Model for Finder<N> {
    ghost use Rattle.bk_walk.specs.Finding.{Finding, IsFinder};

    ghost Value = { Finding };

    ghost view = { λ s. record { order = s.order; class = s.class; from = s.from; numbers = s.table } };

    ghost invariant = { λ s. IsFinder N
        (record { order = s.order; class = s.class; from = s.from; numbers = s.table }) };
}

impl<const N: usize> Finder<N> {
    /// One that has met no word, for the members of `order`, at most 16, and of `class`: it will keep their packed
    /// words that are at least `from`.
    pub fn new(order: u8, class: Class, from: u128) -> Finder<N>
        requires { order ≤ LARGEST_LISTED_ORDER }
        ensures { result ≡ record {
          order = order;
          class = class;
          from = from;
          numbers = record { kept = []; limit = None };
        } }
    {
        Finder {
            order,
            class,
            from,
            table: NumberTable::new(),
            laying: Laying::new(),
        }
    }

    /// Begins again as one that has met no word, in the room that it has: for the members of `order`, at most 16, and
    /// of `class`, of which it will keep the packed words that are at least `from`.
    pub fn begin(&mut self, order: u8, class: Class, from: u128)
        requires { order ≤ LARGEST_LISTED_ORDER }
        ensures { self.new ≡ record {
          order = order;
          class = class;
          from = from;
          numbers = record { kept = []; limit = None };
        } }
    {
        self.order = order;
        self.class = class;
        self.from = from;
        self.table.clear();
    }

    /// The order that is looked for.
    pub fn order(&self) -> u8
        ensures { result ≡ self.now.order }
    {
        self.order
    }

    /// The class that is looked for.
    pub fn class(&self) -> Class
        ensures { result ≡ self.now.class }
    {
        self.class
    }

    /// The number from which words are kept.
    pub fn from(&self) -> u128
        ensures { result ≡ self.now.from }
    {
        self.from
    }

    /// The table, which keeps the numbers of members alone, and dropped some only where there are more than it has room
    /// for.
    pub fn table(&self) -> &NumberTable<N>
        ensures value { result.now ≡ self.now.numbers }
        ensures only { HasOnlyMembers self.now }
        ensures full { IsSome self.now.numbers.limit → HasMoreMembers N self.now }
    {
        &self.table
    }

    /// Brings the numbers into ascending order, each once.
    pub fn sort_numbers(&mut self)
        ensures fixed { wanted self.new ≡ wanted self.old }
        ensures ascending { AreAscendingNumbers self.new.numbers.kept }
        ensures kept { (x : ℕ) → Holds self.old.numbers x → Holds self.new.numbers x }
    {
        self.table.sort_and_thin();
    }

    // Puts the word of the canonical tiling of the one that the squares are placed as into the table, where this is a
    // member. That one is made in the room. Most words are met without all this.
    #[inline(never)]
    fn meet_placed(&mut self, placed: &Placed, room: &mut Tiling)
        ensures { Puts self.old self.new ((t : Tiled) (turn : Turned) → IsMember self.old.order self.old.class t
            → IsPlacementOf (image turn t) placed.now → IsHeld self.old.from self.new.numbers t) }
    {
        let which = best_turn(placed);
        let (width, height) = lying_size(placed.width, placed.height);
        let squares = turned_squares(placed, which);
        match room.try_become(width, height, squares.as_slice()) {
            Ok(()) => self.meet_tiling(room),
            Err(_) => {}
        }
    }

    // Puts the word of a tiling's canonical tiling into the table, where this is a member.
    fn meet_tiling(&mut self, tiling: &Tiling)
        ensures { Puts self.old self.new ((t : Tiled) (turn : Turned) → IsMember self.old.order self.old.class t
            → tiling.now ≡ image turn t → IsHeld self.old.from self.new.numbers t) }
    {
        if tiling.order() != usize::from(self.order) {
            return;
        }
        if is_canonical(tiling) {
            self.meet_canonical(tiling);
        } else {
            self.meet_image(tiling);
        }
    }

    // Puts the word of a tiling's canonical tiling into the table, where this is a member, for a tiling of the order
    // that isn't its own canonical tiling. Hardly one is met, and the room for its images is needed only here.
    #[inline(never)]
    fn meet_image(&mut self, tiling: &Tiling)
        requires tiling { IsTiling tiling.now }
        requires order { order tiling.now ≡ self.old.order }
        ensures { Puts self.old self.new ((t : Tiled) (turn : Turned) → IsMember self.old.order self.old.class t
            → tiling.now ≡ image turn t → IsHeld self.old.from self.new.numbers t) }
    {
        self.meet_canonical(&canonical(tiling));
    }

    // Puts the word of a canonical tiling of the order into the table, where this is a member.
    fn meet_canonical(&mut self, tiling: &Tiling)
        requires tiling { IsTiling tiling.now }
        requires order { order tiling.now ≡ self.old.order }
        requires canonical { IsCanonical tiling.now }
        ensures { Puts self.old self.new (IsMember self.old.order self.old.class tiling.now
            → IsHeld self.old.from self.new.numbers tiling.now) }
    {
        if is_simple_of(tiling, self.class) {
            self.put(tiling);
        }
    }

    // Puts the word of a member into the table, where it isn't before those that are kept.
    fn put(&mut self, tiling: &Tiling)
        requires member { IsMember self.old.order self.old.class tiling.now }
        ensures { Puts self.old self.new (IsHeld self.old.from self.new.numbers tiling.now) }
    {
        let number = Packed::of_tiling(&mut self.laying, tiling).number();
        if self.from <= number {
            self.table.put(number);
        }
    }
}

// A finder, and room for the tiling that it makes of a word's squares: each is made in the place of the one before.
#[derive(Drop)]
pub(crate) struct Seeker<const N: usize> {
    pub finder: Finder<N>,
    room: Tiling,
}

impl<const N: usize> Seeker<N> {
    /// One whose finder has met no word, for the members of `order`, at most 16, and of `class`, whose packed words are
    /// at least `from`.
    pub fn new(order: u8, class: Class, from: u128) -> Seeker<N>
        requires { order ≤ LARGEST_LISTED_ORDER }
        ensures { result.finder
            ≡ record { order = order; class = class; from = from; numbers = record { kept = []; limit = None } } }
    {
        Seeker {
            finder: Finder::new(order, class, from),
            room: Tiling::unit(),
        }
    }
}

impl<const N: usize> Leaves for Seeker<N> {
    ghost use Rattle.bk_walk.specs.Finding.{HasMet, Wanted, wanted};

    ghost has_met = { λ s w. HasMet s.finder w };

    ghost Fixed = { Wanted };

    ghost fixed = { λ s. wanted s.finder };

    fn meet(&mut self, board: &Board) {
        if let Some(placed) = placed_at(board, self.finder.class()) {
            self.finder.meet_placed(&placed, &mut self.room);
        }
    }
}

// The squares of the image that the board's complete word can meet, if they can be those of one of the class.
fn placed_at(board: &Board, class: Class) -> Option<Placed>
    requires complete { IsComplete board.now }
    requires few { order_of board.now ≤ INLINE_ORDER }
    ensures { (u : Tiled) → IsMetByNormalWord u board.now → IsPrimitiveTiling u → IsOfClass class u → IsFound u result }
{
    let counts = board.counts();
    if lies_better(&counts) {
        return None;
    }
    candidate_of(board.skel(), board.lefts(), ties_of(&counts), class)
}

// Whether the counts are such that another image, with columns and levels exchanged, is met in place of this one.
fn lies_better(counts: &Counts) -> bool
    ensures { IsTrue result → AreSettledCounts (seen_counts counts.now) → ⊥ }
{
    counts.is_half() && counts.right == counts.top && counts.left > counts.bottom
}

// Which of these counts tie.
fn ties_of(counts: &Counts) -> Ties
    ensures { AreTiesOf (seen_counts counts.now) result }
{
    Ties {
        level: counts.bottom == counts.top,
        across: counts.left == counts.right,
        size: is_turned_alike(counts),
    }
}

// Whether the image with columns and levels exchanged has the same counts, so that both may be met.
fn is_turned_alike(counts: &Counts) -> bool
    ensures half { IsTrue result → IsHalf (seen_counts counts.now) }
    ensures right { IsTrue result → counts.now.right ≡ counts.now.top }
    ensures left { IsTrue result → counts.now.left ≡ counts.now.bottom }
{
    counts.is_half() && counts.right == counts.top && counts.left == counts.bottom
}
