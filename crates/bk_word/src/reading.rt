//! Reading the text of a word.
#![tactic(auto)]

ghost use Rattle.std.specs.Prelude.{IfErr, IfNone, IfOk, IfSome, Some, length, [], ◌*◌, ◌+◌, ◌++◌, ◌∷◌, ◌≡◌, ◌≤◌};
ghost use Rattle.bk_word.specs.ReadWord.{IsWordFaultOf};
ghost use Rattle.bk_word.specs.Taken.{KeepsTextOf, KeepsWord, Reading, bare, moves_counted, reader_place, step, taken};
ghost use Rattle.bk_word.specs.Taken.{with_sign};
ghost use Rattle.bk_word.specs.Word.{Move as SeenMove, Word as Moves};
ghost use Rattle.bk_word.specs.WordText.{IsNoWordText, IsTextOf, IsWordText, capped_order};

use crate::reader::{ByteKind, Place, kind_of};
use crate::storage::byte_of;
use crate::{LARGEST_ORDER, NoMemory, Sign, Word};
use arrayvec::ArrayVec;
use std::alloc::Global;
use thiserror::Error;

/// Why the text of a word is refused.
#[derive(Debug, Drop, Error)]
pub enum WordFault {
    /// The bytes are no text of a word: the longest start of them that begins one has `at` bytes.
    #[error("Text")]
    Text { at: usize },
    /// The word hangs more than 200 squares.
    #[error("Many")]
    Many,
    /// There is no memory.
    #[error("NoMemory")]
    NoMemory,
}

/// Reads the text of a word: its moves with a dot between each two, and of each the count, in 1 to 3 digits without a
/// leading 0, and the letters `a`, `e` and `u` of its signs. It is refused, in this order: `Text` exactly where the
/// bytes are no such text, with the length of their longest start that begins one; `Many` exactly where the order is
/// above 200; `NoMemory` where there is none, and never where the order is at most 16 or the word has at most 64 bytes,
/// a byte for each count and each sign. The form is our own.
pub fn read_word(alloc: Global, text: &[u8]) -> Result<Word, WordFault>
    ensures read { IfOk result (λ w. IsTextOf text.now w) }
    ensures fault { IfErr result (λ fault. IsWordFaultOf fault text.now) }
{
    let taken = take_text(text).map_err(|at| WordFault::Text { at })?;
    if usize::from(taken.order) > LARGEST_ORDER {
        return Err(WordFault::Many);
    }
    match Word::from_bytes(alloc, taken.bytes.as_slice()) {
        Ok(word) => Ok(word),
        Err(NoMemory) => Err(WordFault::NoMemory),
    }
}

/// The order of the word whose text it is, or 201 where it is above 200. `None` comes exactly where it is no text of a
/// word. It takes no memory.
pub fn text_order(text: &[u8]) -> Option<u8>
    ensures none { IfNone result ((w : Moves) → IsTextOf text.now w → ⊥) }
    ensures some { IfSome result (λ order. (w : Moves) × IsTextOf text.now w × (order ≡ capped_order w)) }
{
    take_text(text).ok().map(|taken| taken.order)
}

// What stands for every order above 200.
const TOO_MANY: u8 = LARGEST_ORDER as u8 + 1;

// A word of 200 squares has at most 200 counts and 400 signs. There is room for two bytes more.
const MOST_TAKEN: usize = 3 * LARGEST_ORDER + 2;

// What is taken of a word: its order, or 201 where that is above 200, and its bytes where it is not.
#[derive(Drop)]
struct Taken {
    order: u8,
    bytes: ArrayVec<u8, MOST_TAKEN>,
}

// What is taken of a whole text, or the length of its longest start that begins the text of a word.
fn take_text(text: &[u8]) -> Result<Taken, usize>
    ensures ok { IfOk result (KeepsTextOf text.now) }
    ensures err { IfErr result (λ at. IsNoWordText text.now at) }
{
    let mut place = Place::BeforeCount;
    let mut taken = Taken::new();
    for (at, byte) in text.iter().enumerate() {
        let kind = kind_of(*byte);
        let Some(next) = place.next(kind) else {
            return Err(at);
        };
        taken.take(place, kind);
        place = next;
    }
    if !place.may_end() {
        return Err(text.len());
    }
    taken.end_count(place);
    Ok(taken)
}

impl Taken {
    fn new() -> Taken
        ensures { KeepsWord [] result }
    {
        Taken {
            order: 0,
            bytes: ArrayVec::new(),
        }
    }

    // Takes a further byte.
    fn take(&mut self, place: Place, kind: ByteKind)
        requires room { self.old.order ≤ LARGEST_ORDER → length self.old.bytes.items ≤ 3 * LARGEST_ORDER }
        ensures { (r next : Reading) → place ≡ reader_place r → step r kind ≡ Some next → KeepsWord (taken r) self.old
            → KeepsWord (taken next) self.new }
    {
        match kind {
            ByteKind::Letter(sign) => {
                self.end_count(place);
                self.add_sign(sign);
            }
            ByteKind::Dot => self.end_count(place),
            ByteKind::Digit(_) | ByteKind::Other => {}
        }
    }

    // Takes the count that ends at a place, if there is one.
    fn end_count(&mut self, place: Place)
        requires room { self.old.order ≤ LARGEST_ORDER → length self.old.bytes.items ≤ 3 * LARGEST_ORDER }
        ensures keeps { (r : Reading) → place ≡ reader_place r → KeepsWord (taken r) self.old
            → KeepsWord (moves_counted r) self.new }
        ensures room { self.new.order ≤ LARGEST_ORDER → length self.new.bytes.items ≤ 3 * LARGEST_ORDER + 1 }
    {
        if let Place::InCount(count) = place {
            self.add_count(count);
        }
    }

    fn add_count(&mut self, count: u16)
        requires room { self.old.order ≤ LARGEST_ORDER → length self.old.bytes.items ≤ 3 * LARGEST_ORDER }
        ensures keeps { (w : Moves) → KeepsWord w self.old → KeepsWord (w ++ bare count ∷ []) self.new }
        ensures room { self.new.order ≤ LARGEST_ORDER → length self.new.bytes.items ≤ 3 * LARGEST_ORDER + 1 }
    {
        match u8::try_from(u32::from(self.order) + u32::from(count)) {
            Ok(order) if usize::from(order) <= LARGEST_ORDER => {
                self.bytes.push(order - self.order);
                self.order = order;
            }
            _ => self.order = TOO_MANY,
        }
    }

    fn add_sign(&mut self, sign: Sign)
        requires room { self.old.order ≤ LARGEST_ORDER → length self.old.bytes.items ≤ 3 * LARGEST_ORDER + 1 }
        ensures { (w : Moves) (m : SeenMove) → KeepsWord (w ++ m ∷ []) self.old
            → KeepsWord (w ++ with_sign m sign ∷ []) self.new }
    {
        if usize::from(self.order) <= LARGEST_ORDER {
            self.bytes.push(byte_of(sign));
        }
    }
}
