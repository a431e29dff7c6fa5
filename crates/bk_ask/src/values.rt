//! The values of options.

ghost use Rattle.std.specs.Prelude.{IfNone, IfSome, IsTrue, ℕ, ◌↔◌};
ghost use Rattle.bk_word.specs.Word.{Word as Moves};
ghost use Rattle.bk_word.specs.declared.Class.{Class as ClassOf};
ghost use Rattle.bk_pair.specs.declared.Kind.{Kind as KindOf};
ghost use Rattle.bk_ask.specs.OptionValues.{BeginsNumber, IsClassName, IsCursor, IsKindName, IsNumberWithin};

use crate::Kind;
use bk_word::{Class, LARGEST_LISTED_ORDER, Word, read_word, text_order};
use std::alloc::Global;

// The number that the text writes in digits, without a sign and without a leading 0, where it is in this range.
pub(crate) fn number_within(least: u64, most: u64, text: &str) -> Option<u64>
    ensures some { IfSome result (IsNumberWithin least most text.now) }
    ensures none { IfNone result ((n : ℕ) → IsNumberWithin least most text.now n → ⊥) }
{
    if !begins_number(text) {
        return None;
    }
    match text.parse::<u64>() {
        Ok(number) if least <= number && number <= most => Some(number),
        _ => None,
    }
}

// Whether the text is `0`, or begins with another digit.
fn begins_number(text: &str) -> bool
    ensures { IsTrue result ↔ BeginsNumber text.now }
{
    matches!(text.as_bytes(), [b'0'] | [b'1'..=b'9', ..])
}

// The word whose text it is, where its order is at most 16. It takes no memory.
pub(crate) fn cursor_of(alloc: Global, text: &str) -> Option<Word>
    ensures some { IfSome result (IsCursor text.now) }
    ensures none { IfNone result ((w : Moves) → IsCursor text.now w → ⊥) }
{
    match text_order(text.as_bytes()) {
        Some(order) if usize::from(order) <= LARGEST_LISTED_ORDER => {
            read_word(alloc, text.as_bytes()).ok()
        }
        _ => None,
    }
}

// The class of this name.
pub(crate) fn class_named(name: &str) -> Option<Class>
    ensures some { IfSome result (IsClassName name.now) }
    ensures none { IfNone result ((class : ClassOf) → IsClassName name.now class → ⊥) }
{
    match name {
        "perfect" => Some(Class::Perfect),
        "imperfect" => Some(Class::Imperfect),
        "simple" => Some(Class::Simple),
        _ => None,
    }
}

// The kind of this name.
pub(crate) fn kind_named(name: &str) -> Option<Kind>
    ensures some { IfSome result (IsKindName name.now) }
    ensures none { IfNone result ((kind : KindOf) → IsKindName name.now kind → ⊥) }
{
    match name {
        "perfect" => Some(Kind::Perfect),
        "any" => Some(Kind::Any),
        _ => None,
    }
}
