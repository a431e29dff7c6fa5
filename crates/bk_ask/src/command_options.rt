//! What each command asks with its options.

ghost use Rattle.std.specs.Prelude.{IfNone, IfSome, [], codes, map, string_bytes, Option, ℕ, ◌∷◌, ◌≢◌};
ghost use Rattle.bk_word.specs.Word.{Word as Moves};
ghost use Rattle.bk_word.specs.declared.Class.{Class as ClassOf};
ghost use Rattle.bk_pair.specs.declared.Kind.{Kind as KindOf};
ghost use Rattle.bk_ask.specs.Asked.{Asks, AsksNothing};
ghost use Rattle.bk_ask.specs.Options.{Given, IsGivenOr, MayHave, NamesDiffer, options_in};
ghost use Rattle.bk_ask.specs.OptionValues.{IsClassName, IsCursor, IsKindName, IsLimit, IsNumberWithin, IsOrder};

use crate::options::{are_options, value_of};
use crate::values::{class_named, cursor_of, kind_named, number_within};
use crate::{Ask, Kind};
use bk_word::{Class, LARGEST_LISTED_ORDER, LEAST_LISTED_ORDER, Word};
use std::alloc::Global;

// The orders of catalogues.
const LEAST_ORDER: u64 = LEAST_LISTED_ORDER as u64;

const GREATEST_ORDER: u64 = LARGEST_LISTED_ORDER as u64;

// The greatest limit that may be asked.
const MOST_ENTRIES: u64 = 1_000_000_000;

// Each number of 64 bits is a seed.
const GREATEST_SEED: u64 = u64::MAX;

// The most trial codes that may be asked.
const MOST_CODES: u64 = 100_000;

// What `list` asks with these options.
pub(crate) fn listing(alloc: Global, options: &[String]) -> Option<Ask>
    ensures some { IfSome result (Asks (codes "list" ∷ map string_bytes options.now)) }
    ensures none { IfNone result (AsksNothing (codes "list" ∷ map string_bytes options.now)) }
{
    if !are_options(&["--order", "--class", "--from", "--limit"], options) {
        return None;
    }
    let order = order_given(options)?;
    let class = class_given(options)?;
    let from = cursor_given(alloc, options)?;
    let limit = limit_given(options)?;
    Some(Ask::List {
        order,
        class,
        from,
        limit,
    })
}

// What `trial` asks with these options.
pub(crate) fn trial(options: &[String]) -> Option<Ask>
    ensures some { IfSome result (Asks (codes "trial" ∷ map string_bytes options.now)) }
    ensures none { IfNone result (AsksNothing (codes "trial" ∷ map string_bytes options.now)) }
{
    if !are_options(&["--seed", "--count"], options) {
        return None;
    }
    let seed = number_given(options, "--seed", 0, GREATEST_SEED)?;
    let count = number_given(options, "--count", 0, MOST_CODES)? as u32;
    Some(Ask::Trial { seed, count })
}

// What `verify` asks with these options.
pub(crate) fn verify(options: &[String]) -> Option<Ask>
    ensures some { IfSome result (Asks (codes "verify" ∷ map string_bytes options.now)) }
    ensures none { IfNone result (AsksNothing (codes "verify" ∷ map string_bytes options.now)) }
{
    if !are_options(&["--order"], options) {
        return None;
    }
    let order = order_given(options)?;
    Some(Ask::Verify { order })
}

// What `pair` asks with these options.
pub(crate) fn pair(options: &[String]) -> Option<Ask>
    ensures some { IfSome result (Asks (codes "pair" ∷ map string_bytes options.now)) }
    ensures none { IfNone result (AsksNothing (codes "pair" ∷ map string_bytes options.now)) }
{
    if !are_options(&["--kind"], options) {
        return None;
    }
    let kind = kind_given(options)?;
    Some(Ask::Pair { kind })
}

// The order of a catalogue, 2 to 16.
fn order_given(options: &[String]) -> Option<u8>
    requires { NamesDiffer (options_in (map string_bytes options.now)) }
    ensures some { let read = options_in (map string_bytes options.now) in
        IfSome result (Given read (codes "--order") IsOrder) }
    ensures none { let read = options_in (map string_bytes options.now) in
        IfNone result ((n : ℕ) → Given read (codes "--order") IsOrder n → ⊥) }
{
    Some(number_given(options, "--order", LEAST_ORDER, GREATEST_ORDER)? as u8)
}

// The number of the option of this name, where its value is a number in this range.
fn number_given(options: &[String], name: &str, least: u64, most: u64) -> Option<u64>
    requires { NamesDiffer (options_in (map string_bytes options.now)) }
    ensures some { IfSome result
        (Given (options_in (map string_bytes options.now)) name.now (IsNumberWithin least most)) }
    ensures none { IfNone result ((n : ℕ)
        → Given (options_in (map string_bytes options.now)) name.now (IsNumberWithin least most) n → ⊥) }
{
    number_within(least, most, value_of(options, name)?)
}

// The class, which is perfect where none is named. None if it has another name.
fn class_given(options: &[String]) -> Option<Class>
    requires { NamesDiffer (options_in (map string_bytes options.now)) }
    ensures some { let read = options_in (map string_bytes options.now) in
        IfSome result (IsGivenOr read (codes "--class") IsClassName Class.Perfect) }
    ensures none { let read = options_in (map string_bytes options.now) in
        IfNone result ((class : ClassOf) → IsGivenOr read (codes "--class") IsClassName Class.Perfect class → ⊥) }
{
    match value_of(options, "--class") {
        Some(name) => class_named(name),
        None => Some(Class::Perfect),
    }
}

// The kind of pairs, which is the perfect one where none is named. None if it has another name.
fn kind_given(options: &[String]) -> Option<Kind>
    requires { NamesDiffer (options_in (map string_bytes options.now)) }
    ensures some { let read = options_in (map string_bytes options.now) in
        IfSome result (IsGivenOr read (codes "--kind") IsKindName Kind.Perfect) }
    ensures none { let read = options_in (map string_bytes options.now) in
        IfNone result ((kind : KindOf) → IsGivenOr read (codes "--kind") IsKindName Kind.Perfect kind → ⊥) }
{
    match value_of(options, "--kind") {
        Some(name) => kind_named(name),
        None => Some(Kind::Perfect),
    }
}

// The word after which to start, if one is given. None if its text has no meaning.
fn cursor_given(alloc: Global, options: &[String]) -> Option<Option<Word>>
    requires { NamesDiffer (options_in (map string_bytes options.now)) }
    ensures some { IfSome result (MayHave (options_in (map string_bytes options.now)) (codes "--from") IsCursor) }
    ensures none { let read = options_in (map string_bytes options.now) in
        IfNone result ((from : Option Moves) → MayHave read (codes "--from") IsCursor from → ⊥) }
{
    match value_of(options, "--from") {
        Some(text) => Some(Some(cursor_of(alloc, text)?)),
        None => Some(None),
    }
}

// How many entries to list at most, if that is said. None if its text has no meaning.
fn limit_given(options: &[String]) -> Option<Option<u64>>
    requires { NamesDiffer (options_in (map string_bytes options.now)) }
    ensures some { let read = options_in (map string_bytes options.now) in
        IfSome result (MayHave read (codes "--limit") IsLimit) }
    ensures none { let read = options_in (map string_bytes options.now) in
        IfNone result ((limit : Option ℕ)
        → MayHave read (codes "--limit") IsLimit limit → ⊥) }
{
    match value_of(options, "--limit") {
        Some(text) => Some(Some(number_within(0, MOST_ENTRIES, text)?)),
        None => Some(None),
    }
}
