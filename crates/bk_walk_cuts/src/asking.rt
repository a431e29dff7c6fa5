//! What a ledger answers to a move: equations that contradict those before, and comparisons that are known to be
//! others.
#![tactic(auto)]

ghost use Rattle.std.specs.Prelude.{IsTrue, List, Some, [], false, length, slice_index_or, true, ℕ, ◌+◌, ◌<◌, ◌↔◌, ◌≡◌};
ghost use Rattle.std.specs.Prelude.{◌≢◌, ◌≤◌};
ghost use Rattle.bk_word.specs.declared.Sign.{Sign};
ghost use Rattle.bk_forms.specs.Form.{form_value, with_column};
ghost use Rattle.bk_forms.specs.FormLaws.{Compares, MeetsEquations};
ghost use Rattle.bk_forms.specs.Reduction.{addition, comparison, contradiction, kept_after};
ghost use Rattle.bk_forms.specs.declared.form.TheConstants.{MOST_SIDES};
ghost use Rattle.bk_walk_cuts.specs.KnownSides.{Answers, AreKnownEqual, AreSidesApart, KeepsFirst};
ghost use Rattle.bk_walk_cuts.specs.FormCuts.{LevelsContradict, SidesAreEqual, SignIsOther, WidthsContradict};
ghost use Rattle.bk_walk_cuts.specs.FormCuts.{kept_by_sign, kept_by_signs, kept_by_widths};
ghost use Rattle.bk_walk_cuts.specs.SideForms.{sum_of_sides as sum_seen, zero_form};
ghost use Rattle.bk_walk_cuts.specs.SidesOfTilings.{AgreeWith};

use crate::levels::{level_at, sum_of_sides};
use bk_forms::{Compared, Form, Kept, Ledger};
use bk_word::Sign;

// Adds the equation of the squares that end on a valley and those that hang under it, and those of the levels beside
// each sign even. Whether one contradicts the equations before it.
pub(crate) fn contradicts(
    ledger: &mut Ledger,
    valley: &[u8],
    numbers: &[u8],
    levels: &[Form],
    signs: &[Sign],
) -> bool
    ensures meets { (sides : List ℕ) → MeetsEquations MOST_SIDES ledger.old sides
        → (valley.now ≢ [] → form_value (sum_seen valley.now) sides ≡ form_value (sum_seen numbers.now) sides)
        → AgreeWith signs.now levels.now sides → Answers ledger.new sides result }
    ensures first { KeepsFirst ledger.old ledger.new }
    ensures kept { result ≡ false
        → ledger.new ≡ kept_by_signs (kept_by_widths ledger.old valley.now numbers.now) levels.now signs.now
        (length signs.now) }
    ensures widths { WidthsContradict ledger.old valley.now numbers.now → IsTrue result }
    ensures levels { LevelsContradict (kept_by_widths ledger.old valley.now numbers.now) levels.now signs.now
        → IsTrue result }
{
    if contradicts_widths(ledger, valley, numbers) {
        return true;
    }
    contradicts_signs(ledger, levels, signs)
}

// Adds the equation of the squares that end on a valley and those that hang under it, where the valley has squares.
// Whether it contradicts the equations before.
fn contradicts_widths(ledger: &mut Ledger, valley: &[u8], numbers: &[u8]) -> bool
    ensures meets { (sides : List ℕ) → MeetsEquations MOST_SIDES ledger.old sides
        → (valley.now ≢ [] → form_value (sum_seen valley.now) sides ≡ form_value (sum_seen numbers.now) sides)
        → Answers ledger.new sides result }
    ensures first { KeepsFirst ledger.old ledger.new }
    ensures kept { ledger.new ≡ kept_by_widths ledger.old valley.now numbers.now }
    ensures all { WidthsContradict ledger.old valley.now numbers.now → IsTrue result }
{
    if valley.is_empty() {
        return false;
    }
    is_contradiction(ledger, &sum_of_sides(valley), &sum_of_sides(numbers))
}

// Adds an equation. Whether it contradicts those before.
fn is_contradiction(ledger: &mut Ledger, left: &Form, right: &Form) -> bool
    ensures meets { (sides : List ℕ) → MeetsEquations MOST_SIDES ledger.old sides
        → form_value left.now sides ≡ form_value right.now sides → Answers ledger.new sides result }
    ensures first { KeepsFirst ledger.old ledger.new }
    ensures kept { ledger.new ≡ kept_after ledger.old (addition ledger.old left.now right.now) }
    ensures all { addition ledger.old left.now right.now ≡ contradiction → IsTrue result }
{
    match ledger.add_equation(left, right) {
        Kept::Contradiction => true,
        Kept::Added | Kept::GaveUp => false,
    }
}

// Adds the equations of the levels beside each sign even. Whether one contradicts those before.
fn contradicts_signs(ledger: &mut Ledger, levels: &[Form], signs: &[Sign]) -> bool
    ensures meets { (sides : List ℕ) → MeetsEquations MOST_SIDES ledger.old sides → AgreeWith signs.now levels.now sides
        → Answers ledger.new sides result }
    ensures first { KeepsFirst ledger.old ledger.new }
    ensures kept { result ≡ false → ledger.new ≡ kept_by_signs ledger.old levels.now signs.now (length signs.now) }
    ensures all { LevelsContradict ledger.old levels.now signs.now → IsTrue result }
{
    for (i, sign) in signs.iter().enumerate() {
        if contradicts_sign(
            ledger,
            *sign,
            &level_at(levels, i),
            &level_at(levels, i + 1),
        ) {
            return true;
        }
    }
    false
}

// Adds the equation of the levels beside a sign even. Whether it contradicts those before.
fn contradicts_sign(ledger: &mut Ledger, sign: Sign, left: &Form, right: &Form) -> bool
    ensures meets { (sides : List ℕ) → MeetsEquations MOST_SIDES ledger.old sides
        → Compares sign (form_value left.now sides) (form_value right.now sides) → Answers ledger.new sides result }
    ensures first { KeepsFirst ledger.old ledger.new }
    ensures kept { ledger.new ≡ kept_by_sign (Some sign) ledger.old left.now right.now }
    ensures all { sign ≡ Sign.Even → addition ledger.old left.now right.now ≡ contradiction → IsTrue result }
{
    match sign {
        Sign::Even => is_contradiction(ledger, left, right),
        Sign::Above | Sign::Under => false,
    }
}

// Whether the levels beside a sign are known to compare otherwise.
pub(crate) fn compares_otherwise(ledger: &Ledger, levels: &[Form], signs: &[Sign]) -> bool
    ensures sound { (sides : List ℕ) → MeetsEquations MOST_SIDES ledger.now sides → AgreeWith signs.now levels.now sides
        → result ≡ false }
    ensures all { SignIsOther ledger.now levels.now signs.now → IsTrue result }
{
    for (i, sign) in signs.iter().enumerate() {
        if is_known_otherwise(
            ledger,
            *sign,
            &level_at(levels, i),
            &level_at(levels, i + 1),
        ) {
            return true;
        }
    }
    false
}

// Whether the levels beside a sign are known to compare otherwise. Beside a sign even their equation is kept already.
fn is_known_otherwise(ledger: &Ledger, sign: Sign, left: &Form, right: &Form) -> bool
    ensures sound { (sides : List ℕ) → MeetsEquations MOST_SIDES ledger.now sides
        → Compares sign (form_value left.now sides) (form_value right.now sides) → result ≡ false }
    ensures all { (known : Sign) → sign ≢ Sign.Even → comparison ledger.now left.now right.now ≡ Some known
        → known ≢ sign → IsTrue result }
{
    if sign == Sign::Even {
        return false;
    }
    is_other(ledger.compare(left, right), sign)
}

// Whether a known comparison is another sign.
fn is_other(compared: Compared, sign: Sign) -> bool
    ensures known { result ≡ true → (known : Sign) × (compared ≡ Compared.Known known) × (known ≢ sign) }
    ensures all { (known : Sign) → compared ≡ Compared.Known known → known ≢ sign → IsTrue result }
{
    match compared {
        Compared::Known(known) => known != sign,
        Compared::Unknown => false,
    }
}

// Whether two of the first sides are known to be equal.
pub(crate) fn has_equal_sides(ledger: &Ledger, count: usize) -> bool
    requires { count ≤ MOST_SIDES }
    ensures sound { (sides : List ℕ) → MeetsEquations MOST_SIDES ledger.now sides → AreSidesApart count sides
        → result ≡ false }
    ensures all { SidesAreEqual ledger.now count → IsTrue result }
{
    for i in 0..count {
        if equals_one_before(ledger, i) {
            return true;
        }
    }
    false
}

// Whether a side is known to be equal to one before it.
fn equals_one_before(ledger: &Ledger, i: usize) -> bool
    requires { i < MOST_SIDES }
    ensures sound { (sides : List ℕ) → MeetsEquations MOST_SIDES ledger.now sides → AreSidesApart (i + 1) sides
        → result ≡ false }
    ensures all { (j : ℕ) → j < i → AreKnownEqual ledger.now i j → IsTrue result }
{
    for j in 0..i {
        if are_equal(ledger, i, j) {
            return true;
        }
    }
    false
}

// Whether two sides are known to be equal.
fn are_equal(ledger: &Ledger, i: usize, j: usize) -> bool
    requires first { i < MOST_SIDES }
    requires second { j < MOST_SIDES }
    ensures sound { IsTrue result → (sides : List ℕ) → MeetsEquations MOST_SIDES ledger.now sides
        → slice_index_or sides i 0 ≡ slice_index_or sides j 0 }
    ensures all { AreKnownEqual ledger.now i j → IsTrue result }
{
    let side = Form::zero().plus_side(i);
    let other = Form::zero().plus_side(j);
    is_even(ledger.compare(&side, &other))
}

// Whether a comparison is known to be even.
fn is_even(compared: Compared) -> bool
    ensures { result ≡ true ↔ compared ≡ Compared.Known Sign.Even }
{
    match compared {
        Compared::Known(Sign::Even) => true,
        Compared::Known(Sign::Above | Sign::Under) | Compared::Unknown => false,
    }
}
