//! Rows of `bk_forms`.

ghost use Rattle.std.specs.Prelude.{◌<◌};

use bk_forms::{Compared, Form, Kept, Ledger};
use bk_word::Sign;

// The coefficients of the first three sides.
type First = [i32; 3];

// A form with another coefficient.
fn put(form: Form, side: usize, coefficient: i32) -> Form
    requires { side < 16 }
{
    form.with(side, i64::from(coefficient))
}

// The form with these coefficients.
fn form(first: First) -> Form {
    let [a, b, c] = first;
    put(put(put(Form::zero(), 0, a), 1, b), 2, c)
}

// What is answered to an equation.
fn added(ledger: &mut Ledger, left: &Form, right: &Form) -> Kept {
    ledger.add_equation(left, right)
}

// Whether this is answered to an equation, and so many are kept then.
fn is_added(ledger: &mut Ledger, left: First, right: First, answer: Kept, len: usize) -> bool {
    added(ledger, &form(left), &form(right)) == answer && ledger.len() == len
}

// How two forms compare.
fn compared(ledger: &Ledger, left: &Form, right: &Form) -> Compared {
    ledger.compare(left, right)
}

const S0: First = [1, 0, 0];

const S1: First = [0, 1, 0];

const S2: First = [0, 0, 1];

const S0_S1: First = [1, 1, 0];

const S1_S2: First = [0, 1, 1];

fn rows_of_equations() -> &'static [(First, First, Kept, usize)] {
    &[
        (S0, S0_S1, Kept::Contradiction, 0),
        (S0, S0, Kept::Added, 0),
        (S0, S1_S2, Kept::Added, 1),
        (S2, S0, Kept::Contradiction, 1),
        (S1_S2, S0, Kept::Added, 1),
        ([0, 2, 0], [0, 0, 2], Kept::Added, 2),
        (S1, S2, Kept::Added, 2),
        (S0, [0, 2, 0], Kept::Added, 2),
        (S0, S1, Kept::Contradiction, 2),
    ]
}

// Equations one after another in one ledger, with what is answered and how many are kept then. Two equal sides that
// make up a third one are each less than it; the doubled form 0, 2, -2 is kept in lowest terms.
#[test]
fn equations(rt: HostRuntime) {
    let mut ledger = Ledger::new();
    for (left, right, answer, len) in rows_of_equations() {
        assert!(rt;
            is_added(&mut ledger, *left, *right, *answer, *len),
            "{left:?} {right:?}"
        );
    }
}

fn rows_of_comparisons() -> &'static [(First, First, Compared)] {
    &[
        (S2, S0, Compared::Known(Sign::Above)),
        (S0, S2, Compared::Known(Sign::Under)),
        (S0, S1_S2, Compared::Known(Sign::Even)),
        (S0, S1, Compared::Unknown),
        (S1, S2, Compared::Unknown),
    ]
}

// Whether two forms compare so.
fn is_compared(ledger: &Ledger, left: First, right: First, answer: Compared) -> bool {
    compared(ledger, &form(left), &form(right)) == answer
}

// Whether nothing is kept after a cut, and nothing known of two sides.
fn forgets(ledger: &mut Ledger) -> bool {
    ledger.cut(0);
    ledger.len() == 0 && is_compared(ledger, S2, S0, Compared::Unknown)
}

// Comparisons where s0 = s1 + s2 is kept.
#[test]
fn comparisons(rt: HostRuntime) {
    let mut ledger = Ledger::new();
    assert!(rt; is_added(&mut ledger, S0, S1_S2, Kept::Added, 1));
    for (left, right, answer) in rows_of_comparisons() {
        assert!(rt;
            is_compared(&ledger, *left, *right, *answer),
            "{left:?} {right:?}"
        );
    }
    assert!(rt; forgets(&mut ledger));
}

// The form with the greatest coefficient of the first side.
fn widest() -> Form {
    Form::zero().with(0, i64::MAX)
}

fn rows_of_wide_forms() -> &'static [(First, Kept, Compared)] {
    &[
        ([-1, 0, 0], Kept::GaveUp, Compared::Unknown),
        ([0, 0, 0], Kept::Contradiction, Compared::Known(Sign::Under)),
        (S0, Kept::Contradiction, Compared::Known(Sign::Under)),
        (S1, Kept::Added, Compared::Unknown),
    ]
}

// Whether the widest form and a form compare so, and this is answered to their equation.
fn is_wide(ledger: &mut Ledger, right: First, answer: Kept, comparison: Compared) -> bool {
    let widest = widest();
    let right = form(right);
    compared(ledger, &widest, &right) == comparison && added(ledger, &widest, &right) == answer
}

// A difference of 2^63 passes; one of 2^63 - 1 doesn't.
#[test]
fn wide_forms(rt: HostRuntime) {
    assert!(rt; widest().coeff(0) == i64::MAX);
    let mut ledger = Ledger::new();
    for (right, answer, comparison) in rows_of_wide_forms() {
        assert!(rt;
            is_wide(&mut ledger, *right, *answer, *comparison),
            "{right:?}"
        );
    }
    assert!(rt; ledger.len() == 1);
}
