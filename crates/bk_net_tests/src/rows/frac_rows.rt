//! Rows of `bk_frac`.

use bk_frac::{Frac, Wide, common, gcd};

// The four calls.
fn whole(n: i64) -> Frac {
    Frac::whole(n)
}

fn divided(a: Frac, b: Frac) -> Result<Frac, Wide> {
    if b.num() == 0 { Err(Wide) } else { a.div(b) }
}

fn times(a: Frac, b: Frac) -> Result<Frac, Wide> {
    a.mul(b)
}

fn less(a: Frac, b: Frac) -> Result<Frac, Wide> {
    a.sub(b)
}

fn over(num: i64, den: i64) -> Result<Frac, Wide> {
    divided(whole(num), whole(den))
}

fn parts(f: Result<Frac, Wide>) -> Result<(i128, i128), Wide> {
    let f = f?;
    Ok((f.num(), f.den()))
}

fn rows_of_divisors() -> &'static [(u128, u128, u128)] {
    &[
        (0, 0, 0),
        (0, 7, 7),
        (12, 18, 6),
        (123456789012345678, 987654321098765432, 2),
    ]
}

#[test]
fn divisors(rt: HostRuntime) {
    for (a, b, want) in rows_of_divisors() {
        assert!(rt; gcd(*a, *b) == *want, "{a} and {b}");
    }
}

// The numerator and the denominator of a fraction.
type Written = (i64, i64);

fn difference(a: Written, b: Written) -> Result<(i128, i128), Wide> {
    parts(less(over(a.0, a.1)?, over(b.0, b.1)?))
}

fn rows_of_differences() -> &'static [(Written, Written, (i128, i128))] {
    &[
        ((1, 3), (1, 1), (-2, 3)),
        ((5, 6), (3, 4), (1, 12)),
        ((1, 2), (3, 4), (-1, 4)),
        ((7, -2), (7, -2), (0, 1)),
    ]
}

#[test]
fn differences(rt: HostRuntime) {
    for (a, b, want) in rows_of_differences() {
        assert!(rt; difference(*a, *b) == Ok(*want), "{want:?}");
    }
}

// 1 over 2^63 - 1, squared.
fn least_square() -> Result<Frac, Wide> {
    let unit = over(1, i64::MAX)?;
    times(unit, unit)
}

// The square of 1 over 2^63 - 1 fits; a fourth of it doesn't.
#[test]
fn small_limits(rt: HostRuntime) {
    let square = least_square().unwrap_or(whole(0));
    assert!(rt; square.num() == 1 && square.den() == 85070591730234615847396907784232501249);
    assert!(rt; divided(square, whole(4)) == Err(Wide));
}

// 2^126 fits; its double doesn't.
#[test]
fn large_limits(rt: HostRuntime) {
    let least = whole(i64::MIN);
    let large = times(least, least).unwrap_or(Frac::default());
    assert!(rt; large.num() == 1 << 126 && large.den() == 1);
    assert!(rt; times(large, whole(2)) == Err(Wide));
}

// 2^126 plus one less 2^126, and 2^126 taken from none twice.
fn there_and_back(large: Frac) -> Result<Frac, Wide> {
    less(less(large, whole(-1))?, large)
}

fn twice_less(large: Frac) -> Result<Frac, Wide> {
    less(less(Frac::default(), large)?, large)
}

#[test]
fn large_differences(rt: HostRuntime) {
    let least = whole(i64::MIN);
    let large = times(least, least).unwrap_or(Frac::default());
    assert!(rt; there_and_back(large) == Ok(whole(1)));
    assert!(rt; twice_less(large) == Err(Wide));
}

// Fractions in whole numbers.
fn in_whole_numbers(fracs: [Frac; 4]) -> Result<[i128; 4], Wide> {
    let mut whole = [7; 4];
    common(&fracs, &mut whole)?;
    Ok(whole)
}

static PROPORTIONS: [(&[Written; 4], &[i128; 4]); 3] = [
    (&[(1, 1), (1, 2), (1, 2), (0, 1)], &[2, 1, 1, 0]),
    (&[(2, 3), (-4, 5), (0, 1), (0, 1)], &[5, -6, 0, 0]),
    (&[(0, 1), (0, 1), (0, 1), (0, 1)], &[0, 0, 0, 0]),
];

fn rows_of_proportions() -> &'static [(&'static [Written; 4], &'static [i128; 4])] {
    &PROPORTIONS
}

// A fraction that is not wide, or else zero.
fn some_over(written: Written) -> Frac {
    over(written.0, written.1).unwrap_or(Frac::default())
}

// What four fractions are in proportion to.
fn proportion(written: [Written; 4]) -> Result<[i128; 4], Wide> {
    let [a, b, c, d] = written;
    in_whole_numbers([some_over(a), some_over(b), some_over(c), some_over(d)])
}

#[test]
fn proportions(rt: HostRuntime) {
    for (written, want) in rows_of_proportions() {
        assert!(rt; proportion(**written) == Ok(**want), "{want:?}");
    }
    let wide = [(1, i64::MAX), (1, i64::MAX - 1), (1, 5), (0, 1)];
    assert!(rt; proportion(wide) == Err(Wide));
}
