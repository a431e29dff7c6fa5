//! Numbers brought into ascending order, each once, and looked up in it.
#![tactic(auto)]

ghost use Rattle.std.specs.List.Sorted.{IsNonDecreasing};
ghost use Rattle.std.specs.Prelude.{Contains, IsTrue, length, slice_index, take, ℕ, ◌/◌, ◌≡◌, ◌≤◌, ◌↔◌};
ghost use Rattle.bk_packed.specs.KeptNumbers.{AreAscendingNumbers, IsPlaceOf};

use arrayvec::ArrayVec;

// Brings numbers into ascending order, each once.
pub(crate) fn sort_and_thin<const N: usize>(numbers: &mut ArrayVec<u128, N>)
    ensures ascending { AreAscendingNumbers numbers.new.items }
    ensures same { (x : ℕ) → Contains numbers.new.items x ↔ Contains numbers.old.items x }
{
    numbers.sort_unstable();
    drop_equals(numbers);
}

// Keeps one of each of numbers that don't descend.
fn drop_equals<const N: usize>(numbers: &mut ArrayVec<u128, N>)
    requires { IsNonDecreasing numbers.old.items }
    ensures ascending { AreAscendingNumbers numbers.new.items }
    ensures same { (x : ℕ) → Contains numbers.new.items x ↔ Contains numbers.old.items x }
{
    let count = bring_forward(numbers);
    numbers.truncate(count);
}

// Brings one of each of numbers that don't descend to the front, in their order. It answers how many there are.
fn bring_forward(numbers: &mut [u128]) -> usize
    requires { IsNonDecreasing numbers.old }
    ensures within { result ≤ length numbers.new }
    ensures ascending { AreAscendingNumbers (take result numbers.new) }
    ensures same { (x : ℕ) → Contains (take result numbers.new) x ↔ Contains numbers.old x }
{
    let mut count = 0;
    'numbers: for i in 0..numbers.len() {
        let number = numbers[i];
        if count == 0 || numbers[count - 1] < number {
            numbers[count] = number;
            count += 1;
        }
    }
    count
}

// Drops the upper half of ascending numbers. It answers the least of them, 0 where there is none.
pub(crate) fn cut_off<const N: usize>(numbers: &mut ArrayVec<u128, N>) -> u128
    ensures kept { numbers.new.items ≡ take (length numbers.old.items / 2) numbers.old.items }
    ensures least { result ≡ slice_index numbers.old.items (length numbers.old.items / 2) }
{
    let half = numbers.len() / 2;
    let least = match numbers.get(half) {
        Some(number) => *number,
        None => 0,
    };
    numbers.truncate(half);
    least
}

// How many of ascending numbers are smaller.
pub(crate) fn place_of(numbers: &[u128], number: u128) -> usize
    requires { AreAscendingNumbers numbers.now }
    ensures { IsPlaceOf numbers.now number result }
{
    match numbers.binary_search(&number) {
        Ok(place) => place,
        Err(place) => place,
    }
}

// Whether the number is one of ascending numbers.
pub(crate) fn has(numbers: &[u128], number: u128) -> bool
    requires { AreAscendingNumbers numbers.now }
    ensures { IsTrue result ↔ Contains numbers.now number }
{
    numbers.binary_search(&number).is_ok()
}
