//! Forms over the sides of a word's squares: levels of bottoms and segments, and sums of sides.
#![tactic(auto)]

ghost use Rattle.std.specs.List.{AllByRecursion};
ghost use Rattle.std.specs.Prelude.{List, cond, length, map, slice_index_or, slice_range, ◌++◌, ◌+◌, ◌-◌, ◌<◌, ◌≡◌};
ghost use Rattle.std.specs.Prelude.{◌≤◌, ◌∷◌, []};
ghost use Rattle.bk_word.specs.Outline.{valley_of};
ghost use Rattle.bk_word.specs.Play.{numbers_from, outline_of};
ghost use Rattle.bk_word.specs.Word.{order_of};
ghost use Rattle.bk_forms.specs.Form.{with_column};
ghost use Rattle.bk_walk_cuts.specs.SideForms.{level_of as level_seen, levels_along as levels_seen};
ghost use Rattle.bk_walk_cuts.specs.SideForms.{sum_of_sides as sum_seen, zero_form};
ghost use Rattle.bk_walk_cuts.specs.Trace.{AreFewSmall, IsSmall};

use arrayvec::ArrayVec;
use bk_forms::Form;
use bk_play::Skel;
use bk_word::Move;

// The most squares that hang while the first moves are followed.
pub(crate) const FOLLOWED: usize = 5;

// The most levels that a move compares: of its squares, and of the segments beside the valley.
pub(crate) const MOST_LEVELS: usize = 7;

// The sum of the sides of the squares with these numbers, from 1.
pub(crate) fn sum_of_sides(numbers: &[u8]) -> Form
    ensures { result ≡ sum_seen numbers.now }
{
    let mut sum = Form::zero();
    for number in numbers {
        sum = sum.plus_side(usize::from(*number).saturating_sub(1));
    }
    sum
}

// The level of a segment with these squares.
pub(crate) fn level_of(bottoms: &[Form], segment: &[u8]) -> Form
    ensures { result ≡ level_seen bottoms.now segment.now }
{
    match segment.first() {
        None => Form::zero(),
        Some(number) => level_at(bottoms, usize::from(*number).saturating_sub(1)),
    }
}

// The form at a place, or that of zeros where there is none.
pub(crate) fn level_at(levels: &[Form], place: usize) -> Form
    ensures { result ≡ slice_index_or levels.now place zero_form }
{
    match levels.get(place) {
        Some(level) => *level,
        None => Form::zero(),
    }
}

// The numbers of so many squares that hang after the first ones.
pub(crate) fn new_numbers(hung: usize, count: u8) -> ArrayVec<u8, FOLLOWED>
    requires { hung + count ≤ FOLLOWED }
    ensures { result.items ≡ numbers_from (hung + 1) count }
{
    let mut numbers = ArrayVec::new();
    for i in 0..usize::from(count) {
        numbers.push((hung + 1 + i) as u8);
    }
    numbers
}

// The squares of the open segment at a place from the left, or none where there is no segment.
pub(crate) fn segment(skel: &Skel, place: usize) -> &[u8]
    ensures { result.now ≡ slice_index_or (outline_of skel.now).segments place [] }
{
    let (sizes, ends) = (skel.sizes(), skel.ends());
    let mut start = 0;
    for (i, size) in sizes.iter().enumerate() {
        if i == place {
            return part(ends, start, *size);
        }
        start += usize::from(*size);
    }
    &[]
}

// So many of the squares from a place on.
fn part(squares: &[u8], start: usize, size: u8) -> &[u8]
    requires { start + size ≤ length squares.now }
    ensures { result.now ≡ slice_range squares.now start (start + size) }
{
    &squares[start..start + usize::from(size)]
}

// The levels that a move's signs compare, where at most 5 squares hang after it.
pub(crate) fn levels_along(bottoms: &[Form], skel: &Skel, m: &Move) -> ArrayVec<Form, MOST_LEVELS>
    requires few { order_of skel.now + m.now.count ≤ FOLLOWED }
    requires bottoms { AreFewSmall bottoms.now }
    ensures { result.items ≡ levels_seen (outline_of skel.now) m.now bottoms.now }
{
    let level = level_of(bottoms, skel.valley_squares());
    let (signs, place) = (skel.signs(), skel.valley_place());
    let mut levels = ArrayVec::new();
    push_beside(
        &mut levels,
        bottoms,
        skel,
        place.saturating_sub(1),
        place == 0,
    );
    push_bottoms(&mut levels, &level, skel.order(), m.count);
    push_beside(&mut levels, bottoms, skel, place + 1, place == signs.len());
    levels
}

// Appends the level of the segment at a place, unless a wall stands there.
fn push_beside(
    levels: &mut ArrayVec<Form, MOST_LEVELS>,
    bottoms: &[Form],
    skel: &Skel,
    place: usize,
    wall: bool,
)
    requires { length levels.old.items < MOST_LEVELS }
    ensures { levels.new.items ≡ levels.old.items ++ cond wall []
        (level_seen bottoms.now (slice_index_or (outline_of skel.now).segments place []) ∷ []) }
{
    if wall {
        return;
    }
    levels.push(level_of(bottoms, segment(skel, place)));
}

// Appends the levels of the bottoms of so many squares that hang after the first ones, under a valley.
pub(crate) fn push_bottoms<const N: usize>(
    levels: &mut ArrayVec<Form, N>,
    valley: &Form,
    hung: usize,
    count: u8,
)
    requires few { hung + count ≤ FOLLOWED }
    requires room { length levels.old.items + count ≤ N }
    requires small { IsSmall FOLLOWED valley.now }
    ensures { levels.new.items
        ≡ levels.old.items ++ map (λ n. with_column valley.now (n - 1)) (numbers_from (hung + 1) count) }
{
    for i in 0..usize::from(count) {
        levels.push(valley.plus_side(hung + i));
    }
}
