//! The sizes of the open segments and the signs between them, where a move parts and joins them, and where it is taken
//! back.

ghost use Rattle.std.specs.List.{splice};
ghost use Rattle.std.specs.Prelude.{cond, count_by, filter, length, ◌+◌, ◌-◌, ◌<◌, ◌≡◌, ◌≤◌};
ghost use Rattle.bk_word.specs.Play.{parts};
ghost use Rattle.bk_play.specs.Skeleton.{GiveWay, exchange_back_of, exchange_of, first_touched, joined_sizes, open_sides_of_record, signs_before};
ghost use Rattle.bk_play.specs.Skeleton.{sizes_after, sizes_before};
ghost use Rattle.bk_word.specs.declared.TheConstants.{LARGEST_ORDER};

use crate::records::MoveRecord;
use crate::splicing::{make_room, splice};
use arrayvec::ArrayVec;
use bk_word::{LARGEST_ORDER, Sign};

// Joins and parts the segments that a move touches: the new sizes and signs stand in the place of theirs.
pub(crate) fn apply_signs(
    sizes: &mut ArrayVec<u8, LARGEST_ORDER>,
    signs: &mut ArrayVec<Sign, LARGEST_ORDER>,
    noted: &MoveRecord,
    moved: &[Sign],
)
    requires parted { noted.now.parted ≡ count_by parts moved.now }
    requires room { GiveWay LARGEST_ORDER (exchange_of noted.now) sizes.old.items signs.old.items }
    requires small { noted.now.left + length moved.now + noted.now.right ≤ 253 }
    ensures sizes { sizes.new.items ≡ splice sizes.old.items (first_touched noted.now)
        (first_touched noted.now + (open_sides_of_record noted.now + 1)) (sizes_after noted.now moved.now) }
    ensures signs { signs.new.items ≡ splice signs.old.items (first_touched noted.now)
        (first_touched noted.now + open_sides_of_record noted.now) (filter parts moved.now) }
{
    let start = noted.first_touched();
    let open = noted.open_sides();
    let parted = usize::from(noted.parted);
    make_room(sizes, start, start + open + 1, parted + 1);
    put_sizes(
        &mut sizes[start..start + parted + 1],
        moved,
        noted.left.max(1),
        noted.right.max(1),
    );
    make_room(signs, start, start + open, parted);
    put_signs(&mut signs[start..start + parted], moved);
}

// Takes that back.
pub(crate) fn undo_signs(
    sizes: &mut ArrayVec<u8, LARGEST_ORDER>,
    signs: &mut ArrayVec<Sign, LARGEST_ORDER>,
    noted: &MoveRecord,
)
    requires { GiveWay LARGEST_ORDER (exchange_back_of noted.now) sizes.old.items signs.old.items }
    ensures sizes { sizes.new.items ≡ splice sizes.old.items (first_touched noted.now)
        (first_touched noted.now + (noted.now.parted + 1)) (sizes_before noted.now) }
    ensures signs { signs.new.items ≡ splice signs.old.items (first_touched noted.now)
        (first_touched noted.now + noted.now.parted) (signs_before noted.now) }
{
    let start = noted.first_touched();
    let parted = usize::from(noted.parted);
    let left = usize::from(noted.left.min(1));
    let right = usize::from(noted.right.min(1));
    let sizes_before = [noted.left, noted.closed, noted.right];
    splice(
        sizes,
        start,
        start + parted + 1,
        &sizes_before[1 - left..2 + right],
    );
    let signs_before = [Sign::Under, Sign::Above];
    splice(
        signs,
        start,
        start + parted,
        &signs_before[1 - left..1 + right],
    );
}

// Puts the signs that stay between segments into a room for as many.
fn put_signs(room: &mut [Sign], moved: &[Sign])
    requires { length room.old ≡ count_by parts moved.now }
    ensures { room.new ≡ filter parts moved.now }
{
    let mut place = 0;
    for sign in moved {
        if sign.parts() {
            room[place] = *sign;
            place += 1;
        }
    }
}

// The last size, or one square where it isn't the last.
pub(crate) fn size_of_next(is_last: bool, last: u8) -> u8
    ensures { result ≡ cond is_last last 1 }
{
    if is_last { last } else { 1 }
}

// Puts the sizes of segments that the signs join or part into a room for as many as are left.
fn put_sizes(room: &mut [u8], moved: &[Sign], first: u8, last: u8)
    requires long { length room.old ≡ count_by parts moved.now + 1 }
    requires small { first + length moved.now + last < 256 }
    ensures { room.new ≡ joined_sizes first last moved.now }
{
    let mut place = 0;
    let mut size = first;
    for (i, sign) in moved.iter().enumerate() {
        let next = size_of_next(i + 1 == moved.len(), last);
        if sign.parts() {
            room[place] = size;
            place += 1;
            size = next;
        } else {
            size += next;
        }
    }
    room[place] = size;
}
