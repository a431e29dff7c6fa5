//! Parts of short lists that give way to others.

ghost use Rattle.std.specs.List.{splice};
ghost use Rattle.std.specs.Prelude.{drop, length, take, ◌+◌, ◌++◌, ◌-◌, ◌≡◌, ◌≤◌};
ghost use Rattle.bk_word.specs.Play.{numbers_from};

use arrayvec::ArrayVec;

// Makes room: the items from one place up to another give way to so many, whatever they are.
pub(crate) fn make_room<T: Copy + Default + Drop, const N: usize>(
    list: &mut ArrayVec<T, N>,
    start: usize,
    end: usize,
    room: usize,
)
    requires order { start ≤ end }
    requires within { end ≤ length list.old.items }
    requires fits { length list.old.items - (end - start) + room ≤ N }
    ensures long { length list.new.items ≡ length list.old.items - (end - start) + room }
    ensures front { take start list.new.items ≡ take start list.old.items }
    ensures back { drop (start + room) list.new.items ≡ drop end list.old.items }
{
    let size = end - start;
    if room == size {
        return;
    }
    let len = list.len();
    lengthen(list, room.saturating_sub(size));
    list.copy_within(end..len, start + room);
    list.truncate(len - size + room);
}

// Appends so many items, whatever they are.
fn lengthen<T: Copy + Default + Drop, const N: usize>(list: &mut ArrayVec<T, N>, more: usize)
    requires fits { length list.old.items + more ≤ N }
    ensures long { length list.new.items ≡ length list.old.items + more }
    ensures front { take (length list.old.items) list.new.items ≡ list.old.items }
{
    for _ in 0..more {
        list.push(T::default());
    }
}

// Puts other items in the place of those from one place up to another.
pub(crate) fn splice<T: Copy + Default + Drop, const N: usize>(
    list: &mut ArrayVec<T, N>,
    start: usize,
    end: usize,
    items: &[T],
)
    requires order { start ≤ end }
    requires within { end ≤ length list.old.items }
    requires fits { length list.old.items - (end - start) + length items.now ≤ N }
    ensures { list.new.items ≡ splice list.old.items start end items.now }
{
    make_room(list, start, end, items.len());
    list[start..start + items.len()].copy_from_slice(items);
}

/// Puts `count` numbers, ascending by 1 from `first`, in the place of the items of `list` from place `start`, counted
/// from 0, up to the one before `end`. The list must have room for what it has then, and no number may be above 254.
pub fn splice_numbers<const N: usize>(
    list: &mut ArrayVec<u8, N>,
    start: usize,
    end: usize,
    first: u8,
    count: u8,
)
    requires order { start ≤ end }
    requires within { end ≤ length list.old.items }
    requires fits { length list.old.items - (end - start) + count ≤ N }
    requires small { first + count ≤ 255 }
    ensures { list.new.items ≡ splice list.old.items start end (numbers_from first count) }
{
    let room = usize::from(count);
    make_room(list, start, end, room);
    put_numbers(&mut list[start..start + room], first);
}

// Puts the numbers from a first one on into all of a room.
pub(crate) fn put_numbers(room: &mut [u8], first: u8)
    requires { first + length room.old ≤ 255 }
    ensures { room.new ≡ numbers_from first (length room.old) }
{
    let mut next = first;
    for place in room.iter_mut() {
        *place = next;
        next += 1;
    }
}

// Appends items.
pub(crate) fn append<T: Copy + Drop, const N: usize>(list: &mut ArrayVec<T, N>, items: &[T])
    requires { length list.old.items + length items.now ≤ N }
    ensures { list.new.items ≡ list.old.items ++ items.now }
{
    if list.try_extend_from_slice(items).is_err() {
        unreachable!();
    }
}
