//! Tables of members, beside the members that a plain walk finds.

use super::plain_walk::{Member, members, number_of};
use bk_walk::MemberTable;
use bk_word::{Class, LARGEST_LISTED_ORDER, read_word};
use std::alloc::{AllocError, Global};
use std::process::Abort;
use std::test::Fail;

const CLASSES: [Class; 3] = [Class::Perfect, Class::Imperfect, Class::Simple];

// The packed words of the members of a class, from a number on.
fn numbers(
    alloc: Global,
    members: &[Member],
    class: Class,
    from: u128,
) -> Result<Vec<u128>, AllocError> {
    let mut numbers = Vec::new(alloc);
    for member in members {
        if member.is_of(class) && member.number >= from {
            numbers.push(member.number)?;
        }
    }
    Ok(numbers)
}

// A table of the members of an order and a class, from a number on.
fn table_of<const N: usize>(
    rt: &impl Abort,
    order: u8,
    class: Class,
    from: u128,
) -> MemberTable<N> {
    assert!(rt; order >= 3 && usize::from(order) <= LARGEST_LISTED_ORDER);
    MemberTable::of(order, class, from)
}

// The table of an order and a class has the numbers of just the members.
fn assert_table(
    rt: &impl Abort,
    alloc: Global,
    order: u8,
    class: Class,
    members: &[Member],
) -> Result<(), AllocError> {
    let table: MemberTable<100> = table_of(rt, order, class, 0);
    let want = numbers(alloc, members, class, 0)?;
    assert!(rt; !table.is_cut());
    assert_eq!(rt; table.numbers(), want.as_slice(), "order {order}");
    Ok(())
}

// How many perfect and imperfect members an order has (sequences A002839 and A002881 of the OEIS).
fn rows_of_orders() -> &'static [(u8, usize, usize)] {
    &[
        (3, 0, 0),
        (4, 0, 0),
        (5, 0, 0),
        (6, 0, 0),
        (7, 0, 0),
        (8, 0, 0),
        (9, 2, 1),
        (10, 6, 0),
    ]
}

// How many of the members are perfect, and how many are not.
fn counts(members: &[Member]) -> (usize, usize) {
    let perfect = members.iter().filter(|member| member.is_perfect).count();
    (perfect, members.len().saturating_sub(perfect))
}

#[test]
fn tables_have_just_the_members(rt: HostRuntime) -> Result<(), Fail> {
    for (order, perfect, imperfect) in rows_of_orders() {
        let members = members(&rt, rt.alloc(), *order)?;
        let found = counts(members.as_slice());
        assert_eq!(rt; found, (*perfect, *imperfect), "order {order}");
        assert_tables(&rt, rt.alloc(), *order, members.as_slice())?;
    }
    Ok(())
}

// The tables of an order in all classes have the numbers of just the members.
fn assert_tables(
    rt: &impl Abort,
    alloc: Global,
    order: u8,
    members: &[Member],
) -> Result<(), AllocError> {
    for class in CLASSES {
        assert_table(rt, alloc, order, class, members)?;
    }
    Ok(())
}

#[test]
fn tables_of_order_11_have_just_the_members(rt: HostRuntime) -> Result<(), Fail> {
    let members = members(&rt, rt.alloc(), 11)?;
    assert_tables(&rt, rt.alloc(), 11, members.as_slice())?;
    Ok(())
}

// Whether all numbers are those of two lists, each list in its order.
fn is_merge(all: &[u128], ones: &[u128], others: &[u128]) -> bool {
    let (mut one, mut other) = (0, 0);
    for number in all {
        if one < ones.len() && ones[one] == *number {
            one += 1;
        } else if other < others.len() && others[other] == *number {
            other += 1;
        } else {
            return false;
        }
    }
    one == ones.len() && other == others.len()
}

// Orders that a plain walk takes long for.
#[test]
fn perfect_and_imperfect_members_are_the_simple_ones(rt: HostRuntime) {
    for order in 12..14 {
        let of_perfect: MemberTable<300> = table_of(&rt, order, Class::Perfect, 0);
        let of_imperfect: MemberTable<300> = table_of(&rt, order, Class::Imperfect, 0);
        let of_simple: MemberTable<300> = table_of(&rt, order, Class::Simple, 0);
        assert!(rt; !of_simple.is_cut() && !of_simple.numbers().is_empty());
        assert!(rt;
            is_merge(
                of_simple.numbers(),
                of_perfect.numbers(),
                of_imperfect.numbers()
            ),
            "order {order}"
        );
    }
}

// The squares among the members of orders up to 15, by their words. They have the sides 23, 39, 41 and 39;
// `square_rows` has their codes.
fn rows_of_squares() -> &'static [(u8, &'static [u8])] {
    &[
        (13, b"2u.3aau.2ue.1ue.2ea.2eue.1e"),
        (15, b"2u.2aa.3uae.2eue.2auu.1e.2ea.1ee"),
        (15, b"2u.2aa.3uue.3eaua.1ue.2eue.1a.1ee"),
        (15, b"2u.3aaa.2ue.1ue.1uu.3eaa.2eue.1ee"),
    ]
}

// Whether a table of an order and a class that begins at a number has just this one first.
fn begins_with(rt: &impl Abort, order: u8, class: Class, number: u128) -> bool {
    let table: MemberTable<300> = table_of(rt, order, class, number);
    table.next_from(number) == Some(number)
}

#[test]
fn squares_are_members(rt: HostRuntime) {
    for (order, text) in rows_of_squares() {
        let word = read_word(rt.alloc(), text).expect(&rt, "it is a word");
        let number = number_of(&rt, &word);
        assert!(rt; begins_with(&rt, *order, Class::Imperfect, number));
        assert!(rt; begins_with(&rt, *order, Class::Simple, number));
        assert!(rt; !begins_with(&rt, *order, Class::Perfect, number));
    }
}

// A table of the perfect members of order 11, from a number on.
fn table_of_11<const N: usize>(from: u128) -> MemberTable<N> {
    MemberTable::of(11, Class::Perfect, from)
}

#[test]
fn tables_begin_at_a_number(rt: HostRuntime) -> Result<(), Fail> {
    let members = members(&rt, rt.alloc(), 11)?;
    for member in &members {
        for from in [member.number, member.number.saturating_add(1)] {
            let table: MemberTable<100> = table_of_11(from);
            let want = numbers(rt.alloc(), members.as_slice(), Class::Perfect, from)?;
            assert_eq!(rt; table.numbers(), want.as_slice());
        }
    }
    Ok(())
}

#[test]
fn the_next_number_is_the_least_from_a_bound_on(rt: HostRuntime) -> Result<(), Fail> {
    let members = members(&rt, rt.alloc(), 11)?;
    let table: MemberTable<100> = table_of_11(0);
    for member in &members {
        let behind = member.number.saturating_add(1);
        let want = numbers(rt.alloc(), members.as_slice(), Class::Perfect, behind)?;
        assert_eq!(rt; table.next_from(member.number), Some(member.number));
        assert_eq!(rt; table.next_from(behind), want.as_slice().first().copied());
    }
    Ok(())
}

// What is kept of all perfect members of order 10 by a table with this room: it is cut just where there are more, and
// has the least of them.
fn assert_room(rt: &impl Abort, all: &[u128], kept: &[u128], cut: bool, room: usize) {
    assert_eq!(rt; cut, room < all.len());
    assert!(rt; !kept.is_empty() && kept.len() <= room);
    assert!(rt; all.starts_with(kept));
    assert_eq!(rt; kept.len() == all.len(), !cut);
}

#[test]
fn a_table_without_room_has_the_least(rt: HostRuntime) -> Result<(), Fail> {
    let members = members(&rt, rt.alloc(), 10)?;
    let all = numbers(rt.alloc(), members.as_slice(), Class::Perfect, 0)?;
    let of_3: MemberTable<3> = table_of(&rt, 10, Class::Perfect, 0);
    assert_room(&rt, all.as_slice(), of_3.numbers(), of_3.is_cut(), 3);
    let of_5: MemberTable<5> = table_of(&rt, 10, Class::Perfect, 0);
    assert_room(&rt, all.as_slice(), of_5.numbers(), of_5.is_cut(), 5);
    let of_6: MemberTable<6> = table_of(&rt, 10, Class::Perfect, 0);
    assert_room(&rt, all.as_slice(), of_6.numbers(), of_6.is_cut(), 6);
    Ok(())
}

#[test]
fn a_table_of_nothing_has_no_number(rt: HostRuntime) {
    let table: MemberTable<3> = MemberTable::new();
    assert!(rt; table.numbers().is_empty() && !table.is_cut());
    assert_eq!(rt; table.next_from(0), None);
}
