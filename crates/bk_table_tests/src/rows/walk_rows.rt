//! Walks that make tables of members, and walks that make none, beside a plain walk.

ghost use Rattle.std.specs.Prelude.{◌<◌, ◌≡◌, ◌≤◌};
ghost use Rattle.bk_word.specs.Word.{order_of};
ghost use Rattle.bk_word.specs.declared.TheConstants.{LARGEST_LISTED_ORDER};

use super::plain_walk::{Member, members};
use bk_play::Steps;
use bk_walk::{TabledWalk, Walk};
use bk_word::{Class, LARGEST_LISTED_ORDER, Word, read_word};
use std::alloc::{AllocError, Global};
use std::cmp::Ordering;
use std::marker::Brand;
use std::process::Abort;
use std::sync::ledger::{Blank, Ledger};
use std::test::Fail;

const CLASSES: [Class; 3] = [Class::Perfect, Class::Imperfect, Class::Simple];

// What walks are held against: an order, a class, and the members of the order.
#[derive(Clone, Copy)]
struct Wanted<'a> {
    order: u8,
    class: Class,
    members: &'a [Member],
}

// A walk makes no table before it has pushed so many moves.
const PUSHES_BEFORE_A_TABLE: u64 = 128;

// A copy of a word of at most 16 squares.
fn copy_of(rt: &impl Abort, alloc: Global, word: &Word) -> Word
    ensures { order_of result ≤ LARGEST_LISTED_ORDER }
{
    let copy = word.copy(alloc).expect(rt, "there is memory");
    assert!(rt; copy.order() <= LARGEST_LISTED_ORDER);
    copy
}

// A walk of an order and a class from the start.
fn walk_from_start<const ROOM: usize>(
    rt: &impl Abort,
    alloc: Global,
    order: u8,
    class: Class,
) -> TabledWalk<ROOM> {
    assert!(rt; order >= 2 && usize::from(order) <= LARGEST_LISTED_ORDER);
    TabledWalk::new(alloc, order, class, None)
}

// A walk after a cursor.
fn walk_after<const ROOM: usize>(
    rt: &impl Abort,
    alloc: Global,
    order: u8,
    class: Class,
    cursor: &Word,
) -> TabledWalk<ROOM> {
    assert!(rt; order >= 2 && usize::from(order) <= LARGEST_LISTED_ORDER);
    TabledWalk::new(alloc, order, class, Some(copy_of(rt, alloc, cursor)))
}

// Asserts the word of the next member of a walk.
fn assert_next<const ROOM: usize, L: Ledger>(
    rt: &impl Abort,
    walk: &mut TabledWalk<ROOM>,
    word: &Word,
    steps: &mut Steps<L>,
) {
    match walk.advance(steps) {
        Some(Ok(entry)) => assert!(rt; entry.word.cmp(word) == Ordering::Equal),
        Some(Err(_)) | None => panic!(rt; "a member is missing"),
    }
}

// A walk gives just the members of the class whose words are after the cursor, and ends. It answers how many moves it
// has pushed.
fn assert_walk<const ROOM: usize, L: Ledger>(
    rt: &impl Abort,
    mut walk: TabledWalk<ROOM>,
    wanted: &Wanted,
    cursor: &Word,
    steps: &mut Steps<L>,
) -> u64 {
    for member in wanted.members {
        if !member.is_of(wanted.class) || member.word.cmp(cursor) != Ordering::Greater {
            continue;
        }
        assert_next(rt, &mut walk, &member.word, steps);
    }
    assert!(rt; walk.advance(steps).is_none());
    walk.pushes()
}

// The first of the members that is of a class and whose word is after a cursor.
fn first_after<'a>(members: &'a [Member], class: Class, cursor: &Word) -> Option<&'a Member> {
    members.iter().find(|member| member.is_of(class)
        && member.word.cmp(cursor) == Ordering::Greater)
}

// A walk without room for a table comes to this member first after a cursor.
fn assert_first<L: Ledger>(
    rt: &impl Abort,
    alloc: Global,
    wanted: &Wanted,
    cursor: &Word,
    steps: &mut Steps<L>,
) {
    let mut walk: TabledWalk<0> = walk_after(rt, alloc, wanted.order, wanted.class, cursor);
    match first_after(wanted.members, wanted.class, cursor) {
        Some(member) => assert_next(rt, &mut walk, &member.word, steps),
        None => assert!(rt; walk.advance(steps).is_none()),
    }
}

// Walks of an order from the start, after each member, and after cursors that no member has.
fn walks<L: Ledger>(
    rt: &impl Abort,
    alloc: Global,
    order: u8,
    blank: Blank,
) -> Result<(), AllocError>
    requires name { blank.name ≡ L.name }
    requires parts { blank.parts ≡ L.parts }
    requires some { 0 < L.parts }
{
    let mut steps: Steps<L> = Steps::new(blank);
    let members = members(rt, alloc, order)?;
    for class in CLASSES {
        let wanted = Wanted {
            order,
            class,
            members: members.as_slice(),
        };
        from_start(rt, alloc, &wanted, &mut steps);
        after_members(rt, alloc, &wanted, &mut steps);
        after_others(rt, alloc, &wanted, &mut steps);
        from_start_with_little_room(rt, alloc, &wanted, &mut steps);
    }
    Ok(())
}

// A walk that leaps pushes few moves more than it waits for, at most as many as the order for each member: one that
// makes no table pushes 29,818 at order 11 in the class perfect.
fn assert_leaps(rt: &impl Abort, wanted: &Wanted, pushed: u64) {
    let for_members = (wanted.members.len() as u64).saturating_mul(u64::from(wanted.order));
    assert!(rt;
        pushed >= PUSHES_BEFORE_A_TABLE
            && pushed <= PUSHES_BEFORE_A_TABLE.saturating_add(for_members)
    );
}

fn from_start<L: Ledger>(rt: &impl Abort, alloc: Global, wanted: &Wanted, steps: &mut Steps<L>) {
    let walk: Walk = walk_from_start(rt, alloc, wanted.order, wanted.class);
    let pushed = assert_walk(rt, walk, wanted, &Word::new(alloc), steps);
    assert_leaps(rt, wanted, pushed);
    assert_first(rt, alloc, wanted, &Word::new(alloc), steps);
}

// A table that has room for three members alone says nothing past its greatest word, so the walk makes it anew from
// there.
fn from_start_with_little_room<L: Ledger>(
    rt: &impl Abort,
    alloc: Global,
    wanted: &Wanted,
    steps: &mut Steps<L>,
) {
    let walk: TabledWalk<3> = walk_from_start(rt, alloc, wanted.order, wanted.class);
    let pushed = assert_walk(rt, walk, wanted, &Word::new(alloc), steps);
    assert_leaps(rt, wanted, pushed);
}

// A walk from each member on: one begins inside a table, one at its last word.
fn after_members<L: Ledger>(rt: &impl Abort, alloc: Global, wanted: &Wanted, steps: &mut Steps<L>) {
    for member in wanted.members {
        let walk: Walk = walk_after(rt, alloc, wanted.order, wanted.class, &member.word);
        assert_walk(rt, walk, wanted, &member.word, steps);
        assert_first(rt, alloc, wanted, &member.word, steps);
    }
}

// The texts of cursors that come before all words, that aren't legal, that aren't complete, that are of another order,
// that come behind a whole table, and behind all words; and the words of images of members of orders 11 and 12, which
// are legal and complete.
fn texts() -> &'static [&'static [u8]] {
    &[
        b"1",
        b"2u.2aa",
        b"2u.2aa.2ue.2eue.1e",
        b"2u.2aa.2ue.2eue.1e.1",
        b"2u.2aa.3uu.1",
        b"2uu",
        b"3aa",
        b"16uuuuuuuuuuuuuuuuu",
        b"2a.2uu.2ea.2aae.2ue.1ee",
        b"3ua.2eaa.1u.2uue.2ea.1ee",
        b"4uua.2eue.1a.2eae.1u.1e",
        b"3ua.2uua.2eaa.1eu.2eae.1u.1e",
        b"4uua.2eae.2eue.1a.2ue.1e",
    ]
}

fn after_others<L: Ledger>(rt: &impl Abort, alloc: Global, wanted: &Wanted, steps: &mut Steps<L>) {
    for text in texts() {
        let word = read_word(alloc, text).expect(rt, "it is a word");
        let walk: Walk = walk_after(rt, alloc, wanted.order, wanted.class, &word);
        assert_walk(rt, walk, wanted, &word, steps);
        assert_first(rt, alloc, wanted, &word, steps);
    }
}

#[test]
fn walks_of_order_11(rt: HostRuntime) -> Result<(), Fail> {
    walks::<Brand>(&rt, rt.alloc(), 11, Blank::new(1))?;
    Ok(())
}

#[test]
fn walks_of_order_12(rt: HostRuntime) -> Result<(), Fail> {
    walks::<Brand>(&rt, rt.alloc(), 12, Blank::new(1))?;
    Ok(())
}
