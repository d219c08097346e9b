//! Books that keep no list of their entries, next to books that do.
use crate::book::books::book_on;
use crate::book::calls::{Leaf, Stands, TAKEN, find, put, stands};
use crate::book::logged::{ADDING, CLOSING};
use crate::book::steps::{Step, Taken, follow, take};
use crate::memory::{EMPTY_LOG, disk_of};
use commit_book::{Book, BookFault, MOST_EVENTS, MOST_EVENTS_UNLISTED};
use disk_mem::{DiskCall, Fail, MemDisk};
use disk_trait::LogDisk;
use index_layer::Index;
use kd_trie::KdTrie;
use plain_list::Member;
use std::alloc::Global;
use std::process::Abort;
use zorder::Name;

// How a book stands, how many calls it has, how many more records fit, whether no split may begin, and the leaf to split
// next.
type Looks = (Stands, u64, Option<u64>, bool, Option<Name>);

fn looks<I: Index, D: LogDisk>(book: &Book<I, D>) -> Looks {
    (
        stands(book),
        book.calls(),
        book.room().records,
        book.is_near_end(),
        book.full(),
    )
}

// Whether both books say the same of the entries after each number of them.
fn are_still_alike<I: Index, D: LogDisk>(listed: &Book<I, D>, unlisted: &Book<I, D>) -> bool {
    for count in 0..=listed.events() {
        if listed.is_still_since(count) != unlisted.is_still_since(count) {
            return false;
        }
    }
    true
}

fn room_for_entries<I: Index, D: LogDisk>(book: &Book<I, D>) -> u64 {
    book.room().entries
}

// Takes these steps in both books. Each gives these answers, and they look the same after each step.
fn follow_both<I: Index, D: LogDisk>(
    rt: &impl Abort,
    alloc: Global,
    listed: &mut Book<I, D>,
    unlisted: &mut Book<I, D>,
    steps: &[Taken],
) {
    for (step, told, _) in steps {
        assert_same!(rt; take(rt, alloc, listed, *step), *told);
        assert_same!(rt; take(rt, alloc, unlisted, *step), *told);
        assert_same!(rt; looks(listed), looks(unlisted));
        assert_is!(rt; are_still_alike(listed, unlisted));
    }
}

// Whether both books have the same objects.
fn have_same_objects<I: Index, D: LogDisk>(
    rt: &impl Abort,
    listed: &Book<I, D>,
    unlisted: &Book<I, D>,
) -> bool {
    let listed = listed.content().expect(rt, "no memory");
    let unlisted = unlisted.content().expect(rt, "no memory");
    is_same_list(listed.world.as_slice(), unlisted.world.as_slice())
}

fn is_same_list(left: &[Member], right: &[Member]) -> bool {
    left == right
}

// How many entries a book kept, and the drive of its log.
fn end<I: Index, D: LogDisk>(book: Book<I, D>) -> (usize, Option<D>) {
    let parts = book.into_parts();
    (parts.entries.as_slice().len(), parts.disk)
}

fn is_same_drive(left: &Option<MemDisk>, right: &Option<MemDisk>) -> bool {
    match (left, right) {
        (Some(left), Some(right)) => left.bytes() == right.bytes(),
        _ => false,
    }
}

// Takes these steps in a book with a list and in one without, each over an empty log on a drive of its own, on which these
// calls fail.
fn both_follow(rt: &impl Abort, alloc: Global, failing: &[Fail], steps: &[Taken], events: u64) {
    let disk = disk_of(rt, alloc, EMPTY_LOG, failing);
    let mut listed = book_on::<KdTrie, MemDisk>(rt, alloc, disk);
    let disk = disk_of(rt, alloc, EMPTY_LOG, failing);
    let mut unlisted = book_on::<KdTrie, MemDisk>(rt, alloc, disk).without_list();
    follow_both(rt, alloc, &mut listed, &mut unlisted, steps);
    assert_same!(rt; room_for_entries(&listed), MOST_EVENTS.saturating_sub(events));
    assert_same!(rt; room_for_entries(&unlisted), MOST_EVENTS_UNLISTED.saturating_sub(events));
    assert_is!(rt; have_same_objects(rt, &listed, &unlisted));
    let (whole, left) = end(listed);
    let (none, right) = end(unlisted);
    assert_same!(rt; (whole as u64, none), (events, 0));
    assert_is!(rt; is_same_drive(&left, &right));
}

#[test]
fn a_book_without_a_list_answers_as_one_with_a_list(rt: HostRuntime) {
    both_follow(&rt, rt.alloc(), &[], ADDING, 8);
}

#[test]
fn a_book_without_a_list_is_closed_by_the_same_fault(rt: HostRuntime) {
    let fail = Fail {
        call: DiskCall::Write,
        number: 1,
    };
    both_follow(&rt, rt.alloc(), &[fail], CLOSING, 1);
}

// More entries than a book with a list takes, with room for the rows of a session.
const MANY: u32 = 4_194_400;

fn find_often<I: Index, D: LogDisk>(book: &mut Book<I, D>, rows: u32) -> Result<(), BookFault> {
    for row in 0..rows {
        find(book, row, 7)?;
    }
    Ok(())
}

// What a book does after so many finds: it answers, and splits its leaf.
const AFTER_MANY: &[Taken] = &[
    (
        Step::Find(1, 7),
        Ok((4_194_402, "at", Some([3, 5, 0]))),
        (0, 4_194_402, None),
    ),
    (Step::Split(Leaf::Whole), Ok(TAKEN), (0, 4_194_404, None)),
    (
        Step::Put(2, 8, at!(4, 4)),
        Ok((4_194_403, "done", None)),
        (0, 4_194_405, None),
    ),
];

// Takes so many finds in a book without a list and without a log, and then these steps. The last put is the last change.
fn takes_many<I: Index, D: LogDisk>(rt: &impl Abort, alloc: Global) {
    let book = Book::<I, D>::fresh(alloc, 4).expect(rt, "no book is made");
    let mut book = book.without_list();
    put(&mut book, 1, 7, at!(3, 5)).expect(rt, "the put failed");
    find_often(&mut book, MANY).expect(rt, "a find failed");
    follow(rt, alloc, &mut book, AFTER_MANY);
    assert_is!(rt; !book.is_still_since(1));
    assert_is!(rt; !book.is_still_since(4_194_404));
    assert_is!(rt; book.is_still_since(4_194_405));
}

#[test]
fn a_book_without_a_list_takes_more_entries_than_one_with_a_list(rt: HostRuntime) {
    takes_many::<KdTrie, MemDisk>(&rt, rt.alloc());
}
