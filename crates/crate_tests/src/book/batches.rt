//! Batches of a book: the answer to each operation, one append for all changes, and a batch that is lost.
ghost use Rattle.std.specs.Prelude.{◌+◌, ◌^◌, ◌≤◌, length};
ghost use Rattle.std.specs.List.{AllByRecursion};
ghost use Rattle.commit_book.specs.Answers.{IsUpdate};

use crate::book::books::book_on;
use crate::book::calls::{Leaf, Said, TAKEN, begin_and_cut, install, said_of, stands};
use crate::logs::fixtures::log_of;
use crate::memory::{EMPTY_LOG, disk_of};
use cell_format::Cell;
use commit_book::{BatchDone, Book, BookFault};
use disk_mem::{DiskCall, Fail, MemDisk};
use disk_trait::LogDisk;
use index_layer::Index;
use kd_trie::KdTrie;
use plain_list::{Entries, Entry, Lost, Op};
use std::alloc::Global;
use std::process::Abort;
use zorder::{Name, Point, child};

/// Later operations meet what earlier ones of the same batch did.
pub const BATCH: [Op; 8] = [
    Op::Put {
        id: 7,
        at: Point { x: 3, y: 5 },
        moment: 10,
    },
    Op::Put {
        id: 9,
        at: Point { x: 9, y: 5 },
        moment: 0,
    },
    Op::Move {
        id: 7,
        at: Point { x: 4, y: 5 },
        moment: 9,
    },
    Op::Move {
        id: 7,
        at: Point { x: 4, y: 5 },
        moment: 10,
    },
    Op::Find { id: 7 },
    Op::Remove { id: 9 },
    Op::Put {
        id: 9,
        at: Point { x: 1, y: 1 },
        moment: 3,
    },
    Op::Move {
        id: 8,
        at: Point { x: 1, y: 1 },
        moment: 3,
    },
];

/// The answers in a world without objects.
pub const ANSWERS: [Said; 8] = [
    ("done", None),
    ("done", None),
    ("stale", Some([3, 5, 10])),
    ("moved", Some([3, 5, 10])),
    ("at", Some([4, 5, 10])),
    ("gone", Some([9, 5, 0])),
    ("done", None),
    ("absent", None),
];

/// The records of the five changes.
pub const CELLS: [Cell; 5] = [
    Cell::Put {
        id: 7,
        at: Point { x: 3, y: 5 },
        moment: 10,
    },
    Cell::Put {
        id: 9,
        at: Point { x: 9, y: 5 },
        moment: 0,
    },
    Cell::Move {
        id: 7,
        at: Point { x: 4, y: 5 },
        moment: 10,
    },
    Cell::Remove { id: 9 },
    Cell::Put {
        id: 9,
        at: Point { x: 1, y: 1 },
        moment: 3,
    },
];

/// Makes a batch whose first operation has this row. Its contract says nothing of the result.
pub fn make<I: Index, D: LogDisk>(
    alloc: Global,
    book: &mut Book<I, D>,
    row: u32,
    ops: &[Op],
) -> Result<BatchDone, BookFault>
    requires updates { AllByRecursion IsUpdate ops.now }
    requires rows { row + length ops.now ≤ 2 ^ 32 }
{
    book.update_all(alloc, 1, row, ops)
}

fn is_told(done: &BatchDone, wanted: &[Said]) -> bool {
    done.answers.iter().map(said_of).eq(wanted.iter().copied())
}

/// The place of the last call of a batch, whether the answers are these, and the leaf to split next.
pub type Made = (u64, bool, Option<Name>);

/// What a batch returned, with whether its answers are these.
pub fn made(done: Result<BatchDone, BookFault>, wanted: &[Said]) -> Result<Made, BookFault> {
    let done = done?;
    Ok((done.place, is_told(&done, wanted), done.full))
}

// The row of session 1 that was lost with record 0.
fn lost_row(entry: &Entry) -> Option<u32> {
    match entry {
        Entry::Fail {
            cell: 0,
            lost: Lost::Call {
                session: 1,
                row,
                ..
            },
        } => Some(*row),
        _ => None,
    }
}

// The history of a book, and the drive of its log.
fn end<I: Index, D: LogDisk>(book: Book<I, D>) -> (Entries, Option<D>) {
    let parts = book.into_parts();
    (parts.entries, parts.disk)
}

// The answers if the same batch is made again.
const AGAIN: [Said; 8] = [
    ("present", Some([4, 5, 10])),
    ("present", Some([1, 1, 3])),
    ("stale", Some([4, 5, 10])),
    ("moved", Some([4, 5, 10])),
    ("at", Some([4, 5, 10])),
    ("gone", Some([1, 1, 3])),
    ("done", None),
    ("absent", None),
];

pub const MADE: Result<Made, BookFault> = Ok((8, true, None));

/// How many moments a drive has, the opening's sync among them, and whether it has these bytes.
pub fn stands_on(disk: &Option<MemDisk>, bytes: &[u8]) -> Option<(u64, bool)> {
    let disk = disk.as_ref()?;
    Some((disk.moments(), disk.bytes() == bytes))
}

#[test]
fn a_batch_is_answered_in_order_and_appended_at_once(rt: HostRuntime) {
    let disk = disk_of(&rt, rt.alloc(), EMPTY_LOG, &[]);
    let mut book = book_on::<KdTrie, MemDisk>(&rt, rt.alloc(), disk);
    let done = make(rt.alloc(), &mut book, 1, &BATCH);
    assert_same!(rt; made(done, &ANSWERS), MADE);
    assert_same!(rt; stands(&book), (5, 8, None));
    let (_, disk) = end(book);
    let log = log_of(&rt, rt.alloc(), &CELLS, &[0]);
    assert_same!(rt; stands_on(&disk, log.as_slice()), Some((5, true)));
}

#[test]
fn a_batch_meets_what_an_earlier_one_left(rt: HostRuntime) {
    let mut book = Book::<KdTrie, MemDisk>::fresh(rt.alloc(), 4).expect(&rt, "no book is made");
    let one = make(rt.alloc(), &mut book, 1, &BATCH);
    let two = make(rt.alloc(), &mut book, 9, &BATCH);
    assert_same!(rt; made(one, &ANSWERS), MADE);
    assert_same!(rt; made(two, &AGAIN), Ok((16, true, None)));
    assert_same!(rt; stands(&book), (0, 16, None));
}

#[test]
fn a_batch_without_a_change_makes_no_call_of_the_drive(rt: HostRuntime) {
    let disk = disk_of(&rt, rt.alloc(), EMPTY_LOG, &[]);
    let mut book = book_on::<KdTrie, MemDisk>(&rt, rt.alloc(), disk);
    let none = make(rt.alloc(), &mut book, 1, &[]);
    let quiet = make(
        rt.alloc(),
        &mut book,
        1,
        &[Op::Find { id: 7 }, Op::Remove { id: 8 }],
    );
    assert_same!(rt; made(none, &[]), Ok((0, true, None)));
    assert_same!(rt; made(quiet, &[("absent", None), ("absent", None)]), Ok((2, true, None)));
    let (_, disk) = end(book);
    assert_same!(rt; stands_on(&disk, EMPTY_LOG), Some((1, true)));
}

// An opening syncs once. An append writes, syncs, writes and syncs.
const CALLS: &[(DiskCall, u64)] = &[
    (DiskCall::Write, 1),
    (DiskCall::Sync, 2),
    (DiskCall::Write, 2),
    (DiskCall::Sync, 3),
];

// The rows of the five changes of the batch.
const LOST_ROWS: [Option<u32>; 5] = [Some(1), Some(2), Some(4), Some(6), Some(7)];

// Makes the batch on a drive on which this call fails, and then tries it once more.
fn lose(rt: &impl Abort, alloc: Global, call: DiskCall, number: u64) {
    let disk = disk_of(rt, alloc, EMPTY_LOG, &[Fail { call, number }]);
    let mut book = book_on::<KdTrie, MemDisk>(rt, alloc, disk);
    let one = make(alloc, &mut book, 1, &BATCH);
    assert_same!(rt; made(one, &[]), Err(BookFault::Disk { cell: 0 }));
    let two = make(alloc, &mut book, 9, &BATCH);
    assert_same!(rt; made(two, &[]), Err(BookFault::Closed { cell: 0 }));
    assert_same!(rt; stands(&book), (0, 5, Some(0)));
    let index = book.glance().ok().expect(rt, "no memory");
    assert_same!(rt; index.leaf_of(0).1.count(), 0);
    let (entries, _) = end(book);
    let lost = entries.as_slice().iter().map(lost_row);
    assert_is!(rt; lost.eq(LOST_ROWS.iter().copied()));
}

#[test]
fn a_batch_that_is_lost_changes_nothing_and_closes_the_book(rt: HostRuntime) {
    for (call, number) in CALLS {
        lose(&rt, rt.alloc(), *call, *number);
    }
}

// Puts of five objects, one more than a leaf should have.
const FIVE: [Op; 5] = [
    Op::Put {
        id: 1,
        at: Point { x: 1, y: 1 },
        moment: 0,
    },
    Op::Put {
        id: 2,
        at: Point { x: 2, y: 1 },
        moment: 0,
    },
    Op::Put {
        id: 3,
        at: Point { x: 3, y: 1 },
        moment: 0,
    },
    Op::Put {
        id: 4,
        at: Point { x: 4, y: 1 },
        moment: 0,
    },
    Op::Put {
        id: 5,
        at: Point { x: 5, y: 1 },
        moment: 0,
    },
];

const FIVE_DONE: [Said; 5] = [("done", None); 5];

const FINDS: [Op; 3] = [Op::Find { id: 7 }, Op::Find { id: 9 }, Op::Find { id: 5 }];

const FOUND: [Said; 3] = [
    ("at", Some([4, 5, 10])),
    ("at", Some([1, 1, 3])),
    ("at", Some([5, 1, 0])),
];

#[test]
fn a_batch_tells_the_leaf_to_split_and_meets_an_open_split(rt: HostRuntime) {
    let mut book = Book::<KdTrie, MemDisk>::fresh(rt.alloc(), 4).expect(&rt, "no book is made");
    let one = make(rt.alloc(), &mut book, 1, &FIVE);
    assert_same!(rt; made(one, &FIVE_DONE), Ok((5, true, Some(Name::whole()))));
    let prepared = begin_and_cut(&rt, rt.alloc(), &mut book, Leaf::Whole);
    let two = make(rt.alloc(), &mut book, 6, &BATCH);
    assert_same!(rt; made(two, &ANSWERS), Ok((13, true, None)));
    assert_same!(rt; install(&mut book, &prepared), Ok(TAKEN));
    let three = make(rt.alloc(), &mut book, 14, &FINDS);
    let zero = child(&Name::whole(), false);
    assert_same!(rt; made(three, &FOUND), Ok((16, true, Some(zero))));
}
