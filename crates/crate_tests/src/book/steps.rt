//! Lists of steps that a book takes.
use crate::book::books::book_on;
use crate::book::calls::{
    Leaf, Stands, TAKEN, Told, abandon, begin, begin_and_cut, find, install, look, put, relocate,
    remove, seen_in, stands,
};
use commit_book::{Book, BookFault};
use disk_trait::LogDisk;
use index_layer::Index;
use plain_list::Stamped;
use std::alloc::Global;
use std::process::Abort;

/// A row of session 1, or a step of a split.
#[derive(Clone, Copy)]
pub enum Step {
    /// No step.
    Stand,
    /// Puts an object, by the row, its id and its position.
    Put(u32, u64, Stamped),
    Move(u32, u64, Stamped),
    Drop(u32, u64),
    /// Puts so many objects with rising ids, from this one on, at points of their own.
    PutMany(u32, u32),
    /// Looks up where an object is.
    Find(u32, u64),
    /// Takes a snapshot.
    Look(u32),
    /// Takes a snapshot, and looks at it after the put of 8 at (4,4) in the next row.
    LookOverPut(u32),
    Begin(Leaf),
    Split(Leaf),
    /// Installs a split twice.
    SplitTwice(Leaf),
    Abandon(u64),
}

/// A step, the book's answer to it, and the state of the book then.
pub type Taken = (Step, Result<Told, BookFault>, Stands);

fn put_many<I: Index, D: LogDisk>(
    book: &mut Book<I, D>,
    first: u32,
    count: u32,
) -> Result<Told, BookFault> {
    for id in first..first.saturating_add(count) {
        put(book, id, u64::from(id), at!(id, 7))?;
    }
    Ok(TAKEN)
}

fn look_at<I: Index, D: LogDisk>(book: &mut Book<I, D>, row: u32) -> Result<Told, BookFault> {
    Ok(seen_in(&look(book, row)?))
}

fn look_over_put<I: Index, D: LogDisk>(
    rt: &impl Abort,
    book: &mut Book<I, D>,
    row: u32,
) -> Result<Told, BookFault> {
    let seen = look(book, row)?;
    put(book, row.saturating_add(1), 8, at!(4, 4)).expect(rt, "the put failed");
    Ok(seen_in(&seen))
}

fn split<I: Index, D: LogDisk>(
    rt: &impl Abort,
    alloc: Global,
    book: &mut Book<I, D>,
    leaf: Leaf,
) -> Result<Told, BookFault> {
    let prepared = begin_and_cut(rt, alloc, book, leaf);
    install(book, &prepared)
}

fn split_twice<I: Index, D: LogDisk>(
    rt: &impl Abort,
    alloc: Global,
    book: &mut Book<I, D>,
    leaf: Leaf,
) -> Result<Told, BookFault> {
    let prepared = begin_and_cut(rt, alloc, book, leaf);
    install(book, &prepared).expect(rt, "the install failed");
    install(book, &prepared)
}

/// Takes a step, and returns the book's answer.
pub fn take<I: Index, D: LogDisk>(
    rt: &impl Abort,
    alloc: Global,
    book: &mut Book<I, D>,
    step: Step,
) -> Result<Told, BookFault> {
    match step {
        Step::Stand => Ok(TAKEN),
        Step::Put(row, id, to) => put(book, row, id, to),
        Step::Move(row, id, to) => relocate(book, row, id, to),
        Step::Drop(row, id) => remove(book, row, id),
        Step::PutMany(first, count) => put_many(book, first, count),
        Step::Find(row, id) => find(book, row, id),
        Step::Look(row) => look_at(book, row),
        Step::LookOverPut(row) => look_over_put(rt, book, row),
        Step::Begin(leaf) => begin(book, leaf),
        Step::Split(leaf) => split(rt, alloc, book, leaf),
        Step::SplitTwice(leaf) => split_twice(rt, alloc, book, leaf),
        Step::Abandon(number) => abandon(book, number),
    }
}

/// Takes these steps in a book.
pub fn follow<I: Index, D: LogDisk>(
    rt: &impl Abort,
    alloc: Global,
    book: &mut Book<I, D>,
    steps: &[Taken],
) {
    for (step, told, stood) in steps {
        expect_told(rt, &take(rt, alloc, book, *step), told);
        expect_stands(rt, stands(book), *stood);
    }
}

fn expect_told(rt: &impl Abort, told: &Result<Told, BookFault>, wanted: &Result<Told, BookFault>) {
    assert_same!(rt; *told, *wanted);
}

fn expect_stands(rt: &impl Abort, stood: Stands, wanted: Stands) {
    assert_same!(rt; stood, wanted);
}

/// Takes these steps in a book without a log.
pub fn follow_fresh<I: Index, D: LogDisk>(
    rt: &impl Abort,
    alloc: Global,
    bucket: u32,
    steps: &[Taken],
) {
    let mut book = Book::<I, D>::fresh(alloc, bucket).expect(rt, "no book is made");
    follow(rt, alloc, &mut book, steps);
}

/// Takes these steps in a book over the log on a drive, and returns the book.
pub fn follow_on<I: Index, D: LogDisk>(
    rt: &impl Abort,
    alloc: Global,
    disk: D,
    steps: &[Taken],
) -> Book<I, D> {
    let mut book = book_on::<I, D>(rt, alloc, disk);
    follow(rt, alloc, &mut book, steps);
    book
}
