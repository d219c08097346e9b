//! Calls of a book. Their contracts say nothing, so that a test's proof knows nothing of what a book promises.
ghost use Rattle.std.specs.Prelude.{◌≡◌};

use commit_book::{Book, BookFault, Done, Snapshot};
use disk_trait::LogDisk;
use index_layer::Index;
use plain_list::{Answer, Op, Stamped};
use split_prepare::{Prepared, prepare};
use std::alloc::Global;
use std::process::Abort;
use zorder::{Name, Point, Region, child};

/// The leaf of the whole space, or the one with the name `0`.
#[derive(Clone, Copy)]
pub enum Leaf {
    Whole,
    Zero,
}

/// The answer to a call: its place or a number, a word, and a position with its moment, or two sizes and 0.
pub type Told = (u64, &'static str, Option<[u64; 3]>);

/// The answer to a step that says only that it was taken.
pub const TAKEN: Told = (0, "taken", None);

fn name_of(leaf: Leaf) -> Name {
    match leaf {
        Leaf::Whole => Name::whole(),
        Leaf::Zero => child(&Name::whole(), false),
    }
}

fn numbers(kept: Stamped) -> Option<[u64; 3]> {
    Some([u64::from(kept.at.x), u64::from(kept.at.y), kept.moment])
}

fn told(done: Result<Done, BookFault>) -> Result<Told, BookFault> {
    match done {
        Ok(done) => Ok(told_of(&done)),
        Err(fault) => Err(fault),
    }
}

fn told_of(done: &Done) -> Told {
    let (word, numbers) = said_of(&done.answer);
    (done.place, word, numbers)
}

/// A word for an answer, and a position with its moment.
pub type Said = (&'static str, Option<[u64; 3]>);

/// The word for an answer, and the position in it.
pub fn said_of(answer: &Answer) -> Said {
    match *answer {
        Answer::Done => ("done", None),
        Answer::Present(kept) => ("present", numbers(kept)),
        Answer::Moved(kept) => ("moved", numbers(kept)),
        Answer::Stale(kept) => ("stale", numbers(kept)),
        Answer::Gone(kept) => ("gone", numbers(kept)),
        Answer::At(kept) => ("at", numbers(kept)),
        Answer::Absent => ("absent", None),
        _ => ("other", None),
    }
}

/// Puts an object in a row of session 1.
pub fn put<I: Index, D: LogDisk>(
    book: &mut Book<I, D>,
    row: u32,
    id: u64,
    to: Stamped,
) -> Result<Told, BookFault> {
    let Stamped { at, moment } = to;
    told(book.update(1, row, &Op::Put { id, at, moment }))
}

/// Moves an object.
pub fn relocate<I: Index, D: LogDisk>(
    book: &mut Book<I, D>,
    row: u32,
    id: u64,
    to: Stamped,
) -> Result<Told, BookFault> {
    let Stamped { at, moment } = to;
    told(book.update(1, row, &Op::Move { id, at, moment }))
}

/// Removes an object.
pub fn remove<I: Index, D: LogDisk>(
    book: &mut Book<I, D>,
    row: u32,
    id: u64,
) -> Result<Told, BookFault> {
    told(book.update(1, row, &Op::Remove { id }))
}

/// Looks up where an object is.
pub fn find<I: Index, D: LogDisk>(
    book: &mut Book<I, D>,
    row: u32,
    id: u64,
) -> Result<Told, BookFault> {
    told(book.update(1, row, &Op::Find { id }))
}

/// A snapshot for a box from (0,0) to (9,9).
pub fn look<I: Index, D: LogDisk>(
    book: &mut Book<I, D>,
    row: u32,
) -> Result<Snapshot<I>, BookFault> {
    let lo = Point { x: 0, y: 0 };
    let hi = Point { x: 9, y: 9 };
    let region = Region { lo, hi };
    book.snapshot(1, row, &Op::Within { region })
}

/// The place of a snapshot, how many rows of the first leaf are only in its base or only in its rows, and how many rows
/// it has.
pub fn seen_in<I: Index>(seen: &Snapshot<I>) -> Told {
    let (_, bucket) = seen.index.leaf_of(0);
    (
        seen.place,
        "seen",
        Some([bucket.delta_len(), bucket.count(), 0]),
    )
}

/// Begins a split, and returns its number.
pub fn begin<I: Index, D: LogDisk>(book: &mut Book<I, D>, leaf: Leaf) -> Result<Told, BookFault> {
    match book.begin(&name_of(leaf)) {
        Ok(ticket) => Ok((ticket.number, "begun", None)),
        Err(fault) => Err(fault),
    }
}

/// Begins a split, and cuts its bucket.
pub fn begin_and_cut<I: Index, D: LogDisk>(
    rt: &impl Abort,
    alloc: Global,
    book: &mut Book<I, D>,
    leaf: Leaf,
) -> Prepared
    ensures { result.width ≡ I.WIDTH }
{
    let ticket = book.begin(&name_of(leaf)).expect(rt, "no split is begun");
    prepare(alloc, &ticket, I::WIDTH).expect(rt, "no bucket is cut")
}

/// Installs a split.
pub fn install<I: Index, D: LogDisk>(
    book: &mut Book<I, D>,
    prepared: &Prepared,
) -> Result<Told, BookFault>
    requires { prepared.now.width ≡ I.WIDTH }
{
    match book.install(prepared) {
        Ok(()) => Ok(TAKEN),
        Err(fault) => Err(fault),
    }
}

/// Abandons a split.
pub fn abandon<I: Index, D: LogDisk>(
    book: &mut Book<I, D>,
    number: u64,
) -> Result<Told, BookFault> {
    match book.abandon(number) {
        Ok(()) => Ok(TAKEN),
        Err(fault) => Err(fault),
    }
}

/// How many cells and entries a book has, and at which cell it is closed.
pub type Stands = (u64, u64, Option<u64>);

/// The state of a book.
pub fn stands<I: Index, D: LogDisk>(book: &Book<I, D>) -> Stands {
    (book.cells(), book.events(), book.closed())
}
