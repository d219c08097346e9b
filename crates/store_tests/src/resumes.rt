//! A store that begins with the book that a rotation left.
ghost use Rattle.std.specs.Prelude.{◌≡◌, [], false};
ghost use Rattle.sessions.specs.Shared.{HasWorld, StartsAs};

use crate::files::filled;
use crate::logs::{ANEW, disk_of, disk_with, expect_bytes};
use disk_mem::{DiskCall, Fail, MemDisk};
use disk_trait::LogDisk;
use flat_index::FlatIndex;
use index_layer::Index;
use pisrakun::{Book, ClosedStore, FileStore, NotRotatedStore, ObjectStore, Point, Stamped};
use std::alloc::Global;
use std::process::Abort;
use std::sync::Wait;

// The book over the second drive of a rotation whose first drive fails when its log is cut.
fn book_left<I: Index, D: LogDisk, R: Wait + Abort>(
    rt: &R,
    alloc: Global,
    disk: D,
    spare: D,
) -> Book<I, D>
    ensures none { result.entries ≡ [] }
    ensures world { HasWorld result }
    ensures starts { StartsAs D.drive ⊥ (λ start waits moves. (waits ≡ false) × (moves ≡ false)) result.log }
{
    let (store, pass) = filled::<I, D, R>(rt, alloc, disk);
    let store = ObjectStore::from_parts(alloc, store, pass);
    match store.rotate(rt, spare) {
        Err(NotRotatedStore::Uncleared { book, disk: _ }) => book,
        _ => rt.panic("the first file is cleared"),
    }
}

// How many objects a store has that begins with a book, where the second one is, the place of that look-up, and the
// store's drive.
fn resumes<I: Index, D: LogDisk, R: Wait + Abort>(
    rt: &R,
    alloc: Global,
    disk: D,
    spare: D,
) -> (Option<u64>, Option<Option<Stamped>>, u64, D) {
    let book = book_left::<I, D, R>(rt, alloc, disk, spare);
    let Ok(mut store) = FileStore::<I, D>::resume(alloc, book) else {
        rt.panic("no store begins")
    };
    let len = store.len(rt).ok();
    let found = store.find(rt, 2).ok();
    let place = store.place();
    let ClosedStore { lost, disk } = store.close();
    assert_same!(rt; lost, None);
    (len, found, place, disk)
}

// The first cut of a drive is that of a rotation, which empties the log.
const CUT_FAILS: &[Fail] = &[Fail {
    call: DiskCall::Cut,
    number: 1,
}];

// No test can choose the request of memory for the new lock, after which a program calls `resume`. A drive that fails a
// moment earlier leaves the same book.
#[test]
fn a_store_begins_with_the_book_that_a_rotation_left(rt: HostRuntime) {
    let alloc = rt.alloc();
    let first = disk_of(&rt, alloc, &[], CUT_FAILS);
    let second = disk_with(&rt, alloc, &[]);
    let told = resumes::<FlatIndex, MemDisk, _>(&rt, alloc, first, second);
    let (len, found, place, disk) = told;
    let kept = Stamped {
        at: Point { x: 4, y: 4 },
        moment: 20,
    };
    assert_same!(rt; (len, found, place), (Some(2), Some(Some(kept)), 1));
    expect_bytes(&rt, alloc, &disk, ANEW);
}
