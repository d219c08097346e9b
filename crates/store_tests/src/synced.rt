//! Clients of a store whose records wait for a sync.
ghost use Rattle.std.specs.Prelude.{◌≡◌};
ghost use Rattle.store_client.specs.Caller.{IsFree};

use crate::logs::{EMPTY, END, HEADER, PUT_1, PUT_2, disk_with, expect_bytes, failing_disk};
use book_lock::Pass;
use commit_book::{Book, BookFault};
use disk_mem::{DiskCall, Fail, MemDisk};
use disk_trait::LogDisk;
use flat_index::FlatIndex;
use index_layer::Index;
use recovery::open;
use sessions::{CallFault, SharedBook, Store};
use split_log::MOST_CELLS;
use std::alloc::Global;
use std::marker::Brand;
use std::process::Abort;
use std::sync::Wait;
use store_client::{Client, PutReply};
use zorder::Point;

const FIRST: Point = Point { x: 3, y: 5 };

const SECOND: Point = Point { x: 4, y: 4 };

// A store over the log on a drive, whose records wait, and the pass that has all its parts.
fn waiting_store<I: Index, D: LogDisk>(
    rt: &impl Abort,
    alloc: Global,
    disk: D,
) -> (Store<I, D, Brand>, Pass<SharedBook<I, D, Brand>>)
    ensures free { IsFree result.0 result.1 }
    ensures parts { result.1.parts ≡ 65536 }
{
    let Ok(opened) = open(alloc, disk, I::WIDTH, MOST_CELLS) else {
        rt.panic("the log isn't opened")
    };
    let _objects = opened.seen.world.as_slice();
    let Ok(book) = Book::<I, D>::opened(alloc, opened, 4) else {
        rt.panic("no book is made")
    };
    let Ok(book) = book.at_sync(alloc) else {
        rt.panic("no memory")
    };
    let Ok(made) = Store::<I, D, Brand>::new(alloc, book) else {
        rt.panic("no store is made")
    };
    made
}

// The answers to a put, to a sync, and to a second put. Returns the drive.
fn put_sync_put<I: Index, D: LogDisk, R: Wait + Abort>(
    rt: &R,
    alloc: Global,
    disk: D,
) -> (
    Result<PutReply, CallFault>,
    Result<u64, BookFault>,
    Result<PutReply, CallFault>,
    Option<D>,
) {
    let (store, pass) = waiting_store::<I, D>(rt, alloc, disk);
    let mut client = Client::new(&store, alloc, pass, 1);
    let first = client.put(rt, 1, FIRST, 10);
    let synced = client.sync(rt);
    let second = client.put(rt, 2, SECOND, 20);
    let pass = client.into_pass();
    let book = store.close(pass);
    (first, synced, second, book.into_parts().disk)
}

#[test]
fn a_sync_writes_what_was_changed_before_it(rt: HostRuntime) {
    let disk = disk_with(&rt, rt.alloc(), EMPTY);
    let (first, synced, second, disk) = put_sync_put::<FlatIndex, MemDisk, _>(
        &rt,
        rt.alloc(),
        disk,
    );
    assert_same!(rt; first, Ok(PutReply::Done));
    assert_same!(rt; synced, Ok(1));
    assert_same!(rt; second, Ok(PutReply::Done));
    let disk = disk.expect(&rt, "no drive");
    expect_bytes(&rt, rt.alloc(), &disk, &[HEADER, PUT_1, END]);
}

// The first write after the opening is that of the sync.
const WRITE_FAILS: &[Fail] = &[Fail {
    call: DiskCall::Write,
    number: 1,
}];

#[test]
fn a_sync_whose_drive_fails_closes_the_store(rt: HostRuntime) {
    let disk = failing_disk(&rt, rt.alloc(), EMPTY, WRITE_FAILS);
    let (first, synced, second, disk) = put_sync_put::<FlatIndex, MemDisk, _>(
        &rt,
        rt.alloc(),
        disk,
    );
    assert_same!(rt; first, Ok(PutReply::Done));
    assert_same!(rt; synced, Err(BookFault::Disk { cell: 0 }));
    assert_same!(rt; second, Err(CallFault::Closed { cell: 0 }));
    let _ = disk;
}

// Two clients, each of which puts an object, and then one syncs. Returns its place and the drive.
fn sync_of_both<I: Index, D: LogDisk, R: Wait + Abort>(
    rt: &R,
    alloc: Global,
    disk: D,
) -> (Result<u64, BookFault>, u64, Option<D>) {
    let (store, pass) = waiting_store::<I, D>(rt, alloc, disk);
    let mut client = Client::new(&store, alloc, pass, 1);
    let mut other = client.another(2);
    let _ = client.put(rt, 1, FIRST, 10);
    let _ = other.put(rt, 2, SECOND, 20);
    let synced = client.sync(rt);
    let place = other.place();
    client.join(other);
    let pass = client.into_pass();
    let book = store.close(pass);
    (synced, place, book.into_parts().disk)
}

#[test]
fn a_sync_writes_what_others_have_changed_too(rt: HostRuntime) {
    let disk = disk_with(&rt, rt.alloc(), EMPTY);
    let (synced, place, disk) = sync_of_both::<FlatIndex, MemDisk, _>(&rt, rt.alloc(), disk);
    assert_same!(rt; synced, Ok(2));
    assert_same!(rt; place, 2);
    let disk = disk.expect(&rt, "no drive");
    expect_bytes(&rt, rt.alloc(), &disk, &[HEADER, PUT_1, PUT_2, END]);
}
