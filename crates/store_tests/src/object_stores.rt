//! Stores as one value: what one has, a second session, a client that is lent, and stores over files that are rotated.
ghost use Rattle.std.specs.Prelude.{◌≡◌};
ghost use Rattle.pisrakun.specs.Caller.{Keeps};

use crate::logs::{END, HEADER, PUT_1, PUT_4, disk_with, expect_bytes};
use disk_mem::MemDisk;
use disk_trait::LogDisk;
use flat_index::FlatIndex;
use pisrakun::{
    Book, Client, Entry, Errand, FileStore, Found, Index, MemoryStore, NoDrive, ObjectStore, Point,
    Region, Room, RotatedStore, Start, Status, Store,
};
use std::alloc::Global;
use std::marker::Brand;
use std::process::Abort;
use std::sync::Wait;

const BOX: Region = Region {
    lo: Point { x: 0, y: 0 },
    hi: Point { x: 4, y: 9 },
};

// A store in memory with leaves of four objects.
fn memory_store<I: Index>(rt: &impl Abort, alloc: Global) -> MemoryStore<I> {
    let Ok(store) = MemoryStore::<I>::in_memory(alloc, 4) else {
        rt.panic("no store is made")
    };
    store
}

// Three puts, with moments that don't rise.
fn put_three<I: Index, D: LogDisk, O: Start, R: Wait>(rt: &R, store: &mut ObjectStore<I, D, O>) {
    let _ = store.put(rt, 1, Point { x: 3, y: 5 }, 10);
    let _ = store.put(rt, 2, Point { x: 4, y: 4 }, 20);
    let _ = store.put(rt, 3, Point { x: 6, y: 1 }, 15);
}

// How many objects there are, and how many are in the box; and all that the store says of itself.
type Looked = (Option<u64>, Option<u64>, Option<Status>);

fn look<I: Index, D: LogDisk, O: Start, R: Wait>(
    rt: &R,
    store: &mut ObjectStore<I, D, O>,
) -> Looked {
    let len = store.len(rt).ok();
    let inside = store.count(rt, &BOX).ok();
    (len, inside, store.status(rt).ok())
}

// How many entries a history takes whose list isn't kept.
const MOST_ENTRIES: u64 = 1 << 60;

fn status(objects: u64, latest: Option<u64>, entries: u64) -> Option<Status> {
    Some(Status {
        objects,
        latest,
        records: None,
        room: Room {
            entries: MOST_ENTRIES.saturating_sub(entries),
            records: None,
        },
    })
}

fn looks_before_and_after<I: Index, R: Wait + Abort>(rt: &R, alloc: Global) -> [Looked; 2] {
    let mut store = memory_store::<I>(rt, alloc);
    let before = look(rt, &mut store);
    put_three(rt, &mut store);
    let after = look(rt, &mut store);
    store.close();
    [before, after]
}

#[test]
fn a_store_says_what_it_has(rt: HostRuntime) {
    let looked = looks_before_and_after::<FlatIndex, _>(&rt, rt.alloc());
    let before = (Some(0), Some(0), status(0, None, 0));
    let after = (Some(3), Some(2), status(3, Some(20), 3));
    assert_same!(rt; looked, [before, after]);
}

// The session and the row of a call.
fn call_of(entry: &Entry) -> Option<(u8, u32)> {
    match entry {
        Entry::Call { session, row, .. } => Some((*session, *row)),
        _ => None,
    }
}

// A store over a book that keeps the list of its entries.
fn listing_store<I: Index>(rt: &impl Abort, alloc: Global) -> MemoryStore<I> {
    let Ok(book) = Book::<I, NoDrive>::fresh(alloc, 4) else {
        rt.panic("no book is made")
    };
    let Ok((store, pass)) = Store::<I, NoDrive, Brand>::new(alloc, book) else {
        rt.panic("no store is made")
    };
    ObjectStore::from_parts(alloc, store, pass)
}

// Calls of the store, of a session, and of the store again. Returns the places of the last ones of both.
fn call_in_two_sessions<I: Index, R: Wait>(rt: &R, store: &mut MemoryStore<I>) -> (u64, u64) {
    let _ = store.put(rt, 1, Point { x: 3, y: 5 }, 10);
    let mut other = store.session(9);
    let _ = other.put(rt, 2, Point { x: 4, y: 4 }, 20);
    let place = other.place();
    let _ = store.find(rt, 2);
    (place, store.place())
}

const CALLS: [Option<(u8, u32)>; 3] = [Some((0, 0)), Some((9, 0)), Some((0, 1))];

fn has_two_sessions<I: Index, R: Wait + Abort>(rt: &R, alloc: Global) {
    let mut store = listing_store::<I>(rt, alloc);
    let places = call_in_two_sessions(rt, &mut store);
    let (store, pass) = store.into_parts();
    let entries = store.close(pass).into_parts().entries;
    let calls = entries.as_slice().iter().map(call_of);
    assert_is!(rt; calls.eq(CALLS.iter().copied()));
    assert_same!(rt; places, (2, 3));
}

#[test]
fn a_second_session_has_rows_and_a_place_of_its_own(rt: HostRuntime) {
    has_two_sessions::<FlatIndex, _>(&rt, rt.alloc());
}

// Two clients that put an object each. The first sees the other's after it has joined it.
#[derive(Drop)]
struct TwoClients;

impl<R: Wait> Errand<R> for TwoClients {
    type Answer = bool;

    fn run<I: Index, D: LogDisk, O: Start>(self, rt: &R, client: &mut Client<'_, I, D, O>) -> bool {
        let mut other = client.another(3);
        let _ = other.put(rt, 7, Point { x: 1, y: 1 }, 0);
        client.join(other);
        let found = client.find(rt, 7);
        found.is_ok_and(|found| found.is_some())
    }
}

fn lends<I: Index, R: Wait + Abort>(rt: &R, alloc: Global) -> (bool, Option<u64>) {
    let mut store = memory_store::<I>(rt, alloc);
    let is_found = store.lend(rt, TwoClients);
    let len = store.len(rt).ok();
    store.close();
    (is_found, len)
}

#[test]
fn a_client_is_lent_and_splits_off_another(rt: HostRuntime) {
    let told = lends::<FlatIndex, _>(&rt, rt.alloc());
    assert_same!(rt; told, (true, Some(1)));
}

// A store over the log on a drive, and what was found there.
fn file_store<I: Index, D: LogDisk>(
    rt: &impl Abort,
    alloc: Global,
    disk: D,
) -> (FileStore<I, D>, Found) {
    let Ok(opened) = FileStore::<I, D>::open_file(alloc, disk, "a.log", 4) else {
        rt.panic("no store is opened")
    };
    opened
}

// Rotates a store into another file, with new leaves, and puts an object there. Returns both drives.
fn rotates<I: Index, D: LogDisk, R: Wait + Abort>(
    rt: &R,
    alloc: Global,
    first: D,
    second: D,
) -> (D, D) {
    let (store, _) = file_store::<I, D>(rt, alloc, first);
    let (mut store, spare) = match store.rotate_anew(rt, second) {
        Ok(RotatedStore { store, spare }) => (store, spare),
        _ => rt.panic("the store isn't rotated"),
    };
    let _ = store.put(rt, 4, Point { x: 7, y: 7 }, 30);
    (spare, store.close().disk)
}

#[test]
fn a_store_continues_over_a_second_file_with_new_leaves(rt: HostRuntime) {
    let first = disk_with(&rt, rt.alloc(), &[HEADER, PUT_1, END]);
    let second = disk_with(&rt, rt.alloc(), &[]);
    let told = rotates::<FlatIndex, MemDisk, _>(&rt, rt.alloc(), first, second);
    let (first, second) = told;
    expect_bytes(&rt, rt.alloc(), &first, &[HEADER, END]);
    expect_bytes(&rt, rt.alloc(), &second, &[HEADER, PUT_1, PUT_4, END]);
}
