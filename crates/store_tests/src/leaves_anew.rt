//! Stores over files that are rotated with new leaves: leaves that have become empty, and leaves with more objects than
//! the bucket size.
ghost use Rattle.std.specs.Prelude.{◌≡◌};
ghost use Rattle.store_client.specs.Caller.{IsFree};

use crate::files::{FIRST_TWO, Leaves, NOWHERE, Open, close, found_on, open, rotated};
use crate::logs::{EMPTY, END, HEADER, PUT_1, PUT_2, disk_with, expect_bytes};
use book_lock::Pass;
use disk_mem::MemDisk;
use disk_trait::LogDisk;
use flat_index::FlatIndex;
use index_layer::Index;
use sessions::{SharedBook, Store};
use std::alloc::Global;
use std::process::Abort;
use std::sync::Wait;
use store_client::Client;
use store_file::{OpenedStore, OverFile, Rotated};
use zorder::Point;

// A begin and an install of the split of the one leaf.
const BEGIN_1: &[u8] = b"\x01\x04\0\0\0\0\0\0\0\x01\0\0\0\0\0\0\0\0\0\0\0\0\0\0\0\0\0\0\0\0\0\0";

const INSTALL_1: &[u8] = b"\x01\x05\0\0\0\0\0\0\0\x01\0\0\0\0\0\0\0\0\0\0\0\0\0\0\0\0\0\0\0\0\0\0";

// Puts of the objects 5 to 7 in the upper half of the key space, at (2^31, 2^31) and moment 0.
const PUT_5: &[u8] = b"\x01\x01\0\0\0\0\0\0\0\x05\x80\0\0\0\x80\0\0\0\0\0\0\0\0\0\0\0\0\0\0\0\0\0";

const PUT_6: &[u8] = b"\x01\x01\0\0\0\0\0\0\0\x06\x80\0\0\0\x80\0\0\0\0\0\0\0\0\0\0\0\0\0\0\0\0\0";

const PUT_7: &[u8] = b"\x01\x01\0\0\0\0\0\0\0\x07\x80\0\0\0\x80\0\0\0\0\0\0\0\0\0\0\0\0\0\0\0\0\0";

const PUT_8: &[u8] = b"\x01\x01\0\0\0\0\0\0\0\x08\x80\0\0\0\x80\0\0\0\0\0\0\0\0\0\0\0\0\0\0\0\0\0";

const PUT_9: &[u8] = b"\x01\x01\0\0\0\0\0\0\0\x09\x80\0\0\0\x80\0\0\0\0\0\0\0\0\0\0\0\0\0\0\0\0\0";

const FAR: Point = Point {
    x: 1 << 31,
    y: 1 << 31,
};

// Puts two objects in one half and three in the other, so that the one leaf is split, and removes the three.
fn fill_and_drain<I: Index, D: LogDisk, R: Wait>(
    rt: &R,
    alloc: Global,
    store: &Store<I, D, OverFile>,
    pass: Pass<SharedBook<I, D, OverFile>>,
) -> Pass<SharedBook<I, D, OverFile>>
    requires free { IsFree store.now pass }
    ensures free { IsFree store.now result }
    ensures parts { result.parts ≡ pass.parts }
{
    let mut client = Client::new(store, alloc, pass, 7);
    let _ = client.put(rt, 1, Point { x: 3, y: 5 }, 10);
    let _ = client.put(rt, 2, Point { x: 4, y: 4 }, 20);
    let _ = client.put(rt, 5, FAR, 0);
    let _ = client.put(rt, 6, FAR, 0);
    let _ = client.put(rt, 7, FAR, 0);
    let _ = client.remove(rt, 5);
    let _ = client.remove(rt, 6);
    let _ = client.remove(rt, 7);
    client.into_pass()
}

fn opened<I: Index, D: LogDisk>(rt: &impl Abort, alloc: Global, disk: D) -> Open<I, D>
    ensures free { IsFree result.0 result.1 }
    ensures parts { result.1.parts ≡ 65536 }
{
    let OpenedStore {
        store,
        pass,
        points: _,
        latest: _,
        records: _,
    } = open(rt, alloc, disk);
    (store, pass)
}

// Rotates a store, and ends it. Returns its drive, and that of its first file.
fn rotate_and_close<I: Index, D: LogDisk, R: Wait + Abort>(
    rt: &R,
    alloc: Global,
    opened: Open<I, D>,
    spare: D,
    leaves: Leaves,
) -> (D, D)
    requires free { IsFree opened.0 opened.1 }
    requires parts { opened.1.parts ≡ 65536 }
{
    let (store, pass) = opened;
    let Rotated { store, pass, spare } = rotated(rt, alloc, store, pass, spare, leaves);
    let disk = close(rt, store, pass);
    (disk, spare)
}

// An empty drive with room for 133 records.
fn spare_disk(rt: &impl Abort, alloc: Global) -> MemDisk {
    let (bytes, failing) = (Vec::new(alloc), Vec::new(alloc));
    MemDisk::new(alloc, bytes, 8_192, 128, failing).expect(rt, "no drive")
}

// Opens a store over a file with these bytes, rotates it into an empty one and ends it. Returns its drive.
fn rotated_of<R: Wait + Abort>(rt: &R, alloc: Global, bytes: &[&[u8]], leaves: Leaves) -> MemDisk {
    let opened = opened::<FlatIndex, MemDisk>(rt, alloc, disk_with(rt, alloc, bytes));
    let (disk, spare) = rotate_and_close(rt, alloc, opened, spare_disk(rt, alloc), leaves);
    expect_bytes(rt, alloc, &spare, EMPTY);
    disk
}

fn leaves_out_what_is_empty<R: Wait + Abort>(rt: &R, alloc: Global) {
    let (store, pass) = opened::<FlatIndex, MemDisk>(rt, alloc, disk_with(rt, alloc, &[]));
    let pass = fill_and_drain(rt, alloc, &store, pass);
    let spare = disk_with(rt, alloc, &[]);
    let (two, one) = rotate_and_close(rt, alloc, (store, pass), spare, Leaves::AsTheyAre);
    expect_bytes(
        rt,
        alloc,
        &two,
        &[HEADER, BEGIN_1, INSTALL_1, PUT_1, PUT_2, END],
    );
    let opened = opened::<FlatIndex, MemDisk>(rt, alloc, two);
    let (one, two) = rotate_and_close(rt, alloc, opened, one, Leaves::Anew);
    expect_bytes(rt, alloc, &one, &[HEADER, PUT_1, PUT_2, END]);
    expect_bytes(rt, alloc, &two, EMPTY);
    let (found, _) = found_on::<FlatIndex, MemDisk, R>(rt, alloc, one);
    assert_same!(rt; found, (2, Some(20), 2, FIRST_TWO));
}

// Five objects in one leaf, two of them in one half of its keys and three in the other one.
const CROWDED: &[&[u8]] = &[HEADER, PUT_1, PUT_2, PUT_5, PUT_6, PUT_7, END];

const SPLIT: &[&[u8]] = &[
    HEADER, BEGIN_1, INSTALL_1, PUT_1, PUT_2, PUT_5, PUT_6, PUT_7, END,
];

fn splits_what_is_full<R: Wait + Abort>(rt: &R, alloc: Global) {
    let disk = rotated_of(rt, alloc, CROWDED, Leaves::AsTheyAre);
    expect_bytes(rt, alloc, &disk, CROWDED);
    let disk = rotated_of(rt, alloc, CROWDED, Leaves::Anew);
    expect_bytes(rt, alloc, &disk, SPLIT);
    let (found, disk) = found_on::<FlatIndex, MemDisk, R>(rt, alloc, disk);
    assert_same!(rt; found, (5, Some(20), 7, FIRST_TWO));
    expect_bytes(rt, alloc, &disk, SPLIT);
    let disk = rotated_of(rt, alloc, SPLIT, Leaves::Anew);
    expect_bytes(rt, alloc, &disk, SPLIT);
}

// Five objects at one point.
const HEAP: &[&[u8]] = &[HEADER, PUT_5, PUT_6, PUT_7, PUT_8, PUT_9, END];

// A name has at most 64 bits, so as many leaves are split, each by two records.
fn splits_as_far_as_keys_go<R: Wait + Abort>(rt: &R, alloc: Global) {
    let disk = rotated_of(rt, alloc, HEAP, Leaves::Anew);
    assert_same!(rt; disk.bytes().len(), 17 + 32 * (2 * 64 + 5));
    let (found, _) = found_on::<FlatIndex, MemDisk, R>(rt, alloc, disk);
    let nowhere = [NOWHERE, NOWHERE, NOWHERE, NOWHERE];
    assert_same!(rt; found, (5, Some(0), 2 * 64 + 5, nowhere));
}

#[test]
fn leaves_that_became_empty_are_not_written_anew(rt: HostRuntime) {
    leaves_out_what_is_empty(&rt, rt.alloc());
}

#[test]
fn leaves_over_the_size_are_split_anew(rt: HostRuntime) {
    splits_what_is_full(&rt, rt.alloc());
}

#[test]
fn objects_at_one_place_are_split_as_far_as_keys_go(rt: HostRuntime) {
    splits_as_far_as_keys_go(&rt, rt.alloc());
}
