//! A store over a file with more objects than 16 bits count, rotated with its leaves and with new ones.
ghost use Rattle.std.specs.Prelude.{◌≡◌};
ghost use Rattle.store_client.specs.Caller.{IsFree};

use crate::files::{Leaves, Open, close, rotated};
use crate::logs::{END, HEADER};
use disk_mem::MemDisk;
use disk_trait::LogDisk;
use flat_index::FlatIndex;
use index_layer::Index;
use std::alloc::Global;
use std::process::Abort;
use std::sync::Wait;
use store_file::{OpenedStore, Rotated, open_store};

const MANY: u32 = 70_000;

// The record of a put of this object at (id, id) and moment 0.
fn put_of(id: u32) -> [u8; 32] {
    let [a, b, c, d] = id.to_be_bytes();
    [
        1, 1, 0, 0, 0, 0, a, b, c, d, a, b, c, d, a, b, c, d, 0, 0, 0, 0, 0, 0, 0, 0, 0, 0, 0, 0,
        0, 0,
    ]
}

// A drive with a log of these puts.
fn disk_of_many(rt: &impl Abort, alloc: Global) -> MemDisk {
    let mut bytes = Vec::from_slice(alloc, HEADER).expect(rt, "no memory");
    for id in 0..MANY {
        bytes.extend_from_slice(&put_of(id)).expect(rt, "no memory");
    }
    bytes.extend_from_slice(END).expect(rt, "no memory");
    disk_with_room(rt, alloc, bytes)
}

// A drive with these bytes, and with room for 200,000 more records.
fn disk_with_room(rt: &impl Abort, alloc: Global, bytes: Vec<u8>) -> MemDisk {
    MemDisk::new(alloc, bytes, 9_000_000, 1_024, Vec::new(alloc)).expect(rt, "no drive")
}

// Opens a store over a drive with buckets of 4,096. Returns it, and how many objects it has.
fn opened<I: Index, D: LogDisk>(rt: &impl Abort, alloc: Global, disk: D) -> (Open<I, D>, u64)
    ensures free { IsFree result.0.0 result.0.1 }
    ensures parts { result.0.1.parts ≡ 65536 }
{
    match open_store::<I, D>(alloc, disk, "many.log", 4_096) {
        Ok(
            OpenedStore {
                store,
                pass,
                points,
                latest: _,
                records: _,
            },
        ) => ((store, pass), points),
        Err(_) => rt.panic("no store is opened"),
    }
}

// Rotates a store over this drive to that one, closes it, and opens the second file. Returns how many objects there
// are.
fn found_after<I: Index, D: LogDisk, R: Wait + Abort>(
    rt: &R,
    alloc: Global,
    disk: D,
    spare: D,
    leaves: Leaves,
) -> u64 {
    let ((store, pass), _) = opened::<I, D>(rt, alloc, disk);
    let Rotated {
        store,
        pass,
        spare: _,
    } = rotated(rt, alloc, store, pass, spare, leaves);
    let disk = close(rt, store, pass);
    let ((store, pass), points) = opened::<I, D>(rt, alloc, disk);
    let _disk = close(rt, store, pass);
    points
}

#[test]
fn a_rotation_takes_seventy_thousand_objects_over(rt: HostRuntime) {
    for leaves in [Leaves::AsTheyAre, Leaves::Anew] {
        let alloc = rt.alloc();
        let spare = disk_with_room(&rt, alloc, Vec::new(alloc));
        let disk = disk_of_many(&rt, alloc);
        let points = found_after::<FlatIndex, MemDisk, _>(&rt, alloc, disk, spare, leaves);
        assert_same!(rt; points, 70_000);
    }
}
