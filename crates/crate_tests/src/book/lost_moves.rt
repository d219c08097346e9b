//! A move to the point where the object is, whose append fails. A book that is opened again finds the old moment or the
//! new one.
use crate::book::logged::drive_behind;
use crate::book::steps::{Step, Taken};
use crate::logs::fixtures::ONE_CELL;
use crate::memory::disk_of;
use commit_book::BookFault;
use disk_mem::{DiskCall, Fail, MemDisk};
use kd_trie::KdTrie;
use std::alloc::Global;
use std::process::Abort;

// Over a log of put 7 at (3,5), with moment 10.
const STAYING: &[Taken] = &[(
    Step::Move(1, 7, at!(3, 5, 12)),
    Err(BookFault::Disk { cell: 1 }),
    (1, 1, Some(1)),
)];

const OLD: &[Taken] = &[(
    Step::Find(1, 7),
    Ok((1, "at", Some([3, 5, 10]))),
    (1, 1, None),
)];

const NEW: &[Taken] = &[(
    Step::Find(1, 7),
    Ok((1, "at", Some([3, 5, 12]))),
    (2, 1, None),
)];

// The call that fails. Then what is found in the file, and in an image whose free bytes are 1. With any other free
// bytes a crash leaves the old log.
const CALLS: &[(DiskCall, u64, &[Taken], &[Taken])] = &[
    (DiskCall::Write, 1, OLD, OLD),
    (DiskCall::Sync, 2, OLD, OLD),
    (DiskCall::Write, 2, OLD, NEW),
    (DiskCall::Sync, 3, NEW, NEW),
];

// What the move leaves if this call fails.
fn left_by(rt: &impl Abort, alloc: Global, call: DiskCall, number: u64) -> MemDisk {
    let disk = disk_of(rt, alloc, ONE_CELL, &[Fail { call, number }]);
    match drive_behind::<KdTrie, MemDisk>(rt, alloc, disk, STAYING) {
        Some(disk) => disk,
        None => rt.panic("there is no drive"),
    }
}

fn is_found(rt: &impl Abort, alloc: Global, bytes: &[u8], steps: &[Taken]) {
    let disk = disk_of(rt, alloc, bytes, &[]);
    let _left = drive_behind::<KdTrie, MemDisk>(rt, alloc, disk, steps);
}

// What is found in the smallest and in the greatest image with this value in each free byte.
fn is_found_in_images(rt: &impl Abort, alloc: Global, disk: &MemDisk, fill: u8, steps: &[Taken]) {
    for len in [0, 1_024] {
        let image = disk
            .pick(disk.moments(), len, &[fill])
            .expect(rt, "no image");
        is_found(rt, alloc, image.as_slice(), steps);
    }
}

#[test]
fn a_lost_move_to_the_same_point_leaves_the_old_moment_or_the_new(rt: HostRuntime) {
    for (call, number, in_file, in_images) in CALLS {
        let disk = left_by(&rt, rt.alloc(), *call, *number);
        is_found(&rt, rt.alloc(), disk.bytes(), in_file);
        is_found_in_images(&rt, rt.alloc(), &disk, 0, OLD);
        is_found_in_images(&rt, rt.alloc(), &disk, 9, OLD);
        is_found_in_images(&rt, rt.alloc(), &disk, 1, in_images);
    }
}
