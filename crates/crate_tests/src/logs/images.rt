//! What one append leaves, and what a crash may leave of it.
use crate::checks::same_bytes;
use crate::logs::appends::{Appended, Kept, Left, append_in, journal_of};
use crate::logs::fixtures::{ONE_CELL, PUT_7};
use crate::memory::{EMPTY_LOG, disk_of};
use disk_mem::{DiskCall, Fail as Failing, PickFault};
use split_log::AppendFault;
use std::alloc::Global;
use std::process::Abort;

const DONE: Appended = (None, None, 1);

const LOST: Appended = (Some(AppendFault::Disk { cell: 0 }), Some(0), 0);

const KEPT: Kept = (1, None, false);

// Whether an append leaves a log of one cell, in the file and in the image of a crash, over five moments: a sync of the
// opening, and a write, a sync, a write and a sync.
fn expect_worked_bytes(rt: &impl Abort, left: &Left) {
    same_bytes(rt, left.bytes.as_slice(), ONE_CELL);
    same_bytes(rt, left.image.as_slice(), ONE_CELL);
    assert_same!(rt; (left.appended, left.moments), (DONE, 5));
}

#[test]
fn an_append_leaves_the_worked_bytes(rt: HostRuntime) {
    let left = append_in(&rt, rt.alloc(), EMPTY_LOG, &PUT_7, &[], 0, 9);
    expect_worked_bytes(&rt, &left);
}

#[test]
fn an_opened_log_keeps_the_worked_cell(rt: HostRuntime) {
    assert_same!(rt; journal_of(&rt, rt.alloc(), EMPTY_LOG, &PUT_7), (KEPT, 49));
}

// The length of the image with this value in each free byte, if the sync of this number fails, then its commit byte,
// and the state of the log. The opening's sync is the first.
fn closed(rt: &impl Abort, alloc: Global, sync: u64, fill: u8) -> (usize, Option<u8>, Appended) {
    let failing = Failing {
        call: DiskCall::Sync,
        number: sync,
    };
    let left = append_in(rt, alloc, EMPTY_LOG, &PUT_7, &[failing], 49, fill);
    let commit_byte = left.image.get(16).copied();
    (left.image.len(), commit_byte, left.appended)
}

const CLOSED: &[(u64, u8, u8)] = &[(2, 1, 0), (2, 0, 0), (3, 1, 1), (3, 0, 0)];

#[test]
fn a_failed_sync_closes_the_log_at_its_cell(rt: HostRuntime) {
    for (sync, fill, commit_byte) in CLOSED {
        let wanted = (49, Some(*commit_byte), LOST);
        assert_same!(rt; closed(&rt, rt.alloc(), *sync, *fill), wanted);
    }
}

// Why no image of a moment of a new drive is picked.
fn unpicked(rt: &impl Abort, alloc: Global, moment: u64) -> Option<PickFault> {
    disk_of(rt, alloc, EMPTY_LOG, &[])
        .pick(moment, 49, &[1])
        .err()
}

#[test]
fn no_image_is_picked_above_the_clock(rt: HostRuntime) {
    assert_same!(rt; unpicked(&rt, rt.alloc(), 0), None);
    let behind = PickFault::NoMoment { moments: 0 };
    assert_same!(rt; unpicked(&rt, rt.alloc(), 1), Some(behind));
}
