//! Snapshots of a book that continues.
use crate::book::steps::{Step, Taken, follow_fresh};
use disk_mem::MemDisk;
use kd_trie::KdTrie;

// A snapshot that is kept over a put, and one after it.
const STEPS: &[Taken] = &[
    (
        Step::Put(1, 7, at!(3, 5)),
        Ok((1, "done", None)),
        (0, 1, None),
    ),
    (
        Step::LookOverPut(2),
        Ok((2, "seen", Some([0, 1, 0]))),
        (0, 3, None),
    ),
    (
        Step::Look(4),
        Ok((4, "seen", Some([0, 2, 0]))),
        (0, 4, None),
    ),
];

#[test]
fn a_snapshot_keeps_its_rows_while_the_book_goes_on(rt: HostRuntime) {
    follow_fresh::<KdTrie, MemDisk>(&rt, rt.alloc(), 64, STEPS);
}
