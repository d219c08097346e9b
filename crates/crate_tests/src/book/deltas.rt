//! The delta of a leaf's bucket, through changes and the steps of a split.
use crate::book::calls::{Leaf, TAKEN};
use crate::book::steps::{Step, Taken, follow_fresh};
use disk_mem::MemDisk;
use kd_trie::KdTrie;

// Puts objects during an open split, abandons it, and puts one more.
const STEPS: &[Taken] = &[
    (Step::PutMany(1, 40), Ok(TAKEN), (0, 40, None)),
    (
        Step::Look(41),
        Ok((41, "seen", Some([0, 40, 0]))),
        (0, 41, None),
    ),
    (
        Step::Begin(Leaf::Whole),
        Ok((1, "begun", None)),
        (0, 42, None),
    ),
    (Step::PutMany(101, 40), Ok(TAKEN), (0, 82, None)),
    (
        Step::Look(141),
        Ok((82, "seen", Some([40, 80, 0]))),
        (0, 83, None),
    ),
    (Step::Abandon(1), Ok(TAKEN), (0, 84, None)),
    (
        Step::Look(142),
        Ok((83, "seen", Some([40, 80, 0]))),
        (0, 85, None),
    ),
    (Step::PutMany(201, 1), Ok(TAKEN), (0, 86, None)),
    (
        Step::Look(202),
        Ok((85, "seen", Some([0, 81, 0]))),
        (0, 87, None),
    ),
];

#[test]
fn an_abandoned_split_leaves_its_delta_to_the_next_update(rt: HostRuntime) {
    follow_fresh::<KdTrie, MemDisk>(&rt, rt.alloc(), 64, STEPS);
}
