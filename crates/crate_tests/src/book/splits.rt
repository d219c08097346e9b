//! Splits that a book refuses, and why.
use crate::book::calls::{Leaf, TAKEN};
use crate::book::steps::{Step, Taken, follow_fresh};
use commit_book::BookFault;
use disk_mem::MemDisk;
use kd_trie::KdTrie;

const STEPS: &[Taken] = &[
    (
        Step::Begin(Leaf::Zero),
        Err(BookFault::NoLeaf),
        (0, 0, None),
    ),
    (
        Step::Begin(Leaf::Whole),
        Ok((1, "begun", None)),
        (0, 1, None),
    ),
    (
        Step::Begin(Leaf::Whole),
        Err(BookFault::Splitting { number: 1 }),
        (0, 1, None),
    ),
    (
        Step::Abandon(2),
        Err(BookFault::NotOpen { number: 2 }),
        (0, 1, None),
    ),
    (Step::Abandon(1), Ok(TAKEN), (0, 2, None)),
    (
        Step::Abandon(1),
        Err(BookFault::NotOpen { number: 1 }),
        (0, 2, None),
    ),
    (
        Step::SplitTwice(Leaf::Whole),
        Err(BookFault::Stale { number: 2 }),
        (0, 4, None),
    ),
];

#[test]
fn a_split_is_refused_by_the_cause_that_comes_first(rt: HostRuntime) {
    follow_fresh::<KdTrie, MemDisk>(&rt, rt.alloc(), 4, STEPS);
}
