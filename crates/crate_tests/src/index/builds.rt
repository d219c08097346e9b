//! An index that is built over a world, with given leaves.
use crate::checks::same_bucket;
use crate::index::buckets::{child_over, leaves_over};
use bucket_versions::Row;
use flat_index::FlatIndex;
use index_build::build;
use index_layer::Index;
use kd_trie::KdTrie;
use plain_list::World;
use quad_trie::QuadTrie;
use std::alloc::Global;
use std::process::Abort;
use zorder::{Name, Placed, Point};

const HALF: u32 = 2_147_483_648;

macro_rules! placed {
    ($id:expr, $x:expr, $y:expr) => {
        Placed {
            id: $id,
            at: Point { x: $x, y: $y },
        }
    };
}

const FIVE: &[Placed] = &[
    placed!(1, 0, 0),
    placed!(2, HALF, 0),
    placed!(3, 0, HALF),
    placed!(4, HALF, HALF),
    placed!(5, 1, 1),
];

// A key, and the rows of the leaf that it is under.
type LeafRows = (u64, &'static [Row]);

const TWO_LEAVES: &[LeafRows] = &[
    (
        0,
        &[
            Row { key: 0, id: 1 },
            Row { key: 3, id: 5 },
            Row {
                key: 4_611_686_018_427_387_904,
                id: 3,
            },
        ],
    ),
    (
        9_223_372_036_854_775_808,
        &[
            Row {
                key: 9_223_372_036_854_775_808,
                id: 2,
            },
            Row {
                key: 13_835_058_055_282_163_712,
                id: 4,
            },
        ],
    ),
];

const FOUR_LEAVES: &[LeafRows] = &[
    (0, &[Row { key: 0, id: 1 }, Row { key: 3, id: 5 }]),
    (
        4_611_686_018_427_387_904,
        &[Row {
            key: 4_611_686_018_427_387_904,
            id: 3,
        }],
    ),
    (
        9_223_372_036_854_775_808,
        &[Row {
            key: 9_223_372_036_854_775_808,
            id: 2,
        }],
    ),
    (
        13_835_058_055_282_163_712,
        &[Row {
            key: 13_835_058_055_282_163_712,
            id: 4,
        }],
    ),
];

fn has_leaves<I: Index>(rt: &impl Abort, index: &I, leaves: &[LeafRows]) {
    for (key, rows) in leaves {
        let (name, bucket) = index.leaf_of(*key);
        assert_is!(rt; name == child_over::<I>(*key));
        same_bucket(rt, bucket, rows);
    }
}

fn builds_the_leaves_of_one_split<I: Index>(rt: &impl Abort, alloc: Global) {
    let index = leaves_over::<I>(alloc, FIVE).expect(rt, "it failed");
    let leaves = if I::WIDTH == 1 {
        TWO_LEAVES
    } else {
        FOUR_LEAVES
    };
    has_leaves(rt, &index, leaves);
}

fn is_one_empty_leaf<I: Index>(index: &I) -> bool {
    let (name, bucket) = index.leaf_of(0);
    name == Name::whole() && bucket.count() == 0
}

fn builds_one_empty_leaf<I: Index>(rt: &impl Abort, alloc: Global) {
    let world = World::empty(alloc);
    let index = build::<I>(alloc, &world, &[Name::whole()]).expect(rt, "it failed");
    assert_is!(rt; is_one_empty_leaf(&index));
}

fn is_made_with_its_leaves<I: Index>(rt: &impl Abort, alloc: Global) {
    builds_the_leaves_of_one_split::<I>(rt, alloc);
    builds_one_empty_leaf::<I>(rt, alloc);
}

#[test]
fn five_objects_are_shared_out_among_leaves_and_an_empty_world_has_one(rt: HostRuntime) {
    is_made_with_its_leaves::<FlatIndex>(&rt, rt.alloc());
    is_made_with_its_leaves::<KdTrie>(&rt, rt.alloc());
    is_made_with_its_leaves::<QuadTrie>(&rt, rt.alloc());
}
