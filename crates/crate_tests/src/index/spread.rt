//! Objects at the corners of the plane, and objects at the same distance.
use crate::index::asks::{expect_box, expect_near};
use crate::index::buckets::leaves_over;
use index_layer::Index;
use std::alloc::Global;
use std::process::Abort;
use std::sync::ledger::Ledger;
use step_count::Steps;
use zorder::{Placed, Point, Region};

const TOP: u32 = 4_294_967_295;

const MIDDLE: u32 = 2_147_483_648;

macro_rules! placed {
    ($id:expr, $x:expr, $y:expr) => {
        Placed {
            id: $id,
            at: Point { x: $x, y: $y },
        }
    };
}

// Their ids rise against their keys.
const CORNERS: &[Placed] = &[
    placed!(1, TOP, TOP),
    placed!(2, TOP, 0),
    placed!(3, 0, TOP),
    placed!(4, 0, 0),
];

const LOW: u32 = 2_147_483_647;

const HIGH: u32 = 2_147_483_649;

// One in each quarter, all at the same distance from the middle, and the first three of them.
const AROUND_THE_MIDDLE: &[Placed] = &[
    placed!(1, HIGH, HIGH),
    placed!(2, HIGH, LOW),
    placed!(3, LOW, HIGH),
    placed!(4, LOW, LOW),
];

const FIRST_THREE: &[Placed] = &[
    placed!(1, HIGH, HIGH),
    placed!(2, HIGH, LOW),
    placed!(3, LOW, HIGH),
];

/// A box of one point finds the object that is there, at each corner.
pub(crate) fn finds_each_corner<I: Index, L: Ledger>(
    rt: &impl Abort,
    alloc: Global,
    steps: &mut Steps<L>,
) {
    let index = leaves_over::<I>(alloc, CORNERS).expect(rt, "an index");
    for object in CORNERS {
        let region = Region {
            lo: object.at,
            hi: object.at,
        };
        expect_box(rt, alloc, &index, &region, &[*object], steps);
    }
}

const CENTRE: Point = Point {
    x: MIDDLE,
    y: MIDDLE,
};

/// A nearest-neighbour query ranks objects at the same distance by their ids.
pub(crate) fn ranks_by_id_where_all_are_as_far<I: Index, L: Ledger>(
    rt: &impl Abort,
    alloc: Global,
    steps: &mut Steps<L>,
) {
    let index = leaves_over::<I>(alloc, AROUND_THE_MIDDLE).expect(rt, "an index");
    expect_near(rt, alloc, &index, CENTRE, 3, FIRST_THREE, steps);
    expect_near(rt, alloc, &index, CENTRE, 2_048, AROUND_THE_MIDDLE, steps);
}
