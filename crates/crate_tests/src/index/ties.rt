//! Objects at the same distance from a point: on a circle, at one point, and on a ring of points.
use crate::index::asks::expect_near;
use crate::index::buckets::leaves_over;
use crate::worlds::world_of;
use index_layer::Index;
use plain_list::{Answer, Op, PlacedList, World, answer};
use std::alloc::Global;
use std::process::Abort;
use std::sync::ledger::Ledger;
use step_count::Steps;
use zorder::{Memory, Placed, Point};

const MIDDLE: u32 = 2_147_483_648;

const CENTRE: Point = Point {
    x: MIDDLE,
    y: MIDDLE,
};

macro_rules! at {
    ($x:expr, $y:expr) => {
        Point { x: $x, y: $y }
    };
}

// Each is at distance 5 from the centre.
const CIRCLE: &[Point] = &[
    at!(MIDDLE + 5, MIDDLE),
    at!(MIDDLE + 4, MIDDLE + 3),
    at!(MIDDLE + 3, MIDDLE + 4),
    at!(MIDDLE, MIDDLE + 5),
    at!(MIDDLE - 3, MIDDLE + 4),
    at!(MIDDLE - 4, MIDDLE - 3),
    at!(MIDDLE, MIDDLE - 5),
    at!(MIDDLE + 3, MIDDLE - 4),
];

// So many at each of some points. The ids are all different, and don't rise with the keys.
fn on_each(alloc: Global, points: &[Point], each: u8) -> Result<Vec<Placed>, Memory> {
    let mut objects = Vec::new(alloc);
    let mut id = 7_u64;
    for at in points {
        for _ in 0..each {
            id = id.wrapping_add(37) % 101;
            objects.push(Placed { id, at: *at })?;
        }
    }
    Ok(objects)
}

fn near_in(rt: &impl Abort, alloc: Global, world: &World, at: Point, k: u32) -> PlacedList {
    match answer(alloc, world, &Op::Near { at, k }).expect(rt, "an answer") {
        Answer::Found(list) => list,
        _ => panic!(rt; "no list"),
    }
}

// Nearest-neighbour queries for fewer objects than there are, for as many and for more return what the plain list does.
fn agrees_at<I: Index, L: Ledger>(
    rt: &impl Abort,
    alloc: Global,
    objects: &[Placed],
    at: Point,
    steps: &mut Steps<L>,
) {
    let world = world_of(alloc, objects).expect(rt, "a world");
    let index = leaves_over::<I>(alloc, objects).expect(rt, "an index");
    for many in [1, 3, 7, 8, 9, 23, 24, 25_u32] {
        let k = many.clamp(1, 2_048);
        let wanted = near_in(rt, alloc, &world, at, k);
        expect_near(rt, alloc, &index, at, k, wanted.as_slice(), steps);
    }
}

/// Ids decide among objects at the same distance, however many of them a query may return.
pub(crate) fn agrees_with_the_plain_list_on_ties<I: Index, L: Ledger>(
    rt: &impl Abort,
    alloc: Global,
    steps: &mut Steps<L>,
) {
    let circle = on_each(alloc, CIRCLE, 1).expect(rt, "a circle");
    let spot = on_each(alloc, &[at!(MIDDLE + 1, MIDDLE - 1)], 24).expect(rt, "a spot");
    let ring = on_each(alloc, CIRCLE, 3).expect(rt, "a ring of spots");
    for objects in [&circle, &spot, &ring] {
        agrees_at::<I, L>(rt, alloc, objects, CENTRE, steps);
        agrees_at::<I, L>(rt, alloc, objects, at!(MIDDLE + 1, MIDDLE - 1), steps);
    }
}
