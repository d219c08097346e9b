//! All objects of an index, the nearest first.
ghost use Rattle.std.specs.Prelude.{◌≡◌};

use crate::index::below::split_over;
use crate::index::buckets::leaves_over;
use crate::worlds::world_of;
use browse_query::Browse;
use flat_index::FlatIndex;
use index_layer::Index;
use kd_trie::KdTrie;
use plain_list::{Answer, Op, PlacedList, answer};
use quad_trie::QuadTrie;
use std::alloc::Global;
use std::marker::Brand;
use std::process::Abort;
use std::sync::ledger::{Blank, Ledger};
use step_count::Steps;
use zorder::{Memory, Placed, Point, key};

const MIDDLE: u32 = 2_147_483_648;

const TOP: u32 = 4_294_967_295;

macro_rules! at {
    ($x:expr, $y:expr) => {
        Point { x: $x, y: $y }
    };
}

const CENTRE: Point = at!(MIDDLE, MIDDLE);

// The browses begin at these points.
const STARTS: &[Point] = &[
    CENTRE,
    at!(MIDDLE + 1, MIDDLE - 1),
    at!(MIDDLE + 900, MIDDLE + 7),
    at!(0, 0),
    at!(TOP, 3),
];

// Each is 5 away from the centre.
const CIRCLE: &[Point] = &[
    at!(MIDDLE + 5, MIDDLE),
    at!(MIDDLE + 4, MIDDLE + 3),
    at!(MIDDLE + 3, MIDDLE + 4),
    at!(MIDDLE, MIDDLE + 5),
    at!(MIDDLE - 3, MIDDLE + 4),
    at!(MIDDLE - 4, MIDDLE - 3),
    at!(MIDDLE, MIDDLE - 5),
    at!(MIDDLE + 3, MIDDLE - 4),
];

const FAR_APART: &[Point] = &[
    at!(0, 0),
    at!(TOP, 0),
    at!(0, TOP),
    at!(TOP, TOP),
    CENTRE,
    at!(MIDDLE - 1, MIDDLE - 1),
];

const SPOT: &[Point] = &[at!(MIDDLE + 1, MIDDLE - 1)];

// A lattice around the centre.
fn lattice(alloc: Global) -> Result<Vec<Point>, Memory> {
    let mut points = Vec::new(alloc);
    for n in 0..49_u32 {
        points.push(at!(MIDDLE - 3 + n % 7, MIDDLE - 3 + n / 7))?;
    }
    Ok(points)
}

// So many objects on each of some points. The ids are all different, and don't rise with the keys.
fn on_each(alloc: Global, points: &[Point], each: u8) -> Result<Vec<Placed>, Memory> {
    let mut objects = Vec::new(alloc);
    let mut id = 7_u64;
    for at in points {
        for _ in 0..each {
            id = id.wrapping_add(37) % 101;
            objects.push(Placed { id, at: *at })?;
        }
    }
    Ok(objects)
}

// Leaves that are split at the points of some objects, several times.
fn split_at<I: Index>(rt: &impl Abort, alloc: Global, objects: &[Placed]) -> I {
    let mut index = leaves_over::<I>(alloc, objects).expect(rt, "an index");
    for _ in 0..4_u8 {
        for object in objects {
            split_over(alloc, &mut index, key(object.at)).expect(rt, "a split");
        }
    }
    index
}

// All objects in the order of the plain list.
fn ranking(rt: &impl Abort, alloc: Global, objects: &[Placed], at: Point) -> PlacedList {
    let world = world_of(alloc, objects).expect(rt, "a world");
    let all = Op::Near { at, k: 2_048 };
    match answer(alloc, &world, &all).expect(rt, "an answer") {
        Answer::Found(list) => list,
        _ => panic!(rt; "no list"),
    }
}

// The next object. If memory runs out, the same call is made again.
fn next_of<I: Index, L: Ledger>(
    rt: &impl Abort,
    browse: &mut Browse<'_, I>,
    steps: &mut Steps<L>,
) -> Option<Placed> {
    match browse.next_counted(steps) {
        Ok(next) => next,
        Err(_) => browse.next_counted(steps).expect(rt, "memory"),
    }
}

// Each of some objects is the next one.
fn goes_on<I: Index, L: Ledger>(
    rt: &impl Abort,
    browse: &mut Browse<'_, I>,
    wanted: &[Placed],
    steps: &mut Steps<L>,
) {
    for object in wanted {
        assert_same!(rt; next_of(rt, browse, steps), Some(*object));
    }
}

fn browses_from<I: Index, L: Ledger>(
    rt: &impl Abort,
    alloc: Global,
    index: &I,
    objects: &[Placed],
    from: Point,
    steps: &mut Steps<L>,
) {
    let wanted = ranking(rt, alloc, objects, from);
    let all = wanted.as_slice();
    let (first, others) = all.split_at(all.len() / 2);
    let mut browse = Browse::new(alloc, index, from);
    goes_on(rt, &mut browse, first, steps);
    let mut other = Browse::new(alloc, index, from);
    goes_on(rt, &mut other, all, steps);
    goes_on(rt, &mut browse, others, steps);
    for _ in 0..2_u8 {
        assert_same!(rt; next_of(rt, &mut browse, steps), None);
    }
}

fn browses_over<I: Index, L: Ledger>(
    rt: &impl Abort,
    alloc: Global,
    points: &[Point],
    each: u8,
    steps: &mut Steps<L>,
) {
    let objects = on_each(alloc, points, each).expect(rt, "objects");
    let index = split_at::<I>(rt, alloc, &objects);
    for from in STARTS {
        browses_from(rt, alloc, &index, &objects, *from, steps);
    }
}

fn browses_as_the_plain_list_ranks<I: Index, L: Ledger>(
    rt: &impl Abort,
    alloc: Global,
    blank: Blank,
)
    requires name { blank.name ≡ L.name }
    requires parts { blank.parts ≡ L.parts }
    requires one_part { blank.parts ≡ 1 }
{
    let mut steps = Steps::<L>::new(blank);
    let lattice = lattice(alloc).expect(rt, "a lattice");
    for points in [&[], SPOT, CIRCLE, FAR_APART, lattice.as_slice()] {
        browses_over::<I, L>(rt, alloc, points, 1, &mut steps);
    }
    browses_over::<I, L>(rt, alloc, SPOT, 24, &mut steps);
    browses_over::<I, L>(rt, alloc, CIRCLE, 3, &mut steps);
}

#[test]
fn a_flat_index_gives_all_objects_in_the_order_of_the_plain_list(rt: HostRuntime) {
    browses_as_the_plain_list_ranks::<FlatIndex, Brand>(&rt, rt.alloc(), Blank::new(1));
}

#[test]
fn a_trie_gives_all_objects_in_the_order_of_the_plain_list(rt: HostRuntime) {
    browses_as_the_plain_list_ranks::<KdTrie, Brand>(&rt, rt.alloc(), Blank::new(1));
}

#[test]
fn a_quad_trie_gives_all_objects_in_the_order_of_the_plain_list(rt: HostRuntime) {
    browses_as_the_plain_list_ranks::<QuadTrie, Brand>(&rt, rt.alloc(), Blank::new(1));
}
