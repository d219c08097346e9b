//! Views of every form of index, compared with the plain list and with answers by hand.
ghost use Rattle.std.specs.Prelude.{◌≡◌};
ghost use Rattle.zorder.specs.Region.{IsBox};

use crate::index::below::split_over;
use crate::index::buckets::{change, leaves_over};
use crate::index::changes::{put, shift, take};
use crate::worlds::world_of;
use bucket_versions::Undone;
use flat_index::FlatIndex;
use index_layer::Index;
use index_view::{View, Visit};
use kd_trie::KdTrie;
use plain_list::{Answer, Op, PlacedList, World, answer};
use quad_trie::QuadTrie;
use std::alloc::Global;
use std::marker::Brand;
use std::process::Abort;
use std::sync::ledger::{Blank, Ledger};
use step_count::Steps;
use zorder::{Memory, Placed, Point, Region, key};

const MIDDLE: u32 = 2_147_483_648;

const END: u32 = 4_294_967_295;

macro_rules! at {
    ($x:expr, $y:expr) => {
        Point { x: $x, y: $y }
    };
}

macro_rules! region {
    ($lo:expr, $hi:expr) => {
        Region { lo: $lo, hi: $hi }
    };
}

const CENTRE: Point = at!(MIDDLE, MIDDLE);

const BESIDE: Point = at!(MIDDLE + 1, MIDDLE - 1);

// Each is 5 away from the centre.
const CIRCLE: &[Point] = &[
    at!(MIDDLE + 5, MIDDLE),
    at!(MIDDLE + 4, MIDDLE + 3),
    at!(MIDDLE + 3, MIDDLE + 4),
    at!(MIDDLE, MIDDLE + 5),
    at!(MIDDLE - 3, MIDDLE + 4),
    at!(MIDDLE - 4, MIDDLE - 3),
    at!(MIDDLE, MIDDLE - 5),
    at!(MIDDLE + 3, MIDDLE - 4),
];

const WHOLE: Region = region!(at!(0, 0), at!(END, END));

// The whole space, a half, a band, a box around the centre, and single points.
const REGIONS: &[Region] = &[
    WHOLE,
    region!(at!(0, 0), at!(MIDDLE - 1, END)),
    region!(at!(0, MIDDLE), at!(END, MIDDLE + 3)),
    region!(at!(MIDDLE - 4, MIDDLE - 4), at!(MIDDLE + 4, MIDDLE + 4)),
    region!(at!(MIDDLE + 5, MIDDLE), at!(MIDDLE + 5, MIDDLE)),
    region!(BESIDE, BESIDE),
    region!(at!(0, 0), at!(0, 0)),
];

// So many on each of some points. The ids are all different, and don't rise with the keys.
fn on_each(alloc: Global, points: &[Point], each: u8) -> Result<Vec<Placed>, Memory> {
    let mut objects = Vec::new(alloc);
    let mut id = 7_u64;
    for at in points {
        for _ in 0..each {
            id = id.wrapping_add(37) % 101;
            objects.push(Placed { id, at: *at })?;
        }
    }
    Ok(objects)
}

// A lattice of 10 by 10 points over the whole space, some of them on its edges.
fn lattice(alloc: Global) -> Result<Vec<Placed>, Memory> {
    let mut objects = Vec::new(alloc);
    for place in 0..100_u32 {
        let at = at!((place % 10) * 477_218_588, (place / 10) * 477_218_588);
        let id = u64::from(place).wrapping_mul(37) % 101;
        objects.push(Placed { id, at })?;
    }
    Ok(objects)
}

fn box_in(rt: &impl Abort, alloc: Global, world: &World, region: &Region) -> PlacedList {
    match answer(alloc, world, &Op::Within { region: *region }).expect(rt, "an answer") {
        Answer::Found(list) => list,
        _ => panic!(rt; "no list"),
    }
}

fn near_in(rt: &impl Abort, alloc: Global, world: &World, at: Point, k: u32) -> PlacedList {
    match answer(alloc, world, &Op::Near { at, k }).expect(rt, "an answer") {
        Answer::Found(list) => list,
        _ => panic!(rt; "no list"),
    }
}

// What a visitor met, unless memory ran out.
#[derive(Drop)]
struct Met {
    objects: Vec<Placed>,
    is_short: bool,
}

impl Visit for Met {
    fn visit(&mut self, object: Placed) {
        if self.objects.push(object).is_err() {
            self.is_short = true;
        }
    }
}

// A visitor meets the objects in the order of their keys, and of their ids at one point.
fn meets_each<I: Index>(
    rt: &impl Abort,
    alloc: Global,
    view: &View<I>,
    region: &Region,
    wanted: &[Placed],
)
    requires { IsBox region.now }
{
    let mut met = Met {
        objects: Vec::new(alloc),
        is_short: false,
    };
    view.for_each_in(region, &mut met);
    let mut in_order = Vec::from_slice(alloc, wanted).expect(rt, "a copy");
    in_order.sort_by_key(|m| key(m.at)).expect(rt, "memory");
    assert_is!(rt; !met.is_short);
    assert_same!(rt; met.objects.as_slice(), in_order.as_slice());
}

fn agrees_in<I: Index>(
    rt: &impl Abort,
    alloc: Global,
    view: &View<I>,
    world: &World,
    region: &Region,
)
    requires { IsBox region.now }
{
    let wanted = box_in(rt, alloc, world, region);
    let found = view.within(alloc, region).expect(rt, "a list");
    assert_same!(rt; found.as_slice(), wanted.as_slice());
    assert_same!(rt; view.count(region), wanted.as_slice().len() as u64);
    meets_each(rt, alloc, view, region, wanted.as_slice());
}

fn agrees_at<I: Index>(rt: &impl Abort, alloc: Global, view: &View<I>, world: &World, at: Point) {
    for k in [0, 1, 3, 7, 8, 9, 24, 25, 101, 2_048, 2_049, u32::MAX] {
        let wanted = near_in(rt, alloc, world, at, k);
        let found = view.nearest(alloc, at, k).expect(rt, "the nearest");
        assert_same!(rt; found.as_slice(), wanted.as_slice());
    }
}

fn agrees<I: Index>(rt: &impl Abort, alloc: Global, view: &View<I>, objects: &[Placed]) {
    let world = world_of(alloc, objects).expect(rt, "a world");
    assert_same!(rt; view.len(), objects.len() as u64);
    assert_same!(rt; view.is_empty(), objects.is_empty());
    for region in REGIONS {
        if plain_list::is_box(region) {
            agrees_in(rt, alloc, view, &world, region);
        }
    }
    agrees_at(rt, alloc, view, &world, CENTRE);
    agrees_at(rt, alloc, view, &world, BESIDE);
}

// Splits the leaf of each of these objects once.
fn split_all<I: Index>(alloc: Global, index: &mut I, objects: &[Placed]) -> Result<(), Undone> {
    for object in objects {
        split_over(alloc, index, key(object.at))?;
    }
    Ok(())
}

// The view of the first leaves, and of a share whose leaves are split, have the same answers.
fn agrees_over<I: Index>(rt: &impl Abort, alloc: Global, objects: &[Placed]) {
    let mut index = leaves_over::<I>(alloc, objects).expect(rt, "an index");
    let before = View::new(index.share().expect(rt, "a share"), 3);
    split_all(alloc, &mut index, objects).expect(rt, "its leaves");
    let after = View::new(index, 4);
    agrees(rt, alloc, &before, objects);
    agrees(rt, alloc, &after, objects);
    assert_same!(rt; (before.place(), after.place()), (3, 4));
}

fn agrees_with_the_plain_list<I: Index>(rt: &impl Abort, alloc: Global) {
    let circle = on_each(alloc, CIRCLE, 1).expect(rt, "a circle");
    let spot = on_each(alloc, &[BESIDE], 24).expect(rt, "a spot");
    let one = on_each(alloc, &[CENTRE], 1).expect(rt, "one object");
    let ring = on_each(alloc, CIRCLE, 3).expect(rt, "a ring of spots");
    let lattice = lattice(alloc).expect(rt, "a lattice");
    for objects in [&circle, &spot, &one, &ring, &lattice] {
        agrees_over::<I>(rt, alloc, objects);
    }
    agrees_over::<I>(rt, alloc, &[]);
}

#[test]
fn a_view_of_a_flat_index_answers_as_the_plain_list(rt: HostRuntime) {
    agrees_with_the_plain_list::<FlatIndex>(&rt, rt.alloc());
}

#[test]
fn a_view_of_a_trie_answers_as_the_plain_list(rt: HostRuntime) {
    agrees_with_the_plain_list::<KdTrie>(&rt, rt.alloc());
}

#[test]
fn a_view_of_a_quad_trie_answers_as_the_plain_list(rt: HostRuntime) {
    agrees_with_the_plain_list::<QuadTrie>(&rt, rt.alloc());
}

macro_rules! placed {
    ($id:expr, $x:expr, $y:expr) => {
        Placed {
            id: $id,
            at: Point { x: $x, y: $y },
        }
    };
}

const FOUR: &[Placed] = &[
    placed!(1, 8, 8),
    placed!(2, 3, 5),
    placed!(3, MIDDLE, 0),
    placed!(4, 3, 4),
];

const LOW: Region = region!(at!(3, 4), at!(8, 8));

const IN_LOW: &[Placed] = &[placed!(1, 8, 8), placed!(2, 3, 5), placed!(4, 3, 4)];

const NEAR_ORIGIN: &[Placed] = &[placed!(4, 3, 4), placed!(2, 3, 5)];

// The answers of four objects, by hand.
fn has_the_four<I: Index>(rt: &impl Abort, alloc: Global, view: &View<I>) {
    let found = view.within(alloc, &LOW).expect(rt, "a list");
    assert_same!(rt; found.as_slice(), IN_LOW);
    let nearest = view.nearest(alloc, at!(0, 0), 2).expect(rt, "two objects");
    assert_same!(rt; nearest.as_slice(), NEAR_ORIGIN);
    assert_same!(rt; (view.count(&LOW), view.len(), view.place()), (3, 4, 9));
}

// One object goes, one moves, one comes, and then every leaf is split.
fn change_all<I: Index>(alloc: Global, index: &mut I) -> Result<(), Undone> {
    let (two, four) = (key(at!(3, 5)), key(at!(3, 4)));
    let _ = take(index, change(two, 2, false))?;
    let _ = shift(index, change(four, 4, false), change(7, 4, false))?;
    let _ = put(index, change(9, 5, false))?;
    split_all(alloc, index, FOUR)
}

// Of the objects that are then there, by hand. The one that moved is at (1,3), and the one that came at (2,1).
const IN_LOW_LATER: &[Placed] = &[placed!(1, 8, 8)];

fn keeps_its_answers<I: Index>(rt: &impl Abort, alloc: Global) {
    let mut index = leaves_over::<I>(alloc, FOUR).expect(rt, "an index");
    let view = View::new(index.share().expect(rt, "a share"), 9);
    change_all(alloc, &mut index).expect(rt, "its changes");
    has_the_four(rt, alloc, &view);
    let later = View::new(index, 12);
    let found = later.within(alloc, &LOW).expect(rt, "a list");
    assert_same!(rt; found.as_slice(), IN_LOW_LATER);
    assert_same!(rt; later.len(), 4);
    has_the_four(rt, alloc, &view);
}

#[test]
fn a_view_keeps_its_answers_while_its_index_changes_and_splits(rt: HostRuntime) {
    keeps_its_answers::<FlatIndex>(&rt, rt.alloc());
    keeps_its_answers::<KdTrie>(&rt, rt.alloc());
    keeps_its_answers::<QuadTrie>(&rt, rt.alloc());
}

// More objects than a search by distance keeps.
const MANY: u32 = 2_100;

// On 30 points, each on one of 70 others.
fn many_objects(alloc: Global) -> Result<Vec<Placed>, Memory> {
    let mut objects = Vec::new(alloc);
    for place in 0..MANY {
        let at = at!((place % 30) * 143_165_576, (place / 30) * 61_356_675);
        let id = u64::from(place).wrapping_mul(1_009) % 2_111;
        objects.push(Placed { id, at })?;
    }
    Ok(objects)
}

#[test]
fn a_view_finds_more_of_the_nearest_than_a_search_keeps(rt: HostRuntime) {
    let alloc = rt.alloc();
    let objects = many_objects(alloc).expect(&rt, "objects");
    let world = world_of(alloc, &objects).expect(&rt, "a world");
    let index = leaves_over::<KdTrie>(alloc, &objects).expect(&rt, "an index");
    let view = View::new(index, 0);
    for k in [2_048, 2_049, 2_099, 2_100, 2_101] {
        let wanted = near_in(&rt, alloc, &world, CENTRE, k);
        let found = view.nearest(alloc, CENTRE, k).expect(&rt, "the nearest");
        assert_same!(rt; found.as_slice(), wanted.as_slice());
    }
}

// Each call is made again if memory runs out. Only one request fails, so the second call has its memory.
fn four_again<I: Index>(rt: &impl Abort, alloc: Global) -> View<I> {
    let index = match leaves_over::<I>(alloc, FOUR) {
        Ok(index) => index,
        Err(Memory) => leaves_over::<I>(alloc, FOUR).expect(rt, "an index"),
    };
    View::new(index, 9)
}

fn within_again<I: Index>(rt: &impl Abort, alloc: Global, view: &View<I>) {
    let found = match view.within(alloc, &LOW) {
        Ok(found) => found,
        Err(Memory) => view.within(alloc, &LOW).expect(rt, "a list"),
    };
    assert_same!(rt; found.as_slice(), IN_LOW);
}

fn nearest_again<I: Index>(
    rt: &impl Abort,
    alloc: Global,
    view: &View<I>,
    k: u32,
    wanted: &[Placed],
) {
    let nearest = match view.nearest(alloc, at!(0, 0), k) {
        Ok(nearest) => nearest,
        Err(Memory) => view.nearest(alloc, at!(0, 0), k).expect(rt, "the nearest"),
    };
    assert_same!(rt; nearest.as_slice(), wanted);
}

// Of four objects, all by their distance from the origin, by hand.
const RANKED: &[Placed] = &[
    placed!(4, 3, 4),
    placed!(2, 3, 5),
    placed!(1, 8, 8),
    placed!(3, MIDDLE, 0),
];

fn browses_again<I: Index, L: Ledger>(
    rt: &impl Abort,
    alloc: Global,
    view: &View<I>,
    steps: &mut Steps<L>,
) {
    let mut browse = view.browse(alloc, at!(0, 0));
    for wanted in RANKED {
        let next = match browse.next_counted(steps) {
            Ok(next) => next,
            Err(Memory) => browse.next_counted(steps).expect(rt, "an object"),
        };
        assert_same!(rt; next, Some(*wanted));
    }
    assert_is!(rt; matches!(browse.next_counted(steps), Ok(None)));
}

fn answers_again<I: Index, L: Ledger>(rt: &impl Abort, alloc: Global, blank: Blank)
    requires name { blank.name ≡ L.name }
    requires parts { blank.parts ≡ L.parts }
    requires one_part { blank.parts ≡ 1 }
{
    let mut steps = Steps::<L>::new(blank);
    let view = four_again::<I>(rt, alloc);
    within_again(rt, alloc, &view);
    nearest_again(rt, alloc, &view, 2, NEAR_ORIGIN);
    nearest_again(rt, alloc, &view, 3_000, RANKED);
    browses_again(rt, alloc, &view, &mut steps);
    assert_same!(rt; (view.count(&LOW), view.len(), view.place()), (3, 4, 9));
}

// Each run passes if one request of memory fails, whichever it is.
#[test]
fn a_view_of_a_flat_index_answers_again_after_memory_ran_out(rt: HostRuntime) {
    answers_again::<FlatIndex, Brand>(&rt, rt.alloc(), Blank::new(1));
}

#[test]
fn a_view_of_a_trie_answers_again_after_memory_ran_out(rt: HostRuntime) {
    answers_again::<KdTrie, Brand>(&rt, rt.alloc(), Blank::new(1));
}

#[test]
fn a_view_of_a_quad_trie_answers_again_after_memory_ran_out(rt: HostRuntime) {
    answers_again::<QuadTrie, Brand>(&rt, rt.alloc(), Blank::new(1));
}
