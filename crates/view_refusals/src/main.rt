//! Asks views of two stores, and asks again if memory is refused.
//!
//! Usage: `view_refusals [views]`.
//!
//! Two stores in memory have the same objects, one over a `KdTrie` and one over a `QuadTrie`. A view of each answers five
//! questions at each of ten points. A plain list of the objects judges each answer. If memory is refused to a browse,
//! the browse continues. If memory is refused to another question, the questions at that point are asked again. The
//! program prints how many answers were right.
//!
//! Once both views are taken, only the questions request memory. With the word `views` the program ends there. So two
//! runs show which requests are the questions', and `tools/refuse_each` refuses each of them.
#![tactic(auto)]

ghost use Rattle.pisrakun.specs.Region.{IsBox};

use pisrakun::{
    Browse, Index, KdTrie, Memory, MemoryStore, Placed, Point, QuadTrie, Region, View, Visit,
};
use std::alloc::Global;
use std::env;
use std::io::{self, Print};
use std::sync::Wait;

// How many objects there are, how many of them a leaf has, and how many of the nearest are asked for.
const OBJECTS: u64 = 500;

const BUCKET: u32 = 4;

const NEAREST: u32 = 300;

// The number of objects, and the sum of their ids.
#[derive(Clone, Copy, PartialEq, Eq)]
struct Sums {
    count: u64,
    ids: u64,
}

impl Visit for Sums {
    fn visit(&mut self, object: Placed) {
        self.count = self.count.wrapping_add(1);
        self.ids = self.ids.wrapping_add(object.id);
    }
}

// A point of a lattice of 32 times 32, so that some distances are equal. The number determines it.
fn point_of(number: u64) -> Point {
    let mixed = number.wrapping_mul(0x9e37_79b9_7f4a_7c15) >> 54;
    Point {
        x: (mixed % 32) as u32,
        y: (mixed / 32) as u32,
    }
}

fn box_around(at: Point) -> Region
    ensures { IsBox result }
{
    Region {
        lo: Point {
            x: at.x.saturating_sub(9),
            y: at.y.saturating_sub(9),
        },
        hi: Point {
            x: at.x.saturating_add(9),
            y: at.y.saturating_add(9),
        },
    }
}

// The square of the distance between two points.
fn apart(one: Point, other: Point) -> u128 {
    let (x, y) = (one.x.abs_diff(other.x), one.y.abs_diff(other.y));
    u128::from(x) * u128::from(x) + u128::from(y) * u128::from(y)
}

// Whether an object is nearer than another one, or as near with a lesser id.
fn is_before(from: Point, one: &Placed, other: &Placed) -> bool {
    let (near, far) = (apart(from, one.at), apart(from, other.at));
    near < far || near == far && one.id < other.id
}

// Whether an object comes after so many others by its distance from a point.
fn comes_after(objects: &[Placed], from: Point, others: usize, object: &Placed) -> bool {
    let before = objects
        .iter()
        .filter(|other| is_before(from, other, object));
    before.count() == others && objects.contains(object)
}

fn are_nearest(objects: &[Placed], from: Point, found: &[Placed]) -> bool {
    let mut found = found.iter().enumerate();
    found.len() == NEAREST as usize
        && found.all(|(others, object)| comes_after(objects, from, others, object))
}

// Whether a browse returns the nearest objects in order. Where memory is refused, it continues.
fn browses<I: Index>(
    objects: &[Placed],
    from: Point,
    mut browse: Browse<'_, I>,
) -> Result<bool, Memory> {
    for others in 0..NEAREST as usize {
        let next = match browse.next() {
            Err(Memory) => browse.next()?,
            Ok(next) => next,
        };
        match next {
            Some(object) if comes_after(objects, from, others, &object) => {}
            _ => return Ok(false),
        }
    }
    Ok(true)
}

// How many of five answers at a point are those of the plain list.
fn ask_at<I: Index>(
    alloc: Global,
    view: &View<I>,
    objects: &[Placed],
    at: Point,
) -> Result<usize, Memory> {
    let region = box_around(at);
    let (mut inside, mut seen) = (Sums { count: 0, ids: 0 }, Sums { count: 0, ids: 0 });
    for object in objects.iter().filter(|object| region.has(object.at)) {
        inside.visit(*object);
    }
    view.for_each_in(&region, &mut seen);
    let listed = view.within(alloc, &region)?;
    let nearest = view.nearest(alloc, at, NEAREST)?;
    let expected = objects.iter().filter(|object| region.has(object.at));
    let answers = [
        view.count(&region) == inside.count,
        seen == inside,
        expected.eq(listed.as_slice()),
        are_nearest(objects, at, nearest.as_slice()),
        browses(objects, at, view.browse(alloc, at))?,
    ];
    Ok(answers.iter().filter(|is_right| **is_right).count())
}

// How many answers at ten points are right. Where memory is refused, it asks again.
fn ask<I: Index>(alloc: Global, view: &View<I>, objects: &[Placed]) -> usize {
    let mut right = 0usize;
    for number in OBJECTS..OBJECTS + 10 {
        let at = point_of(number);
        let answers = match ask_at(alloc, view, objects, at) {
            Err(Memory) => ask_at(alloc, view, objects, at),
            answers => answers,
        };
        right = right.saturating_add(answers.unwrap_or(0));
    }
    right
}

// A view of a store that has these objects. The store ends.
fn view_of<I: Index, R: Wait + AllocGlobal>(rt: &R, objects: &[Placed]) -> Option<View<I>> {
    let mut store = MemoryStore::<I>::in_memory(rt.alloc(), BUCKET).ok()?;
    for object in objects {
        let _ = store.put(rt, object.id, object.at, 0);
    }
    let view = store.view(rt).ok();
    store.close();
    view
}

fn main(rt: HostRuntime) -> io::Result<()> {
    let only_views = env::args(&rt)?.any(|word| word.as_str() == "views");
    let ids = (0..OBJECTS).map(|id| Placed {
        id,
        at: point_of(id),
    });
    let Ok(objects) = ids.collect::<Vec<Placed>>(rt.alloc()) else {
        return println!(rt; "no memory");
    };
    let halves = view_of::<KdTrie, HostRuntime>(&rt, &objects);
    let quarters = view_of::<QuadTrie, HostRuntime>(&rt, &objects);
    match (halves, quarters) {
        _ if only_views => Ok(()),
        (Some(halves), Some(quarters)) => {
            println!(rt;
                "trie: {} right answers",
                ask(rt.alloc(), &halves, &objects)
            )?;
            println!(rt;
                "quad trie: {} right answers",
                ask(rt.alloc(), &quarters, &objects)
            )
        }
        _ => println!(rt; "no memory"),
    }
}
