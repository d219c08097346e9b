//! Fences from code, and a tally over a world that continues with a program's own steps.
use crate::worlds::world_of;
use fence_watch::{BadFences, Crossing, Event, Fence, Fences, Tally};
use std::alloc::Global;
use std::process::Abort;
use zorder::{Placed, Point, Region};

macro_rules! fence {
    ($id:expr, $x:expr, $y:expr, $a:expr, $b:expr) => {
        Fence {
            id: $id,
            region: Region {
                lo: Point { x: $x, y: $y },
                hi: Point { x: $a, y: $b },
            },
        }
    };
}

macro_rules! object {
    ($id:expr, $x:expr, $y:expr) => {
        Placed {
            id: $id,
            at: Point { x: $x, y: $y },
        }
    };
}

macro_rules! event {
    ($at:expr, $crossing:ident, $id:expr, $fence:expr) => {
        Event {
            at: $at,
            crossing: Crossing::$crossing,
            id: $id,
            fence: $fence,
        }
    };
}

const TWO_FENCES: &[Fence] = &[fence!(2, 4, 4, 9, 9), fence!(1, 0, 0, 5, 5)];

// The last one but one is no box and has the id of an earlier one.
const AT_FAULT: &[(&[Fence], BadFences)] = &[
    (&[fence!(1, 0, 6, 5, 5)], BadFences::NoBox { number: 0 }),
    (
        &[fence!(1, 0, 0, 5, 5), fence!(2, 5, 0, 4, 5)],
        BadFences::NoBox { number: 1 },
    ),
    (
        &[
            fence!(1, 0, 0, 5, 5),
            fence!(2, 5, 0, 5, 0),
            fence!(1, 4, 4, 9, 9),
        ],
        BadFences::Twice { number: 2 },
    ),
    (
        &[fence!(1, 0, 0, 5, 5), fence!(1, 4, 4, 9, 3)],
        BadFences::NoBox { number: 1 },
    ),
    (
        &[fence!(1, 0, 0, 5, 5); 256],
        BadFences::Twice { number: 1 },
    ),
    (&[fence!(1, 0, 0, 5, 5); 257], BadFences::TooMany),
];

fn how_many(alloc: Global, fences: &[Fence]) -> Result<usize, BadFences> {
    let fences = Fences::of(alloc, fences)?;
    Ok(fences.as_slice().len())
}

#[test]
fn the_first_fence_at_fault_has_its_number(rt: HostRuntime) {
    for (fences, fault) in AT_FAULT {
        assert_same!(rt; how_many(rt.alloc(), fences), Err(*fault));
    }
    assert_same!(rt; how_many(rt.alloc(), TWO_FENCES), Ok(2));
    assert_same!(rt; how_many(rt.alloc(), &[]), Ok(0));
}

const OBJECTS: &[Placed] = &[object!(7, 3, 5), object!(9, 5, 5), object!(12, 8, 8)];

const CROSSED: &[Event] = &[
    event!(40, Enter, 7, 2),
    event!(40, Leave, 7, 1),
    event!(41, Leave, 12, 2),
    event!(42, Enter, 13, 1),
];

// How many objects are inside fence 2, and inside fence 1.
fn expect_inside(rt: &impl Abort, tally: &Tally, second: u64, first: u64) {
    let counts = tally.counts();
    assert_same!(rt; counts.len(), 2);
    assert_same!(rt; counts.first().map(|c| c.inside), Some(second));
    assert_same!(rt; counts.last().map(|c| c.inside), Some(first));
}

// Object 7 moves from fence 1 to fence 2, 12 is removed, and 13 is put.
fn go_on(rt: &impl Abort, tally: &mut Tally) {
    let far = Some(Point { x: 8, y: 8 });
    let near = Some(Point { x: 3, y: 5 });
    let corner = Some(Point { x: 0, y: 0 });
    tally.moved(40, 7, near, far).expect(rt, "no step is made");
    expect_inside(rt, tally, 3, 1);
    tally.moved(41, 12, far, None).expect(rt, "no step is made");
    expect_inside(rt, tally, 2, 1);
    tally
        .moved(42, 13, None, corner)
        .expect(rt, "no step is made");
    expect_inside(rt, tally, 2, 2);
}

fn counts_three(rt: &impl Abort, alloc: Global) {
    let world = world_of(alloc, OBJECTS).expect(rt, "no memory");
    let fences = Fences::of(alloc, TWO_FENCES).expect(rt, "the fences are at fault");
    let mut tally = Tally::over(alloc, &fences, &world).expect(rt, "no memory");
    expect_inside(rt, &tally, 2, 2);
    assert_is!(rt; tally.events().is_empty());
    go_on(rt, &mut tally);
    expect_inside(rt, &tally, 2, 2);
    let taken = tally.take_events(alloc);
    assert_is!(rt; taken.as_slice() == CROSSED);
    assert_is!(rt; tally.events().is_empty());
    expect_inside(rt, &tally, 2, 2);
}

#[test]
fn a_tally_begins_with_a_world_and_goes_on(rt: HostRuntime) {
    counts_three(&rt, rt.alloc());
}
