//! Worked calls on one list, and boxes at the limit of what is listed.
use crate::answers::{Told, answer_of};
use crate::worlds::next;
use plain_list::{
    Answer, Call, Entries, Entry, Member, MemberShards, Op, Stamped, World, answer, find_id,
    is_box, is_legal, ranking_is_in_order,
};
use std::alloc::Global;
use std::process::Abort;
use zorder::{Memory, Placed, Point, Region};

const ORIGIN: Point = Point { x: 0, y: 0 };

const BESIDE: Point = Point { x: 1, y: 1 };

const FIRST: Point = Point { x: 3, y: 5 };

const SECOND: Point = Point { x: 8, y: 8 };

const NEAR: Point = Point { x: 3, y: 4 };

const LAST: u64 = 18_446_744_073_709_551_615;

const AS_NEAR: Point = Point { x: 0, y: 5 };

const FOUR: Placed = Placed { id: 4, at: NEAR };

const NINE: Placed = Placed { id: 9, at: AS_NEAR };

const SEVEN: Placed = Placed { id: 7, at: FIRST };

const FIND_7: Op = Op::Find { id: 7 };

const DROP_7: Op = Op::Remove { id: 7 };

// If no moment is given, it is 0.
macro_rules! put {
    ($id:expr, $at:expr) => {
        put!($id, $at, 0)
    };
    ($id:expr, $at:expr, $moment:expr) => {
        Op::Put {
            id: $id,
            at: $at,
            moment: $moment,
        }
    };
}

macro_rules! move_7 {
    ($at:expr) => {
        move_7!($at, 0)
    };
    ($at:expr, $moment:expr) => {
        Op::Move {
            id: 7,
            at: $at,
            moment: $moment,
        }
    };
}

macro_rules! kept {
    ($at:expr) => {
        kept!($at, 0)
    };
    ($at:expr, $moment:expr) => {
        Stamped {
            at: $at,
            moment: $moment,
        }
    };
}

macro_rules! within {
    ($lo:expr, $hi:expr) => {
        Op::Within {
            region: Region { lo: $lo, hi: $hi },
        }
    };
}

// The call of a session's row, and its answer.
type Row = (u8, u32, Op, Told);

fn call_of(rt: &impl Abort, alloc: Global, row: &Row) -> Call {
    let (session, row, op, told) = *row;
    let answer = answer_of(alloc, told).expect(rt, "no memory");
    Call {
        session,
        row,
        op,
        answer,
    }
}

fn calls_of(rt: &impl Abort, alloc: Global, rows: &[Row]) -> Vec<Call> {
    let mut calls = Vec::new(alloc);
    for row in rows {
        calls.push(call_of(rt, alloc, row)).expect(rt, "no memory");
    }
    calls
}

// Whether these calls are legal, in this order.
fn are_legal(rt: &impl Abort, alloc: Global, rows: &[Row]) -> bool {
    let calls = calls_of(rt, alloc, rows);
    is_legal(alloc, &World::empty(alloc), calls.as_slice()).expect(rt, "no memory")
}

const WORKED: &[Row] = &[
    (1, 1, put!(7, FIRST), Told::Done),
    (1, 2, FIND_7, Told::At(kept!(FIRST))),
    (1, 3, put!(7, SECOND), Told::Present(kept!(FIRST))),
    (1, 4, move_7!(SECOND), Told::Moved(kept!(FIRST))),
    (1, 5, DROP_7, Told::Gone(kept!(SECOND))),
    (1, 6, DROP_7, Told::Absent),
    (1, 7, move_7!(BESIDE), Told::Absent),
    (1, 8, FIND_7, Told::Absent),
];

// A late move, one with an equal moment, and a put with a greater one.
const STALE: &[Row] = &[
    (1, 1, put!(7, FIRST, 10), Told::Done),
    (1, 2, move_7!(NEAR, 9), Told::Stale(kept!(FIRST, 10))),
    (1, 3, move_7!(NEAR, 10), Told::Moved(kept!(FIRST, 10))),
    (1, 4, FIND_7, Told::At(kept!(NEAR, 10))),
    (1, 5, put!(7, SECOND, 11), Told::Present(kept!(NEAR, 10))),
    (1, 6, FIND_7, Told::At(kept!(NEAR, 10))),
];

// Moves to the point where the object is, a put after a removal, and the least and the greatest moment.
const MOMENTS: &[Row] = &[
    (1, 1, put!(7, FIRST, 10), Told::Done),
    (1, 2, move_7!(FIRST, 12), Told::Moved(kept!(FIRST, 10))),
    (1, 3, move_7!(FIRST, 11), Told::Stale(kept!(FIRST, 12))),
    (1, 4, DROP_7, Told::Gone(kept!(FIRST, 12))),
    (1, 5, put!(7, SECOND, 3), Told::Done),
    (1, 6, move_7!(NEAR, 0), Told::Stale(kept!(SECOND, 3))),
    (1, 7, move_7!(NEAR, LAST), Told::Moved(kept!(SECOND, 3))),
    (
        1,
        8,
        move_7!(FIRST, LAST - 1),
        Told::Stale(kept!(NEAR, LAST)),
    ),
    (1, 9, move_7!(FIRST, LAST), Told::Moved(kept!(NEAR, LAST))),
];

#[test]
fn the_worked_calls_have_their_answers(rt: HostRuntime) {
    for calls in [WORKED, STALE, MOMENTS] {
        assert_is!(rt; are_legal(&rt, rt.alloc(), calls));
    }
}

const TIES: &[Row] = &[
    (1, 1, put!(9, AS_NEAR), Told::Done),
    (1, 2, put!(4, NEAR), Told::Done),
    (1, 3, Op::Near { at: ORIGIN, k: 1 }, Told::Found(&[FOUR])),
    (
        1,
        4,
        Op::Near {
            at: ORIGIN,
            k: 2048,
        },
        Told::Found(&[FOUR, NINE]),
    ),
    (1, 5, put!(7, FIRST), Told::Done),
    (1, 6, within!(FIRST, FIRST), Told::Found(&[SEVEN])),
    (
        1,
        7,
        within!(ORIGIN, Point { x: 2, y: 2 }),
        Told::Found(&[]),
    ),
];

#[test]
fn ties_go_to_the_lesser_id_and_boxes_have_both_corners(rt: HostRuntime) {
    assert_is!(rt; are_legal(&rt, rt.alloc(), TIES));
}

// Answers that the call of session 2 doesn't have after a put of 7 at (3,5), with moment 10.
const UNTOLD: &[(Op, Told)] = &[
    (FIND_7, Told::Absent),
    (FIND_7, Told::At(kept!(FIRST, 9))),
    (put!(7, SECOND, 11), Told::Done),
    (put!(7, SECOND, 11), Told::Present(kept!(FIRST, 11))),
    (move_7!(NEAR, 9), Told::Moved(kept!(FIRST, 10))),
    (move_7!(NEAR, 9), Told::Stale(kept!(NEAR, 9))),
    (move_7!(NEAR, 10), Told::Stale(kept!(FIRST, 10))),
    (move_7!(NEAR, 11), Told::Moved(kept!(FIRST, 11))),
];

#[test]
fn a_call_that_is_not_told_of_a_put_is_not_legal(rt: HostRuntime) {
    for (op, told) in UNTOLD {
        let calls = [(1, 1, put!(7, FIRST, 10), Told::Done), (2, 2, *op, *told)];
        assert_is!(rt; !are_legal(&rt, rt.alloc(), &calls));
    }
}

fn count_of(answer: &Answer) -> (usize, u64) {
    match answer {
        Answer::Found(list) => (list.as_slice().len(), 0),
        Answer::Many(count) => (0, *count),
        _ => (0, 0),
    }
}

const BOX: Op = within!(ORIGIN, Point { x: 9, y: 9 });

// Fails unless a box lists and counts so many of a world whose objects are all in it.
fn expect_in_a_box(rt: &impl Abort, alloc: Global, world: &World, wanted: (usize, u64)) {
    let answer = answer(alloc, world, &BOX).expect(rt, "no memory");
    assert_same!(rt; count_of(&answer), wanted);
}

// So many objects at one point.
fn world_of(alloc: Global, objects: u64) -> Result<World, Memory> {
    let mut world = World::empty(alloc);
    for id in 1..=objects {
        world = next(world, &put!(id, FIRST))?;
    }
    Ok(world)
}

fn expect_last(rt: &impl Abort, world: &World) {
    assert_same!(rt; find_id(world, 2049), Some(kept!(FIRST)));
    ranking_is_in_order(ORIGIN, &[FOUR, NINE]);
}

fn lists_and_counts(rt: &impl Abort, alloc: Global) {
    let world = world_of(alloc, 2048).expect(rt, "it failed");
    expect_in_a_box(rt, alloc, &world, (2048, 0));
    let world = next(world, &put!(2049, FIRST)).expect(rt, "it failed");
    expect_in_a_box(rt, alloc, &world, (0, 2049));
    expect_last(rt, &world);
}

#[test]
fn a_box_lists_2048_and_counts_2049(rt: HostRuntime) {
    lists_and_counts(&rt, rt.alloc());
}

#[test]
fn a_box_of_one_point_is_one(rt: HostRuntime) {
    assert_is!(rt;
        is_box(&Region {
            lo: FIRST,
            hi: FIRST
        })
    );
}

const HISTORY: [Entry; 2] = [
    Entry::Call {
        session: 1,
        row: 1,
        op: put!(7, FIRST),
    },
    Entry::Install { number: 1 },
];

// A put and a step.
fn two_entries(rt: &impl Abort, alloc: Global) -> Entries {
    let mut history = Entries::empty(alloc);
    for entry in HISTORY {
        history.push(entry).expect(rt, "no memory");
    }
    history
}

fn copy_of(rt: &impl Abort, alloc: Global, history: &Entries) -> Entries {
    Entries::from_vec(history.as_slice().to_vec(alloc).expect(rt, "no memory"))
}

fn expect_two(rt: &impl Abort, history: &Entries) {
    assert_same!(rt; history.as_slice().len(), 2);
}

#[test]
fn a_history_keeps_its_steps(rt: HostRuntime) {
    let history = two_entries(&rt, rt.alloc());
    expect_two(&rt, &history);
    expect_two(&rt, &copy_of(&rt, rt.alloc(), &history));
}

const FAR_APART: &[u64] = &[0, 7, 9, 4_000_000_000, LAST];

macro_rules! member {
    ($id:expr, $at:expr, $moment:expr) => {
        Member {
            id: $id,
            at: $at,
            moment: $moment,
        }
    };
}

// Those ids, after a move of 7 and a removal of 9.
const LEFT: &[Member] = &[
    member!(0, FIRST, 0),
    member!(7, NEAR, 3),
    member!(4_000_000_000, FIRST, 0),
    member!(LAST, FIRST, 0),
];

// Objects with these ids at one point.
fn world_at_first(rt: &impl Abort, alloc: Global, ids: &[u64]) -> World {
    let mut world = World::empty(alloc);
    for id in ids {
        world = next(world, &put!(*id, FIRST)).expect(rt, "it failed");
    }
    world
}

// The same dealt over shards, and changed there.
fn shards_left(rt: &impl Abort, alloc: Global) -> MemberShards {
    let world = world_at_first(rt, alloc, FAR_APART);
    let mut shards = MemberShards::from_world(alloc, &world).expect(rt, "no memory");
    shards.replace(7, kept!(NEAR, 3));
    shards.remove(9);
    shards
}

#[test]
fn the_objects_of_all_shards_are_one_list(rt: HostRuntime) {
    let world = shards_left(&rt, rt.alloc())
        .to_world()
        .expect(&rt, "no memory");
    assert_same!(rt; world.as_slice(), LEFT);
}
