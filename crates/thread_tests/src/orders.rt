//! Lanes that wait for one another, so that the answers of each are known beforehand.
//!
//! The gate doesn't decide which lane makes the very first call. So each output has two forms, with the places 1 and 2
//! exchanged.
use crate::checks::holds;
use crate::fixtures::{Left, play};
use crate::legal::{Told, is_legal_with};
use crate::turns::{Turn, Turns};
use io_edge::GatePoint;
use plain_list::{Entries, Entry, Stamped};
use std::alloc::Global;
use std::process::Abort;
use std::sync::Wait;
use std::thread::Threads;
use zorder::Point;

macro_rules! turn {
    ($point:expr, $lane:expr, $until:expr) => {
        Turn {
            point: $point,
            lane: $lane,
            until: $until,
        }
    };
}

macro_rules! answered {
    ($lane:expr, $until:expr) => {
        turn!(GatePoint::Answered, $lane, $until)
    };
}

macro_rules! rows {
    ($rows:literal) => {
        concat!("session,op,id,x,y,a,b,moment\n", $rows)
    };
}

macro_rules! lines {
    ($lines:literal) => {
        concat!("row,place,answer,detail\n", $lines)
    };
}

// Rows in buckets of four, the turns that are taken, and the two forms of the output.
#[derive(Clone, Copy)]
struct Scene {
    input: &'static str,
    turns: &'static [Turn],
    these: &'static str,
    those: &'static str,
}

// Whether a scene was written in one of its forms.
fn wrote(left: &Left, scene: &Scene) -> bool {
    let written = left.written.as_slice();
    written == scene.these.as_bytes() || written == scene.those.as_bytes()
}

fn expect_played(rt: &impl Abort, left: &Left, scene: &Scene) {
    assert_same!(rt; left.status, 0);
    assert_is!(rt; wrote(left, scene));
}

fn play_scene<R: Threads + Wait + Abort + Sync>(rt: &R, alloc: Global, scene: &Scene) -> Left {
    let turns = Turns::new(scene.turns);
    let input = scene.input.as_bytes().to_vec(alloc).expect(rt, "it failed");
    let left = play(rt, alloc, "4", input, &turns);
    holds(rt, turns.are_over(), "a lane waited for what didn't come");
    expect_played(rt, &left, scene);
    left
}

fn is_played<R: Threads + Wait + Abort + Sync>(rt: &R, alloc: Global, scene: &Scene) {
    let _left = play_scene(rt, alloc, scene);
}

// Each of two lanes waits after its row until the other has come there too.
const SIDE_BY_SIDE: Scene = Scene {
    input: rows!("1,where,9,,,,,\n2,where,9,,,,,\n"),
    turns: &[answered!(1, 2), answered!(2, 2)],
    these: lines!("1,1,absent,\n2,2,absent,\n"),
    those: lines!("1,2,absent,\n2,1,absent,\n"),
};

#[test]
fn lanes_run_side_by_side(rt: HostRuntime) {
    is_played(&rt, rt.alloc(), &SIDE_BY_SIDE);
}

// Lane 1 has taken the index for its box, and waits until the put of lane 2 was answered.
const OVERTAKEN: Scene = Scene {
    input: rows!(
        "1,put,1,0,0,,,0\n1,box,,0,0,9,9,\n2,where,9,,,,,\n2,put,2,5,5,,,0\n2,box,,0,0,9,9,\n"
    ),
    turns: &[
        answered!(1, 2),
        answered!(2, 3),
        turn!(GatePoint::Taken, 1, 4),
        answered!(2, 0),
    ],
    these: lines!("1,1,done,\n2,3,found,1:0:0\n3,2,absent,\n4,4,done,\n5,5,found,1:0:0;2:5:5\n"),
    those: lines!("1,2,done,\n2,3,found,1:0:0\n3,1,absent,\n4,4,done,\n5,5,found,1:0:0;2:5:5\n"),
};

#[test]
fn a_query_that_is_held_answers_as_at_its_place(rt: HostRuntime) {
    is_played(&rt, rt.alloc(), &OVERTAKEN);
}

// Lane 1 has taken the index for a run of 16 boxes, and waits until the put of lane 2 was answered. So the lock is free
// in between, and the boxes are answered again.
const RUN_OVERTAKEN: Scene = Scene {
    input: rows!(
        "1,put,1,0,0,,,0\n1,box,,0,0,9,9,\n1,box,,0,0,9,9,\n1,box,,0,0,9,9,\n1,box,,0,0,9,9,\n1,box,,0,0,9,9,\n1,box,,0,0,9,9,\n1,box,,0,0,9,9,\n1,box,,0,0,9,9,\n1,box,,0,0,9,9,\n1,box,,0,0,9,9,\n1,box,,0,0,9,9,\n1,box,,0,0,9,9,\n1,box,,0,0,9,9,\n1,box,,0,0,9,9,\n1,box,,0,0,9,9,\n1,box,,0,0,9,9,\n2,where,9,,,,,\n2,put,2,5,5,,,0\n"
    ),
    turns: &[
        answered!(1, 2),
        answered!(2, 3),
        turn!(GatePoint::Taken, 1, 4),
        answered!(2, 0),
    ],
    these: lines!(
        "1,1,done,\n2,4,found,1:0:0;2:5:5\n3,5,found,1:0:0;2:5:5\n4,6,found,1:0:0;2:5:5\n5,7,found,1:0:0;2:5:5\n6,8,found,1:0:0;2:5:5\n7,9,found,1:0:0;2:5:5\n8,10,found,1:0:0;2:5:5\n9,11,found,1:0:0;2:5:5\n10,12,found,1:0:0;2:5:5\n11,13,found,1:0:0;2:5:5\n12,14,found,1:0:0;2:5:5\n13,15,found,1:0:0;2:5:5\n14,16,found,1:0:0;2:5:5\n15,17,found,1:0:0;2:5:5\n16,18,found,1:0:0;2:5:5\n17,19,found,1:0:0;2:5:5\n18,2,absent,\n19,3,done,\n"
    ),
    those: lines!(
        "1,2,done,\n2,4,found,1:0:0;2:5:5\n3,5,found,1:0:0;2:5:5\n4,6,found,1:0:0;2:5:5\n5,7,found,1:0:0;2:5:5\n6,8,found,1:0:0;2:5:5\n7,9,found,1:0:0;2:5:5\n8,10,found,1:0:0;2:5:5\n9,11,found,1:0:0;2:5:5\n10,12,found,1:0:0;2:5:5\n11,13,found,1:0:0;2:5:5\n12,14,found,1:0:0;2:5:5\n13,15,found,1:0:0;2:5:5\n14,16,found,1:0:0;2:5:5\n15,17,found,1:0:0;2:5:5\n16,18,found,1:0:0;2:5:5\n17,19,found,1:0:0;2:5:5\n18,1,absent,\n19,3,done,\n"
    ),
};

#[test]
fn a_run_of_queries_that_a_put_overtakes_answers_as_behind_it(rt: HostRuntime) {
    is_played(&rt, rt.alloc(), &RUN_OVERTAKEN);
}

// Lane 1's fifth put makes the one leaf full. Lane 1 has begun the split, and waits until the put of lane 2 was
// answered.
const BETWEEN: Scene = Scene {
    input: rows!(
        "1,put,1,0,0,,,0\n1,put,2,1,0,,,0\n1,put,3,2,0,,,0\n1,put,4,3,0,,,0\n1,put,5,4000000000,0,,,0\n1,box,,4000000000,0,4000000009,9,\n2,where,9,,,,,\n2,put,6,4000000001,0,,,0\n"
    ),
    turns: &[
        answered!(1, 2),
        answered!(2, 3),
        turn!(GatePoint::Begun, 1, 4),
        answered!(2, 0),
    ],
    these: lines!(
        "1,1,done,\n2,3,done,\n3,4,done,\n4,5,done,\n5,6,done,\n6,8,found,5:4000000000:0;6:4000000001:0\n7,2,absent,\n8,7,done,\n"
    ),
    those: lines!(
        "1,2,done,\n2,3,done,\n3,4,done,\n4,5,done,\n5,6,done,\n6,8,found,5:4000000000:0;6:4000000001:0\n7,1,absent,\n8,7,done,\n"
    ),
};

// Whether row 8 of session 2 is between the begin and the install of the first split.
fn is_call_in_a_split(entries: Option<&[Entry]>) -> bool {
    matches!(
        entries,
        Some([
            Entry::Begin { number: 1, .. },
            Entry::Call {
                session: 2,
                row: 8,
                ..
            },
            Entry::Install { number: 1 }
        ])
    )
}

#[test]
fn a_put_between_begin_and_install_lands_in_the_child(rt: HostRuntime) {
    let left = play_scene(&rt, rt.alloc(), &BETWEEN);
    assert_is!(rt; is_call_in_a_split(left.events.as_slice().get(6..9)));
}

macro_rules! kept {
    ($x:expr, $y:expr, $moment:expr) => {
        Stamped {
            at: Point { x: $x, y: $y },
            moment: $moment,
        }
    };
}

const FIRST: Told = Told::Present(kept!(3, 5, 20));

const SECOND: Told = Told::Present(kept!(8, 8, 10));

// Both sessions put the same taxi, and session 1 comes first.
const FIRST_PUT: Scene = Scene {
    input: rows!("1,put,7,3,5,,,20\n2,where,9,,,,,\n2,put,7,8,8,,,10\n"),
    turns: &[answered!(1, 0), answered!(2, 0)],
    these: lines!("1,1,done,\n2,2,absent,\n3,3,present,3:5:20\n"),
    those: lines!("1,2,done,\n2,1,absent,\n3,3,present,3:5:20\n"),
};

// The same, and session 2 comes first.
const SECOND_PUT: Scene = Scene {
    input: rows!("1,where,9,,,,,\n1,put,7,3,5,,,20\n2,put,7,8,8,,,10\n"),
    turns: &[answered!(2, 0), answered!(1, 0)],
    these: lines!("1,1,absent,\n2,3,present,8:8:10\n3,2,done,\n"),
    those: lines!("1,2,absent,\n2,3,present,8:8:10\n3,1,done,\n"),
};

// The answers to the rows of each, and answers that they don't have.
const FIRST_TOLD: &[Told] = &[Told::Done, Told::Absent, FIRST];

const FIRST_UNTOLD: &[Told] = &[SECOND, Told::Absent, Told::Done];

const SECOND_TOLD: &[Told] = &[Told::Absent, SECOND, Told::Done];

const SECOND_UNTOLD: &[Told] = &[Told::Absent, Told::Done, FIRST];

fn expect_legal(rt: &impl Abort, alloc: Global, events: &Entries, told: &[Told], untold: &[Told]) {
    assert_same!(rt; is_legal_with(rt, alloc, events, told), Ok(true));
    assert_same!(rt; is_legal_with(rt, alloc, events, untold), Ok(false));
}

fn is_told<R: Threads + Wait + Abort + Sync>(
    rt: &R,
    alloc: Global,
    scene: &Scene,
    told: &[Told],
    untold: &[Told],
) {
    let left = play_scene(rt, alloc, scene);
    expect_legal(rt, alloc, &left.events, told, untold);
}

#[test]
fn of_two_puts_of_one_id_the_first_stands(rt: HostRuntime) {
    is_told(&rt, rt.alloc(), &FIRST_PUT, FIRST_TOLD, FIRST_UNTOLD);
    is_told(&rt, rt.alloc(), &SECOND_PUT, SECOND_TOLD, SECOND_UNTOLD);
}

// Lane 2 moves the taxi with a lesser moment than lane 1 has moved it with.
const LATE: Scene = Scene {
    input: rows!("1,put,7,3,5,,,10\n1,move,7,4,5,,,20\n2,where,9,,,,,\n2,move,7,8,8,,,15\n"),
    turns: &[answered!(1, 2), answered!(2, 3), answered!(1, 0)],
    these: lines!("1,1,done,\n2,3,moved,3:5:10\n3,2,absent,\n4,4,stale,4:5:20\n"),
    those: lines!("1,2,done,\n2,3,moved,3:5:10\n3,1,absent,\n4,4,stale,4:5:20\n"),
};

// The same, and lane 2 comes first.
const IN_TIME: Scene = Scene {
    turns: &[answered!(1, 3), answered!(2, 2), answered!(2, 0)],
    these: lines!("1,1,done,\n2,4,moved,8:8:15\n3,2,absent,\n4,3,moved,3:5:10\n"),
    those: lines!("1,2,done,\n2,4,moved,8:8:15\n3,1,absent,\n4,3,moved,3:5:10\n"),
    ..LATE
};

const PUT_AT: Stamped = kept!(3, 5, 10);

const LATE_TOLD: &[Told] = &[
    Told::Done,
    Told::Moved(PUT_AT),
    Told::Absent,
    Told::Stale(kept!(4, 5, 20)),
];

const LATE_UNTOLD: &[Told] = &[
    Told::Done,
    Told::Moved(PUT_AT),
    Told::Absent,
    Told::Moved(kept!(4, 5, 20)),
];

const IN_TIME_TOLD: &[Told] = &[
    Told::Done,
    Told::Moved(kept!(8, 8, 15)),
    Told::Absent,
    Told::Moved(PUT_AT),
];

const IN_TIME_UNTOLD: &[Told] = &[
    Told::Done,
    Told::Moved(PUT_AT),
    Told::Absent,
    Told::Stale(PUT_AT),
];

#[test]
fn of_two_moves_of_one_id_the_late_one_is_stale(rt: HostRuntime) {
    is_told(&rt, rt.alloc(), &LATE, LATE_TOLD, LATE_UNTOLD);
    is_told(&rt, rt.alloc(), &IN_TIME, IN_TIME_TOLD, IN_TIME_UNTOLD);
}
