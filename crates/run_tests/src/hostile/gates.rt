//! Lanes that wait for each other outside the lock. They show that lanes run at the same time, and that a query and a
//! split let others continue.
use crate::hostile::records::{BEGIN, INSTALL, PUT, Record, front};
use crate::hostile::runs::{must, playing};
use crate::memory::{EMPTY_LOG, Left, Plan, run_gated};
use io_edge::{Gate, GatePoint};
use std::alloc::Global;
use std::process::Abort;
use std::sync::Wait;
use std::sync::atomic::{AtomicBool, AtomicU64, Ordering};
use std::thread::{Threads, yield_now};

// A wait gives up after so many turns.
const TURNS: u64 = 100_000_000;

// Waits until a word has reached a number, and returns whether it did.
fn comes_to(word: &AtomicU64, number: u64) -> bool {
    for _ in 0..TURNS {
        if word.load(Ordering::SeqCst) >= number {
            return true;
        }
        yield_now();
    }
    false
}

// Lane 1 waits at a point until lane 2 has answered twice. Lane 2 waits at its first answer until lane 1 is there.
#[derive(Drop)]
struct Meeting {
    point: GatePoint,
    arrivals: AtomicU64,
    answers: AtomicU64,
    gave_up: AtomicBool,
}

impl Meeting {
    fn at(point: GatePoint) -> Meeting {
        Meeting {
            point,
            arrivals: AtomicU64::new(0),
            answers: AtomicU64::new(0),
            gave_up: AtomicBool::new(false),
        }
    }

    fn wait(&self, word: &AtomicU64, number: u64) {
        if !comes_to(word, number) {
            self.gave_up.store(true, Ordering::SeqCst);
        }
    }
}

impl Gate for Meeting {
    fn reach(&self, point: GatePoint, lane: u8) {
        if lane == 1 && point == self.point {
            self.arrivals.fetch_add(1, Ordering::SeqCst);
            self.wait(&self.answers, 2);
        }
        if lane == 2 && point == GatePoint::Answered {
            self.answers.fetch_add(1, Ordering::SeqCst);
            self.wait(&self.arrivals, 1);
        }
    }
}

fn meet<R: Abort + Threads + Wait + Sync>(
    rt: &R,
    alloc: Global,
    point: GatePoint,
    input: &str,
) -> Left {
    let meeting = Meeting::at(point);
    let plan = playing(input, EMPTY_LOG, &[]);
    let left = run_gated(rt, alloc, &plan, &meeting);
    let status = left.status as u64;
    let gave_up = meeting.gave_up.load(Ordering::SeqCst);
    must(rt, !gave_up, "a lane gave up, with status", status);
    let arrivals = meeting.arrivals.load(Ordering::SeqCst);
    must(rt, arrivals > 0, "how often lane 1 came:", arrivals);
    must(rt, status == 0, "status", status);
    left
}

const QUERY: &str = rows!("1,box,,0,0,10,10,\n2,where,9,,,,,\n2,put,9,3,5,,,0\n");

const BOX_FIRST: &str = lines!("1,1,found,\n2,2,absent,\n3,3,done,\n");

const BOX_SECOND: &str = lines!("1,2,found,\n2,1,absent,\n3,3,done,\n");

fn is_one_history(taken: &[u8]) -> bool {
    taken == BOX_FIRST.as_bytes() || taken == BOX_SECOND.as_bytes()
}

// A query holds no lock while it is answered, and its answer is the one at its place.
fn query_beside_put<R: Abort + Threads + Wait + Sync>(rt: &R, alloc: Global) {
    let left = meet(rt, alloc, GatePoint::Taken, QUERY);
    let is_one_history = is_one_history(left.taken.as_slice());
    must(rt, is_one_history, "lines of lanes", 2);
}

const SPLIT: &str =
    "session,op,id,x,y,a,b,moment\n1,put,1,0,0,,,0\n1,put,2,2147483648,0,,,0\n1,put,3,0,2147483648,,,0\n\
    1,put,4,2147483648,2147483648,,,0\n1,put,5,1,1,,,0\n2,where,9,,,,,\n2,put,9,2147483648,0,,,0\n";

// A put of id 1 at (0,0).
const PUT_1: Record = Record {
    kind: PUT,
    number: 1,
    place: 0,
    moment: 0,
    len: 0,
};

// The records of these rows. The put of 9 comes between the begin and the install of its leaf's split.
const SPLIT_AROUND_A_PUT: &[Record] = &[
    PUT_1,
    Record {
        number: 2,
        place: 0x8000_0000_0000_0000,
        ..PUT_1
    },
    Record {
        number: 3,
        place: 0x8000_0000,
        ..PUT_1
    },
    Record {
        number: 4,
        place: 0x8000_0000_8000_0000,
        ..PUT_1
    },
    Record {
        number: 5,
        place: 0x1_0000_0001,
        ..PUT_1
    },
    Record {
        kind: BEGIN,
        ..PUT_1
    },
    Record {
        number: 9,
        place: 0x8000_0000_0000_0000,
        ..PUT_1
    },
    Record {
        kind: INSTALL,
        ..PUT_1
    },
];

// A put takes place between the begin and the install of its leaf's split.
fn put_beside_split<R: Abort + Threads + Wait + Sync>(rt: &R, alloc: Global) {
    let left = meet(rt, alloc, GatePoint::Begun, SPLIT);
    let is_whole = front(1, left.file(), SPLIT_AROUND_A_PUT) == Some(8);
    must(rt, is_whole, "how many records are wanted:", 8);
}

#[test]
fn queries_and_splits_let_other_lanes_go_on(rt: HostRuntime) {
    query_beside_put(&rt, rt.alloc());
    put_beside_split(&rt, rt.alloc());
}

// Each of two lanes says that it has its first answer, and waits until the other says so too.
#[derive(Drop)]
struct Greeting {
    first: AtomicU64,
    second: AtomicU64,
    gave_up: AtomicBool,
}

impl Gate for Greeting {
    fn reach(&self, point: GatePoint, lane: u8) {
        if point != GatePoint::Answered {
            return;
        }
        let (own, other) = if lane == 1 {
            (&self.first, &self.second)
        } else {
            (&self.second, &self.first)
        };
        own.store(1, Ordering::SeqCst);
        if !comes_to(other, 1) {
            self.gave_up.store(true, Ordering::SeqCst);
        }
    }
}

const TWO_PUTS: &Plan<'static> = &Plan {
    words: &["play", "-"],
    input: rows!("1,put,1,0,0,,,0\n2,put,2,1,1,,,0\n"),
    file: Some(&[]),
    reads: &[],
    puts: &[],
    calls: &[],
};

fn greet<R: Abort + Threads + Wait + Sync>(rt: &R, alloc: Global) {
    let greeting = Greeting {
        first: AtomicU64::new(0),
        second: AtomicU64::new(0),
        gave_up: AtomicBool::new(false),
    };
    let left = run_gated(rt, alloc, TWO_PUTS, &greeting);
    let status = left.status as u64;
    must(rt, status == 0, "status", status);
    let gave_up = greeting.gave_up.load(Ordering::SeqCst);
    must(rt, !gave_up, "a lane gave up, with status", status);
}

#[test]
fn two_lanes_see_each_other_under_way(rt: HostRuntime) {
    greet(&rt, rt.alloc());
}
