//! The points of the gate that a lane reaches, and then the splits at the end.
use crate::fixtures::{HEADER, play};
use io_edge::{Gate, GatePoint};
use std::alloc::Global;
use std::process::Abort;
use std::sync::Wait;
use std::sync::atomic::{AtomicBool, AtomicU64, Ordering};
use std::thread::Threads;

// The five puts are in the same half of the plane. The fifth one fills the leaf, and the split of the whole plane
// leaves them in one leaf, which is split at the end. The box takes the index.
const INPUT: &str =
    "session,op,id,x,y,a,b,moment\n3,put,1,0,0,,,0\n3,put,2,1,0,,,0\n3,put,3,2,0,,,0\n3,put,4,0,2147483648,,,0\n3,put,5,1,2147483648,,,0\n3,box,,0,0,9,9,\n";

// Lane 3 alone has rows, and the splits at the end are those of lane 0.
const POINTS: &[(GatePoint, u8)] = &[
    (GatePoint::Answered, 3),
    (GatePoint::Answered, 3),
    (GatePoint::Answered, 3),
    (GatePoint::Answered, 3),
    (GatePoint::Answered, 3),
    (GatePoint::Begun, 3),
    (GatePoint::Ready, 3),
    (GatePoint::Taken, 3),
    (GatePoint::Answered, 3),
    (GatePoint::Begun, 0),
    (GatePoint::Ready, 0),
];

// An object, and then as many boxes as are answered one by one, and as many as form one run.
const FEW: usize = 15;

const MANY: usize = 16;

// A put of lane 3, and so many boxes.
fn boxes(rt: &impl Abort, alloc: Global, count: usize) -> Vec<u8> {
    let mut text = String::from_str(alloc, HEADER).expect(rt, "no memory");
    text.push_str("3,put,1,0,0,,,0\n").expect(rt, "no memory");
    for _ in 0..count {
        text.push_str("3,box,,0,0,9,9,\n").expect(rt, "no memory");
    }
    text.into_bytes()
}

// The points of these. The index is taken for each box of a run before the first answer is there.
fn points_of(rt: &impl Abort, alloc: Global, count: usize) -> Vec<(GatePoint, u8)> {
    let mut points = Vec::new(alloc);
    points
        .push((GatePoint::Answered, 3))
        .expect(rt, "no memory");
    for at in 0..count.saturating_mul(2) {
        let is_taken = if count < MANY {
            at % 2 == 0
        } else {
            at < count
        };
        let point = if is_taken {
            GatePoint::Taken
        } else {
            GatePoint::Answered
        };
        points.push((point, 3)).expect(rt, "no memory");
    }
    points
}

// A gate that is to be reached at these points, in their order.
#[derive(Drop)]
struct Awaited<'a> {
    points: &'a [(GatePoint, u8)],
    reached: AtomicU64,
    is_other: AtomicBool,
}

impl<'a> Awaited<'a> {
    fn new(points: &'a [(GatePoint, u8)]) -> Awaited<'a> {
        Awaited {
            points,
            reached: AtomicU64::new(0),
            is_other: AtomicBool::new(false),
        }
    }

    // Whether the gate was reached at each of its points, and at no other.
    fn was_reached(&self) -> bool {
        let reached = self.reached.load(Ordering::SeqCst);
        reached == self.points.len() as u64 && !self.is_other.load(Ordering::SeqCst)
    }
}

impl Gate for Awaited<'_> {
    fn reach(&self, point: GatePoint, lane: u8) {
        let place = self.reached.fetch_add(1, Ordering::SeqCst);
        let is_next = match self.points.get(place as usize) {
            Some((awaited, of)) => *awaited == point && *of == lane,
            None => false,
        };
        if !is_next {
            self.is_other.store(true, Ordering::SeqCst);
        }
    }
}

fn comes_to_its_points<R: Threads + Wait + Abort + Sync>(rt: &R, alloc: Global) {
    let gate = Awaited::new(POINTS);
    let input = INPUT.as_bytes().to_vec(alloc).expect(rt, "it failed");
    let left = play(rt, alloc, "4", input, &gate);
    assert_same!(rt; left.status, 0);
    assert_is!(rt; gate.was_reached());
}

fn boxes_come_to_their_points<R: Threads + Wait + Abort + Sync>(
    rt: &R,
    alloc: Global,
    count: usize,
) {
    let points = points_of(rt, alloc, count);
    let gate = Awaited::new(points.as_slice());
    let left = play(rt, alloc, "4", boxes(rt, alloc, count), &gate);
    assert_same!(rt; left.status, 0);
    assert_is!(rt; gate.was_reached());
}

#[test]
fn a_few_queries_are_answered_one_by_one(rt: HostRuntime) {
    boxes_come_to_their_points(&rt, rt.alloc(), FEW);
}

#[test]
fn many_queries_of_a_lane_are_answered_before_the_first_of_them_has_its_place(rt: HostRuntime) {
    boxes_come_to_their_points(&rt, rt.alloc(), MANY);
}

#[test]
fn a_split_of_a_lane_and_one_of_settling_come_to_the_gate_as_theirs(rt: HostRuntime) {
    comes_to_its_points(&rt, rt.alloc());
}
