//! Lanes that a store runs by itself: a split that waits while another lane puts, and what is kept of it.
ghost use Rattle.std.specs.Prelude.{◌≡◌, ℕ, ◌+◌, ◌<◌, length, slice_index_or, false};
ghost use Rattle.sessions.specs.Lanes.{IsReadyLane};
ghost use Rattle.store_client.specs.Caller.{IsFree, KeepsPass};
ghost use Rattle.thread_tests.specs.Passes.{AreValid};

use crate::checks::holds;
use crate::stores::{index_of, new_store};
use crate::turns::{Turn, Turns};
use book_lock::Pass;
use bucket_versions::Row;
use disk_mem::MemDisk;
use disk_trait::LogDisk;
use flat_index::FlatIndex;
use index_layer::Index;
use io_edge::{Gate, GatePoint};
use plain_list::Op;
use sessions::{KeptRow, Lane, SharedBook, Split, Store};
use std::alloc::Global;
use std::marker::Brand;
use std::process::Abort;
use std::sync::Wait;
use std::thread::Threads;
use zorder::{Name, Point, child, key};

// The put of an object, with moment 0.
macro_rules! put {
    ($id:expr, $x:expr, $y:expr) => {
        Op::Put {
            id: $id,
            at: Point { x: $x, y: $y },
            moment: 0,
        }
    };
}

// Five puts, one more than a bucket has room for.
const PUTS: [(u32, Op); 5] = [
    (1, put!(1, 0, 0)),
    (2, put!(2, 2_147_483_648, 0)),
    (3, put!(3, 0, 2_147_483_648)),
    (4, put!(4, 2_147_483_648, 2_147_483_648)),
    (5, put!(5, 1, 1)),
];

// Where the other lane puts its object, after a question at which it waits.
const THERE: Point = Point {
    x: 2_147_483_648,
    y: 0,
};

const BESIDE: [(u32, Op); 2] = [(6, Op::Find { id: 9 }), (7, put!(9, 2_147_483_648, 0))];

// A lane with these rows, and room for their answers.
fn lane<I: Index, D: LogDisk>(
    rt: &impl Abort,
    alloc: Global,
    session: u8,
    pass: Pass<SharedBook<I, D, Brand>>,
    rows: Vec<(u32, Op)>,
) -> Lane<I, D, Brand>
    requires off { pass.holds ≡ false }
    requires valid { AreValid rows.items }
    ensures ready { IsReadyLane pass.lock result }
    ensures parts { result.pass.parts ≡ pass.parts }
{
    let kept = Vec::with_capacity(alloc, rows.len()).expect(rt, "no memory");
    Lane {
        session,
        pass,
        rows,
        kept,
        fault: None,
    }
}

fn puts(rt: &impl Abort, alloc: Global) -> Vec<(u32, Op)>
    ensures { AreValid result.items }
{
    Vec::from_array(alloc, PUTS).expect(rt, "no memory")
}

fn beside(rt: &impl Abort, alloc: Global) -> Vec<(u32, Op)>
    ensures { AreValid result.items }
{
    Vec::from_array(alloc, BESIDE).expect(rt, "no memory")
}

// Runs lanes. Their passes can be joined afterwards.
fn run_lanes<I: Index + Send, D: LogDisk + Send, R: Threads + Wait + Sync, G: Gate + Sync>(
    rt: &R,
    alloc: Global,
    store: &Store<I, D, Brand>,
    lanes: &mut [Lane<I, D, Brand>],
    gate: &G,
)
    requires { (i : ℕ) (d : Lane I D Brand I.Place) → i < length lanes.old → IsReadyLane store.now (slice_index_or lanes.old i d) }
    ensures { (i : ℕ) (d : Lane I D Brand I.Place) → i < length lanes.old
        → KeepsPass (slice_index_or lanes.old i d).pass (slice_index_or lanes.new i d).pass }
{
    store.run_lanes(rt, alloc, lanes, gate);
}

// What the first lane kept, and the index at the end.
fn run_both<I: Index + Send, D: LogDisk + Send, R: Threads + Wait + Abort + Sync, G: Gate + Sync>(
    rt: &R,
    alloc: Global,
    gate: &G,
) -> (Vec<KeptRow>, I) {
    let (store, mut pass) = new_store::<I, D>(rt, alloc);
    let other = store.split_pass(&mut pass);
    let mut lanes = [
        lane(rt, alloc, 1, pass, puts(rt, alloc)),
        lane(rt, alloc, 2, other, beside(rt, alloc)),
    ];
    run_lanes(rt, alloc, &store, &mut lanes, gate);
    let [one, two] = lanes;
    close_both(store, one, two)
}

fn close_both<I: Index, D: LogDisk>(
    store: Store<I, D, Brand>,
    one: Lane<I, D, Brand>,
    two: Lane<I, D, Brand>,
) -> (Vec<KeptRow>, I)
    requires free { IsFree store one.pass × IsFree store two.pass }
    requires parts { one.pass.parts + two.pass.parts ≡ 65536 }
{
    let Lane {
        session: _,
        pass: mut all,
        rows: _,
        kept,
        fault: _,
    } = one;
    let Lane {
        session: _,
        pass,
        rows: _,
        kept: _,
        fault: _,
    } = two;
    store.join_pass(&mut all, pass);
    (kept, index_of(store.close(all)))
}

// How the split after the fifth row ended.
fn last_split(kept: &[KeptRow]) -> Option<Split> {
    match kept.get(4) {
        Some(row) => row.split,
        None => None,
    }
}

// Whether the object of the second lane is in the second half of the plane.
fn stands_in_the_half<I: Index>(index: &I) -> bool {
    let row = Row {
        key: key(THERE),
        id: 9,
    };
    let (name, bucket) = index.leaf_of(row.key);
    name == child(&Name::whole(), true) && bucket.holds(&row)
}

// Lane 1 has begun the split of the whole plane, and waits until the put of lane 2 was answered.
fn split_is_kept<I: Index + Send, D: LogDisk + Send, R: Threads + Wait + Abort + Sync>(
    rt: &R,
    alloc: Global,
) {
    let asked = Turn {
        point: GatePoint::Answered,
        lane: 2,
        until: 2,
    };
    let begun = Turn {
        point: GatePoint::Begun,
        lane: 1,
        until: 3,
    };
    let put = Turn { until: 0, ..asked };
    let list = [asked, begun, put];
    let turns = Turns::new(&list);
    let (kept, index) = run_both::<I, D, R, Turns>(rt, alloc, &turns);
    holds(rt, turns.are_over(), "a lane waited for what didn't come");
    assert_is!(rt; last_split(kept.as_slice()) == Some(Split::Installed { number: 1 }));
    assert_is!(rt; stands_in_the_half(&index));
}

#[test]
fn a_lane_that_is_held_at_begun_keeps_that_its_split_was_installed(rt: HostRuntime) {
    split_is_kept::<FlatIndex, MemDisk, HostRuntime>(&rt, rt.alloc());
}
