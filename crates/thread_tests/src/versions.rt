//! A box while another session puts, over an index whose versions have numbers.
ghost use Rattle.std.specs.Prelude.{◌≡◌, ◌+◌};
ghost use Rattle.plain_list.specs.Answer.{IsValid};
ghost use Rattle.store_client.specs.Caller.{IsFree, KeepsPass};

use crate::checks::holds;
use crate::numbered::Numbered;
use crate::stores::{index_of, new_store};
use crate::turns::{Turn, Turns};
use book_lock::Pass;
use commit_book::Done;
use disk_mem::MemDisk;
use disk_trait::LogDisk;
use flat_index::FlatIndex;
use index_layer::Index;
use io_edge::{Gate, GatePoint, OpenGate};
use plain_list::{Answer, Op};
use sessions::{CallFault, SharedBook, Store};
use std::alloc::Global;
use std::marker::Brand;
use std::process::Abort;
use std::sync::Wait;
use std::sync::ledger::{Blank, Ledger};
use std::thread::{Threads, join_mut};
use step_count::Steps;
use zorder::{Placed, Point, Region};

// What session 1 puts before everything else.
const FIRST: Placed = Placed {
    id: 1,
    at: Point { x: 0, y: 0 },
};

// What session 2 puts: one outside the box and then one in it.
const OUTSIDE: Placed = Placed {
    id: 2,
    at: Point { x: 10, y: 10 },
};

const INSIDE: Placed = Placed {
    id: 3,
    at: Point { x: 5, y: 5 },
};

const BOX: Region = Region {
    lo: Point { x: 0, y: 0 },
    hi: Point { x: 9, y: 9 },
};

type NumberedStore = Store<Numbered<FlatIndex>, MemDisk, Brand>;

type NumberedPass = Pass<SharedBook<Numbered<FlatIndex>, MemDisk, Brand>>;

/// One call of a pass, with a count of its own.
pub fn call<I: Index, D: LogDisk, L: Ledger, R: Wait, G: Gate>(
    rt: &R,
    alloc: Global,
    store: &Store<I, D, Brand>,
    pass: &mut Pass<SharedBook<I, D, Brand>>,
    session: u8,
    op: &Op,
    gate: &G,
    blank: Blank,
) -> Result<Done, CallFault>
    requires free { IsFree store.now pass.old }
    requires valid { IsValid op.now }
    requires name { blank.name ≡ L.name }
    requires parts { blank.parts ≡ L.parts }
    requires one_part { blank.parts ≡ 1 }
    ensures { KeepsPass pass.old pass.new }
{
    let mut steps = Steps::<L>::new(blank);
    store.call(rt, alloc, pass, session, 1, op, gate, &mut steps)
}

fn put<I: Index, D: LogDisk, R: Wait, G: Gate>(
    rt: &R,
    alloc: Global,
    store: &Store<I, D, Brand>,
    gate: &G,
    session: u8,
    object: Placed,
    pass: &mut Pass<SharedBook<I, D, Brand>>,
)
    requires { IsFree store.now pass.old }
    ensures { KeepsPass pass.old pass.new }
{
    let Placed { id, at } = object;
    let op = Op::Put { id, at, moment: 0 };
    let _ = call::<I, D, Brand, R, G>(rt, alloc, store, pass, session, &op, gate, Blank::new(1));
}

fn puts<I: Index, D: LogDisk, R: Wait, G: Gate>(
    rt: &R,
    alloc: Global,
    store: &Store<I, D, Brand>,
    gate: &G,
    pass: &mut Pass<SharedBook<I, D, Brand>>,
)
    requires { IsFree store.now pass.old }
    ensures { KeepsPass pass.old pass.new }
{
    put(rt, alloc, store, gate, 2, OUTSIDE, pass);
    put(rt, alloc, store, gate, 2, INSIDE, pass);
}

fn ask<I: Index, D: LogDisk, R: Wait, G: Gate>(
    rt: &R,
    alloc: Global,
    store: &Store<I, D, Brand>,
    gate: &G,
    pass: &mut Pass<SharedBook<I, D, Brand>>,
) -> Result<Done, CallFault>
    requires { IsFree store.now pass.old }
    ensures { KeepsPass pass.old pass.new }
{
    let op = Op::Within { region: BOX };
    call::<I, D, Brand, R, G>(rt, alloc, store, pass, 1, &op, gate, Blank::new(1))
}

// The answer to the box of session 1, while session 2 puts in a thread of its own.
fn ask_beside<R: Threads + Wait + Sync, G: Gate + Sync>(
    rt: &R,
    alloc: Global,
    store: &NumberedStore,
    gate: &G,
    one: &mut NumberedPass,
    two: &mut NumberedPass,
) -> Result<Done, CallFault>
    requires { IsFree store.now one.old × IsFree store.now two.old }
    ensures { KeepsPass one.old one.new × KeepsPass two.old two.new }
{
    let (_, answer) = join_mut(
        rt,
        &mut ||
            requires { IsFree store.now two.now }
            ensures { KeepsPass two.entry.now two.exit.now }
        { puts(rt, alloc, store, gate, two) },
        &mut || -> Result<Done, CallFault>
            requires { IsFree store.now one.now }
            ensures { KeepsPass one.entry.now one.exit.now }
        { ask(rt, alloc, store, gate, one) },
    );
    answer
}

// A store in which session 1 has put an object, and a pass for each of two sessions.
fn opened<I: Index, D: LogDisk, R: Wait + Abort, G: Gate>(
    rt: &R,
    alloc: Global,
    gate: &G,
) -> (
    Store<I, D, Brand>,
    Pass<SharedBook<I, D, Brand>>,
    Pass<SharedBook<I, D, Brand>>,
)
    ensures free { IsFree result.0 result.1 × IsFree result.0 result.2 }
    ensures parts { result.1.parts + result.2.parts ≡ 65536 }
{
    let (store, mut one) = new_store::<I, D>(rt, alloc);
    put(rt, alloc, &store, gate, 1, FIRST, &mut one);
    let two = store.split_pass(&mut one);
    (store, one, two)
}

// The index of a store at the end.
fn closed<I: Index, D: LogDisk>(
    store: Store<I, D, Brand>,
    mut one: Pass<SharedBook<I, D, Brand>>,
    two: Pass<SharedBook<I, D, Brand>>,
) -> I
    requires free { IsFree store one × IsFree store two }
    requires parts { one.parts + two.parts ≡ 65536 }
{
    store.join_pass(&mut one, two);
    index_of(store.close(one))
}

// The answer to the box while the puts run, and the index at the end.
fn asked_beside<R: Threads + Wait + Abort + Sync, G: Gate + Sync>(
    rt: &R,
    alloc: Global,
    gate: &G,
) -> (Answer, Numbered<FlatIndex>) {
    let (store, mut one, mut two) = opened(rt, alloc, gate);
    let answer = ask_beside(rt, alloc, &store, gate, &mut one, &mut two);
    let index = closed(store, one, two);
    (answer.expect(rt, "the call failed").answer, index)
}

// The same, with the puts after the answer.
fn asked_before<I: Index, D: LogDisk, R: Wait + Abort, G: Gate>(
    rt: &R,
    alloc: Global,
    gate: &G,
) -> (Answer, I) {
    let (store, mut one, mut two) = opened::<I, D, R, G>(rt, alloc, gate);
    let answer = ask(rt, alloc, &store, gate, &mut one);
    puts(rt, alloc, &store, gate, &mut two);
    let index = closed(store, one, two);
    (answer.expect(rt, "the call failed").answer, index)
}

fn lists_the_first(answer: &Answer) -> bool {
    match answer {
        Answer::Found(found) => found.as_slice() == [FIRST].as_slice(),
        _ => false,
    }
}

// How many reads of older versions there were, if the box lists what was there at its place.
fn late_reads<I: Index>(rt: &impl Abort, answer: &Answer, index: &Numbered<I>) -> u64 {
    assert_is!(rt; lists_the_first(answer));
    index.late_reads()
}

// Lane 1 has taken the index for its box, and waits until both puts of lane 2 were answered.
fn puts_overtake_a_box<R: Threads + Wait + Abort + Sync>(rt: &R, alloc: Global) {
    let first = Turn {
        point: GatePoint::Answered,
        lane: 2,
        until: 2,
    };
    let taken = Turn {
        point: GatePoint::Taken,
        lane: 1,
        until: 3,
    };
    let second = Turn { until: 0, ..first };
    let list = [first, taken, second];
    let turns = Turns::new(&list);
    let (answer, index) = asked_beside(rt, alloc, &turns);
    let late_reads = late_reads(rt, &answer, &index);
    holds(rt, turns.are_over(), "a lane waited for what didn't come");
    assert_is!(rt; late_reads > 0);
}

fn asks_by_itself<I: Index, D: LogDisk, R: Wait + Abort>(rt: &R, alloc: Global) {
    let (answer, index) = asked_before::<Numbered<I>, D, R, OpenGate>(rt, alloc, &OpenGate);
    let late_reads = late_reads(rt, &answer, &index);
    assert_same!(rt; late_reads, 0);
}

#[test]
fn a_query_that_is_held_reads_an_older_version(rt: HostRuntime) {
    puts_overtake_a_box(&rt, rt.alloc());
}

#[test]
fn a_query_by_itself_reads_the_newest_version(rt: HostRuntime) {
    asks_by_itself::<FlatIndex, MemDisk, HostRuntime>(&rt, rt.alloc());
}
