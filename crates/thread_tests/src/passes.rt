//! A store by hand: a pass is split off, makes a call, passes on what it has seen, and is joined.
ghost use Rattle.std.specs.Prelude.{◌≤◌};
ghost use Rattle.store_client.specs.Caller.{IsFree, KeepsPass};

use crate::stores::new_store;
use crate::versions::call;
use book_lock::Pass;
use commit_book::Done;
use disk_mem::MemDisk;
use disk_trait::LogDisk;
use flat_index::FlatIndex;
use index_layer::Index;
use io_edge::OpenGate;
use plain_list::{Answer, Op};
use sessions::{CallFault, SharedBook, Store};
use std::alloc::Global;
use std::marker::Brand;
use std::process::Abort;
use std::sync::Wait;
use std::sync::ledger::Blank;

// Makes the call with a second pass, and joins that pass afterwards.
fn find_apart<I: Index, D: LogDisk, R: Wait>(
    rt: &R,
    alloc: Global,
    store: &Store<I, D, Brand>,
    first: &mut Pass<SharedBook<I, D, Brand>>,
) -> Result<Done, CallFault>
    requires free { IsFree store.now first.old }
    requires parts { 2 ≤ first.old.parts }
    ensures { KeepsPass first.old first.new }
{
    let mut second = store.split_pass(first);
    let find = Op::Find { id: 7 };
    let answer = call::<I, D, Brand, R, OpenGate>(
        rt,
        alloc,
        store,
        &mut second,
        1,
        &find,
        &OpenGate,
        Blank::new(1),
    );
    store.meet(&mut second, first);
    store.join_pass(first, second);
    answer
}

// The answer of the call, and how many entries the book has at the end.
fn found<I: Index, D: LogDisk, R: Wait + Abort>(rt: &R, alloc: Global) -> (Done, u64) {
    let (store, mut pass) = new_store::<I, D>(rt, alloc);
    let answer = find_apart(rt, alloc, &store, &mut pass);
    let events = store.close(pass).events();
    (answer.expect(rt, "the call failed"), events)
}

fn is_absent(done: &Done) -> bool {
    matches!(done.answer, Answer::Absent) && done.full.is_none()
}

fn learns_what_another_did<I: Index, D: LogDisk, R: Wait + Abort>(rt: &R, alloc: Global) {
    let (done, events) = found::<I, D, R>(rt, alloc);
    assert_same!(rt; (done.place, events), (1, 1));
    assert_is!(rt; is_absent(&done));
}

#[test]
fn a_pass_learns_what_another_did(rt: HostRuntime) {
    learns_what_another_did::<FlatIndex, MemDisk, HostRuntime>(&rt, rt.alloc());
}
