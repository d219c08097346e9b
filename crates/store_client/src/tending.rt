//! Calls that look, now and then, whether their store should continue over its second file.
ghost use Rattle.std.specs.Prelude.{◌+◌, ◌≤◌, ◌^◌, length, IfErr};
ghost use Rattle.std.specs.List.{AllByRecursion};
ghost use Rattle.plain_list.specs.Answer.{IsValid};
ghost use Rattle.commit_book.specs.Answers.{IsUpdate};
ghost use Rattle.sessions.specs.Batches.{Applied};
ghost use Rattle.sessions.specs.Calls.{Called, OpensFor};
ghost use Rattle.sessions.specs.Opens.{OpensRefused};
ghost use Rattle.sessions.specs.Splits.{SamePass};
ghost use Rattle.store_client.specs.Caller.{IsFree};
ghost use Rattle.store_client.specs.Tending.{LooksOrStops, OrStops};

use book_lock::Pass;
use commit_book::{BatchDone, Done};
use disk_trait::LogDisk;
use index_layer::Index;
use io_edge::OpenGate;
use plain_list::Op;
use sessions::{CallFault, SharedBook, Start, Store};
use std::alloc::Global;
use std::sync::Wait;
use std::sync::ledger::Ledger;
use step_count::Steps;
use store_file::tend;

// Of so many calls of a client, one looks at the log.
const CALLS_A_LOOK: u64 = 256;

// Whether one of so many calls looks at the log, the first of which has this row. Rows count from 0, so a client's first
// call does. Each call does after the last row that fits.
fn is_due(row: u32, calls: usize) -> bool {
    let first = row as u64 + (CALLS_A_LOOK - 1);
    let end = first.saturating_add(calls as u64);
    first / CALLS_A_LOOK < end / CALLS_A_LOOK || row == u32::MAX
}

// Lets a store continue over its second file, if one of so many calls looks at the log and finds that it is due. `Err` says
// that the store was stopped.
fn tend_if_due<I: Index, D: LogDisk, O: Start, R: Wait>(
    rt: &R,
    store: &Store<I, D, O>,
    pass: &mut Pass<SharedBook<I, D, O>>,
    row: u32,
    calls: usize,
) -> Result<(), CallFault>
    requires { IsFree store.now pass.old }
    ensures tended { LooksOrStops pass.old pass.new result }
    ensures pass { SamePass pass.old pass.new }
{
    if !store.keeps_spare() {
        return Ok(());
    }
    if !is_due(row, calls) {
        return Ok(());
    }
    match tend(rt, store, pass) {
        Some(cell) => Err(CallFault::Closed { cell }),
        None => Ok(()),
    }
}

/// Answers a call, as `Store::call`. Before one of 256 calls of a client, it lets a store that keeps a second file continue
/// over it, if that is due. It is what a `Client` does, for callers of another kind.
///
/// `Closed` is also the answer if that attempt stopped the store.
pub fn tend_and_call<I: Index, D: LogDisk, O: Start, R: Wait, L: Ledger>(
    rt: &R,
    alloc: Global,
    store: &Store<I, D, O>,
    pass: &mut Pass<SharedBook<I, D, O>>,
    session: u8,
    row: u32,
    op: &Op,
    steps: &mut Steps<L>,
) -> Result<Done, CallFault>
    requires free { IsFree store.now pass.old }
    requires valid { IsValid op.now }
    ensures called { OrStops (Called I.WIDTH session row op.now pass.old pass.new) pass.old pass.new result }
    ensures opened { OpensFor I.WIDTH op.now pass.new result steps.old steps.new }
    ensures refused { IfErr result (λ fault. OpensRefused fault steps.old steps.new) }
    ensures pass { SamePass pass.old pass.new }
{
    tend_if_due(rt, store, pass, row, 1)?;
    store.call(rt, alloc, pass, session, row, op, &OpenGate, steps)
}

/// Executes a batch, as `Store::apply`, and lets its store continue over a second file before it, as `tend_and_call`.
pub fn tend_and_apply<I: Index, D: LogDisk, O: Start, R: Wait>(
    rt: &R,
    alloc: Global,
    store: &Store<I, D, O>,
    pass: &mut Pass<SharedBook<I, D, O>>,
    session: u8,
    row: u32,
    ops: &[Op],
) -> Result<BatchDone, CallFault>
    requires free { IsFree store.now pass.old }
    requires updates { AllByRecursion IsUpdate ops.now }
    requires rows { row + length ops.now ≤ 2 ^ 32 }
    ensures applied { OrStops (Applied I.WIDTH session row ops.now pass.old pass.new) pass.old pass.new result }
    ensures pass { SamePass pass.old pass.new }
{
    tend_if_due(rt, store, pass, row, ops.len())?;
    store.apply(rt, alloc, pass, session, row, ops)
}
