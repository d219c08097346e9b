//! A store with objects, and all threads of a plan at once.
ghost use Rattle.std.specs.Prelude.{◌≡◌, IfSome, vec_len};

use crate::moves::Mover;
use crate::plan::{Plan, point_of};
use crate::trouble::Trouble;
use pisrakun::{Batch, Index, LogDisk, NotAdded, ObjectStore, Start};
use std::alloc::Global;
use std::rt::Clock;
use std::sync::Wait;
use std::thread::Threads;
use std::time::Instant;

// How many puts are one batch before the moves.
const PUTS: u64 = 1_024;

/// What came of the moves of a plan.
#[derive(Clone, Copy)]
pub struct Moved {
    pub changes: u64,
    /// How many answers were right.
    pub right: u64,
    /// How long all threads took.
    pub nanos: u128,
}

// The puts of the objects from this id on.
fn puts(alloc: Global, first: u64) -> Result<Batch, NotAdded> {
    let mut batch = Batch::new(alloc);
    for id in first..first.saturating_add(PUTS) {
        batch.put(id, point_of(id), 0)?;
    }
    Ok(batch)
}

fn put_all<I: Index, D: LogDisk, O: Start, R: Wait + AllocGlobal>(
    rt: &R,
    store: &mut ObjectStore<I, D, O>,
    plan: Plan,
) -> Result<(), Trouble> {
    for number in 0..plan.objects / PUTS {
        let batch = puts(rt.alloc(), number.saturating_mul(PUTS))?;
        store.apply(rt, &batch)?;
    }
    Ok(())
}

// A mover for each thread of a plan.
fn movers(alloc: Global, plan: Plan) -> Option<Vec<Mover>>
    ensures { IfSome result (λ movers. vec_len movers ≡ plan.threads) }
{
    (0..plan.threads)
        .map(|thread| Mover::new(alloc, plan, u64::from(thread)))
        .collect(alloc)
        .ok()
}

fn nanos_since(rt: &impl Clock, begun: Option<Instant>) -> u128 {
    match begun.and_then(|begun| begun.elapsed(rt).ok()) {
        Some(took) => took.as_nanos(),
        None => 0,
    }
}

// How many answers of all movers were right, or what ended one of them early.
fn right_of(movers: Vec<Mover>) -> Result<u64, Trouble> {
    let mut right = 0_u64;
    for mover in movers {
        if let Some(trouble) = mover.trouble {
            return Err(trouble);
        }
        right = right.saturating_add(mover.right);
    }
    Ok(right)
}

/// Puts the objects of a plan, and then lets all threads move them. Only the moves and their syncs are timed.
pub fn play<
    I: Index + Send,
    D: LogDisk + Send,
    O: Start + Send,
    R: Threads + Wait + Sync + AllocGlobal + Clock,
>(rt: &R, store: &mut ObjectStore<I, D, O>, plan: Plan) -> Result<Moved, Trouble> {
    put_all(rt, store, plan)?;
    store.sync(rt)?;
    let Some(movers) = movers(rt.alloc(), plan) else {
        return Err(Trouble::Memory);
    };
    let begun = Instant::now(rt).ok();
    let Ok(movers) = store.work_all(rt, 1, movers) else {
        return Err(Trouble::Memory);
    };
    store.sync(rt)?;
    let nanos = nanos_since(rt, begun);
    let changes = plan
        .batches
        .saturating_mul(plan.size)
        .saturating_mul(u64::from(plan.threads));
    Ok(Moved {
        changes,
        right: right_of(movers)?,
        nanos,
    })
}
