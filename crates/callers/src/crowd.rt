//! Runs all threads of a plan at once.
ghost use Rattle.std.specs.Prelude.{◌≡◌, IfSome, vec_len};

use crate::plan::Plan;
use crate::rows::{OBJECTS, put_of};
use crate::work::Caller;
use pisrakun::{Index, LogDisk, ObjectStore, Start};
use std::alloc::Global;
use std::rt::Clock;
use std::sync::Wait;
use std::thread::Threads;

// A caller for each session of a plan.
fn callers(alloc: Global, plan: Plan) -> Option<Vec<Caller>>
    ensures { IfSome result (λ callers. vec_len callers ≡ plan.all) }
{
    (0..plan.all)
        .map(|session| Caller::new(alloc, session, plan))
        .collect(alloc)
        .ok()
}

// Puts the objects of all sessions of a plan.
fn put_all<I: Index, D: LogDisk, O: Start, R: Wait>(
    rt: &R,
    store: &mut ObjectStore<I, D, O>,
    plan: Plan,
) {
    for object in 0..u32::from(plan.all) * OBJECTS {
        let _ = store.ask(rt, &put_of(object));
    }
}

/// Puts the objects of a plan, and then all its threads call. Returns each session's counts and times, or `None` if memory
/// runs out.
pub fn play<I: Index + Send, D: LogDisk + Send, O: Start + Send, R: Threads + Wait + Clock + Sync>(
    rt: &R,
    alloc: Global,
    store: &mut ObjectStore<I, D, O>,
    plan: Plan,
) -> Option<Vec<Caller>> {
    let callers = callers(alloc, plan)?;
    put_all(rt, store, plan);
    store.work_all(rt, 0, callers).ok()
}
