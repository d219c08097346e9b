//! The calls of one thread.
ghost use Rattle.pisrakun.specs.Caller.{Keeps};

use crate::plan::Plan;
use crate::rows::{is_good, op_of};
use pisrakun::{Client, Index, LogDisk, Start, Work};
use std::alloc::Global;
use std::rt::Clock;
use std::sync::Wait;
use std::thread;
use std::time::{Duration, Instant};

/// A session that calls. The first sessions are paced, the next are those of the batch, and the last are busy.
#[derive(Drop)]
pub struct Caller {
    session: u8,
    plan: Plan,
    /// How many answers of a paced session were right.
    pub good: u64,
    /// How long each call of a paced session took, if the plan says to print times.
    pub times: Vec<Duration>,
}

impl Caller {
    pub fn new(alloc: Global, session: u8, plan: Plan) -> Caller {
        Caller {
            session,
            plan,
            good: 0,
            times: Vec::new(alloc),
        }
    }

    // Makes one call, and returns whether its answer was right.
    fn call<I: Index, D: LogDisk, O: Start, R: Wait>(
        &self,
        rt: &R,
        client: &mut Client<'_, I, D, O>,
        row: u32,
    ) -> bool
        ensures { Keeps client.old client.new }
    {
        match client.ask(rt, &op_of(self.session, row)) {
            Ok(reply) => is_good(row, &reply.answer),
            Err(_) => false,
        }
    }

    // Makes the calls of a paced thread.
    fn call_at_pace<I: Index, D: LogDisk, O: Start, R: Wait + Clock>(
        &mut self,
        rt: &R,
        client: &mut Client<'_, I, D, O>,
    )
        ensures { Keeps client.old client.new }
    {
        let start = Instant::now(rt).ok();
        for row in 0..self.plan.calls {
            wait_for(rt, start, self.plan.due(row));
            let begun = Instant::now(rt).ok();
            let is_good = self.call(rt, client, row);
            self.good = self.good.saturating_add(u64::from(is_good));
            if self.plan.tells_times {
                self.note(since(rt, begun));
            }
        }
    }

    fn note(&mut self, time: Option<Duration>) {
        if let Some(time) = time {
            let _ = self.times.push(time);
        }
    }

    // Calls without a pause, as long as the paced threads are planned to take.
    fn call_on<I: Index, D: LogDisk, O: Start, R: Wait + Clock>(
        &self,
        rt: &R,
        client: &mut Client<'_, I, D, O>,
    )
        ensures { Keeps client.old client.new }
    {
        let start = Instant::now(rt).ok();
        let end = self.plan.due(self.plan.calls);
        for row in 0..u32::MAX {
            if is_over(rt, start, end, row) {
                return;
            }
            self.call(rt, client, row);
        }
    }
}

impl<R: Wait + Clock> Work<R> for Caller {
    fn work<I: Index, D: LogDisk, O: Start>(&mut self, rt: &R, client: &mut Client<'_, I, D, O>)
        ensures client { Keeps client.old client.new }
    {
        let Plan { paced, batch, .. } = self.plan;
        if self.session < paced {
            self.call_at_pace(rt, client);
        } else {
            client.in_batch(self.session - paced < batch);
            self.call_on(rt, client);
        }
    }
}

// Sleeps until it is time for a row.
fn wait_for(rt: &impl Clock, start: Option<Instant>, due: Duration) {
    if let Some(gone) = since(rt, start) {
        let left = due.saturating_sub(gone);
        if !left.is_zero() {
            thread::sleep(rt, left);
        }
    }
}

fn since(rt: &impl Clock, start: Option<Instant>) -> Option<Duration> {
    start?.elapsed(rt).ok()
}

// Whether the time is over. The clock is read for one row of 64.
fn is_over(rt: &impl Clock, start: Option<Instant>, end: Duration, row: u32) -> bool {
    if row % 64 != 0 {
        return false;
    }
    match since(rt, start) {
        Some(gone) => gone >= end,
        None => true,
    }
}
