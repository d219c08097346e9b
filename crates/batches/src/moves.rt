//! The moves of one thread.
ghost use Rattle.pisrakun.specs.Caller.{Keeps};

use crate::plan::Plan;
use crate::trouble::Trouble;
use pisrakun::{Answer, Batch, Client, Index, LogDisk, NotAdded, Start, Work};
use std::alloc::Global;
use std::rt::Clock;
use std::sync::Wait;
use std::time::Instant;

/// A thread that moves objects of its own.
#[derive(Drop)]
pub struct Mover {
    alloc: Global,
    plan: Plan,
    /// Which thread it is, from 0.
    thread: u64,
    /// How many of its answers were right: each object moves.
    pub right: u64,
    /// What ended it early.
    pub trouble: Option<Trouble>,
}

// How many of the answers say that an object moved.
fn count_moved(answers: &[Answer]) -> u64 {
    let moved = answers.iter().filter(|answer| is_moved(answer));
    moved.count() as u64
}

fn is_moved(answer: &Answer) -> bool {
    matches!(answer, Answer::Moved(_))
}

impl Mover {
    pub fn new(alloc: Global, plan: Plan, thread: u64) -> Mover {
        Mover {
            alloc,
            plan,
            thread,
            right: 0,
            trouble: None,
        }
    }

    // Replaces the moves of a batch by those from this number on.
    fn fill(&self, batch: &mut Batch, first: u64) -> Result<(), NotAdded> {
        batch.clear();
        for number in first..first.saturating_add(self.plan.size) {
            let planned = self.plan.planned(self.thread, number);
            batch.move_to(planned.id, planned.at, planned.moment)?;
        }
        Ok(())
    }

    // Makes one batch, whose first move has this number.
    fn step<I: Index, D: LogDisk, O: Start, R: Wait>(
        &mut self,
        rt: &R,
        client: &mut Client<'_, I, D, O>,
        batch: &mut Batch,
        first: u64,
    ) -> Result<(), Trouble>
        ensures { Keeps client.old client.new }
    {
        self.fill(batch, first)?;
        let replies = client.apply(rt, batch)?;
        let moved = count_moved(replies.answers.as_slice());
        self.right = self.right.saturating_add(moved);
        Ok(())
    }

    // Whether this thread is to sync now. The others leave it to the first.
    fn is_due(&self, rt: &impl Clock, last: Option<Instant>) -> bool {
        let waited = last.and_then(|last| last.elapsed(rt).ok());
        match (self.plan.pause, waited) {
            (Some(pause), Some(waited)) => self.thread == 0 && pause <= waited,
            _ => false,
        }
    }

    fn move_all<I: Index, D: LogDisk, O: Start, R: Wait + Clock>(
        &mut self,
        rt: &R,
        client: &mut Client<'_, I, D, O>,
    ) -> Result<(), Trouble>
        ensures { Keeps client.old client.new }
    {
        let mut batch = Batch::new(self.alloc);
        let mut synced = Instant::now(rt).ok();
        for number in 0..self.plan.batches {
            let first = number.saturating_mul(self.plan.size);
            self.step(rt, client, &mut batch, first)?;
            if self.is_due(rt, synced) {
                client.sync(rt)?;
                synced = Instant::now(rt).ok();
            }
        }
        Ok(())
    }
}

impl<R: Wait + Clock> Work<R> for Mover {
    fn work<I: Index, D: LogDisk, O: Start>(&mut self, rt: &R, client: &mut Client<'_, I, D, O>)
        ensures client { Keeps client.old client.new }
    {
        self.trouble = self.move_all(rt, client).err();
    }
}
