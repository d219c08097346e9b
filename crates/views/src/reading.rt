//! Threads that read views of their own, and one that changes the store meanwhile.
ghost use Rattle.store_client.specs.Caller.{Keeps};

use crate::objects::{box_of, point_of};
use crate::plan::Plan;
use disk_trait::LogDisk;
use index_layer::Index;
use index_view::View;
use sessions::Start;
use std::alloc::Global;
use std::rt::Clock;
use std::sync::Wait;
use std::thread;
use std::time::{Duration, Instant};
use store_client::{Client, Work};
use zorder::Memory;

// How many milliseconds a thread keeps a view.
const KEPT: u64 = 10;

// How many queries a thread makes before it reads the clock.
const QUERIES: u64 = 32;

// The changes of a millisecond.
const CHANGES: u64 = 10;

/// A thread. The first ones read, and the one after them, if there is one, writes.
#[derive(Drop)]
pub struct Reader {
    plan: Plan,
    number: u8,
    writes: bool,
    /// How many queries were answered, and how many of the answers were wrong or refused.
    pub answers: u64,
    pub wrong: u64,
}

impl Reader {
    pub fn new(plan: Plan, number: u8, readers: u8) -> Reader {
        Reader {
            plan,
            number,
            writes: number >= readers,
            answers: 0,
            wrong: 0,
        }
    }

    // Makes some queries: the nearest 8 of a point, then a box.
    fn query_some<I: Index>(&mut self, alloc: Global, view: &View<I>) {
        for _ in 0..QUERIES {
            let is_good = self.query(alloc, view);
            self.answers = self.answers.saturating_add(1);
            self.wrong = self.wrong.saturating_add(u64::from(is_good != Ok(true)));
        }
    }

    // Makes the next query, and returns whether its answer may be right.
    fn query<I: Index>(&self, alloc: Global, view: &View<I>) -> Result<bool, Memory> {
        let number = self.answers.wrapping_add(u64::from(self.number) << 56);
        if number % 2 == 0 {
            let found = view.nearest(alloc, point_of(number), 8)?;
            return Ok(found.as_slice().len() == 8);
        }
        let listed = view.within(alloc, &box_of(number, self.plan.objects))?;
        Ok(listed.as_slice().len() as u64 <= view.len())
    }

    // Reads one view until it is time for another one.
    fn read_view<I: Index, R: AllocGlobal + Clock>(&mut self, rt: &R, view: &View<I>) {
        let begun = Instant::now(rt).ok();
        for _ in 0..u64::MAX {
            self.query_some(rt.alloc(), view);
            if is_over(rt, begun, Duration::from_millis(KEPT)) {
                return;
            }
        }
    }

    fn read<I: Index, D: LogDisk, O: Start, R: Wait + AllocGlobal + Clock>(
        &mut self,
        rt: &R,
        client: &mut Client<'_, I, D, O>,
    )
        ensures { Keeps client.old client.new }
    {
        let begun = Instant::now(rt).ok();
        for _ in 0..u64::MAX {
            if is_over(rt, begun, Duration::from_millis(self.plan.millis)) {
                return;
            }
            match client.view(rt) {
                Ok(view) => self.read_view(rt, &view),
                Err(_) => self.wrong = self.wrong.saturating_add(1),
            }
        }
    }

    // Changes the store at its pace.
    fn write<I: Index, D: LogDisk, O: Start, R: Wait + Clock>(
        &mut self,
        rt: &R,
        client: &mut Client<'_, I, D, O>,
    )
        ensures { Keeps client.old client.new }
    {
        let begun = Instant::now(rt).ok();
        for milli in 0..self.plan.millis {
            self.change_some(rt, client, milli);
            wait_until(rt, begun, Duration::from_millis(milli));
        }
    }

    // Makes the changes of a millisecond.
    fn change_some<I: Index, D: LogDisk, O: Start, R: Wait>(
        &mut self,
        rt: &R,
        client: &mut Client<'_, I, D, O>,
        milli: u64,
    )
        ensures { Keeps client.old client.new }
    {
        for change in 0..CHANGES {
            let number = milli.wrapping_mul(CHANGES).wrapping_add(change);
            let id = number.wrapping_mul(7_919) % u64::from(self.plan.objects.max(1));
            let is_changed = client.report(rt, id, point_of(number << 32), 0).is_ok();
            self.wrong = self.wrong.saturating_add(u64::from(!is_changed));
        }
    }
}

impl<R: Wait + AllocGlobal + Clock> Work<R> for Reader {
    fn work<I: Index, D: LogDisk, O: Start>(&mut self, rt: &R, client: &mut Client<'_, I, D, O>)
        ensures client { Keeps client.old client.new }
    {
        if self.writes {
            self.write(rt, client);
        } else {
            self.read(rt, client);
        }
    }
}

fn since(rt: &impl Clock, begun: Option<Instant>) -> Option<Duration> {
    begun?.elapsed(rt).ok()
}

// Whether so much time is over. Without a clock it always is.
fn is_over(rt: &impl Clock, begun: Option<Instant>, end: Duration) -> bool {
    match since(rt, begun) {
        Some(gone) => gone >= end,
        None => true,
    }
}

fn wait_until(rt: &impl Clock, begun: Option<Instant>, due: Duration) {
    if let Some(gone) = since(rt, begun) {
        thread::sleep(rt, due.saturating_sub(gone));
    }
}
