//! A service over two files. Three clerks take reports of couriers from a queue, in threads that share two clients of the
//! store. Two fences say how many couriers are in the south and in the north. A run continues with what is in the files,
//! also after an earlier run was killed.
#![tactic(auto)]

use anyhow::{Context, Result};
use crossbeam_channel::{Receiver, unbounded};
use pisrakun::{
    Batch, Change, Fence, Fences, FileDisk, FileStore, Index, KdTrie, Lender, LogDisk, OpenedPair,
    Point, Pool, Region, Service, Start, Tally,
};
use std::alloc::Global;
use std::sync::Wait;
use std::thread::Threads;

// A clerk, who applies the batches of a queue, and keeps what they have changed.
#[derive(Drop)]
struct Clerk<'q> {
    queue: &'q Receiver<Batch>,
    changes: Vec<Change>,
    done: Result<()>,
}

impl<'q> Clerk<'q> {
    // Applies one batch after another until the queue has ended, each by a client from the pool.
    fn work<R: Wait + AllocGlobal, I: Index, D: LogDisk, O: Start, L: Lender>(
        &mut self,
        rt: &R,
        pool: &Pool<'_, I, D, O, L>,
    ) -> Result<()> {
        let queue = self.queue;
        for batch in queue.iter(rt) {
            let replies = pool.enter(rt).apply(rt, &batch)?;
            self.changes.extend(replies.changes(rt.alloc(), &batch)?)?;
        }
        Ok(())
    }
}

impl<'q, R: Wait + AllocGlobal> Service<R> for Clerk<'q> {
    fn serve<I: Index, D: LogDisk, O: Start, L: Lender>(
        &mut self,
        rt: &R,
        pool: &Pool<'_, I, D, O, L>,
    ) {
        self.done = self.work(rt, pool);
    }
}

// A queue of ten batches, each with the reports of six couriers, from a moment on.
fn reports<R: Wait>(rt: &R, alloc: Global, from: u64) -> Result<Receiver<Batch>> {
    let (queue, reports) = unbounded(alloc)?;
    for number in 0..10u32 {
        let mut batch = Batch::new(alloc);
        for courier in 0..6u32 {
            let report = number.wrapping_mul(6).wrapping_add(courier);
            let (x, y) = (courier, report.wrapping_mul(2_654_435_769));
            let moment = from.saturating_add(u64::from(number));
            batch.report(u64::from(courier), Point { x, y }, moment)?;
        }
        queue.send(rt, batch).ok().context("the queue is full")?;
    }
    Ok(reports)
}

// The fence around a strip of the town.
fn strip(id: u64, low: u32, high: u32) -> Fence {
    let lo = Point { x: 0, y: low };
    let hi = Point {
        x: u32::MAX,
        y: high,
    };
    let region = Region { lo, hi };
    Fence { id, region }
}

// Lets three clerks empty the queue. Returns a tally of the fences after all that they changed.
fn serve<R: Threads + Wait + Sync + AllocGlobal, D: LogDisk + Send>(
    rt: &R,
    alloc: Global,
    couriers: &mut FileStore<KdTrie, D>,
    from: u64,
) -> Result<Tally> {
    let fences = Fences::of(alloc, &[strip(1, 0, 1 << 31), strip(2, 1 << 31, u32::MAX)])?;
    let world = couriers.world(rt)?;
    let tally = Tally::over(alloc, &fences, &world).ok();
    let mut tally = tally.context("no memory")?;
    let queue = &reports(rt, alloc, from)?;
    let mut clerks = [Vec::new(alloc), Vec::new(alloc), Vec::new(alloc)].map(|changes| Clerk {
        queue,
        changes,
        done: Ok(()),
    });
    let hosted = couriers.pool(rt, 1, 2, &mut clerks);
    hosted.ok().context("no memory")?;
    let mut changes = Vec::new(alloc);
    for clerk in clerks {
        clerk.done?;
        changes.extend(clerk.changes)?;
    }
    changes.sort_unstable_by_key(|change| change.place);
    for change in &changes {
        tally.changed(change)?;
    }
    Ok(tally)
}

// Opens the files, and serves reports that begin after the latest moment there.
fn run<R: Threads + Wait + Sync + AllocGlobal + Print, D: LogDisk + Send>(
    rt: &R,
    first: D,
    second: D,
) -> Result<()> {
    let alloc = rt.alloc();
    let opened = FileStore::<KdTrie, D>::open_pair(alloc, first, "one.log", second, "two.log", 16);
    let opened = opened.map_err(|refused| refused.cause)?;
    let OpenedPair {
        mut store,
        spare: _,
        which: _,
        found,
    } = opened;
    let from = found.latest.map_or(0, |latest| latest.saturating_add(1));
    let served = serve(rt, alloc, &mut store, from);
    store.close();
    println!(rt; "{} couriers were in the files", found.objects)?;
    for strip in served?.counts() {
        println!(rt; "strip {}: {} couriers", strip.fence.id, strip.inside)?;
    }
    Ok(())
}

fn main(rt: HostRuntime) -> Result<()> {
    for _ in 0..2u8 {
        let (first, second) = (FileDisk::new(rt.clone()?), FileDisk::new(rt.clone()?));
        run(&rt, first, second)?;
    }
    Ok(())
}
