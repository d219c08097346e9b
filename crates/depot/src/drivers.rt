//! The drivers of a day. Each reports their vans with a client of their own, and watches which vans leave the yard and
//! come back.
ghost use Rattle.pisrakun.specs.Caller.{Keeps};

use crate::yard::{Day, ROUNDS, VANS, id_of, yard};
use anyhow::Result;
use pisrakun::{
    Batch, Change, Client, Crossing, Event, Fences, Index, LogDisk, NotAdded, ObjectStore, Start,
    Tally, Work,
};
use std::alloc::Global;
use std::sync::Wait;

/// A driver, and the fence of their yard. Only their own vans cross it.
#[derive(Drop)]
pub struct Driver {
    alloc: Global,
    number: u8,
    day: Day,
    yard: Tally,
    good: u32,
}

/// The result of a driver's day: how many reports had the expected answer, how many vans came into the yard and left
/// it, and how many are inside.
#[derive(Clone, Copy)]
pub struct Told {
    pub good: u32,
    pub came: usize,
    pub left: usize,
    pub inside: u64,
}

fn count(events: &[Event], crossing: Crossing) -> usize {
    let events = events.iter();
    events.filter(|event| event.crossing == crossing).count()
}

impl Driver {
    /// A driver in the morning, with the vans that are in the yard.
    pub fn new<I: Index, D: LogDisk, O: Start, R: Wait>(
        rt: &R,
        alloc: Global,
        store: &mut ObjectStore<I, D, O>,
        number: u8,
        day: Day,
    ) -> Result<Driver> {
        let fences = Fences::of(alloc, &[yard(number)])?;
        let world = store.world(rt)?;
        Ok(Driver {
            alloc,
            number,
            day,
            yard: Tally::over(alloc, &fences, &world)?,
            good: 0,
        })
    }

    // The reports of a round, one for each van.
    fn reports(&self, round: u32) -> Result<Batch, NotAdded> {
        let mut batch = Batch::new(self.alloc);
        for van in 0..VANS {
            let now = self.day.place(self.number, round, van);
            batch.report(id_of(self.number, van), now.at, now.moment)?;
        }
        Ok(batch)
    }

    // Takes in what the reports of a round have changed: one change for each van.
    fn watch(&mut self, round: u32, changes: &[Change]) -> Result<()> {
        for (van, change) in (0..VANS).zip(changes) {
            let is_good = self.day.is_good(self.number, round, van, change);
            self.good = self.good.saturating_add(u32::from(is_good));
            self.yard.changed(change)?;
        }
        Ok(())
    }

    // Reports all vans in one step, with one append.
    fn play_round<I: Index, D: LogDisk, O: Start, R: Wait>(
        &mut self,
        rt: &R,
        client: &mut Client<'_, I, D, O>,
        round: u32,
    ) -> Result<()>
        ensures client { Keeps client.old client.new }
    {
        let reports = self.reports(round)?;
        let replies = client.apply(rt, &reports)?;
        let changes = replies.changes(self.alloc, &reports)?;
        self.watch(round, &changes)
    }

    /// The result of the day.
    pub fn end(mut self) -> Told {
        let events = self.yard.take_events(self.alloc);
        Told {
            good: self.good,
            came: count(events.as_slice(), Crossing::Enter),
            left: count(events.as_slice(), Crossing::Leave),
            inside: self.yard.counts().first().map_or(0, |yard| yard.inside),
        }
    }
}

impl<R: Wait> Work<R> for Driver {
    // Plays the rounds until one fails.
    fn work<I: Index, D: LogDisk, O: Start>(&mut self, rt: &R, client: &mut Client<'_, I, D, O>)
        ensures client { Keeps client.old client.new }
    {
        for round in 0..ROUNDS {
            if self.play_round(rt, client, round).is_err() {
                return;
            }
        }
    }
}

/// How many of a driver's vans are where the day left them.
pub fn count_found<I: Index, D: LogDisk, O: Start, R: Wait>(
    rt: &R,
    store: &mut ObjectStore<I, D, O>,
    driver: u8,
    day: Day,
) -> u32 {
    let mut found: u32 = 0;
    for van in 0..VANS {
        let told = store.find(rt, id_of(driver, van));
        let is_there = told == Ok(Some(day.place(driver, ROUNDS - 1, van)));
        found = found.saturating_add(u32::from(is_there));
    }
    found
}
