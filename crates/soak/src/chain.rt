//! Changes that their numbers determine. So the objects show how many changes there were.
ghost use Rattle.store_client.specs.Caller.{Keeps};

use crate::dice::Dice;
use crate::last::is_there;
use crate::plan::Plan;
use commit_book::BookFault;
use disk_trait::LogDisk;
use index_layer::Index;
use plain_list::{Answer, Stamped};
use sessions::{CallFault, Start};
use std::alloc::Global;
use std::sync::Wait;
use store_client::{Batch, Client, NotAdded, Report, Work};
use thiserror::Error;

// How many changes a batch has at most.
const BATCH: u64 = 8;

/// Why a thread makes no more changes.
#[derive(Clone, Copy, Debug, Error)]
pub enum Broken {
    #[error("a call was refused: {0}")]
    Refused(#[from] CallFault),
    #[error("a change wasn't added to a batch: {0}")]
    NotAdded(#[from] NotAdded),
    #[error("object {id} isn't where {done} changes leave it")]
    Lost { done: u64, id: u64 },
    #[error("change {number} wasn't told where its object was")]
    Told { number: u64 },
    #[error("a sync was refused: {0}")]
    Unsynced(BookFault),
}

/// A thread that changes objects of its own, one after the other and then again from the first one on. Of two calls one
/// makes a change, and the other one makes several in a batch. At the end of each round it syncs. Before its first change
/// the thread finds out how many changes were made.
#[derive(Drop)]
pub struct Chain {
    alloc: Global,
    plan: Plan,
    pub session: u8,
    has_looked: bool,
    /// How many changes were made.
    pub done: u64,
    /// How many changes it is still to make.
    pub left: u64,
    pub broken: Option<Broken>,
}

impl Chain {
    pub fn new(alloc: Global, plan: Plan, session: u8) -> Chain {
        Chain {
            alloc,
            plan,
            session,
            has_looked: false,
            done: 0,
            left: plan.share(session),
            broken: None,
        }
    }

    // The object of a change.
    fn object(&self, number: u64) -> u64 {
        let object = number % self.plan.own();
        object
            .saturating_mul(4)
            .saturating_add(u64::from(self.session))
    }

    // Where a change moves its object, and when.
    fn stamp(&self, number: u64) -> Stamped {
        let mut dice = Dice::new(self.plan.seed.wrapping_add(number), self.session);
        Stamped {
            at: dice.place(),
            moment: number,
        }
    }

    // Where the last change of the same object before this one has left it.
    fn before(&self, number: u64) -> Option<Stamped> {
        match number.checked_sub(self.plan.own()) {
            Some(last) if last > 0 => Some(self.stamp(last)),
            _ => None,
        }
    }

    // Whether this is the expected answer to a change.
    fn is_told(&self, number: u64, told: &Report) -> bool {
        match self.before(number) {
            Some(from) => *told == Report::From(from),
            None => *told == Report::New,
        }
    }

    // Makes the next change.
    fn change<I: Index, D: LogDisk, O: Start, R: Wait>(
        &self,
        rt: &R,
        client: &mut Client<'_, I, D, O>,
    ) -> Result<(), Broken>
        ensures { Keeps client.old client.new }
    {
        let number = self.done.saturating_add(1);
        let Stamped { at, moment } = self.stamp(number);
        let told = client.report(rt, self.object(number), at, moment)?;
        if self.is_told(number, &told) {
            Ok(())
        } else {
            Err(Broken::Told { number })
        }
    }

    // So many next changes, as a batch. Each is a move and a put.
    fn batch_of(&self, changes: u64) -> Result<Batch, NotAdded> {
        let mut batch = Batch::new(self.alloc);
        for ahead in 1..=changes {
            let number = self.done.saturating_add(ahead);
            let Stamped { at, moment } = self.stamp(number);
            batch.report(self.object(number), at, moment)?;
        }
        Ok(batch)
    }

    // Whether these are the expected answers to the move and the put of a change.
    fn are_told(&self, number: u64, moved: Option<&Answer>, put: Option<&Answer>) -> bool {
        match (self.before(number), moved, put) {
            (Some(before), Some(Answer::Moved(from)), Some(Answer::Present(kept))) => {
                *from == before && *kept == self.stamp(number)
            }
            (None, Some(Answer::Absent), Some(Answer::Done)) => true,
            _ => false,
        }
    }

    // The first of so many next changes that didn't get its expected answers, if there is one.
    fn not_told(&self, changes: u64, answers: &[Answer]) -> Option<u64> {
        let mut answers = answers.iter();
        for ahead in 1..=changes {
            let number = self.done.saturating_add(ahead);
            let (moved, put) = (answers.next(), answers.next());
            if !self.are_told(number, moved, put) {
                return Some(number);
            }
        }
        None
    }

    // Makes so many next changes in a batch.
    fn change_some<I: Index, D: LogDisk, O: Start, R: Wait>(
        &self,
        rt: &R,
        client: &mut Client<'_, I, D, O>,
        changes: u64,
    ) -> Result<(), Broken>
        ensures { Keeps client.old client.new }
    {
        let batch = self.batch_of(changes)?;
        let replies = client.apply(rt, &batch)?;
        match self.not_told(changes, replies.answers.as_slice()) {
            Some(number) => Err(Broken::Told { number }),
            None => Ok(()),
        }
    }

    // Makes the next change, or so many of them in a batch.
    fn call<I: Index, D: LogDisk, O: Start, R: Wait>(
        &mut self,
        rt: &R,
        client: &mut Client<'_, I, D, O>,
        changes: u64,
    )
        ensures { Keeps client.old client.new }
    {
        let made = if changes == 1 {
            self.change(rt, client)
        } else {
            self.change_some(rt, client, changes)
        };
        match made {
            Ok(()) => {
                self.done = self.done.saturating_add(changes);
                self.left = self.left.saturating_sub(changes);
            }
            Err(broken) => self.broken = Some(broken),
        }
    }

    // The latest moment of its objects.
    fn latest<I: Index, D: LogDisk, O: Start, R: Wait>(
        &self,
        rt: &R,
        client: &mut Client<'_, I, D, O>,
    ) -> Result<u64, CallFault>
        ensures { Keeps client.old client.new }
    {
        let mut latest = 0;
        for number in 0..self.plan.own() {
            if let Some(kept) = client.find(rt, self.object(number))? {
                latest = kept.moment.max(latest);
            }
        }
        Ok(latest)
    }

    // Whether the object of a change is exactly where that change would find it, or isn't there if it would be new.
    fn is_ready<I: Index, D: LogDisk, O: Start, R: Wait>(
        &self,
        rt: &R,
        client: &mut Client<'_, I, D, O>,
        number: u64,
    ) -> Result<bool, CallFault>
        ensures { Keeps client.old client.new }
    {
        let object = self.object(number);
        match self.before(number) {
            Some(kept) => is_there(rt, client, object, kept),
            None => Ok(client.find(rt, object)?.is_none()),
        }
    }

    // How many changes were made. The objects must be exactly where that many changes leave them.
    fn find<I: Index, D: LogDisk, O: Start, R: Wait>(
        &self,
        rt: &R,
        client: &mut Client<'_, I, D, O>,
    ) -> Result<u64, Broken>
        ensures { Keeps client.old client.new }
    {
        let done = self.latest(rt, client)?;
        for ahead in 1..=self.plan.own() {
            let number = done.saturating_add(ahead);
            let is_ready = self.is_ready(rt, client, number)?;
            if !is_ready {
                let id = self.object(number);
                return Err(Broken::Lost { done, id });
            }
        }
        Ok(done)
    }

    // Continues from what it finds.
    fn look<I: Index, D: LogDisk, O: Start, R: Wait>(
        &mut self,
        rt: &R,
        client: &mut Client<'_, I, D, O>,
    )
        ensures { Keeps client.old client.new }
    {
        self.has_looked = true;
        match self.find(rt, client) {
            Ok(done) => self.done = done,
            Err(broken) => self.broken = Some(broken),
        }
    }

    // Has its changes written, if records wait.
    fn sync<I: Index, D: LogDisk, O: Start, R: Wait>(
        &mut self,
        rt: &R,
        client: &mut Client<'_, I, D, O>,
    )
        ensures { Keeps client.old client.new }
    {
        if let Err(fault) = client.sync(rt) {
            self.broken = Some(Broken::Unsynced(fault));
        }
    }

    /// How many objects it has.
    pub fn objects(&self) -> u64 {
        self.done.min(self.plan.own())
    }
}

impl<R: Wait> Work<R> for Chain {
    fn work<I: Index, D: LogDisk, O: Start>(&mut self, rt: &R, client: &mut Client<'_, I, D, O>)
        ensures client { Keeps client.old client.new }
    {
        if !self.has_looked {
            self.look(rt, client);
            return;
        }
        let end = self.done.saturating_add(self.plan.each().min(self.left));
        for call in 0..self.plan.each() {
            let left = end.saturating_sub(self.done);
            if left == 0 || self.broken.is_some() {
                break;
            }
            let most = if call % 2 == 0 { 1 } else { BATCH };
            self.call(rt, client, left.min(most));
        }
        if self.broken.is_none() {
            self.sync(rt, client);
        }
    }
}
