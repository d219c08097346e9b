//! Batches of a store: many operations in one step.
ghost use Rattle.store_client.specs.Batches.{Applies};
ghost use Rattle.store_client.specs.Caller.{Keeps};
ghost use Rattle.pisrakun.specs.Now.{DoesAllNow, IsWhole};

use crate::object_store::ObjectStore;
use disk_trait::LogDisk;
use index_layer::Index;
use sessions::{CallFault, Start};
use std::sync::Wait;
use store_client::{Batch, Replies, more_splits, rows_of, split_some, tend_and_apply, try_split};

impl<I: Index, D: LogDisk, O: Start> ObjectStore<I, D, O> {
    // Executes a batch, and then splits full leaves.
    fn apply_whole<R: Wait>(&mut self, rt: &R, batch: &Batch) -> Result<Replies, CallFault>
        ensures applies { Applies I.WIDTH batch.now self.old self.new result }
        ensures whole { IsWhole self.old }
        ensures store { Keeps self.old self.new }
    {
        let (alloc, session) = (self.alloc, self.session);
        let ops = batch.ops();
        let (row, next) = rows_of(self.row, ops.len());
        self.row = next;
        let (store, pass) = (&self.store, &mut self.pass);
        let done = match tend_and_apply(rt, alloc, store, pass, session, row, ops) {
            Ok(done) => done,
            Err(fault) => return Err(fault),
        };
        let split = try_split(rt, alloc, store, pass, session, done.full);
        let more = more_splits(&split, ops.len());
        split_some(rt, alloc, store, pass, session, more);
        self.place = done.place;
        self.change = None;
        Ok(Replies {
            place: done.place,
            answers: done.answers,
            split,
        })
    }

    /// Executes a batch as one step, and returns the answer to each operation at its place. Over a file, all its changes
    /// are one append of four device calls, and a crash leaves all of them or none. A batch that changes nothing makes
    /// no device call, and an empty one adds no entry.
    ///
    /// `Err` says that no operation was executed. After a batch the store splits full leaves, one and another one for
    /// each 64 operations. The next calls split the others.
    pub fn apply<R: Wait>(&mut self, rt: &R, batch: &Batch) -> Result<Replies, CallFault>
        ensures applies { Applies I.WIDTH batch.now self.old self.new result }
        ensures now { DoesAllNow batch.now self.old self.new result }
        ensures store { Keeps self.old self.new }
    {
        self.apply_whole(rt, batch)
    }
}
