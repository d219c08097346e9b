//! Batches: changes and finds that are one step under the lock.
ghost use Rattle.std.specs.Prelude.{◌≡◌, ◌+◌, ◌^◌, ◌≤◌, true, false, length};
ghost use Rattle.std.specs.List.{AllByRecursion};
ghost use Rattle.commit_book.specs.Answers.{IsUpdate};
ghost use Rattle.sessions.specs.Batches.{Applied, MayNoteAll, has_given_all, has_noted};
ghost use Rattle.sessions.specs.Shared.{origin_of};
ghost use Rattle.sessions.specs.Splits.{SamePass};

use super::Store;
use crate::faults::{CallFault, call_fault};
use crate::shared::SharedBook;
use crate::start::Start;
use book_lock::{Held, Pass};
use commit_book::BatchDone;
use disk_trait::LogDisk;
use index_layer::Index;
use plain_list::Op;
use std::alloc::Global;
use std::sync::Wait;

impl<I: Index, D: LogDisk, O: Start> Store<I, D, O> {
    // Notes the entries of a book from this one on.
    fn note_all(&self, pass: &mut Pass<SharedBook<I, D, O>>, book: &SharedBook<I, D, O>, first: u64)
        requires lock { pass.old.lock ≡ self.now }
        requires on { pass.old.holds ≡ true }
        requires origin { origin_of D.drive book.now ≡ pass.old.origin }
        requires first { first ≡ length pass.old.seen }
        requires entries { MayNoteAll pass.old.seen book.now.entries }
        ensures { pass.new ≡ has_noted pass.old book.now.entries }
    {
        let end = book.events();
        for at in first..end {
            self.lock.note_next(pass, book);
        }
    }

    // Gives a book back to which a batch has added entries, from this one on.
    fn give_all(&self, pass: &mut Pass<SharedBook<I, D, O>>, book: SharedBook<I, D, O>, first: u64)
        requires lock { pass.old.lock ≡ self.now }
        requires on { pass.old.holds ≡ true }
        requires origin { origin_of D.drive book ≡ pass.old.origin }
        requires first { first ≡ length pass.old.seen }
        requires entries { MayNoteAll pass.old.seen book.entries }
        ensures { pass.new ≡ has_given_all pass.old book.entries }
    {
        self.note_all(pass, &book, first);
        self.lock.put_back(pass, book);
    }

    /// Executes changes and finds as one step. Their calls follow one another in the one history, the first with this
    /// row and each of the others with the next one. With a log, the step is one append, and a crash leaves all changes
    /// or none. `Err` says that no operation was executed.
    pub fn apply<R: Wait>(
        &self,
        rt: &R,
        alloc: Global,
        pass: &mut Pass<SharedBook<I, D, O>>,
        session: u8,
        row: u32,
        ops: &[Op],
    ) -> Result<BatchDone, CallFault>
        requires lock { pass.old.lock ≡ self.now }
        requires off { pass.old.holds ≡ false }
        requires updates { AllByRecursion IsUpdate ops.now }
        requires rows { row + length ops.now ≤ 2 ^ 32 }
        ensures applied { Applied I.WIDTH session row ops.now pass.old pass.new result }
        ensures pass { SamePass pass.old pass.new }
    {
        pass.will_read(false);
        let mut book = self.take(rt, pass);
        let first = book.events();
        let answer = book.update_all(alloc, session, row, ops);
        self.give_all(pass, book, first);
        match answer {
            Ok(done) => Ok(done),
            Err(fault) => Err(call_fault(fault)),
        }
    }
}
