//! A sync of the log.
ghost use Rattle.std.specs.Prelude.{◌≡◌, false, IfOk};
ghost use Rattle.sessions.specs.Splits.{SamePass};
ghost use Rattle.sessions.specs.Syncs.{SyncsPass, WasDurable, has_lost};

use super::Store;
use crate::shared::SharedBook;
use crate::start::Start;
use book_lock::Pass;
use commit_book::BookFault;
use disk_trait::LogDisk;
use index_layer::Index;
use std::sync::Wait;

impl<I: Index, D: LogDisk, O: Start> Store<I, D, O> {
    /// Writes all records that wait for a sync by one append, and returns the place of the last call, which is after
    /// everything that the pass has seen. From then on each crash leaves the changes up to this place. If none waits, no
    /// device call is made. Other callers wait until the records are written. If the drive fails, the store is closed,
    /// and a crash leaves all records that waited or none.
    pub fn sync<R: Wait>(
        &self,
        rt: &R,
        pass: &mut Pass<SharedBook<I, D, O>>,
    ) -> Result<u64, BookFault>
        requires lock { pass.old.lock ≡ self.now }
        requires off { pass.old.holds ≡ false }
        ensures synced { SyncsPass pass.old pass.new result }
        ensures durable { IfOk result (λ place. WasDurable D.drive I.WIDTH pass.new) }
        ensures pass { SamePass pass.old pass.new }
    {
        let mut book = self.take(rt, pass);
        let answer = book.sync();
        let grown = has_lost(&answer);
        self.put_back(pass, book, grown);
        answer
    }
}

// Whether a sync has added an entry: the drive failed.
fn has_lost<T>(answer: &Result<T, BookFault>) -> bool
    ensures { result ≡ has_lost answer.now }
{
    matches!(answer, Err(BookFault::Disk { .. }))
}
