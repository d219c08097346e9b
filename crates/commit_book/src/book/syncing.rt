//! Records that wait in memory, and the sync that writes them.
ghost use Rattle.std.specs.Prelude.{◌≡◌, [], IfOk, IfErr};
ghost use Rattle.std.specs.Option.{option_map};
ghost use Rattle.kept_log.specs.Journal.{waiting_in, waits_from};
ghost use Rattle.commit_book.specs.Batches.{LeavesAllCells};
ghost use Rattle.commit_book.specs.IsBook.{AreBooks};
ghost use Rattle.commit_book.specs.Refusals.{IsRefusedBy, IsMemoryOrDisk, IsNoFault, LeavesRefused, call_refusal};
ghost use Rattle.commit_book.specs.Syncs.{Syncs, lost_sync};

use crate::book::Book;
use crate::faults::BookFault;
use disk_trait::LogDisk;
use index_layer::Index;
use plain_list::{Entry, Lost};
use std::alloc::Global;

impl<I: Index, D: LogDisk> Book<I, D> {
    /// Lets the records wait in memory from now on, until `sync` writes them. Then a change or a step of a split is
    /// answered before its record is in the file. The memory for 65,536 such records, 2 MiB, is taken here. If it runs
    /// out, `Err` returns the same book. If 65,536 records wait, the next change writes all. A book without a log stays
    /// the same.
    pub fn at_sync(self, alloc: Global) -> Result<Book<I, D>, Book<I, D>>
        requires { self.entries ≡ [] }
        ensures ok { IfOk result (λ b. b ≡ record self { log = option_map waits_from self.log }) }
        ensures back { IfErr result (λ b. b ≡ self) }
    {
        let Book {
            table,
            splits,
            history,
            journal,
            opening,
        } = self;
        match journal.at_sync(alloc) {
            Ok(journal) => Ok(Book {
                table,
                splits,
                history,
                journal,
                opening,
            }),
            Err(journal) => Err(Book {
                table,
                splits,
                history,
                journal,
                opening,
            }),
        }
    }

    /// Writes the records that wait by one append, and returns the place of the last call. From `Ok` on each crash leaves
    /// the records of all entries. If none waits, as in a book without a log, no device call is made and the book is
    /// unchanged. After `Disk` the history ends with a lost step of its own: the abandonment of a split with the number 0,
    /// which no split has.
    pub fn sync(&mut self) -> Result<u64, BookFault>
        ensures ok { IfOk result (Syncs self.old self.new) }
        ensures refused { IsRefusedBy IsMemoryOrDisk (call_refusal self.old.kept self.old.entries) result }
        ensures err { IfErr result (LeavesRefused D.drive lost_sync self.old self.new) }
        ensures quiet { waiting_in self.old.log ≡ [] → (self.new ≡ self.old)
            × IsRefusedBy IsNoFault (call_refusal self.old.kept self.old.entries) result }
        ensures any_moment { LeavesAllCells D.drive I.WIDTH [] self.old self.new }
        ensures book { AreBooks D.drive I.WIDTH self.old self.new }
    {
        self.keep();
        self.check_call()?;
        if self.journal.waiting() == 0 {
            return Ok(self.history.calls());
        }
        self.history.reserve(self.splits.len() + 1)?;
        if let Err(at) = self.journal.sync() {
            let lost = Lost::Abandon { number: 0 };
            self.history.push(Entry::Fail {
                cell: at.cell,
                lost,
            });
            self.keep();
            return Err(BookFault::Disk { cell: at.cell });
        }
        self.keep();
        Ok(self.history.calls())
    }
}
