//! A store over a file whose records may wait in memory for a sync.
ghost use Rattle.std.specs.Prelude.{◌≡◌, [], false, true, None, Some, is_some, IfOk, IfErr, ⊤};
ghost use Rattle.plain_list.specs.World.{IsWorld};
ghost use Rattle.kept_log.specs.Journal.{disk_in, failed_cell, moves_in};
ghost use Rattle.sessions.specs.Shared.{origin_of};
ghost use Rattle.sessions.specs.Steps.{all_parts};
ghost use Rattle.store_file.specs.Closed.{ClosesStore};
ghost use Rattle.store_file.specs.Opened.{first_pass};
ghost use Rattle.store_file.specs.Waiting.{ClosesUnsynced, book_at, sync_cause, waiting_origin};

use crate::opening::{Shared, disk_of, shared};
use crate::start::{AtSync, OverFile};
use book_lock::Pass;
use commit_book::{Book, BookFault};
use disk_trait::LogDisk;
use index_layer::Index;
use sessions::{SharedBook, Store};
use std::alloc::Global;
use thiserror::Error;

/// Why the file of a store may lack records after its close.
#[derive(Clone, Copy, Debug, PartialEq, Eq, Error)]
pub enum SyncCause {
    /// The append of record `cell` had failed before, of a change, of a split or of a sync. Records are counted from 0.
    #[error("the append of record {cell} has failed")]
    Closed { cell: u64 },
    /// The drive failed while the close wrote the records that waited. Record `cell` is the first of these.
    #[error("the drive failed at record {cell}")]
    Disk { cell: u64 },
    /// The history has as many entries as fit. If records waited, they were not written.
    #[error("the history is full")]
    HistoryFull,
    /// Memory ran out, so the records that waited were not written.
    #[error("out of memory")]
    Memory,
}

/// What is left of a store over a file after its close, if the file may lack records. The next opening finds a prefix of
/// the history, with at least all that was written before.
#[derive(Drop)]
pub struct Unsynced<D: Drop> {
    pub disk: D,
    pub cause: SyncCause,
}

/// Lets the records of a store wait in memory from now on, until a sync writes them. It takes a store that nobody has
/// called since it was opened or rotated, and returns the same store with such records, and its first pass. The memory
/// for 65,536 records, 2 MiB, is taken here.
///
/// If memory runs out, the store has ended. The drive comes back with the file still attached, to which nothing was
/// written. Drop it, and open the file again.
pub fn let_wait<I: Index, D: LogDisk>(
    alloc: Global,
    store: Store<I, D, OverFile>,
    pass: Pass<SharedBook<I, D, OverFile>>,
) -> Result<(Store<I, D, AtSync>, Pass<SharedBook<I, D, AtSync>>), D>
    requires lock { pass.lock ≡ store }
    requires off { pass.holds ≡ false }
    requires parts { pass.parts ≡ all_parts }
    requires new { pass.seen ≡ [] }
    ensures waits { IfOk result (λ r. r.1 ≡ first_pass r.0 (waiting_origin pass.origin)) }
    ensures back { IfErr result (λ disk. ClosesStore D.drive I.WIDTH (λ start. ⊤) pass disk) }
{
    let book = store.close(pass);
    // Calling `closed` makes the invariant of a book known.
    let _lost = book.closed();
    waiting_store(alloc, book)
}

/// Begins a store of a book that has a log, whose records wait from now on. If memory runs out, it returns the drive.
pub(crate) fn waiting_store<I: Index, D: LogDisk>(
    alloc: Global,
    book: Book<I, D>,
) -> Result<Shared<I, D, AtSync>, D>
    requires none { book.entries ≡ [] }
    requires world { IsWorld book.opening.world }
    requires logged { is_some book.log ≡ true }
    requires fixed { moves_in book.log ≡ false }
    ensures store { IfOk result (λ r. r.1 ≡ first_pass r.0 (waiting_origin (origin_of D.drive book))) }
    ensures back { IfErr result (λ disk. disk_in book.log ≡ Some disk) }
{
    match written_at(alloc, book, true) {
        Ok(book) => shared(alloc, book),
        Err(disk) => Err(disk),
    }
}

/// A book that writes each record at once, or whose records wait for a sync. If memory runs out, it returns the drive.
pub(crate) fn written_at<I: Index, D: LogDisk>(
    alloc: Global,
    book: Book<I, D>,
    at_sync: bool,
) -> Result<Book<I, D>, D>
    requires none { book.entries ≡ [] }
    requires logged { is_some book.log ≡ true }
    ensures book { IfOk result (λ b. b ≡ book_at at_sync book) }
    ensures back { IfErr result (λ disk. disk_in book.log ≡ Some disk) }
{
    if !at_sync {
        return Ok(book);
    }
    match book.at_sync(alloc) {
        Ok(book) => Ok(book),
        Err(book) => Err(disk_of(book)),
    }
}

/// Ends a store whose records may wait for a sync: writes those that wait by one append, and then ends the store. From
/// `Ok` on each crash leaves all changes that were answered. The file stays attached to the drive, so drop the drive
/// before another one opens the file.
pub fn close_at_sync<I: Index, D: LogDisk>(
    store: Store<I, D, AtSync>,
    pass: Pass<SharedBook<I, D, AtSync>>,
) -> Result<D, Unsynced<D>>
    requires lock { pass.lock ≡ store }
    requires off { pass.holds ≡ false }
    requires parts { pass.parts ≡ all_parts }
    ensures closes { IfOk result (λ disk. ClosesStore D.drive I.WIDTH (λ start. ⊤) pass disk) }
    ensures good { IfOk result (λ _. failed_cell pass.seen ≡ None) }
    ensures unsynced { IfErr result (λ e. ClosesUnsynced D.drive I.WIDTH pass e.disk e.cause) }
{
    let mut book = store.close(pass);
    match book.sync() {
        Ok(_) => Ok(disk_of(book)),
        Err(fault) => Err(Unsynced {
            disk: disk_of(book),
            cause: sync_cause(&fault),
        }),
    }
}

/// The cause that is reported if a book wasn't synced. A sync has no other faults.
pub(crate) fn sync_cause(fault: &BookFault) -> SyncCause
    ensures { result ≡ sync_cause fault.now }
{
    match fault {
        BookFault::Closed { cell } => SyncCause::Closed { cell: *cell },
        BookFault::Disk { cell } => SyncCause::Disk { cell: *cell },
        BookFault::HistoryFull => SyncCause::HistoryFull,
        _ => SyncCause::Memory,
    }
}
