//! Closes a store over a file.
ghost use Rattle.std.specs.Prelude.{◌≡◌, Bool, true, false, Some, is_some, ⊤};
ghost use Rattle.kept_log.specs.Journal.{disk_in, failed_cell};
ghost use Rattle.sessions.specs.Steps.{all_parts};
ghost use Rattle.store_file.specs.Closed.{ClosesStore};

use crate::start::OverFile;
use book_lock::Pass;
use commit_book::{Book, BookParts};
use disk_trait::LogDisk;
use index_layer::Index;
use sessions::{SharedBook, Start, Store};

/// What is left of a store over a file after its close.
#[derive(Drop)]
pub struct ClosedStore<D: Drop> {
    /// The record whose append failed, if one failed, counted from 0. The log may have this record. It takes no more
    /// records until it is opened again.
    pub lost: Option<u64>,
    pub disk: D,
}

/// Ends a store over a file. Each change that a call reported as done is in its log. The file stays attached to the
/// drive, so drop the drive before another one opens the file.
pub fn close_store<I: Index, D: LogDisk>(
    store: Store<I, D, OverFile>,
    pass: Pass<SharedBook<I, D, OverFile>>,
) -> ClosedStore<D>
    requires lock { pass.lock ≡ store }
    requires off { pass.holds ≡ false }
    requires parts { pass.parts ≡ all_parts }
    ensures closes { ClosesStore D.drive I.WIDTH (λ start. ⊤) pass result.disk }
    ensures lost { result.lost ≡ failed_cell pass.seen }
{
    close_over::<I, D, OverFile>(store, pass)
}

/// The same for a store with a fact about its drive (`Start`), if no book without a log has that fact, and none whose
/// records wait for a sync or whose log a fresh one may replace. The contract says that the fact held of the drive when
/// its log was opened.
pub fn close_over<I: Index, D: LogDisk, O: Start>(
    store: Store<I, D, O>,
    pass: Pass<SharedBook<I, D, O>>,
) -> ClosedStore<D>
    requires logged { O.unlogged → ⊥ }
    requires once { (start : D) (waits moves : Bool) → O.is (D.drive start) waits moves → (waits ≡ false) × (moves ≡ false) }
    requires lock { pass.lock ≡ store }
    requires off { pass.holds ≡ false }
    requires parts { pass.parts ≡ all_parts }
    ensures closes { ClosesStore D.drive I.WIDTH (λ start. O.is start false false) pass result.disk }
    ensures lost { result.lost ≡ failed_cell pass.seen }
{
    let book = store.close(pass);
    let lost = book.closed();
    parts_of(book, lost)
}

/// What is left of a book that has a log.
pub(crate) fn parts_of<I: Index, D: LogDisk>(book: Book<I, D>, lost: Option<u64>) -> ClosedStore<D>
    requires { is_some book.log ≡ true }
    ensures lost { result.lost ≡ lost }
    ensures disk { disk_in book.log ≡ Some result.disk }
{
    let BookParts {
        index: _,
        disk,
        entries: _,
    } = book.into_parts();
    ClosedStore {
        lost,
        disk: disk.unwrap(),
    }
}
