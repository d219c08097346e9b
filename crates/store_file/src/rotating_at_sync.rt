//! Continues a store whose records wait for a sync over a second file.
ghost use Rattle.std.specs.Prelude.{◌≡◌, [], false, true, Some, None, is_some, IfOk, IfErr};
ghost use Rattle.plain_list.specs.History.{world_after};
ghost use Rattle.plain_list.specs.State.{state_after};
ghost use Rattle.plain_list.specs.World.{IsWorld};
ghost use Rattle.kept_log.specs.Journal.{moves_in};
ghost use Rattle.split_log.specs.LogView.{LogView};
ghost use Rattle.commit_book.specs.IsBook.{IsBook};
ghost use Rattle.commit_book.specs.Rotation.{HasContent};
ghost use Rattle.sessions.specs.Steps.{all_parts};
ghost use Rattle.store_file.specs.Ended.{EndsBy, EndsRotation, FinishesAtSync, ended_by};
ghost use Rattle.store_file.specs.Opened.{IsFirst};
ghost use Rattle.store_file.specs.Rotated.{AreLeft, BeginsFresh, IsRotated, NotBegins};
ghost use Rattle.store_file.specs.Waiting.{IsAtSync};

use crate::opening::disk_of;
use crate::rotating::{BeginCause, NotBegun, RotateCause, Rotated, begin_with, refused};
use crate::start::AtSync;
use crate::waiting::{SyncCause, sync_cause, waiting_store};
use book_lock::Pass;
use commit_book::{Book, Replaced};
use disk_trait::LogDisk;
use index_layer::Index;
use log_compact::{NotCleared, clear_log};
use recovery::Opened;
use sessions::{SharedBook, Store};
use std::alloc::Global;
use thiserror::Error;

/// Why a store doesn't continue over a second file.
#[derive(Clone, Copy, Debug, PartialEq, Eq, Error)]
pub enum EndCause {
    /// The first file may lack records that waited. Nothing was written to the second file.
    #[error("the first file may lack changes: {cause}")]
    Unsynced { cause: SyncCause },
    /// Nothing was written to the second file. Unless the cause is `Closed`, the first file has all changes.
    #[error("{cause}")]
    Refused { cause: RotateCause },
    /// The second drive failed. The first file has all changes, and the second has all objects or none.
    #[error("the second drive failed")]
    Unsure,
    /// The first drive failed while its log was emptied. Each file has all objects or none, and one of them has all.
    #[error("the first drive failed while its log was emptied")]
    Uncleared,
    /// Memory ran out for the new store. The second file has all objects, and the log of the first is empty.
    #[error("out of memory")]
    Memory,
}

/// What is left of a store whose records wait, if it doesn't continue over a second file. The store has ended. Append
/// nothing to either file: drop both drives, and open both files with `open_either_at_sync`.
#[derive(Drop)]
pub struct EndedRotation<D: Drop> {
    pub first: D,
    pub second: D,
    pub cause: EndCause,
}

/// Continues over a second file, as `rotate_store`. The store ends first, and its records that wait are written to the
/// first file. So from then on the first file has all changes, until the second has all objects. The records of the new
/// store wait again.
pub fn rotate_at_sync<I: Index, D: LogDisk>(
    alloc: Global,
    store: Store<I, D, AtSync>,
    pass: Pass<SharedBook<I, D, AtSync>>,
    spare: D,
) -> Result<Rotated<I, D, AtSync>, EndedRotation<D>>
    requires lock { pass.lock ≡ store }
    requires off { pass.holds ≡ false }
    requires parts { pass.parts ≡ all_parts }
    ensures rotated { IfOk result (λ r. IsAtSync (λ begun. IsRotated D.drive I.WIDTH
        (AreLeft I.WIDTH pass.origin pass.seen) pass spare r.store begun r.spare) r.pass) }
    ensures first { IfOk result (λ r. IsFirst r.store r.pass) }
    ensures ended { IfErr result (λ e. EndsRotation D.drive I.WIDTH (AreLeft I.WIDTH pass.origin pass.seen) pass spare
        e.first e.second e.cause) }
{
    let mut book = store.close(pass);
    if let Err(fault) = book.sync() {
        let cause = EndCause::Unsynced {
            cause: sync_cause(&fault),
        };
        return Err(EndedRotation {
            first: disk_of(book),
            second: spare,
            cause,
        });
    }
    match begin_here(&book, spare) {
        Ok(opened) => finish_at_sync(alloc, book.rotate(alloc, opened)),
        Err(NotBegun { disk, cause }) => Err(EndedRotation {
            first: disk_of(book),
            second: disk,
            cause: ended_by(cause),
        }),
    }
}

// Writes the objects and the leaves of a book as a fresh log on this drive.
fn begin_here<I: Index, D: LogDisk>(book: &Book<I, D>, spare: D) -> Result<Opened<D>, NotBegun<D>>
    ensures begun { IfOk result (λ o. BeginsFresh D.drive I.WIDTH spare o.seen o.start.value o.log) }
    ensures content { IfOk result (λ o. HasContent I.WIDTH book.now o.seen) }
    ensures refused { IfErr result (λ e. NotBegins D.drive I.WIDTH
        (λ leaves. leaves ≡ (state_after I.WIDTH book.now.opening book.now.entries).leaves) None
        (world_after book.now.opening.world book.now.entries) spare e.disk e.cause) }
{
    match book.content() {
        Ok(content) => begin_with::<I, D>(content, spare),
        Err(_) => Err(refused(spare, RotateCause::Memory)),
    }
}

// Empties the first log, and creates a store of the book that continues over the second log. Its records wait.
fn finish_at_sync<I: Index, D: LogDisk>(
    alloc: Global,
    replaced: Replaced<I, D>,
) -> Result<Rotated<I, D, AtSync>, EndedRotation<D>>
    requires none { replaced.book.entries ≡ [] }
    requires world { IsWorld replaced.book.opening.world }
    requires logged { is_some replaced.book.log ≡ true }
    requires fixed { moves_in replaced.book.log ≡ false }
    requires log { is_some replaced.log ≡ true }
    requires good { (log : LogView D) → replaced.log ≡ Some log → log.failed ≡ None }
    ensures finished { IfOk result (λ r. FinishesAtSync D.drive replaced.book replaced.log r.store r.pass r.spare) }
    ensures refused { IfErr result (λ e. EndsBy D.drive replaced.book replaced.log e.first e.second e.cause) }
    ensures book { IsBook D.drive I.WIDTH replaced.book }
{
    let Replaced { book, log } = replaced;
    // Calling `closed` makes the invariant of a book known.
    let _lost = book.closed();
    let cleared = clear_log(log.unwrap());
    let spare = match cleared {
        Ok(spare) => spare,
        Err(NotCleared { disk }) => {
            return Err(EndedRotation {
                first: disk,
                second: disk_of(book),
                cause: EndCause::Uncleared,
            });
        }
    };
    match waiting_store(alloc, book) {
        Ok((store, pass)) => Ok(Rotated { store, pass, spare }),
        Err(second) => Err(EndedRotation {
            first: spare,
            second,
            cause: EndCause::Memory,
        }),
    }
}

// The cause if no log was begun on the second drive.
fn ended_by(cause: BeginCause) -> EndCause
    ensures { result ≡ ended_by cause }
{
    match cause {
        BeginCause::Refused { cause } => EndCause::Refused { cause },
        BeginCause::Unsure => EndCause::Unsure,
    }
}
