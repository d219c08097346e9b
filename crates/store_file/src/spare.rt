//! A store with the drive of a second file, over which it may continue while its history goes on.
ghost use Rattle.std.specs.Prelude.{◌≡◌, Bool, [], false, true, None, IfOk, IfErr, IfSome, ⊤};
ghost use Rattle.sessions.specs.Steps.{all_parts};
ghost use Rattle.store_file.specs.Closed.{ClosesStore};
ghost use Rattle.store_file.specs.Opened.{first_pass};
ghost use Rattle.store_file.specs.Rotating.{ClosesMoved, rotating_origin};
ghost use Rattle.store_file.specs.Waiting.{EndsUnsynced};

use crate::opening::disk_of;
use crate::start::Rotating;
use crate::waiting::{SyncCause, sync_cause};
use book_lock::Pass;
use disk_trait::LogDisk;
use index_layer::Index;
use sessions::{SharedBook, Start, Store};
use std::alloc::Global;
use std::sync::Wait;

/// What is left of a store if there was no memory to keep a second drive beside it. Both files are still attached, and
/// nothing was written to either.
#[derive(Drop)]
pub struct NotPaired<D: Drop> {
    pub disk: D,
    pub spare: D,
}

/// What is left of a store after its close, if it kept the drive of a second file.
#[derive(Drop)]
pub struct ClosedPair<D: Drop> {
    /// Why the store's file may lack records, if it may. It takes no more records until it is opened again.
    pub lost: Option<SyncCause>,
    pub disk: D,
    /// The drive of the second file. It is `None` if a call that failed has taken it.
    pub spare: Option<D>,
}

/// Lets a store continue over a second file from now on, while its history goes on. It takes a store that nobody has
/// called since it was opened or rotated, and returns the same store with the second drive, and its first pass.
///
/// If memory runs out, the store has ended. Both drives come back: drop them, and open the files again.
pub fn let_rotate<I: Index, D: LogDisk, O: Start, R: Wait>(
    rt: &R,
    alloc: Global,
    store: Store<I, D, O>,
    pass: Pass<SharedBook<I, D, O>>,
    spare: D,
) -> Result<
    (
        Store<I, D, Rotating<O>>,
        Pass<SharedBook<I, D, Rotating<O>>>,
    ),
    NotPaired<D>,
>
    requires logged { O.unlogged → ⊥ }
    requires still { (start : D) (waits moves : Bool) → O.is (D.drive start) waits moves → moves ≡ false }
    requires lock { pass.lock ≡ store }
    requires off { pass.holds ≡ false }
    requires parts { pass.parts ≡ all_parts }
    requires new { pass.seen ≡ [] }
    ensures rotates { IfOk result (λ r. r.1 ≡ first_pass r.0 (rotating_origin pass.origin)) }
    ensures back { IfErr result (λ e. ClosesStore D.drive I.WIDTH (λ start. ⊤) pass e.disk) }
    ensures spare { IfErr result (λ e. e.spare ≡ spare) }
{
    let book = store.close(pass);
    // Calling `closed` makes the invariant of a book known.
    let _lost = book.closed();
    match Store::with_spare(rt, alloc, book.may_move(), spare) {
        Ok(both) => Ok(both),
        Err((book, spare)) => Err(NotPaired {
            disk: disk_of(book),
            spare,
        }),
    }
}

/// Ends a store that kept a second drive. It writes the records that wait by one append, if any do, and then ends the
/// store. If nothing is lost, each crash from then on leaves all changes that were answered, in the file of `disk`. The
/// files stay attached to the drives, so drop both before others open the files.
pub fn close_rotating<I: Index, D: LogDisk, O: Start>(
    store: Store<I, D, Rotating<O>>,
    pass: Pass<SharedBook<I, D, Rotating<O>>>,
) -> ClosedPair<D>
    requires lock { pass.lock ≡ store }
    requires off { pass.holds ≡ false }
    requires parts { pass.parts ≡ all_parts }
    ensures closes { result.lost ≡ None → ClosesMoved D.drive I.WIDTH pass result.disk }
    ensures lost { IfSome result.lost (EndsUnsynced D.drive I.WIDTH true pass result.disk) }
{
    let (mut book, spare) = store.close_with_spare(pass);
    match book.sync() {
        Ok(_) => ClosedPair {
            lost: None,
            disk: disk_of(book),
            spare,
        },
        Err(fault) => ClosedPair {
            lost: Some(sync_cause(&fault)),
            disk: disk_of(book),
            spare,
        },
    }
}
