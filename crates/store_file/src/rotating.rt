//! Continues a store over a second file.
ghost use Rattle.std.specs.Prelude.{◌≡◌, [], false, true, Some, None, is_some, IfOk, IfErr};
ghost use Rattle.plain_list.specs.History.{failed_cell};
ghost use Rattle.plain_list.specs.State.{ComesBySplits};
ghost use Rattle.plain_list.specs.World.{IsWorld};
ghost use Rattle.split_log.specs.LogView.{LogView};
ghost use Rattle.sessions.specs.Shared.{StartsAs};
ghost use Rattle.sessions.specs.Steps.{all_parts};
ghost use Rattle.store_file.specs.Ended.{end_cause};
ghost use Rattle.store_file.specs.Rotated.{world_left, AreLeft, AreAnew, BeginsAnew, BeginsFresh, BeginsLeft, IsClosedBook};
ghost use Rattle.store_file.specs.Rotated.{Finishes, FinishesNot, IsRotated, IsNotRotated, NotBegins, ComesBack, begin_cause, content_cause};

use crate::closing::{ClosedStore, close_store};
use crate::rotating_at_sync::EndCause;
use crate::start::OverFile;
use book_lock::Pass;
use commit_book::{Anew, Book, BookFault, Content, Replaced};
use disk_trait::LogDisk;
use index_layer::Index;
use log_compact::{CompactFault, CompactRefused, NotCleared, begin_log, clear_log, fresh_seen};
use recovery::Opened;
use sessions::{SharedBook, Start, Store};
use std::alloc::Global;
use std::sync::Wait;
use thiserror::Error;

/// A store that continues over a second file.
pub struct Rotated<I: Index, D: LogDisk, O: Start> {
    pub store: Store<I, D, O>,
    /// The pass that has all its parts.
    pub pass: Pass<SharedBook<I, D, O>>,
    /// The drive of the first file. Its log is empty, so it is ready for the next rotation.
    pub spare: D,
}

/// Why a store doesn't continue over a second file. Its log is unchanged, and nothing was written to the second file.
#[derive(Clone, Copy, Debug, PartialEq, Eq, Error)]
pub enum RotateCause {
    /// The append of record `cell` has failed. Records are counted from 0.
    #[error("the append of record {cell} has failed")]
    Closed { cell: u64 },
    /// The second file has `len` bytes, which is more than 17.
    #[error("the second file has {len} bytes")]
    InUse { len: u64 },
    /// A fresh log of the objects and leaves would have more records than a log may have.
    #[error("there are too many objects and leaves for a log")]
    TooLong,
    /// Memory ran out before the second file was written to.
    #[error("out of memory")]
    Memory,
}

/// What is left of a store that doesn't continue over a second file.
pub enum NotRotated<I: Index, D: LogDisk> {
    /// The same store and its pass, and the drive of the second file, to which nothing was written. The store goes on
    /// over its own file, and can be rotated later. If the cause is `Closed`, the store takes no more calls, as before:
    /// close it, and open both files with `open_either`.
    Kept {
        store: Store<I, D, OverFile>,
        pass: Pass<SharedBook<I, D, OverFile>>,
        spare: D,
        cause: RotateCause,
    },
    /// Both drives. The second one failed, and the store has ended. The second file may have all objects or none, also
    /// after a crash. Append nothing to the first log while the second has records. Otherwise the two logs differ, and an
    /// opening of both files refuses them. So drop both drives, and open both files with `open_either`.
    Unsure {
        disk: D,
        spare: D,
    },
    /// The book continues over the second file, but the first drive failed while its log was emptied. Append nothing to
    /// the second log while the first has records. Otherwise the two logs differ, and an opening of both files refuses
    /// them. Drop the book, and open both files with `open_either`.
    Uncleared {
        book: Book<I, D>,
        /// The drive of the first file.
        disk: D,
    },
    /// Memory ran out for the new lock. The book continues over the second file, and the first file has an empty log.
    /// `Store::new` begins a store with this book.
    Memory {
        book: Book<I, D>,
        spare: D,
    },
}

impl<I: Index, D: LogDisk> NotRotated<I, D> {
    /// Why the store doesn't continue over the second file: never `Unsynced`.
    pub fn cause(&self) -> EndCause
        ensures { result ≡ end_cause self.now }
    {
        match self {
            NotRotated::Kept { cause, .. } => EndCause::Refused { cause: *cause },
            NotRotated::Unsure { .. } => EndCause::Unsure,
            NotRotated::Uncleared { .. } => EndCause::Uncleared,
            NotRotated::Memory { .. } => EndCause::Memory,
        }
    }
}

// An index with new leaves, and the log that was begun with them.
struct Begun<I: Index, D: LogDisk> {
    index: I,
    opened: Opened<D>,
}

/// Why no log was begun on the second drive.
pub(crate) enum BeginCause {
    /// Nothing was written there.
    Refused { cause: RotateCause },
    /// The drive failed.
    Unsure,
}

/// The second drive, if no log was begun on it.
pub(crate) struct NotBegun<D: LogDisk> {
    pub(crate) disk: D,
    pub(crate) cause: BeginCause,
}

/// Continues a store over a second file, with an empty history. The second file is the one that is attached to `spare`,
/// and has at most 17 bytes. The objects and the leaves are written and synced there as a fresh log. Only then does the
/// first store end, and the first log is emptied, which makes it ready for the next rotation. Nothing is appended to the
/// second log before that.
pub fn rotate_store<I: Index, D: LogDisk, R: Wait>(
    rt: &R,
    alloc: Global,
    store: Store<I, D, OverFile>,
    pass: Pass<SharedBook<I, D, OverFile>>,
    spare: D,
) -> Result<Rotated<I, D, OverFile>, NotRotated<I, D>>
    requires lock { pass.lock ≡ store }
    requires off { pass.holds ≡ false }
    requires parts { pass.parts ≡ all_parts }
    ensures rotated { IfOk result (λ r. IsRotated D.drive I.WIDTH (AreLeft I.WIDTH pass.origin pass.seen) pass spare
        r.store r.pass r.spare) }
    ensures refused { IfErr result (λ e. IsNotRotated D.drive I.WIDTH (AreLeft I.WIDTH pass.origin pass.seen) pass spare e) }
{
    let mut pass = pass;
    match begin_as_is(rt, &store, &mut pass, spare) {
        Ok(opened) => finish(alloc, book_of(store, pass).rotate(alloc, opened)),
        Err(NotBegun { disk, cause }) => Err(not_rotated(store, pass, disk, cause)),
    }
}

/// The same with new leaves, which are those that the bucket size requires for the objects. So leaves that have become
/// empty don't pile up. The call builds a second index while the first one still exists. It takes longer than
/// `rotate_store`, and needs memory for that index.
pub fn rotate_anew<I: Index, D: LogDisk, R: Wait>(
    rt: &R,
    alloc: Global,
    store: Store<I, D, OverFile>,
    pass: Pass<SharedBook<I, D, OverFile>>,
    spare: D,
) -> Result<Rotated<I, D, OverFile>, NotRotated<I, D>>
    requires lock { pass.lock ≡ store }
    requires off { pass.holds ≡ false }
    requires parts { pass.parts ≡ all_parts }
    ensures rotated { IfOk result (λ r. IsRotated D.drive I.WIDTH (AreAnew I.WIDTH pass.origin pass.seen) pass spare
        r.store r.pass r.spare) }
    ensures refused { IfErr result (λ e. IsNotRotated D.drive I.WIDTH (AreAnew I.WIDTH pass.origin pass.seen) pass spare e) }
{
    let mut pass = pass;
    match begin_anew(rt, alloc, &store, &mut pass, spare) {
        Ok(Begun { index, opened }) => finish(
            alloc,
            book_of(store, pass).rotate_anew(alloc, index, opened),
        ),
        Err(NotBegun { disk, cause }) => Err(not_rotated(store, pass, disk, cause)),
    }
}

// Writes the objects and the leaves of a store as a fresh log on this drive.
fn begin_as_is<I: Index, D: LogDisk, R: Wait>(
    rt: &R,
    store: &Store<I, D, OverFile>,
    pass: &mut Pass<SharedBook<I, D, OverFile>>,
    spare: D,
) -> Result<Opened<D>, NotBegun<D>>
    requires lock { pass.old.lock ≡ store.now }
    requires off { pass.old.holds ≡ false }
    requires parts { pass.old.parts ≡ all_parts }
    ensures same { pass.new ≡ pass.old }
    ensures begun { IfOk result (λ o. BeginsLeft D.drive I.WIDTH pass.old spare o.seen o.start.value o.log) }
    ensures refused { IfErr result (λ e. NotBegins D.drive I.WIDTH (AreLeft I.WIDTH pass.old.origin pass.old.seen)
        (failed_cell pass.old.seen) (world_left pass.old.origin pass.old.seen) spare e.disk e.cause) }
{
    match store.content(rt, pass) {
        Ok(content) => begin_with::<I, D>(content, spare),
        Err(fault) => Err(refused(spare, content_cause(&fault))),
    }
}

// Creates new leaves, and writes them and the objects as a fresh log on this drive.
fn begin_anew<I: Index, D: LogDisk, R: Wait>(
    rt: &R,
    alloc: Global,
    store: &Store<I, D, OverFile>,
    pass: &mut Pass<SharedBook<I, D, OverFile>>,
    spare: D,
) -> Result<Begun<I, D>, NotBegun<D>>
    requires lock { pass.old.lock ≡ store.now }
    requires off { pass.old.holds ≡ false }
    requires parts { pass.old.parts ≡ all_parts }
    ensures same { pass.new ≡ pass.old }
    ensures begun { IfOk result (λ b. BeginsAnew D.drive I.WIDTH pass.old spare (I.leaves b.index)
        b.opened.seen b.opened.start.value b.opened.log) }
    ensures refused { IfErr result (λ e. NotBegins D.drive I.WIDTH (AreAnew I.WIDTH pass.old.origin pass.old.seen)
        (failed_cell pass.old.seen) (world_left pass.old.origin pass.old.seen) spare e.disk e.cause) }
{
    match store.anew(rt, alloc, pass) {
        Ok(Anew { index, content }) => match begin_with::<I, D>(content, spare) {
            Ok(opened) => Ok(Begun { index, opened }),
            Err(refused) => Err(refused),
        },
        Err(fault) => Err(refused(spare, content_cause(&fault))),
    }
}

/// Writes objects and leaves as a fresh log on this drive.
pub(crate) fn begin_with<I: Index, D: LogDisk>(
    content: Content,
    spare: D,
) -> Result<Opened<D>, NotBegun<D>>
    requires comes { ComesBySplits I.WIDTH content.leaves }
    requires world { IsWorld content.world }
    ensures begun { IfOk result (λ o. BeginsFresh D.drive I.WIDTH spare o.seen o.start.value o.log) }
    ensures seen { IfOk result (λ o. (o.seen.world ≡ content.world) × (o.seen.leaves ≡ content.leaves)) }
    ensures refused { IfErr result (λ e. NotBegins D.drive I.WIDTH
        (λ leaves. leaves ≡ content.leaves) None content.world spare e.disk e.cause) }
{
    let width = I::WIDTH;
    let Some(seen) = fresh_seen(content.world, content.leaves, width) else {
        return Err(refused(spare, RotateCause::TooLong));
    };
    match begin_log(seen, width, spare) {
        Ok(opened) => Ok(opened),
        Err(CompactRefused { disk, cause }) => Err(NotBegun {
            disk,
            cause: begin_cause(cause),
        }),
    }
}

/// The second drive, to which nothing was written.
pub(crate) fn refused<D: LogDisk>(disk: D, cause: RotateCause) -> NotBegun<D>
    ensures { result ≡ record { disk = disk; cause = BeginCause.Refused cause } }
{
    NotBegun {
        disk,
        cause: BeginCause::Refused { cause },
    }
}

// A store that isn't closed has content, unless memory runs out.
fn content_cause(fault: &BookFault) -> RotateCause
    ensures { result ≡ content_cause fault.now }
{
    match fault {
        BookFault::Closed { cell } => RotateCause::Closed { cell: *cell },
        _ => RotateCause::Memory,
    }
}

// A file of more than 17 bytes was left unchanged. A drive that failed may have written some of the log or all of it.
fn begin_cause(fault: CompactFault) -> BeginCause
    ensures { result ≡ begin_cause fault }
{
    match fault {
        CompactFault::InUse { len } => BeginCause::Refused {
            cause: RotateCause::InUse { len },
        },
        CompactFault::Disk => BeginCause::Unsure,
    }
}

// Returns the store, if nothing was written to the second file. Otherwise ends it.
fn not_rotated<I: Index, D: LogDisk>(
    store: Store<I, D, OverFile>,
    pass: Pass<SharedBook<I, D, OverFile>>,
    spare: D,
    cause: BeginCause,
) -> NotRotated<I, D>
    requires lock { pass.lock ≡ store }
    requires off { pass.holds ≡ false }
    requires parts { pass.parts ≡ all_parts }
    ensures { ComesBack D.drive I.WIDTH pass spare cause result }
{
    match cause {
        BeginCause::Refused { cause } => NotRotated::Kept {
            store,
            pass,
            spare,
            cause,
        },
        BeginCause::Unsure => {
            let ClosedStore { lost: _, disk } = close_store(store, pass);
            NotRotated::Unsure { disk, spare }
        }
    }
}

// Ends a store, and returns its book.
fn book_of<I: Index, D: LogDisk>(
    store: Store<I, D, OverFile>,
    pass: Pass<SharedBook<I, D, OverFile>>,
) -> Book<I, D>
    requires lock { pass.lock ≡ store }
    requires off { pass.holds ≡ false }
    requires parts { pass.parts ≡ all_parts }
    ensures { IsClosedBook D.drive I.WIDTH pass result }
{
    let book = store.close(pass);
    // Calling `closed` makes the invariant of a book known.
    let _lost = book.closed();
    book
}

// Empties the first log, and creates a store of the book that continues over the second log.
fn finish<I: Index, D: LogDisk>(
    alloc: Global,
    replaced: Replaced<I, D>,
) -> Result<Rotated<I, D, OverFile>, NotRotated<I, D>>
    requires none { replaced.book.entries ≡ [] }
    requires world { IsWorld replaced.book.opening.world }
    requires logged { is_some replaced.book.log ≡ true }
    requires starts { StartsAs D.drive ⊥ (λ start waits moves. (waits ≡ false) × (moves ≡ false)) replaced.book.log }
    requires log { is_some replaced.log ≡ true }
    requires good { (log : LogView D) → replaced.log ≡ Some log → log.failed ≡ None }
    ensures finished { IfOk result (λ r. Finishes D.drive replaced.book replaced.log r.store r.pass r.spare) }
    ensures refused { IfErr result (λ e. FinishesNot D.drive replaced.book replaced.log e) }
{
    let Replaced { book, log } = replaced;
    let log = log.unwrap();
    let cleared = clear_log(log);
    match cleared {
        Ok(spare) => match Store::new(alloc, book) {
            Ok((store, pass)) => Ok(Rotated { store, pass, spare }),
            Err(book) => Err(NotRotated::Memory { book, spare }),
        },
        Err(NotCleared { disk }) => Err(NotRotated::Uncleared { book, disk }),
    }
}
