//! Opens a store over a file.
ghost use Rattle.std.specs.Prelude.{◌≡◌, true, false, [], Some, None, is_some, IfOk, IfErr};
ghost use Rattle.plain_list.specs.World.{IsWorld};
ghost use Rattle.kept_log.specs.Journal.{disk_in};
ghost use Rattle.commit_book.specs.OpenedLog.{IsOpenedLog};
ghost use Rattle.sessions.specs.Shared.{StartsAs, origin_of};
ghost use Rattle.store_file.specs.Files.{ReadiesLog};
ghost use Rattle.store_file.specs.Opened.{OpensStore, BeginsOver, IsFirst, first_pass};
ghost use Rattle.store_file.specs.Refused.{RefusesStoreExactly, is_bucket};
ghost use Rattle.store_file.specs.Waiting.{IsAtSync, Writes};

use crate::closing::parts_of;
use crate::faults::{NotOpened, OpenCause};
use crate::files::open_file;
use crate::objects::latest_of;
use crate::start::{AtSync, OverFile};
use crate::waiting::written_at;
use book_lock::Pass;
use commit_book::Book;
use disk_trait::LogDisk;
use index_layer::Index;
use recovery::Opened;
use sessions::{SharedBook, Start, Store};
use std::alloc::Global;

/// A store that was opened over a file, and the pass that has all its parts.
pub struct OpenedStore<I: Index, D: LogDisk, O: Start> {
    pub store: Store<I, D, O>,
    pub pass: Pass<SharedBook<I, D, O>>,
    /// The number of objects that the store begins with.
    pub points: u64,
    /// The latest moment of any of these objects, or `None` if there are none.
    pub latest: Option<u64>,
    /// The number of records in the log.
    pub records: u64,
}

/// The least bucket size, in objects. A leaf with more objects than the bucket size is to be split.
pub const LEAST_BUCKET: u32 = 4;

/// The greatest bucket size, in objects.
pub const MOST_BUCKET: u32 = 4096;

/// A store of a book, and the pass that has all its parts.
pub(crate) type Shared<I, D, O> = (Store<I, D, O>, Pass<SharedBook<I, D, O>>);

/// Opens a store over the log in a file. The bucket size is from `LEAST_BUCKET` to `MOST_BUCKET` objects. The file is
/// created if it doesn't exist, and its log if the file has at most 17 bytes. A crash while a log is created may leave
/// such a file. A longer file that is no log stays unchanged.
pub fn open_store<I: Index, D: LogDisk>(
    alloc: Global,
    disk: D,
    file: &str,
    bucket: u32,
) -> Result<OpenedStore<I, D, OverFile>, NotOpened<D>>
    ensures opened { IfOk result (λ o. OpensStore D.drive I.WIDTH bucket file.now (D.drive disk)
        o.store o.pass o.points o.latest o.records) }
    ensures first { IfOk result (λ o. IsFirst o.store o.pass) }
    ensures refused { RefusesStoreExactly D.drive I.WIDTH bucket file.now disk result }
{
    open_over::<I, D, OverFile>(alloc, disk, file, bucket)
}

/// The same, with a fact about the drive that holds when its log is opened. The contract of `close_over` has that fact
/// again.
pub fn open_over<I: Index, D: LogDisk, O: Start>(
    alloc: Global,
    disk: D,
    file: &str,
    bucket: u32,
) -> Result<OpenedStore<I, D, O>, NotOpened<D>>
    requires start { (start : D) → ReadiesLog I.WIDTH file.now (D.drive disk) (D.drive start) → O.is (D.drive start) false false }
    ensures opened { IfOk result (λ o. OpensStore D.drive I.WIDTH bucket file.now (D.drive disk)
        o.store o.pass o.points o.latest o.records) }
    ensures first { IfOk result (λ o. IsFirst o.store o.pass) }
    ensures refused { RefusesStoreExactly D.drive I.WIDTH bucket file.now disk result }
{
    open_as::<I, D, O>(alloc, disk, file, bucket, false)
}

/// The same store, but its records may wait in memory until `Store::sync` or the close writes them. So a change is answered
/// before its record is in the file. If 65,536 records wait, the next change writes all. End it with `close_at_sync`.
pub fn open_at_sync<I: Index, D: LogDisk>(
    alloc: Global,
    disk: D,
    file: &str,
    bucket: u32,
) -> Result<OpenedStore<I, D, AtSync>, NotOpened<D>>
    ensures opened { IfOk result (λ o. IsAtSync (λ first. OpensStore D.drive I.WIDTH bucket file.now (D.drive disk)
        o.store first o.points o.latest o.records) o.pass) }
    ensures first { IfOk result (λ o. IsFirst o.store o.pass) }
    ensures refused { RefusesStoreExactly D.drive I.WIDTH bucket file.now disk result }
{
    open_as::<I, D, AtSync>(alloc, disk, file, bucket, true)
}

// Opens a store that writes each record at once, or whose records wait for a sync.
fn open_as<I: Index, D: LogDisk, O: Start>(
    alloc: Global,
    disk: D,
    file: &str,
    bucket: u32,
    at_sync: bool,
) -> Result<OpenedStore<I, D, O>, NotOpened<D>>
    requires start { (start : D) → ReadiesLog I.WIDTH file.now (D.drive disk) (D.drive start) → O.is (D.drive start) at_sync false }
    ensures opened { IfOk result (λ o. Writes at_sync (λ first. OpensStore D.drive I.WIDTH bucket file.now (D.drive disk)
        o.store first o.points o.latest o.records) o.pass) }
    ensures first { IfOk result (λ o. IsFirst o.store o.pass) }
    ensures refused { RefusesStoreExactly D.drive I.WIDTH bucket file.now disk result }
{
    if !is_bucket(bucket) {
        return Err(NotOpened {
            disk,
            cause: OpenCause::Bucket,
        });
    }
    match open_file(alloc, disk, file, I::WIDTH) {
        Ok(opened) => store_of(alloc, opened, bucket, at_sync),
        Err(refused) => Err(refused),
    }
}

// Whether a bucket may have this size.
pub(crate) fn is_bucket(bucket: u32) -> bool
    ensures { result ≡ is_bucket bucket }
{
    LEAST_BUCKET <= bucket && bucket <= MOST_BUCKET
}

// Begins a store over a log that was opened.
pub(crate) fn store_of<I: Index, D: LogDisk, O: Start>(
    alloc: Global,
    opened: Opened<D>,
    bucket: u32,
    at_sync: bool,
) -> Result<OpenedStore<I, D, O>, NotOpened<D>>
    requires opened { IsOpenedLog D.drive I.WIDTH opened.seen opened.start.value opened.log }
    requires start { O.is (D.drive opened.start.value) at_sync false }
    ensures begins { IfOk result (λ o. Writes at_sync (λ first. BeginsOver D.drive bucket opened.seen opened.start.value
        o.store first o.points o.latest o.records) o.pass) }
    ensures back { IfErr result (λ e. (e.disk ≡ opened.log.disk) × (e.cause ≡ OpenCause.Memory)) }
{
    let records = opened.seen.cells;
    let members = opened.seen.world.as_slice();
    let (points, latest) = (members.len() as u64, latest_of(members));
    let book = match Book::opened(alloc, opened, bucket) {
        Ok(book) => book,
        Err(back) => return Err(out_of_memory(back.log.give_back())),
    };
    let book = match written_at(alloc, book.without_list(), at_sync) {
        Ok(book) => book,
        Err(disk) => return Err(out_of_memory(disk)),
    };
    match shared(alloc, book) {
        Ok((store, pass)) => Ok(OpenedStore {
            store,
            pass,
            points,
            latest,
            records,
        }),
        Err(disk) => Err(out_of_memory(disk)),
    }
}

// Begins a store of a book that has a log. If memory runs out, it returns the drive.
pub(crate) fn shared<I: Index, D: LogDisk, O: Start>(
    alloc: Global,
    book: Book<I, D>,
) -> Result<Shared<I, D, O>, D>
    requires entries { book.entries ≡ [] }
    requires world { IsWorld book.opening.world }
    requires start { StartsAs D.drive O.unlogged O.is book.log }
    requires log { is_some book.log ≡ true }
    ensures store { IfOk result (λ r. r.1 ≡ first_pass r.0 (origin_of D.drive book)) }
    ensures back { IfErr result (λ disk. disk_in book.log ≡ Some disk) }
{
    match Store::new(alloc, book) {
        Ok(both) => Ok(both),
        Err(book) => Err(disk_of(book)),
    }
}

/// The drive of a book that has a log.
pub(crate) fn disk_of<I: Index, D: LogDisk>(book: Book<I, D>) -> D
    requires { is_some book.log ≡ true }
    ensures { disk_in book.log ≡ Some result }
{
    parts_of(book, None).disk
}

fn out_of_memory<D: Drop>(disk: D) -> NotOpened<D>
    ensures { result ≡ record { disk = disk; cause = OpenCause.Memory } }
{
    NotOpened {
        disk,
        cause: OpenCause::Memory,
    }
}
