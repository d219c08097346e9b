//! A store over a file whose changes wait for a sync.
ghost use Rattle.std.specs.Prelude.{◌≡◌, None, IfOk, IfErr, ⊤};
ghost use Rattle.plain_list.specs.History.{failed_cell};
ghost use Rattle.store_file.specs.Closed.{ClosesStore};
ghost use Rattle.store_file.specs.Either.{OpensEither, RefusesEitherExactly};
ghost use Rattle.store_file.specs.Ended.{EndsRotation};
ghost use Rattle.store_file.specs.Opened.{OpensStore};
ghost use Rattle.store_file.specs.Refused.{RefusesStoreExactly};
ghost use Rattle.store_file.specs.Rotated.{AreLeft, IsRotated};
ghost use Rattle.store_file.specs.Waiting.{ClosesUnsynced, IsAtSync};
ghost use Rattle.pisrakun.specs.Fresh.{IsNewIn};

use crate::file_store::{Found, OpenedPair, RotatedStore, opened_file, opened_pair, rotated_store};
use crate::object_store::ObjectStore;
use disk_trait::LogDisk;
use index_layer::Index;
use std::alloc::Global;
use store_file::{
    AtSync, EndedRotation, NotEither, NotOpened, Unsynced, close_at_sync, open_at_sync,
    open_either_at_sync, rotate_at_sync,
};

/// A store whose changes are in memory first, and in a log in a file after `sync`. An answered change may be lost in a
/// crash until then. A crash leaves a prefix of the history, which has at least all that came before the last `sync`
/// that succeeded. `close` writes what waits. At 65,536 waiting records the next change writes all, as a sync does. The
/// memory for these, 2 MiB, is taken at the opening.
///
/// Its file is that of a `FileStore`, so open it as either.
pub type BufferedStore<I, D> = ObjectStore<I, D, AtSync>;

impl<I: Index, D: LogDisk> ObjectStore<I, D, AtSync> {
    /// Opens a store over the log in a file, as `FileStore::open_file`.
    pub fn open_file(
        alloc: Global,
        disk: D,
        file: &str,
        bucket: u32,
    ) -> Result<(ObjectStore<I, D, AtSync>, Found), NotOpened<D>>
        ensures opened { IfOk result (λ r. IsAtSync (λ first. OpensStore D.drive I.WIDTH bucket file.now (D.drive disk)
            r.0.pass.lock first r.1.objects r.1.latest r.1.records) r.0.pass) }
        ensures new { IfOk result (λ r. IsNewIn 0 r.0) }
        ensures refused { RefusesStoreExactly D.drive I.WIDTH bucket file.now disk result }
    {
        match open_at_sync::<I, D>(alloc, disk, file, bucket) {
            Ok(opened) => Ok(opened_file(alloc, opened)),
            Err(refused) => Err(refused),
        }
    }

    /// Opens a store over the log in one of two files, as `FileStore::open_pair`.
    pub fn open_pair(
        alloc: Global,
        first: D,
        first_file: &str,
        second: D,
        second_file: &str,
        bucket: u32,
    ) -> Result<OpenedPair<I, D, AtSync>, NotEither<D>>
        ensures opened { IfOk result (λ o. IsAtSync (λ begun. OpensEither D.drive I.WIDTH bucket first_file.now
            second_file.now first second o.which o.store.pass.lock begun o.found.objects o.found.latest o.found.records
            o.spare) o.store.pass) }
        ensures new { IfOk result (λ o. IsNewIn 0 o.store) }
        ensures refused { RefusesEitherExactly D.drive I.WIDTH bucket first_file.now second_file.now first second result }
    {
        match open_either_at_sync::<I, D>(alloc, first, first_file, second, second_file, bucket) {
            Ok(opened) => Ok(opened_pair(alloc, opened)),
            Err(refused) => Err(refused),
        }
    }

    /// Writes the records that wait by one append, and ends the store. After `Ok` the file has all changes. The drive
    /// still locks the file: drop it before you open the file again.
    pub fn close(self) -> Result<D, Unsynced<D>>
        ensures closes { IfOk result (λ disk. ClosesStore D.drive I.WIDTH (λ start. ⊤) self.pass disk) }
        ensures good { IfOk result (λ _. failed_cell self.pass.seen ≡ None) }
        ensures unsynced { IfErr result (λ e. ClosesUnsynced D.drive I.WIDTH self.pass e.disk e.cause) }
    {
        let (store, pass) = self.into_parts();
        close_at_sync(store, pass)
    }

    /// Continues over a second file, as `FileStore::rotate`. The store ends first, and what waits is written to the first
    /// file. So after a refusal both drives come back and no store: drop both drives, and open both files with
    /// `open_pair`. The changes of the new store wait again.
    pub fn rotate(self, spare: D) -> Result<RotatedStore<I, D, AtSync>, EndedRotation<D>>
        ensures rotated { IfOk result (λ r. IsAtSync (λ begun. IsRotated D.drive I.WIDTH
            (AreLeft I.WIDTH self.pass.origin self.pass.seen) self.pass spare r.store.pass.lock begun r.spare) r.store.pass) }
        ensures new { IfOk result (λ r. IsNewIn self.session r.store) }
        ensures ended { IfErr result (λ e. EndsRotation D.drive I.WIDTH (AreLeft I.WIDTH self.pass.origin self.pass.seen)
            self.pass spare e.first e.second e.cause) }
    {
        let (alloc, session) = (self.alloc, self.session);
        let (store, pass) = self.into_parts();
        match rotate_at_sync(alloc, store, pass, spare) {
            Ok(rotated) => Ok(rotated_store(alloc, session, rotated)),
            Err(ended) => Err(ended),
        }
    }
}
