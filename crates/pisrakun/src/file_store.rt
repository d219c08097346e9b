//! A store over a file as one value, or over two files alternately.
ghost use Rattle.std.specs.Prelude.{◌≡◌, [], false, IfOk, IfErr, ⊤};
ghost use Rattle.plain_list.specs.History.{failed_cell};
ghost use Rattle.sessions.specs.Shared.{HasWorld, StartsAs, origin_of};
ghost use Rattle.store_file.specs.Closed.{ClosesStore};
ghost use Rattle.store_file.specs.Either.{OpensEither, RefusesEitherExactly};
ghost use Rattle.store_file.specs.Opened.{OpensStore, IsFirst, first_pass};
ghost use Rattle.store_file.specs.Refused.{RefusesStoreExactly};
ghost use Rattle.store_file.specs.Rotated.{AreLeft, AreAnew, IsRotated};
ghost use Rattle.pisrakun.specs.Fresh.{IsNewIn, new_in};
ghost use Rattle.pisrakun.specs.Rotated.{ComesApart, IsAsOne, IsFirstIfKept, KeepsOrEnds, cause_left, end_cause};

use crate::label::Label;
use crate::object_store::ObjectStore;
use commit_book::Book;
use disk_trait::LogDisk;
use index_layer::Index;
use sessions::{Start, Store};
use std::alloc::Global;
use std::sync::Wait;
use store_file::{
    ClosedStore, EndCause, NotEither, NotOpened, NotRotated, OpenedEither, OpenedStore, OverFile,
    RotateCause, Rotated, Which, close_store, open_either, open_store, rotate_anew, rotate_store,
};

/// A store whose changes are in a log in a file. Each change is written and synced before its call returns.
pub type FileStore<I, D> = ObjectStore<I, D, OverFile>;

/// What an opening found in the log.
#[derive(Clone, Copy, Debug, PartialEq, Eq)]
pub struct Found {
    /// How many objects there are.
    pub objects: u64,
    /// The latest moment of any of them.
    pub latest: Option<u64>,
    /// How many records the log has.
    pub records: u64,
}

/// A store over one of two files.
pub struct OpenedPair<I: Index, D: LogDisk, O: Start> {
    pub store: ObjectStore<I, D, O>,
    /// The drive of the other file, which has an empty log: `rotate` takes it.
    pub spare: D,
    /// The file that the store continues over.
    pub which: Which,
    pub found: Found,
}

/// A store that continues over a second file.
pub struct RotatedStore<I: Index, D: LogDisk, O: Start> {
    pub store: ObjectStore<I, D, O>,
    /// The drive of the first file, which has an empty log: the next rotation takes it.
    pub spare: D,
}

/// What is left of a store that doesn't continue over a second file.
pub enum NotRotatedStore<I: Index, D: LogDisk> {
    /// The same store, which goes on over its own file, and the drive of the second file, to which nothing was written.
    /// You may rotate it later. If the cause is `Closed`, it takes no more calls, as before: close it, drop both drives,
    /// and open both files with `open_pair`.
    Kept {
        store: ObjectStore<I, D, OverFile>,
        spare: D,
        cause: RotateCause,
    },
    /// The second drive failed, and the store has ended. The second file may have all objects or none. Append nothing to
    /// either file: drop both drives, and open both files with `open_pair`.
    Unsure {
        disk: D,
        spare: D,
    },
    /// The book continues over the second file, but the first drive failed while its log was emptied. Append nothing to
    /// either file: drop the book and the drive, and open both files with `open_pair`.
    Uncleared {
        book: Book<I, D>,
        /// The drive of the first file.
        disk: D,
    },
    /// Memory ran out for the new lock. The book continues over the second file, and the first file has an empty log.
    /// `FileStore::resume` begins a store with this book.
    Memory {
        book: Book<I, D>,
        spare: D,
    },
}

/// A store that goes on over its own file, the drive of the second file, and why it wasn't rotated.
pub type KeptStore<I, D> = (FileStore<I, D>, D, RotateCause);

/// What is left of a store that has ended in a rotation, as in `NotRotatedStore`.
#[derive(Drop)]
pub enum EndedStore<I: Index, D: LogDisk> {
    Unsure { disk: D, spare: D },
    Uncleared { book: Book<I, D>, disk: D },
    Memory { book: Book<I, D>, spare: D },
}

impl<I: Index, D: LogDisk> EndedStore<I, D> {
    /// Why the store has ended. Drop what is left, and open both files with `open_pair`.
    pub fn cause(&self) -> EndCause
        ensures { result ≡ cause_left self.now }
    {
        match self {
            EndedStore::Unsure { .. } => EndCause::Unsure,
            EndedStore::Uncleared { .. } => EndCause::Uncleared,
            EndedStore::Memory { .. } => EndCause::Memory,
        }
    }
}

impl<I: Index, D: LogDisk> NotRotatedStore<I, D> {
    /// Why the store doesn't continue over the second file: never `Unsynced`.
    pub fn cause(&self) -> EndCause
        ensures { result ≡ end_cause self.now }
    {
        match self {
            NotRotatedStore::Kept { cause, .. } => EndCause::Refused { cause: *cause },
            NotRotatedStore::Unsure { .. } => EndCause::Unsure,
            NotRotatedStore::Uncleared { .. } => EndCause::Uncleared,
            NotRotatedStore::Memory { .. } => EndCause::Memory,
        }
    }

    /// Returns the store if it goes on, and otherwise what is left of it, which may be dropped.
    pub fn or_kept(self) -> Result<KeptStore<I, D>, EndedStore<I, D>>
        ensures { ComesApart self result }
    {
        match self {
            NotRotatedStore::Kept {
                store,
                spare,
                cause,
            } => Ok((store, spare, cause)),
            NotRotatedStore::Unsure { disk, spare } => Err(EndedStore::Unsure { disk, spare }),
            NotRotatedStore::Uncleared { book, disk } => Err(EndedStore::Uncleared { book, disk }),
            NotRotatedStore::Memory { book, spare } => Err(EndedStore::Memory { book, spare }),
        }
    }
}

impl<I: Index, D: LogDisk> ObjectStore<I, D, OverFile> {
    /// Opens a store over the log in a file. It creates the file if it isn't there, and the log if the file has at most
    /// 17 bytes. `bucket` is how many objects a leaf should have, 4 to 4,096: 64 serves most programs.
    pub fn open_file(
        alloc: Global,
        disk: D,
        file: &str,
        bucket: u32,
    ) -> Result<(ObjectStore<I, D, OverFile>, Found), NotOpened<D>>
        ensures opened { IfOk result (λ r. OpensStore D.drive I.WIDTH bucket file.now (D.drive disk)
            r.0.pass.lock r.0.pass r.1.objects r.1.latest r.1.records) }
        ensures new { IfOk result (λ r. IsNewIn 0 r.0) }
        ensures refused { RefusesStoreExactly D.drive I.WIDTH bucket file.now disk result }
    {
        match open_store::<I, D>(alloc, disk, file, bucket) {
            Ok(opened) => Ok(opened_file(alloc, opened)),
            Err(refused) => Err(refused),
        }
    }

    /// Opens a store over the log in one of two files, between which it may have been rotated: the one that has
    /// records. If both have some, a crash came in a rotation, and both logs leave the same objects: the store
    /// continues over the shorter one. The other log is made empty. Files and logs are created as by `open_file`.
    ///
    /// It refuses one name for both files. It can't see that two names are links to one file.
    pub fn open_pair(
        alloc: Global,
        first: D,
        first_file: &str,
        second: D,
        second_file: &str,
        bucket: u32,
    ) -> Result<OpenedPair<I, D, OverFile>, NotEither<D>>
        ensures opened { IfOk result (λ o. OpensEither D.drive I.WIDTH bucket first_file.now second_file.now first second
            o.which o.store.pass.lock o.store.pass o.found.objects o.found.latest o.found.records o.spare) }
        ensures new { IfOk result (λ o. IsNewIn 0 o.store) }
        ensures refused { RefusesEitherExactly D.drive I.WIDTH bucket first_file.now second_file.now first second result }
    {
        match open_either::<I, D>(alloc, first, first_file, second, second_file, bucket) {
            Ok(opened) => Ok(opened_pair(alloc, opened)),
            Err(refused) => Err(refused),
        }
    }

    /// Begins a store with the book that a rotation left if memory ran out at its end (`NotRotatedStore::Memory`). If it
    /// runs out again, the book comes back.
    pub fn resume(
        alloc: Global,
        book: Book<I, D>,
    ) -> Result<ObjectStore<I, D, OverFile>, Book<I, D>>
        requires none { book.entries ≡ [] }
        requires world { HasWorld book }
        requires starts { StartsAs D.drive ⊥ (λ start waits moves. (waits ≡ false) × (moves ≡ false)) book.log }
        ensures store { IfOk result (λ store. store ≡ new_in 0 (first_pass store.pass.lock (origin_of D.drive book))) }
        ensures back { IfErr result (λ back. back ≡ book) }
    {
        let (store, pass) = Store::new(alloc, book)?;
        Ok(ObjectStore::from_parts(alloc, store, pass))
    }

    /// Ends the store. The value that is left has the drive, which still locks the file: drop it before you open the file
    /// again.
    pub fn close(self) -> ClosedStore<D>
        ensures closes { ClosesStore D.drive I.WIDTH (λ start. ⊤) self.pass result.disk }
        ensures lost { result.lost ≡ failed_cell self.pass.seen }
    {
        let (store, pass) = self.into_parts();
        close_store(store, pass)
    }

    /// Continues over a second file, with an empty history: places begin at 1 again, and rows at 0. The file has at most
    /// 17 bytes. The objects and leaves are written there as a fresh log, and then the first log is made empty.
    /// `NotRotatedStore` says what to do after a refusal. If nothing was written, the same store goes on.
    pub fn rotate<R: Wait>(
        self,
        rt: &R,
        spare: D,
    ) -> Result<RotatedStore<I, D, OverFile>, NotRotatedStore<I, D>>
        ensures rotated { IfOk result (λ r. IsRotated D.drive I.WIDTH (AreLeft I.WIDTH self.pass.origin self.pass.seen) self.pass
            spare r.store.pass.lock r.store.pass r.spare) }
        ensures new { IfOk result (λ r. IsNewIn self.session r.store) }
        ensures refused { IfErr result (λ e. KeepsOrEnds D.drive I.WIDTH (AreLeft I.WIDTH self.pass.origin self.pass.seen)
            self spare e) }
    {
        let (alloc, label) = (self.alloc, self.label());
        let (store, pass) = self.into_parts();
        match rotate_store(rt, alloc, store, pass, spare) {
            Ok(rotated) => Ok(rotated_store(alloc, label.session, rotated)),
            Err(refused) => Err(not_rotated(alloc, label, refused)),
        }
    }

    /// As `rotate`, with new leaves: those that the bucket size wants for the objects, and no more. So empty leaves
    /// don't add up. It takes longer than `rotate`, and the memory of a second index.
    pub fn rotate_anew<R: Wait>(
        self,
        rt: &R,
        spare: D,
    ) -> Result<RotatedStore<I, D, OverFile>, NotRotatedStore<I, D>>
        ensures rotated { IfOk result (λ r. IsRotated D.drive I.WIDTH (AreAnew I.WIDTH self.pass.origin self.pass.seen) self.pass
            spare r.store.pass.lock r.store.pass r.spare) }
        ensures new { IfOk result (λ r. IsNewIn self.session r.store) }
        ensures refused { IfErr result (λ e. KeepsOrEnds D.drive I.WIDTH (AreAnew I.WIDTH self.pass.origin self.pass.seen)
            self spare e) }
    {
        let (alloc, label) = (self.alloc, self.label());
        let (store, pass) = self.into_parts();
        match rotate_anew(rt, alloc, store, pass, spare) {
            Ok(rotated) => Ok(rotated_store(alloc, label.session, rotated)),
            Err(refused) => Err(not_rotated(alloc, label, refused)),
        }
    }
}

/// One value of an opened store and its pass, and what was found.
pub(crate) fn opened_file<I: Index, D: LogDisk, O: Start>(
    alloc: Global,
    opened: OpenedStore<I, D, O>,
) -> (ObjectStore<I, D, O>, Found)
    requires { IsFirst opened.store opened.pass }
    ensures store { result.0 ≡ new_in 0 opened.pass }
    ensures found { result.1 ≡ record { objects = opened.points; latest = opened.latest; records = opened.records } }
{
    let OpenedStore {
        store,
        pass,
        points,
        latest,
        records,
    } = opened;
    let found = Found {
        objects: points,
        latest,
        records,
    };
    (ObjectStore::from_parts(alloc, store, pass), found)
}

/// The same over one of two files.
pub(crate) fn opened_pair<I: Index, D: LogDisk, O: Start>(
    alloc: Global,
    opened: OpenedEither<I, D, O>,
) -> OpenedPair<I, D, O>
    requires { IsFirst opened.store opened.pass }
    ensures store { result.store ≡ new_in 0 opened.pass }
    ensures spare { result.spare ≡ opened.spare }
    ensures which { result.which ≡ opened.which }
    ensures found { result.found ≡ record { objects = opened.points; latest = opened.latest; records = opened.records } }
{
    let OpenedEither {
        store,
        pass,
        points,
        latest,
        records,
        spare,
        which,
    } = opened;
    OpenedPair {
        store: ObjectStore::from_parts(alloc, store, pass),
        spare,
        which,
        found: Found {
            objects: points,
            latest,
            records,
        },
    }
}

/// One value of a store that was rotated.
pub(crate) fn rotated_store<I: Index, D: LogDisk, O: Start>(
    alloc: Global,
    session: u8,
    rotated: Rotated<I, D, O>,
) -> RotatedStore<I, D, O>
    requires { IsFirst rotated.store rotated.pass }
    ensures store { result.store ≡ new_in session rotated.pass }
    ensures spare { result.spare ≡ rotated.spare }
{
    let Rotated { store, pass, spare } = rotated;
    let mut next = ObjectStore::from_parts(alloc, store, pass);
    next.set_session(session);
    RotatedStore { store: next, spare }
}

// The same store as one value, if it goes on, or what is left of it.
fn not_rotated<I: Index, D: LogDisk>(
    alloc: Global,
    label: Label,
    refused: NotRotated<I, D>,
) -> NotRotatedStore<I, D>
    requires { IsFirstIfKept refused }
    ensures { IsAsOne label refused result }
{
    match refused {
        NotRotated::Kept {
            store,
            pass,
            spare,
            cause,
        } => {
            let mut store = ObjectStore::from_parts(alloc, store, pass);
            store.relabel(label);
            NotRotatedStore::Kept {
                store,
                spare,
                cause,
            }
        }
        NotRotated::Unsure { disk, spare } => NotRotatedStore::Unsure { disk, spare },
        NotRotated::Uncleared { book, disk } => NotRotatedStore::Uncleared { book, disk },
        NotRotated::Memory { book, spare } => NotRotatedStore::Memory { book, spare },
    }
}
