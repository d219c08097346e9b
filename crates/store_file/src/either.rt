//! Opens a store over one of two files.
ghost use Rattle.std.specs.Prelude.{◌≡◌, ◌⊎◌, ◌↔◌, false, None, IfOk, IfErr, IsTrue};
ghost use Rattle.std.specs.Result.{IsErrAnd};
ghost use Rattle.zorder.specs.Width.{IsWidth};
ghost use Rattle.recovery.specs.declared.seen.OpenFault.{OpenFault};
ghost use Rattle.commit_book.specs.OpenedLog.{IsOpenedLog};
ghost use Rattle.log_compact.specs.Clearing.{Clears, KeepsOrClears};
ghost use Rattle.store_file.specs.Either.{Chooses, CameOf, OpensEither, RefusesEitherExactly, RefusesBoth, IsFreeEither};
ghost use Rattle.store_file.specs.Either.{BeginsEither, BeginsNeither};
ghost use Rattle.store_file.specs.Files.{OpensFile, CanOpen, ShowsFault};
ghost use Rattle.store_file.specs.Opened.{BeginsOver, IsFirst};
ghost use Rattle.store_file.specs.Waiting.{IsAtSync, Writes};

use crate::faults::{EitherCause, NotEither, NotOpened, OpenCause};
use crate::files::open_file;
use crate::opening::{OpenedStore, is_bucket, store_of};
use crate::start::{AtSync, OverFile};
use book_lock::Pass;
use disk_trait::LogDisk;
use index_layer::Index;
use log_compact::{NotCleared, clear_log};
use plain_list::World;
use recovery::{Opened, Seen};
use sessions::{SharedBook, Start, Store};
use split_log::SplitLog;
use std::alloc::Global;

/// Names one of two files, in the order in which the caller passed them.
#[derive(Clone, Copy, Debug, PartialEq, Eq)]
pub enum Which {
    First,
    Second,
}

/// A store that was opened over one of two files, and the pass that has all its parts.
pub struct OpenedEither<I: Index, D: LogDisk, O: Start> {
    pub store: Store<I, D, O>,
    pub pass: Pass<SharedBook<I, D, O>>,
    /// The number of objects that the store begins with.
    pub points: u64,
    /// The latest moment of any of these objects, or `None` if there are none.
    pub latest: Option<u64>,
    /// The number of records in the log of the store.
    pub records: u64,
    /// The drive of the other file. Its log is empty, so it is ready for a rotation.
    pub spare: D,
    /// The file that the store continues over.
    pub which: Which,
}

// The logs of both files, after they were opened.
struct Both<D: LogDisk> {
    one: Opened<D>,
    two: Opened<D>,
}

// A store over one log, and the drive of the other log.
struct Taken<I: Index, D: LogDisk, O: Start> {
    opened: OpenedStore<I, D, O>,
    spare: D,
}

// Both drives, if there is no store.
struct NotTaken<D: LogDisk> {
    chosen: D,
    other: D,
    cause: EitherCause,
}

/// Opens a store over one of two files, between which a store may have been rotated. It continues over the file that
/// has records, and empties the log of the other. Each file is created if it doesn't exist, and its log if the file has
/// at most 17 bytes.
///
/// If a crash came during a rotation, both files may have records that leave the same objects. The store then continues
/// over the log with fewer records. Two files that leave different objects are refused (`Differ`), and keep their
/// records.
///
/// One name for both files is refused. If two names mean one file, only the lock of that file refuses the second
/// opening. So pass two different files.
pub fn open_either<I: Index, D: LogDisk>(
    alloc: Global,
    first: D,
    first_file: &str,
    second: D,
    second_file: &str,
    bucket: u32,
) -> Result<OpenedEither<I, D, OverFile>, NotEither<D>>
    ensures opened { IfOk result (λ o. OpensEither D.drive I.WIDTH bucket first_file.now second_file.now first second
        o.which o.store o.pass o.points o.latest o.records o.spare) }
    ensures first { IfOk result (λ o. IsFirst o.store o.pass) }
    ensures refused { RefusesEitherExactly D.drive I.WIDTH bucket first_file.now second_file.now first second result }
{
    open_either_as::<I, D, OverFile>(alloc, first, first_file, second, second_file, bucket, false)
}

/// The same, but the records of the store may wait in memory, as after `open_at_sync`.
pub fn open_either_at_sync<I: Index, D: LogDisk>(
    alloc: Global,
    first: D,
    first_file: &str,
    second: D,
    second_file: &str,
    bucket: u32,
) -> Result<OpenedEither<I, D, AtSync>, NotEither<D>>
    ensures opened { IfOk result (λ o. IsAtSync (λ begun. OpensEither D.drive I.WIDTH bucket first_file.now second_file.now
        first second o.which o.store begun o.points o.latest o.records o.spare) o.pass) }
    ensures first { IfOk result (λ o. IsFirst o.store o.pass) }
    ensures refused { RefusesEitherExactly D.drive I.WIDTH bucket first_file.now second_file.now first second result }
{
    open_either_as::<I, D, AtSync>(alloc, first, first_file, second, second_file, bucket, true)
}

// Opens a store that writes each record at once, or whose records wait for a sync.
fn open_either_as<I: Index, D: LogDisk, O: Start>(
    alloc: Global,
    first: D,
    first_file: &str,
    second: D,
    second_file: &str,
    bucket: u32,
    at_sync: bool,
) -> Result<OpenedEither<I, D, O>, NotEither<D>>
    requires start { (start : D) → O.is (D.drive start) at_sync false }
    ensures opened { IfOk result (λ o. Writes at_sync (λ begun. OpensEither D.drive I.WIDTH bucket first_file.now
        second_file.now first second o.which o.store begun o.points o.latest o.records o.spare) o.pass) }
    ensures first { IfOk result (λ o. IsFirst o.store o.pass) }
    ensures refused { RefusesEitherExactly D.drive I.WIDTH bucket first_file.now second_file.now first second result }
{
    if !is_bucket(bucket) {
        return Err(NotEither {
            first,
            second,
            cause: EitherCause::Bucket,
        });
    }
    if first_file == second_file {
        return Err(NotEither {
            first,
            second,
            cause: EitherCause::OneFile,
        });
    }
    match open_both(alloc, first, first_file, second, second_file, I::WIDTH) {
        Ok(both) => go_on_over_either(alloc, both, bucket, at_sync),
        Err(refused) => Err(refused),
    }
}

// Continues over one of two logs that were opened.
fn go_on_over_either<I: Index, D: LogDisk, O: Start>(
    alloc: Global,
    both: Both<D>,
    bucket: u32,
    at_sync: bool,
) -> Result<OpenedEither<I, D, O>, NotEither<D>>
    requires start { (start : D) → O.is (D.drive start) at_sync false }
    requires one { IsOpenedLog D.drive I.WIDTH both.one.seen both.one.start.value both.one.log }
    requires two { IsOpenedLog D.drive I.WIDTH both.two.seen both.two.start.value both.two.log }
    ensures begins { IfOk result (λ o. Writes at_sync (λ begun. BeginsEither D.drive bucket both.one.seen both.two.seen
        both.one.log both.two.log both.one.start.value both.two.start.value o.which o.store begun o.points o.latest
        o.records o.spare) o.pass) }
    ensures refused { IfErr result (λ e. BeginsNeither D.drive both.one.seen both.two.seen both.one.log both.two.log
        e.first e.second e.cause) }
{
    let Both { one, two } = both;
    match choose(&one.seen, &two.seen) {
        Some(Which::First) => match go_on_over(alloc, one, two.log, bucket, at_sync) {
            Ok(taken) => Ok(either_of(taken, Which::First)),
            Err(
                NotTaken {
                    chosen,
                    other,
                    cause,
                },
            ) => Err(NotEither {
                first: chosen,
                second: other,
                cause,
            }),
        },
        Some(Which::Second) => match go_on_over(alloc, two, one.log, bucket, at_sync) {
            Ok(taken) => Ok(either_of(taken, Which::Second)),
            Err(
                NotTaken {
                    chosen,
                    other,
                    cause,
                },
            ) => Err(NotEither {
                first: other,
                second: chosen,
                cause,
            }),
        },
        None => Err(NotEither {
            first: one.log.give_back(),
            second: two.log.give_back(),
            cause: EitherCause::Differ,
        }),
    }
}

// Opens the log of each file.
fn open_both<D: LogDisk>(
    alloc: Global,
    first: D,
    first_file: &str,
    second: D,
    second_file: &str,
    width: u8,
) -> Result<Both<D>, NotEither<D>>
    requires { IsWidth width }

    ensures one { IfOk result (λ b. OpensFile width first_file.now (D.drive first)
        (D.drive b.one.start.value) (D.drive b.one.log.disk) b.one.seen) }
    ensures two { IfOk result (λ b. OpensFile width second_file.now (D.drive second)
        (D.drive b.two.start.value) (D.drive b.two.log.disk) b.two.seen) }
    ensures logs { IfOk result (λ b. (b.one.log.cells ≡ b.one.seen.cells) × (b.one.log.failed ≡ None)
        × (b.two.log.cells ≡ b.two.seen.cells) × (b.two.log.failed ≡ None)) }
    ensures refused { IfErr result (λ e. RefusesBoth D.drive width first_file.now second_file.now first second e.first e.second e.cause) }
    ensures exact_first { (fault : OpenFault) → ShowsFault width (D.drive first) fault
        → IsErrAnd result (λ e. (e.cause ≡ EitherCause.First (OpenCause.Log fault))
        ⊎ IsFreeEither (D.drive first) (D.drive second) (D.drive e.first) (D.drive e.second) e.cause) }
    ensures exact_second { (fault : OpenFault) → CanOpen width (D.drive first) → ShowsFault width (D.drive second) fault
        → IsErrAnd result (λ e. (e.cause ≡ EitherCause.Second (OpenCause.Log fault))
        ⊎ IsFreeEither (D.drive first) (D.drive second) (D.drive e.first) (D.drive e.second) e.cause) }
    ensures whole { CanOpen width (D.drive first) → CanOpen width (D.drive second)
        → IfErr result (λ e. IsFreeEither (D.drive first) (D.drive second) (D.drive e.first) (D.drive e.second) e.cause) }
{
    let one = match open_file(alloc, first, first_file, width) {
        Ok(one) => one,
        Err(NotOpened { disk, cause }) => {
            return Err(NotEither {
                first: disk,
                second,
                cause: EitherCause::First { cause },
            });
        }
    };
    match open_file(alloc, second, second_file, width) {
        Ok(two) => Ok(Both { one, two }),
        Err(NotOpened { disk, cause }) => Err(NotEither {
            first: one.log.give_back(),
            second: disk,
            cause: EitherCause::Second { cause },
        }),
    }
}

// Chooses the log to continue with. There is one if a log has no cells, or if both leave the same objects.
fn choose(one: &Seen, two: &Seen) -> Option<Which>
    ensures { Chooses one.now two.now result }
{
    if two.cells == 0 {
        return Some(Which::First);
    }
    if one.cells == 0 {
        return Some(Which::Second);
    }
    if !is_same_world(&one.world, &two.world) {
        return None;
    }
    if one.cells <= two.cells {
        Some(Which::First)
    } else {
        Some(Which::Second)
    }
}

fn is_same_world(one: &World, two: &World) -> bool
    ensures { IsTrue result ↔ one.now ≡ two.now }
{
    one.as_slice() == two.as_slice()
}

// Empties the second log, and begins a store over the first one.
fn go_on_over<I: Index, D: LogDisk, O: Start>(
    alloc: Global,
    chosen: Opened<D>,
    other: SplitLog<D>,
    bucket: u32,
    at_sync: bool,
) -> Result<Taken<I, D, O>, NotTaken<D>>
    requires start { O.is (D.drive chosen.start.value) at_sync false }
    requires opened { IsOpenedLog D.drive I.WIDTH chosen.seen chosen.start.value chosen.log }
    requires other { other.failed ≡ None }
    ensures begins { IfOk result (λ t. Writes at_sync (λ begun. BeginsOver D.drive bucket chosen.seen chosen.start.value
        t.opened.store begun t.opened.points t.opened.latest t.opened.records) t.opened.pass) }
    ensures cleared { IfOk result (λ t. Clears other.cells (D.drive other.disk) (D.drive t.spare)
        × KeepsOrClears (D.drive other.disk) (D.drive t.spare)) }
    ensures back { IfErr result (λ e. (e.chosen ≡ chosen.log.disk) × CameOf other.cells e.cause (D.drive other.disk) (D.drive e.other)
        × KeepsOrClears (D.drive other.disk) (D.drive e.other)) }
{
    let cleared = clear_log(other);
    let spare = match cleared {
        Ok(spare) => spare,
        Err(NotCleared { disk }) => {
            return Err(NotTaken {
                chosen: chosen.log.give_back(),
                other: disk,
                cause: EitherCause::Disk,
            });
        }
    };
    match store_of(alloc, chosen, bucket, at_sync) {
        Ok(opened) => Ok(Taken { opened, spare }),
        Err(NotOpened { disk, .. }) => Err(NotTaken {
            chosen: disk,
            other: spare,
            cause: EitherCause::Memory,
        }),
    }
}

fn either_of<I: Index, D: LogDisk, O: Start>(
    taken: Taken<I, D, O>,
    which: Which,
) -> OpenedEither<I, D, O>
    ensures store { result.store ≡ taken.opened.store }
    ensures pass { result.pass ≡ taken.opened.pass }
    ensures points { result.points ≡ taken.opened.points }
    ensures latest { result.latest ≡ taken.opened.latest }
    ensures records { result.records ≡ taken.opened.records }
    ensures spare { result.spare ≡ taken.spare }
    ensures which { result.which ≡ which }
{
    let Taken { opened, spare } = taken;
    let OpenedStore {
        store,
        pass,
        points,
        latest,
        records,
    } = opened;
    OpenedEither {
        store,
        pass,
        points,
        latest,
        records,
        spare,
        which,
    }
}
