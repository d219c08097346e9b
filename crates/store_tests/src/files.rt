//! Stores over files: opened and closed, and opened over either of two.
ghost use Rattle.std.specs.Prelude.{◌≡◌, IfOk};
ghost use Rattle.store_client.specs.Caller.{IsFree};
ghost use Rattle.store_file.specs.Opened.{IsFirst};

use crate::logs::{
    ANEW, EMPTY, END, FILLED, GONE_ON, HEADER, LATER_1, PUT_2, disk_with, expect_bytes,
};
use book_lock::Pass;
use disk_mem::MemDisk;
use disk_trait::LogDisk;
use flat_index::FlatIndex;
use index_layer::Index;
use plain_list::Stamped;
use recovery::OpenFault;
use sessions::{SharedBook, Store};
use std::alloc::Global;
use std::process::Abort;
use std::sync::Wait;
use store_client::Client;
use store_file::{
    ClosedStore, EitherCause, NotEither, NotOpened, NotRotated, OpenCause, OpenedEither,
    OpenedStore, OverFile, Rotated, Which, close_store, open_either, open_store, rotate_anew,
    rotate_store,
};
use zorder::Point;

// Where an object is, if it is there and its find was answered.
pub(crate) type Place = Option<Option<Stamped>>;

// Where the objects 1 to 4 are.
pub(crate) type Places = [Place; 4];

// The position at this point, with this moment.
macro_rules! place {
    ($x:expr, $y:expr, $moment:expr) => {
        Some(Some(Stamped {
            at: Point { x: $x, y: $y },
            moment: $moment,
        }))
    };
}

pub(crate) const NOWHERE: Place = Some(None);

pub(crate) const FIRST_TWO: Places = [place!(3, 5, 10), place!(4, 4, 20), NOWHERE, NOWHERE];

pub(crate) const FIRST_TWO_AND_FOURTH: Places = [
    place!(3, 5, 10),
    place!(4, 4, 20),
    NOWHERE,
    place!(7, 7, 30),
];

// How many objects there are, their latest moment, how many records the log has, and where the objects are.
pub(crate) type Found = (u64, Option<u64>, u64, Places);

pub(crate) const NOTHING: Found = (0, None, 0, [NOWHERE, NOWHERE, NOWHERE, NOWHERE]);

// A store over a file, and the pass that has all parts of it.
pub(crate) type Open<I, D> = (Store<I, D, OverFile>, Pass<SharedBook<I, D, OverFile>>);

// Where the objects are.
pub(crate) fn look<I: Index, D: LogDisk, R: Wait>(
    rt: &R,
    alloc: Global,
    store: &Store<I, D, OverFile>,
    pass: Pass<SharedBook<I, D, OverFile>>,
) -> (Places, Pass<SharedBook<I, D, OverFile>>)
    requires free { IsFree store.now pass }
    ensures free { IsFree store.now result.1 }
    ensures parts { result.1.parts ≡ pass.parts }
{
    let mut client = Client::new(store, alloc, pass, 7);
    let places = [
        client.find(rt, 1).ok(),
        client.find(rt, 2).ok(),
        client.find(rt, 3).ok(),
        client.find(rt, 4).ok(),
    ];
    (places, client.into_pass())
}

// Three puts and a removal.
fn fill<I: Index, D: LogDisk, R: Wait>(
    rt: &R,
    alloc: Global,
    store: &Store<I, D, OverFile>,
    pass: Pass<SharedBook<I, D, OverFile>>,
) -> Pass<SharedBook<I, D, OverFile>>
    requires free { IsFree store.now pass }
    ensures free { IsFree store.now result }
    ensures parts { result.parts ≡ pass.parts }
{
    let mut client = Client::new(store, alloc, pass, 7);
    let _ = client.put(rt, 1, Point { x: 3, y: 5 }, 10);
    let _ = client.put(rt, 2, Point { x: 4, y: 4 }, 20);
    let _ = client.put(rt, 3, Point { x: 6, y: 1 }, 15);
    let _ = client.remove(rt, 3);
    client.into_pass()
}

// One more put.
pub(crate) fn go_on<I: Index, D: LogDisk, R: Wait>(
    rt: &R,
    alloc: Global,
    store: &Store<I, D, OverFile>,
    pass: Pass<SharedBook<I, D, OverFile>>,
) -> Pass<SharedBook<I, D, OverFile>>
    requires free { IsFree store.now pass }
    ensures free { IsFree store.now result }
    ensures parts { result.parts ≡ pass.parts }
{
    let mut client = Client::new(store, alloc, pass, 7);
    let _ = client.put(rt, 4, Point { x: 7, y: 7 }, 30);
    client.into_pass()
}

pub(crate) fn open<I: Index, D: LogDisk>(
    rt: &impl Abort,
    alloc: Global,
    disk: D,
) -> OpenedStore<I, D, OverFile>
    ensures first { IsFirst result.store result.pass }
{
    match open_store::<I, D>(alloc, disk, "one.log", 4) {
        Ok(opened) => opened,
        Err(_) => rt.panic("no store is opened"),
    }
}

// Opens a store, and fills it.
pub(crate) fn filled<I: Index, D: LogDisk, R: Wait + Abort>(
    rt: &R,
    alloc: Global,
    disk: D,
) -> Open<I, D>
    ensures free { IsFree result.0 result.1 }
    ensures parts { result.1.parts ≡ 65536 }
{
    let OpenedStore {
        store,
        pass,
        points: _,
        latest: _,
        records: _,
    } = open(rt, alloc, disk);
    let pass = fill(rt, alloc, &store, pass);
    (store, pass)
}

// Ends a store, all of whose appends went well. Returns its drive.
pub(crate) fn close<I: Index, D: LogDisk>(
    rt: &impl Abort,
    store: Store<I, D, OverFile>,
    pass: Pass<SharedBook<I, D, OverFile>>,
) -> D
    requires free { IsFree store pass }
    requires parts { pass.parts ≡ 65536 }
{
    let ClosedStore { lost, disk } = close_store(store, pass);
    assert_same!(rt; lost, None);
    disk
}

// What is found over a file, and the drive.
pub(crate) fn found_on<I: Index, D: LogDisk, R: Wait + Abort>(
    rt: &R,
    alloc: Global,
    disk: D,
) -> (Found, D) {
    let OpenedStore {
        store,
        pass,
        points,
        latest,
        records,
    } = open::<I, D>(rt, alloc, disk);
    let (places, pass) = look(rt, alloc, &store, pass);
    let disk = close(rt, store, pass);
    ((points, latest, records, places), disk)
}

// A store that was opened over either file.
pub(crate) fn open_one<I: Index, D: LogDisk>(
    rt: &impl Abort,
    alloc: Global,
    first: D,
    second: D,
) -> OpenedEither<I, D, OverFile>
    ensures first { IsFirst result.store result.pass }
{
    match open_either::<I, D>(alloc, first, "one.log", second, "two.log", 4) {
        Ok(opened) => opened,
        Err(_) => rt.panic("neither file is opened"),
    }
}

// What is found over either file, which one it is, and the drives: first that of the store, then the other one.
pub(crate) fn found_in<I: Index, D: LogDisk, R: Wait + Abort>(
    rt: &R,
    alloc: Global,
    first: D,
    second: D,
) -> (Which, Found, D, D) {
    let OpenedEither {
        store,
        pass,
        points,
        latest,
        records,
        spare,
        which,
    } = open_one::<I, D>(rt, alloc, first, second);
    let (places, pass) = look(rt, alloc, &store, pass);
    let disk = close(rt, store, pass);
    (which, (points, latest, records, places), disk, spare)
}

/// The leaves of a rotation.
#[derive(Clone, Copy)]
pub(crate) enum Leaves {
    AsTheyAre,
    Anew,
}

pub(crate) fn rotate<I: Index, D: LogDisk, R: Wait>(
    rt: &R,
    alloc: Global,
    store: Store<I, D, OverFile>,
    pass: Pass<SharedBook<I, D, OverFile>>,
    spare: D,
    leaves: Leaves,
) -> Result<Rotated<I, D, OverFile>, NotRotated<I, D>>
    requires free { IsFree store pass }
    requires parts { pass.parts ≡ 65536 }
    ensures free { IfOk result (λ r. IsFree r.store r.pass) }
    ensures parts { IfOk result (λ r. r.pass.parts ≡ 65536) }
{
    match leaves {
        Leaves::AsTheyAre => rotate_store(rt, alloc, store, pass, spare),
        Leaves::Anew => rotate_anew(rt, alloc, store, pass, spare),
    }
}

pub(crate) fn rotated<I: Index, D: LogDisk, R: Wait + Abort>(
    rt: &R,
    alloc: Global,
    store: Store<I, D, OverFile>,
    pass: Pass<SharedBook<I, D, OverFile>>,
    spare: D,
    leaves: Leaves,
) -> Rotated<I, D, OverFile>
    requires free { IsFree store pass }
    requires parts { pass.parts ≡ 65536 }
    ensures free { IsFree result.store result.pass }
    ensures parts { result.pass.parts ≡ 65536 }
{
    match rotate(rt, alloc, store, pass, spare, leaves) {
        Ok(rotated) => rotated,
        Err(_) => rt.panic("the store isn't rotated"),
    }
}

// Fails unless this is found over a file with these bytes.
fn expect_found<R: Wait + Abort>(rt: &R, alloc: Global, disk: MemDisk, wanted: Found) -> MemDisk {
    let (found, disk) = found_on::<FlatIndex, MemDisk, R>(rt, alloc, disk);
    assert_same!(rt; found, wanted);
    disk
}

// Fails unless this is found over two files, in one of them. The other one is an empty log then.
pub(crate) fn expect_in<R: Wait + Abort>(
    rt: &R,
    alloc: Global,
    first: MemDisk,
    second: MemDisk,
    wanted: (Which, Found),
) {
    let (which, found, _, spare) = found_in::<FlatIndex, MemDisk, R>(rt, alloc, first, second);
    assert_same!(rt; (which, found), wanted);
    expect_bytes(rt, alloc, &spare, EMPTY);
}

// The same in both orders of the files. The file in which it is found comes first.
pub(crate) fn expect_either<R: Wait + Abort>(
    rt: &R,
    alloc: Global,
    first: &[&[u8]],
    second: &[&[u8]],
    wanted: Found,
) {
    let (one, two) = (disk_with(rt, alloc, first), disk_with(rt, alloc, second));
    expect_in(rt, alloc, one, two, (Which::First, wanted));
    let (one, two) = (disk_with(rt, alloc, first), disk_with(rt, alloc, second));
    expect_in(rt, alloc, two, one, (Which::Second, wanted));
}

fn is_found_again<R: Wait + Abort>(rt: &R, alloc: Global) {
    let disk = expect_found(rt, alloc, disk_with(rt, alloc, &[]), NOTHING);
    expect_bytes(rt, alloc, &disk, EMPTY);
    let (store, pass) = filled::<FlatIndex, MemDisk, R>(rt, alloc, disk);
    let disk = close(rt, store, pass);
    expect_bytes(rt, alloc, &disk, FILLED);
    let disk = expect_found(rt, alloc, disk, (2, Some(20), 4, FIRST_TWO));
    expect_bytes(rt, alloc, &disk, FILLED);
}

// Why no store is opened over a file, and its drive.
fn unopened<I: Index, D: LogDisk>(
    rt: &impl Abort,
    alloc: Global,
    disk: D,
    bucket: u32,
) -> NotOpened<D> {
    match open_store::<I, D>(alloc, disk, "one.log", bucket) {
        Err(refused) => refused,
        Ok(_) => rt.panic("a file is opened"),
    }
}

// Fails unless the store isn't opened for this reason, and its drive is returned with the bytes that it had.
fn expect_unopened(rt: &impl Abort, alloc: Global, file: &[&[u8]], bucket: u32, wanted: OpenCause) {
    let disk = disk_with(rt, alloc, file);
    let NotOpened { disk, cause } = unopened::<FlatIndex, MemDisk>(rt, alloc, disk, bucket);
    assert_same!(rt; cause, wanted);
    expect_bytes(rt, alloc, &disk, file);
}

// Why neither of two files is opened, and both drives. The second file has this name.
fn refused<I: Index, D: LogDisk>(
    rt: &impl Abort,
    alloc: Global,
    first: D,
    second: D,
    second_file: &str,
    bucket: u32,
) -> NotEither<D> {
    match open_either::<I, D>(alloc, first, "one.log", second, second_file, bucket) {
        Err(refused) => refused,
        Ok(_) => rt.panic("a file is opened"),
    }
}

// Fails unless neither file is opened for this reason, and both drives are returned with the bytes that they had.
fn expect_refused(
    rt: &impl Abort,
    alloc: Global,
    files: [&[&[u8]]; 2],
    bucket: u32,
    wanted: EitherCause,
) {
    expect_refused_as(rt, alloc, files, "two.log", bucket, wanted);
}

// The same if the second file has this name.
fn expect_refused_as(
    rt: &impl Abort,
    alloc: Global,
    files: [&[&[u8]]; 2],
    second_file: &str,
    bucket: u32,
    wanted: EitherCause,
) {
    let [one, two] = files;
    let (first, second) = (disk_with(rt, alloc, one), disk_with(rt, alloc, two));
    let NotEither {
        first,
        second,
        cause,
    } = refused::<FlatIndex, MemDisk>(rt, alloc, first, second, second_file, bucket);
    assert_same!(rt; cause, wanted);
    expect_bytes(rt, alloc, &first, one);
    expect_bytes(rt, alloc, &second, two);
}

#[test]
fn a_store_is_opened_with_what_its_file_was_closed_with(rt: HostRuntime) {
    is_found_again(&rt, rt.alloc());
}

#[test]
fn files_of_two_worlds_are_refused(rt: HostRuntime) {
    let differ = EitherCause::Differ;
    expect_refused(&rt, rt.alloc(), [ANEW, GONE_ON], 4, differ);
    expect_refused(
        &rt,
        rt.alloc(),
        [&[HEADER, LATER_1, PUT_2, END], ANEW],
        4,
        differ,
    );
}

// Neither drive is touched, even if its file would be created.
#[test]
fn one_name_for_both_files_is_refused(rt: HostRuntime) {
    let one_file = EitherCause::OneFile;
    expect_refused_as(&rt, rt.alloc(), [ANEW, ANEW], "one.log", 4, one_file);
    expect_refused_as(&rt, rt.alloc(), [UNMADE, UNMADE], "one.log", 4, one_file);
    expect_refused_as(
        &rt,
        rt.alloc(),
        [ANEW, ANEW],
        "one.log",
        3,
        EitherCause::Bucket,
    );
}

const UNMADE: &[&[u8]] = &[];

const NO_LOG: &[&[u8]] = &[b"these bytes are no log"];

#[test]
fn a_file_that_is_no_log_is_told(rt: HostRuntime) {
    let cause = OpenCause::Log {
        fault: OpenFault::NotLog,
    };
    expect_unopened(&rt, rt.alloc(), NO_LOG, 4, cause);
    expect_refused(
        &rt,
        rt.alloc(),
        [NO_LOG, ANEW],
        4,
        EitherCause::First { cause },
    );
    expect_refused(
        &rt,
        rt.alloc(),
        [ANEW, NO_LOG],
        4,
        EitherCause::Second { cause },
    );
    expect_refused(
        &rt,
        rt.alloc(),
        [NO_LOG, NO_LOG],
        4,
        EitherCause::First { cause },
    );
}

#[test]
fn a_bucket_of_three_or_4_097_is_refused(rt: HostRuntime) {
    expect_unopened(&rt, rt.alloc(), UNMADE, 3, OpenCause::Bucket);
    expect_unopened(&rt, rt.alloc(), NO_LOG, 4_097, OpenCause::Bucket);
    expect_refused(&rt, rt.alloc(), [UNMADE, NO_LOG], 3, EitherCause::Bucket);
    expect_refused(
        &rt,
        rt.alloc(),
        [UNMADE, NO_LOG],
        4_097,
        EitherCause::Bucket,
    );
}
