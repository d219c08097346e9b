//! Stores over files whose records wait for a sync.
ghost use Rattle.pisrakun.specs.Caller.{Keeps};

use crate::logs::{
    EMPTY, END, GONE_ON, HEADER, PUT_1, PUT_2, disk_with, expect_bytes, failing_disk,
};
use disk_mem::{DiskCall, Fail, MemDisk};
use disk_trait::LogDisk;
use flat_index::FlatIndex;
use pisrakun::{
    BookFault, BufferedStore, CallFault, Client, EndCause, FileStore, Index, Lender, ObjectStore,
    OpenedPair, OpenedStore, Point, Pool, PutReply, RotateCause, RotatedStore, Service, Start,
    SyncCause, Unsynced, Which, Work, let_wait, open_store,
};
use std::alloc::Global;
use std::process::Abort;
use std::sync::Wait;
use std::thread::Threads;

const FIRST: Point = Point { x: 3, y: 5 };

const SECOND: Point = Point { x: 4, y: 4 };

// A store over the log on a drive.
fn store_over<I: Index, D: LogDisk>(
    rt: &impl Abort,
    alloc: Global,
    disk: D,
) -> BufferedStore<I, D> {
    let Ok((store, _)) = BufferedStore::<I, D>::open_file(alloc, disk, "a.log", 64) else {
        rt.panic("no store is opened")
    };
    store
}

// The drive of a store that was closed, and why its file may lack records.
fn ended<D: LogDisk>(closed: Result<D, Unsynced<D>>) -> (Option<SyncCause>, D) {
    match closed {
        Ok(disk) => (None, disk),
        Err(Unsynced { disk, cause }) => (Some(cause), disk),
    }
}

// A put, and the close of a store that was opened to write each record at once, and then lets its records wait.
fn put_after_letting_wait<I: Index, D: LogDisk, R: Wait + Abort>(
    rt: &R,
    alloc: Global,
    disk: D,
) -> (Option<SyncCause>, D) {
    let Ok(opened) = open_store::<I, D>(alloc, disk, "a.log", 64) else {
        rt.panic("no store is opened")
    };
    let OpenedStore {
        store,
        pass,
        points: _,
        latest: _,
        records: _,
    } = opened;
    let Ok((store, pass)) = let_wait(alloc, store, pass) else {
        rt.panic("no memory")
    };
    let mut store = ObjectStore::from_parts(alloc, store, pass);
    let _ = store.put(rt, 1, FIRST, 10);
    ended(store.close())
}

#[test]
fn an_opened_store_lets_its_records_wait(rt: HostRuntime) {
    let alloc = rt.alloc();
    let disk = failing_disk(&rt, alloc, EMPTY, WRITE_FAILS);
    let (cause, disk) = put_after_letting_wait::<FlatIndex, MemDisk, _>(&rt, alloc, disk);
    assert_same!(rt; cause, Some(SyncCause::Disk { cell: 0 }));
    expect_bytes(&rt, alloc, &disk, EMPTY);
}

// Two puts and the close of a store.
fn put_two_and_close<I: Index, D: LogDisk, R: Wait + Abort>(
    rt: &R,
    alloc: Global,
    disk: D,
) -> (Option<SyncCause>, D) {
    let mut store = store_over::<I, D>(rt, alloc, disk);
    let _ = store.put(rt, 1, FIRST, 10);
    let _ = store.put(rt, 2, SECOND, 20);
    ended(store.close())
}

#[test]
fn a_close_writes_what_waits(rt: HostRuntime) {
    let disk = disk_with(&rt, rt.alloc(), EMPTY);
    let (cause, disk) = put_two_and_close::<FlatIndex, MemDisk, _>(&rt, rt.alloc(), disk);
    assert_same!(rt; cause, None);
    expect_bytes(&rt, rt.alloc(), &disk, &[HEADER, PUT_1, PUT_2, END]);
}

// The opening writes an empty log anew, so the second write is that of the close.
const WRITE_FAILS: &[Fail] = &[Fail {
    call: DiskCall::Write,
    number: 2,
}];

#[test]
fn a_close_that_fails_says_which_record_may_be_missing(rt: HostRuntime) {
    let disk = failing_disk(&rt, rt.alloc(), EMPTY, WRITE_FAILS);
    let (cause, disk) = put_two_and_close::<FlatIndex, MemDisk, _>(&rt, rt.alloc(), disk);
    assert_same!(rt; cause, Some(SyncCause::Disk { cell: 0 }));
    expect_bytes(&rt, rt.alloc(), &disk, EMPTY);
}

// What a sync and a put after it return, why the file may lack records after the close, and the drive.
type Told<D> = (
    Result<u64, BookFault>,
    Result<PutReply, CallFault>,
    Option<SyncCause>,
    D,
);

// A put, a sync, a put and the close of a store.
fn put_sync_put<I: Index, D: LogDisk, R: Wait + Abort>(rt: &R, alloc: Global, disk: D) -> Told<D> {
    let mut store = store_over::<I, D>(rt, alloc, disk);
    let _ = store.put(rt, 1, FIRST, 10);
    let synced = store.sync(rt);
    let second = store.put(rt, 2, SECOND, 20);
    let (cause, disk) = ended(store.close());
    (synced, second, cause, disk)
}

// The sync writes its record, and then sets the commit byte. The next write is that of the close.
const LATER_WRITE_FAILS: &[Fail] = &[Fail {
    call: DiskCall::Write,
    number: 4,
}];

#[test]
fn what_a_sync_has_written_stays_when_a_later_write_fails(rt: HostRuntime) {
    let disk = failing_disk(&rt, rt.alloc(), EMPTY, LATER_WRITE_FAILS);
    let told = put_sync_put::<FlatIndex, MemDisk, _>(&rt, rt.alloc(), disk);
    let (synced, second, cause, disk) = told;
    assert_same!(rt; (synced, second), (Ok(1), Ok(PutReply::Done)));
    assert_same!(rt; cause, Some(SyncCause::Disk { cell: 1 }));
    expect_bytes(&rt, rt.alloc(), &disk, &[HEADER, PUT_1, END]);
}

// One of a team: puts an object of its own, or syncs.
#[derive(Clone, Copy)]
struct Member {
    id: Option<u64>,
    synced: Option<u64>,
}

impl<R: Wait> Work<R> for Member {
    fn work<I: Index, D: LogDisk, O: Start>(&mut self, rt: &R, client: &mut Client<'_, I, D, O>)
        ensures client { Keeps client.old client.new }
    {
        match self.id {
            Some(id) => {
                let _ = client.put(rt, id, FIRST, id);
            }
            None => self.synced = client.sync(rt).ok(),
        }
    }
}

// Eight of a team, the first with this object.
fn eight(rt: &impl Abort, alloc: Global, first: Option<u64>) -> Vec<Member> {
    let numbers = [0, 1, 2, 3, 4, 5, 6, 7];
    let members = numbers.map(|number: u64| Member {
        id: first.map(|id: u64| id.saturating_add(number)),
        synced: None,
    });
    Vec::from_array(alloc, members).expect(rt, "no memory")
}

// How many of a team were told that all eight calls are in the file.
fn synced_all(members: &[Member]) -> usize {
    let members = members.iter();
    members.filter(|member| member.synced == Some(8)).count()
}

// Eight threads put an object each, and then eight sync. Returns how many syncs covered all, and the drive.
fn eight_put_and_sync<I: Index + Send, D: LogDisk + Send, R: Threads + Wait + Sync + Abort>(
    rt: &R,
    alloc: Global,
    disk: D,
) -> (usize, D) {
    let mut store = store_over::<I, D>(rt, alloc, disk);
    let put = store.work_all(rt, 0, eight(rt, alloc, Some(1)));
    let synced = store.work_all(rt, 8, eight(rt, alloc, None));
    let covered = match (put, synced) {
        (Ok(_), Ok(members)) => synced_all(members.as_slice()),
        _ => 0,
    };
    (covered, ended(store.close()).1)
}

// How many device calls an opening and a close make without a change between.
fn calls_of_nothing(rt: &impl Abort, alloc: Global) -> u64 {
    let disk = disk_with(rt, alloc, EMPTY);
    let store = store_over::<FlatIndex, MemDisk>(rt, alloc, disk);
    let (_, disk) = ended(store.close());
    disk.moments()
}

// An append writes its records, syncs, sets the first commit byte and syncs, however many records there are.
const CALLS_OF_AN_APPEND: u64 = 4;

#[test]
fn eight_threads_that_sync_share_one_append(rt: HostRuntime) {
    let alloc = rt.alloc();
    let disk = disk_with(&rt, alloc, EMPTY);
    let (covered, disk) = eight_put_and_sync::<FlatIndex, MemDisk, _>(&rt, alloc, disk);
    assert_same!(rt; covered, 8);
    let nothing = calls_of_nothing(&rt, alloc);
    assert_same!(rt; disk.moments(), nothing.saturating_add(CALLS_OF_AN_APPEND));
    assert_same!(rt; disk.bytes().len(), 17 + 8 * 32);
}

// One of a crew that puts an object and syncs, by a client that it takes for both.
#[derive(Clone, Copy)]
struct Syncer {
    id: u64,
    is_covered: bool,
}

impl<R: Wait> Service<R> for Syncer {
    fn serve<I: Index, D: LogDisk, O: Start, L: Lender>(
        &mut self,
        rt: &R,
        pool: &Pool<'_, I, D, O, L>,
    ) {
        let mut guest = pool.enter(rt);
        let _ = guest.put(rt, self.id, FIRST, self.id);
        let synced = guest.sync(rt);
        self.is_covered = synced.is_ok_and(|up_to| guest.place() <= up_to);
    }
}

// Four that share two clients of a pool. Returns how many were told that their call is in the file, and the drive.
fn four_share_two<I: Index + Send, D: LogDisk + Send, R: Threads + Wait + Sync + Abort>(
    rt: &R,
    alloc: Global,
    disk: D,
) -> (usize, D) {
    let mut store = store_over::<I, D>(rt, alloc, disk);
    let numbers = [1, 2, 3, 4];
    let mut crew = numbers.map(|id: u64| Syncer {
        id,
        is_covered: false,
    });
    let hosted = store.pool(rt, 0, 2, &mut crew);
    assert_is!(rt; hosted.is_ok());
    let covered = crew.iter().filter(|syncer| syncer.is_covered).count();
    (covered, ended(store.close()).1)
}

#[test]
fn a_guest_syncs_what_it_has_changed(rt: HostRuntime) {
    let alloc = rt.alloc();
    let disk = disk_with(&rt, alloc, EMPTY);
    let (covered, disk) = four_share_two::<FlatIndex, MemDisk, _>(&rt, alloc, disk);
    assert_same!(rt; covered, 4);
    assert_same!(rt; disk.bytes().len(), 17 + 4 * 32);
}

// A put by a second session, a sync by it, and the continuation over a second file, where another put waits for the
// close. Returns what the sync says, and both drives.
fn rotates<I: Index, D: LogDisk, R: Wait + Abort>(
    rt: &R,
    alloc: Global,
    first: D,
    second: D,
) -> (Result<u64, BookFault>, D, D) {
    let mut store = store_over::<I, D>(rt, alloc, first);
    let mut session = store.session(9);
    let _ = session.put(rt, 1, FIRST, 10);
    let synced = session.sync(rt);
    let _ = store.put(rt, 2, SECOND, 20);
    let Ok(RotatedStore { mut store, spare }) = store.rotate(second) else {
        rt.panic("the store isn't rotated")
    };
    let _ = store.put(rt, 4, FOURTH, 30);
    (synced, spare, ended(store.close()).1)
}

const FOURTH: Point = Point { x: 7, y: 7 };

#[test]
fn a_store_whose_records_wait_continues_over_a_second_file(rt: HostRuntime) {
    let alloc = rt.alloc();
    let first = disk_with(&rt, alloc, EMPTY);
    let second = disk_with(&rt, alloc, &[]);
    let (synced, first, second) = rotates::<FlatIndex, MemDisk, _>(&rt, alloc, first, second);
    assert_same!(rt; synced, Ok(1));
    expect_bytes(&rt, alloc, &first, EMPTY);
    expect_bytes(&rt, alloc, &second, GONE_ON);
}

// The causes with which a rotation ends a store of one put.
fn why_not_rotated<I: Index, D: LogDisk, R: Wait + Abort>(
    rt: &R,
    alloc: Global,
    first: D,
    second: D,
) -> (Option<EndCause>, Option<D>) {
    let mut store = store_over::<I, D>(rt, alloc, first);
    let _ = store.put(rt, 1, FIRST, 10);
    match store.rotate(second) {
        Ok(RotatedStore { store, spare: _ }) => {
            let _ = store.close();
            (None, None)
        }
        Err(ended) => (Some(ended.cause), Some(ended.first)),
    }
}

#[test]
fn a_rotation_into_a_file_in_use_has_written_what_waited(rt: HostRuntime) {
    let alloc = rt.alloc();
    let first = disk_with(&rt, alloc, EMPTY);
    let second = disk_with(&rt, alloc, &[HEADER, PUT_2, END]);
    let (cause, first) = why_not_rotated::<FlatIndex, MemDisk, _>(&rt, alloc, first, second);
    let in_use = RotateCause::InUse { len: 17 + 32 };
    assert_same!(rt; cause, Some(EndCause::Refused { cause: in_use }));
    let first = first.expect(&rt, "no drive");
    expect_bytes(&rt, alloc, &first, &[HEADER, PUT_1, END]);
}

#[test]
fn a_rotation_whose_sync_fails_writes_nothing_to_the_second_file(rt: HostRuntime) {
    let alloc = rt.alloc();
    let first = failing_disk(&rt, alloc, EMPTY, WRITE_FAILS);
    let second = disk_with(&rt, alloc, &[]);
    let (cause, _) = why_not_rotated::<FlatIndex, MemDisk, _>(&rt, alloc, first, second);
    let cause = cause.expect(&rt, "the store is rotated");
    assert_same!(rt; cause, EndCause::Unsynced { cause: SyncCause::Disk { cell: 0 } });
}

// How many objects a store over two files finds, the first of which has a put, and where it continues.
fn found_in_pair<I: Index, D: LogDisk, R: Wait + Abort>(
    rt: &R,
    alloc: Global,
    first: D,
    second: D,
) -> (u64, Which, Result<u64, BookFault>) {
    let Ok(opened) = BufferedStore::<I, D>::open_pair(alloc, first, "a.log", second, "b.log", 64)
    else {
        rt.panic("no store is opened")
    };
    let OpenedPair {
        mut store,
        spare: _,
        which,
        found,
    } = opened;
    let _ = store.put(rt, 2, SECOND, 20);
    let synced = store.sync(rt);
    let _ = store.close();
    (found.objects, which, synced)
}

#[test]
fn a_store_whose_records_wait_is_opened_over_either_file(rt: HostRuntime) {
    let alloc = rt.alloc();
    let first = disk_with(&rt, alloc, &[HEADER, PUT_1, END]);
    let second = disk_with(&rt, alloc, &[]);
    let told = found_in_pair::<FlatIndex, MemDisk, _>(&rt, alloc, first, second);
    assert_same!(rt; told, (1, Which::First, Ok(1)));
}

// A put and a sync of a store that writes each record at once. Returns what the sync says, and the drive.
fn synced_at_once<I: Index, D: LogDisk, R: Wait + Abort>(
    rt: &R,
    alloc: Global,
    disk: D,
    times: u8,
) -> (Result<u64, BookFault>, D) {
    let Ok((mut store, _)) = FileStore::<I, D>::open_file(alloc, disk, "a.log", 64) else {
        rt.panic("no store is opened")
    };
    let _ = store.put(rt, 1, FIRST, 10);
    let mut synced = Ok(0);
    for _ in 0..times {
        synced = store.sync(rt);
    }
    (synced, store.close().disk)
}

#[test]
fn a_sync_makes_no_device_call_if_nothing_waits(rt: HostRuntime) {
    let alloc = rt.alloc();
    let disk = disk_with(&rt, alloc, EMPTY);
    let (synced, disk) = synced_at_once::<FlatIndex, MemDisk, _>(&rt, alloc, disk, 3);
    assert_same!(rt; synced, Ok(1));
    let other = disk_with(&rt, alloc, EMPTY);
    let (_, other) = synced_at_once::<FlatIndex, MemDisk, _>(&rt, alloc, other, 0);
    assert_same!(rt; disk.moments(), other.moments());
}
