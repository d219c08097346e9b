//! Stores over two files that go over from one to the other while they are called.
ghost use Rattle.store_client.specs.Caller.{Keeps};

use crate::files::{FIRST_TWO, FIRST_TWO_AND_FOURTH, NOTHING, expect_in};
use crate::logs::{
    ANEW, EMPTY, FILLED, FILLED_AND_ON, GONE_ON, disk_of, disk_with, expect_bytes, failing_disk,
};
use crate::rotations::expect_after_crashes;
use disk_mem::{DiskCall, Fail, MemDisk};
use disk_trait::LogDisk;
use flat_index::FlatIndex;
use index_layer::Index;
use pisrakun::{
    AtSync, Batch, CallFault, Client, ClosedPair, FileStore, KdTrie, MOST_CELLS, MemoryStore,
    MoveReply, NotAdded, NotRotatedOver, ObjectStore, OpenedPair, OpenedRotating, OpenedStore,
    OverFile, Point, PutReply, RotateCause, RotatingStore, Rotation, Stamped, Start, StayCause,
    SyncCause, Which, Work, let_rotate, open_store,
};
use std::alloc::Global;
use std::process::Abort;
use std::sync::Wait;
use std::thread::Threads;

type Pair<I, D> = RotatingStore<I, D, OverFile>;

// A store over two files.
fn open<I: Index, D: LogDisk, R: Wait + Abort>(
    rt: &R,
    alloc: Global,
    one: D,
    two: D,
) -> Pair<I, D> {
    let opened = Pair::<I, D>::open_pair(rt, alloc, one, "one.log", two, "two.log", 4);
    let Ok(opened) = opened else {
        rt.panic("neither file is opened")
    };
    let OpenedRotating {
        store,
        which: _,
        found: _,
    } = opened;
    store
}

// The same, and its records wait for a sync.
fn open_waiting<I: Index, D: LogDisk, R: Wait + Abort>(
    rt: &R,
    alloc: Global,
    one: D,
    two: D,
) -> RotatingStore<I, D, AtSync> {
    let opened = RotatingStore::<I, D, AtSync>::open_pair(
        rt, alloc, one, "one.log", two, "two.log", 4,
    );
    let Ok(opened) = opened else {
        rt.panic("neither file is opened")
    };
    let OpenedRotating {
        store,
        which: _,
        found: _,
    } = opened;
    store
}

// Three puts and a removal.
fn fill<I: Index, D: LogDisk, O: Start, R: Wait>(rt: &R, store: &mut RotatingStore<I, D, O>) {
    let _ = store.put(rt, 1, Point { x: 3, y: 5 }, 10);
    let _ = store.put(rt, 2, Point { x: 4, y: 4 }, 20);
    let _ = store.put(rt, 3, Point { x: 6, y: 1 }, 15);
    let _ = store.remove(rt, 3);
}

// The same over these drives.
fn filled<I: Index, D: LogDisk, R: Wait + Abort>(
    rt: &R,
    alloc: Global,
    one: D,
    two: D,
) -> Pair<I, D> {
    let mut store = open::<I, D, R>(rt, alloc, one, two);
    fill(rt, &mut store);
    store
}

const FOURTH: Point = Point { x: 7, y: 7 };

// Both drives of a store, that of its log first.
fn drives<D: LogDisk>(rt: &impl Abort, closed: ClosedPair<D>) -> (Option<SyncCause>, D, D) {
    let ClosedPair { lost, disk, spare } = closed;
    (lost, disk, spare.expect(rt, "there is no second drive"))
}

// A store goes over to its second file twice, with a put after each. Its places go on.
fn goes_over_and_back<I: Index, D: LogDisk, R: Wait + Abort>(
    rt: &R,
    alloc: Global,
    one: D,
    two: D,
) -> (D, D) {
    let mut store = filled::<I, D, R>(rt, alloc, one, two);
    assert_same!(rt; store.place(), 4);
    assert_same!(rt; store.rotate_above(rt, 4), Ok(Rotation::Enough));
    assert_same!(rt; store.rotate_above(rt, 3), Ok(Rotation::Done));
    assert_same!(rt; store.rotate_above(rt, 3), Ok(Rotation::Enough));
    assert_same!(rt; store.put(rt, 4, FOURTH, 30), Ok(PutReply::Done));
    assert_same!(rt; store.place(), 5);
    assert_same!(rt; store.rotate_above(rt, 2), Ok(Rotation::Done));
    assert_same!(rt; store.put(rt, 4, FOURTH, 30).is_ok(), true);
    assert_same!(rt; store.place(), 6);
    let (lost, disk, spare) = drives(rt, store.close());
    assert_same!(rt; lost, None);
    (disk, spare)
}

#[test]
fn a_store_goes_over_to_its_second_file_and_back(rt: HostRuntime) {
    let alloc = rt.alloc();
    let (one, two) = (disk_with(&rt, alloc, &[]), disk_with(&rt, alloc, &[]));
    let (one, two) = goes_over_and_back::<FlatIndex, MemDisk, _>(&rt, alloc, one, two);
    expect_bytes(&rt, alloc, &one, GONE_ON);
    expect_bytes(&rt, alloc, &two, EMPTY);
    let found = (3, Some(30), 3, FIRST_TWO_AND_FOURTH);
    expect_in(&rt, alloc, one, two, (Which::First, found));
}

// A store without a second file, and one without a log.
fn says_so<I: Index, D: LogDisk, R: Wait + Abort>(rt: &R, alloc: Global, one: D) {
    let Ok((mut store, _)) = FileStore::<I, D>::open_file(alloc, one, "one.log", 4) else {
        rt.panic("no store is opened")
    };
    let _ = store.put(rt, 4, FOURTH, 30);
    assert_same!(rt; store.rotate_above(rt, 0), Ok(Rotation::NoSpare));
    assert_same!(rt; store.rotate_above(rt, 1), Ok(Rotation::Enough));
    store.close();
    let Ok(mut store) = MemoryStore::<I>::in_memory(alloc, 4) else {
        rt.panic("no memory")
    };
    assert_same!(rt; store.rotate_above(rt, 0), Ok(Rotation::NoSpare));
    store.close();
}

#[test]
fn a_store_without_a_second_file_says_so(rt: HostRuntime) {
    let alloc = rt.alloc();
    let one = disk_with(&rt, alloc, &[]);
    says_so::<FlatIndex, MemDisk, _>(&rt, alloc, one);
}

// What a put was told, why the close may lack records, and both drives.
type Failed<D> = (Result<PutReply, CallFault>, Option<SyncCause>, D, D);

// A rotation that fails: by hand, for this reason, or by the first call of a session, as the log has more than three
// records. That call is refused, and so is the next one.
fn failed<I: Index, D: LogDisk, O: Start, R: Wait + Abort>(
    rt: &R,
    mut store: RotatingStore<I, D, O>,
    by_hand: Option<NotRotatedOver>,
) -> Failed<D> {
    fill(rt, &mut store);
    match by_hand {
        Some(cause) => assert_same!(rt; store.rotate_above(rt, 0), Err(cause)),
        None => store.set_most_records(rt, 3),
    }
    let put = store.session(9).put(rt, 4, FOURTH, 30);
    assert_same!(rt; store.put(rt, 4, FOURTH, 30), put);
    let (lost, disk, spare) = drives(rt, store.close());
    (put, lost, disk, spare)
}

// The writes and syncs of a rotation on the second drive. Before it a write and two syncs created and opened its log,
// and the clearing made none. Each has the file over which the store is found afterwards, and its records.
const ON_SPARE: &[(DiskCall, u64, Which, u64)] = &[
    (DiskCall::Write, 2, Which::First, 4),
    (DiskCall::Sync, 3, Which::First, 4),
    (DiskCall::Write, 3, Which::First, 4),
    (DiskCall::Sync, 4, Which::First, 4),
    (DiskCall::Write, 4, Which::First, 4),
    (DiskCall::Sync, 5, Which::Second, 2),
];

fn stops<R: Wait + Abort>(
    rt: &R,
    alloc: Global,
    failing: Fail,
    by_hand: Option<NotRotatedOver>,
    wanted: (Which, u64),
) {
    let one = disk_with(rt, alloc, &[]);
    let two = disk_of(rt, alloc, &[], &[failing]);
    let store = open::<FlatIndex, MemDisk, R>(rt, alloc, one, two);
    let (put, lost, one, two) = failed(rt, store, by_hand);
    assert_same!(rt; put, Err(CallFault::Closed { cell: 4 }));
    assert_same!(rt; lost, Some(SyncCause::Closed { cell: 4 }));
    expect_bytes(rt, alloc, &one, FILLED);
    let (which, records) = wanted;
    let found = (2, Some(20), records, FIRST_TWO);
    expect_in(rt, alloc, one, two, (which, found));
}

#[test]
fn a_second_drive_that_fails_stops_the_store(rt: HostRuntime) {
    for (call, number, which, records) in ON_SPARE {
        let failing = Fail {
            call: *call,
            number: *number,
        };
        let (by_hand, wanted) = (Some(NotRotatedOver::SpareFailed), (*which, *records));
        stops(&rt, rt.alloc(), failing, by_hand, wanted);
        stops(&rt, rt.alloc(), failing, None, wanted);
    }
}

fn stops_in_its_second_file<R: Wait + Abort>(
    rt: &R,
    alloc: Global,
    failing: Fail,
    by_hand: Option<NotRotatedOver>,
) {
    let one = disk_of(rt, alloc, &[], &[failing]);
    let two = disk_with(rt, alloc, &[]);
    let store = open::<FlatIndex, MemDisk, R>(rt, alloc, one, two);
    let (put, lost, two, one) = failed(rt, store, by_hand);
    assert_same!(rt; put, Err(CallFault::Closed { cell: 2 }));
    assert_same!(rt; lost, Some(SyncCause::Closed { cell: 2 }));
    expect_bytes(rt, alloc, &two, ANEW);
    let found = (2, Some(20), 2, FIRST_TWO);
    expect_in(rt, alloc, one, two, (Which::Second, found));
}

#[test]
fn a_first_drive_that_fails_stops_the_store(rt: HostRuntime) {
    for (call, number) in ON_FIRST {
        let failing = Fail {
            call: *call,
            number: *number,
        };
        let by_hand = Some(NotRotatedOver::FirstFailed);
        stops_in_its_second_file(&rt, rt.alloc(), failing, by_hand);
        stops_in_its_second_file(&rt, rt.alloc(), failing, None);
    }
}

// The first write creates the log, and the second one is that of the records that waited.
const SYNC_FAILS: &[Fail] = &[Fail {
    call: DiskCall::Write,
    number: 2,
}];

fn stops_unsynced<R: Wait + Abort>(rt: &R, alloc: Global, by_hand: Option<NotRotatedOver>) {
    let one = failing_disk(rt, alloc, &[], SYNC_FAILS);
    let two = disk_with(rt, alloc, &[]);
    let store = open_waiting::<FlatIndex, MemDisk, R>(rt, alloc, one, two);
    let (put, lost, one, two) = failed(rt, store, by_hand);
    assert_same!(rt; put, Err(CallFault::Closed { cell: 0 }));
    assert_same!(rt; lost, Some(SyncCause::Closed { cell: 0 }));
    expect_bytes(rt, alloc, &two, EMPTY);
    expect_in(rt, alloc, one, two, (Which::First, NOTHING));
}

#[test]
fn a_first_drive_that_fails_before_the_fresh_log_stops_the_store(rt: HostRuntime) {
    stops_unsynced(&rt, rt.alloc(), Some(NotRotatedOver::Unsynced));
    stops_unsynced(&rt, rt.alloc(), None);
}

// The calls that empty the first log: see `rotations`.
const ON_FIRST: &[(DiskCall, u64)] = &[
    (DiskCall::Write, 10),
    (DiskCall::Sync, 11),
    (DiskCall::Cut, 1),
    (DiskCall::Sync, 12),
];

// A store whose second file has records already, which `open_pair` would refuse.
fn filled_beside<I: Index, D: LogDisk, R: Wait + Abort>(
    rt: &R,
    alloc: Global,
    one: D,
    two: D,
) -> Pair<I, D> {
    let Ok(opened) = open_store::<I, D>(alloc, one, "one.log", 4) else {
        rt.panic("no store is opened")
    };
    let OpenedStore {
        store,
        pass,
        points: _,
        latest: _,
        records: _,
    } = opened;
    let Ok((store, pass)) = let_rotate(rt, alloc, store, pass, two) else {
        rt.panic("no memory")
    };
    let mut store = ObjectStore::from_parts(alloc, store, pass);
    fill(rt, &mut store);
    store
}

// The store goes on over its own file.
fn stays<I: Index, D: LogDisk, R: Wait + Abort>(rt: &R, alloc: Global, one: D, two: D) -> (D, D) {
    let mut store = filled_beside::<I, D, R>(rt, alloc, one, two);
    let cause = RotateCause::InUse { len: 113 };
    let stays = NotRotatedOver::Stays {
        cause: StayCause::Refused { cause },
    };
    assert_same!(rt; store.rotate_above(rt, 0), Err(stays));
    assert_same!(rt; store.put(rt, 4, FOURTH, 30), Ok(PutReply::Done));
    assert_same!(rt; store.place(), 5);
    let (lost, disk, spare) = drives(rt, store.close());
    assert_same!(rt; lost, None);
    (disk, spare)
}

#[test]
fn a_second_file_in_use_is_left_alone(rt: HostRuntime) {
    let alloc = rt.alloc();
    let (one, two) = (disk_with(&rt, alloc, &[]), disk_with(&rt, alloc, GONE_ON));
    let (one, two) = stays::<FlatIndex, MemDisk, _>(&rt, alloc, one, two);
    expect_bytes(&rt, alloc, &one, FILLED_AND_ON);
    expect_bytes(&rt, alloc, &two, GONE_ON);
    assert_same!(&rt; two.moments(), 0);
}

// Where the first object is after so many moves.
fn after_moves(moves: u64) -> Stamped {
    let x = 3_u32.saturating_add((moves % 1_000) as u32);
    Stamped {
        at: Point { x, y: 5 },
        moment: moves.saturating_add(10),
    }
}

// So many moves of the first object, after these. Returns how many were answered as by a plain list.
fn move_on<I: Index, D: LogDisk, O: Start, R: Wait>(
    rt: &R,
    store: &mut ObjectStore<I, D, O>,
    moves: u64,
    count: u64,
) -> u64 {
    let mut good = 0u64;
    for number in moves..moves.saturating_add(count) {
        let now = after_moves(number.saturating_add(1));
        let told = store.move_to(rt, 1, now.at, now.moment);
        let is_good = told == Ok(MoveReply::From(after_moves(number)));
        good = good.saturating_add(u64::from(is_good));
    }
    good
}

// The same as a batch.
fn moves_from(alloc: Global, moves: u64, count: u64) -> Result<Batch, NotAdded> {
    let mut batch = Batch::new(alloc);
    for number in moves..moves.saturating_add(count) {
        let now = after_moves(number.saturating_add(1));
        batch.move_to(1, now.at, now.moment)?;
    }
    Ok(batch)
}

// Executes a batch. Returns the place of its last call.
fn apply<I: Index, D: LogDisk, O: Start, R: Wait + Abort>(
    rt: &R,
    store: &mut ObjectStore<I, D, O>,
    batch: Result<Batch, NotAdded>,
) -> Result<u64, CallFault> {
    let batch = batch.ok().expect(rt, "no batch is made");
    Ok(store.apply(rt, &batch)?.place)
}

// How many records the log has.
fn records_of<I: Index, D: LogDisk, O: Start, R: Wait>(
    rt: &R,
    store: &mut ObjectStore<I, D, O>,
) -> u64 {
    let room = store.room(rt).records.unwrap_or(0);
    MOST_CELLS.saturating_sub(room)
}

// A store whose log may have 64 records. Its rows 256 and 512 look. The fresh log has two records. Row 256 is that of a
// move. The first batch has the rows up to 399, and the second one those up to 519.
fn goes_over_by_itself<I: Index, D: LogDisk, R: Wait + Abort>(
    rt: &R,
    alloc: Global,
    one: D,
    two: D,
) -> (D, D) {
    let mut store = filled::<I, D, R>(rt, alloc, one, two);
    store.set_most_records(rt, 64);
    assert_same!(rt; move_on(rt, &mut store, 0, 252), 252);
    assert_same!(rt; records_of(rt, &mut store), 256);
    assert_same!(rt; move_on(rt, &mut store, 252, 44), 44);
    assert_same!(rt; (store.place(), records_of(rt, &mut store)), (300, 46));
    let told = apply(rt, &mut store, moves_from(alloc, 296, 100));
    assert_same!(rt; (told, records_of(rt, &mut store)), (Ok(400), 146));
    let told = apply(rt, &mut store, moves_from(alloc, 396, 120));
    assert_same!(rt; (told, records_of(rt, &mut store)), (Ok(520), 122));
    assert_same!(rt; store.find(rt, 1), Ok(Some(after_moves(516))));
    let (lost, disk, spare) = drives(rt, store.close());
    assert_same!(rt; lost, None);
    (disk, spare)
}

#[test]
fn a_store_goes_over_by_itself(rt: HostRuntime) {
    let alloc = rt.alloc();
    let (one, two) = (large_disk(&rt, alloc), large_disk(&rt, alloc));
    let (one, two) = goes_over_by_itself::<FlatIndex, MemDisk, _>(&rt, alloc, one, two);
    assert_same!(&rt; one.bytes().len(), 17 + 122 * 32);
    expect_bytes(&rt, alloc, &two, EMPTY);
}

// A batch of 256 finds, one of which looks. It writes no record.
fn finds(alloc: Global) -> Result<Batch, NotAdded> {
    let mut batch = Batch::new(alloc);
    for _ in 0..256u32 {
        batch.find(1)?;
    }
    Ok(batch)
}

// A store whose log may have 64 records, with a second file in use. The first batch finds 104 records and tries to let
// the store go over, which is refused. The next two find at most eight more, and don't try. The last one finds nine
// more and tries. Then the second drive fails.
fn tries_again<I: Index, D: LogDisk, R: Wait + Abort>(
    rt: &R,
    alloc: Global,
    one: D,
    two: D,
) -> (D, D) {
    let mut store = filled_beside::<I, D, R>(rt, alloc, one, two);
    store.set_most_records(rt, 64);
    assert_same!(rt; move_on(rt, &mut store, 0, 100), 100);
    assert_same!(rt; apply(rt, &mut store, finds(alloc)), Ok(360));
    assert_same!(rt; apply(rt, &mut store, finds(alloc)), Ok(616));
    assert_same!(rt; move_on(rt, &mut store, 100, 8), 8);
    assert_same!(rt; apply(rt, &mut store, finds(alloc)), Ok(880));
    assert_same!(rt; move_on(rt, &mut store, 108, 1), 1);
    let closed = CallFault::Closed { cell: 113 };
    assert_same!(rt; apply(rt, &mut store, finds(alloc)), Err(closed));
    let (lost, disk, spare) = drives(rt, store.close());
    assert_same!(rt; lost, Some(SyncCause::Closed { cell: 113 }));
    (disk, spare)
}

// The drive fails when its length is asked for again.
const LEN_FAILS: &[Fail] = &[Fail {
    call: DiskCall::Len,
    number: 2,
}];

#[test]
fn a_store_that_stays_tries_again_after_an_eighth(rt: HostRuntime) {
    let alloc = rt.alloc();
    let (one, two) = (
        large_disk(&rt, alloc),
        failing_disk(&rt, alloc, GONE_ON, LEN_FAILS),
    );
    let (one, two) = tries_again::<FlatIndex, MemDisk, _>(&rt, alloc, one, two);
    assert_same!(&rt; one.bytes().len(), 17 + 113 * 32);
    expect_bytes(&rt, alloc, &two, GONE_ON);
}

// A store goes over with one record in its file, and three that wait. They are written to the first file before the
// fresh log is begun. Otherwise both files would have records, and different objects, until the first log is emptied.
fn waits_and_goes_over<I: Index, D: LogDisk, R: Wait + Abort>(
    rt: &R,
    alloc: Global,
    one: D,
    two: D,
) -> RotatingStore<I, D, AtSync> {
    let mut store = open_waiting::<I, D, R>(rt, alloc, one, two);
    let _ = store.put(rt, 1, Point { x: 3, y: 5 }, 10);
    assert_same!(rt; store.sync(rt), Ok(1));
    fill(rt, &mut store);
    assert_same!(rt; store.rotate_above(rt, 0), Ok(Rotation::Done));
    assert_same!(rt; store.sync(rt), Ok(5));
    store
}

// The same with a put after it.
fn waits_and_goes_on<I: Index, D: LogDisk, R: Wait + Abort>(
    rt: &R,
    alloc: Global,
    one: D,
    two: D,
) -> (D, D) {
    let mut store = waits_and_goes_over::<I, D, R>(rt, alloc, one, two);
    assert_same!(rt; store.put(rt, 4, FOURTH, 30), Ok(PutReply::Done));
    let (lost, disk, spare) = drives(rt, store.close());
    assert_same!(rt; lost, None);
    (disk, spare)
}

#[test]
fn records_that_wait_are_in_the_fresh_log(rt: HostRuntime) {
    let alloc = rt.alloc();
    let (one, two) = (disk_with(&rt, alloc, &[]), disk_with(&rt, alloc, &[]));
    let (two, one) = waits_and_goes_on::<FlatIndex, MemDisk, _>(&rt, alloc, one, two);
    expect_bytes(&rt, alloc, &two, GONE_ON);
    expect_bytes(&rt, alloc, &one, EMPTY);
}

// How many writes, syncs and cuts created and opened a log, those of the first drive when the records that waited are
// written and after its log is emptied, and those of the second drive in all. An append takes four, and so does the
// emptying.
const OPENED: u64 = 3;

const WRITTEN: u64 = 11;

const EMPTIED: u64 = 15;

const IN_ALL: u64 = 9;

// A crash at each moment of one drive after the records that waited are written, while no call reaches the other drive.
#[test]
fn a_crash_leaves_the_records_that_waited(rt: HostRuntime) {
    let alloc = rt.alloc();
    let (one, two) = (disk_with(&rt, alloc, &[]), disk_with(&rt, alloc, &[]));
    let store = waits_and_goes_over::<FlatIndex, MemDisk, _>(&rt, alloc, one, two);
    let (_, two, one) = drives(&rt, store.close());
    assert_same!(&rt; [one.moments(), two.moments()], [EMPTIED, IN_ALL]);
    for moment in OPENED..10 {
        expect_after_crashes(&rt, alloc, (&one, WRITTEN), (&two, moment));
    }
    for moment in WRITTEN..16 {
        expect_after_crashes(&rt, alloc, (&one, moment), (&two, IN_ALL));
    }
}

// How many objects a worker moves, and how often it reports each.
const OBJECTS: u64 = 16;

const ROUNDS: u64 = 24;

// How many reports a worker makes.
const REPORTS: u64 = 384;

// A worker that reports the positions of objects of its own, and lets the store go over to its second file if the log
// has more than so many records.
#[derive(Drop)]
struct Mover {
    first: u64,
    records: u64,
    good: u64,
    rotations: u64,
}

fn mover_from(first: u64, records: u64) -> Mover {
    Mover {
        first,
        records,
        good: 0,
        rotations: 0,
    }
}

// Where an object is in a round.
fn spot(id: u64, round: u64) -> Point {
    let (id, round) = ((id % 1_000) as u32, (round % 1_000) as u32);
    Point {
        x: id.wrapping_mul(1_000).wrapping_add(round),
        y: id.wrapping_mul(7).wrapping_add(round),
    }
}

impl<R: Wait> Work<R> for Mover {
    fn work<I: Index, D: LogDisk, O: Start>(&mut self, rt: &R, client: &mut Client<'_, I, D, O>)
        ensures client { Keeps client.old client.new }
    {
        for call in 0..REPORTS {
            let (id, round) = (self.first.saturating_add(call % OBJECTS), call / OBJECTS);
            let told = client.report(rt, id, spot(id, round), round);
            self.good = self.good.saturating_add(u64::from(told.is_ok()));
            let rotated = client.rotate_above(rt, self.records);
            let is_done = rotated == Ok(Rotation::Done);
            self.rotations = self.rotations.saturating_add(u64::from(is_done));
        }
    }
}

// How many reports of movers were answered, and how often they let the store go over.
fn sums_of(movers: &[Mover]) -> (u64, u64) {
    let (mut good, mut rotations) = (0u64, 0u64);
    for mover in movers {
        good = good.saturating_add(mover.good);
        rotations = rotations.saturating_add(mover.rotations);
    }
    (good, rotations)
}

// Four movers at once. Returns how many reports were answered, how often the store went over, and both drives.
fn moves_at_once<I: Index + Send, D: LogDisk + Send, R: Threads + Wait + Sync + Abort>(
    rt: &R,
    alloc: Global,
    one: D,
    two: D,
) -> (u64, u64, D, D) {
    let mut store = open::<I, D, R>(rt, alloc, one, two);
    let movers = [100, 200, 300, 400].map(|first| mover_from(first, 400));
    let movers = Vec::from_array(alloc, movers).expect(rt, "no memory");
    let Ok(movers) = store.work_all(rt, 1, movers) else {
        rt.panic("no team works")
    };
    let (good, rotations) = sums_of(movers.as_slice());
    let (lost, disk, spare) = drives(rt, store.close());
    assert_same!(rt; lost, None);
    (good, rotations, disk, spare)
}

// How many of a mover's objects are where its last round left them.
fn found_of<I: Index, D: LogDisk, O: Start, R: Wait>(
    rt: &R,
    store: &mut ObjectStore<I, D, O>,
    first: u64,
) -> u64 {
    let mut found = 0u64;
    for number in 0..OBJECTS {
        let id = first.saturating_add(number);
        let kept = store.find(rt, id).ok();
        let is_there = kept.flatten().map(|kept| kept.at) == Some(spot(id, ROUNDS - 1));
        found = found.saturating_add(u64::from(is_there));
    }
    found
}

fn finds_all<I: Index, D: LogDisk, R: Wait + Abort>(rt: &R, alloc: Global, one: D, two: D) {
    let opened = FileStore::<I, D>::open_pair(alloc, one, "one.log", two, "two.log", 4);
    let Ok(
        OpenedPair {
            mut store,
            spare: _,
            which: _,
            found,
        },
    ) = opened
    else {
        rt.panic("neither file is opened")
    };
    assert_same!(rt; found.objects, 64);
    let found = [100, 200, 300, 400].map(|first| found_of(rt, &mut store, first));
    assert_same!(rt; found, [OBJECTS; 4]);
    store.close();
}

// A drive for some thousand calls.
fn large_disk(rt: &impl Abort, alloc: Global) -> MemDisk {
    let failing = Vec::new(alloc);
    MemDisk::new(alloc, Vec::new(alloc), 1 << 20, 1 << 15, failing).expect(rt, "no drive")
}

#[test]
fn clients_let_a_store_go_over_while_others_call(rt: HostRuntime) {
    let alloc = rt.alloc();
    let (one, two) = (large_disk(&rt, alloc), large_disk(&rt, alloc));
    let (good, rotations, one, two) = moves_at_once::<KdTrie, MemDisk, _>(&rt, alloc, one, two);
    assert_same!(rt; good, 1_536);
    assert_is!(rt; rotations > 2);
    finds_all::<KdTrie, MemDisk, _>(&rt, alloc, one, two);
}

// A mover that lets no store go over by hand, at a store whose log may have 64 records. Its client's row 256 looks.
// After that the log has fewer records than the mover makes reports.
fn goes_over_in_a_call<I: Index + Send, D: LogDisk + Send, R: Threads + Wait + Sync + Abort>(
    rt: &R,
    alloc: Global,
    one: D,
    two: D,
) -> ClosedPair<D> {
    let mut store = open::<I, D, R>(rt, alloc, one, two);
    store.set_most_records(rt, 64);
    let movers = Vec::from_array(alloc, [mover_from(100, u64::MAX)]).expect(rt, "no memory");
    let Ok(movers) = store.work_all(rt, 1, movers) else {
        rt.panic("no team works")
    };
    assert_same!(rt; sums_of(movers.as_slice()), (REPORTS, 0));
    assert_is!(rt; records_of(rt, &mut store) < REPORTS);
    assert_same!(rt; found_of(rt, &mut store, 100), OBJECTS);
    store.close()
}

#[test]
fn a_client_lets_its_store_go_over(rt: HostRuntime) {
    let alloc = rt.alloc();
    let (one, two) = (large_disk(&rt, alloc), large_disk(&rt, alloc));
    let closed = goes_over_in_a_call::<KdTrie, MemDisk, _>(&rt, alloc, one, two);
    let (lost, two, one) = drives(&rt, closed);
    assert_same!(&rt; lost, None);
    expect_bytes(&rt, alloc, &one, EMPTY);
    assert_is!(&rt; two.bytes().len() > 17);
}
