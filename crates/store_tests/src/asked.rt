//! What a program asks of a store: reports one after another, where an object is and since when, a copy with its place,
//! whether the store is closed, and what the last call has changed.
use crate::logs::{END, HEADER, PUT_4, disk_with, failing_disk};
use disk_mem::{DiskCall, Fail, MemDisk};
use disk_trait::LogDisk;
use flat_index::FlatIndex;
use pisrakun::{
    Batch, CallFault, Change, Client, ClosedStore, Errand, FileStore, Index, Lender, Memory,
    MemoryStore, Point, Pool, PutReply, Report, Service, Stamped, Start, WorldAt,
};
use std::alloc::Global;
use std::process::Abort;
use std::sync::Wait;
use std::thread::Threads;

const HERE: Point = Point { x: 5, y: 5 };

const THERE: Point = Point { x: 8, y: 9 };

// A position of an object at one point or the other, and its moment.
macro_rules! here {
    ($moment:expr) => {
        Stamped {
            at: HERE,
            moment: $moment,
        }
    };
}

macro_rules! there {
    ($moment:expr) => {
        Stamped {
            at: THERE,
            moment: $moment,
        }
    };
}

fn memory_store<I: Index>(rt: &impl Abort, alloc: Global) -> MemoryStore<I> {
    let Ok(store) = MemoryStore::<I>::in_memory(alloc, 4) else {
        rt.panic("no store is made")
    };
    store
}

// What four reports of one object are answered, and where it is after them and since when. The last two are made in a
// session of their own. A late report leaves the object, and a report of an equal moment isn't late.
type Reported = ([Option<Report>; 4], Option<Option<Stamped>>);

const REPORTED: Reported = (
    [
        Some(Report::New),
        Some(Report::From(here!(10))),
        Some(Report::Stale(there!(12))),
        Some(Report::From(there!(12))),
    ],
    Some(Some(here!(12))),
);

fn reports<I: Index, R: Wait>(rt: &R, store: &mut MemoryStore<I>) -> Reported {
    let new = store.report(rt, 1, HERE, 10).ok();
    let from = store.report(rt, 1, THERE, 12).ok();
    let mut other = store.session(9);
    let stale = other.report(rt, 1, HERE, 11).ok();
    let equal = other.report(rt, 1, HERE, 12).ok();
    ([new, from, stale, equal], store.find(rt, 1).ok())
}

fn reports_in_memory<I: Index, R: Wait + Abort>(rt: &R, alloc: Global) -> Reported {
    let mut store = memory_store::<I>(rt, alloc);
    let told = reports(rt, &mut store);
    store.close();
    told
}

#[test]
fn a_store_answers_reports_and_tells_since_when_an_object_is_there(rt: HostRuntime) {
    let told = reports_in_memory::<FlatIndex, _>(&rt, rt.alloc());
    assert_same!(rt; told, REPORTED);
}

// The place of a copy, and the ids of its objects.
fn content_of(copied: Result<WorldAt, Memory>) -> Option<(u64, [Option<u64>; 3])> {
    let copied = copied.ok()?;
    let mut ids = copied.world.as_slice().iter().map(|member| member.id);
    Some((copied.place, [ids.next(), ids.next(), ids.next()]))
}

// A client that puts an object, and copies all of them.
#[derive(Drop)]
struct Copier;

impl<R: Wait> Errand<R> for Copier {
    type Answer = Option<(u64, [Option<u64>; 3])>;

    fn run<I: Index, D: LogDisk, O: Start>(
        self,
        rt: &R,
        client: &mut Client<'_, I, D, O>,
    ) -> Option<(u64, [Option<u64>; 3])> {
        let _ = client.put(rt, 2, THERE, 0);
        content_of(client.world_at(rt))
    }
}

// A copy before the first call, one after two calls, and one of a client after one more.
fn copies<I: Index, R: Wait + Abort>(
    rt: &R,
    alloc: Global,
) -> [Option<(u64, [Option<u64>; 3])>; 3] {
    let mut store = memory_store::<I>(rt, alloc);
    let none = content_of(store.world_at(rt));
    let _ = store.put(rt, 7, HERE, 0);
    let _ = store.find(rt, 7);
    let one = content_of(store.world_at(rt));
    let two = store.lend(rt, Copier);
    store.close();
    [none, one, two]
}

#[test]
fn a_copy_tells_its_place(rt: HostRuntime) {
    let told = copies::<FlatIndex, _>(&rt, rt.alloc());
    let wanted = [
        Some((0, [None, None, None])),
        Some((2, [Some(7), None, None])),
        Some((3, [Some(2), Some(7), None])),
    ];
    assert_same!(rt; told, wanted);
}

// A client that asks whether its store is closed.
#[derive(Drop)]
struct Asker;

impl<R: Wait> Errand<R> for Asker {
    type Answer = Option<u64>;

    fn run<I: Index, D: LogDisk, O: Start>(
        self,
        rt: &R,
        client: &mut Client<'_, I, D, O>,
    ) -> Option<u64> {
        client.closed(rt)
    }
}

// The answer to a put behind which a leaf is split, that to the next put, and which record was lost: before both, between
// them by the store and by a client, and at the close.
type Closing = (
    Result<PutReply, CallFault>,
    Result<PutReply, CallFault>,
    [Option<u64>; 4],
);

fn splits<I: Index, D: LogDisk, R: Wait + Abort>(rt: &R, alloc: Global, disk: D) -> Closing {
    let Ok((mut store, _)) = FileStore::<I, D>::open_file(alloc, disk, "a.log", 4) else {
        rt.panic("no store is opened")
    };
    for id in 1..4 {
        let _ = store.put(rt, id, HERE, 0);
    }
    let before = store.closed(rt);
    let fifth = store.put(rt, 5, THERE, 0);
    let (between, by_client) = (store.closed(rt), store.lend(rt, Asker));
    let sixth = store.put(rt, 6, THERE, 0);
    let ClosedStore { lost, disk: _ } = store.close();
    (fifth, sixth, [before, between, by_client, lost])
}

// The log has one object, and a leaf should have four. An append writes twice, so the ninth write is the first one of the
// split that comes after the fifth object.
const SPLIT: &[Fail] = &[Fail {
    call: DiskCall::Write,
    number: 9,
}];

#[test]
fn a_put_whose_split_is_lost_is_answered_and_the_store_tells_that_it_is_closed(rt: HostRuntime) {
    let alloc = rt.alloc();
    let disk = failing_disk(&rt, alloc, &[HEADER, PUT_4, END], SPLIT);
    let told = splits::<FlatIndex, MemDisk, _>(&rt, alloc, disk);
    let lost = Some(5);
    let wanted = (
        Ok(PutReply::Done),
        Err(CallFault::Closed { cell: 5 }),
        [None, lost, lost, lost],
    );
    assert_same!(rt; told, wanted);
}

#[test]
fn a_store_whose_splits_are_done_is_open(rt: HostRuntime) {
    let alloc = rt.alloc();
    let disk = disk_with(&rt, alloc, &[HEADER, PUT_4, END]);
    let told = splits::<FlatIndex, MemDisk, _>(&rt, alloc, disk);
    let done = Ok(PutReply::Done);
    assert_same!(rt; told, (done, done, [None; 4]));
}

// What each of these calls has changed: none yet, a put, a report that moves, a late one, a report of another object, a
// find, a removal, and a batch of a put.
fn changes<I: Index, R: Wait>(
    rt: &R,
    store: &mut MemoryStore<I>,
    batch: &Batch,
) -> [Option<Change>; 8] {
    let none = store.last_change();
    let _ = store.put(rt, 7, HERE, 10);
    let put = store.last_change();
    let _ = store.report(rt, 7, THERE, 12);
    let moved = store.last_change();
    let _ = store.report(rt, 7, HERE, 11);
    let late = store.last_change();
    let _ = store.report(rt, 8, HERE, 11);
    let new = store.last_change();
    let _ = store.find(rt, 7);
    let found = store.last_change();
    let _ = store.remove(rt, 7);
    let gone = store.last_change();
    let _ = store.apply(rt, batch);
    let many = store.last_change();
    [none, put, moved, late, new, found, gone, many]
}

// A report of a new object makes a move and a put, so its change has the second place of the two.
const CHANGED: [Option<Change>; 8] = [
    None,
    Some(Change {
        place: 1,
        id: 7,
        before: None,
        after: Some(HERE),
    }),
    Some(Change {
        place: 2,
        id: 7,
        before: Some(HERE),
        after: Some(THERE),
    }),
    None,
    Some(Change {
        place: 5,
        id: 8,
        before: None,
        after: Some(HERE),
    }),
    None,
    Some(Change {
        place: 7,
        id: 7,
        before: Some(THERE),
        after: None,
    }),
    None,
];

fn one_put(rt: &impl Abort, alloc: Global) -> Batch {
    let mut batch = Batch::new(alloc);
    batch.put(3, HERE, 0).ok().expect(rt, "no batch is made");
    batch
}

fn changes_in_memory<I: Index, R: Wait + Abort>(rt: &R, alloc: Global) -> [Option<Change>; 8] {
    let batch = one_put(rt, alloc);
    let mut store = memory_store::<I>(rt, alloc);
    let told = changes(rt, &mut store, &batch);
    store.close();
    told
}

#[test]
fn a_store_tells_what_its_last_call_has_changed(rt: HostRuntime) {
    let told = changes_in_memory::<FlatIndex, _>(&rt, rt.alloc());
    assert_same!(rt; told, CHANGED);
}

// Puts an object by a client of a pool.
#[derive(Clone, Copy)]
struct Putter {
    change: Option<Change>,
}

impl<R: Wait> Service<R> for Putter {
    fn serve<I: Index, D: LogDisk, O: Start, L: Lender>(
        &mut self,
        rt: &R,
        pool: &Pool<'_, I, D, O, L>,
    ) {
        let mut guest = pool.enter(rt);
        let _ = guest.put(rt, 9, THERE, 0);
        self.change = guest.last_change();
    }
}

// What a put of the store, one of a session and one of a guest have changed, and what the store's last call has at the end.
fn changes_of_others<I: Index + Send, R: Threads + Wait + Sync + Abort>(
    rt: &R,
    alloc: Global,
) -> [Option<Change>; 3] {
    let mut store = memory_store::<I>(rt, alloc);
    let _ = store.put(rt, 7, HERE, 0);
    let mut other = store.session(9);
    let _ = other.put(rt, 8, HERE, 0);
    let by_session = other.last_change();
    let mut crew = [Putter { change: None }];
    let _ = store.pool(rt, 1, 1, &mut crew);
    let [putter] = crew;
    let by_store = store.last_change();
    store.close();
    [by_store, by_session, putter.change]
}

fn put_at(place: u64, id: u64, at: Point) -> Option<Change> {
    Some(Change {
        place,
        id,
        before: None,
        after: Some(at),
    })
}

#[test]
fn a_session_and_a_guest_tell_what_their_own_last_calls_have_changed(rt: HostRuntime) {
    let told = changes_of_others::<FlatIndex, _>(&rt, rt.alloc());
    let wanted = [put_at(1, 7, HERE), put_at(2, 8, HERE), put_at(3, 9, THERE)];
    assert_same!(rt; told, wanted);
}
