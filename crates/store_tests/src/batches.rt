//! Batches of a client: what each call of the builder adds, a batch that is too long, batches of threads, and a batch
//! over a drive that fails.
ghost use Rattle.std.specs.Prelude.{◌≡◌, ◌<◌, vec_len};
ghost use Rattle.store_client.specs.Caller.{IsFree, Keeps};

use crate::files::Open;
use crate::logs::{END, HEADER, PUT_1, PUT_2, PUT_4, expect_bytes, failing_disk};
use crate::stores::{events_of, new_store};
use book_lock::Pass;
use disk_mem::{DiskCall, Fail, MemDisk};
use disk_trait::LogDisk;
use flat_index::FlatIndex;
use index_layer::Index;
use plain_list::{Answer, Entries, Entry};
use sessions::{CallFault, SharedBook, Split, Start, Store};
use std::alloc::Global;
use std::process::Abort;
use std::sync::Wait;
use std::thread::Threads;
use store_client::{Batch, Change, Client, MOST_BATCH, NotAdded, Work};
use store_file::{OpenedStore, OverFile, open_store};
use zorder::Point;

const HERE: Point = Point { x: 5, y: 5 };

const THERE: Point = Point { x: 8, y: 9 };

// The word for an answer.
fn word(answer: &Answer) -> &'static str {
    match answer {
        Answer::Done => "done",
        Answer::Present(_) => "present",
        Answer::Full => "full",
        Answer::Moved(_) => "moved",
        Answer::Stale(_) => "stale",
        Answer::Gone(_) => "gone",
        Answer::At(_) => "at",
        Answer::Absent => "absent",
        Answer::Found(_) => "found",
        Answer::Many(_) => "many",
    }
}

// A report has a move and a put, and a setting has a removal and a put.
fn fill(batch: &mut Batch) -> Result<(), NotAdded> {
    batch.report(1, HERE, 10)?;
    batch.report(1, THERE, 12)?;
    batch.put(2, HERE, 9)?;
    batch.set(2, THERE, 4)?;
    batch.move_to(2, HERE, 3)?;
    batch.find(1)?;
    batch.remove(1)?;
    batch.remove(1)
}

const WORDS: [&str; 11] = [
    "absent", "done", "moved", "present", "done", "gone", "done", "stale", "at", "gone", "absent",
];

fn filled(rt: &impl Abort, alloc: Global) -> Batch {
    let mut batch = Batch::new(alloc);
    fill(&mut batch).ok().expect(rt, "no batch is made");
    batch
}

// Whether a batch was answered by these words, and the place of its last call.
fn answered<I: Index, D: LogDisk, O: Start, R: Wait>(
    rt: &R,
    client: &mut Client<'_, I, D, O>,
    batch: &Batch,
    words: &[&'static str],
) -> Result<(bool, u64), CallFault>
    ensures { Keeps client.old client.new }
{
    let replies = client.apply(rt, batch)?;
    let is_told = replies.answers.iter().map(word).eq(words.iter().copied());
    Ok((is_told, replies.place))
}

fn answers_each<I: Index, D: LogDisk, R: Wait + Abort>(rt: &R, alloc: Global) {
    let batch = filled(rt, alloc);
    let (store, pass) = new_store::<I, D>(rt, alloc);
    let mut client = Client::new(&store, alloc, pass, 7);
    let told = answered(rt, &mut client, &batch, &WORDS);
    let none = answered(rt, &mut client, &Batch::new(alloc), &[]);
    let place = client.place();
    let left = client.find(rt, 2);
    let pass = client.into_pass();
    store.close(pass);
    assert_same!(rt; (told, none, place), (Ok((true, 11)), Ok((true, 11)), 11));
    assert_same!(rt; left.map(|found| found.map(|kept| kept.at)), Ok(Some(THERE)));
}

#[test]
fn a_batch_is_answered_operation_by_operation(rt: HostRuntime) {
    answers_each::<FlatIndex, MemDisk, _>(&rt, rt.alloc());
}

// What a batch has changed.
fn changed<I: Index, D: LogDisk, O: Start, R: Wait>(
    rt: &R,
    alloc: Global,
    client: &mut Client<'_, I, D, O>,
    batch: &Batch,
) -> Option<Vec<Change>>
    ensures { Keeps client.old client.new }
{
    let replies = client.apply(rt, batch).ok()?;
    replies.changes(alloc, batch).ok()
}

// What a batch has changed that comes after another call.
fn changes_second<I: Index, D: LogDisk, R: Wait + Abort>(rt: &R, alloc: Global) -> Vec<Change> {
    let batch = filled(rt, alloc);
    let (store, pass) = new_store::<I, D>(rt, alloc);
    let mut client = Client::new(&store, alloc, pass, 7);
    let _ = client.put(rt, 9, HERE, 0);
    let changes = changed(rt, alloc, &mut client, &batch);
    let pass = client.into_pass();
    store.close(pass);
    changes.expect(rt, "no memory")
}

// A change of an object.
fn change(place: u64, id: u64, before: Option<Point>, after: Option<Point>) -> Change {
    Change {
        place,
        id,
        before,
        after,
    }
}

#[test]
fn a_batch_tells_what_it_has_changed(rt: HostRuntime) {
    let (here, there) = (Some(HERE), Some(THERE));
    let wanted = [
        change(3, 1, None, here),
        change(4, 1, here, there),
        change(6, 2, None, here),
        change(7, 2, here, None),
        change(8, 2, None, there),
        change(11, 1, there, None),
    ];
    let changes = changes_second::<FlatIndex, MemDisk, _>(&rt, rt.alloc());
    assert_same!(rt; changes.as_slice(), wanted.as_slice());
}

// Puts of so many objects at points of their own.
fn puts(alloc: Global, count: u32) -> Result<Batch, NotAdded> {
    let mut batch = Batch::new(alloc);
    for x in 0..count {
        batch.put(u64::from(x), Point { x, y: x }, 0)?;
    }
    Ok(batch)
}

// How many entries there are after a batch of puts, and whether its first split was installed.
fn entries_of_puts<I: Index, D: LogDisk, R: Wait + Abort>(
    rt: &R,
    alloc: Global,
    count: u32,
) -> (u64, bool) {
    let batch = puts(alloc, count).ok().expect(rt, "no batch is made");
    let (store, pass) = new_store::<I, D>(rt, alloc);
    let mut client = Client::new(&store, alloc, pass, 7);
    let replies = client.apply(rt, &batch).ok();
    let pass = client.into_pass();
    let entries = events_of(store.close(pass));
    let split = replies.and_then(|replies| replies.split);
    (entries, split == Some(Split::Installed { number: 1 }))
}

// A leaf should have four objects. One split is tried after a batch, and one more for each 64 operations. Each has two
// entries.
#[test]
fn a_long_batch_splits_more_leaves(rt: HostRuntime) {
    for (count, entries, is_split) in [(4, 4, false), (10, 12, true), (200, 208, true)] {
        let told = entries_of_puts::<FlatIndex, MemDisk, _>(&rt, rt.alloc(), count);
        assert_same!(rt; told, (entries, is_split));
    }
}

// Adds finds until the batch is full.
fn fill_up(batch: &mut Batch) -> Result<(), NotAdded> {
    for id in 0..MOST_BATCH as u64 {
        batch.find(id)?;
    }
    Ok(())
}

#[test]
fn a_batch_has_a_limit(rt: HostRuntime) {
    let mut batch = Batch::new(rt.alloc());
    assert_is!(rt; batch.is_empty());
    fill_up(&mut batch).ok().expect(&rt, "no memory");
    assert_same!(rt; batch.find(7), Err(NotAdded::TooLong));
    assert_same!(rt; batch.set(7, HERE, 0), Err(NotAdded::TooLong));
    assert_same!(rt; (batch.len(), MOST_BATCH), (65_536, 65_536));
    batch.clear();
    assert_same!(rt; batch.len(), 0);
}

// A work that reports an object of its own and finds it, fifty times.
#[derive(Drop)]
struct Reporter {
    id: u64,
    batch: Batch,
    right: usize,
}

impl<R: Wait> Work<R> for Reporter {
    fn work<I: Index, D: LogDisk, O: Start>(&mut self, rt: &R, client: &mut Client<'_, I, D, O>)
        ensures client { Keeps client.old client.new }
    {
        for number in 0..50 {
            let words = if number == 0 {
                ["absent", "done", "at"]
            } else {
                ["moved", "present", "at"]
            };
            if answered(rt, client, &self.batch, &words).is_ok_and(|told| told.0) {
                self.right = self.right.saturating_add(1);
            }
        }
    }
}

fn who_reports(rt: &impl Abort, alloc: Global, id: u64) -> Reporter {
    let mut batch = Batch::new(alloc);
    batch.report(id, HERE, 1).ok().expect(rt, "no memory");
    batch.find(id).ok().expect(rt, "no memory");
    Reporter {
        id,
        batch,
        right: 0,
    }
}

// The session and the row of a call.
fn call_of(entry: &Entry) -> Option<(u8, u32)> {
    match entry {
        Entry::Call { session, row, .. } => Some((*session, *row)),
        _ => None,
    }
}

// Whether the calls come three by three, each three from one session and with rows that follow one another.
fn come_by_three(calls: &[(u8, u32)]) -> bool {
    calls.chunks(3).all(|three| match three {
        [one, two, three] => follows(one, two) && follows(two, three),
        _ => false,
    })
}

fn follows(one: &(u8, u32), two: &(u8, u32)) -> bool {
    one.0 == two.0 && one.1.saturating_add(1) == two.1
}

fn play<I: Index + Send, D: LogDisk + Send, R: Threads + Wait + Sync + Abort>(
    rt: &R,
    alloc: Global,
    reporters: Vec<Reporter>,
) -> (Option<Vec<Reporter>>, Entries)
    requires { vec_len reporters < 65536 }
{
    let (store, pass) = new_store::<I, D>(rt, alloc);
    let mut client = Client::new(&store, alloc, pass, 7);
    let done = client.work_all(rt, 1, reporters);
    let pass = client.into_pass();
    (done.ok(), store.close(pass).into_parts().entries)
}

// How many batches of a team were answered as they should be.
fn right_of(reporters: &[Reporter]) -> usize {
    let right = reporters.iter().map(|reporter| reporter.right);
    right.fold(0, usize::saturating_add)
}

fn are_never_cut<R: Threads + Wait + Sync + Abort>(rt: &R, alloc: Global, reporters: Vec<Reporter>)
    requires { vec_len reporters < 65536 }
{
    let (done, entries) = play::<FlatIndex, MemDisk, R>(rt, alloc, reporters);
    let calls = entries.as_slice().iter().filter_map(call_of).collect(alloc);
    let calls: Vec<(u8, u32)> = calls.expect(rt, "no memory");
    assert_same!(rt; calls.len(), 600);
    assert_is!(rt; come_by_three(calls.as_slice()));
    assert_same!(rt; done.map(|done| right_of(done.as_slice())), Some(200));
}

// Four threads make 50 batches each. All calls of a batch follow one another in the history.
#[test]
fn a_batch_of_a_thread_is_never_cut(rt: HostRuntime) {
    let reporters = [
        who_reports(&rt, rt.alloc(), 1),
        who_reports(&rt, rt.alloc(), 2),
        who_reports(&rt, rt.alloc(), 3),
        who_reports(&rt, rt.alloc(), 4),
    ];
    let reporters = Vec::from_array(rt.alloc(), reporters).expect(&rt, "no memory");
    are_never_cut(&rt, rt.alloc(), reporters);
}

// The puts of the objects 1 and 2, as in the worked logs.
fn two_puts(rt: &impl Abort, alloc: Global) -> Batch {
    let mut batch = Batch::new(alloc);
    let one = batch.put(1, Point { x: 3, y: 5 }, 10);
    one.ok().expect(rt, "no memory");
    let two = batch.put(2, Point { x: 4, y: 4 }, 20);
    two.ok().expect(rt, "no memory");
    batch
}

fn open<I: Index, D: LogDisk>(rt: &impl Abort, alloc: Global, disk: D) -> Open<I, D>
    ensures free { IsFree result.0 result.1 }
    ensures parts { result.1.parts ≡ 65536 }
{
    let Ok(opened) = open_store::<I, D>(alloc, disk, "a.log", 4) else {
        rt.panic("no store is opened")
    };
    let OpenedStore {
        store,
        pass,
        points: _,
        latest: _,
        records: _,
    } = opened;
    (store, pass)
}

type Applied = Result<(bool, u64), CallFault>;

// Applies two puts twice.
fn apply_twice<I: Index, D: LogDisk, R: Wait + Abort>(
    rt: &R,
    alloc: Global,
    store: &Store<I, D, OverFile>,
    pass: Pass<SharedBook<I, D, OverFile>>,
) -> ([Applied; 2], Pass<SharedBook<I, D, OverFile>>)
    requires { IsFree store.now pass }
    ensures free { IsFree store.now result.1 }
    ensures parts { result.1.parts ≡ pass.parts }
{
    let batch = two_puts(rt, alloc);
    let mut client = Client::new(store, alloc, pass, 7);
    let one = answered(rt, &mut client, &batch, &["done", "done"]);
    let two = answered(rt, &mut client, &batch, &["present", "present"]);
    ([one, two], client.into_pass())
}

// The same over the log on a drive. Returns how many entries there were, and the drive.
fn apply_over<I: Index, D: LogDisk, R: Wait + Abort>(
    rt: &R,
    alloc: Global,
    disk: D,
) -> ([Applied; 2], u64, D) {
    let (store, pass) = open::<I, D>(rt, alloc, disk);
    let (told, pass) = apply_twice(rt, alloc, &store, pass);
    let book = store.close(pass);
    let entries = book.events();
    (told, entries, book.into_parts().disk.expect(rt, "no log"))
}

// The same over a log of one record, on a drive of which these calls fail.
fn applies<R: Wait + Abort>(
    rt: &R,
    alloc: Global,
    failing: &[Fail],
) -> ([Applied; 2], u64, MemDisk) {
    let disk = failing_disk(rt, alloc, &[HEADER, PUT_4, END], failing);
    apply_over::<FlatIndex, MemDisk, R>(rt, alloc, disk)
}

#[test]
fn a_batch_is_appended_at_once(rt: HostRuntime) {
    let (told, entries, disk) = applies(&rt, rt.alloc(), &[]);
    assert_same!(rt; told, [Ok((true, 2)), Ok((true, 4))]);
    assert_same!(rt; entries, 4);
    expect_bytes(&rt, rt.alloc(), &disk, &[HEADER, PUT_4, PUT_1, PUT_2, END]);
}

// An opening syncs once. An append writes, syncs, writes and syncs.
const CALLS: &[(DiskCall, u64)] = &[
    (DiskCall::Write, 1),
    (DiskCall::Sync, 2),
    (DiskCall::Write, 2),
    (DiskCall::Sync, 3),
];

#[test]
fn a_batch_that_is_lost_ends_the_history_and_nothing_is_changed(rt: HostRuntime) {
    for (call, number) in CALLS {
        let failing = Fail {
            call: *call,
            number: *number,
        };
        let (told, entries, _disk) = applies(&rt, rt.alloc(), &[failing]);
        let lost = Err(CallFault::Disk { cell: 1 });
        assert_same!(rt; told, [lost, Err(CallFault::Closed { cell: 1 })]);
        assert_same!(rt; entries, 2);
    }
}
