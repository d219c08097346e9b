//! Pools: threads that take clients of a store whenever they like, and give them back.
use crate::stores::new_store;
use disk_mem::MemDisk;
use disk_trait::LogDisk;
use pisrakun::{
    Entries, Entry, FileStore, Index, KdTrie, Lender, MemoryStore, NoDrive, ObjectStore, Point,
    Pool, QuadTrie, RotatedStore, Service, Start,
};
use std::alloc::Global;
use std::process::Abort;
use std::sync::Wait;
use std::thread::Threads;

// How many objects each thread puts. All lie so close together that leaves are split again and again.
const PUTS: u64 = 40;

// One of a crew that puts objects of its own, each by a client that it takes for that alone.
#[derive(Clone, Copy)]
struct Putter {
    first: u64,
    good: u64,
}

// Puts an object, and looks it up by the same client.
fn put_one<I: Index, D: LogDisk, O: Start, L: Lender, R: Wait>(
    rt: &R,
    pool: &Pool<'_, I, D, O, L>,
    id: u64,
) -> bool {
    let at = Point {
        x: (id % 16) as u32,
        y: (id % 64) as u32,
    };
    let mut guest = pool.enter(rt);
    let is_put = guest.put(rt, id, at, id).is_ok();
    let found = guest.find(rt, id);
    is_put && found.is_ok_and(|kept| kept.is_some_and(|kept| kept.at == at))
}

fn put_all<I: Index, D: LogDisk, O: Start, L: Lender, R: Wait>(
    rt: &R,
    pool: &Pool<'_, I, D, O, L>,
    first: u64,
) -> u64 {
    let mut good = 0u64;
    for number in 0..PUTS {
        let is_good = put_one(rt, pool, first.wrapping_add(number));
        good = good.saturating_add(u64::from(is_good));
    }
    good
}

impl<R: Wait> Service<R> for Putter {
    fn serve<I: Index, D: LogDisk, O: Start, L: Lender>(
        &mut self,
        rt: &R,
        pool: &Pool<'_, I, D, O, L>,
    ) {
        self.good = put_all(rt, pool, self.first);
    }
}

// Eight putters, and how many of their puts were good, by a pool of so many clients.
fn eight_put<I: Index + Send, D: LogDisk + Send, O: Start + Send, R: Threads + Wait + Sync>(
    rt: &R,
    store: &mut ObjectStore<I, D, O>,
    clients: u16,
) -> u64 {
    let firsts = [0u64, 100, 200, 300, 400, 500, 600, 700];
    let mut crew = firsts.map(|first| Putter { first, good: 0 });
    let hosted = store.pool(rt, 255, clients, &mut crew);
    let good = crew
        .iter()
        .fold(0, |sum: u64, putter| sum.saturating_add(putter.good));
    if hosted.is_ok() { good } else { 0 }
}

fn memory_store(rt: &impl Abort, alloc: Global) -> MemoryStore<KdTrie> {
    let Ok(store) = MemoryStore::<KdTrie>::in_memory(alloc, 4) else {
        rt.panic("no store is made")
    };
    store
}

// The sessions of the calls of a history are among these.
fn has_sessions(entries: &Entries, wanted: &[u8]) -> bool {
    let mut entries = entries.as_slice().iter();
    entries.all(|entry| match entry {
        Entry::Call { session, .. } => wanted.contains(session),
        _ => true,
    })
}

// The puts that were good, the objects, and whether only sessions of the pool's clients and of the store made calls.
fn eight_in_memory<I: Index + Send, R: Threads + Wait + Sync + Abort>(
    rt: &R,
    alloc: Global,
    clients: u16,
    sessions: &[u8],
) -> (u64, Option<u64>, bool) {
    let (store, pass) = new_store::<I, NoDrive>(rt, alloc);
    let mut store = ObjectStore::from_parts(alloc, store, pass);
    let good = eight_put(rt, &mut store, clients);
    let len = store.len(rt).ok();
    let (store, pass) = store.into_parts();
    let entries = store.close(pass).into_parts().entries;
    (good, len, has_sessions(&entries, sessions))
}

const ALL: (u64, Option<u64>, bool) = (320, Some(320), true);

#[test]
fn eight_threads_share_three_clients_while_leaves_are_split(rt: HostRuntime) {
    let told = eight_in_memory::<KdTrie, _>(&rt, rt.alloc(), 3, &[255, 0, 1]);
    assert_same!(rt; told, ALL);
}

#[test]
fn a_pool_has_at_least_one_client(rt: HostRuntime) {
    let told = eight_in_memory::<QuadTrie, _>(&rt, rt.alloc(), 0, &[255]);
    assert_same!(rt; told, ALL);
}

#[test]
fn a_pool_has_at_most_as_many_clients_as_a_store_has_parts_to_lend(rt: HostRuntime) {
    let told = eight_in_memory::<KdTrie, _>(&rt, rt.alloc(), 65_535, &[255, 0, 1, 2, 3, 4, 5, 6]);
    assert_same!(rt; told, ALL);
}

// Lets eight threads put objects over a file, and continues in another one. Returns the objects that both files have then.
fn rotates<I: Index + Send, D: LogDisk + Send, R: Threads + Wait + Sync + Abort>(
    rt: &R,
    alloc: Global,
    first: D,
    second: D,
) -> (u64, Option<u64>) {
    let Ok((mut store, _)) = FileStore::<I, D>::open_file(alloc, first, "a.log", 4) else {
        rt.panic("no store is opened")
    };
    let good = eight_put(rt, &mut store, 2);
    let mut store = match store.rotate(rt, second) {
        Ok(RotatedStore { store, spare: _ }) => store,
        _ => rt.panic("the store isn't rotated"),
    };
    let len = store.len(rt).ok();
    store.close();
    (good, len)
}

// A drive without a file, which has room for all that the test writes.
fn empty_disk(rt: &impl Abort, alloc: Global) -> MemDisk {
    let disk = MemDisk::new(alloc, Vec::new(alloc), 1 << 20, 1 << 16, Vec::new(alloc));
    disk.expect(rt, "no drive")
}

#[test]
fn a_store_is_rotated_after_its_pool(rt: HostRuntime) {
    let first = empty_disk(&rt, rt.alloc());
    let second = empty_disk(&rt, rt.alloc());
    let told = rotates::<KdTrie, MemDisk, _>(&rt, rt.alloc(), first, second);
    assert_same!(rt; told, (320, Some(320)));
}

// Whether a client is free while so many others of a pool are taken.
fn enters<I: Index, D: LogDisk, O: Start, L: Lender>(pool: &Pool<'_, I, D, O, L>) -> [bool; 3] {
    let first = pool.try_enter();
    let second = pool.try_enter();
    let third = pool.try_enter();
    let taken = [first.is_some(), second.is_some(), third.is_some()];
    drop(second);
    let again = pool.try_enter();
    [
        taken == [true, true, false],
        again.is_some(),
        first.is_some(),
    ]
}

// One that takes all clients of its pool, and one back again.
#[derive(Drop)]
struct Taker {
    taken: [bool; 3],
}

impl<R: Wait> Service<R> for Taker {
    fn serve<I: Index, D: LogDisk, O: Start, L: Lender>(
        &mut self,
        _rt: &R,
        pool: &Pool<'_, I, D, O, L>,
    ) {
        self.taken = enters(pool);
    }
}

fn takes<R: Threads + Wait + Sync + Abort>(rt: &R, alloc: Global) -> [bool; 3] {
    let mut store = memory_store(rt, alloc);
    let mut crew = [Taker { taken: [false; 3] }];
    let _ = store.pool(rt, 1, 2, &mut crew);
    store.close();
    let [taker] = crew;
    taker.taken
}

#[test]
fn a_client_is_taken_by_one_alone_until_it_is_dropped(rt: HostRuntime) {
    assert_same!(rt; takes(&rt, rt.alloc()), [true, true, true]);
}
