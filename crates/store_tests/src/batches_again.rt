//! Batches that are applied again after memory ran out. Each run passes if one request of memory fails, whichever it is.
use crate::logs::{END, HEADER, PUT_1, PUT_2, PUT_3, PUT_4, REMOVE_3};
use disk_mem::MemDisk;
use disk_trait::LogDisk;
use index_layer::Index;
use pisrakun::{
    Answer, Batch, CallFault, ClosedStore, FileStore, KdTrie, Member, MemoryStore, NotAdded,
    NotOpened, ObjectStore, Point, QuadTrie, Stamped, Start, Status,
};
use std::alloc::Global;
use std::process::Abort;
use std::sync::Wait;

macro_rules! at {
    ($x:expr, $y:expr, $moment:expr) => {
        Stamped {
            at: Point { x: $x, y: $y },
            moment: $moment,
        }
    };
}

macro_rules! object {
    ($id:expr, $x:expr, $y:expr, $moment:expr) => {
        Member {
            id: $id,
            at: Point { x: $x, y: $y },
            moment: $moment,
        }
    };
}

// The objects before the batch, one leaf of four.
const BEFORE: &[Member] = &[
    object!(1, 3, 5, 10),
    object!(2, 4, 4, 20),
    object!(3, 6, 1, 15),
    object!(4, 7, 7, 30),
];

// The objects after it, one too many for a leaf.
const AFTER: &[Member] = &[
    object!(1, 3, 5, 10),
    object!(2, 8, 9, 21),
    object!(4, 7, 7, 30),
    object!(5, 1, 1, 5),
    object!(6, 2, 6, 6),
];

// Two new objects, a move and a removal. A late move, a find and a put of an object that is there change nothing.
fn fill(batch: &mut Batch) -> Result<(), NotAdded> {
    batch.put(5, Point { x: 1, y: 1 }, 5)?;
    batch.move_to(2, Point { x: 8, y: 9 }, 21)?;
    batch.move_to(1, Point { x: 9, y: 9 }, 9)?;
    batch.remove(3)?;
    batch.find(2)?;
    batch.put(4, Point { x: 0, y: 0 }, 40)?;
    batch.put(6, Point { x: 2, y: 6 }, 6)
}

// Whether these are the answers to the batch.
fn are_right(answers: &[Answer]) -> bool {
    let [new, moved, late, gone, found, there, another] = answers else {
        return false;
    };
    matches!(new, Answer::Done)
        && matches!(moved, Answer::Moved(from) if *from == at!(4, 4, 20))
        && matches!(late, Answer::Stale(kept) if *kept == at!(3, 5, 10))
        && matches!(gone, Answer::Gone(last) if *last == at!(6, 1, 15))
        && matches!(found, Answer::At(kept) if *kept == at!(8, 9, 21))
        && matches!(there, Answer::Present(kept) if *kept == at!(7, 7, 30))
        && matches!(another, Answer::Done)
}

// Each call is made again if memory runs out. Only one request fails, so the second call has its memory.
fn filled(rt: &impl Abort, alloc: Global) -> Batch {
    let mut batch = Batch::new(alloc);
    if fill(&mut batch).is_err() {
        batch.clear();
        fill(&mut batch).ok().expect(rt, "no batch is made");
    }
    batch
}

fn status_of<I: Index, D: LogDisk, O: Start, R: Wait + Abort>(
    rt: &R,
    store: &mut ObjectStore<I, D, O>,
) -> Status {
    match store.status(rt) {
        Ok(status) => status,
        Err(_) => store.status(rt).expect(rt, "no status"),
    }
}

// Whether a store has these objects and no others.
fn has<I: Index, D: LogDisk, O: Start, R: Wait + Abort>(
    rt: &R,
    store: &mut ObjectStore<I, D, O>,
    objects: &[Member],
) -> bool {
    let world = match store.world(rt) {
        Ok(world) => world,
        Err(_) => store.world(rt).expect(rt, "no objects"),
    };
    world.as_slice() == objects
}

// Applies a batch. If memory runs out, the store is unchanged, and it answers a call and then the same batch.
fn applies<I: Index, D: LogDisk, O: Start, R: Wait + Abort>(
    rt: &R,
    store: &mut ObjectStore<I, D, O>,
    batch: &Batch,
) -> bool {
    let before = status_of(rt, store);
    let fault = match store.apply(rt, batch) {
        Ok(replies) => return are_right(replies.answers.as_slice()),
        Err(fault) => fault,
    };
    assert_same!(rt; fault, CallFault::Memory { place: None });
    assert_same!(rt; status_of(rt, store), before);
    assert_is!(rt; has(rt, store, BEFORE));
    assert_same!(rt; store.find(rt, 2), Ok(Some(at!(4, 4, 20))));
    let replies = store.apply(rt, batch);
    replies.is_ok_and(|replies| are_right(replies.answers.as_slice()))
}

// Applies the batch to a store that has the objects before it.
fn changes<I: Index, D: LogDisk, O: Start, R: Wait + Abort>(
    rt: &R,
    store: &mut ObjectStore<I, D, O>,
    batch: &Batch,
) {
    assert_is!(rt; has(rt, store, BEFORE));
    assert_is!(rt; applies(rt, store, batch));
    assert_is!(rt; has(rt, store, AFTER));
}

fn put_all<I: Index, D: LogDisk, O: Start, R: Wait + Abort>(
    rt: &R,
    store: &mut ObjectStore<I, D, O>,
) {
    for Member { id, at, moment } in BEFORE {
        if store.put(rt, *id, *at, *moment).is_err() {
            store.put(rt, *id, *at, *moment).expect(rt, "no put");
        }
    }
}

fn memory_store<I: Index>(rt: &impl Abort, alloc: Global) -> MemoryStore<I> {
    if let Ok(store) = MemoryStore::<I>::in_memory(alloc, 4) {
        return store;
    }
    let Ok(store) = MemoryStore::<I>::in_memory(alloc, 4) else {
        rt.panic("no store is made")
    };
    store
}

fn changes_in_memory<I: Index, R: Wait + Abort>(rt: &R, alloc: Global) {
    let batch = filled(rt, alloc);
    let mut store = memory_store::<I>(rt, alloc);
    put_all(rt, &mut store);
    changes(rt, &mut store, &batch);
    store.close();
}

#[test]
fn a_batch_of_a_store_in_memory_is_applied_again_after_memory_ran_out(rt: HostRuntime) {
    changes_in_memory::<KdTrie, _>(&rt, rt.alloc());
}

#[test]
fn a_batch_over_a_quad_trie_is_applied_again_after_memory_ran_out(rt: HostRuntime) {
    changes_in_memory::<QuadTrie, _>(&rt, rt.alloc());
}

// The log of the objects before the batch.
const LOG: &[&[u8]] = &[HEADER, PUT_1, PUT_2, PUT_3, PUT_4, END];

fn disk_if_memory(alloc: Global) -> Option<MemDisk> {
    let mut bytes = Vec::new(alloc);
    for piece in LOG {
        bytes.extend_from_slice(piece).ok()?;
    }
    MemDisk::new(alloc, bytes, 1_024, 64, Vec::new(alloc)).ok()
}

fn disk(rt: &impl Abort, alloc: Global) -> MemDisk {
    match disk_if_memory(alloc) {
        Some(disk) => disk,
        None => disk_if_memory(alloc).expect(rt, "no drive"),
    }
}

fn file_store<I: Index, D: LogDisk>(rt: &impl Abort, alloc: Global, disk: D) -> FileStore<I, D> {
    let disk = match FileStore::<I, D>::open_file(alloc, disk, "a.log", 4) {
        Ok((store, _)) => return store,
        Err(NotOpened { disk, cause: _ }) => disk,
    };
    let Ok((store, _)) = FileStore::<I, D>::open_file(alloc, disk, "a.log", 4) else {
        rt.panic("no store is opened")
    };
    store
}

fn changes_in_a_file<I: Index, D: LogDisk, R: Wait + Abort>(
    rt: &R,
    alloc: Global,
    disk: D,
) -> ClosedStore<D> {
    let batch = filled(rt, alloc);
    let mut store = file_store::<I, D>(rt, alloc, disk);
    changes(rt, &mut store, &batch);
    store.close()
}

// The records of the batch.
const PUT_5: &[u8] =
    b"\x01\x01\0\0\0\0\0\0\0\x05\0\0\0\x01\0\0\0\x01\0\0\0\0\0\0\0\x05\0\0\0\0\0\0";

const MOVE_2: &[u8] =
    b"\x01\x02\0\0\0\0\0\0\0\x02\0\0\0\x08\0\0\0\x09\0\0\0\0\0\0\0\x15\0\0\0\0\0\0";

const PUT_6: &[u8] =
    b"\x01\x01\0\0\0\0\0\0\0\x06\0\0\0\x02\0\0\0\x06\0\0\0\0\0\0\0\x06\0\0\0\0\0\0";

// Those of the batch come once, before any of a split.
const LEFT: &[&[u8]] = &[
    HEADER, PUT_1, PUT_2, PUT_3, PUT_4, PUT_5, MOVE_2, REMOVE_3, PUT_6,
];

// What follows these pieces, if the bytes begin with them.
fn rest_after<'b>(bytes: &'b [u8], pieces: &[&[u8]]) -> Option<&'b [u8]> {
    let mut rest = bytes;
    for piece in pieces {
        rest = rest.strip_prefix(*piece)?;
    }
    Some(rest)
}

// At most one split is begun after the batch, and is installed or abandoned. Its records have the kinds 4 to 6.
fn has_no_change(rest: &[u8]) -> bool {
    rest.len() <= 65
        && rest
            .chunks(32)
            .all(|record| !matches!(record, [1, 1..=3, ..]))
}

#[test]
fn a_batch_over_a_log_is_applied_again_after_memory_ran_out(rt: HostRuntime) {
    let disk = disk(&rt, rt.alloc());
    let told = changes_in_a_file::<KdTrie, MemDisk, _>(&rt, rt.alloc(), disk);
    let ClosedStore { lost, disk } = told;
    assert_same!(rt; lost, None);
    assert_is!(rt; rest_after(disk.bytes(), LEFT).is_some_and(has_no_change));
}
