//! Rotations that are refused, after which the same store goes on. It is closed, and opened again with all its objects.
//! Rotations that end a store.
use crate::logs::{
    END, FILLED, GONE_ON, HEADER, PUT_1, PUT_2, PUT_4, disk_with, expect_bytes, failing_disk,
};
use disk_mem::{DiskCall, Fail, MemDisk};
use disk_trait::LogDisk;
use flat_index::FlatIndex;
use pisrakun::{
    CallFault, ClosedStore, EndCause, FileStore, Found, Index, Point, PutReply, RotateCause,
    RotatedStore, Stamped,
};
use std::alloc::Global;
use std::process::Abort;
use std::sync::Wait;

// A store over the log on a drive, and what was found there.
fn opened<I: Index, D: LogDisk>(
    rt: &impl Abort,
    alloc: Global,
    disk: D,
) -> (FileStore<I, D>, Found) {
    let Ok(opened) = FileStore::<I, D>::open_file(alloc, disk, "a.log", 4) else {
        rt.panic("no store is opened")
    };
    opened
}

#[derive(Clone, Copy)]
enum Leaves {
    Kept,
    Anew,
}

// Why a store isn't rotated, and the same store and the second drive.
fn kept<I: Index, D: LogDisk, R: Wait + Abort>(
    rt: &R,
    store: FileStore<I, D>,
    spare: D,
    leaves: Leaves,
) -> (RotateCause, FileStore<I, D>, D) {
    let rotated = match leaves {
        Leaves::Kept => store.rotate(rt, spare),
        Leaves::Anew => store.rotate_anew(rt, spare),
    };
    let refused = match rotated {
        Err(refused) => refused,
        Ok(RotatedStore { store, spare: _ }) => {
            store.close();
            rt.panic("the store is rotated")
        }
    };
    let told = refused.cause();
    let (store, spare, cause) = match refused.or_kept() {
        Ok(kept) => kept,
        Err(_ended) => rt.panic("the store isn't kept"),
    };
    assert_same!(rt; told, EndCause::Refused { cause });
    (cause, store, spare)
}

// Two refused rotations of a store in session 9, and calls before, between and behind them. Returns the causes, where the
// second object is at last, the places of the calls, and both drives.
fn goes_on<I: Index, D: LogDisk, R: Wait + Abort>(
    rt: &R,
    alloc: Global,
    disk: D,
    spare: D,
) -> ([RotateCause; 2], Option<Option<Stamped>>, [u64; 3], D, D) {
    let (mut store, _) = opened::<I, D>(rt, alloc, disk);
    let _ = store.put(rt, 1, Point { x: 3, y: 5 }, 10);
    let first = store.place();
    let (one, mut store, spare) = kept(rt, store, spare, Leaves::Kept);
    let _ = store.put(rt, 2, Point { x: 4, y: 4 }, 20);
    let second = store.place();
    let (two, mut store, spare) = kept(rt, store, spare, Leaves::Anew);
    let found = store.find(rt, 2).ok();
    let places = [first, second, store.place()];
    ([one, two], found, places, store.close().disk, spare)
}

const IN_USE: RotateCause = RotateCause::InUse { len: 113 };

#[test]
fn a_store_goes_on_after_refused_rotations(rt: HostRuntime) {
    let alloc = rt.alloc();
    let (disk, spare) = (disk_with(&rt, alloc, &[]), disk_with(&rt, alloc, GONE_ON));
    let told = goes_on::<FlatIndex, MemDisk, _>(&rt, alloc, disk, spare);
    let (causes, found, places, disk, spare) = told;
    let kept = Stamped {
        at: Point { x: 4, y: 4 },
        moment: 20,
    };
    assert_same!(rt; causes, [IN_USE, IN_USE]);
    assert_same!(rt; (found, places), (Some(Some(kept)), [1, 2, 3]));
    expect_bytes(&rt, alloc, &disk, &[HEADER, PUT_1, PUT_2, END]);
    expect_bytes(&rt, alloc, &spare, GONE_ON);
    let (store, found) = opened::<FlatIndex, MemDisk>(&rt, alloc, disk);
    let wanted = Found {
        objects: 2,
        latest: Some(20),
        records: 2,
    };
    assert_same!(rt; found, wanted);
    let _drive = store.close().disk;
}

// A store that goes on after a refused rotation, and is rotated later. Returns both drives, that of the store first.
fn rotates_later<I: Index, D: LogDisk, R: Wait + Abort>(
    rt: &R,
    alloc: Global,
    disk: D,
    spares: [D; 2],
) -> (D, D) {
    let [used, free] = spares;
    let (store, _) = opened::<I, D>(rt, alloc, disk);
    let (_, store, _used) = kept(rt, store, used, Leaves::Kept);
    let (mut store, spare) = match store.rotate(rt, free) {
        Ok(RotatedStore { store, spare }) => (store, spare),
        _ => rt.panic("the store isn't rotated"),
    };
    let _ = store.put(rt, 4, Point { x: 7, y: 7 }, 30);
    (store.close().disk, spare)
}

#[test]
fn a_store_is_rotated_after_a_refused_rotation(rt: HostRuntime) {
    let alloc = rt.alloc();
    let disk = disk_with(&rt, alloc, FILLED);
    let spares = [disk_with(&rt, alloc, GONE_ON), disk_with(&rt, alloc, &[])];
    let (second, first) = rotates_later::<FlatIndex, MemDisk, _>(&rt, alloc, disk, spares);
    expect_bytes(&rt, alloc, &second, GONE_ON);
    expect_bytes(&rt, alloc, &first, &[HEADER, END]);
}

// A store whose append of a second object fails, and its refused rotation. Returns the cause, the answer to another call,
// what is lost, and both drives.
fn is_closed<I: Index, D: LogDisk, R: Wait + Abort>(
    rt: &R,
    alloc: Global,
    disk: D,
    spare: D,
    leaves: Leaves,
) -> (RotateCause, Result<PutReply, CallFault>, Option<u64>, D, D) {
    let (mut store, _) = opened::<I, D>(rt, alloc, disk);
    let _ = store.put(rt, 4, Point { x: 7, y: 7 }, 30);
    let (cause, mut store, spare) = kept(rt, store, spare, leaves);
    let told = store.put(rt, 2, Point { x: 4, y: 4 }, 20);
    let ClosedStore { lost, disk } = store.close();
    (cause, told, lost, disk, spare)
}

// An opening of a log syncs once, and an append writes first.
const FAILING: &[Fail] = &[Fail {
    call: DiskCall::Write,
    number: 1,
}];

#[test]
fn a_closed_store_is_kept_and_stays_closed(rt: HostRuntime) {
    let alloc = rt.alloc();
    for leaves in [Leaves::Kept, Leaves::Anew] {
        let disk = failing_disk(&rt, alloc, &[HEADER, PUT_1, END], FAILING);
        let spare = disk_with(&rt, alloc, &[]);
        let told = is_closed::<FlatIndex, MemDisk, _>(&rt, alloc, disk, spare, leaves);
        let (cause, told, lost, _disk, spare) = told;
        assert_same!(rt; cause, RotateCause::Closed { cell: 1 });
        assert_same!(rt; told, Err(CallFault::Closed { cell: 1 }));
        assert_same!(rt; lost, Some(1));
        assert_same!(rt; spare.moments(), 0);
    }
}

// The causes of a rotation that ends a store: of the refusal, and of what is left.
fn ended<I: Index, D: LogDisk, R: Wait + Abort>(
    rt: &R,
    alloc: Global,
    disk: D,
    spare: D,
) -> [EndCause; 2] {
    let (store, _) = opened::<I, D>(rt, alloc, disk);
    let refused = match store.rotate(rt, spare) {
        Err(refused) => refused,
        Ok(RotatedStore { store, spare: _ }) => {
            store.close();
            rt.panic("the store is rotated")
        }
    };
    let cause = refused.cause();
    match refused.or_kept() {
        Err(ended) => [cause, ended.cause()],
        Ok((store, _spare, _cause)) => {
            store.close();
            rt.panic("the store is kept")
        }
    }
}

const CUT_FAILS: &[Fail] = &[Fail {
    call: DiskCall::Cut,
    number: 1,
}];

#[test]
fn a_store_that_ended_in_a_rotation_tells_its_cause(rt: HostRuntime) {
    let alloc = rt.alloc();
    let disk = disk_with(&rt, alloc, FILLED);
    let spare = failing_disk(&rt, alloc, &[], FAILING);
    let causes = ended::<FlatIndex, MemDisk, _>(&rt, alloc, disk, spare);
    assert_same!(rt; causes, [EndCause::Unsure, EndCause::Unsure]);
    let disk = failing_disk(&rt, alloc, FILLED, CUT_FAILS);
    let spare = disk_with(&rt, alloc, &[]);
    let causes = ended::<FlatIndex, MemDisk, _>(&rt, alloc, disk, spare);
    assert_same!(rt; causes, [EndCause::Uncleared, EndCause::Uncleared]);
}
