//! Stores that continue over a second file, also when a drive fails or a crash comes.
use crate::files::{
    FIRST_TWO, FIRST_TWO_AND_FOURTH, Leaves, close, expect_either, expect_in, filled, found_in,
    go_on, open_one, rotate, rotated,
};
use crate::logs::{
    ANEW, EMPTY, END, FILLED, FILLED_AND_ON, GONE_ON, HEADER, PUT_1, PUT_2, PUT_3, REMOVE_3,
    UNSET_1, disk_of, disk_with, expect_bytes,
};
use disk_mem::{DiskCall, Fail, MemDisk};
use disk_trait::LogDisk;
use flat_index::FlatIndex;
use index_layer::Index;
use pisrakun::{NotRotatedStore, ObjectStore};
use std::alloc::Global;
use std::process::Abort;
use std::sync::Wait;
use store_file::{NotRotated, OpenedEither, RotateCause, Rotated, Which};

// Fills a store, and rotates it. If it continues, it makes one put. Returns both drives, that of the store first.
fn fill_and_rotate<I: Index, D: LogDisk, R: Wait + Abort>(
    rt: &R,
    alloc: Global,
    disk: D,
    spare: D,
    leaves: Leaves,
    goes_on: bool,
) -> (D, D) {
    let (store, pass) = filled::<I, D, R>(rt, alloc, disk);
    let Rotated { store, pass, spare } = rotated(rt, alloc, store, pass, spare, leaves);
    let pass = if goes_on {
        go_on(rt, alloc, &store, pass)
    } else {
        pass
    };
    (close(rt, store, pass), spare)
}

// Opens either file, and rotates the store into the other one. Returns which one it was, and both drives, that of the
// store first.
fn open_and_rotate<I: Index, D: LogDisk, R: Wait + Abort>(
    rt: &R,
    alloc: Global,
    first: D,
    second: D,
) -> (Which, D, D) {
    let OpenedEither {
        store,
        pass,
        points: _,
        latest: _,
        records: _,
        spare,
        which,
    } = open_one::<I, D>(rt, alloc, first, second);
    let Rotated { store, pass, spare } = rotated(rt, alloc, store, pass, spare, Leaves::AsTheyAre);
    (which, close(rt, store, pass), spare)
}

fn rotates_over_and_back<R: Wait + Abort>(rt: &R, alloc: Global, leaves: Leaves) {
    let (one, two) = (disk_with(rt, alloc, &[]), disk_with(rt, alloc, &[]));
    let (two, one) = fill_and_rotate::<FlatIndex, MemDisk, R>(rt, alloc, one, two, leaves, false);
    expect_bytes(rt, alloc, &two, ANEW);
    expect_bytes(rt, alloc, &one, EMPTY);
    let (which, one, two) = open_and_rotate::<FlatIndex, MemDisk, R>(rt, alloc, one, two);
    assert_same!(rt; which, Which::Second);
    expect_bytes(rt, alloc, &one, ANEW);
    expect_bytes(rt, alloc, &two, EMPTY);
}

fn goes_on_behind_a_rotation<R: Wait + Abort>(rt: &R, alloc: Global, leaves: Leaves) {
    let (one, two) = (disk_with(rt, alloc, &[]), disk_with(rt, alloc, &[]));
    let (two, one) = fill_and_rotate::<FlatIndex, MemDisk, R>(rt, alloc, one, two, leaves, true);
    expect_bytes(rt, alloc, &two, GONE_ON);
    expect_bytes(rt, alloc, &one, EMPTY);
    let found = (3, Some(30), 3, FIRST_TWO_AND_FOURTH);
    expect_in(rt, alloc, one, two, (Which::Second, found));
    expect_either(rt, alloc, GONE_ON, EMPTY, found);
}

// The calls of a rotation on the second drive. Each has the file over which the store continues if that call fails, and
// how many records the file has. What was written there counts once its first commit byte is set. Only the next sync is
// left then.
const ON_SPARE: &[(DiskCall, u64, Which, u64)] = &[
    (DiskCall::Len, 1, Which::First, 4),
    (DiskCall::Write, 1, Which::First, 4),
    (DiskCall::Sync, 1, Which::First, 4),
    (DiskCall::Write, 2, Which::First, 4),
    (DiskCall::Sync, 2, Which::First, 4),
    (DiskCall::Write, 3, Which::First, 4),
    (DiskCall::Sync, 3, Which::Second, 2),
];

// Both drives of a rotation whose second drive fails, that of the store first.
fn unsure<I: Index, D: LogDisk, R: Wait + Abort>(
    rt: &R,
    alloc: Global,
    disk: D,
    spare: D,
    leaves: Leaves,
) -> (D, D) {
    let (store, pass) = filled::<I, D, R>(rt, alloc, disk);
    match rotate(rt, alloc, store, pass, spare, leaves) {
        Err(NotRotated::Unsure { disk, spare }) => (disk, spare),
        _ => rt.panic("the second drive doesn't fail"),
    }
}

// Rotates a store into a file that is in use, so the same store goes on, with one put. Returns why it isn't rotated, and
// both drives, that of the store first.
fn kept<I: Index, D: LogDisk, R: Wait + Abort>(
    rt: &R,
    alloc: Global,
    disk: D,
    spare: D,
    leaves: Leaves,
) -> (RotateCause, D, D) {
    let (store, pass) = filled::<I, D, R>(rt, alloc, disk);
    let store = ObjectStore::from_parts(alloc, store, pass);
    let rotated = match leaves {
        Leaves::AsTheyAre => store.rotate(rt, spare),
        Leaves::Anew => store.rotate_anew(rt, spare),
    };
    match rotated {
        Err(
            NotRotatedStore::Kept {
                store,
                spare,
                cause,
            },
        ) => {
            let (store, pass) = store.into_parts();
            let pass = go_on(rt, alloc, &store, pass);
            (cause, close(rt, store, pass), spare)
        }
        _ => rt.panic("the store isn't kept"),
    }
}

// What a crash may leave on a drive: few bytes, or many, with this value in each free byte.
const CRASHES: &[(u64, u8)] = &[(0, 0), (0, 1), (1_024, 0), (1_024, 1), (1_024, 9)];

// A drive as a crash at a moment may leave it.
fn image(rt: &impl Abort, alloc: Global, at: (&MemDisk, u64), len: u64, fill: u8) -> MemDisk {
    let (disk, moment) = at;
    let image = disk.pick(moment, len, &[fill]).expect(rt, "no image");
    disk_of(rt, alloc, image.as_slice(), &[])
}

// Fails unless the objects are found in one of these files, and the store is rotated into the other one then.
fn expect_after_crash<R: Wait + Abort>(rt: &R, alloc: Global, first: MemDisk, second: MemDisk) {
    let (_, found, disk, spare) = found_in::<FlatIndex, MemDisk, R>(rt, alloc, first, second);
    let (points, latest, _, places) = found;
    assert_same!(rt; (points, latest, places), (2, Some(20), FIRST_TWO));
    assert_same!(rt; spare.bytes().len(), 17);
    let (which, disk, spare) = open_and_rotate::<FlatIndex, MemDisk, R>(rt, alloc, disk, spare);
    assert_same!(rt; which, Which::First);
    expect_bytes(rt, alloc, &disk, ANEW);
    expect_bytes(rt, alloc, &spare, EMPTY);
}

// The same for each crash at a moment of one drive and one of the other.
pub(crate) fn expect_after_crashes<R: Wait + Abort>(
    rt: &R,
    alloc: Global,
    one: (&MemDisk, u64),
    two: (&MemDisk, u64),
) {
    for (len, fill) in CRASHES {
        let first = image(rt, alloc, one, *len, *fill);
        let second = image(rt, alloc, two, *len, *fill);
        expect_after_crash(rt, alloc, first, second);
    }
}

// How many moments the first drive has before its log is cleared, and after that; and how many the second one has in
// all.
const BEFORE: u64 = 19;

const BEHIND: u64 = 23;

const IN_ALL: u64 = 6;

fn keeps_its_objects<R: Wait + Abort>(rt: &R, alloc: Global, leaves: Leaves) {
    let (one, two) = (disk_with(rt, alloc, &[]), disk_with(rt, alloc, &[]));
    let (two, one) = fill_and_rotate::<FlatIndex, MemDisk, R>(rt, alloc, one, two, leaves, false);
    assert_same!(rt; [one.moments(), two.moments()], [BEHIND, IN_ALL]);
    for moment in 0..7 {
        expect_after_crashes(rt, alloc, (&one, BEFORE), (&two, moment));
    }
    for moment in BEFORE..24 {
        expect_after_crashes(rt, alloc, (&one, moment), (&two, IN_ALL));
    }
}

fn keeps_its_log<R: Wait + Abort>(
    rt: &R,
    alloc: Global,
    leaves: Leaves,
    failing: Fail,
    wanted: (Which, u64),
) {
    let one = disk_with(rt, alloc, &[]);
    let two = disk_of(rt, alloc, &[], &[failing]);
    let (one, two) = unsure::<FlatIndex, MemDisk, R>(rt, alloc, one, two, leaves);
    expect_bytes(rt, alloc, &one, FILLED);
    expect_after_crashes(rt, alloc, (&one, one.moments()), (&two, two.moments()));
    let (which, records) = wanted;
    let found = (2, Some(20), records, FIRST_TWO);
    expect_in(rt, alloc, one, two, (which, found));
}

fn leaves_a_file_in_use<R: Wait + Abort>(rt: &R, alloc: Global, leaves: Leaves) {
    let (one, two) = (disk_with(rt, alloc, &[]), disk_with(rt, alloc, GONE_ON));
    let (cause, one, two) = kept::<FlatIndex, MemDisk, R>(rt, alloc, one, two, leaves);
    assert_same!(rt; cause, RotateCause::InUse { len: 113 });
    expect_bytes(rt, alloc, &one, FILLED_AND_ON);
    expect_bytes(rt, alloc, &two, GONE_ON);
    assert_same!(rt; two.moments(), 0);
}

// The calls of a rotation on the first drive, which clear its log. Nine writes and ten syncs come before them: a write
// and a sync created the log, a sync opened it, and two of each appended each of four records.
const ON_FIRST: &[(DiskCall, u64)] = &[
    (DiskCall::Write, 10),
    (DiskCall::Sync, 11),
    (DiskCall::Cut, 1),
    (DiskCall::Sync, 12),
];

// Both drives of a rotation whose first drive fails, that of the book last.
fn uncleared<I: Index, D: LogDisk, R: Wait + Abort>(
    rt: &R,
    alloc: Global,
    disk: D,
    spare: D,
    leaves: Leaves,
) -> (D, Option<D>) {
    let (store, pass) = filled::<I, D, R>(rt, alloc, disk);
    match rotate(rt, alloc, store, pass, spare, leaves) {
        Err(NotRotated::Uncleared { book, disk }) => (disk, book.into_parts().disk),
        _ => rt.panic("the first file is cleared"),
    }
}

fn has_gone_on<R: Wait + Abort>(rt: &R, alloc: Global, leaves: Leaves, failing: Fail) {
    let one = disk_of(rt, alloc, &[], &[failing]);
    let two = disk_with(rt, alloc, &[]);
    let (one, two) = uncleared::<FlatIndex, MemDisk, R>(rt, alloc, one, two, leaves);
    let two = two.expect(rt, "the book has no log");
    expect_bytes(rt, alloc, &two, ANEW);
    expect_after_crashes(rt, alloc, (&one, one.moments()), (&two, two.moments()));
    expect_in(
        rt,
        alloc,
        one,
        two,
        (Which::Second, (2, Some(20), 2, FIRST_TWO)),
    );
}

#[test]
fn a_store_is_rotated_into_a_second_file_and_back(rt: HostRuntime) {
    rotates_over_and_back(&rt, rt.alloc(), Leaves::AsTheyAre);
    rotates_over_and_back(&rt, rt.alloc(), Leaves::Anew);
}

#[test]
fn a_rotated_store_goes_on_in_its_second_file(rt: HostRuntime) {
    goes_on_behind_a_rotation(&rt, rt.alloc(), Leaves::AsTheyAre);
    goes_on_behind_a_rotation(&rt, rt.alloc(), Leaves::Anew);
}

#[test]
fn a_second_drive_that_fails_leaves_the_first_log(rt: HostRuntime) {
    for (call, number, which, records) in ON_SPARE {
        let failing = Fail {
            call: *call,
            number: *number,
        };
        let wanted = (*which, *records);
        keeps_its_log(&rt, rt.alloc(), Leaves::AsTheyAre, failing, wanted);
        keeps_its_log(&rt, rt.alloc(), Leaves::Anew, failing, wanted);
    }
}

#[test]
fn a_store_goes_on_if_the_second_file_is_in_use(rt: HostRuntime) {
    leaves_a_file_in_use(&rt, rt.alloc(), Leaves::AsTheyAre);
    leaves_a_file_in_use(&rt, rt.alloc(), Leaves::Anew);
}

#[test]
fn a_first_drive_that_fails_leaves_the_second_log(rt: HostRuntime) {
    for (call, number) in ON_FIRST {
        let failing = Fail {
            call: *call,
            number: *number,
        };
        has_gone_on(&rt, rt.alloc(), Leaves::AsTheyAre, failing);
        has_gone_on(&rt, rt.alloc(), Leaves::Anew, failing);
    }
}

// A crash at each moment of a rotation on one drive, while no call reaches the other drive.
#[test]
fn a_crash_in_a_rotation_leaves_the_objects(rt: HostRuntime) {
    keeps_its_objects(&rt, rt.alloc(), Leaves::AsTheyAre);
    keeps_its_objects(&rt, rt.alloc(), Leaves::Anew);
}

// A crash may leave both logs. It may leave the old log, and a second file that isn't created, is short, or has records
// that don't count yet. Or it may leave the new log, and an old log whose first commit byte is clear.
#[test]
fn the_same_objects_are_found_wherever_a_rotation_ends(rt: HostRuntime) {
    let old = (2, Some(20), 4, FIRST_TWO);
    let new = (2, Some(20), 2, FIRST_TWO);
    expect_either(&rt, rt.alloc(), ANEW, FILLED, new);
    expect_either(&rt, rt.alloc(), FILLED, &[], old);
    expect_either(&rt, rt.alloc(), FILLED, &[b"MDLO"], old);
    expect_either(&rt, rt.alloc(), FILLED, EMPTY, old);
    expect_either(&rt, rt.alloc(), FILLED, &[HEADER, UNSET_1, PUT_2, END], old);
    expect_either(
        &rt,
        rt.alloc(),
        ANEW,
        &[HEADER, UNSET_1, PUT_2, PUT_3, REMOVE_3, END],
        new,
    );
}
