//! Each call of the second drive fails once in a run of `compact`. The tests look at what a crash leaves of its file.
use crate::hostile::records::{ABANDON, BEGIN, DROP, INSTALL, MOVE, PUT, Record, front, log_of};
use crate::hostile::runs::{Image, found_in, images_on, is_log_of, must};
use crate::memory::{Left, Plan, run_both};
use disk_mem::{DiskCall, Fail as Failing};
use plain_list::Member;
use std::alloc::Global;
use std::process::Abort;
use std::sync::Wait;
use std::thread::Threads;
use zorder::Point;

// A record of a split. Its name is the first `len` of these bits.
macro_rules! split {
    ($kind:expr, $number:expr, $bits:expr, $len:expr) => {
        Record {
            kind: $kind,
            number: $number,
            place: $bits,
            moment: 0,
            len: $len,
        }
    };
}

// A record of an object.
macro_rules! at {
    ($kind:expr, $id:expr, $place:expr, $moment:expr) => {
        Record {
            kind: $kind,
            number: $id,
            place: $place,
            moment: $moment,
            len: 0,
        }
    };
}

const ONE: u64 = 0x8000_0000_0000_0000;

const ZERO_ONE: u64 = 0x4000_0000_0000_0000;

/// Leaves that four splits create, the second half split before the first one. One split was abandoned, one is open,
/// and an object was removed.
pub const GROWN: &[Record] = &[
    at!(PUT, 1, 0, 1),
    split!(BEGIN, 1, 0, 0),
    split!(INSTALL, 1, 0, 0),
    split!(BEGIN, 2, ONE, 1),
    split!(INSTALL, 2, 0, 0),
    at!(PUT, 2, 0x8000_0000_8000_0000, 7),
    split!(BEGIN, 3, 0, 1),
    split!(INSTALL, 3, 0, 0),
    split!(BEGIN, 4, ZERO_ONE, 2),
    split!(INSTALL, 4, 0, 0),
    split!(BEGIN, 5, 0, 2),
    split!(ABANDON, 5, 0, 0),
    at!(PUT, 3, 0, 0),
    at!(MOVE, 1, 0x3_0000_0004, 9),
    at!(DROP, 3, 0, 0),
    split!(BEGIN, 6, 0, 2),
];

// A name comes before its extensions. Those in its zero half come before those in the other half.
const FRESH: &[Record] = &[
    split!(BEGIN, 1, 0, 0),
    split!(INSTALL, 1, 0, 0),
    split!(BEGIN, 2, 0, 1),
    split!(INSTALL, 2, 0, 0),
    split!(BEGIN, 3, ZERO_ONE, 2),
    split!(INSTALL, 3, 0, 0),
    split!(BEGIN, 4, ONE, 1),
    split!(INSTALL, 4, 0, 0),
    at!(PUT, 1, 0x3_0000_0004, 9),
    at!(PUT, 2, 0x8000_0000_8000_0000, 7),
];

const OBJECTS: &[Member; 2] = &[
    Member {
        id: 1,
        at: Point { x: 3, y: 4 },
        moment: 9,
    },
    Member {
        id: 2,
        at: Point {
            x: 1 << 31,
            y: 1 << 31,
        },
        moment: 7,
    },
];

// A run over a file.
fn compacting(file: &[u8]) -> Plan<'_> {
    Plan {
        words: &["compact", "log", "new"],
        input: "",
        file: Some(file),
        reads: &[],
        puts: &[],
        calls: &[],
    }
}

// How many records an image has, if it is no longer small: none until the byte that commits them is written, and all of
// them after that byte is synced. Between the two, the value of the byte decides.
fn records_of(image: &Image, failing: Failing) -> Option<usize> {
    let is_sync = failing.call == DiskCall::Sync;
    match image.moment {
        0 | 1 => None,
        2 if is_sync && failing.number == 1 => None,
        2..=4 => Some(0),
        6 if !(is_sync && failing.number == 3) => Some(FRESH.len()),
        _ => Some(if image.fill == 1 { FRESH.len() } else { 0 }),
    }
}

// Whether a file is found to have no records, or all of them.
fn is_found<R: Abort>(rt: &R, alloc: Global, file: &[u8], count: usize) -> bool {
    let found = found_in(rt, alloc, 1, file).expect(rt, "a log is refused");
    let objects = found.objects.as_slice();
    if count == 0 {
        found.counts == [0, 0, 1, 0, 0] && objects.is_empty()
    } else {
        found.counts == [10, 2, 5, 0, 4] && objects == OBJECTS.as_slice()
    }
}

fn is_image<R: Abort>(rt: &R, alloc: Global, image: &Image, failing: Failing) -> bool {
    let bytes = image.bytes.as_slice();
    match records_of(image, failing) {
        None => bytes.len() <= 17,
        Some(count) => front(1, bytes, FRESH) == Some(count) && is_found(rt, alloc, bytes, count),
    }
}

fn judge_images<R: Abort>(rt: &R, alloc: Global, failing: Failing, left: &Left) {
    for image in images_on(rt, alloc, &left.other).iter() {
        let is_image = is_image(rt, alloc, image, failing);
        must(rt, is_image, "records at moment", image.moment);
    }
}

// How many calls `compact` makes of the second drive. A write and a sync create an empty log. The records take one more
// of each, and so does the byte that commits them.
const CALLS: &[(DiskCall, u64)] = &[
    (DiskCall::Attach, 1),
    (DiskCall::Len, 1),
    (DiskCall::Read, 0),
    (DiskCall::Write, 3),
    (DiskCall::Cut, 0),
    (DiskCall::Sync, 3),
];

// Lets each call of a kind fail once, and then one more than there are.
fn fail_each<R: Abort + Threads + Wait + Sync>(
    rt: &R,
    alloc: Global,
    file: &[u8],
    call: DiskCall,
    count: u64,
) {
    for number in 1..=count.saturating_add(1) {
        let failing = Failing { call, number };
        let left = run_both(rt, alloc, &compacting(file), &[], &[failing]);
        let is_told = if number > count {
            left.tells(0, "compacted 10\n") && is_log_of(rt, alloc, 1, left.other.bytes(), FRESH)
        } else {
            left.tells(7, "refused disk\n")
        };
        must(rt, is_told, "compact, call", number);
        let is_kept = left.file() == file && left.disk.moments() == 0;
        must(rt, is_kept, "the first file, call", number);
        judge_images(rt, alloc, failing, &left);
    }
}

fn every_call<R: Abort + Threads + Wait + Sync>(rt: &R, alloc: Global) {
    let file = log_of(alloc, 1, GROWN, &[0]).expect(rt, "it failed");
    for (call, count) in CALLS {
        fail_each(rt, alloc, file.as_slice(), *call, *count);
    }
}

#[test]
fn each_call_of_a_compact_fails_in_turn_and_a_crash_leaves_none_or_all(rt: HostRuntime) {
    every_call(&rt, rt.alloc());
}
