//! Each call of the second drive fails once in a run of `follow`. The tests look at what a crash leaves of its file.
use crate::hostile::machine::{Turn, input_of, told_of};
use crate::hostile::records::{MOVE, PUT, Record, front, log_of};
use crate::hostile::runs::{Image, following, found_in, images_on, is_log_of, is_refused, must};
use crate::memory::{Left, run_both};
use disk_mem::{DiskCall, Fail as Failing};
use plain_list::Member;
use std::alloc::Global;
use std::process::Abort;
use std::sync::Wait;
use std::thread::Threads;
use zorder::Point;

const PUT_7: Record = Record {
    kind: PUT,
    number: 7,
    place: 0x3_0000_0005,
    moment: 5,
    len: 0,
};

const PUT_8: Record = Record {
    number: 8,
    place: 0x1_0000_0001,
    moment: 6,
    ..PUT_7
};

const MOVE_7: Record = Record {
    kind: MOVE,
    place: 0x4_0000_0005,
    moment: 9,
    ..PUT_7
};

// The records of the first file.
const RECORDS: &[Record] = &[PUT_7, PUT_8, MOVE_7];

macro_rules! object {
    ($id:expr, $x:expr, $y:expr, $moment:expr) => {
        Member {
            id: $id,
            at: Point { x: $x, y: $y },
            moment: $moment,
        }
    };
}

// The objects after each number of records.
const OBJECTS: &[&[Member]] = &[
    &[],
    &[object!(7, 3, 5, 5)],
    &[object!(7, 3, 5, 5), object!(8, 1, 1, 6)],
    &[object!(7, 4, 5, 9), object!(8, 1, 1, 6)],
];

// Two arrivals that may be records, a restart, and one more.
const TURNS: &[Turn] = &[
    Turn::Send(0),
    Turn::Send(1),
    Turn::Send(2),
    Turn::Arrive(1),
    Turn::Arrive(2),
    Turn::Restart,
    Turn::Arrive(3),
    Turn::Ack(3),
];

// The second file as a run finds it: how many records it has, and how many writes and syncs opening it makes. If there
// is no file, it is created.
#[derive(Clone, Copy)]
struct Start<'a> {
    file: &'a [u8],
    first: u64,
    writes: u64,
    syncs: u64,
    // How many moments that takes. A cut is one too.
    moments: u64,
}

impl Start<'_> {
    // How many records are placed before the restart. One more is placed after it.
    fn before(&self) -> u64 {
        2_u64.saturating_sub(self.first)
    }

    // The cell of the append to which a failing call belongs. An append has two writes and two syncs, and the restart
    // has one sync.
    fn cell_of(&self, failing: Failing) -> Option<u64> {
        let calls = match failing.call {
            DiskCall::Write => failing.number.checked_sub(self.writes.saturating_add(1))?,
            DiskCall::Sync => {
                let syncs = failing.number.checked_sub(self.syncs.saturating_add(1))?;
                self.without_restart(syncs)?
            }
            _ => return None,
        };
        Some(self.first.saturating_add(calls / 2))
    }

    // The number of a sync among those of appends, if it is one.
    fn without_restart(&self, syncs: u64) -> Option<u64> {
        let before = self.before().saturating_mul(2);
        if syncs == before {
            return None;
        }
        Some(syncs.saturating_sub((syncs > before) as u64))
    }

    // How many records a crash leaves at a moment, with this value in each free byte. `None` if the file is still
    // small.
    fn records_at(&self, image: &Image, last: u64, failed: Option<Failing>) -> Option<u64> {
        let Some(calls) = image.moment.checked_sub(self.moments) else {
            return self.found();
        };
        let before = self.before().saturating_mul(4);
        let calls = calls.saturating_sub((calls > before) as u64);
        let placed = self.first.saturating_add(calls / 4);
        match (calls % 4, failed) {
            // The commit byte is written, but not synced.
            (3, _) if image.fill == 1 => Some(placed.saturating_add(1)),
            (0, Some(failed)) if image.moment == last => {
                self.behind_failed(failed, image.fill, placed)
            }
            _ => Some(placed),
        }
    }

    // How many records there are while it is opened.
    fn found(&self) -> Option<u64> {
        match self.writes {
            0 => Some(self.first),
            _ => None,
        }
    }

    // The same after a call that failed. It may be the sync of creating the file, or of a commit byte.
    fn behind_failed(&self, failed: Failing, fill: u8, placed: u64) -> Option<u64> {
        if self.writes > 0 && failed.call == DiskCall::Sync && failed.number == 1 {
            return None;
        }
        if self.cell_of(failed).is_some() && fill != 1 {
            return Some(placed.saturating_sub(1));
        }
        Some(placed)
    }
}

// Whether a file is found to have the first `count` records.
fn is_found<R: Abort>(rt: &R, alloc: Global, file: &[u8], count: u64) -> bool {
    let found = found_in(rt, alloc, 1, file).expect(rt, "a log is refused");
    let objects = OBJECTS.get(count as usize).copied().unwrap_or(&[]);
    found.objects.as_slice() == objects && found.counts == [count, objects.len() as u64, 1, 0, 0]
}

fn is_image<R: Abort>(rt: &R, alloc: Global, file: &[u8], count: Option<u64>) -> bool {
    match count {
        None => file.len() <= 17,
        Some(count) => {
            front(1, file, RECORDS) == Some(count as usize) && is_found(rt, alloc, file, count)
        }
    }
}

fn follow<R: Abort + Threads + Wait + Sync>(
    rt: &R,
    alloc: Global,
    new: &[u8],
    failing: &[Failing],
) -> Left {
    let file = log_of(alloc, 1, RECORDS, &[0]).expect(rt, "it failed");
    let input = input_of(alloc, TURNS).expect(rt, "it failed");
    let left = run_both(rt, alloc, &following(&input, file.as_slice()), new, failing);
    let is_kept = left.file() == file.as_slice() && left.disk.moments() == 0;
    must(rt, is_kept, "the first file over", new.len() as u64);
    left
}

// Whether a run in which nothing fails reports all records, over a file with the first of them.
fn is_whole<R: Abort>(rt: &R, alloc: Global, left: &Left, first: u64) -> bool {
    let told = told_of(alloc, TURNS, 3, first).expect(rt, "it failed");
    left.tells(0, &told.text) && is_log_of(rt, alloc, 1, left.other.bytes(), RECORDS)
}

// Follows again over each file that a crash may leave at the end of a run.
fn follow_again<R: Abort + Threads + Wait + Sync>(rt: &R, alloc: Global, left: &Left) {
    let mut last: &[u8] = &[0; 18];
    for image in images_on(rt, alloc, &left.other).iter() {
        let bytes = image.bytes.as_slice();
        if image.moment == left.other.moments() && bytes != last {
            let first = if bytes.len() <= 17 {
                0
            } else {
                front(1, bytes, RECORDS).unwrap_or(9) as u64
            };
            let again = follow(rt, alloc, bytes, &[]);
            let is_whole = is_whole(rt, alloc, &again, first);
            must(rt, is_whole, "follow again over", first);
            last = bytes;
        }
    }
}

fn judge<R: Abort + Threads + Wait + Sync>(
    rt: &R,
    alloc: Global,
    start: &Start<'_>,
    failed: Option<Failing>,
    left: &Left,
) {
    let last = left.other.moments();
    for image in images_on(rt, alloc, &left.other).iter() {
        let count = start.records_at(image, last, failed);
        let is_image = is_image(rt, alloc, image.bytes.as_slice(), count);
        must(rt, is_image, "records at moment", image.moment);
    }
    follow_again(rt, alloc, left);
}

// Lets each call of a kind fail once, and then one more than there are.
fn fail_each<R: Abort + Threads + Wait + Sync>(
    rt: &R,
    alloc: Global,
    start: &Start<'_>,
    call: DiskCall,
    count: u64,
) {
    for number in 1..=count {
        let failing = Failing { call, number };
        let left = follow(rt, alloc, start.file, &[failing]);
        let is_told = is_refused(rt, alloc, &left, start.cell_of(failing));
        must(rt, is_told, "follow, call", number);
        judge(rt, alloc, start, Some(failing), &left);
    }
    let number = count.saturating_add(1);
    let left = follow(rt, alloc, start.file, &[Failing { call, number }]);
    let is_whole = is_whole(rt, alloc, &left, start.first);
    must(rt, is_whole, "follow, no call", number);
    judge(rt, alloc, start, None, &left);
}

// A file that isn't there. Opening reads the length, and so does the restart, which reads the head and the cells.
const NO_FILE: &Start<'static> = &Start {
    file: &[],
    first: 0,
    writes: 1,
    syncs: 1,
    moments: 2,
};

const CALLS_OVER_NONE: &[(DiskCall, u64)] = &[
    (DiskCall::Attach, 1),
    (DiskCall::Len, 2),
    (DiskCall::Read, 2),
    (DiskCall::Write, 7),
    (DiskCall::Cut, 0),
    (DiskCall::Sync, 8),
];

fn over_no_file<R: Abort + Threads + Wait + Sync>(rt: &R, alloc: Global) {
    for (call, count) in CALLS_OVER_NONE {
        fail_each(rt, alloc, NO_FILE, *call, *count);
    }
}

// A file is walked first, and then opened. Each of these reads its length, the head and the cells. The bytes after the
// cells are cut off.
const CALLS_OVER_ONE: &[(DiskCall, u64)] = &[
    (DiskCall::Attach, 1),
    (DiskCall::Len, 4),
    (DiskCall::Read, 6),
    (DiskCall::Write, 4),
    (DiskCall::Cut, 1),
    (DiskCall::Sync, 7),
];

fn over_a_record<R: Abort + Threads + Wait + Sync>(rt: &R, alloc: Global) {
    let file = log_of(alloc, 1, &[PUT_7], &[9; 7]).expect(rt, "it failed");
    let start = Start {
        file: file.as_slice(),
        first: 1,
        writes: 0,
        syncs: 2,
        moments: 3,
    };
    for (call, count) in CALLS_OVER_ONE {
        fail_each(rt, alloc, &start, *call, *count);
    }
}

#[test]
fn each_call_of_a_follow_fails_in_turn_and_no_cell_is_lost(rt: HostRuntime) {
    over_no_file(&rt, rt.alloc());
}

#[test]
fn each_call_of_a_follow_fails_in_turn_over_a_front_of_the_cells(rt: HostRuntime) {
    over_a_record(&rt, rt.alloc());
}
