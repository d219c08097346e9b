//! Each device call of a run fails once. What a crash leaves at each moment of such runs.
use crate::checks::{Case, INIT, is_left, run_case};
use crate::hostile::clock::{Trial, judge_images};
use crate::hostile::records::{BEGIN, INSTALL, MOVE, PUT, Record, children, front, log_of};
use crate::hostile::runs::{found_in, images_of, is_log_of, is_refused, must, playing};
use crate::memory::{EMPTY_LOG, Left, run_plan};
use disk_mem::{DiskCall, Fail as Failing};
use plain_list::Member;
use std::alloc::Global;
use std::process::Abort;
use std::sync::Wait;
use std::thread::Threads;
use zorder::Point;

// Five puts, the last of which is one more than a leaf of four holds, a move, and one that is late.
const INPUT: &str =
    "session,op,id,x,y,a,b,moment\n1,put,1,0,0,,,11\n1,put,2,2147483648,0,,,12\n1,put,3,0,2147483648,,,13\n\
    1,put,4,2147483648,2147483648,,,14\n1,put,5,1,1,,,15\n1,move,1,0,1,,,16\n1,move,1,7,7,,,15\n";

// Their lines over a log of no records.
const FRESH: &[&str; 7] = &[
    "1,1,done,\n",
    "2,2,done,\n",
    "3,3,done,\n",
    "4,4,done,\n",
    "5,5,done,\n",
    "6,6,moved,0:0:11\n",
    "7,7,stale,0:1:16\n",
];

// The lines of the first six over a log that has the puts.
const AGAIN: &[&str; 6] = &[
    "1,1,present,0:0:11\n",
    "2,2,present,2147483648:0:12\n",
    "3,3,present,0:2147483648:13\n",
    "4,4,present,2147483648:2147483648:14\n",
    "5,5,present,1:1:15\n",
    "6,6,moved,0:0:11\n",
];

// The same over a log that has the move too.
const AGAIN_MOVED: &[&str; 6] = &[
    "1,1,present,0:1:16\n",
    "2,2,present,2147483648:0:12\n",
    "3,3,present,0:2147483648:13\n",
    "4,4,present,2147483648:2147483648:14\n",
    "5,5,present,1:1:15\n",
    "6,6,moved,0:1:16\n",
];

const PUT_1: Record = Record {
    kind: PUT,
    number: 1,
    place: 0,
    moment: 11,
    len: 0,
};

const BEGIN_1: Record = Record {
    kind: BEGIN,
    number: 1,
    place: 0,
    moment: 0,
    len: 0,
};

const BEGIN_2: Record = Record {
    number: 2,
    ..BEGIN_1
};

const INSTALL_1: Record = Record {
    kind: INSTALL,
    ..BEGIN_1
};

const INSTALL_2: Record = Record {
    kind: INSTALL,
    ..BEGIN_2
};

const MOVE_1: Record = Record {
    kind: MOVE,
    number: 1,
    place: 1,
    moment: 16,
    len: 0,
};

const PUT_2: Record = Record {
    number: 2,
    place: 0x8000_0000_0000_0000,
    moment: 12,
    ..PUT_1
};

const PUT_3: Record = Record {
    number: 3,
    place: 0x8000_0000,
    moment: 13,
    ..PUT_1
};

const PUT_4: Record = Record {
    number: 4,
    place: 0x8000_0000_8000_0000,
    moment: 14,
    ..PUT_1
};

const PUT_5: Record = Record {
    number: 5,
    place: 0x1_0000_0001,
    moment: 15,
    ..PUT_1
};

/// The records that these rows leave. The split of the one leaf comes before the move, and the late move has none.
pub const WHOLE: &[Record] = &[
    PUT_1, PUT_2, PUT_3, PUT_4, PUT_5, BEGIN_1, INSTALL_1, MOVE_1,
];

const FOUR_PUTS: &[Record] = &[PUT_1, PUT_2, PUT_3, PUT_4];

// The same over a log whose split was begun. It is begun again.
const BEGUN_ANEW: &[Record] = &[
    PUT_1, PUT_2, PUT_3, PUT_4, PUT_5, BEGIN_1, BEGIN_2, INSTALL_2, MOVE_1,
];

// The same over a log that has them all. The move leaves its record again.
const MOVED_TWICE: &[Record] = &[
    PUT_1, PUT_2, PUT_3, PUT_4, PUT_5, BEGIN_1, INSTALL_1, MOVE_1, MOVE_1,
];

// The records that the rows leave over a log of the first ones of them.
fn records_over(first: usize) -> &'static [Record] {
    match first {
        6 => BEGUN_ANEW,
        8 => MOVED_TWICE,
        _ => WHOLE,
    }
}

// The text after these lines.
fn behind<'a>(text: &'a [u8], lines: &[&str]) -> Option<&'a [u8]> {
    let mut rest = text;
    for line in lines {
        rest = rest.strip_prefix(line.as_bytes())?;
    }
    Some(rest)
}

// Whether these are the lines of the rows over a log of the first of their records.
fn is_output(text: &[u8], first: usize) -> bool {
    let again = if first == 8 { AGAIN_MOVED } else { AGAIN };
    let (again, _) = again.split_at(first.min(6));
    let (_, fresh) = FRESH.split_at(first.min(6));
    let rest = behind(text, &["row,place,answer,detail\n"]);
    let rest = rest.and_then(|rest| behind(rest, again));
    rest.and_then(|rest| behind(rest, fresh)) == Some(&[])
}

const HALF: u32 = 1 << 31;

macro_rules! object {
    ($id:expr, $x:expr, $y:expr, $moment:expr) => {
        Member {
            id: $id,
            at: Point { x: $x, y: $y },
            moment: $moment,
        }
    };
}

// The objects in the order of their ids, before the move.
const OBJECTS: &[Member; 5] = &[
    object!(1, 0, 0, 11),
    object!(2, HALF, 0, 12),
    object!(3, 0, HALF, 13),
    object!(4, HALF, HALF, 14),
    object!(5, 1, 1, 15),
];

const MOVED_OBJECTS: &[Member; 5] = &[
    object!(1, 0, 1, 16),
    object!(2, HALF, 0, 12),
    object!(3, 0, HALF, 13),
    object!(4, HALF, HALF, 14),
    object!(5, 1, 1, 15),
];

// Whether these are the objects of the first `count` records.
fn are_objects(objects: &[Member], count: usize) -> bool {
    let all = if count == 8 { MOVED_OBJECTS } else { OBJECTS };
    let (wanted, _) = all.split_at(count.min(5));
    objects == wanted
}

// The numbers of cells, points, leaves, unfinished splits, and splits that were begun, after each number of records. A
// split creates two leaves.
const COUNTS: &[[u64; 5]] = &[
    [0, 0, 1, 0, 0],
    [1, 1, 1, 0, 0],
    [2, 2, 1, 0, 0],
    [3, 3, 1, 0, 0],
    [4, 4, 1, 0, 0],
    [5, 5, 1, 0, 0],
    [6, 5, 1, 1, 1],
    [7, 5, 2, 0, 1],
    [8, 5, 2, 0, 1],
];

// The same for the width of the log.
fn counts_of(width: u8, count: usize) -> Option<[u64; 5]> {
    let [cells, points, leaves, unfinished, begun] = *COUNTS.get(count)?;
    let leaves = if leaves == 2 { children(width) } else { leaves };
    Some([cells, points, leaves, unfinished, begun])
}

// Whether a file is found to be a log of the first `count` records.
fn is_found<R: Abort>(rt: &R, alloc: Global, width: u8, file: &[u8], count: usize) -> bool {
    let found = found_in(rt, alloc, width, file).expect(rt, "a log is refused");
    counts_of(width, count) == Some(found.counts) && are_objects(found.objects.as_slice(), count)
}

// Fails unless `inspect` finds in each image of a run over a log of no records what its records say.
fn inspect_images<R: Abort>(rt: &R, alloc: Global, width: u8, left: &Left) {
    let mut last: &[u8] = &[];
    for image in images_of(rt, alloc, left).iter() {
        let bytes = image.bytes.as_slice();
        if bytes != last {
            let count = front(width, bytes, WHOLE).unwrap_or(9);
            let is_found = is_found(rt, alloc, width, bytes, count);
            must(rt, is_found, "found at moment", image.moment);
        }
        last = bytes;
    }
}

// The start of a run: a log of this width that has the first of these records, maybe with bytes after them.
#[derive(Clone, Copy)]
struct Start<'a> {
    width: u8,
    file: &'a [u8],
    first: usize,
}

// Plays the rows over a file while these calls fail.
fn play<R: Abort + Threads + Wait + Sync>(
    rt: &R,
    alloc: Global,
    file: &[u8],
    calls: &[Failing],
) -> Left {
    run_plan(rt, alloc, &playing(INPUT, file, calls))
}

// Plays the rows over a file while no call fails.
fn play_over<R: Abort + Threads + Wait + Sync>(rt: &R, alloc: Global, start: &Start<'_>) {
    let Start { width, file, first } = *start;
    let left = play(rt, alloc, file, &[]);
    let is_told = left.status == 0 && is_output(left.taken.as_slice(), first);
    must(rt, is_told, "lines over", first as u64);
    let records = records_over(first);
    must(
        rt,
        is_log_of(rt, alloc, width, left.file(), records),
        "file over",
        first as u64,
    );
    let trial = Trial {
        width,
        file,
        first,
        records,
        is_closed: false,
    };
    judge_images(rt, alloc, &trial, &left);
}

// Plays the rows again over each image that a crash may leave at the end of a run.
fn play_again<R: Abort + Threads + Wait + Sync>(rt: &R, alloc: Global, width: u8, left: &Left) {
    let mut last: &[u8] = &[];
    for image in images_of(rt, alloc, left).iter() {
        let bytes = image.bytes.as_slice();
        if image.moment == left.disk.moments() && bytes != last {
            let first = front(width, bytes, WHOLE).unwrap_or(9);
            let start = Start {
                width,
                file: bytes,
                first,
            };
            play_over(rt, alloc, &start);
            last = bytes;
        }
    }
}

// The cell of the append to which a failing call belongs, after the first ones. An append has two writes and two syncs,
// and opening has one sync.
fn cell_of(first: usize, failing: Failing) -> Option<u64> {
    let before = match failing.call {
        DiskCall::Write => failing.number.saturating_sub(1) / 2,
        DiskCall::Sync if failing.number > 1 => failing.number.saturating_sub(2) / 2,
        _ => return None,
    };
    Some(before.saturating_add(first as u64))
}

// Checks a run whose call failed by the cell of its append, if it has one.
fn judge_failed<R: Abort + Threads + Wait + Sync>(
    rt: &R,
    alloc: Global,
    start: &Start<'_>,
    failing: Failing,
) {
    let Start { width, file, first } = *start;
    let left = play(rt, alloc, file, &[failing]);
    let cell = cell_of(first, failing);
    must(
        rt,
        is_refused(rt, alloc, &left, cell),
        "line of call",
        failing.number,
    );
    let is_opened = cell.is_some() || left.history().is_empty();
    must(rt, is_opened, "history of call", failing.number);
    let trial = Trial {
        width,
        file,
        first,
        records: WHOLE,
        is_closed: cell.is_some(),
    };
    judge_images(rt, alloc, &trial, &left);
    judge_last(rt, alloc, width, &left);
}

// What a crash leaves of a run is found to be what it is, and can be played over.
fn judge_last<R: Abort + Threads + Wait + Sync>(rt: &R, alloc: Global, width: u8, left: &Left) {
    inspect_images(rt, alloc, width, left);
    play_again(rt, alloc, width, left);
}

// A play in which no call fails, or in which the failing call isn't made.
fn judge_whole<R: Abort + Threads + Wait + Sync>(
    rt: &R,
    alloc: Global,
    start: &Start<'_>,
    calls: &[Failing],
) {
    let left = play(rt, alloc, start.file, calls);
    must(
        rt,
        left.status == 0,
        "status where nothing fails",
        left.status as u64,
    );
    judge_last(rt, alloc, start.width, &left);
}

// How many calls a play makes over the first `first` records. The length is read once, and the head is read before the
// records. An append has two writes and two syncs, and there are eight of all records. Opening has one sync, and cuts
// nothing if the log ends with its commit byte.
fn play_calls(first: usize) -> [(DiskCall, u64); 6] {
    let writes = 16_u64.saturating_sub(2_u64.saturating_mul(first as u64));
    [
        (DiskCall::Attach, 1),
        (DiskCall::Len, 1),
        (DiskCall::Read, 2),
        (DiskCall::Write, writes),
        (DiskCall::Cut, 0),
        (DiskCall::Sync, writes.saturating_add(1)),
    ]
}

// Lets each call of a kind fail once, and then one more than there are.
fn fail_each<R: Abort + Threads + Wait + Sync>(
    rt: &R,
    alloc: Global,
    start: &Start<'_>,
    call: DiskCall,
    count: u64,
) {
    for number in 1..=count {
        judge_failed(rt, alloc, start, Failing { call, number });
    }
    let number = count.saturating_add(1);
    judge_whole(rt, alloc, start, &[Failing { call, number }]);
}

fn every_call<R: Abort + Threads + Wait + Sync>(rt: &R, alloc: Global, start: &Start<'_>) {
    play_over(rt, alloc, start);
    judge_whole(rt, alloc, start, &[]);
    for (call, count) in play_calls(start.first) {
        fail_each(rt, alloc, start, call, count);
    }
}

const FROM_NOTHING: &Start<'static> = &Start {
    width: 1,
    file: EMPTY_LOG,
    first: 0,
};

#[test]
fn each_call_of_a_play_fails_in_turn_and_nothing_is_lost(rt: HostRuntime) {
    every_call(&rt, rt.alloc(), FROM_NOTHING);
}

// The same over a quad log that has four of the puts.
fn every_call_behind_four<R: Abort + Threads + Wait + Sync>(rt: &R, alloc: Global) {
    let file = log_of(alloc, 2, FOUR_PUTS, &[0]).expect(rt, "it failed");
    let start = Start {
        width: 2,
        file: file.as_slice(),
        first: 4,
    };
    every_call(rt, alloc, &start);
}

#[test]
fn each_call_of_a_play_over_a_quad_log_fails_in_turn_and_nothing_is_lost(rt: HostRuntime) {
    every_call_behind_four(&rt, rt.alloc());
}

// Creates a log again over each image of an `init`. The image has at most 17 bytes, so `init` accepts it.
fn make_again<R: Abort + Threads + Wait + Sync>(rt: &R, alloc: Global, left: &Left) {
    let mut last: &[u8] = &[0; 18];
    for image in images_of(rt, alloc, left).iter() {
        let bytes = image.bytes.as_slice();
        if bytes != last {
            must(rt, bytes.len() <= 17, "how long at moment", image.moment);
            is_left(rt, alloc, &making(bytes, &[]));
        }
        last = bytes;
    }
}

const MAKING: &Case<'static> = &Case { input: "", ..INIT };

// Creates a log over a file while these calls fail.
fn making<'a>(file: &'a [u8], calls: &'a [Failing]) -> Case<'a> {
    Case {
        file: Some(file),
        calls,
        ..*MAKING
    }
}

const SHORT_FILES: &[&[u8]] = &[b"", b"MDLOC", EMPTY_LOG, &[1; 17]];

const INIT_CALLS: &[(DiskCall, u64)] = &[
    (DiskCall::Attach, 1),
    (DiskCall::Len, 1),
    (DiskCall::Read, 0),
    (DiskCall::Write, 1),
    (DiskCall::Cut, 0),
    (DiskCall::Sync, 1),
];

// Lets each call of a kind fail once in an `init`, and then one more than there are.
fn fail_each_of_init<R: Abort + Threads + Wait + Sync>(
    rt: &R,
    alloc: Global,
    file: &[u8],
    call: DiskCall,
    count: u64,
) {
    for number in 1..=count.saturating_add(1) {
        let calls = [Failing { call, number }];
        let making = making(file, &calls);
        let left = run_case(rt, alloc, &making);
        let is_as_wanted = if number > count {
            making.is_left(&left)
        } else {
            left.tells(7, "refused disk\n")
        };
        must(rt, is_as_wanted, "init, call", number);
        make_again(rt, alloc, &left);
    }
}

fn every_call_of_init<R: Abort + Threads + Wait + Sync>(rt: &R, alloc: Global, file: &[u8]) {
    for (call, count) in INIT_CALLS {
        fail_each_of_init(rt, alloc, file, *call, *count);
    }
}

#[test]
fn each_call_of_an_init_fails_in_turn_and_it_can_be_run_again(rt: HostRuntime) {
    for file in SHORT_FILES {
        every_call_of_init(&rt, rt.alloc(), file);
    }
}
