//! What a log recovers to, and files that are no log.
use crate::checks::same_bytes;
use crate::logs::fixtures::{AT, Found, NOTHING, PUT_7, expect_found, expect_said, log_of};
use crate::memory::{EMPTY_LOG, disk_of};
use cell_format::{Cause, Cell};
use disk_trait::LogDisk;
use plain_list::Member;
use recovery::{InitFault, InitRefused, OpenFault, OpenRefused, init, open};
use std::alloc::Global;
use std::process::Abort;
use zorder::{Name, Point};

// Creates a log on a drive. Returns the drive, and why no log was created.
fn made_on<D: LogDisk>(disk: D) -> (D, Option<InitFault>) {
    match init(disk, 1) {
        Ok(disk) => (disk, None),
        Err(InitRefused { disk, cause }) => (disk, Some(cause)),
    }
}

// Creates a log in a file with these bytes, and fails unless the file holds this then.
fn expect_made(
    rt: &impl Abort,
    alloc: Global,
    bytes: &[u8],
    fault: Option<InitFault>,
    held: &[u8],
) {
    let (disk, told) = made_on(disk_of(rt, alloc, bytes, &[]));
    assert_same!(rt; told, fault);
    same_bytes(rt, disk.bytes(), held);
}

#[test]
fn a_new_log_is_a_header_and_a_clear_commit_byte(rt: HostRuntime) {
    expect_made(&rt, rt.alloc(), b"MDLOC", None, EMPTY_LOG);
    expect_said(&rt, rt.alloc(), EMPTY_LOG, 0, Ok(NOTHING));
}

#[test]
fn no_log_is_made_of_18_bytes(rt: HostRuntime) {
    let in_use = InitFault::InUse { len: 18 };
    expect_made(&rt, rt.alloc(), &[1; 18], Some(in_use), &[1; 18]);
}

// Opens the log on a drive. Returns how many cells were found, how many the log has, and the drive.
fn opened_on<D: LogDisk>(rt: &impl Abort, alloc: Global, disk: D) -> (u64, u64, D) {
    let Ok(opened) = open(alloc, disk, 1, 1) else {
        rt.panic("the log isn't opened")
    };
    let cells = opened.log.cells();
    (opened.seen.cells, cells, opened.log.give_back())
}

// Fails unless one cell is found in a file, its log has one, and the file is 49 bytes long then, the last of which is
// 77.
fn expect_opened(rt: &impl Abort, alloc: Global, bytes: &[u8]) {
    let (found, cells, disk) = opened_on(rt, alloc, disk_of(rt, alloc, bytes, &[]));
    let held = disk.bytes();
    assert_same!(rt; (found, cells, held.len(), held.last().copied()), (1, 1, 49, Some(77)));
}

// What a log of so many cells records that leave object 7 alone.
macro_rules! of_7 {
    ($version:expr, $cells:expr, $at:expr, $moment:expr) => {
        (
            [$version, $cells, 0, 0],
            (1, true),
            (
                1,
                Some(Member {
                    id: 7,
                    at: $at,
                    moment: $moment,
                }),
            ),
        )
    };
}

const ONE_PUT: Found = of_7!(2, 1, AT, 10);

// A log of one cell, and bytes after it that no record begins with.
fn torn_log(rt: &impl Abort, alloc: Global) -> Vec<u8> {
    let mut tail = [5; 41];
    tail[0] = 77;
    log_of(rt, alloc, &[PUT_7], &tail)
}

fn cuts_the_tail_off(rt: &impl Abort, alloc: Global) {
    let torn = torn_log(rt, alloc);
    expect_said(rt, alloc, torn.as_slice(), 1, Ok(ONE_PUT));
    expect_opened(rt, alloc, torn.as_slice());
}

#[test]
fn an_open_cuts_off_what_stands_behind_the_last_commit_byte(rt: HostRuntime) {
    cuts_the_tail_off(&rt, rt.alloc());
}

const DROP_7: Cell = Cell::Remove { id: 7 };

const BAD_KIND: &[u8] = &[
    1, 9, 0, 0, 0, 0, 0, 0, 0, 0, 0, 0, 0, 0, 0, 0, 0, 0, 0, 0, 0, 0, 0, 0, 0, 0, 0, 0, 0, 0, 0, 0,
    0,
];

macro_rules! damaged {
    ($cause:expr) => {
        OpenFault::Damaged {
            cell: 0,
            cause: $cause,
        }
    };
}

// Bytes after a header in which nothing is found for this reason.
const FAULTS: &[(&[u8], OpenFault)] = &[
    (BAD_KIND, damaged!(Cause::Kind)),
    (&[1], damaged!(Cause::ShortCell)),
    (&[], OpenFault::NotLog),
];

const OF_3: OpenFault = OpenFault::OldLog {
    version: 3,
    width: 1,
};

const LOG_OF_3: &[u8] = b"MDLOCLOG\x03\x01\0\0\0\0\0\0\0";

#[test]
fn the_first_place_at_fault_is_told(rt: HostRuntime) {
    for (tail, fault) in FAULTS {
        expect_found(&rt, rt.alloc(), &[], tail, 1, Err(*fault));
    }
    expect_said(&rt, rt.alloc(), LOG_OF_3, 1, Err(OF_3));
}

#[test]
fn a_drop_of_nothing_is_impossible_and_a_second_cell_one_too_many(rt: HostRuntime) {
    let too_long = OpenFault::TooLong { most: 1 };
    let impossible = damaged!(Cause::Impossible);
    expect_found(&rt, rt.alloc(), &[DROP_7], &[0], 1, Err(impossible));
    expect_found(&rt, rt.alloc(), &[PUT_7, DROP_7], &[0], 1, Err(too_long));
}

// A split that was begun, and one that was installed.
const BEGUN: Found = ([2, 1, 1, 1], (1, true), (0, None));

const INSTALLED: Found = ([2, 2, 1, 0], (2, false), (0, None));

#[test]
fn a_begin_alone_leaves_its_leaf(rt: HostRuntime) {
    let begin = Cell::Begin {
        number: 1,
        name: Name::whole(),
    };
    let cells = [begin, Cell::Install { number: 1 }];
    expect_found(&rt, rt.alloc(), &cells[..1], &[0], 16, Ok(BEGUN));
    expect_found(&rt, rt.alloc(), &cells, &[0], 16, Ok(INSTALLED));
}

const BESIDE: Point = Point { x: 4, y: 5 };

// A move after a put with moment 10.
fn move_of(moment: u64) -> Cell {
    Cell::Move {
        id: 7,
        at: BESIDE,
        moment,
    }
}

fn expect_behind_put(
    rt: &impl Abort,
    alloc: Global,
    moment: u64,
    wanted: Result<Found, OpenFault>,
) {
    let cells = [PUT_7, move_of(moment)];
    expect_found(rt, alloc, &cells, &[0], 16, wanted);
}

const LATE: OpenFault = OpenFault::Damaged {
    cell: 1,
    cause: Cause::Impossible,
};

// Moments of that move, and what is found.
const MOVES: &[(u64, Result<Found, OpenFault>)] = &[
    (9, Err(LATE)),
    (0, Err(LATE)),
    (10, Ok(of_7!(2, 2, BESIDE, 10))),
    (u64::MAX, Ok(of_7!(2, 2, BESIDE, u64::MAX))),
];

#[test]
fn a_move_of_a_lesser_moment_is_impossible(rt: HostRuntime) {
    for (moment, found) in MOVES {
        expect_behind_put(&rt, rt.alloc(), *moment, *found);
    }
}

// Put 7 at (3,5) in a log of version 1, and the same with byte 18 of its cell set.
const PUT_IN_1: &[u8] =
    b"MDLOCLOG\x01\x01\0\0\0\0\0\0\x01\x01\0\0\0\0\0\0\0\x07\0\0\0\x03\0\0\0\x05\0\0\0\0\0\0\0\0\0\0\0\0\0\0\0";

const BYTE_18_IN_1: &[u8] =
    b"MDLOCLOG\x01\x01\0\0\0\0\0\0\x01\x01\0\0\0\0\0\0\0\x07\0\0\0\x03\0\0\0\x05\x01\0\0\0\0\0\0\0\0\0\0\0\0\0\0";

const BYTE_18_IN_2: &[u8] =
    b"MDLOCLOG\x02\x01\0\0\0\0\0\0\x01\x01\0\0\0\0\0\0\0\x07\0\0\0\x03\0\0\0\x05\x01\0\0\0\0\0\0\0\0\0\0\0\0\0\0";

const VERSIONS: &[(&[u8], Result<Found, OpenFault>)] = &[
    (PUT_IN_1, Ok(of_7!(1, 1, AT, 0))),
    (BYTE_18_IN_1, Err(damaged!(Cause::Reserved))),
    (BYTE_18_IN_2, Ok(of_7!(2, 1, AT, 72_057_594_037_927_936))),
];

#[test]
fn a_log_is_read_as_its_header_says(rt: HostRuntime) {
    for (bytes, found) in VERSIONS {
        expect_said(&rt, rt.alloc(), bytes, 16, *found);
    }
}

// Why the log on a drive isn't opened. Returns the drive too.
fn unopened_on<D: LogDisk>(rt: &impl Abort, alloc: Global, disk: D) -> (OpenFault, D) {
    match open(alloc, disk, 1, 16) {
        Ok(_) => rt.panic("the log is opened"),
        Err(OpenRefused { disk, cause }) => (cause, disk),
    }
}

fn is_not_opened(rt: &impl Abort, alloc: Global, bytes: &[u8], fault: OpenFault) {
    let (cause, disk) = unopened_on(rt, alloc, disk_of(rt, alloc, bytes, &[]));
    assert_same!(rt; cause, fault);
    same_bytes(rt, disk.bytes(), bytes);
}

// Of version 1, even if a cell of it is damaged.
const OF_1: OpenFault = OpenFault::OldLog {
    version: 1,
    width: 1,
};

#[test]
fn a_log_of_version_1_is_not_opened(rt: HostRuntime) {
    for bytes in [PUT_IN_1, BYTE_18_IN_1] {
        is_not_opened(&rt, rt.alloc(), bytes, OF_1);
    }
    is_not_opened(&rt, rt.alloc(), LOG_OF_3, OF_3);
}
