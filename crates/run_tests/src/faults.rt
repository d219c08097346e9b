//! Plays over a log while an end fails, or while the log isn't opened.
use crate::checks::{CHECK, Case, EMPTY, each_is_left, holds, is_left, run_case};
use crate::memory::{Left, PUT_LOG};
use disk_mem::{DiskCall, Fail, MemDisk};
use plain_list::{Entry, Lost, Op};
use std::alloc::Global;
use std::process::Abort;
use std::sync::Wait;
use std::thread::Threads;
use zorder::Memory;

const ROW: &str = rows!("1,put,7,3,5,,,0\n");

// Whether this is the history of two calls, and of a third row whose put was lost.
fn is_third_put_lost(entries: &[Entry]) -> bool {
    match entries {
        [
            Entry::Call { .. },
            Entry::Call { .. },
            Entry::Fail { cell: 2, lost },
        ] => is_put_of_9(lost),
        _ => false,
    }
}

// Whether the put of 9 at (5,5) with moment 12, the third row, was lost.
fn is_put_of_9(lost: &Lost) -> bool {
    match lost {
        Lost::Call {
            session: 1,
            row: 3,
            op,
        } => is_put(op, 9, 5, 5, 12),
        _ => false,
    }
}

fn is_put(op: &Op, wanted: u64, x: u32, y: u32, since: u64) -> bool {
    match op {
        Op::Put { id, at, moment } => {
            *id == wanted && at.x == x && at.y == y && *moment == since
        }
        _ => false,
    }
}

// A crash image. Where a crash may leave any commit byte of the third cell, it has this one.
fn image_of(disk: &MemDisk, commit_byte: u8) -> Result<Vec<u8>, Memory> {
    match disk.pick(disk.moments(), 113, &[commit_byte]) {
        Ok(image) => Ok(image),
        Err(_) => Err(Memory),
    }
}

const THREE_PUTS: &Case<'static> = &Case {
    input: rows!("1,put,7,3,5,,,0\n1,put,8,4,5,,,0\n1,put,9,5,5,,,12\n"),
    ..EMPTY
};

// A run of three puts while these calls fail.
fn three_puts(calls: &[Fail]) -> Case<'_> {
    Case {
        calls,
        ..*THREE_PUTS
    }
}

const TWO_CELLS: &str = "cells 2\npoints 2\nleaves 1\nunfinished 0\n";

const THREE_CELLS: &str = "cells 3\npoints 3\nleaves 1\nunfinished 0\n";

// A run of three puts while the sync of this number fails.
fn run_failing<R: Abort + Threads + Wait + Sync>(rt: &R, alloc: Global, number: u64) -> Left {
    let call = DiskCall::Sync;
    run_case(rt, alloc, &three_puts(&[Fail { call, number }]))
}

// Fails unless such a run ends at the third put, the file holds these bytes then, and a crash leaves two puts or these
// bytes.
fn ends_at_the_third<R: Abort + Threads + Wait + Sync>(
    rt: &R,
    alloc: Global,
    number: u64,
    held: &str,
) {
    let left = run_failing(rt, alloc, number);
    holds(rt, has_lost_the_third(&left), "no put was lost");
    holds_so_much(rt, alloc, &left.disk, held);
}

fn has_lost_the_third(left: &Left) -> bool {
    left.tells(7, "refused disk cell 2\n") && is_third_put_lost(left.history())
}

fn holds_so_much<R: Abort + Threads + Wait + Sync>(
    rt: &R,
    alloc: Global,
    disk: &MemDisk,
    held: &str,
) {
    is_checked(rt, alloc, disk.bytes(), held);
    is_image_checked(rt, alloc, disk, 0, TWO_CELLS);
    is_image_checked(rt, alloc, disk, 1, held);
}

// Fails unless `check` writes this about the crash image with this commit byte.
fn is_image_checked<R: Abort + Threads + Wait + Sync>(
    rt: &R,
    alloc: Global,
    disk: &MemDisk,
    commit_byte: u8,
    counts: &str,
) {
    let image = image_of(disk, commit_byte).expect(rt, "it failed");
    is_checked(rt, alloc, image.as_slice(), counts);
}

const CHECKED: &Case<'static> = &CHECK;

fn checking<'a>(file: &'a [u8], counts: &'a str) -> Case<'a> {
    Case {
        file: Some(file),
        text: counts,
        held: file,
        ..*CHECKED
    }
}

// Fails unless `check` writes this about a file.
fn is_checked<R: Abort + Threads + Wait + Sync>(rt: &R, alloc: Global, file: &[u8], counts: &str) {
    is_left(rt, alloc, &checking(file, counts));
}

// In each image that a crash may leave, the commit byte of the third cell is clear, or it is set and the cell was
// synced before.
#[test]
fn a_failed_sync_ends_a_run_at_its_cell(rt: HostRuntime) {
    ends_at_the_third(&rt, rt.alloc(), 6, TWO_CELLS);
    ends_at_the_third(&rt, rt.alloc(), 7, THREE_CELLS);
}

const PUTS: Case<'static> = Case {
    input: ROW,
    ..EMPTY
};

const NO_LOG: Case<'static> = Case { status: 4, ..PUTS };

const REFUSED: Case<'static> = Case {
    status: 7,
    text: "refused disk\n",
    ..PUTS
};

// The first call of a kind.
macro_rules! first {
    ($call:expr) => {
        &[Fail {
            call: $call,
            number: 1,
        }]
    };
}

const SHORT: &[u8] = b"MDLOCLOG\x02\x01\0\0\0\0\0\0\x01";

const OTHER: &[u8] = b"MDLOCLOG\x03\x01\0\0\0\0\0\0\0";

const HEADER_ALONE: &[u8] = b"MDLOCLOG\x02\x01\0\0\0\0\0\0";

// A put that makes no call and leaves the file unchanged.
const UNOPENED: &[Case<'static>] = &[
    Case {
        name: "a put over a set commit byte alone",
        file: Some(SHORT),
        text: "refused cell 0 short\n",
        held: SHORT,
        ..NO_LOG
    },
    Case {
        name: "a put over another version",
        file: Some(OTHER),
        text: "refused log version 3 width 1\n",
        held: OTHER,
        ..NO_LOG
    },
    Case {
        name: "a put over a header alone",
        file: Some(HEADER_ALONE),
        text: "refused not a log\n",
        held: HEADER_ALONE,
        ..NO_LOG
    },
    Case {
        name: "a put over an empty file",
        file: Some(&[]),
        text: "refused not a log\n",
        held: &[],
        ..NO_LOG
    },
    Case {
        name: "a put where the attach fails",
        calls: first!(DiskCall::Attach),
        ..REFUSED
    },
    Case {
        name: "a put where the first sync fails",
        calls: first!(DiskCall::Sync),
        ..REFUSED
    },
    Case {
        name: "a put where the length fails",
        calls: first!(DiskCall::Len),
        ..REFUSED
    },
    Case {
        name: "a put where the first read fails",
        calls: first!(DiskCall::Read),
        ..REFUSED
    },
];

#[test]
fn a_log_that_is_not_opened_stays_as_it_was(rt: HostRuntime) {
    each_is_left(&rt, rt.alloc(), UNOPENED);
}

const IN_ORDER: &[Case<'static>] = &[
    Case {
        name: "neither the source nor the drive",
        reads: &[1],
        calls: first!(DiskCall::Attach),
        status: 5,
        text: "refused source\n",
        attaches: "",
        ..PUTS
    },
    Case {
        name: "a row at fault, and no drive",
        input: rows!("1,put,7,-3,5,,,0\n"),
        calls: first!(DiskCall::Attach),
        status: 3,
        text: "refused row 1 column 4\n",
        attaches: "",
        ..PUTS
    },
    Case {
        name: "a put, and no sink",
        puts: &[1],
        status: 6,
        text: "",
        held: PUT_LOG,
        entries: 1,
        ..PUTS
    },
];

#[test]
fn rows_come_before_the_log_and_lines_behind_it(rt: HostRuntime) {
    each_is_left(&rt, rt.alloc(), IN_ORDER);
}
