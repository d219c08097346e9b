//! Rows that are played over a log: what is kept, what a later run finds, and splits.
use crate::checks::{CHECK, Case, EMPTY, INIT, ONE_PUT, PLAY_BY_4, each_is_left, is_left};
use crate::hostile::records::{BEGIN, INSTALL, PUT, Record, log_of};
use crate::memory::{PUT_LOG, TWO_LEAVES_LOG};
use std::alloc::{AllocError, Global};
use std::process::Abort;
use std::sync::Wait;
use std::thread::Threads;

// A log of begin 1 of the empty name.
const BEGUN_LOG: &[u8] = b"MDLOCLOG\x02\x01\0\0\0\0\0\0\
    \x01\x04\0\0\0\0\0\0\0\x01\0\0\0\0\0\0\0\0\0\0\0\0\0\0\0\0\0\0\0\0\0\0\
    \0";

// A log of begin 1 of the empty name, the five puts below, begin 2 of the empty name, and install 2.
const BEGUN_ANEW_LOG: &[u8] = b"MDLOCLOG\x02\x01\0\0\0\0\0\0\
    \x01\x04\0\0\0\0\0\0\0\x01\0\0\0\0\0\0\0\0\0\0\0\0\0\0\0\0\0\0\0\0\0\0\
    \x01\x01\0\0\0\0\0\0\0\x01\0\0\0\0\0\0\0\0\0\0\0\0\0\0\0\0\0\0\0\0\0\0\
    \x01\x01\0\0\0\0\0\0\0\x02\x80\0\0\0\0\0\0\0\0\0\0\0\0\0\0\0\0\0\0\0\0\0\
    \x01\x01\0\0\0\0\0\0\0\x03\0\0\0\0\x80\0\0\0\0\0\0\0\0\0\0\0\0\0\0\0\0\0\
    \x01\x01\0\0\0\0\0\0\0\x04\x80\0\0\0\x80\0\0\0\0\0\0\0\0\0\0\0\0\0\0\0\0\0\
    \x01\x01\0\0\0\0\0\0\0\x05\0\0\0\x01\0\0\0\x01\0\0\0\0\0\0\0\0\0\0\0\0\0\0\
    \x01\x04\0\0\0\0\0\0\0\x02\0\0\0\0\0\0\0\0\0\0\0\0\0\0\0\0\0\0\0\0\0\0\
    \x01\x05\0\0\0\0\0\0\0\x02\0\0\0\0\0\0\0\0\0\0\0\0\0\0\0\0\0\0\0\0\0\0\
    \0";

const CORNERS: &str = rows!(
    "1,put,1,0,0,,,0\n1,put,2,2147483648,0,,,0\n1,put,3,0,2147483648,,,0\n1,put,4,2147483648,2147483648,,,0\n1,put,5,1,1,,,0\n"
);

const BOX: &str = rows!("1,box,,0,0,3,5,\n");

const ONE_CELL: &str = "cells 1\npoints 1\nleaves 1\nunfinished 0\n";

// A log of put 7 at (3,5), with 40 bytes after it.
const LONG_LOG: &[u8] = b"MDLOCLOG\x02\x01\0\0\0\0\0\0\
    \x01\x01\0\0\0\0\0\0\0\x07\0\0\0\x03\0\0\0\x05\0\0\0\0\0\0\0\0\0\0\0\0\0\0\
    \0\
    \x05\x05\x05\x05\x05\x05\x05\x05\x05\x05\x05\x05\x05\x05\x05\x05\x05\x05\x05\x05\
    \x05\x05\x05\x05\x05\x05\x05\x05\x05\x05\x05\x05\x05\x05\x05\x05\x05\x05\x05\x05";

// A put is found again, the bytes after a log are cut off, and a split that was begun is unfinished.
const FOUND: &[Case<'static>] = &[
    Case {
        name: "a put",
        input: rows!("1,put,7,3,5,,,0\n"),
        text: lines!("1,1,done,\n"),
        held: PUT_LOG,
        entries: 1,
        ..EMPTY
    },
    Case {
        name: "check behind the put",
        words: &["check", "log"],
        text: ONE_CELL,
        ..ONE_PUT
    },
    Case {
        name: "the put again",
        input: rows!("1,put,7,3,5,,,0\n"),
        text: lines!("1,1,present,3:5:0\n"),
        entries: 1,
        ..ONE_PUT
    },
    Case {
        name: "init behind the put",
        file: Some(PUT_LOG),
        status: 10,
        text: "refused in use 49\n",
        held: PUT_LOG,
        ..INIT
    },
    Case {
        name: "check of a log with bytes behind it",
        file: Some(LONG_LOG),
        text: ONE_CELL,
        held: LONG_LOG,
        ..CHECK
    },
    Case {
        name: "a play over a log with bytes behind it",
        input: rows!("1,where,7,,,,,\n"),
        file: Some(LONG_LOG),
        text: lines!("1,1,at,3:5:0\n"),
        held: PUT_LOG,
        entries: 1,
        ..EMPTY
    },
    Case {
        name: "check of a split that was begun",
        file: Some(BEGUN_LOG),
        text: "cells 1\npoints 0\nleaves 1\nunfinished 1\n",
        held: BEGUN_LOG,
        ..CHECK
    },
];

#[test]
fn a_later_run_finds_what_a_log_keeps(rt: HostRuntime) {
    each_is_left(&rt, rt.alloc(), FOUND);
}

const FIVE_LINES: &str = lines!("1,1,done,\n2,2,done,\n3,3,done,\n4,4,done,\n5,5,done,\n");

const PUTS_BY_4: Case<'static> = Case {
    name: "five puts with buckets of 4",
    words: PLAY_BY_4,
    input: CORNERS,
    text: FIVE_LINES,
    held: TWO_LEAVES_LOG,
    entries: 7,
    ..EMPTY
};

const BOX_BY_4: Case<'static> = Case {
    name: "a box of two of five points",
    words: PLAY_BY_4,
    input: BOX,
    file: Some(TWO_LEAVES_LOG),
    text: lines!("1,1,found,1:0:0;5:1:1\n"),
    held: TWO_LEAVES_LOG,
    entries: 1,
    ..EMPTY
};

// What the puts leave is found again. A split that the log left open is begun again.
const SPLITS: &[Case<'static>] = &[
    PUTS_BY_4,
    Case {
        name: "check of a split",
        file: Some(TWO_LEAVES_LOG),
        text: "cells 7\npoints 5\nleaves 2\nunfinished 0\n",
        held: TWO_LEAVES_LOG,
        ..CHECK
    },
    BOX_BY_4,
    Case {
        name: "five puts over a split that was begun",
        file: Some(BEGUN_LOG),
        held: BEGUN_ANEW_LOG,
        ..PUTS_BY_4
    },
    Case {
        name: "check of a split that was begun anew",
        file: Some(BEGUN_ANEW_LOG),
        text: "cells 8\npoints 5\nleaves 2\nunfinished 0\n",
        held: BEGUN_ANEW_LOG,
        ..CHECK
    },
    Case {
        name: "a box over a split that was begun anew",
        file: Some(BEGUN_ANEW_LOG),
        held: BEGUN_ANEW_LOG,
        ..BOX_BY_4
    },
];

// The key of (3,5). Its first bits are the names of the leaves that have it.
const KEY: u64 = 0b11011;

/// A log of puts 1 to 5 at (3,5), and so many splits of this width, each of the leaf that has them.
pub fn many_leaves_log(alloc: Global, width: u8, splits: u8) -> Result<Vec<u8>, AllocError> {
    let mut records = Vec::new(alloc);
    for number in 1..=5 {
        records.push(Record {
            kind: PUT,
            number,
            place: 0x3_0000_0005,
            moment: 0,
            len: 0,
        })?;
    }
    for before in 0..splits {
        add_split(&mut records, before, before.saturating_mul(width))?;
    }
    log_of(alloc, width, records.as_slice(), &[0])
}

// Adds the begin and the install of the split after so many others, of the leaf whose name has `len` bits.
fn add_split(records: &mut Vec<Record>, before: u8, len: u8) -> Result<(), AllocError> {
    let begin = Record {
        kind: BEGIN,
        number: (before as u64).saturating_add(1),
        place: KEY & !u64::MAX.checked_shr(len as u32).unwrap_or(0),
        moment: 0,
        len,
    };
    records.push(begin)?;
    records.push(Record {
        kind: INSTALL,
        place: 0,
        len: 0,
        ..begin
    })?;
    Ok(())
}

// Five puts at one point, over a log of no cells.
const AT_ONE_POINT: &Case<'static> = &Case {
    name: "five puts at one point",
    input: rows!(
        "1,put,1,3,5,,,0\n1,put,2,3,5,,,0\n1,put,3,3,5,,,0\n1,put,4,3,5,,,0\n1,put,5,3,5,,,0\n"
    ),
    entries: 133,
    ..PUTS_BY_4
};

// What is found in the log that they leave.
const FOUND_AT_ONE_POINT: &[Case<'static>] = &[
    Case {
        name: "check of 65 leaves",
        text: "cells 133\npoints 5\nleaves 65\nunfinished 0\n",
        ..CHECK
    },
    Case {
        name: "a box over 65 leaves",
        text: lines!("1,1,found,1:3:5;2:3:5;3:3:5;4:3:5;5:3:5\n"),
        ..BOX_BY_4
    },
];

fn leaving(held: &[u8]) -> Case<'_> {
    Case {
        held,
        ..*AT_ONE_POINT
    }
}

// Five puts at one point lead to as many splits as a name may have bits, and are found again.
fn splits_of_one_point<R: Abort + Threads + Wait + Sync>(rt: &R, alloc: Global) {
    let log = many_leaves_log(alloc, 1, 64).expect(rt, "it failed");
    let log = log.as_slice();
    is_left(rt, alloc, &leaving(log));
    for case in FOUND_AT_ONE_POINT {
        is_left(rt, alloc, &case.over(log));
    }
}

#[test]
fn splits_are_kept_and_found_again(rt: HostRuntime) {
    each_is_left(&rt, rt.alloc(), SPLITS);
    splits_of_one_point(&rt, rt.alloc());
}
