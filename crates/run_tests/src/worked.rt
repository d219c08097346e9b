//! Worked rows and their lines, and the bytes that rows leave in a log.
use crate::checks::{Case, EMPTY, NO_LOG, PLAY_BY_4, each_is_left, holds, run_case};
use crate::memory::{EMPTY_LOG, Left};
use std::alloc::{AllocError, Global};
use std::process::Abort;
use std::sync::Wait;
use std::thread::Threads;

// A log of put 7 at (3,5), move 7 to (4,5) and remove 7.
const CHANGED_LOG: &[u8] = b"MDLOCLOG\x02\x01\0\0\0\0\0\0\
    \x01\x01\0\0\0\0\0\0\0\x07\0\0\0\x03\0\0\0\x05\0\0\0\0\0\0\0\0\0\0\0\0\0\0\
    \x01\x02\0\0\0\0\0\0\0\x07\0\0\0\x04\0\0\0\x05\0\0\0\0\0\0\0\0\0\0\0\0\0\0\
    \x01\x03\0\0\0\0\0\0\0\x07\0\0\0\0\0\0\0\0\0\0\0\0\0\0\0\0\0\0\0\0\0\0\
    \0";

// A log of put 7 at (3,5) and put 8 at (4,5).
const TWO_PUTS_LOG: &[u8] = b"MDLOCLOG\x02\x01\0\0\0\0\0\0\
    \x01\x01\0\0\0\0\0\0\0\x07\0\0\0\x03\0\0\0\x05\0\0\0\0\0\0\0\0\0\0\0\0\0\0\
    \x01\x01\0\0\0\0\0\0\0\x08\0\0\0\x04\0\0\0\x05\0\0\0\0\0\0\0\0\0\0\0\0\0\0\
    \0";

// A log of puts 1 to 5, begin 1 of the empty name, install 1, and put 6 at (2,2).
const SPLIT_LOG: &[u8] = b"MDLOCLOG\x02\x01\0\0\0\0\0\0\
    \x01\x01\0\0\0\0\0\0\0\x01\0\0\0\0\0\0\0\0\0\0\0\0\0\0\0\0\0\0\0\0\0\0\
    \x01\x01\0\0\0\0\0\0\0\x02\x80\0\0\0\0\0\0\0\0\0\0\0\0\0\0\0\0\0\0\0\0\0\
    \x01\x01\0\0\0\0\0\0\0\x03\0\0\0\0\x80\0\0\0\0\0\0\0\0\0\0\0\0\0\0\0\0\0\
    \x01\x01\0\0\0\0\0\0\0\x04\x80\0\0\0\x80\0\0\0\0\0\0\0\0\0\0\0\0\0\0\0\0\0\
    \x01\x01\0\0\0\0\0\0\0\x05\0\0\0\x01\0\0\0\x01\0\0\0\0\0\0\0\0\0\0\0\0\0\0\
    \x01\x04\0\0\0\0\0\0\0\x01\0\0\0\0\0\0\0\0\0\0\0\0\0\0\0\0\0\0\0\0\0\0\
    \x01\x05\0\0\0\0\0\0\0\x01\0\0\0\0\0\0\0\0\0\0\0\0\0\0\0\0\0\0\0\0\0\0\
    \x01\x01\0\0\0\0\0\0\0\x06\0\0\0\x02\0\0\0\x02\0\0\0\0\0\0\0\0\0\0\0\0\0\0\
    \0";

// Ties go to the lesser id, a box has both its corners, and a change returns where the object was.
const ROWS: &[Case<'static>] = &[
    Case {
        name: "the nearest of two that are as near",
        input: rows!("1,put,9,0,1,,,0\n1,put,3,1,0,,,0\n1,near,,0,0,1,,\n"),
        text: lines!("1,1,done,\n2,2,done,\n3,3,found,3:1:0\n"),
        entries: 3,
        ..NO_LOG
    },
    Case {
        name: "both of two that are as near",
        input: rows!("1,put,9,0,5,,,0\n1,put,4,3,4,,,0\n1,near,,0,0,1,,\n1,near,,0,0,2048,,\n"),
        text: lines!("1,1,done,\n2,2,done,\n3,3,found,4:3:4\n4,4,found,4:3:4;9:0:5\n"),
        entries: 4,
        ..NO_LOG
    },
    Case {
        name: "none of two that are as near",
        input: rows!("1,put,9,0,5,,,0\n1,put,4,3,4,,,0\n1,near,,0,0,0,,\n"),
        status: 3,
        text: "refused row 3 column 6\n",
        ..NO_LOG
    },
    Case {
        name: "boxes of one point and of none",
        input: rows!("1,put,7,3,5,,,0\n1,box,,3,5,3,5,\n1,box,,0,0,2,2,\n"),
        text: lines!("1,1,done,\n2,2,found,7:3:5\n3,3,found,\n"),
        entries: 3,
        ..NO_LOG
    },
    Case {
        name: "a box whose corners are exchanged",
        input: rows!("1,put,7,3,5,,,0\n1,box,,4,5,3,5,\n"),
        status: 3,
        text: "refused row 2 column 6\n",
        ..NO_LOG
    },
    Case {
        name: "eight rows of one object",
        input: rows!(
            "1,put,7,3,5,,,0\n1,put,7,8,8,,,0\n1,move,7,8,8,,,0\n1,drop,7,,,,,\n1,drop,7,,,,,\n1,move,7,4,5,,,0\n1,where,7,,,,,\n1,box,,0,0,8,8,\n"
        ),
        text: lines!(
            "1,1,done,\n2,2,present,3:5:0\n3,3,moved,3:5:0\n4,4,gone,8:8:0\n5,5,absent,\n6,6,absent,\n7,7,absent,\n8,8,found,\n"
        ),
        entries: 8,
        ..NO_LOG
    },
];

#[test]
fn ties_boxes_and_changes_have_their_lines(rt: HostRuntime) {
    each_is_left(&rt, rt.alloc(), ROWS);
}

// An input of puts of ids from 0 on at (id,0), and these rows.
fn puts_and(alloc: Global, count: u32, rows: &str) -> Result<String, AllocError> {
    let mut all = String::from_str(alloc, NO_LOG.input)?;
    for id in 0..count {
        add_put(alloc, &mut all, id)?;
    }
    all.push_str(rows)?;
    Ok(all)
}

fn add_put(alloc: Global, all: &mut String, id: u32) -> Result<(), AllocError> {
    let row = format!(in alloc; "1,put,{id},{id},0,,,0\n")?;
    all.push_str(&row)
}

const BESIDE_A_FILE: &Case<'static> = &Case {
    file: Some(&[]),
    ..NO_LOG
};

fn playing(input: &str) -> Case<'_> {
    Case {
        input,
        ..*BESIDE_A_FILE
    }
}

// Fails unless the lines of so many puts and this query end in this text.
fn ends_in<R: Abort + Threads + Wait + Sync>(
    rt: &R,
    alloc: Global,
    count: u32,
    query: &str,
    end: &str,
) {
    let input = puts_and(alloc, count, query).expect(rt, "it failed");
    let left = run_case(rt, alloc, &playing(&input));
    holds(rt, has_end(&left, end), query);
}

fn has_end(left: &Left, end: &str) -> bool {
    left.status == 0 && left.taken.as_slice().ends_with(end.as_bytes())
}

const MANY: &[(u32, &str, &str)] = &[
    (2_048, "1,box,,0,0,9999,0,\n", ";2047:2047:0\n"),
    (2_049, "1,box,,0,0,9999,0,\n", "2050,2050,many,2049\n"),
    (2_049, "1,near,,0,0,2048,,\n", ";2047:2047:0\n"),
];

fn lists_and_counts<R: Abort + Threads + Wait + Sync>(rt: &R, alloc: Global) {
    for (count, query, end) in MANY {
        ends_in(rt, alloc, *count, query, end);
    }
}

#[test]
fn a_box_lists_2048_points_and_counts_2049(rt: HostRuntime) {
    lists_and_counts(&rt, rt.alloc());
}

// The first 48 bytes of a log of put 7 at (3,5), and 41 bytes after them that no log needs.
const TORN_LOG: &[u8] = b"MDLOCLOG\x02\x01\0\0\0\0\0\0\
    \x01\x01\0\0\0\0\0\0\0\x07\0\0\0\x03\0\0\0\x05\0\0\0\0\0\0\0\0\0\0\0\0\0\0\
    MMMMMMMMMMMMMMMMMMMMMMMMMMMMMMMMMMMMMMMMM";

// A log of put 7 at (3,5) and move 7 to (4,5), both with moment 10.
const MOVED_LOG: &[u8] = b"MDLOCLOG\x02\x01\0\0\0\0\0\0\
    \x01\x01\0\0\0\0\0\0\0\x07\0\0\0\x03\0\0\0\x05\0\0\0\0\0\0\0\x0a\0\0\0\0\0\0\
    \x01\x02\0\0\0\0\0\0\0\x07\0\0\0\x04\0\0\0\x05\0\0\0\0\0\0\0\x0a\0\0\0\0\0\0\
    \0";

// The same, remove 7, put 7 at (8,8), with moment 3, and move 7 to (8,8), with the last moment.
const MOVED_ON_LOG: &[u8] = b"MDLOCLOG\x02\x01\0\0\0\0\0\0\
    \x01\x01\0\0\0\0\0\0\0\x07\0\0\0\x03\0\0\0\x05\0\0\0\0\0\0\0\x0a\0\0\0\0\0\0\
    \x01\x02\0\0\0\0\0\0\0\x07\0\0\0\x04\0\0\0\x05\0\0\0\0\0\0\0\x0a\0\0\0\0\0\0\
    \x01\x03\0\0\0\0\0\0\0\x07\0\0\0\0\0\0\0\0\0\0\0\0\0\0\0\0\0\0\0\0\0\0\
    \x01\x01\0\0\0\0\0\0\0\x07\0\0\0\x08\0\0\0\x08\0\0\0\0\0\0\0\x03\0\0\0\0\0\0\
    \x01\x02\0\0\0\0\0\0\0\x07\0\0\0\x08\0\0\0\x08\xff\xff\xff\xff\xff\xff\xff\xff\0\0\0\0\0\0\
    \0";

// A late move, and one with an equal moment.
const LATE: Case<'static> = Case {
    name: "a late move",
    input: rows!("1,put,7,3,5,,,10\n1,move,7,4,5,,,9\n1,move,7,4,5,,,10\n1,where,7,,,,,\n"),
    text: lines!("1,1,done,\n2,2,stale,3:5:10\n3,3,moved,3:5:10\n4,4,at,4:5:10\n"),
    entries: 4,
    ..NO_LOG
};

const CHANGES: &[Case<'static>] = &[
    LATE,
    Case {
        name: "a late move over a log",
        words: &["play", "log"],
        file: Some(EMPTY_LOG),
        held: MOVED_LOG,
        attaches: "opens log\n",
        ..LATE
    },
    Case {
        name: "moves and a put behind the late move",
        input: rows!(
            "1,move,7,3,5,,,9\n1,put,7,3,5,,,11\n1,drop,7,,,,,\n1,put,7,8,8,,,3\n1,move,7,8,8,,,18446744073709551615\n1,where,7,,,,,\n"
        ),
        file: Some(MOVED_LOG),
        text: lines!(
            "1,1,stale,4:5:10\n2,2,present,4:5:10\n3,3,gone,4:5:10\n4,4,done,\n5,5,moved,8:8:3\n6,6,at,8:8:18446744073709551615\n"
        ),
        held: MOVED_ON_LOG,
        entries: 6,
        ..EMPTY
    },
    Case {
        name: "three changes",
        input: rows!("1,put,7,3,5,,,0\n1,move,7,4,5,,,0\n1,drop,7,,,,,\n"),
        text: lines!("1,1,done,\n2,2,moved,3:5:0\n3,3,gone,4:5:0\n"),
        held: CHANGED_LOG,
        entries: 3,
        ..EMPTY
    },
    Case {
        name: "a put over a torn log",
        input: rows!("1,put,8,4,5,,,0\n"),
        file: Some(TORN_LOG),
        text: lines!("1,1,done,\n"),
        held: TWO_PUTS_LOG,
        entries: 1,
        ..EMPTY
    },
    Case {
        name: "a leaf that is split before the next row",
        words: PLAY_BY_4,
        input: rows!(
            "1,put,1,0,0,,,0\n1,put,2,2147483648,0,,,0\n1,put,3,0,2147483648,,,0\n1,put,4,2147483648,2147483648,,,0\n1,put,5,1,1,,,0\n1,put,6,2,2,,,0\n"
        ),
        text: lines!("1,1,done,\n2,2,done,\n3,3,done,\n4,4,done,\n5,5,done,\n6,6,done,\n"),
        held: SPLIT_LOG,
        entries: 8,
        ..EMPTY
    },
];

#[test]
fn changes_and_splits_are_records_behind_the_last_commit_byte(rt: HostRuntime) {
    each_is_left(&rt, rt.alloc(), CHANGES);
}
