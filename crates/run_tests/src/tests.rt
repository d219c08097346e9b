//! Runs over no log: worked inputs, each refusal's line, and faults of both ends. Each call of a drive fails.
use crate::checks::{
    Case, NO_LOG, ONE_PUT, each_is_left, each_words_are_left, holds, is_left, run_case,
};
use crate::memory::repeated;
use std::alloc::Global;
use std::process::Abort;
use std::sync::Wait;
use std::thread::Threads;

const ROWS: &[Case<'static>] = &[
    Case {
        name: "two rows",
        input: rows!("1,put,7,3,5,,,0\n1,where,7,,,,,\n"),
        text: lines!("1,1,done,\n2,2,at,3:5:0\n"),
        entries: 2,
        ..NO_LOG
    },
    Case {
        name: "no rows",
        ..NO_LOG
    },
    Case {
        name: "queries of split leaves",
        words: &["play", "-", "--bucket", "4"],
        input: rows!(
            "1,put,1,0,0,,,0\n1,put,2,2147483648,0,,,0\n1,put,3,0,2147483648,,,0\n1,put,4,2147483648,2147483648,,,0\n1,put,5,1,1,,,0\n1,near,,0,0,2,,\n1,box,,0,0,1,1,\n"
        ),
        text: lines!(
            "1,1,done,\n2,2,done,\n3,3,done,\n4,4,done,\n5,5,done,\n6,6,found,1:0:0;5:1:1\n7,7,found,1:0:0;5:1:1\n"
        ),
        entries: 9,
        ..NO_LOG
    },
    Case {
        name: "no rows, and the largest buckets",
        words: &["play", "-", "--bucket", "4096"],
        ..NO_LOG
    },
];

#[test]
fn each_row_has_its_line(rt: HostRuntime) {
    each_is_left(&rt, rt.alloc(), ROWS);
}

const SEVERAL: &Case<'static> = &Case {
    input: rows!(
        "3,put,7,3,5,,,0\n1,put,8,4,6,,,0\n16,where,9,,,,,\n3,where,7,,,,,\n1,move,8,4,7,,,0\n"
    ),
    ..NO_LOG
};

// `?` is any place.
const IN_ORDER: &str = lines!("1,?,done,\n2,?,done,\n3,?,absent,\n4,?,at,3:5:0\n5,?,moved,4:6:0\n");

fn are_but_for_places(lines: &[u8], wanted: &[u8]) -> bool {
    for (byte, wanted) in lines.iter().zip(wanted) {
        if *wanted != b'?' && byte != wanted {
            return false;
        }
    }
    lines.len() == wanted.len()
}

// The places are those of one history, whichever thread came first.
fn keeps_the_order_of_rows<R: Abort + Threads + Wait + Sync>(rt: &R, alloc: Global) {
    let left = run_case(rt, alloc, SEVERAL);
    let is_in_order = are_but_for_places(left.taken.as_slice(), IN_ORDER.as_bytes());
    holds(
        rt,
        left.status == 0 && is_in_order,
        "lines of several sessions",
    );
}

#[test]
fn rows_of_several_sessions_have_their_lines_in_order(rt: HostRuntime) {
    keeps_the_order_of_rows(&rt, rt.alloc());
}

const REFUSED: Case<'static> = Case {
    status: 3,
    ..NO_LOG
};

const NOT_PLAYED: &[Case<'static>] = &[
    Case {
        name: "no input",
        input: "",
        text: "refused header\n",
        ..REFUSED
    },
    Case {
        name: "the header of rows without moments",
        input: "session,op,id,x,y,a,b\n1,put,7,3,5,,\n",
        text: "refused header\n",
        ..REFUSED
    },
    Case {
        name: "a row of seven fields",
        input: rows!("1,put,7,3,5,,\n"),
        text: "refused row 1 length\n",
        ..REFUSED
    },
    Case {
        name: "a sign in column 4",
        input: rows!("1,put,7,-3,5,,,0\n"),
        text: "refused row 1 column 4\n",
        ..REFUSED
    },
    Case {
        name: "a put without a moment",
        input: rows!("1,put,7,3,5,,,\n"),
        text: "refused row 1 column 8\n",
        ..REFUSED
    },
    Case {
        name: "session 17",
        input: rows!("1,where,7,,,,,\n17,where,7,,,,,\n"),
        text: "refused row 2 column 1\n",
        ..REFUSED
    },
    Case {
        name: "a source that fails",
        input: rows!("1,put,7,3,5,,,0\n"),
        reads: &[1],
        status: 5,
        text: "refused source\n",
        ..NO_LOG
    },
    Case {
        name: "a sink that fails",
        input: rows!("1,put,7,3,5,,,0\n"),
        puts: &[1],
        status: 6,
        text: "",
        entries: 1,
        ..NO_LOG
    },
];

#[test]
fn rows_and_ends_at_fault_have_their_line_and_status(rt: HostRuntime) {
    each_is_left(&rt, rt.alloc(), NOT_PLAYED);
}

const USAGE: &Case<'static> = &Case {
    name: "words that ask for no command",
    status: 2,
    text: "refused usage\n",
    ..NO_LOG
};

const NO_WORDS_OF_A_COMMAND: &[&[&str]] = &[
    &["play"],
    &["init", "-"],
    &["check", ""],
    &["play", "-log"],
    &["play", "", "--bucket", "4"],
    &["play", "-", "--bucket", "3"],
    &["play", "-", "--bucket", "4097"],
    &["play", "--bucket", "4", "-"],
];

// Nothing is attached, called or written. The source, which would fail, isn't read.
const UNTOUCHED: &Case<'static> = &Case {
    name: "words that ask for no command, beside a log",
    reads: &[1],
    status: 2,
    text: "refused usage\n",
    attaches: "",
    ..ONE_PUT
};

const OTHER_WORDS: &[&[&str]] = &[
    &[],
    &["play"],
    &["play", "log", "--bucket", "3"],
    &["play", "log", "--bucket"],
    &["init", "-"],
    &["init", "log", "log"],
    &["init", "log", "--quad", "--quad"],
    &["init", "--quad", "log"],
    &["check", "log", "--quad"],
    &["play", "log", "--quad"],
    &["show", "log", "5", "0", "4", "0"],
    &["show", "log", "0", "1", "0", "0"],
    &["show", "log", "0", "0", "0", "4294967296"],
    &["show", "-", "0", "0", "1", "1"],
    &["--help"],
    &["trial", "-", "0", "1"],
    &["trial", "-", "65537", "1"],
    &["trial", "log", "1", "18446744073709551616"],
    &["trial", "log", "1"],
    &["trial", "log", "1", "1", "--bucket", "4"],
    &["compact", "log"],
    &["compact", "log", "log"],
    &["compact", "-", "log"],
    &["compact", "log", "-"],
    &["compact", "", "log"],
    &["compact", "log", "new", "new"],
    &["watch"],
    &["watch", "-"],
    &["watch", "log", "log"],
    &["follow", "log"],
    &["follow", "log", "log"],
    &["follow", "-", "new"],
    &["follow", "log", "-"],
    &["follow", "log", "new", "new"],
];

#[test]
fn other_words_are_usage_and_touch_nothing(rt: HostRuntime) {
    each_words_are_left(&rt, rt.alloc(), USAGE, NO_WORDS_OF_A_COMMAND);
    each_words_are_left(&rt, rt.alloc(), UNTOUCHED, OTHER_WORDS);
}

const LIMITS: &[(u32, &str)] = &[
    (65_537, "refused limit rows\n"),
    (1_118_480, "refused limit bytes\n"),
];

const OVER_A_LIMIT: &Case<'static> = &Case {
    name: "an input over a limit",
    status: 8,
    ..NO_LOG
};

fn over_a_limit<'a>(input: &'a str, line: &'a str) -> Case<'a> {
    Case {
        input,
        text: line,
        ..*OVER_A_LIMIT
    }
}

// Fails unless an input of so many rows is refused with this line.
fn is_over_a_limit<R: Abort + Threads + Wait + Sync>(
    rt: &R,
    alloc: Global,
    count: u32,
    line: &str,
) {
    let input = repeated(alloc, NO_LOG.input, count, "1,where,7,,,,,\n").expect(rt, "it failed");
    is_left(rt, alloc, &over_a_limit(&input, line));
}

fn each_limit<R: Abort + Threads + Wait + Sync>(rt: &R, alloc: Global) {
    for (count, line) in LIMITS {
        is_over_a_limit(rt, alloc, *count, line);
    }
}

#[test]
fn the_65537th_row_and_too_many_bytes_are_over_a_limit(rt: HostRuntime) {
    each_limit(&rt, rt.alloc());
}
