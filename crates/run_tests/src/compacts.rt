//! `compact` of worked logs into a second file. The source fails at once.
use crate::checks::{Case, EMPTY, ONE_PUT, is_left};
use crate::memory::{EMPTY_LOG, PUT_LOG, TWO_LEAVES_LOG};
use crate::pairs::{Pair, each_pair_is_left};
use disk_mem::{DiskCall, Fail};

/// `compact` of a log of no cells.
pub const RUN: Case<'static> = Case {
    name: "compact of no cells",
    words: &["compact", "log", "new"],
    input: "",
    reads: &[1],
    text: "compacted 0\n",
    ..EMPTY
};

/// `compact` of a log of no cells into no file.
pub const PAIR: Pair<'static> = Pair {
    run: RUN,
    new: &[],
    failing: &[],
    written: EMPTY_LOG,
    makes: "makes new\n",
};

// A log of version 1, of put 7 at (3,5).
const PUT_LOG_OF_1: &[u8] = b"MDLOCLOG\x01\x01\0\0\0\0\0\0\
    \x01\x01\0\0\0\0\0\0\0\x07\0\0\0\x03\0\0\0\x05\0\0\0\0\0\0\0\0\0\0\0\0\0\0\
    \0";

// Begin 1 of the empty name, install 1, and puts 1 to 5.
const FRESH_TWO_LEAVES_LOG: &[u8] = b"MDLOCLOG\x02\x01\0\0\0\0\0\0\
    \x01\x04\0\0\0\0\0\0\0\x01\0\0\0\0\0\0\0\0\0\0\0\0\0\0\0\0\0\0\0\0\0\0\
    \x01\x05\0\0\0\0\0\0\0\x01\0\0\0\0\0\0\0\0\0\0\0\0\0\0\0\0\0\0\0\0\0\0\
    \x01\x01\0\0\0\0\0\0\0\x01\0\0\0\0\0\0\0\0\0\0\0\0\0\0\0\0\0\0\0\0\0\0\
    \x01\x01\0\0\0\0\0\0\0\x02\x80\0\0\0\0\0\0\0\0\0\0\0\0\0\0\0\0\0\0\0\0\0\
    \x01\x01\0\0\0\0\0\0\0\x03\0\0\0\0\x80\0\0\0\0\0\0\0\0\0\0\0\0\0\0\0\0\0\
    \x01\x01\0\0\0\0\0\0\0\x04\x80\0\0\0\x80\0\0\0\0\0\0\0\0\0\0\0\0\0\0\0\0\0\
    \x01\x01\0\0\0\0\0\0\0\x05\0\0\0\x01\0\0\0\x01\0\0\0\0\0\0\0\0\0\0\0\0\0\0\
    \0";

// Put 7 at (3,5) with moment 5, put 8, move 7 to (4,5) with moment 9, and remove 8.
const MOVED_LOG: &[u8] = b"MDLOCLOG\x02\x01\0\0\0\0\0\0\
    \x01\x01\0\0\0\0\0\0\0\x07\0\0\0\x03\0\0\0\x05\0\0\0\0\0\0\0\x05\0\0\0\0\0\0\
    \x01\x01\0\0\0\0\0\0\0\x08\0\0\0\x01\0\0\0\x01\0\0\0\0\0\0\0\0\0\0\0\0\0\0\
    \x01\x02\0\0\0\0\0\0\0\x07\0\0\0\x04\0\0\0\x05\0\0\0\0\0\0\0\x09\0\0\0\0\0\0\
    \x01\x03\0\0\0\0\0\0\0\x08\0\0\0\0\0\0\0\0\0\0\0\0\0\0\0\0\0\0\0\0\0\0\
    \0";

const FRESH_MOVED_LOG: &[u8] = b"MDLOCLOG\x02\x01\0\0\0\0\0\0\
    \x01\x01\0\0\0\0\0\0\0\x07\0\0\0\x04\0\0\0\x05\0\0\0\0\0\0\0\x09\0\0\0\0\0\0\
    \0";

const COMPACTED: &[Pair<'static>] = &[
    PAIR,
    Pair {
        run: Case {
            name: "compact of a log of version 1",
            file: Some(PUT_LOG_OF_1),
            text: "compacted 1\n",
            held: PUT_LOG_OF_1,
            ..RUN
        },
        written: PUT_LOG,
        ..PAIR
    },
    Pair {
        run: Case {
            name: "compact of five points and two leaves, over a file of 17 bytes",
            file: Some(TWO_LEAVES_LOG),
            text: "compacted 7\n",
            held: TWO_LEAVES_LOG,
            ..RUN
        },
        new: &[1; 17],
        written: FRESH_TWO_LEAVES_LOG,
        ..PAIR
    },
    Pair {
        run: Case {
            name: "compact of what was moved and dropped",
            file: Some(MOVED_LOG),
            text: "compacted 1\n",
            held: MOVED_LOG,
            ..RUN
        },
        written: FRESH_MOVED_LOG,
        ..PAIR
    },
    Pair {
        run: Case {
            name: "compact with a sink that fails",
            puts: &[1],
            status: 6,
            text: "",
            ..RUN
        },
        ..PAIR
    },
];

#[test]
fn compact_writes_the_points_and_leaves_that_are_left(rt: HostRuntime) {
    each_pair_is_left(&rt, rt.alloc(), COMPACTED);
}

const DAMAGED_LOG: &[u8] = b"MDLOCLOG\x02\x01\0\0\0\0\0\0\
    \x01\x09\0\0\0\0\0\0\0\x07\0\0\0\0\0\0\0\0\0\0\0\0\0\0\0\0\0\0\0\0\0\0\
    \0";

const ATTACH: &[Fail] = &[Fail {
    call: DiskCall::Attach,
    number: 1,
}];

// If the first file is refused, the second file stays unchanged, and isn't attached.
const UNREAD: Pair<'static> = Pair {
    new: &[9; 3],
    written: &[9; 3],
    makes: "",
    ..PAIR
};

const REFUSED: &[Pair<'static>] = &[
    Pair {
        run: Case {
            name: "compact into a log",
            file: Some(PUT_LOG_OF_1),
            status: 10,
            text: "refused in use 49\n",
            held: PUT_LOG_OF_1,
            ..RUN
        },
        new: PUT_LOG,
        written: PUT_LOG,
        ..PAIR
    },
    Pair {
        run: Case {
            name: "compact of a damaged log",
            file: Some(DAMAGED_LOG),
            status: 4,
            text: "refused cell 0 kind\n",
            held: DAMAGED_LOG,
            ..RUN
        },
        ..UNREAD
    },
    Pair {
        run: Case {
            name: "compact of no log",
            file: Some(&[]),
            status: 4,
            text: "refused not a log\n",
            held: &[],
            ..RUN
        },
        ..UNREAD
    },
    Pair {
        run: Case {
            name: "compact of a file that can't be attached",
            calls: ATTACH,
            status: 7,
            text: "refused disk\n",
            ..RUN
        },
        ..UNREAD
    },
    Pair {
        run: Case {
            name: "compact into a file that can't be attached",
            status: 7,
            text: "refused disk\n",
            ..RUN
        },
        failing: ATTACH,
        new: &[9; 3],
        written: &[9; 3],
        ..PAIR
    },
];

#[test]
fn compact_leaves_a_file_in_use_and_none_for_a_log_that_is_refused(rt: HostRuntime) {
    each_pair_is_left(&rt, rt.alloc(), REFUSED);
}

const PLAYED_LOG: &[u8] = b"MDLOCLOG\x02\x01\0\0\0\0\0\0\
    \x01\x01\0\0\0\0\0\0\0\x07\0\0\0\x04\0\0\0\x05\0\0\0\0\0\0\0\x09\0\0\0\0\0\0\
    \x01\x01\0\0\0\0\0\0\0\x08\0\0\0\x02\0\0\0\x02\0\0\0\0\0\0\0\x03\0\0\0\0\0\0\
    \0";

const PLAYED: &Case<'static> = &Case {
    name: "a play over a log that was written anew",
    input: rows!("1,move,7,1,1,,,8\n1,put,8,2,2,,,3\n"),
    file: Some(FRESH_MOVED_LOG),
    text: lines!("1,1,stale,4:5:9\n2,2,done,\n"),
    held: PLAYED_LOG,
    entries: 2,
    ..ONE_PUT
};

#[test]
fn a_play_goes_on_behind_a_log_that_was_written_anew(rt: HostRuntime) {
    is_left(&rt, rt.alloc(), PLAYED);
}
