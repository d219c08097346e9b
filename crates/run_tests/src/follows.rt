//! `follow` of worked logs by worked turns: what NEW has then, the reports, and the refusals.
use crate::checks::{Case, EMPTY, holds};
use crate::hostile::records::{DROP, PUT, Record, front};
use crate::hostile::runs::images_on;
use crate::memory::{EMPTY_LOG, EMPTY_QUAD_LOG, PUT_LOG, repeated, run_both};
use crate::pairs::{Pair, each_pair_is_left, pair_is_left};
use disk_mem::{DiskCall, Fail};
use std::alloc::Global;
use std::process::Abort;
use std::sync::Wait;
use std::thread::Threads;

// An input of these turns.
macro_rules! turns {
    ($rows:literal) => {
        concat!("turn,number\n", $rows)
    };
}

// An output of these lines.
macro_rules! reports {
    ($lines:literal) => {
        concat!("turn,held,known\n", $lines)
    };
}

// A log of put 7 at (3,5), and remove 7.
const PUT_AND_DROP_LOG: &[u8] = b"MDLOCLOG\x02\x01\0\0\0\0\0\0\
    \x01\x01\0\0\0\0\0\0\0\x07\0\0\0\x03\0\0\0\x05\0\0\0\0\0\0\0\0\0\0\0\0\0\0\
    \x01\x03\0\0\0\0\0\0\0\x07\0\0\0\0\0\0\0\0\0\0\0\0\0\0\0\0\0\0\0\0\0\0\
    \0";

// `follow` of no cells by no turns, if NEW isn't there.
const RUN: Case<'static> = Case {
    name: "follow of no cells by no turns",
    words: &["follow", "log", "new"],
    input: turns!(""),
    text: reports!(""),
    ..EMPTY
};

const FOLLOW: Pair<'static> = Pair {
    run: RUN,
    new: &[],
    failing: &[],
    written: EMPTY_LOG,
    makes: "makes new\n",
};

// Two cells, which both arrive.
const BOTH_ARRIVE: Case<'static> = Case {
    name: "follow of a put and a drop, out of order and twice",
    input: turns!(
        "send,0\nsend,1\narrive,2\narrive,1\narrive,1\nrestart,\narrive,2\nack,1\nack,4\n"
    ),
    file: Some(PUT_AND_DROP_LOG),
    text: reports!("1,0,0\n2,0,0\n3,0,0\n4,1,0\n5,1,0\n6,1,0\n7,2,0\n8,2,0\n9,2,2\n"),
    held: PUT_AND_DROP_LOG,
    ..RUN
};

// The same two cells.
const OF_TWO: Case<'static> = Case {
    name: "follow of a put and a drop by no turns",
    file: Some(PUT_AND_DROP_LOG),
    held: PUT_AND_DROP_LOG,
    ..RUN
};

// A log of version 1, of put 7 at (3,5).
const PUT_LOG_OF_1: &[u8] = b"MDLOCLOG\x01\x01\0\0\0\0\0\0\
    \x01\x01\0\0\0\0\0\0\0\x07\0\0\0\x03\0\0\0\x05\0\0\0\0\0\0\0\0\0\0\0\0\0\0\
    \0";

// The same of version 2, whose splits create four children.
const QUAD_PUT_LOG: &[u8] = b"MDLOCLOG\x02\x02\0\0\0\0\0\0\
    \x01\x01\0\0\0\0\0\0\0\x07\0\0\0\x03\0\0\0\x05\0\0\0\0\0\0\0\0\0\0\0\0\0\0\
    \0";

// A log of put 7 at (3,5), with 40 bytes after it.
const LONG_PUT_LOG: &[u8] = b"MDLOCLOG\x02\x01\0\0\0\0\0\0\
    \x01\x01\0\0\0\0\0\0\0\x07\0\0\0\x03\0\0\0\x05\0\0\0\0\0\0\0\0\0\0\0\0\0\0\
    \0\
    \x05\x05\x05\x05\x05\x05\x05\x05\x05\x05\x05\x05\x05\x05\x05\x05\x05\x05\x05\x05\
    \x05\x05\x05\x05\x05\x05\x05\x05\x05\x05\x05\x05\x05\x05\x05\x05\x05\x05\x05\x05";

// NEW with no file, with 5 bytes, with 17 of any content, and with the first of FILE's cells.
const FOLLOWED: &[Pair<'static>] = &[
    FOLLOW,
    Pair {
        run: BOTH_ARRIVE,
        written: PUT_AND_DROP_LOG,
        ..FOLLOW
    },
    Pair {
        run: BOTH_ARRIVE,
        new: b"MDLOC",
        written: PUT_AND_DROP_LOG,
        ..FOLLOW
    },
    Pair {
        run: BOTH_ARRIVE,
        new: &[1; 17],
        written: PUT_AND_DROP_LOG,
        ..FOLLOW
    },
    Pair {
        run: BOTH_ARRIVE,
        new: EMPTY_QUAD_LOG,
        written: PUT_AND_DROP_LOG,
        ..FOLLOW
    },
    Pair {
        run: Case {
            name: "follow of a log of version 1",
            input: turns!("send,0\narrive,1\nack,1\n"),
            file: Some(PUT_LOG_OF_1),
            text: reports!("1,0,0\n2,1,0\n3,1,1\n"),
            held: PUT_LOG_OF_1,
            ..RUN
        },
        written: PUT_LOG,
        ..FOLLOW
    },
    Pair {
        run: Case {
            name: "follow of a quad log",
            input: turns!("send,0\narrive,1\nrestart,\nack,1\n"),
            file: Some(QUAD_PUT_LOG),
            text: reports!("1,0,0\n2,1,0\n3,1,0\n4,1,1\n"),
            held: QUAD_PUT_LOG,
            ..RUN
        },
        new: EMPTY_LOG,
        written: QUAD_PUT_LOG,
        ..FOLLOW
    },
    Pair {
        run: Case {
            name: "follow where NEW has the first cell",
            input: turns!("send,1\narrive,1\nack,1\n"),
            text: reports!("1,1,0\n2,2,0\n3,2,2\n"),
            ..OF_TWO
        },
        new: PUT_LOG,
        written: PUT_AND_DROP_LOG,
        ..FOLLOW
    },
    Pair {
        run: OF_TWO,
        new: LONG_PUT_LOG,
        written: PUT_LOG,
        ..FOLLOW
    },
    Pair {
        run: Case {
            name: "follow where NEW has both cells",
            input: turns!("send,2\nsend,18446744073709551615\narrive,2\narrive,1\nack,1\n"),
            text: reports!("1,2,0\n2,2,0\n3,2,0\n4,2,0\n5,2,2\n"),
            ..OF_TWO
        },
        new: PUT_AND_DROP_LOG,
        written: PUT_AND_DROP_LOG,
        ..FOLLOW
    },
    Pair {
        run: Case {
            name: "follow with a sink that fails",
            puts: &[1],
            status: 6,
            text: "",
            ..BOTH_ARRIVE
        },
        written: PUT_AND_DROP_LOG,
        ..FOLLOW
    },
];

#[test]
fn follow_copies_the_cells_that_arrive_in_their_order(rt: HostRuntime) {
    each_pair_is_left(&rt, rt.alloc(), FOLLOWED);
}

// The first sync is that of creating NEW.
const THIRD_SYNC: Pair<'static> = Pair {
    run: Case {
        name: "follow where the third sync fails",
        status: 7,
        text: "refused disk cell 0\n",
        ..BOTH_ARRIVE
    },
    failing: &[Fail {
        call: DiskCall::Sync,
        number: 3,
    }],
    written: PUT_LOG,
    ..FOLLOW
};

const PUT_7: Record = Record {
    kind: PUT,
    number: 7,
    place: 0x3_0000_0005,
    moment: 0,
    len: 0,
};

const DROP_7: Record = Record {
    kind: DROP,
    place: 0,
    ..PUT_7
};

// Fails unless each file that a crash may leave, after the log was created, has none of the cells or the first one. At
// the last moment a crash may leave either.
fn leaves_none_or_one<R: Abort + Threads + Wait + Sync>(rt: &R, alloc: Global) {
    let left = run_both(rt, alloc, &THIRD_SYNC.run.plan(), &[], THIRD_SYNC.failing);
    let mut seen = [false; 2];
    for image in images_on(rt, alloc, &left.other).iter() {
        let count = front(1, image.bytes.as_slice(), &[PUT_7, DROP_7]);
        let is_made = image.moment < 2 || matches!(count, Some(0 | 1));
        holds(rt, is_made, "an image of follow");
        if image.moment == left.other.moments() {
            if let Some(slot) = count.and_then(|count| seen.get_mut(count)) {
                *slot = true;
            }
        }
    }
    holds(rt, seen == [true; 2], "images of no cell and of one");
}

#[test]
fn where_the_sync_of_a_cell_fails_follow_leaves_it_or_not(rt: HostRuntime) {
    pair_is_left(&rt, rt.alloc(), &THIRD_SYNC);
    leaves_none_or_one(&rt, rt.alloc());
}

// Five logs that NEW may have. The first three have one cell: put 8 at (3,5); put 7 at (3,6); put 7 at (3,5) with
// moment 1. The fourth has put 7 at (3,5) and move 7 to (3,5). The fifth has put 8 at (3,5) and a cell of kind 9.
const OTHER_ID: &[u8] = b"MDLOCLOG\x02\x01\0\0\0\0\0\0\
    \x01\x01\0\0\0\0\0\0\0\x08\0\0\0\x03\0\0\0\x05\0\0\0\0\0\0\0\0\0\0\0\0\0\0\
    \0";

const OTHER_POINT: &[u8] = b"MDLOCLOG\x02\x01\0\0\0\0\0\0\
    \x01\x01\0\0\0\0\0\0\0\x07\0\0\0\x03\0\0\0\x06\0\0\0\0\0\0\0\0\0\0\0\0\0\0\
    \0";

const OTHER_MOMENT: &[u8] = b"MDLOCLOG\x02\x01\0\0\0\0\0\0\
    \x01\x01\0\0\0\0\0\0\0\x07\0\0\0\x03\0\0\0\x05\0\0\0\0\0\0\0\x01\0\0\0\0\0\0\
    \0";

const OTHER_SECOND: &[u8] = b"MDLOCLOG\x02\x01\0\0\0\0\0\0\
    \x01\x01\0\0\0\0\0\0\0\x07\0\0\0\x03\0\0\0\x05\0\0\0\0\0\0\0\0\0\0\0\0\0\0\
    \x01\x02\0\0\0\0\0\0\0\x07\0\0\0\x03\0\0\0\x05\0\0\0\0\0\0\0\0\0\0\0\0\0\0\
    \0";

const OTHER_AND_DAMAGED: &[u8] = b"MDLOCLOG\x02\x01\0\0\0\0\0\0\
    \x01\x01\0\0\0\0\0\0\0\x08\0\0\0\x03\0\0\0\x05\0\0\0\0\0\0\0\0\0\0\0\0\0\0\
    \x01\x09\0\0\0\0\0\0\0\x07\0\0\0\0\0\0\0\0\0\0\0\0\0\0\0\0\0\0\0\0\0\0\
    \0";

// A NEW that isn't FILE's. It keeps its bytes.
macro_rules! refused {
    ($name:literal, $new:expr, $line:literal) => {
        Pair {
            run: Case {
                name: $name,
                status: 4,
                text: $line,
                ..BOTH_ARRIVE
            },
            new: $new,
            written: $new,
            ..FOLLOW
        }
    };
}

const ATTACH: &[Fail] = &[Fail {
    call: DiskCall::Attach,
    number: 1,
}];

const LONGER_THAN_FILE: Pair<'static> = Pair {
    run: Case {
        name: "follow where NEW has a cell more",
        file: Some(PUT_LOG),
        status: 4,
        text: "refused cell 1 strange\n",
        held: PUT_LOG,
        ..RUN
    },
    new: PUT_AND_DROP_LOG,
    written: PUT_AND_DROP_LOG,
    ..FOLLOW
};

// If FILE is refused, NEW stays unchanged, and isn't attached.
const UNREAD: Pair<'static> = Pair {
    run: Case {
        name: "follow of a damaged log",
        file: Some(OTHER_AND_DAMAGED),
        status: 4,
        text: "refused cell 1 kind\n",
        held: OTHER_AND_DAMAGED,
        ..BOTH_ARRIVE
    },
    new: PUT_LOG,
    written: PUT_LOG,
    makes: "",
    ..FOLLOW
};

const REFUSED: &[Pair<'static>] = &[
    refused!("another id in NEW", OTHER_ID, "refused cell 0 strange\n"),
    refused!(
        "another point in NEW",
        OTHER_POINT,
        "refused cell 0 strange\n"
    ),
    refused!(
        "another moment in NEW",
        OTHER_MOMENT,
        "refused cell 0 strange\n"
    ),
    refused!(
        "another second cell in NEW",
        OTHER_SECOND,
        "refused cell 1 strange\n"
    ),
    refused!(
        "another id in NEW, and damage",
        OTHER_AND_DAMAGED,
        "refused cell 1 kind\n"
    ),
    refused!(
        "a NEW of another width",
        QUAD_PUT_LOG,
        "refused log version 2 width 2\n"
    ),
    refused!(
        "a NEW of version 1",
        PUT_LOG_OF_1,
        "refused log version 1 width 1\n"
    ),
    refused!("a NEW of 18 bytes", &[1; 18], "refused not a log\n"),
    LONGER_THAN_FILE,
    Pair {
        run: Case {
            name: "follow of no cells where NEW is of version 1",
            status: 4,
            text: "refused log version 1 width 1\n",
            ..RUN
        },
        new: PUT_LOG_OF_1,
        written: PUT_LOG_OF_1,
        ..FOLLOW
    },
    UNREAD,
    Pair {
        run: Case {
            name: "follow of no log",
            file: Some(&[]),
            status: 4,
            text: "refused not a log\n",
            held: &[],
            ..BOTH_ARRIVE
        },
        ..UNREAD
    },
    Pair {
        run: Case {
            name: "follow of a file that can't be attached",
            calls: ATTACH,
            status: 7,
            text: "refused disk\n",
            ..BOTH_ARRIVE
        },
        ..UNREAD
    },
    Pair {
        run: Case {
            name: "follow into a file that can't be attached",
            status: 7,
            text: "refused disk\n",
            ..BOTH_ARRIVE
        },
        failing: ATTACH,
        new: PUT_LOG,
        written: PUT_LOG,
        ..FOLLOW
    },
];

#[test]
fn follow_leaves_a_file_with_other_cells_and_none_for_a_log_that_is_refused(rt: HostRuntime) {
    each_pair_is_left(&rt, rt.alloc(), REFUSED);
}

// Faulty turns, with a file that is no log. Neither file is attached.
const NO_TURNS: Pair<'static> = Pair {
    run: Case {
        name: "follow with a source that fails",
        reads: &[1],
        file: Some(&[1; 49]),
        status: 5,
        text: "refused source\n",
        held: &[1; 49],
        attaches: "",
        ..RUN
    },
    ..UNREAD
};

const NO_TURN: &Pair<'static> = &NO_TURNS;

// Faulty turns, and their line.
const AT_FAULT: &[(&str, &str)] = &[
    ("", "refused header\n"),
    ("turn,Number\n", "refused header\n"),
    (turns!("send\n"), "refused row 1 length\n"),
    (turns!("restart,\nsend,0,0\n"), "refused row 2 length\n"),
    (turns!("Send,0\n"), "refused row 1 column 1\n"),
    (turns!(",0\n"), "refused row 1 column 1\n"),
    (turns!("send,\n"), "refused row 1 column 2\n"),
    (turns!("send,-1\n"), "refused row 1 column 2\n"),
    (
        turns!("send,18446744073709551616\n"),
        "refused row 1 column 2\n",
    ),
    (turns!("arrive,1\n"), "refused row 1 column 2\n"),
    (turns!("ack,1\n"), "refused row 1 column 2\n"),
    (turns!("restart,0\n"), "refused row 1 column 2\n"),
    (turns!("send,0\narrive,0\n"), "refused row 2 column 2\n"),
    (turns!("send,0\narrive,2\n"), "refused row 2 column 2\n"),
    (turns!("send,0\nack,1\n"), "refused row 2 column 2\n"),
    (
        turns!("send,0\narrive,1\nack,0\n"),
        "refused row 3 column 2\n",
    ),
    (
        turns!("send,0\nsend,0\narrive,1\nack,2\n"),
        "refused row 4 column 2\n",
    ),
];

fn at_fault<'a>(turns: &'a str, status: u8, line: &'a str) -> Pair<'a> {
    Pair {
        run: Case {
            name: line,
            input: turns,
            reads: &[],
            status,
            text: line,
            ..NO_TURN.run
        },
        ..*NO_TURN
    }
}

// A record after the 65,536th turn is one too many, whatever it holds.
fn each_fault<R: Abort + Threads + Wait + Sync>(rt: &R, alloc: Global) {
    pair_is_left(rt, alloc, NO_TURN);
    for (turns, line) in AT_FAULT {
        pair_is_left(rt, alloc, &at_fault(turns, 3, line));
    }
    let mut many = repeated(alloc, turns!(""), 65_536, "restart,\n").expect(rt, "it failed");
    many.push_str("no turn\n").expect(rt, "it failed");
    pair_is_left(rt, alloc, &at_fault(&many, 8, "refused limit rows\n"));
}

#[test]
fn turns_at_fault_have_their_line_before_a_file_is_attached(rt: HostRuntime) {
    each_fault(&rt, rt.alloc());
}
