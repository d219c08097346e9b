//! `watch` of worked logs: which objects enter and leave fences and which are inside at the end, and the refusals.
use crate::checks::{Case, EMPTY, each_is_untouched, is_untouched};
use crate::hostile::records::{BEGIN, DROP, INSTALL, MOVE, PUT, Record, log_of};
use crate::memory::PUT_LOG;
use disk_mem::{DiskCall, Fail};
use std::alloc::{AllocError, Global};
use std::process::Abort;
use std::sync::Wait;
use std::thread::Threads;

// An input of these fences.
macro_rules! fences {
    ($rows:literal) => {
        concat!("fence,x,y,a,b\n", $rows)
    };
}

// An output of these lines.
macro_rules! crossings {
    ($lines:literal) => {
        concat!("cell,event,id,fence\n", $lines)
    };
}

// A record of an object at a point. Its coordinates are given in hexadecimal as one number: x and then y.
macro_rules! object {
    ($kind:expr, $id:expr, $place:expr) => {
        Record {
            kind: $kind,
            number: $id,
            place: $place,
            moment: 0,
            len: 0,
        }
    };
}

// A log of no cells, and no fences.
const WATCH: Case<'static> = Case {
    name: "watch of no cells by no fences",
    words: &["watch", "log"],
    input: fences!(""),
    text: crossings!(""),
    ..EMPTY
};

// A log of records, and what `watch` of it by fences writes.
#[derive(Clone, Copy)]
struct Watched {
    name: &'static str,
    records: &'static [Record],
    fences: &'static str,
    text: &'static str,
}

// Put 7 at (3,5), move 7 to (8,8), and remove 7.
const CROSSING: &[Record] = &[
    object!(PUT, 7, 0x3_0000_0005),
    object!(MOVE, 7, 0x8_0000_0008),
    object!(DROP, 7, 0),
];

// Puts at (0,0), (1,1) and (100,100), with a split between them.
const BETWEEN_SPLITS: &[Record] = &[
    object!(PUT, 9, 0),
    object!(BEGIN, 1, 0),
    object!(PUT, 4, 0x1_0000_0001),
    object!(INSTALL, 1, 0),
    object!(PUT, 6, 0x64_0000_0064),
];

// Along x: 10, 11, 20, 21, the last number but one, the last one, and back to 11. Then along y.
const ALONG_EDGES: &[Record] = &[
    object!(PUT, 7, 0xA_0000_000A),
    object!(MOVE, 7, 0xB_0000_000A),
    object!(MOVE, 7, 0x14_0000_000A),
    object!(MOVE, 7, 0x15_0000_000A),
    object!(MOVE, 7, 0xFFFF_FFFE_FFFF_FFFF),
    object!(MOVE, 7, 0xFFFF_FFFF_FFFF_FFFF),
    object!(MOVE, 7, 0xFFFF_FFFF_FFFF_FFFE),
    object!(MOVE, 7, 0xB_0000_0005),
    object!(MOVE, 7, 0xB_0000_0004),
    object!(MOVE, 7, 0xB_0000_000B),
];

const WATCHED: &[Watched] = &[
    Watched {
        name: "watch of no cells by a fence",
        records: &[],
        fences: fences!("1,0,0,4294967295,4294967295\n"),
        text: crossings!("end,inside,0,1\n"),
    },
    Watched {
        name: "watch by no fences",
        records: CROSSING,
        fences: fences!(""),
        text: crossings!(""),
    },
    Watched {
        name: "watch of a put, a move and a drop by two fences",
        records: CROSSING,
        fences: fences!("1,0,0,5,5\n2,4,4,9,9\n"),
        text: crossings!(
            "0,enter,7,1\n1,leave,7,1\n1,enter,7,2\n2,leave,7,2\nend,inside,0,1\nend,inside,0,2\n"
        ),
    },
    Watched {
        name: "watch by the same fences in the other order",
        records: CROSSING,
        fences: fences!("2,4,4,9,9\n1,0,0,5,5\n"),
        text: crossings!(
            "0,enter,7,1\n1,enter,7,2\n1,leave,7,1\n2,leave,7,2\nend,inside,0,2\nend,inside,0,1\n"
        ),
    },
    Watched {
        name: "watch by a fence that both points of a move are in",
        records: CROSSING,
        fences: fences!("18446744073709551615,3,5,8,8\n"),
        text: crossings!(
            "0,enter,7,18446744073709551615\n2,leave,7,18446744073709551615\nend,inside,0,18446744073709551615\n"
        ),
    },
    Watched {
        name: "watch of puts between the cells of a split",
        records: BETWEEN_SPLITS,
        fences: fences!("9,1,1,100,100\n5,0,0,1,1\n7,2,2,99,4294967295\n"),
        text: crossings!(
            "0,enter,9,5\n2,enter,4,9\n2,enter,4,5\n4,enter,6,9\nend,inside,2,9\nend,inside,2,5\nend,inside,0,7\n"
        ),
    },
    Watched {
        name: "watch by fences whose edges touch",
        records: ALONG_EDGES,
        fences: fences!(
            "1,0,5,10,10\n2,11,5,20,10\n3,4294967295,4294967295,4294967295,4294967295\n"
        ),
        text: crossings!(
            "0,enter,7,1\n1,leave,7,1\n1,enter,7,2\n3,leave,7,2\n5,enter,7,3\n6,leave,7,3\n7,enter,7,2\n8,leave,7,2\nend,inside,0,1\nend,inside,0,2\nend,inside,0,3\n"
        ),
    },
];

// A run of `watch` over a file by these fences.
fn watching<'a>(name: &'a str, file: &'a [u8], fences: &'a str, text: &'a str) -> Case<'a> {
    Case {
        name,
        file: Some(file),
        input: fences,
        text,
        held: file,
        ..*NOTHING_WATCHED
    }
}

const NOTHING_WATCHED: &Case<'static> = &WATCH;

// Fails unless a log of this width has these crossings, and isn't touched.
fn is_watched<R: Abort + Threads + Wait + Sync>(
    rt: &R,
    alloc: Global,
    width: u8,
    watched: &Watched,
) {
    let file = log_of(alloc, width, watched.records, &[0]).expect(rt, "it failed");
    let case = watching(watched.name, file.as_slice(), watched.fences, watched.text);
    is_untouched(rt, alloc, &case);
}

fn each_is_watched<R: Abort + Threads + Wait + Sync>(rt: &R, alloc: Global) {
    for watched in WATCHED {
        is_watched(rt, alloc, 1, watched);
        is_watched(rt, alloc, 2, watched);
    }
}

#[test]
fn watch_tells_who_enters_and_leaves_fences_along_a_log(rt: HostRuntime) {
    each_is_watched(&rt, rt.alloc());
}

// Fences 1 to this number around (0,0) and (5,5).
fn many_fences(alloc: Global, count: u32) -> Result<String, AllocError> {
    let mut fences = String::from_str(alloc, fences!(""))?;
    for fence in 1..=count {
        let row = format!(in alloc; "{fence},0,0,5,5\n")?;
        fences.push_str(&row)?;
    }
    Ok(fences)
}

// Lines of 256 fences, each of which begins with `front`.
fn add_lines(alloc: Global, text: &mut String, front: &str) -> Result<(), AllocError> {
    for fence in 1..=256 {
        let line = format!(in alloc; "{front},{fence}\n")?;
        text.push_str(&line)?;
    }
    Ok(())
}

// What `CROSSING` does at 256 fences.
fn many_crossings(alloc: Global) -> Result<String, AllocError> {
    let mut text = String::from_str(alloc, crossings!(""))?;
    add_lines(alloc, &mut text, "0,enter,7")?;
    add_lines(alloc, &mut text, "1,leave,7")?;
    add_lines(alloc, &mut text, "end,inside,0")?;
    Ok(text)
}

fn crosses_256_at_once<R: Abort + Threads + Wait + Sync>(rt: &R, alloc: Global) {
    let file = log_of(alloc, 1, CROSSING, &[0]).expect(rt, "it failed");
    let fences = many_fences(alloc, 256).expect(rt, "it failed");
    let text = many_crossings(alloc).expect(rt, "it failed");
    let case = watching("watch by 256 fences", file.as_slice(), &fences, &text);
    is_untouched(rt, alloc, &case);
}

// A record after the 256th fence is one too many, whatever it holds.
fn has_no_room_for_257<R: Abort + Threads + Wait + Sync>(rt: &R, alloc: Global) {
    let mut fences = many_fences(alloc, 256).expect(rt, "it failed");
    fences.push_str("1,no number\n").expect(rt, "it failed");
    let case = Case {
        status: 8,
        ..at_fault(&fences, "refused limit rows\n")
    };
    is_untouched(rt, alloc, &case);
}

#[test]
fn an_object_crosses_256_fences_at_once_and_there_are_no_more(rt: HostRuntime) {
    crosses_256_at_once(&rt, rt.alloc());
    has_no_room_for_257(&rt, rt.alloc());
}

// So many cells: put 7 at (3,5), and then moves of it to (8,8) and back. Each is one event of each of many fences.
fn there_and_back(alloc: Global, cells: u32) -> Result<Vec<u8>, AllocError> {
    let mut log = log_of(alloc, 1, &[object!(PUT, 7, 0x3_0000_0005)], &[])?;
    for cell in 1..cells {
        let place = if cell % 2 == 1 {
            0x8_0000_0008
        } else {
            0x3_0000_0005
        };
        let step = object!(MOVE, 7, place);
        log.extend_from_slice(step.bytes().as_slice())?;
    }
    log.push(0)?;
    Ok(log)
}

const MANY_EVENTS: Case<'static> = Case {
    name: "watch of 4,194,304 events, with a sink that fails",
    puts: &[1],
    status: 6,
    text: "",
    ..WATCH
};

const TOO_MANY_EVENTS: Case<'static> = Case {
    name: "watch of 256 events more",
    status: 8,
    text: "refused limit events\n",
    ..WATCH
};

// 256 fences and 16,384 cells have 4,194,304 events.
fn has_a_limit<R: Abort + Threads + Wait + Sync>(rt: &R, alloc: Global) {
    let fences = many_fences(alloc, 256).expect(rt, "it failed");
    for (cells, case) in [(16_384, MANY_EVENTS), (16_385, TOO_MANY_EVENTS)] {
        let file = there_and_back(alloc, cells).expect(rt, "it failed");
        let case = Case {
            input: &fences,
            ..case.over(file.as_slice())
        };
        is_untouched(rt, alloc, &case);
    }
}

#[test]
fn watch_takes_4194304_events_and_no_more(rt: HostRuntime) {
    has_a_limit(&rt, rt.alloc());
}

// A log of put 7 at (3,5), and a cell of kind 9 after it.
const DAMAGED_LOG: &[u8] = b"MDLOCLOG\x02\x01\0\0\0\0\0\0\
    \x01\x01\0\0\0\0\0\0\0\x07\0\0\0\x03\0\0\0\x05\0\0\0\0\0\0\0\0\0\0\0\0\0\0\
    \x01\x09\0\0\0\0\0\0\0\x07\0\0\0\0\0\0\0\0\0\0\0\0\0\0\0\0\0\0\0\0\0\0\
    \0";

// The same of version 1, without that cell.
const PUT_LOG_OF_1: &[u8] = b"MDLOCLOG\x01\x01\0\0\0\0\0\0\
    \x01\x01\0\0\0\0\0\0\0\x07\0\0\0\x03\0\0\0\x05\0\0\0\0\0\0\0\0\0\0\0\0\0\0\
    \0";

const ONE_FENCE: Case<'static> = Case {
    name: "watch of one put by one fence",
    input: fences!("1,0,0,5,5\n"),
    file: Some(PUT_LOG),
    text: crossings!("0,enter,7,1\nend,inside,1,1\n"),
    held: PUT_LOG,
    ..WATCH
};

// The nth call of a kind.
macro_rules! nth {
    ($call:expr, $number:expr) => {
        &[Fail {
            call: $call,
            number: $number,
        }]
    };
}

const NO_DRIVE: Case<'static> = Case {
    status: 7,
    text: "refused disk\n",
    ..ONE_FENCE
};

const ENDS: &[Case<'static>] = &[
    ONE_FENCE,
    Case {
        name: "watch of a log of version 1",
        file: Some(PUT_LOG_OF_1),
        held: PUT_LOG_OF_1,
        ..ONE_FENCE
    },
    Case {
        name: "watch of a log whose last cell is damaged",
        file: Some(DAMAGED_LOG),
        status: 4,
        text: "refused cell 1 kind\n",
        held: DAMAGED_LOG,
        ..ONE_FENCE
    },
    Case {
        name: "watch of no log",
        file: Some(&[]),
        status: 4,
        text: "refused not a log\n",
        held: &[],
        ..ONE_FENCE
    },
    Case {
        name: "watch with a sink that fails",
        puts: &[1],
        status: 6,
        text: "",
        ..ONE_FENCE
    },
    Case {
        name: "watch of a file that can't be attached",
        calls: nth!(DiskCall::Attach, 1),
        ..NO_DRIVE
    },
    Case {
        name: "watch where the length fails",
        calls: nth!(DiskCall::Len, 1),
        ..NO_DRIVE
    },
    Case {
        name: "watch where the head can't be read",
        calls: nth!(DiskCall::Read, 1),
        ..NO_DRIVE
    },
    Case {
        name: "watch where the cells can't be read",
        calls: nth!(DiskCall::Read, 2),
        ..NO_DRIVE
    },
];

#[test]
fn watch_of_a_log_or_a_drive_at_fault_writes_its_line_alone(rt: HostRuntime) {
    each_is_untouched(&rt, rt.alloc(), ENDS);
}

// Faulty fences, with a file that is no log and isn't attached.
const UNREAD: Case<'static> = Case {
    name: "watch with a source that fails",
    reads: &[1],
    file: Some(&[1; 49]),
    status: 5,
    text: "refused source\n",
    held: &[1; 49],
    attaches: "",
    ..WATCH
};

const NO_HEADER: Case<'static> = Case {
    name: "watch of an empty input",
    input: "",
    reads: &[],
    status: 3,
    text: "refused header\n",
    ..UNREAD
};

// Faulty fences, and their line.
const AT_FAULT: &[(&str, &str)] = &[
    ("", "refused header\n"),
    ("fence,x,y,a\n", "refused header\n"),
    (fences!("1,0,0,5\n"), "refused row 1 length\n"),
    (
        fences!("1,0,0,5,5\n1,0,0,5,5,5\n"),
        "refused row 2 length\n",
    ),
    (
        fences!("18446744073709551616,0,0,5,5\n"),
        "refused row 1 column 1\n",
    ),
    (fences!("1,-1,0,5,5\n"), "refused row 1 column 2\n"),
    (fences!("1,0,4294967296,5,5\n"), "refused row 1 column 3\n"),
    (fences!("1,6,0,5,5\n"), "refused row 1 column 4\n"),
    (fences!("1,0,6,5,5\n"), "refused row 1 column 5\n"),
    (fences!("1,0,0,5,4294967296\n"), "refused row 1 column 5\n"),
    (
        fences!("1,0,0,5,5\n1,4,4,9,9\n"),
        "refused row 2 column 1\n",
    ),
    (
        fences!("2,0,0,5,5\n1,0,0,5,5\n2,6,no,5,5\n"),
        "refused row 3 column 1\n",
    ),
];

fn at_fault<'a>(fences: &'a str, line: &'a str) -> Case<'a> {
    Case {
        name: line,
        input: fences,
        text: line,
        ..*NO_FENCES
    }
}

const NO_FENCES: &Case<'static> = &NO_HEADER;

const UNREADABLE: &Case<'static> = &UNREAD;

fn each_fault<R: Abort + Threads + Wait + Sync>(rt: &R, alloc: Global) {
    is_untouched(rt, alloc, UNREADABLE);
    for (fences, line) in AT_FAULT {
        is_untouched(rt, alloc, &at_fault(fences, line));
    }
}

#[test]
fn fences_at_fault_have_their_line_before_the_file_is_attached(rt: HostRuntime) {
    each_fault(&rt, rt.alloc());
}
