//! `show` over worked logs.
use crate::checks::{CHECK, Case, EMPTY, each_is_left};
use crate::memory::TWO_LEAVES_LOG;

// A log of put 7 at (3,5) and a cell of kind 9.
const DAMAGED_LOG: &[u8] = b"MDLOCLOG\x02\x01\0\0\0\0\0\0\
    \x01\x01\0\0\0\0\0\0\0\x07\0\0\0\x03\0\0\0\x05\0\0\0\0\0\0\0\0\0\0\0\0\0\0\
    \x01\x09\0\0\0\0\0\0\0\x07\0\0\0\0\0\0\0\0\0\0\0\0\0\0\0\0\0\0\0\0\0\0\
    \0";

// The first 48 bytes of a log of put 7 at (3,5).
const SHORT_LOG: &[u8] = b"MDLOCLOG\x02\x01\0\0\0\0\0\0\
    \x01\x01\0\0\0\0\0\0\0\x07\0\0\0\x03\0\0\0\x05\0\0\0\0\0\0\0\0\0\0\0\0\0\0";

// A log of put 7 at (3,5) and move 7 to (4,5), both with moment 10, and put 8 at (9,9), with the last moment.
const MOMENTS_LOG: &[u8] = b"MDLOCLOG\x02\x01\0\0\0\0\0\0\
    \x01\x01\0\0\0\0\0\0\0\x07\0\0\0\x03\0\0\0\x05\0\0\0\0\0\0\0\x0a\0\0\0\0\0\0\
    \x01\x02\0\0\0\0\0\0\0\x07\0\0\0\x04\0\0\0\x05\0\0\0\0\0\0\0\x0a\0\0\0\0\0\0\
    \x01\x01\0\0\0\0\0\0\0\x08\0\0\0\x09\0\0\0\x09\xff\xff\xff\xff\xff\xff\xff\xff\0\0\0\0\0\0\
    \0";

const SHOWS: Case<'static> = Case {
    name: "show of no cells",
    words: &["show", "log", "0", "0", "9", "9"],
    text: "id,x,y,moment\n",
    ..EMPTY
};

// Shows of a log of five points.
const LISTS: Case<'static> = Case {
    file: Some(TWO_LEAVES_LOG),
    held: TWO_LEAVES_LOG,
    ..SHOWS
};

const BOXES: &[Case<'static>] = &[
    Case {
        name: "a box of two points",
        words: &["show", "log", "0", "0", "1", "1"],
        text: "id,x,y,moment\n1,0,0,0\n5,1,1,0\n",
        ..LISTS
    },
    Case {
        name: "a box of all points",
        words: &["show", "log", "0", "0", "4294967295", "4294967295"],
        text: "id,x,y,moment\n1,0,0,0\n2,2147483648,0,0\n3,0,2147483648,0\n4,2147483648,2147483648,0\n5,1,1,0\n",
        ..LISTS
    },
    Case {
        name: "a box with points in its corners",
        words: &["show", "log", "1", "1", "2147483648", "2147483648"],
        text: "id,x,y,moment\n4,2147483648,2147483648,0\n5,1,1,0\n",
        ..LISTS
    },
    Case {
        name: "points with moments",
        file: Some(MOMENTS_LOG),
        text: "id,x,y,moment\n7,4,5,10\n8,9,9,18446744073709551615\n",
        held: MOMENTS_LOG,
        ..SHOWS
    },
    Case {
        name: "a box of no points",
        words: &["show", "log", "2", "0", "2147483647", "2147483647"],
        ..LISTS
    },
];

#[test]
fn show_lists_the_points_of_the_box_by_id(rt: HostRuntime) {
    each_is_left(&rt, rt.alloc(), BOXES);
}

const SHOW_REFUSED: Case<'static> = Case { status: 4, ..SHOWS };

const CHECK_REFUSED: Case<'static> = Case { status: 4, ..CHECK };

const REFUSED: &[Case<'static>] = &[
    Case {
        name: "show of a kind that isn't there",
        file: Some(DAMAGED_LOG),
        text: "refused cell 1 kind\n",
        held: DAMAGED_LOG,
        ..SHOW_REFUSED
    },
    Case {
        name: "check of a kind that isn't there",
        file: Some(DAMAGED_LOG),
        text: "refused cell 1 kind\n",
        held: DAMAGED_LOG,
        ..CHECK_REFUSED
    },
    Case {
        name: "show of a short cell",
        file: Some(SHORT_LOG),
        text: "refused cell 0 short\n",
        held: SHORT_LOG,
        ..SHOW_REFUSED
    },
    Case {
        name: "check of a short cell",
        file: Some(SHORT_LOG),
        text: "refused cell 0 short\n",
        held: SHORT_LOG,
        ..CHECK_REFUSED
    },
    Case {
        name: "show of an empty file",
        file: Some(&[]),
        text: "refused not a log\n",
        held: &[],
        ..SHOW_REFUSED
    },
    Case {
        name: "check of an empty file",
        file: Some(&[]),
        text: "refused not a log\n",
        held: &[],
        ..CHECK_REFUSED
    },
];

#[test]
fn show_of_a_damaged_log_tells_what_check_tells(rt: HostRuntime) {
    each_is_left(&rt, rt.alloc(), REFUSED);
}
