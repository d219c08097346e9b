//! The commands over a log whose splits create four children: one that is created, five points that are split, and a
//! point under many splits.
use crate::checks::{CHECK, Case, EMPTY, INIT, PLAY_BY_4, each_is_left, is_left};
use crate::compacts::{PAIR, RUN};
use crate::logged::many_leaves_log;
use crate::memory::EMPTY_QUAD_LOG;
use crate::pairs::{Pair, pair_is_left};
use std::alloc::Global;
use std::process::Abort;
use std::sync::Wait;
use std::thread::Threads;

// A log of puts 1 to 5 at (0,0), (2147483648,0), (0,2147483648), (2147483648,2147483648) and (1,1), begin 1 of the
// empty name, and install 1.
const FOUR_LEAVES_LOG: &[u8] = b"MDLOCLOG\x02\x02\0\0\0\0\0\0\
    \x01\x01\0\0\0\0\0\0\0\x01\0\0\0\0\0\0\0\0\0\0\0\0\0\0\0\0\0\0\0\0\0\0\
    \x01\x01\0\0\0\0\0\0\0\x02\x80\0\0\0\0\0\0\0\0\0\0\0\0\0\0\0\0\0\0\0\0\0\
    \x01\x01\0\0\0\0\0\0\0\x03\0\0\0\0\x80\0\0\0\0\0\0\0\0\0\0\0\0\0\0\0\0\0\
    \x01\x01\0\0\0\0\0\0\0\x04\x80\0\0\0\x80\0\0\0\0\0\0\0\0\0\0\0\0\0\0\0\0\0\
    \x01\x01\0\0\0\0\0\0\0\x05\0\0\0\x01\0\0\0\x01\0\0\0\0\0\0\0\0\0\0\0\0\0\0\
    \x01\x04\0\0\0\0\0\0\0\x01\0\0\0\0\0\0\0\0\0\0\0\0\0\0\0\0\0\0\0\0\0\0\
    \x01\x05\0\0\0\0\0\0\0\x01\0\0\0\0\0\0\0\0\0\0\0\0\0\0\0\0\0\0\0\0\0\0\
    \0";

const MADE: Case<'static> = Case {
    name: "init of a quad log",
    words: &["init", "log", "--quad"],
    file: Some(&[]),
    held: EMPTY_QUAD_LOG,
    ..INIT
};

const PUTS_BY_4: Case<'static> = Case {
    name: "five puts over a quad log with buckets of 4",
    words: PLAY_BY_4,
    file: Some(EMPTY_QUAD_LOG),
    held: FOUR_LEAVES_LOG,
    input: rows!(
        "1,put,1,0,0,,,0\n1,put,2,2147483648,0,,,0\n1,put,3,0,2147483648,,,0\n1,put,4,2147483648,2147483648,,,0\n1,put,5,1,1,,,0\n"
    ),
    text: lines!("1,1,done,\n2,2,done,\n3,3,done,\n4,4,done,\n5,5,done,\n"),
    entries: 7,
    ..EMPTY
};

// What is found of the five points.
const FOUND: &[Case<'static>] = &[
    Case {
        name: "check of four leaves",
        file: Some(FOUR_LEAVES_LOG),
        held: FOUR_LEAVES_LOG,
        text: "cells 7\npoints 5\nleaves 4\nunfinished 0\n",
        ..CHECK
    },
    Case {
        name: "show of two of five points",
        file: Some(FOUR_LEAVES_LOG),
        held: FOUR_LEAVES_LOG,
        words: &["show", "log", "0", "0", "1", "1"],
        text: "id,x,y,moment\n1,0,0,0\n5,1,1,0\n",
        ..CHECK
    },
    Case {
        name: "a box and the nearest over four leaves",
        file: Some(FOUR_LEAVES_LOG),
        held: FOUR_LEAVES_LOG,
        words: PLAY_BY_4,
        input: rows!("1,box,,0,0,3,5,\n1,near,,0,0,3,,\n1,where,4,,,,,\n"),
        text: lines!(
            "1,1,found,1:0:0;5:1:1\n2,2,found,1:0:0;5:1:1;2:2147483648:0\n3,3,at,2147483648:2147483648:0\n"
        ),
        entries: 3,
        ..EMPTY
    },
];

#[test]
fn a_quad_log_is_made_split_and_found_again(rt: HostRuntime) {
    is_left(&rt, rt.alloc(), &MADE);
    is_left(&rt, rt.alloc(), &PUTS_BY_4);
    each_is_left(&rt, rt.alloc(), FOUND);
}

// Begin 1 of the empty name, install 1, and puts 1 to 5.
const FRESH_FOUR_LEAVES_LOG: &[u8] = b"MDLOCLOG\x02\x02\0\0\0\0\0\0\
    \x01\x04\0\0\0\0\0\0\0\x01\0\0\0\0\0\0\0\0\0\0\0\0\0\0\0\0\0\0\0\0\0\0\
    \x01\x05\0\0\0\0\0\0\0\x01\0\0\0\0\0\0\0\0\0\0\0\0\0\0\0\0\0\0\0\0\0\0\
    \x01\x01\0\0\0\0\0\0\0\x01\0\0\0\0\0\0\0\0\0\0\0\0\0\0\0\0\0\0\0\0\0\0\
    \x01\x01\0\0\0\0\0\0\0\x02\x80\0\0\0\0\0\0\0\0\0\0\0\0\0\0\0\0\0\0\0\0\0\
    \x01\x01\0\0\0\0\0\0\0\x03\0\0\0\0\x80\0\0\0\0\0\0\0\0\0\0\0\0\0\0\0\0\0\
    \x01\x01\0\0\0\0\0\0\0\x04\x80\0\0\0\x80\0\0\0\0\0\0\0\0\0\0\0\0\0\0\0\0\0\
    \x01\x01\0\0\0\0\0\0\0\x05\0\0\0\x01\0\0\0\x01\0\0\0\0\0\0\0\0\0\0\0\0\0\0\
    \0";

const COMPACTED: Pair<'static> = Pair {
    run: Case {
        name: "compact of a quad log",
        file: Some(FOUR_LEAVES_LOG),
        text: "compacted 7\n",
        held: FOUR_LEAVES_LOG,
        ..RUN
    },
    written: FRESH_FOUR_LEAVES_LOG,
    ..PAIR
};

#[test]
fn a_quad_log_that_is_written_anew_stays_one(rt: HostRuntime) {
    pair_is_left(&rt, rt.alloc(), &COMPACTED);
}

// Five puts at one point, over a log of no cells.
const AT_ONE_POINT: &Case<'static> = &Case {
    name: "five puts at one point over a quad log",
    input: rows!(
        "1,put,1,3,5,,,0\n1,put,2,3,5,,,0\n1,put,3,3,5,,,0\n1,put,4,3,5,,,0\n1,put,5,3,5,,,0\n"
    ),
    entries: 69,
    ..PUTS_BY_4
};

const CHECK_AT_ONE_POINT: &Case<'static> = &Case {
    name: "check of 97 leaves",
    text: "cells 69\npoints 5\nleaves 97\nunfinished 0\n",
    ..CHECK
};

fn leaving(held: &[u8]) -> Case<'_> {
    Case {
        held,
        ..*AT_ONE_POINT
    }
}

fn splits_of_one_point<R: Abort + Threads + Wait + Sync>(rt: &R, alloc: Global) {
    let log = many_leaves_log(alloc, 2, 32).expect(rt, "it failed");
    let log = log.as_slice();
    is_left(rt, alloc, &leaving(log));
    is_left(rt, alloc, &CHECK_AT_ONE_POINT.over(log));
}

#[test]
fn points_at_one_place_make_half_as_many_splits_of_four(rt: HostRuntime) {
    splits_of_one_point(&rt, rt.alloc());
}
