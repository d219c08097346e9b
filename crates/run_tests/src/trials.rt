//! `trial` over no log and over one.
ghost use Rattle.std.specs.Prelude.{◌≤◌};

use crate::checks::{Case, EMPTY, NO_LOG, each_is_left, holds, run_case};
use make_moves::make;
use plain_list::{Op, World, WorldBack, after};
use std::alloc::{AllocError, Global};
use std::process::Abort;
use std::sync::Wait;
use std::thread::Threads;
use zorder::{Memory, key};

const TRIAL: Case<'static> = Case {
    name: "a trial of seed 2",
    words: &["trial", "-", "1", "2"],
    text: "rows 1\npoints 1\nsum 17116200679316071202\n",
    entries: 1,
    ..NO_LOG
};

// A log of put 1717 at (3938983765, 2969520912), with moment 60104.
const MADE_LOG: &[u8] = b"MDLOCLOG\x02\x01\0\0\0\0\0\0\
    \x01\x01\0\0\0\0\0\0\x06\xb5\xea\xc8\x1f\x55\xb0\xff\x4b\x10\0\0\0\0\0\0\xea\xc8\0\0\0\0\0\0\
    \0";

// A trial of seed 2 over a log.
const OVER: Case<'static> = Case {
    name: "a trial over a log of no cells",
    words: &["trial", "log", "1", "2"],
    held: MADE_LOG,
    text: "rows 1\npoints 1\nsum 17116200679316071202\n",
    entries: 1,
    ..EMPTY
};

const AGAIN: Case<'static> = Case {
    name: "the trial again",
    file: Some(MADE_LOG),
    ..OVER
};

// The row of seed 2 is a put of 1717 at (3938983765, 2969520912), with moment 60104. That of seed 1 is a box, and that
// of seed 0 is a move.
const ONE_ROW: &[Case<'static>] = &[
    TRIAL,
    Case {
        name: "a trial of seed 1",
        words: &["trial", "-", "1", "1"],
        text: "rows 1\npoints 0\nsum 0\n",
        ..TRIAL
    },
    Case {
        name: "a trial of seed 0",
        words: &["trial", "-", "1", "0"],
        text: "rows 1\npoints 0\nsum 0\n",
        ..TRIAL
    },
    OVER,
    AGAIN,
    Case {
        name: "check behind the trial",
        words: &["check", "log"],
        text: "cells 1\npoints 1\nleaves 1\nunfinished 0\n",
        entries: 0,
        ..AGAIN
    },
    Case {
        name: "show behind the trial",
        words: &["show", "log", "0", "0", "4294967295", "4294967295"],
        text: "id,x,y,moment\n1717,3938983765,2969520912,60104\n",
        entries: 0,
        ..AGAIN
    },
];

#[test]
fn a_trial_of_one_row_tells_of_its_put_and_keeps_it(rt: HostRuntime) {
    each_is_left(&rt, rt.alloc(), ONE_ROW);
}

fn next(world: World, op: &Op) -> Result<World, Memory> {
    match after(world, op) {
        Ok(world) => Ok(world),
        Err(WorldBack { .. }) => Err(Memory),
    }
}

// One plain list after the rows of a seed, in their order.
fn world_of(alloc: Global, rows: u32, seed: u64) -> Result<World, Memory>
    requires { rows ≤ 65536 }
{
    let made = make(alloc, rows, seed)?;
    let mut world = World::empty(alloc);
    for row in made.as_slice() {
        world = next(world, &row.op)?;
    }
    Ok(world)
}

fn sum_of(world: &World) -> u64 {
    let mut sum = 0u64;
    for point in world.as_slice() {
        sum = sum.wrapping_add(key(point.at));
    }
    sum
}

fn text_of(alloc: Global, rows: u32, world: &World) -> Result<String, AllocError> {
    let points = world.as_slice().len();
    let sum = sum_of(world);
    format!(in alloc; "rows {rows}\npoints {points}\nsum {sum}\n")
}

const ROWS: u32 = 65_536;

const SEED: u64 = 3;

const LONG_TRIAL: &Case<'static> = &Case {
    name: "a trial of 65,536 rows",
    words: &["trial", "-", "65536", "3"],
    text: "rows 65536\npoints 11038\nsum 3519966882705042377\n",
    ..NO_LOG
};

// What such a trial is to write, by one plain list.
fn wanted(alloc: Global) -> Result<String, Memory> {
    let world = world_of(alloc, ROWS, SEED)?;
    Ok(text_of(alloc, ROWS, &world)?)
}

fn is_what_a_list_has<R: Abort + Threads + Wait + Sync>(rt: &R, alloc: Global) {
    let wanted = wanted(alloc).expect(rt, "it failed");
    holds(rt, wanted.as_str() == LONG_TRIAL.text, "one plain list");
}

fn tells_twice<R: Abort + Threads + Wait + Sync>(rt: &R, alloc: Global) {
    for _ in 0..2 {
        let left = run_case(rt, alloc, LONG_TRIAL);
        holds(rt, left.tells(0, LONG_TRIAL.text), LONG_TRIAL.name);
    }
}

// However the sessions' threads run, the objects of one session are its own.
#[test]
fn a_trial_tells_twice_what_one_plain_list_has(rt: HostRuntime) {
    is_what_a_list_has(&rt, rt.alloc());
    tells_twice(&rt, rt.alloc());
}
