//! `follow` by drawn turns, over logs of both widths. Its lines and the cells of NEW are those of a plain machine.
use crate::hostile::compacts::GROWN;
use crate::hostile::crashes::WHOLE;
use crate::hostile::draws::Draws;
use crate::hostile::machine::{Follower, Turn, input_of, told_of};
use crate::hostile::records::{Record, front, log_of};
use crate::hostile::runs::{following, must};
use crate::memory::run_both;
use std::alloc::{AllocError, Global};
use std::process::Abort;
use std::sync::Wait;
use std::thread::Threads;

// What the next turn may be. Half of what is sent and of what arrives is near to what NEW waits for.
fn turn_of(draws: &mut Draws, follower: &Follower) -> Turn {
    let is_near = draws.below(2) == 0;
    let packets = follower.packets.len() as u64;
    let acks = follower.acks.len() as u64;
    match draws.below(8) {
        0..=3 if packets > 0 => Turn::Arrive(if is_near {
            packets
        } else {
            draws.below(packets).saturating_add(1)
        }),
        4 if acks > 0 => Turn::Ack(draws.below(acks).saturating_add(1)),
        5 if is_near => Turn::Restart,
        _ if is_near => Turn::Send(follower.held.saturating_add(draws.below(2))),
        _ => Turn::Send(draws.below(follower.count.saturating_add(2))),
    }
}

fn turns_of(
    alloc: Global,
    draws: &mut Draws,
    count: u64,
    first: u64,
) -> Result<Vec<Turn>, AllocError> {
    let mut follower = Follower::new(alloc, count, first);
    let mut turns = Vec::new(alloc);
    for _ in 0..draws.below(60) {
        let turn = turn_of(draws, &follower);
        follower.turn(turn)?;
        turns.push(turn)?;
    }
    Ok(turns)
}

// NEW with the first of these records, and sometimes bytes after them. If there are no records, sometimes a file of 17
// bytes.
fn new_of(
    alloc: Global,
    draws: &mut Draws,
    width: u8,
    records: &[Record],
) -> Result<Vec<u8>, AllocError> {
    match draws.below(3) {
        0 if records.is_empty() => Vec::from_slice(alloc, &[9; 17]),
        1 => log_of(alloc, width, records, &[9; 40]),
        _ => log_of(alloc, width, records, &[0]),
    }
}

// Whether a file has exactly `held` of these records, and ends with a clear commit byte. The value of that byte stays
// if nothing came after it.
fn is_held(width: u8, file: &[u8], records: &[Record], held: usize) -> bool {
    let len = held.saturating_mul(32).saturating_add(17);
    front(width, file, records) == Some(held) && file.len() == len
}

fn follow<R: Abort + Threads + Wait + Sync>(
    rt: &R,
    alloc: Global,
    width: u8,
    records: &[Record],
    seed: u64,
) {
    let mut draws = Draws::new(seed);
    let count = records.len() as u64;
    let first = draws.below(count.saturating_add(1));
    let (front, _) = records.split_at((first as usize).min(records.len()));
    let turns = turns_of(alloc, &mut draws, count, first).expect(rt, "it failed");
    let turns = turns.as_slice();
    let input = input_of(alloc, turns).expect(rt, "it failed");
    let told = told_of(alloc, turns, count, first).expect(rt, "it failed");
    let new = new_of(alloc, &mut draws, width, front).expect(rt, "it failed");
    let file = log_of(alloc, width, records, &[0]).expect(rt, "it failed");
    let plan = following(&input, file.as_slice());
    let left = run_both(rt, alloc, &plan, new.as_slice(), &[]);
    must(rt, left.tells(0, &told.text), "lines of seed", seed);
    must(
        rt,
        is_held(width, left.other.bytes(), records, told.held as usize),
        "cells of seed",
        seed,
    );
    let is_kept = left.file() == file.as_slice() && left.disk.moments() == 0;
    must(rt, is_kept, "the first file, seed", seed);
}

fn follow_each<R: Abort + Threads + Wait + Sync>(rt: &R, alloc: Global) {
    for seed in 0..150 {
        follow(rt, alloc, 1, GROWN, seed);
        follow(rt, alloc, 2, WHOLE, seed);
    }
}

#[test]
fn follow_by_turns_that_are_drawn_is_what_a_plain_machine_does(rt: HostRuntime) {
    follow_each(&rt, rt.alloc());
}
