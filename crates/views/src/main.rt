//! Measures views of a store in memory: what one costs, its queries, and threads that read.
//!
//! Usage: `views [small | large] [queries | threads] [times]`.
//!
//! The store has random objects: 1,000, with `small` 65,536 and with `large` 1,000,000, in leaves of at most 64. With
//! `queries` one thread takes views, counts the objects of a box with nearly all, visits all, lists all, and finds the
//! nearest by `nearest` and by a browse. With `threads` one thread and then four read for a while, alone and beside a
//! writer with 10,000 changes a second. Each thread has a view of its own, which it renews every 10 milliseconds.
//! Without either word the program does both.
//!
//! The program prints only counts, which are the same in every schedule. With `times` it also prints how many
//! nanoseconds a query took, and how many answers a second the threads had.
#![tactic(auto)]

mod crowd;
mod objects;
mod plan;
mod queries;
mod reading;
mod trouble;

use commit_book::Book;
use crowd::play;
use disk_mem::MemDisk;
use kd_trie::KdTrie;
use plan::Plan;
use std::env::{self, Args};
use std::io;
use std::process::ExitCode;
use std::rt::{Clock, Env};
use std::sync::Wait;
use std::thread::Threads;
use trouble::Trouble;

// The bucket size in objects.
const BUCKET: u32 = 64;

fn plan_of(words: Args) -> Plan {
    let mut plan = Plan::new();
    for word in words {
        plan.take(word.as_str());
    }
    plan
}

fn run<R: Threads + Wait + Sync + AllocGlobal + Clock + Env + Print>(
    rt: &R,
) -> Result<(), Trouble> {
    let plan = plan_of(env::args(rt)?);
    let Ok(book) = Book::<KdTrie, MemDisk>::fresh(rt.alloc(), BUCKET) else {
        return Err(Trouble::Memory);
    };
    play(rt, book.without_list(), plan)
}

fn main(rt: HostRuntime) -> ExitCode {
    match run(&rt) {
        Ok(()) => ExitCode::SUCCESS,
        Err(trouble) => {
            let _ = println!(rt; "{trouble}");
            ExitCode::FAILURE
        }
    }
}
