//! Measures batches: threads that move objects, many moves in one step.
//!
//! Usage: `batches [FILE SIZE THREADS CHANGES [MILLIS]]`.
//!
//! The store has a log in FILE, which must not exist yet, and 65,536 objects. If FILE is `-`, it has no log. Each of
//! THREADS threads (1 to 16) has objects of its own and makes CHANGES / THREADS moves, in batches of SIZE (1 to 65,536).
//! The number of a move determines its object, its point and its moment. With MILLIS the records wait in memory, and the
//! first thread syncs after a batch if its last sync was so many milliseconds ago. A last sync ends the run. The program
//! prints how many moves were made, how many nanoseconds they and the syncs took, and how many answers were right.
//! `peers/batches.py` compares these times with other stores.
//!
//! Without words the store is in memory, and two threads make 1,024 moves of 1,024 objects in batches of 16. Then the
//! time isn't printed, so the output is always the same.
#![tactic(auto)]

mod moves;
mod plan;
mod play;
mod trouble;

use pisrakun::{
    BufferedStore, FileDisk, FileStore, Found, KdTrie, LogDisk, MemoryStore, ObjectStore, Start,
};
use plan::Plan;
use play::{Moved, play};
use std::process::ExitCode;
use std::rt::{Clock, Env};
use std::sync::Wait;
use std::thread::Threads;
use std::{env, io};
use trouble::Trouble;

// The bucket size in objects.
const BUCKET: u32 = 64;

// Makes the moves of a plan, if the file had no records.
fn play_anew<R: Threads + Wait + Sync + AllocGlobal + Clock, D: LogDisk + Send, O: Start + Send>(
    rt: &R,
    store: &mut ObjectStore<KdTrie, D, O>,
    found: Found,
    plan: Plan,
) -> Result<Moved, Trouble> {
    if found.records == 0 {
        play(rt, store, plan)
    } else {
        Err(Trouble::InUse)
    }
}

// Makes the moves of a plan over a log in a file.
fn play_in_file<R: Threads + Wait + Sync + AllocGlobal + Clock, D: LogDisk + Send>(
    rt: &R,
    disk: D,
    file: &str,
    plan: Plan,
) -> Result<Moved, Trouble> {
    let opened = FileStore::<KdTrie, D>::open_file(rt.alloc(), disk, file, BUCKET);
    let (mut store, found) = opened.map_err(|refused| Trouble::Open(refused.cause))?;
    let moved = play_anew(rt, &mut store, found, plan);
    store.close();
    moved
}

// The same over a log whose records wait for a sync.
fn play_buffered<R: Threads + Wait + Sync + AllocGlobal + Clock, D: LogDisk + Send>(
    rt: &R,
    disk: D,
    file: &str,
    plan: Plan,
) -> Result<Moved, Trouble> {
    let opened = BufferedStore::<KdTrie, D>::open_file(rt.alloc(), disk, file, BUCKET);
    let (mut store, found) = opened.map_err(|refused| Trouble::Open(refused.cause))?;
    let moved = play_anew(rt, &mut store, found, plan);
    store
        .close()
        .map_err(|unsynced| Trouble::Unsynced(unsynced.cause))?;
    moved
}

fn play_in_memory<R: Threads + Wait + Sync + AllocGlobal + Clock>(
    rt: &R,
    plan: Plan,
) -> Result<Moved, Trouble> {
    let mut store = MemoryStore::<KdTrie>::in_memory(rt.alloc(), BUCKET)?;
    let moved = play(rt, &mut store, plan);
    store.close();
    moved
}

fn run<R: Threads + Wait + Sync + AllocGlobal + Clock + Env + Print, D: LogDisk + Send>(
    rt: &R,
    disk: D,
) -> Result<(), Trouble> {
    let mut words = env::args(rt)?;
    words.next();
    let Some(file) = words.next() else {
        let moved = play_in_memory(rt, Plan::small())?;
        println!(rt; "changes {}", moved.changes)?;
        println!(rt; "right answers {}", moved.right)?;
        return Ok(());
    };
    let plan = Plan::of_words(&mut words);
    let moved = match (file.as_str(), plan.pause) {
        ("-", _) => play_in_memory(rt, plan)?,
        (file, None) => play_in_file(rt, disk, file, plan)?,
        (file, Some(_)) => play_buffered(rt, disk, file, plan)?,
    };
    println!(rt; "changes {} nanos {}", moved.changes, moved.nanos)?;
    println!(rt; "right answers {}", moved.right)?;
    Ok(())
}

fn main(rt: HostRuntime) -> ExitCode {
    let Ok(own) = rt.clone() else {
        return ExitCode::FAILURE;
    };
    match run(&rt, FileDisk::new(own)) {
        Ok(()) => ExitCode::SUCCESS,
        Err(trouble) => {
            let _ = println!(rt; "{trouble}");
            ExitCode::FAILURE
        }
    }
}
