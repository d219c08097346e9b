//! Runs a store for long, in memory or over two files, and checks its answers.
//!
//! `soak CALLS THREADS OBJECTS SEED ROUND [quiet | files ONE TWO | chain ONE TWO | waits ONE TWO | turns ONE TWO]`:
//! the run makes CALLS calls (by default 20,000,000) in THREADS threads (at most 4) on OBJECTS objects (by default
//! 100,000). The calls are puts, moves (some of them late), removals, finds, boxes and nears, as the seed decides.
//! After each ROUND calls (by default 3,900,000) the threads meet, and the calls of the round are checked in the order
//! of their places. Each place must be that of one call. A plain map of this program makes the changes, and each
//! answer must be the answer of the map at that place. In memory the same store goes on for all rounds.
//!
//! A check of a box or a near goes over all objects. So if there are n objects, it checks one in n / 100 of these
//! queries. At the end it looks up all objects. A difference is reported, and the run ends with status 1.
//!
//! At the end of each round the run takes a view, and holds it until it is 10,000 calls old. After each round it
//! compares all views that it holds with what the map had when they were taken: how many objects there were, how many
//! were in a box and which, and which were the nearest of a point.
//!
//! With `files` the store has a log in one of these two files, which must have no objects. After each round the store
//! is rotated: it continues over a fresh log in the other file. Each second rotation builds new leaves. The run prints
//! each rotation with its time. A run prints how many boxes and nears were checked, and how many objects there are at
//! the end. With `quiet` it prints only what doesn't depend on the schedule.
//!
//! With `chain` the run continues with what it finds in these files. Each thread moves objects of its own to new
//! positions, one after the other. Every second call is a batch of up to eight changes. The number of a change
//! determines the change. So the objects must be exactly where a number of first changes of each thread leaves them.
//! The run prints how many changes it found. After about ROUND changes it prints how many were made, and rotates the
//! store. If you kill the run, the next start reports what is there. `tools/soak` drives it. With `waits` the records
//! of these changes wait for a sync. Each thread syncs at the end of a round, and the run prints how many changes were
//! made after that.
//!
//! With `turns` the run puts OBJECTS objects, and then rotates the store CALLS times, with the time of each rotation.
//! Each second one builds new leaves.
#![tactic(auto)]

ghost use Rattle.std.specs.Prelude.{◌≤◌, IfOk};
ghost use Rattle.soak.specs.Whole.{IsWhole};

mod chain;
mod dice;
mod judge;
mod last;
mod plan;
mod rounds;
mod soak;
mod soaker;
mod trouble;
mod turns;
mod views;

use commit_book::Book;
use disk_file::FileDisk;
use disk_mem::MemDisk;
use disk_trait::LogDisk;
use judge::Judge;
use kd_trie::KdTrie;
use plan::Plan;
use rounds::{chain_at_sync, chain_over_files};
use sessions::Store;
use soak::{SoakPass, play, play_over_files};
use std::alloc::Global;
use std::env::{self, Args};
use std::fs::Files;
use std::io;
use std::io::Print;
use std::marker::Brand;
use std::process::ExitCode;
use std::rt::{Clock, Env};
use std::sync::Wait;
use std::thread::Threads;
use store_file::{OpenedEither, OverFile, open_either, open_either_at_sync};
use trouble::Trouble;
use turns::turn_over_files;

// How many objects a leaf should have.
const BUCKET: u32 = 64;

fn number(word: Option<String>, otherwise: u64, most: u64) -> u64
    ensures { result ≤ most }
{
    let number = match word {
        Some(word) => word.parse::<u64>().unwrap_or(otherwise),
        None => otherwise,
    };
    number.min(most)
}

type MemoryStore = (
    Store<KdTrie, MemDisk, Brand>,
    SoakPass<KdTrie, MemDisk, Brand>,
);

// The plan that the words describe.
fn plan_of(words: &mut Args) -> Plan {
    Plan {
        calls: number(words.next(), 20_000_000, u64::MAX),
        threads: number(words.next(), 4, 4).max(1) as u8,
        objects: number(words.next(), 100_000, 1_048_576).max(1) as u32,
        seed: number(words.next(), 1, u64::MAX),
        round: number(words.next(), 3_900_000, u64::MAX).max(1),
    }
}

// What a run is over, and what it prints.
#[derive(Clone, Copy, PartialEq, Eq)]
enum Mode {
    Memory,
    Quiet,
    Files,
    Chain,
    Waits,
    Turns,
}

impl Mode {
    fn is_in_memory(self) -> bool {
        matches!(self, Mode::Memory | Mode::Quiet)
    }
}

fn mode_of(word: Option<String>) -> Mode {
    match word.as_ref().map(|word| word.as_str()) {
        None => Mode::Memory,
        Some("files") => Mode::Files,
        Some("chain") => Mode::Chain,
        Some("waits") => Mode::Waits,
        Some("turns") => Mode::Turns,
        Some(_) => Mode::Quiet,
    }
}

// An empty store in memory, and the pass that has all parts of it.
fn store_in_memory(alloc: Global) -> Result<MemoryStore, Trouble>
    ensures { IfOk result (λ r. IsWhole r.0 r.1) }
{
    let Ok(book) = Book::<KdTrie, MemDisk>::fresh(alloc, BUCKET) else {
        return Err(Trouble::Memory);
    };
    match Store::new(alloc, book.without_list()) {
        Ok(both) => Ok(both),
        Err(_) => Err(Trouble::Memory),
    }
}

// Runs over a store in memory.
fn play_in_memory<R: Threads + Wait + Sync + AllocGlobal>(
    rt: &R,
    plan: Plan,
) -> Result<Judge, Trouble> {
    let alloc = rt.alloc();
    let (store, pass) = store_in_memory(alloc)?;
    play(rt, alloc, store, pass, plan)
}

// The store over the log in one of the files.
fn open_files<'n, D: LogDisk>(
    alloc: Global,
    first: D,
    one: &'n str,
    second: D,
    two: &'n str,
) -> Result<OpenedEither<KdTrie, D, OverFile>, Trouble>
    ensures { IfOk result (λ o. IsWhole o.store o.pass) }
{
    let opened = open_either::<KdTrie, D>(alloc, first, one, second, two, BUCKET);
    opened.map_err(|refused| Trouble::Open(refused.cause))
}

// Chains over a store in one of two files, whose records wait for a sync.
fn chain_in_files<R: Threads + Wait + Sync + AllocGlobal + Print, D: LogDisk + Send>(
    rt: &R,
    plan: Plan,
    drives: (D, D),
    names: (&str, &str),
) -> Result<(), Trouble> {
    let alloc = rt.alloc();
    let ((first, second), (one, two)) = (drives, names);
    match open_either_at_sync::<KdTrie, D>(alloc, first, one, second, two, BUCKET) {
        Ok(
            OpenedEither {
                store,
                pass,
                points,
                latest: _,
                records: _,
                spare,
                which: _,
            },
        ) => chain_at_sync(rt, alloc, store, pass, spare, points, plan),
        Err(refused) => Err(Trouble::Open(refused.cause)),
    }
}

// Runs over a store in one of two files. A chain continues from the objects that are there. Otherwise there must be
// none.
fn play_in_files<R: Threads + Wait + Sync + AllocGlobal + Clock + Print, D: LogDisk + Send>(
    rt: &R,
    plan: Plan,
    drives: (D, D),
    names: (&str, &str),
    mode: Mode,
) -> Result<Option<Judge>, Trouble> {
    let alloc = rt.alloc();
    let ((first, second), (one, two)) = (drives, names);
    let OpenedEither {
        store,
        pass,
        points,
        latest: _,
        records: _,
        spare,
        which: _,
    } = open_files(alloc, first, one, second, two)?;
    if mode == Mode::Chain {
        chain_over_files(rt, alloc, store, pass, spare, points, plan)?;
        return Ok(None);
    }
    if points != 0 {
        store.close(pass);
        return Err(Trouble::InUse { points });
    }
    if mode == Mode::Turns {
        turn_over_files(rt, alloc, store, pass, spare, plan)?;
        return Ok(None);
    }
    Ok(Some(play_over_files(rt, alloc, store, pass, spare, plan)?))
}

// The calls of a run that isn't one of chains or turns, and the check of them.
fn play_as<R: Threads + Wait + Sync + AllocGlobal + Clock + Print, D: LogDisk + Send>(
    rt: &R,
    plan: Plan,
    drives: (D, D),
    mode: Mode,
    words: &mut Args,
) -> Result<Option<Judge>, Trouble> {
    if mode.is_in_memory() {
        return Ok(Some(play_in_memory(rt, plan)?));
    }
    let (Some(one), Some(two)) = (words.next(), words.next()) else {
        return Err(Trouble::Words);
    };
    let names = (one.as_str(), two.as_str());
    if mode == Mode::Waits {
        chain_in_files(rt, plan, drives, names)?;
        return Ok(None);
    }
    play_in_files(rt, plan, drives, names, mode)
}

fn run<R: Threads + Wait + Sync + AllocGlobal + Clock + Env + Print, D: LogDisk + Send>(
    rt: &R,
    drives: (D, D),
) -> Result<(), Trouble> {
    let mut words = env::args(rt)?;
    words.next();
    let plan = plan_of(&mut words);
    let mode = mode_of(words.next());
    let Some(judge) = play_as(rt, plan, drives, mode, &mut words)? else {
        return Ok(());
    };
    if mode != Mode::Quiet {
        println!(rt;
            "boxes and nears looked at {}, told {} objects",
            judge.lists, judge.listed
        )?;
        println!(rt;
            "views looked at {}, the oldest {} calls old",
            judge.views, judge.oldest
        )?;
        println!(rt; "objects {}", judge.kept.len())?;
    }
    println!(rt; "calls {}, each told what it should be", plan.calls)?;
    Ok(())
}

// A drive without a file.
fn drive<R: Files + Clone + Drop>(rt: &R) -> io::Result<FileDisk<R>> {
    Ok(FileDisk::new(rt.clone()?))
}

fn main(rt: HostRuntime) -> ExitCode {
    let (Ok(first), Ok(second)) = (drive(&rt), drive(&rt)) else {
        return ExitCode::FAILURE;
    };
    match run(&rt, (first, second)) {
        Ok(()) => ExitCode::SUCCESS,
        Err(trouble) => {
            let _ = println!(rt; "{trouble}");
            ExitCode::FAILURE
        }
    }
}
