//! Measures the trie and the lock.
//!
//! Usage: `benches DEPTH POINTS MOVES CHECKS SHARES KEPT THREADS ROUNDS MICROSECONDS RESTS PAUSE BATCH BUSY`.
//!
//! The trie: the program makes 512 leaves with names of DEPTH bits (9 to 60). All but the last 9 bits are those of one
//! city. It adds POINTS points. Then it tries MOVES moves, checks CHECKS rows as a move does first, and takes and drops
//! SHARES shares. If KEPT isn't 0, it keeps one share during all moves.
//!
//! The lock: THREADS threads take the lock at once, in ROUNDS rounds altogether. A round sleeps MICROSECONDS
//! microseconds while it holds the lock. If that is 0, it is a quick round with RESTS short rests. With a PAUSE each
//! thread takes one round in PAUSE microseconds. At the same time BATCH threads of a batch and BUSY others take rounds
//! without a pause.
//!
//! The program prints only counts. One of them is the count of the value that the lock guards, if no others took
//! rounds. You measure the time from outside, by `perf stat` or `time`, of a run with one of the parts and a run
//! without it. With the word `times` at the end the program also prints how many nanoseconds each round took.
//! `tools/waits.py` makes a table of these.
#![tactic(auto)]

ghost use Rattle.std.specs.Prelude.{◌≤◌};

mod crowd;
mod points;
mod rows;
mod tally;

use crowd::Plan;
use kd_trie::KdTrie;
use points::{Done, Plan as TriePlan};
use std::alloc::Global;
use std::env::{self, Args};
use std::io;
use std::rt::Clock;
use std::sync::Wait;
use std::thread::Threads;
use std::time::Duration;

fn number(word: Option<String>, otherwise: u64) -> u64 {
    match word {
        Some(word) => word.parse::<u64>().unwrap_or(otherwise),
        None => otherwise,
    }
}

fn tell_trie(rt: &impl Print, alloc: Global, plan: &TriePlan) -> io::Result<()>
    requires { plan.now.depth ≤ 64 }
{
    match points::play::<KdTrie>(alloc, plan) {
        Ok(done) => tell_done(rt, &done),
        Err(_) => println!(rt; "no memory"),
    }
}

fn tell_done(rt: &impl Print, done: &Done) -> io::Result<()> {
    println!(rt;
        "points {}\nmoved {}\nchecked {}\nshared {}\nthere {}\nin the kept share {}",
        done.points, done.moved, done.checked, done.shared, done.there, done.kept
    )
}

fn tell_lock<R: Print + Threads + Wait + Clock + Sync>(
    rt: &R,
    alloc: Global,
    plan: Plan,
) -> io::Result<()>
    requires { (1 ≤ plan.threads) × (plan.threads ≤ 64) × (plan.batch ≤ 64) × (plan.busy ≤ 64) }
{
    let Some(entries) = crowd::play(rt, alloc, plan) else {
        return println!(rt; "no memory");
    };
    println!(rt; "threads {}\nrounds {} each", plan.threads, plan.rounds)?;
    if plan.batch > 0 || plan.busy > 0 {
        return Ok(());
    }
    println!(rt; "entries {entries}")
}

// The plan for the trie, from the first six words.
fn plan_of(words: &mut Args) -> TriePlan
    ensures { result.depth ≤ 64 }
{
    TriePlan {
        depth: number(words.next(), 34).clamp(9, 60) as u8,
        points: number(words.next(), 2000),
        moves: number(words.next(), 4000),
        checks: number(words.next(), 1000),
        shares: number(words.next(), 1000),
        keeps: number(words.next(), 1) != 0,
    }
}

// A number of threads, at most 64.
fn threads(word: Option<String>, otherwise: u64) -> u8
    ensures { result ≤ 64 }
{
    number(word, otherwise).min(64) as u8
}

// The plan for the lock, from the other words.
fn lock_plan_of(words: &mut Args) -> Plan
    ensures { (1 ≤ result.threads) × (result.threads ≤ 64) × (result.batch ≤ 64) × (result.busy ≤ 64) }
{
    let threads_at_once = threads(words.next(), 4).max(1);
    let rounds = number(words.next(), 4000) / u64::from(threads_at_once);
    Plan {
        threads: threads_at_once,
        rounds: rounds.min(u64::from(u32::MAX)) as u32,
        asleep: Duration::from_micros(number(words.next(), 0)),
        rests: number(words.next(), 0).min(1_000_000) as u32,
        pause: number(words.next(), 0).min(1_000_000) as u32,
        batch: threads(words.next(), 0),
        busy: threads(words.next(), 0),
        tells_times: words.next().is_some(),
    }
}

fn main(rt: HostRuntime) -> io::Result<()> {
    let mut words = env::args(&rt)?;
    words.next();
    let trie_plan = plan_of(&mut words);
    let lock_plan = lock_plan_of(&mut words);
    tell_trie(&rt, rt.alloc(), &trie_plan)?;
    tell_lock(&rt, rt.alloc(), lock_plan)
}
