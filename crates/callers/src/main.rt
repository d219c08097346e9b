//! Measures calls of a store by a program's own threads, each with a client. The threads call at a pace or rarely. They
//! run alone, next to a batch, or next to a thread that calls without a pause.
//!
//! Usage: `callers THREADS RATE MILLISECONDS BATCH BUSY`.
//!
//! Each of THREADS threads (1 to 16) makes RATE calls a second for MILLISECONDS ms. Of four calls, three move objects
//! of its own, and one finds the nearest 8. At the same time BATCH threads of a batch (at most 3) and BUSY others (at
//! most 1) make such calls without a pause. The program prints only counts, which are the same in every schedule. With
//! the word `times` at the end it also prints how many nanoseconds each paced call took. `tools/waits.py` makes a table
//! of these.
#![tactic(auto)]

ghost use Rattle.std.specs.Prelude.{◌≤◌};

mod crowd;
mod plan;
mod rows;
mod work;

use crowd::play;
use pisrakun::{KdTrie, MemoryStore};
use plan::Plan;
use std::env::{self, Args};
use std::io;
use std::io::Print;
use std::time::Duration;
use work::Caller;

// The bucket size in objects.
const BUCKET: u32 = 64;

fn number(word: Option<String>, otherwise: u64, most: u64) -> u64
    ensures { result ≤ most }
{
    let number = match word {
        Some(word) => word.parse::<u64>().unwrap_or(otherwise),
        None => otherwise,
    };
    number.min(most)
}

// The plan for the words.
fn plan_of(words: &mut Args) -> Plan {
    let paced = number(words.next(), 4, 16).max(1) as u8;
    let rate = number(words.next(), 5_000, 1_000_000).max(1);
    let millis = number(words.next(), 20, 1_000_000);
    let batch = number(words.next(), 1, 3) as u8;
    let busy = number(words.next(), 1, 1) as u8;
    Plan {
        paced,
        calls: (rate.saturating_mul(millis) / 1000).min(10_000_000) as u32,
        micros: 1_000_000 / rate,
        batch,
        all: paced + batch + busy,
        tells_times: words.next().is_some(),
    }
}

fn tell(rt: &impl Print, plan: &Plan, callers: &[Caller]) -> io::Result<()> {
    for caller in callers {
        tell_times(rt, caller.times.as_slice())?;
    }
    let mut good = 0u64;
    for caller in callers {
        good = good.saturating_add(caller.good);
    }
    println!(rt;
        "threads {}\ncalls {} each\nanswers as they should be {good}",
        plan.paced, plan.calls
    )
}

fn tell_times(rt: &impl Print, times: &[Duration]) -> io::Result<()> {
    for time in times {
        println!(rt; "ns {}", time.as_nanos())?;
    }
    Ok(())
}

fn main(rt: HostRuntime) -> io::Result<()> {
    let mut words = env::args(&rt)?;
    words.next();
    let plan = plan_of(&mut words);
    let Ok(mut store) = MemoryStore::<KdTrie>::in_memory(rt.alloc(), BUCKET) else {
        return println!(rt; "no memory");
    };
    let callers = play(&rt, rt.alloc(), &mut store, plan);
    store.close();
    match callers {
        Some(callers) => tell(&rt, &plan, callers.as_slice()),
        None => println!(rt; "no memory"),
    }
}
