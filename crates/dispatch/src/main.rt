//! A taxi company on the store, without CSV. Three drivers put and move their taxis, while a dispatcher looks for the
//! free taxi nearest to the station. Each has a thread. The dispatcher looks in views, so it makes no calls and waits
//! for nobody. At the end each driver sends an old position late, and gets the answer that it is stale. That call
//! changes nothing. Then the dispatcher draws a map.
//!
//! The program prints the same lines however the threads run. Each driver moves taxis of its own in a quarter of its
//! own. So the answers, the number of calls and the map at the end don't depend on the order of the threads.
#![tactic(auto)]

ghost use Rattle.std.specs.Prelude.{◌<◌};

mod callers;
mod day;
mod map;
mod town;

use callers::Caller;
use day::{Day, Evening, play_day};
use map::{TILES, tile};
use pisrakun::{KdTrie, MemoryStore, View};
use std::io;
use std::io::Print;

// The bucket size in taxis.
const BUCKET: u32 = 4;

fn tell(rt: &impl Print, day: &Day<KdTrie>) -> io::Result<()> {
    tell_told(rt, day.callers.as_slice())?;
    println!(rt; "calls {}", day.calls())?;
    tell_map(rt, &day.evening.view)?;
    tell_station(rt, &day.evening)
}

fn tell_told(rt: &impl Print, callers: &[Caller]) -> io::Result<()> {
    for (i, caller) in callers.iter().enumerate() {
        println!(rt;
            "session {}: {} answers as they should be, {} of them stale",
            i + 1,
            caller.told.good,
            caller.told.stale
        )?;
    }
    Ok(())
}

// Prints how many taxis are in each tile of the map, from the north.
fn tell_map(rt: &impl Print, view: &View<KdTrie>) -> io::Result<()> {
    println!(rt; "taxis {}", view.len())?;
    for row in (0..TILES).rev() {
        tell_row(rt, view, row)?;
    }
    Ok(())
}

fn tell_row(rt: &impl Print, view: &View<KdTrie>, row: u32) -> io::Result<()>
    requires { row < 4 }
{
    print!(rt; "map")?;
    for column in 0..TILES {
        print!(rt; " {}", view.count(&tile(column, row)))?;
    }
    println!(rt; "")
}

fn tell_station(rt: &impl Print, evening: &Evening<KdTrie>) -> io::Result<()> {
    for taxi in evening.around.as_slice() {
        println!(rt; "near the station: taxi {}", taxi.id)?;
    }
    match evening.free {
        Some(taxi) => println!(rt;
            "nearest free: taxi {} at {}:{}",
            taxi.id, taxi.at.x, taxi.at.y
        ),
        None => println!(rt; "no taxi is free"),
    }
}

fn main(rt: HostRuntime) -> io::Result<()> {
    let Ok(taxis) = MemoryStore::<KdTrie>::in_memory(rt.alloc(), BUCKET) else {
        return println!(rt; "no memory");
    };
    match play_day(&rt, taxis) {
        Some(day) => tell(&rt, &day),
        None => println!(rt; "no memory"),
    }
}
