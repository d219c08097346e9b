//! The smallest program that uses a store in memory: it puts two taxis and prints the nearest one.
#![tactic(auto)]

use pisrakun::{KdTrie, MemoryStore, Point};
use std::io::{self, Print};

fn main(rt: HostRuntime) -> io::Result<()> {
    let Ok(mut store) = MemoryStore::<KdTrie>::in_memory(rt.alloc(), 64) else {
        return println!(rt; "no memory");
    };
    let _ = store.put(&rt, 7, Point { x: 3, y: 4 }, 0);
    let _ = store.put(&rt, 9, Point { x: 9, y: 5 }, 0);
    let nearest = store.nearest(&rt, Point { x: 8, y: 8 }, 1);
    store.close();
    match nearest {
        Ok(taxis) => println!(rt; "{:?}", taxis.as_slice()),
        Err(fault) => println!(rt; "{fault}"),
    }
}
