//! The smallest program that keeps a store in a file: it puts two taxis, opens the file again and prints the nearest one.
#![tactic(auto)]

use pisrakun::{FileDisk, FileStore, KdTrie, Point};
use std::io::{self, Print};

const FILE: &str = "taxis.log";

fn main(rt: HostRuntime) -> io::Result<()> {
    let alloc = rt.alloc();
    let disk = FileDisk::new(rt.clone()?);
    let Ok((mut store, _)) = FileStore::<KdTrie, _>::open_file(alloc, disk, FILE, 64) else {
        return println!(rt; "the file isn't opened");
    };
    let _ = store.report(&rt, 7, Point { x: 3, y: 4 }, 0);
    let _ = store.report(&rt, 9, Point { x: 9, y: 5 }, 0);
    store.close();
    let disk = FileDisk::new(rt.clone()?);
    let Ok((mut store, found)) = FileStore::<KdTrie, _>::open_file(alloc, disk, FILE, 64) else {
        return println!(rt; "the file isn't opened again");
    };
    let nearest = store.nearest(&rt, Point { x: 8, y: 8 }, 1);
    store.close();
    println!(rt; "{} taxis", found.objects)?;
    match nearest {
        Ok(taxis) => println!(rt; "{:?}", taxis.as_slice()),
        Err(fault) => println!(rt; "{fault}"),
    }
}
