//! A delivery company over the store and a log. For three days four drivers report where their vans are. Each driver
//! has a thread of their own, reports all vans of a round in one batch, and watches which vans leave the yard and come
//! back. The reports are kept in a log in one of two files, `depot.log` and `depot.next.log`. A run creates the files
//! if they aren't there. Otherwise it continues with what it finds, where the last run left the vans.
//!
//! The program says once how many records the log may have. If the log has more, a driver's call lets the store go over
//! to the other file, while the others report. That file then has one record for each van, and two for each split of a
//! leaf. The store does so at least once a day. After the days both files are opened again, and each van is looked up.
//!
//! The output is the same however the threads run, since the drivers report vans of their own. The order of the threads
//! decides when the store goes over. So at the end the output has neither the file nor the number of records.
#![tactic(auto)]

mod day;
mod drivers;
mod yard;

use anyhow::Result;
use day::{Vans, end_days, look_after, play_day};
use drivers::Told;
use pisrakun::{FileDisk, KdTrie, LogDisk, OpenedRotating, OverFile, Which};
use std::io;
use std::io::Print;
use std::sync::Wait;
use std::thread::Threads;
use yard::Day;

const FIRST: &str = "depot.log";

const SECOND: &str = "depot.next.log";

// How many vans a leaf should have.
const BUCKET: u32 = 64;

// How many records the log may have: some four for each van.
const MOST_RECORDS: u64 = 500;

// The days make 3,240 records, and leave fewer than this: what the log may have, and the rounds after the last look.
const FEW_RECORDS: u64 = 1_000;

fn file_of(which: Which) -> &'static str {
    match which {
        Which::First => FIRST,
        Which::Second => SECOND,
    }
}

fn tell_day(rt: &impl Print, number: usize, told: &[Told]) -> io::Result<()> {
    for (i, told) in told.iter().enumerate() {
        println!(rt;
            "day {number}, driver {}: {} reports answered as expected; {} vans came into the yard, {} left it, {} are inside",
            i + 1,
            told.good,
            told.came,
            told.left,
            told.inside
        )?;
    }
    Ok(())
}

type Opened<D> = OpenedRotating<KdTrie, D, OverFile>;

// The store over both files.
fn open_vans<D: LogDisk, R: Wait + AllocGlobal>(rt: &R, first: D, second: D) -> Result<Opened<D>> {
    let alloc = rt.alloc();
    let opened = Vans::<D>::open_pair(rt, alloc, first, FIRST, second, SECOND, BUCKET);
    Ok(opened.map_err(|refused| refused.cause)?)
}

// Plays three days over the log, from the latest moment in the log on. Returns the last day.
fn work<R: Threads + Wait + Sync + AllocGlobal + Print, D: LogDisk + Send>(
    rt: &R,
    first: D,
    second: D,
) -> Result<Day> {
    let alloc = rt.alloc();
    let OpenedRotating {
        store: mut vans,
        which,
        found,
    } = open_vans(rt, first, second)?;
    vans.set_most_records(rt, MOST_RECORDS);
    let one = Day::behind(found.latest.unwrap_or(0));
    let (two, three) = (one.next(), one.next().next());
    let told = [one, two, three].map(|day| play_day(rt, alloc, &mut vans, day));
    end_days(vans)?;
    let (file, vans_found, records) = (file_of(which), found.objects, found.records);
    println!(rt; "{file}: {vans_found} vans in {records} records")?;
    for (i, told) in told.into_iter().enumerate() {
        tell_day(rt, i + 1, &told?)?;
    }
    Ok(three)
}

// Opens both files again, as the next run will, and looks up each van.
fn look_again<R: Wait + AllocGlobal + Print, D: LogDisk>(
    rt: &R,
    first: D,
    second: D,
    day: Day,
) -> Result<()> {
    let OpenedRotating {
        store,
        which: _,
        found,
    } = open_vans(rt, first, second)?;
    let left = look_after(rt, store, day);
    let few = if found.records < FEW_RECORDS {
        "fewer than"
    } else {
        "at least"
    };
    println!(rt;
        "opened again: {} vans in {few} {FEW_RECORDS} records",
        found.objects
    )?;
    for (i, left) in left.iter().enumerate() {
        println!(rt; "driver {}: {left} vans where they were left", i + 1)?;
    }
    Ok(())
}

fn main(rt: HostRuntime) -> Result<()> {
    let (first, second) = (FileDisk::new(rt.clone()?), FileDisk::new(rt.clone()?));
    let day = work(&rt, first, second)?;
    let (first, second) = (FileDisk::new(rt.clone()?), FileDisk::new(rt.clone()?));
    look_again(&rt, first, second, day)
}
