//! A day of the company over a store, the end of the days, and what the next run finds.
use crate::drivers::{Driver, Told, count_found};
use crate::yard::Day;
use anyhow::{Context, Result};
use pisrakun::{KdTrie, LogDisk, OverFile, RotatingStore};
use std::alloc::Global;
use std::sync::Wait;
use std::thread::Threads;

/// The company's store over two files, on any drive.
pub type Vans<D> = RotatingStore<KdTrie, D, OverFile>;

/// A day over a store: all drivers at once, each in their own thread.
pub fn play_day<D: LogDisk + Send, R: Threads + Wait + Sync>(
    rt: &R,
    alloc: Global,
    vans: &mut Vans<D>,
    day: Day,
) -> Result<Vec<Told>> {
    let mut drivers = Vec::new(alloc);
    for number in 1..5u8 {
        drivers.push(Driver::new(rt, alloc, vans, number, day)?)?;
    }
    let drivers = vans.work_all(rt, 1, drivers).ok().context("no memory")?;
    let mut told = Vec::new(alloc);
    for driver in drivers {
        told.push(driver.end())?;
    }
    Ok(told)
}

/// Closes the store after the days.
pub fn end_days<D: LogDisk>(vans: Vans<D>) -> Result<()> {
    match vans.close().lost {
        Some(cause) => Err(cause.into()),
        None => Ok(()),
    }
}

/// How many vans of each driver are where a day has left them, as a store opened after it reports. Closes the store.
pub fn look_after<D: LogDisk, R: Wait>(rt: &R, mut vans: Vans<D>, day: Day) -> [u32; 4] {
    let found = [1, 2, 3, 4].map(|driver| count_found(rt, &mut vans, driver, day));
    vans.close();
    found
}
