//! What a crash may leave of a run's file, and what is found in a file.
//!
//! `inspect` is called only here, in a function without clauses. The tests look at its result while they run.
use crate::hostile::records::{Record, log_of};
use crate::memory::{Left, Plan};
use disk_mem::{Fail as Failing, MemDisk};
use disk_trait::LogDisk;
use plain_list::Member;
use recovery::{OpenFault, Seen, inspect};
use std::alloc::{AllocError, Global};
use std::process::Abort;

/// These rows over a file with buckets of 4, while these calls fail.
pub fn playing<'a>(input: &'a str, file: &'a [u8], calls: &'a [Failing]) -> Plan<'a> {
    Plan {
        words: &["play", "log", "--bucket", "4"],
        input,
        file: Some(file),
        reads: &[],
        puts: &[],
        calls,
    }
}

/// These turns over a file, which another one is to follow.
pub fn following<'a>(input: &'a str, file: &'a [u8]) -> Plan<'a> {
    Plan {
        words: &["follow", "log", "new"],
        ..playing(input, file, &[])
    }
}

/// A file that a crash may leave at a moment of the drive, with this value in each free byte.
#[derive(Drop)]
pub struct Image {
    pub moment: u64,
    pub fill: u8,
    pub bytes: Vec<u8>,
}

/// Fails with these words and this number, unless `holds` is true.
pub fn must<R: Abort>(rt: &R, holds: bool, what: &str, number: u64) {
    assert!(rt; holds, "{what} {number}");
}

fn add_image<R: Abort>(
    rt: &R,
    disk: &MemDisk,
    moment: u64,
    len: u64,
    fill: u8,
    images: &mut Vec<Image>,
) {
    let bytes = disk.pick(moment, len, &[fill]).expect(rt, "it failed");
    let image = Image {
        moment,
        fill,
        bytes,
    };
    must(rt, images.push(image).is_ok(), "memory at moment", moment);
}

/// What a crash may leave of a run's file: for each moment the images of the least and the greatest length with the
/// fills 0, 1 and 9.
pub fn images_of<R: Abort>(rt: &R, alloc: Global, left: &Left) -> Vec<Image> {
    images_on(rt, alloc, &left.disk)
}

/// The same for the file on a drive.
pub fn images_on<R: Abort>(rt: &R, alloc: Global, disk: &MemDisk) -> Vec<Image> {
    let mut images = Vec::new(alloc);
    for moment in 0..=disk.moments() {
        for len in [0, 1 << 40] {
            for fill in [0, 1, 9] {
                add_image(rt, disk, moment, len, fill, &mut images);
            }
        }
    }
    images
}

/// What a log was found to record: its version, the numbers of cells, points, leaves, unfinished splits, and splits
/// that were begun, and its objects.
#[derive(Drop)]
pub struct Found {
    pub version: u8,
    pub counts: [u64; 5],
    pub objects: Vec<Member>,
}

// Of a log of width 2, or else of width 1.
fn inspect_any<D: LogDisk>(alloc: Global, disk: &mut D, width: u8) -> Result<Seen, OpenFault> {
    match width {
        2 => inspect(alloc, disk, 2, 1 << 24),
        _ => inspect(alloc, disk, 1, 1 << 24),
    }
}

fn seen_in(alloc: Global, seen: &Seen) -> Result<Found, AllocError> {
    let objects = seen.world.as_slice().to_vec(alloc)?;
    let points = objects.len() as u64;
    let leaves = seen.leaves.as_slice().len() as u64;
    Ok(Found {
        version: seen.version,
        counts: [seen.cells, points, leaves, seen.unfinished, seen.begun],
        objects,
    })
}

fn found_on<D: LogDisk>(alloc: Global, disk: &mut D, width: u8) -> Result<Found, OpenFault> {
    let seen = inspect_any(alloc, disk, width)?;
    Ok(seen_in(alloc, &seen)?)
}

/// What is found in a file, as a log of this width.
pub fn found_in<R: Abort>(
    rt: &R,
    alloc: Global,
    width: u8,
    file: &[u8],
) -> Result<Found, OpenFault> {
    let file = file.to_vec(alloc).expect(rt, "it failed");
    let disk = MemDisk::new(alloc, file, 0, 16, Vec::new(alloc));
    found_on(alloc, &mut disk.expect(rt, "it failed"), width)
}

/// Whether a file is a log of this width and these records, and no longer.
pub fn is_log_of<R: Abort>(
    rt: &R,
    alloc: Global,
    width: u8,
    file: &[u8],
    records: &[Record],
) -> bool {
    let log = log_of(alloc, width, records, &[0]).expect(rt, "it failed");
    file == log.as_slice()
}

/// Whether a run reports that the drive failed, at this cell if there is one.
pub fn is_refused<R: Abort>(rt: &R, alloc: Global, left: &Left, cell: Option<u64>) -> bool {
    match cell {
        Some(cell) => {
            let line = format!(in alloc; "refused disk cell {cell}\n").expect(rt, "it failed");
            left.tells(7, &line)
        }
        None => left.tells(7, "refused disk\n"),
    }
}
