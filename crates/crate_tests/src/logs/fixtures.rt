//! The logs that the tests begin with, and what is found in one.
use crate::memory::disk_of;
use cell_format::{Cell, encode, header};
use disk_trait::LogDisk;
use plain_list::Member;
use recovery::{OpenFault, Seen, inspect};
use std::alloc::Global;
use std::process::Abort;
use zorder::{Name, Point};

pub const AT: Point = Point { x: 3, y: 5 };

pub const PUT_7: Cell = Cell::Put {
    id: 7,
    at: AT,
    moment: 10,
};

/// A log of put 7 at (3,5), with moment 10.
pub const ONE_CELL: &[u8] =
    b"MDLOCLOG\x02\x01\0\0\0\0\0\0\x01\x01\0\0\0\0\0\0\0\x07\0\0\0\x03\0\0\0\x05\0\0\0\0\0\0\0\x0a\0\0\0\0\0\0\0";

/// The header of a log of version 2 and width 1, these cells, and then these bytes.
pub fn log_of(rt: &impl Abort, alloc: Global, cells: &[Cell], tail: &[u8]) -> Vec<u8> {
    let mut bytes = Vec::from_slice(alloc, &header(2, 1)).expect(rt, "no memory");
    for cell in cells {
        add(rt, &mut bytes, &encode(cell));
    }
    add(rt, &mut bytes, tail);
    bytes
}

fn add(rt: &impl Abort, bytes: &mut Vec<u8>, more: &[u8]) {
    bytes.extend_from_slice(more).expect(rt, "no memory");
}

/// What a log records: its version, its cells, the splits that were begun and those that haven't ended; its leaves, and
/// whether the first is the whole space; and its objects and the first of them.
pub type Found = ([u64; 4], (usize, bool), (usize, Option<Member>));

/// What a log of no cells records.
pub const NOTHING: Found = ([2, 0, 0, 0], (1, true), (0, None));

fn found_on<D: LogDisk>(alloc: Global, disk: &mut D, most: u64) -> Result<Found, OpenFault> {
    match inspect(alloc, disk, 1, most) {
        Ok(seen) => Ok(said(&seen)),
        Err(fault) => Err(fault),
    }
}

/// What was found in a log.
pub fn said(seen: &Seen) -> Found {
    let leaves = seen.leaves.as_slice();
    let objects = seen.world.as_slice();
    let version = u64::from(seen.version);
    (
        [version, seen.cells, seen.begun, seen.unfinished],
        (leaves.len(), leaves.first() == Some(&Name::whole())),
        (objects.len(), objects.first().copied()),
    )
}

/// Fails unless this is found in a file with these bytes, as a log of at most `most` cells.
pub fn expect_said(
    rt: &impl Abort,
    alloc: Global,
    bytes: &[u8],
    most: u64,
    wanted: Result<Found, OpenFault>,
) {
    let mut disk = disk_of(rt, alloc, bytes, &[]);
    assert_same!(rt; found_on(alloc, &mut disk, most), wanted);
}

/// Fails unless this is found in a log of these cells with these bytes after them.
pub fn expect_found(
    rt: &impl Abort,
    alloc: Global,
    cells: &[Cell],
    tail: &[u8],
    most: u64,
    wanted: Result<Found, OpenFault>,
) {
    let bytes = log_of(rt, alloc, cells, tail);
    expect_said(rt, alloc, bytes.as_slice(), most, wanted);
}
