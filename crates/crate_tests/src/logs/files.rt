//! Logs over a file of the machine, and after a tail that was cut off.
use crate::folder::expect_taken_away;
use crate::logs::appends::{append_in, append_to};
use crate::logs::fixtures::{Found, ONE_CELL, PUT_7, expect_said, log_of};
use cell_format::Cell;
use disk_trait::LogDisk;
use recovery::init;
use std::alloc::Global;
use std::fs::Files;
use std::process::Abort;

// Creates a log in the file of this name, and appends a cell.
fn make_and_append<D: LogDisk>(
    rt: &impl Abort,
    alloc: Global,
    mut disk: D,
    name: &str,
    cell: &Cell,
) {
    disk.attach(alloc, name, true).expect(rt, "no file");
    let Ok(disk) = init(disk, 1) else {
        rt.panic("no log is made")
    };
    let _ = append_to(rt, alloc, disk, cell);
}

/// Fails unless a cell appended to a log over this drive is read back from its file.
pub fn is_read_back<R: Abort + Files + AllocGlobal, D: LogDisk>(rt: &R, disk: D, name: &str) {
    make_and_append(rt, rt.alloc(), disk, name, &PUT_7);
    expect_taken_away(rt, name, ONE_CELL);
}

// The bytes after the one cell of a log: no commit byte, and more than a cell.
const TAIL: &[u8] = &[77; 41];

const TWO_CELLS: Found = ([2, 2, 0, 0], (1, true), (0, None));

// A log of one cell and a tail continues with a second cell.
fn goes_on(rt: &impl Abort, alloc: Global) {
    let torn = log_of(rt, alloc, &[PUT_7], TAIL);
    let drop_7 = Cell::Remove { id: 7 };
    let left = append_in(rt, alloc, torn.as_slice(), &drop_7, &[], 0, 9);
    expect_two(rt, alloc, left.bytes.as_slice());
}

fn expect_two(rt: &impl Abort, alloc: Global, bytes: &[u8]) {
    assert_same!(rt; (bytes.len(), bytes.get(80).copied()), (81, Some(0)));
    expect_said(rt, alloc, bytes, 16, Ok(TWO_CELLS));
}

#[test]
fn the_next_append_stands_where_the_tail_was_cut(rt: HostRuntime) {
    goes_on(&rt, rt.alloc());
}
