//! The format's worked spellings, and bytes that spell nothing.
ghost use Rattle.std.specs.Prelude.{◌≤◌, length};

use crate::checks::same_bytes;
use cell_format::{Cell, CellFault, decode, encode, header};
use std::process::Abort;
use zorder::{Name, Point};

/// These bytes, followed by zeros.
fn padded(front: &[u8]) -> [u8; 32]
    requires { length front.now ≤ 32 }
{
    let mut bytes = [0; 32];
    bytes[..front.len()].copy_from_slice(front);
    bytes
}

#[test]
fn a_header_is_the_word_the_version_and_the_width(rt: HostRuntime) {
    same_bytes(&rt, &header(2, 1), b"MDLOCLOG\x02\x01\0\0\0\0\0\0");
    same_bytes(&rt, &header(1, 2), b"MDLOCLOG\x01\x02\0\0\0\0\0\0");
}

// What these bytes, followed by zeros, spell in a log of this version.
fn decoded(rt: &impl Abort, version: u8, front: &[u8]) -> Result<Cell, CellFault> {
    assert!(rt; front.len() <= 32);
    let bytes = padded(front);
    assert!(rt; bytes[0] == 1);
    assert!(rt; version == 1 || version == 2);
    decode(version, &bytes)
}

fn expect_decoded(rt: &impl Abort, version: u8, front: &[u8], wanted: Result<Cell, CellFault>) {
    assert_same!(rt; decoded(rt, version, front), wanted);
}

// Fails unless a cell has this spelling, in version 2 and, if `is_old`, in version 1 too.
fn expect_spelling(rt: &impl Abort, cell: &Cell, front: &[u8], is_old: bool) {
    assert!(rt; front.len() <= 32);
    same_bytes(rt, &encode(cell), &padded(front));
    expect_decoded(rt, 2, front, Ok(*cell));
    let in_old = if is_old {
        Ok(*cell)
    } else {
        Err(CellFault::Reserved)
    };
    expect_decoded(rt, 1, front, in_old);
}

const AT: Point = Point { x: 3, y: 5 };

macro_rules! put {
    ($moment:expr) => {
        Cell::Put {
            id: 7,
            at: AT,
            moment: $moment,
        }
    };
}

macro_rules! move_7 {
    ($moment:expr) => {
        Cell::Move {
            id: 7,
            at: AT,
            moment: $moment,
        }
    };
}

// The cells that both versions have.
const SPELLINGS: [(Cell, &[u8]); 5] = [
    (
        put!(0),
        &[1, 1, 0, 0, 0, 0, 0, 0, 0, 7, 0, 0, 0, 3, 0, 0, 0, 5],
    ),
    (
        move_7!(0),
        &[1, 2, 0, 0, 0, 0, 0, 0, 0, 7, 0, 0, 0, 3, 0, 0, 0, 5],
    ),
    (Cell::Remove { id: 7 }, &[1, 3, 0, 0, 0, 0, 0, 0, 0, 7]),
    (Cell::Install { number: 1 }, &[1, 5, 0, 0, 0, 0, 0, 0, 0, 1]),
    (Cell::Abandon { number: 1 }, &[1, 6, 0, 0, 0, 0, 0, 0, 0, 1]),
];

// The cells of version 2 alone: each byte of a moment by itself.
const MOMENTS: [(Cell, &[u8]); 5] = [
    (
        put!(0x0102_0304_0506_0708),
        &[
            1, 1, 0, 0, 0, 0, 0, 0, 0, 7, 0, 0, 0, 3, 0, 0, 0, 5, 1, 2, 3, 4, 5, 6, 7, 8,
        ],
    ),
    (
        move_7!(0x0102_0304_0506_0708),
        &[
            1, 2, 0, 0, 0, 0, 0, 0, 0, 7, 0, 0, 0, 3, 0, 0, 0, 5, 1, 2, 3, 4, 5, 6, 7, 8,
        ],
    ),
    (
        put!(10),
        &[
            1, 1, 0, 0, 0, 0, 0, 0, 0, 7, 0, 0, 0, 3, 0, 0, 0, 5, 0, 0, 0, 0, 0, 0, 0, 10,
        ],
    ),
    (
        put!(0x0100_0000_0000_0000),
        &[1, 1, 0, 0, 0, 0, 0, 0, 0, 7, 0, 0, 0, 3, 0, 0, 0, 5, 1],
    ),
    (
        move_7!(18_446_744_073_709_551_615),
        &[
            1, 2, 0, 0, 0, 0, 0, 0, 0, 7, 0, 0, 0, 3, 0, 0, 0, 5, 255, 255, 255, 255, 255, 255,
            255, 255,
        ],
    ),
];

const BEGUN: &[(u64, u64, u8, &[u8])] = &[
    (1, 0, 0, &[1, 4, 0, 0, 0, 0, 0, 0, 0, 1]),
    (
        3,
        0x8000_0000_0000_0000,
        2,
        &[1, 4, 0, 0, 0, 0, 0, 0, 0, 3, 0x80, 0, 0, 0, 0, 0, 0, 0, 2],
    ),
];

fn expect_begun(rt: &impl Abort, number: u64, bits: u64, len: u8, front: &[u8]) {
    let Some(name) = Name::new(bits, len) else {
        rt.panic("there is no such name")
    };
    expect_spelling(rt, &Cell::Begin { number, name }, front, true);
}

#[test]
fn each_cell_has_its_worked_spelling(rt: HostRuntime) {
    for (cell, front) in &SPELLINGS {
        expect_spelling(&rt, cell, front, true);
    }
    for (cell, front) in &MOMENTS {
        expect_spelling(&rt, cell, front, false);
    }
    for (number, bits, len, front) in BEGUN {
        expect_begun(&rt, *number, *bits, *len, front);
    }
}

// The faults of both versions. Byte 26 is the first one after a moment.
const FAULTS: &[(&[u8], CellFault)] = &[
    (&[1, 0], CellFault::Kind),
    (&[1, 7], CellFault::Kind),
    (&[1, 9, 0, 0, 0, 0, 0, 0, 0, 0, 1], CellFault::Kind),
    (
        &[
            1, 1, 0, 0, 0, 0, 0, 0, 0, 7, 0, 0, 0, 3, 0, 0, 0, 5, 0, 0, 0, 0, 0, 0, 0, 0, 1,
        ],
        CellFault::Reserved,
    ),
    (
        &[
            1, 2, 0, 0, 0, 0, 0, 0, 0, 7, 0, 0, 0, 3, 0, 0, 0, 5, 0, 0, 0, 0, 0, 0, 0, 0, 0, 0, 0,
            0, 0, 1,
        ],
        CellFault::Reserved,
    ),
    (&[1, 3, 0, 0, 0, 0, 0, 0, 0, 7, 1], CellFault::Reserved),
    (
        &[1, 4, 0, 0, 0, 0, 0, 0, 0, 1, 0, 0, 0, 0, 0, 0, 0, 0, 65, 1],
        CellFault::Reserved,
    ),
    (
        &[1, 4, 0, 0, 0, 0, 0, 0, 0, 1, 0, 0, 0, 0, 0, 0, 0, 0, 65],
        CellFault::BadName,
    ),
    (
        &[1, 4, 0, 0, 0, 0, 0, 0, 0, 1, 0xC0, 0, 0, 0, 0, 0, 0, 0, 1],
        CellFault::BadName,
    ),
];

#[test]
fn the_first_fault_is_answered(rt: HostRuntime) {
    for (front, fault) in FAULTS {
        expect_decoded(&rt, 1, front, Err(*fault));
        expect_decoded(&rt, 2, front, Err(*fault));
    }
}
