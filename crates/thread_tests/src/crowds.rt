//! Sixteen lanes together, with no gate.
ghost use Rattle.std.specs.Prelude.{◌≤◌};

use crate::fixtures::{HEADER, Left, abandons, calls, play};
use io_edge::OpenGate;
use plain_list::{Entries, Entry};
use std::alloc::{AllocError, Global};
use std::process::Abort;
use std::sync::Wait;
use std::thread::Threads;

const SESSIONS: u32 = 16;

// How many of a session's rows, its first ones, put ids that no other session has.
const PUTS: u32 = 100;

// How far a box reaches on each axis. A few points are in it, so the output of 64,000 rows has a few million bytes.
const REACH: u32 = 200_000_000;

// A coordinate that depends on a number and looks random.
fn spread(number: u32) -> u32 {
    number.wrapping_mul(2_654_435_769)
}

// The coordinate at the end of a box's reach.
fn reached(from: u32) -> Option<u32> {
    Some(from.saturating_add(REACH))
}

// The operation of a session's row, and its fields. The first rows are puts. The others make each operation
// alternately, on the ids that the session has put. A moment looks random too, so that some moves are late.
fn fields_of(session: u32, row: u32) -> (&'static str, [Option<u32>; 6]) {
    let number = session.wrapping_mul(1_000).wrapping_add(row % PUTS);
    let corner = (spread(number), spread(row));
    let (id, x, y) = (Some(number), Some(corner.0), Some(corner.1));
    if row < PUTS {
        return ("put", [id, x, y, None, None, x]);
    }
    match row % 5 {
        0 => ("move", [id, y, x, None, None, y]),
        1 => ("where", [id, None, None, None, None, None]),
        2 => (
            "box",
            [None, x, y, reached(corner.0), reached(corner.1), None],
        ),
        3 => ("near", [None, x, y, Some(3), None, None]),
        _ => ("drop", [id, None, None, None, None, None]),
    }
}

fn add_row(text: &mut String, session: u32, row: u32) -> Result<(), AllocError> {
    let (operation, fields) = fields_of(session, row);
    write!(text, "{session},{operation}")?;
    add_fields(text, &fields)?;
    text.push('\n')
}

fn add_fields(text: &mut String, fields: &[Option<u32>]) -> Result<(), AllocError> {
    for field in fields {
        add_field(text, *field)?;
    }
    Ok(())
}

fn add_field(text: &mut String, field: Option<u32>) -> Result<(), AllocError> {
    match field {
        Some(number) => write!(text, ",{number}"),
        None => text.push(','),
    }
}

// So many rows of each session, alternately.
fn crowd_text(rt: &impl Abort, alloc: Global, rows: u32) -> Vec<u8> {
    let mut text = String::from_str(alloc, HEADER).expect(rt, "no memory");
    for row in 0..rows {
        add_rows(rt, &mut text, row);
    }
    text.into_bytes()
}

fn add_rows(rt: &impl Abort, text: &mut String, row: u32) {
    for session in 1..SESSIONS + 1 {
        add_row(text, session, row).expect(rt, "no memory");
    }
}

fn lines(left: &Left) -> usize {
    left.written
        .as_slice()
        .iter()
        .filter(|byte| **byte == b'\n')
        .count()
}

// Whether a split was installed before the last call.
fn splits_among_calls(events: &Entries) -> bool {
    let mut installed = false;
    let mut among = false;
    for entry in events.as_slice() {
        match entry {
            Entry::Install { .. } => installed = true,
            Entry::Call { .. } => among = installed,
            _ => {}
        }
    }
    among
}

// Plays so many rows of each session. Each row is answered, and leaves are split among the calls.
fn a_crowd_is_answered<R: Threads + Wait + Abort + Sync>(rt: &R, alloc: Global, rows: u32)
    requires { rows ≤ 4000 }
{
    let text = crowd_text(rt, alloc, rows);
    let left = play(rt, alloc, "64", text, &OpenGate);
    expect_all(rt, &left, SESSIONS as usize * rows as usize);
}

// Fails unless all rows are answered.
fn expect_all(rt: &impl Abort, left: &Left, all: usize) {
    assert_same!(rt; left.status, 0);
    assert_same!(rt; lines(left), all.saturating_add(1));
    assert_same!(rt; calls(&left.events), all);
    assert_same!(rt; abandons(&left.events), 0);
    assert_is!(rt; splits_among_calls(&left.events));
}

#[test]
fn sixteen_sessions_of_400_rows_split_leaves_among_their_calls(rt: HostRuntime) {
    a_crowd_is_answered(&rt, rt.alloc(), 400);
}

#[test]
fn sixteen_sessions_of_4000_rows_are_all_answered(rt: HostRuntime) {
    a_crowd_is_answered(&rt, rt.alloc(), 4_000);
}
