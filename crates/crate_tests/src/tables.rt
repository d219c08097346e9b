//! Fences and turns that are read.

use csv_rows::RowsFault;
use fence_watch::Fence;
use follow_run::read_turns;
use follower::Turn;
use std::alloc::Global;
use std::process::Abort;
use watch_run::read_fences;
use zorder::{Point, Region};

const TWO_FENCES: &[Fence] = &[
    Fence {
        id: 1,
        region: Region {
            lo: Point { x: 0, y: 0 },
            hi: Point { x: 5, y: 5 },
        },
    },
    Fence {
        id: 2,
        region: Region {
            lo: Point { x: 4, y: 4 },
            hi: Point {
                x: 4_294_967_295,
                y: 4,
            },
        },
    },
];

const FENCE_SPELLINGS: &[&[u8]] = &[
    b"fence,x,y,a,b\n1,0,0,5,5\n2,4,4,4294967295,4\n",
    b"\xEF\xBB\xBFfence,x,y,a,b\r\n\n\"01\",0,0,5,005\r\n2,4,4,4294967295,4",
];

fn how_many_fences(alloc: Global, text: &[u8]) -> Result<usize, RowsFault> {
    let fences = read_fences(alloc, text)?;
    Ok(fences.as_slice().len())
}

#[test]
fn fences_are_read(rt: HostRuntime) {
    for text in FENCE_SPELLINGS {
        let fences = read_fences(rt.alloc(), text).expect(&rt, "it failed");
        assert_same!(rt; fences.as_slice(), TWO_FENCES);
    }
}

const BAD_FENCES: &[(&[u8], RowsFault)] = &[
    (b"fence,x,y,a\n", RowsFault::Header),
    (b"fence,x,y,a,b\n1,0,0,5\n", RowsFault::Csv { row: 1 }),
    (
        b"fence,x,y,a,b\n1,0,0,5,5\n1,4,4,9,3\n",
        RowsFault::Field { row: 2, column: 1 },
    ),
    (
        b"fence,x,y,a,b\n18446744073709551616,0,0,5,5\n",
        RowsFault::Field { row: 1, column: 1 },
    ),
    (
        b"fence,x,y,a,b\n1,0,4294967296,5,5\n",
        RowsFault::Field { row: 1, column: 3 },
    ),
    (
        b"fence,x,y,a,b\n1,5,0,4,5\n",
        RowsFault::Field { row: 1, column: 4 },
    ),
    (
        b"fence,x,y,a,b\n1,0,6,5,5\n",
        RowsFault::Field { row: 1, column: 5 },
    ),
];

#[test]
fn the_first_fence_at_fault_is_named(rt: HostRuntime) {
    for (text, fault) in BAD_FENCES {
        assert_same!(rt; how_many_fences(rt.alloc(), text), Err(*fault));
    }
}

fn add(rt: &impl Abort, text: &mut Vec<u8>, more: &[u8]) {
    text.extend_from_slice(more).expect(rt, "no memory");
}

// 256 fences.
fn many_fences(rt: &impl Abort, alloc: Global) -> Vec<u8> {
    let mut text = b"fence,x,y,a,b\n".to_vec(alloc).expect(rt, "no memory");
    for id in 0..256_u32 {
        let row = format!(in alloc; "{id},0,0,5,5\n").expect(rt, "no memory");
        add(rt, &mut text, row.as_bytes());
    }
    text
}

#[test]
fn the_record_behind_256_fences_is_one_too_many(rt: HostRuntime) {
    let mut text = many_fences(&rt, rt.alloc());
    assert_same!(rt; how_many_fences(rt.alloc(), text.as_slice()), Ok(256));
    add(&rt, &mut text, b"x\n");
    assert_same!(rt; how_many_fences(rt.alloc(), text.as_slice()), Err(RowsFault::TooMany));
}

const FOUR_TURNS: &[Turn] = &[
    Turn::Send {
        cell: 18_446_744_073_709_551_615,
    },
    Turn::Arrive { packet: 1 },
    Turn::Restart,
    Turn::Ack { number: 1 },
];

const TURN_SPELLINGS: &[&[u8]] = &[
    b"turn,number\nsend,18446744073709551615\narrive,1\nrestart,\nack,1\n",
    b"\xEF\xBB\xBFturn,number\r\n\n\"send\",18446744073709551615\r\narrive,01\r\nrestart,\"\"\r\nack,001",
];

fn how_many_turns(alloc: Global, text: &[u8]) -> Result<usize, RowsFault> {
    let turns = read_turns(alloc, text)?;
    Ok(turns.as_slice().len())
}

#[test]
fn turns_are_read(rt: HostRuntime) {
    for text in TURN_SPELLINGS {
        let turns = read_turns(rt.alloc(), text).expect(&rt, "it failed");
        assert_same!(rt; turns.as_slice(), FOUR_TURNS);
    }
}

const BAD_TURNS: &[(&[u8], RowsFault)] = &[
    (b"turn\n", RowsFault::Header),
    (b"turn,number\nrestart\n", RowsFault::Csv { row: 1 }),
    (
        b"turn,number\nsent,1\n",
        RowsFault::Field { row: 1, column: 1 },
    ),
    (
        b"turn,number\nack,1\n",
        RowsFault::Field { row: 1, column: 2 },
    ),
    (
        b"turn,number\nsend,0\narrive,0\n",
        RowsFault::Field { row: 2, column: 2 },
    ),
    (
        b"turn,number\nsend,0\narrive,1\narrive,2\n",
        RowsFault::Field { row: 3, column: 2 },
    ),
    (
        b"turn,number\nsend,0\narrive,1\nack,2\n",
        RowsFault::Field { row: 3, column: 2 },
    ),
    (
        b"turn,number\nrestart,0\n",
        RowsFault::Field { row: 1, column: 2 },
    ),
];

#[test]
fn the_first_turn_at_fault_is_named(rt: HostRuntime) {
    for (text, fault) in BAD_TURNS {
        assert_same!(rt; how_many_turns(rt.alloc(), text), Err(*fault));
    }
}

// 65,536 turns.
fn many_turns(rt: &impl Abort, alloc: Global) -> Vec<u8> {
    let mut text = b"turn,number\n".to_vec(alloc).expect(rt, "no memory");
    for _ in 0..32_768 {
        add(rt, &mut text, b"send,7\narrive,1\n");
    }
    text
}

#[test]
fn the_record_behind_65536_turns_is_one_too_many(rt: HostRuntime) {
    let mut text = many_turns(&rt, rt.alloc());
    assert_same!(rt; how_many_turns(rt.alloc(), text.as_slice()), Ok(65_536));
    add(&rt, &mut text, b"x\n");
    assert_same!(rt; how_many_turns(rt.alloc(), text.as_slice()), Err(RowsFault::TooMany));
}
