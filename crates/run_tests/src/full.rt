//! A world with as many objects as it may have, which a log of their puts leaves, and `follow` of that log.
use crate::checks::holds;
use crate::hostile::records::{DROP, Record};
use crate::memory::{Plan, run_both, run_over};
use disk_mem::MemDisk;
use io_edge::OpenGate;
use std::alloc::{AllocError, Global};
use std::process::Abort;
use std::sync::Wait;
use std::thread::Threads;
use zorder::Memory;

// A log of 1,048,576 puts with rising ids, at points of the axis.
fn full_log(alloc: Global) -> Result<Vec<u8>, AllocError> {
    let mut log = b"MDLOCLOG\x02\x01\0\0\0\0\0\0".to_vec(alloc)?;
    for id in 0..1_048_576u32 {
        add_put(&mut log, id)?;
    }
    log.push(0)?;
    Ok(log)
}

fn add_put(log: &mut Vec<u8>, id: u32) -> Result<(), AllocError> {
    log.extend_from_slice(b"\x01\x01\0\0\0\0")?;
    log.extend_from_slice(&id.to_be_bytes())?;
    log.extend_from_slice(&id.reverse_bits().to_be_bytes())?;
    log.extend_from_slice(&[0; 18])
}

// The cells after the 1,048,576 cells: begin 1 of the empty name, install 1, begin 2 of `0`, install 2, remove 2, begin
// 3 of `00`, install 3, and put 1,048,576 at (3,5).
const BEHIND: &[u8] = b"\
    \x01\x04\0\0\0\0\0\0\0\x01\0\0\0\0\0\0\0\0\0\0\0\0\0\0\0\0\0\0\0\0\0\0\
    \x01\x05\0\0\0\0\0\0\0\x01\0\0\0\0\0\0\0\0\0\0\0\0\0\0\0\0\0\0\0\0\0\0\
    \x01\x04\0\0\0\0\0\0\0\x02\0\0\0\0\0\0\0\0\x01\0\0\0\0\0\0\0\0\0\0\0\0\0\
    \x01\x05\0\0\0\0\0\0\0\x02\0\0\0\0\0\0\0\0\0\0\0\0\0\0\0\0\0\0\0\0\0\0\
    \x01\x03\0\0\0\0\0\0\0\x02\0\0\0\0\0\0\0\0\0\0\0\0\0\0\0\0\0\0\0\0\0\0\
    \x01\x04\0\0\0\0\0\0\0\x03\0\0\0\0\0\0\0\0\x02\0\0\0\0\0\0\0\0\0\0\0\0\0\
    \x01\x05\0\0\0\0\0\0\0\x03\0\0\0\0\0\0\0\0\0\0\0\0\0\0\0\0\0\0\0\0\0\0\
    \x01\x01\0\0\0\0\0\x10\0\0\0\0\0\x03\0\0\0\x05\0\0\0\0\0\0\0\0\0\0\0\0\0\0";

const CHANGES: &Plan<'static> = &Plan {
    words: &["play", "log", "--bucket", "4096"],
    input: rows!("1,put,1048576,3,5,,,0\n1,put,1,3,5,,,0\n1,drop,2,,,,,\n1,put,1048576,3,5,,,0\n"),
    file: None,
    reads: &[],
    puts: &[],
    calls: &[],
};

const LINES: &str = lines!(
    "1,1,full,\n2,2,present,2147483648:0:0\n3,3,gone,1073741824:0:0\n4,4,done,\n"
);

fn full_disk(alloc: Global) -> Result<MemDisk, Memory> {
    MemDisk::new(alloc, full_log(alloc)?, 34_000_000, 20_000, Vec::new(alloc))
}

// A put that finds the world full, and one of an object that is there, leave no record of their own. After each row the
// first full leaf is split before the next row. With those at the end there are 511 splits, of two records each: 509
// until each leaf has 4,096 objects, and two where (3,5) is one more.
fn keeps_changes_and_splits_alone<R: Abort + Threads + Wait + Sync>(rt: &R, alloc: Global) {
    let disk = full_disk(alloc).expect(rt, "it failed");
    let left = run_over(rt, alloc, CHANGES, disk, &OpenGate);
    let is_left = is_kept(left.file()) && left.tells(0, LINES);
    holds(rt, is_left, "a full world");
}

fn is_kept(file: &[u8]) -> bool {
    let behind = file.get(16 + 32 * 1_048_576..).unwrap_or(&[]);
    behind.starts_with(BEHIND) && behind.len() == 32 * (2 + 2 * 511) + 1
}

#[test]
fn a_world_of_1048576_objects_takes_no_other(rt: HostRuntime) {
    keeps_changes_and_splits_alone(&rt, rt.alloc());
}

fn following(log: &[u8]) -> Plan<'_> {
    Plan {
        words: &["follow", "log", "new"],
        input: "turn,number\n",
        file: Some(log),
        ..*CHANGES
    }
}

// Whether `follow` by no turns writes this text, and whether it touches NEW.
fn is_followed<R: Abort + Threads + Wait + Sync>(
    rt: &R,
    alloc: Global,
    log: &[u8],
    status: u8,
    text: &str,
    touches: &str,
) {
    let left = run_both(rt, alloc, &following(log), &[], &[]);
    let is_told = left.tells(status, text) && left.others.as_str() == touches;
    holds(rt, is_told, text);
}

// A log of 1,048,576 cells, and one with one more removal.
fn follows_so_many<R: Abort + Threads + Wait + Sync>(rt: &R, alloc: Global) {
    let mut log = full_log(alloc).expect(rt, "it failed");
    is_followed(
        rt,
        alloc,
        log.as_slice(),
        0,
        "turn,held,known\n",
        "makes new\n",
    );
    let _ = log.pop();
    let drop = Record::of(DROP, 0);
    log.extend_from_slice(drop.bytes().as_slice())
        .expect(rt, "it failed");
    log.push(0).expect(rt, "it failed");
    is_followed(rt, alloc, log.as_slice(), 8, "refused limit cells\n", "");
}

#[test]
fn follow_takes_a_log_of_1048576_cells_and_none_of_more(rt: HostRuntime) {
    follows_so_many(&rt, rt.alloc());
}
