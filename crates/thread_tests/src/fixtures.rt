//! Rows that are played with a gate, and what they leave.
use disk_mem::MemDisk;
use disk_trait::LogDisk;
use io_edge::{Gate, MemSink, MemSource, Sink, Source};
use location_run::{Outcome, run};
use plain_list::{Entries, Entry};
use std::alloc::Global;
use std::process::Abort;
use std::sync::Wait;
use std::thread::Threads;
use zorder::Memory;

pub const HEADER: &str = "session,op,id,x,y,a,b,moment\n";

// How many bytes of output there is room for.
const ROOM: usize = 16_777_216;

/// What a play left: its status, its history, and what it wrote.
#[derive(Drop)]
pub struct Left {
    pub status: u8,
    pub events: Entries,
    pub written: Vec<u8>,
}

fn words(rt: &impl Abort, alloc: Global, all: &[&str]) -> Vec<String> {
    let mut words = Vec::new(alloc);
    for word in all {
        add_word(rt, alloc, &mut words, word);
    }
    words
}

fn add_word(rt: &impl Abort, alloc: Global, words: &mut Vec<String>, word: &str) {
    let word = String::from_str(alloc, word).expect(rt, "no memory");
    words.push(word).expect(rt, "no memory");
}

fn no_drive(alloc: Global) -> Result<MemDisk, Memory> {
    MemDisk::new(alloc, Vec::new(alloc), 0, 0, Vec::new(alloc))
}

/// Plays an input without a log, with buckets of this size.
pub fn play<R: Abort + Threads + Wait + Sync, G: Gate + Sync>(
    rt: &R,
    alloc: Global,
    bucket: &str,
    input: Vec<u8>,
    gate: &G,
) -> Left {
    let mut source = MemSource::new(input, Vec::new(alloc));
    let mut sink = MemSink::new(alloc, ROOM, Vec::new(alloc)).expect(rt, "it failed");
    let (status, events) = play_over(rt, alloc, bucket, &mut source, &mut sink, gate);
    Left {
        status,
        events,
        written: sink.bytes().to_vec(alloc).expect(rt, "it failed"),
    }
}

// The same over two drives of no room.
fn play_over<R: Abort + Threads + Wait + Sync, S: Source, K: Sink, G: Gate + Sync>(
    rt: &R,
    alloc: Global,
    bucket: &str,
    source: &mut S,
    sink: &mut K,
    gate: &G,
) -> (u8, Entries) {
    let words = words(rt, alloc, &["play", "-", "--bucket", bucket]);
    let disk = no_drive(alloc).expect(rt, "it failed");
    let other = no_drive(alloc).expect(rt, "it failed");
    run_over(rt, alloc, words.as_slice(), source, sink, disk, other, gate)
}

// The one call of `run`, over any ends.
fn run_over<R: Threads + Wait + Sync, S: Source, K: Sink, D: LogDisk + Send, G: Gate + Sync>(
    rt: &R,
    alloc: Global,
    words: &[String],
    source: &mut S,
    sink: &mut K,
    disk: D,
    other: D,
    gate: &G,
) -> (u8, Entries) {
    let Outcome { status, events, .. } = run(rt, alloc, words, source, sink, disk, other, gate);
    (status, events)
}

/// How many calls a history has.
pub fn calls(events: &Entries) -> usize {
    events
        .as_slice()
        .iter()
        .filter(|entry| matches!(entry, Entry::Call { .. }))
        .count()
}

/// How many abandoned splits a history has.
pub fn abandons(events: &Entries) -> usize {
    events
        .as_slice()
        .iter()
        .filter(|entry| matches!(entry, Entry::Abandon { .. }))
        .count()
}
