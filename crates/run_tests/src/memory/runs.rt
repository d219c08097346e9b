//! Runs over ends in memory.
use crate::memory::inputs::words;
use crate::memory::left::Left;
use crate::memory::noting::NotingDisk;
use crate::memory::plan::Plan;
use disk_mem::{Fail, MemDisk};
use disk_trait::LogDisk;
use io_edge::{Gate, MemSink, MemSource, OpenGate, Sink, Source};
use location_run::{Outcome, run};
use std::alloc::Global;
use std::process::Abort;
use std::sync::Wait;
use std::thread::Threads;
use zorder::Memory;

// How long a file may grow, and all that is written to it; how many calls may reach it; how much the sink accepts. A
// few objects near each other take up to 64 splits, of eight calls each.
const ROOM: usize = 1 << 16;

const CALLS: usize = 1 << 14;

const OUTPUT: usize = 1 << 18;

/// A run as planned.
pub fn run_plan<R: Abort + Threads + Wait + Sync>(rt: &R, alloc: Global, plan: &Plan<'_>) -> Left {
    run_gated(rt, alloc, plan, &OpenGate)
}

/// The same with this hook.
pub fn run_gated<R: Abort + Threads + Wait + Sync, G: Gate + Sync>(
    rt: &R,
    alloc: Global,
    plan: &Plan<'_>,
    gate: &G,
) -> Left {
    let disk = disk_of(alloc, plan).expect(rt, "it failed");
    run_over(rt, alloc, plan, disk, gate)
}

fn disk_of(alloc: Global, plan: &Plan<'_>) -> Result<MemDisk, Memory> {
    match plan.file {
        Some(file) => held_disk(alloc, file, plan.calls),
        None => failing_disk(alloc),
    }
}

/// A drive that holds these bytes. These of its calls fail.
pub fn held_disk(alloc: Global, file: &[u8], failing: &[Fail]) -> Result<MemDisk, Memory> {
    let calls = failing.to_vec(alloc)?;
    MemDisk::new(alloc, file.to_vec(alloc)?, ROOM, CALLS, calls)
}

// A drive that fails at each call.
fn failing_disk(alloc: Global) -> Result<MemDisk, Memory> {
    MemDisk::new(alloc, Vec::new(alloc), 0, 0, Vec::new(alloc))
}

/// The same over this drive instead of the planned one.
pub fn run_over<R: Abort + Threads + Wait + Sync, G: Gate + Sync>(
    rt: &R,
    alloc: Global,
    plan: &Plan<'_>,
    disk: MemDisk,
    gate: &G,
) -> Left {
    let other = failing_disk(alloc).expect(rt, "it failed");
    run_drives(rt, alloc, plan, disk, other, gate)
}

/// A run as planned, with a second drive that holds these bytes. These of its calls fail.
pub fn run_both<R: Abort + Threads + Wait + Sync>(
    rt: &R,
    alloc: Global,
    plan: &Plan<'_>,
    file: &[u8],
    failing: &[Fail],
) -> Left {
    let disk = disk_of(alloc, plan).expect(rt, "it failed");
    let other = held_disk(alloc, file, failing).expect(rt, "it failed");
    run_drives(rt, alloc, plan, disk, other, &OpenGate)
}

/// The same over both these drives, with this hook.
pub fn run_drives<R: Abort + Threads + Wait + Sync, G: Gate + Sync>(
    rt: &R,
    alloc: Global,
    plan: &Plan<'_>,
    disk: MemDisk,
    other: MemDisk,
    gate: &G,
) -> Left {
    let words = words(alloc, plan.words).expect(rt, "it failed");
    let source = source_of(alloc, plan).expect(rt, "it failed");
    let sink = sink_of(alloc, plan).expect(rt, "it failed");
    let disk = NotingDisk::new(alloc, disk);
    let other = NotingDisk::new(alloc, other);
    run_all(rt, alloc, words.as_slice(), source, sink, disk, other, gate)
}

fn source_of(alloc: Global, plan: &Plan<'_>) -> Result<MemSource, Memory> {
    let bytes = plan.input.as_bytes().to_vec(alloc)?;
    Ok(MemSource::new(bytes, plan.reads.to_vec(alloc)?))
}

fn sink_of(alloc: Global, plan: &Plan<'_>) -> Result<MemSink, Memory> {
    MemSink::new(alloc, OUTPUT, plan.puts.to_vec(alloc)?)
}

// The one call of `run`, over any ends.
fn run_ends<
    R: Abort + Threads + Wait + Sync,
    S: Source,
    K: Sink,
    D: LogDisk + Send,
    G: Gate + Sync,
>(
    rt: &R,
    alloc: Global,
    words: &[String],
    source: &mut S,
    sink: &mut K,
    disk: D,
    other: D,
    gate: &G,
) -> Outcome<D> {
    run(rt, alloc, words, source, sink, disk, other, gate)
}

fn run_all<R: Abort + Threads + Wait + Sync, G: Gate + Sync>(
    rt: &R,
    alloc: Global,
    words: &[String],
    mut source: MemSource,
    mut sink: MemSink,
    disk: NotingDisk,
    other: NotingDisk,
    gate: &G,
) -> Left {
    let outcome = run_ends(rt, alloc, words, &mut source, &mut sink, disk, other, gate);
    let taken = sink.bytes().to_vec(alloc).expect(rt, "it failed");
    left_of(outcome, taken)
}

fn left_of(outcome: Outcome<NotingDisk>, taken: Vec<u8>) -> Left {
    let Outcome {
        status,
        disk,
        other,
        events,
    } = outcome;
    let NotingDisk { disk, attaches } = disk;
    let NotingDisk {
        disk: other,
        attaches: others,
    } = other;
    Left {
        status,
        taken,
        disk,
        other,
        events,
        attaches,
        others,
    }
}
