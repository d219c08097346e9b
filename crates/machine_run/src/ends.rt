//! A run on standard input and output.
ghost use Rattle.std.specs.Prelude.{◌≡◌, ◌↔◌, map};
ghost use Rattle.std.specs.Process.{exit_status};
ghost use Rattle.std.specs.String.{string_bytes};
ghost use Rattle.io_edge.specs.Puts.{Puts};
ghost use Rattle.command_words.specs.Words.{IsAccepted};
ghost use Rattle.run_ends.specs.RefusalLines.{refusal_text};
ghost use Rattle.run_ends.specs.declared.refusals.Refusal.TheVariants as refusal;
ghost use Rattle.run_ends.specs.Ends.{ends};
ghost use Rattle.machine_run.specs.Ending.{EndsRun};

use disk_file::FileDisk;
use disk_trait::LogDisk;
use io_edge::{OpenGate, Sink, SinkFault, Source, StdSink, StdSource};
use location_run::{Outcome, run};
use run_ends::{Refusal, refusal_line};
use std::alloc::Global;
use std::fs::Files;
use std::io::{self, Input, Print};
use std::process::ExitCode;
use std::sync::Wait;
use std::thread::Threads;

// The status if memory runs out.
const NO_MEMORY: u8 = 9;

// The bytes that are allocated and freed once at the start. glibc takes large pieces from the kernel one by one, and
// gives each back at once. After it has freed a piece of this size, it keeps pieces up to that size and uses them
// again.
const HEAP: usize = 16 << 20;

/// Runs the program with these words on standard input and output and these drives.
pub fn run_words<R: Threads + Wait + Sync + AllocGlobal + Input + Print, D: LogDisk + Send>(
    rt: &R,
    words: &[String],
    disk: D,
    other: D,
) -> ExitCode
    ensures usage { (exit_status result ≡ 2) ↔ (IsAccepted (map string_bytes words.now) → ⊥) }
{
    keep_pieces(rt.alloc());
    let mut source = StdSource::new(rt.reader());
    let mut sink = StdSink::new(io::writer(rt));
    run_over(rt, words, &mut source, &mut sink, disk, other)
}

/// Runs the program with these words on this source, this sink and these drives.
pub fn run_over<R: Threads + Wait + Sync + AllocGlobal, S: Source, K: Sink, D: LogDisk + Send>(
    rt: &R,
    words: &[String],
    source: &mut S,
    sink: &mut K,
    disk: D,
    other: D,
) -> ExitCode
    ensures run { EndsRun (map string_bytes words.now)
        (ends S.input K.output D.drive source.old sink.old (record { disk = disk; other = other }))
        (λ drives. ends S.input K.output D.drive source.new sink.new drives) (exit_status result) }
{
    let outcome = run(rt, rt.alloc(), words, source, sink, disk, other, &OpenGate);
    exit_code(&outcome)
}

fn keep_pieces(alloc: Global) {
    let _ = Vec::<u8>::with_capacity(alloc, HEAP);
}

// The exit code of a run's status.
fn exit_code<D: Drop>(outcome: &Outcome<D>) -> ExitCode
    ensures { exit_status result ≡ outcome.now.status }
{
    ExitCode::from(outcome.status)
}

/// A drive on the machine's files. No file is attached to it yet.
pub fn file_drive<R: Files + Clone + Drop>(rt: &R) -> io::Result<FileDisk<R>> {
    Ok(FileDisk::new(rt.clone()?))
}

/// Writes the line that memory ran out, and returns status 9.
pub fn out_of_memory<R: Print>(rt: &R) -> ExitCode
    ensures { exit_status result ≡ 9 }
{
    let mut sink = StdSink::new(io::writer(rt));
    let _ = tell_no_memory(&mut sink);
    ExitCode::from(NO_MEMORY)
}

fn tell_no_memory<K: Sink>(sink: &mut K) -> Result<(), SinkFault>
    ensures { Puts (K.output sink.old).taken (K.output sink.new).taken (refusal_text refusal.Memory) result }
{
    refusal_line(sink, &Refusal::Memory)
}
