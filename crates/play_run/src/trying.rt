//! The command `trial`: makes rows, plays them, and writes three numbers.
ghost use Rattle.std.specs.Prelude.{◌≤◌};
ghost use Rattle.run_ends.specs.Ends.{written_by};
ghost use Rattle.command_words.specs.Asked.{file_of};
ghost use Rattle.play_run.specs.Trying.{TriesRows};

use crate::jobs::{Host, Job};
use crate::playing::play_rows;
use crate::reports::Report;
use command_words::{Command, Made};
use disk_trait::LogDisk;
use io_edge::{Gate, Sink};
use make_moves::make;
use run_ends::{Drives, Ended, Refusal, TRIAL_BUCKET, refuse_on};
use std::alloc::Global;
use std::sync::Wait;
use std::thread::Threads;

/// Makes rows and plays them, on the log of version 2 in a file of this name or without a log.
pub fn trial<R: Threads + Wait + Sync, K: Sink, D: LogDisk + Send, G: Gate + Sync>(
    rt: &R,
    alloc: Global,
    log: Option<&str>,
    made: Made,
    sink: &mut K,
    drives: Drives<D>,
    gate: &G,
) -> Ended<D>
    requires few { made.rows ≤ 65536 }
    ensures { TriesRows (file_of (Command.Trial log.entry made)) made (written_by K.output D.drive sink.old drives sink.new result) }
{
    match make(alloc, made.rows, made.seed) {
        Ok(rows) => {
            let host = Host { rt, alloc, gate };
            let rows = rows.as_slice();
            let job = Job {
                rows,
                report: Report::Summary,
                size: TRIAL_BUCKET,
            };
            play_rows(&host, &job, log, sink, drives)
        }
        Err(_) => refuse_on(alloc, &Refusal::Memory, sink, drives),
    }
}
