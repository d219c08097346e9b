//! The top call.
ghost use Rattle.std.specs.Prelude.{◌≡◌, ℕ, List, map};
ghost use Rattle.std.specs.String.{string_bytes};
ghost use Rattle.disk_trait.specs.Drive.{KeepsLaws};
ghost use Rattle.command_words.specs.Words.{AsksFor};
ghost use Rattle.command_words.specs.Asked.{command_of};
ghost use Rattle.run_ends.specs.Ends.{done_by};
ghost use Rattle.location_run.specs.Run.{Keeps, KeepsAsked, AnswersUsage, run_by};
ghost use Rattle.location_run.specs.Chain.{ChainsAsked};

use crate::outcome::Outcome;
use command_words::{Command, command_in};
use disk_trait::LogDisk;
use follow_run::follow_log;
use io_edge::{Gate, Sink, Source};
use log_run::{check_log, compact_log, make_log, show_log};
use play_run::{play, trial};
use run_ends::{Drives, Ended, Refusal, refuse_on};
use std::alloc::Global;
use std::sync::Wait;
use std::thread::Threads;
use watch_run::watch_log;

/// Runs the program: `words` are the command line without the program's name.
///
/// Each command checks the words first, then works in the order below, and ends at the first step that fails.
/// - `play`: read the source, check its length, check the rows, open the log if there is one, answer the rows, write
///   the lines. Each answer is kept in the log before the next one. The first line is written after all rows are
///   answered.
/// - `trial`: make the rows, and continue as `play` does after it has checked its rows.
/// - `init`: attach the file, make the log, write the line.
/// - `check` and `show`: attach the file, read the log, write the lines.
/// - `compact`: attach the file, read the log, attach the new file on the other drive, write it, write the line.
/// - `watch`: read the source, check its length, check the fences, attach the file, check the width, walk the log,
///   write the lines.
/// - `follow`: read the source, check its length, check the turns, attach the first file, check its width, walk it,
///   attach and open the new file on the other drive, take the turns, write the lines.
///
/// Only `play`, `watch` and `follow` read the source. `check`, `show`, `compact`, `watch`, and `follow` in its first
/// file, read logs of version 1 and 2. `play` and `trial` take only a log of version 2. Each command uses the width
/// that the log has.
pub fn run<R: Threads + Wait + Sync, S: Source, K: Sink, D: LogDisk + Send, G: Gate + Sync>(
    rt: &R,
    alloc: Global,
    words: &[String],
    source: &mut S,
    sink: &mut K,
    disk: D,
    other: D,
    gate: &G,
) -> Outcome<D>
    // The status is 2 if and only if the words mean no command.
    ensures usage { AnswersUsage (map string_bytes words.now)
        (run_by S.input K.output D.drive source.old sink.old disk other source.new sink.new result) }

    // The command that the words mean keeps its promise.
    ensures keeps { KeepsAsked (map string_bytes words.now)
        (run_by S.input K.output D.drive source.old sink.old disk other source.new sink.new result) }

    // On a standing log the run leaves a standing log, and so does a crash during it: the next run needs one.
    ensures chain { ChainsAsked (map string_bytes words.now)
        (run_by S.input K.output D.drive source.old sink.old disk other source.new sink.new result) }
{
    let drives = Drives { disk, other };
    match command_in(words) {
        Some(command) => outcome_of(obey(rt, alloc, command, source, sink, drives, gate)),
        None => outcome_of(refuse_on(alloc, &Refusal::Usage, sink, drives)),
    }
}

// Executes the command of some words.
fn obey<R: Threads + Wait + Sync, S: Source, K: Sink, D: LogDisk + Send, G: Gate + Sync>(
    rt: &R,
    alloc: Global,
    command: Command,
    source: &mut S,
    sink: &mut K,
    drives: Drives<D>,
    gate: &G,
) -> Ended<D>
    requires asked { (words : List (List ℕ)) × AsksFor words (command_of command) }
    ensures { Keeps (command_of command.entry) (done_by S.input K.output D.drive source.old sink.old drives source.new sink.new result) }
{
    match command {
        Command::Init(file, width) => make_log(alloc, file, width, sink, drives),
        Command::Check(file) => check_log(alloc, file, sink, drives),
        Command::Show(file, region) => show_log(alloc, file, &region, sink, drives),
        Command::Play(log, size) => play(rt, alloc, log, size, source, sink, drives, gate),
        Command::Trial(log, made) => trial(rt, alloc, log, made, sink, drives, gate),
        Command::Compact(file, name) => compact_log(alloc, file, name, sink, drives),
        Command::Watch(file) => watch_log(alloc, file, source, sink, drives),
        Command::Follow(file, name) => follow_log(alloc, file, name, source, sink, drives),
    }
}

// The outcome of a run, from what its command returned.
fn outcome_of<D: LogDisk>(end: Ended<D>) -> Outcome<D>
    ensures outcome { result ≡ record { status = end.status; disk = end.drives.disk; other = end.drives.other; events = end.history } }
    ensures laws { KeepsLaws (D.drive end.drives.disk) × KeepsLaws (D.drive end.drives.other) }
{
    let Ended {
        status,
        history,
        drives: Drives { disk, other },
    } = end;
    Outcome {
        status,
        disk,
        other,
        events: history,
    }
}
