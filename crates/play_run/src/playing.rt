//! The command `play`: answers the rows of a source, and keeps their changes in a log, if there is one.
ghost use Rattle.std.specs.Prelude.{◌≡◌, ℕ, List, Some, None};
ghost use Rattle.csv_rows.specs.InRows.{AreInRows};
ghost use Rattle.kept_log.specs.Kept.{IsOpened, found_state};
ghost use Rattle.recovery.specs.Found.{IsFound};
ghost use Rattle.run_ends.specs.Ends.{done_by, targets};
ghost use Rattle.run_ends.specs.Limits.{oldest_played, most_played};
ghost use Rattle.command_words.specs.Asked.{file_of};
ghost use Rattle.play_run.specs.Playing.{Plays, PlaysRows};
ghost use Rattle.play_run.specs.inside.Books.{OpensFile};

use crate::jobs::{Host, Job};
use crate::log_book::{book_of, open_file};
use crate::play_book::{Told, play_and_tell};
use crate::reports::Report;
use command_words::Command;
use commit_book::Book;
use disk_trait::LogDisk;
use index_layer::Index;
use io_edge::{Gate, Sink, Source};
use kd_trie::KdTrie;
use quad_trie::QuadTrie;
use recovery::{Opened, OpenedLog};
use run_ends::{Drives, Ended, Refusal, Unmade, read_judged, refuse_on};
use std::alloc::Global;
use std::sync::Wait;
use std::thread::Threads;

/// Plays the rows of a source, on the log of version 2 in a file of this name or without a log. `size` is the bucket
/// size in rows.
pub fn play<R: Threads + Wait + Sync, S: Source, K: Sink, D: LogDisk + Send, G: Gate + Sync>(
    rt: &R,
    alloc: Global,
    log: Option<&str>,
    size: u32,
    source: &mut S,
    sink: &mut K,
    drives: Drives<D>,
    gate: &G,
) -> Ended<D>
    ensures { Plays (file_of (Command.Play log.entry size)) size
        (done_by S.input K.output D.drive source.old sink.old drives source.new sink.new result) }
{
    match read_judged(alloc, source) {
        Ok(rows) => {
            let host = Host { rt, alloc, gate };
            let rows = rows.as_slice();
            let job = Job {
                rows,
                report: Report::Lines,
                size,
            };
            play_rows(&host, &job, log, sink, drives)
        }
        Err(why) => refuse_on(alloc, &why, sink, drives),
    }
}

/// Plays the rows of a job, on the log in a file of this name or without a log, and writes their report. On a log the
/// index has the log's width.
pub(crate) fn play_rows<R: Threads + Wait + Sync, K: Sink, D: LogDisk + Send, G: Gate + Sync>(
    host: &Host<'_, R, G>,
    job: &Job<'_>,
    log: Option<&str>,
    sink: &mut K,
    drives: Drives<D>,
) -> Ended<D>
    requires { AreInRows job.now.rows.now }
    ensures plays { PlaysRows job.now.report (file_of (Command.Play log.entry job.now.size)) job.now.size job.now.rows.now
        (targets K.output D.drive sink.old drives) (targets K.output D.drive sink.new result.drives) result.status
        result.history }
    ensures other { result.drives.other ≡ drives.other }
{
    let Some(file) = log else {
        return over_none(host, job, sink, drives);
    };
    let Drives { disk, other } = drives;
    match open_file(host.alloc, file, disk) {
        Ok(OpenedLog { opened, width }) => {
            if width == 1 {
                over_opened::<R, KdTrie, K, D, G>(host, job, opened, sink, other)
            } else {
                over_opened::<R, QuadTrie, K, D, G>(host, job, opened, sink, other)
            }
        }
        Err(Unmade { disk, why }) => refuse_on(host.alloc, &why, sink, Drives { disk, other }),
    }
}

// Plays the rows of a job without a log.
fn over_none<R: Threads + Wait + Sync, K: Sink, D: LogDisk + Send, G: Gate + Sync>(
    host: &Host<'_, R, G>,
    job: &Job<'_>,
    sink: &mut K,
    drives: Drives<D>,
) -> Ended<D>
    requires { AreInRows job.now.rows.now }
    ensures plays { PlaysRows job.now.report None job.now.size job.now.rows.now (targets K.output D.drive sink.old drives)
        (targets K.output D.drive sink.new result.drives) result.status result.history }
    ensures other { result.drives.other ≡ drives.other }
{
    match Book::<KdTrie, D>::fresh(host.alloc, job.size) {
        Ok(book) => {
            let told = play_and_tell(host, job, book, sink);
            Ended {
                status: told.status,
                history: told.history,
                drives,
            }
        }
        Err(_) => refuse_on(host.alloc, &Refusal::Memory, sink, drives),
    }
}

// Plays the rows of a job on an opened log, with an index of the log's width. The other drive is passed on.
fn over_opened<
    R: Threads + Wait + Sync,
    I: Index + Send,
    K: Sink,
    D: LogDisk + Send,
    G: Gate + Sync,
>(host: &Host<'_, R, G>, job: &Job<'_>, opened: Opened<D>, sink: &mut K, other: D) -> Ended<D>
    requires rows { AreInRows job.now.rows.now }
    requires log { (opened.log.cells ≡ opened.seen.cells) × (opened.log.failed ≡ None) }
    requires found { IsFound oldest_played I.WIDTH most_played (D.drive opened.start.value) opened.seen }
    requires ready { IsOpened I.WIDTH (found_state opened.seen) (D.drive opened.start.value) (D.drive opened.log.disk) }
    ensures plays { (file : List ℕ) (disk : D) → OpensFile file (D.drive disk) (D.drive opened.start.value)
        (D.drive opened.log.disk) I.WIDTH opened.seen
        → PlaysRows job.now.report (Some file) job.now.size job.now.rows.now (targets K.output D.drive sink.old (record { disk = disk; other = other }))
        (targets K.output D.drive sink.new result.drives) result.status result.history }
    ensures other { result.drives.other ≡ other }
{
    match book_of::<I, D>(host.alloc, opened, job.size) {
        Ok(book) => {
            let Told {
                status,
                history,
                disk,
            } = play_and_tell(host, job, book, sink);
            // A book on a log leaves the log's drive.
            let disk = disk.unwrap();
            Ended {
                status,
                history,
                drives: Drives { disk, other },
            }
        }
        Err(Unmade { disk, why }) => refuse_on(host.alloc, &why, sink, Drives { disk, other }),
    }
}
