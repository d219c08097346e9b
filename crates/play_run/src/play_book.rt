//! Plays rows on a book, and writes their report.
ghost use Rattle.std.specs.Prelude.{◌≡◌, true, IfSome};
ghost use Rattle.std.specs.Option.{option_map};
ghost use Rattle.csv_rows.specs.InRows.{AreInRows};
ghost use Rattle.kept_log.specs.Journal.{disk_in, failed_cell};
ghost use Rattle.play_run.specs.inside.Books.{IsNewBook};
ghost use Rattle.play_run.specs.inside.Answered.{HasNumbers, EndsPlay};
ghost use Rattle.play_run.specs.inside.Ended.{EndsBook};

use crate::jobs::{Host, Job};
use crate::lanes::LaneEnd;
use crate::output::tell_report;
use crate::sessions_play::{Played, play_sessions};
use commit_book::{Book, BookParts};
use disk_trait::LogDisk;
use index_layer::Index;
use io_edge::{Gate, Sink};
use plain_list::Entries;
use run_ends::{Refusal, put_refusal, written};
use std::marker::Brand;
use std::sync::Wait;
use std::thread::Threads;

// A bucket of 64 rows is split after about 32 puts, and a split has two steps.
const ROWS_A_STEP: usize = 16;

/// What rows on a book leave: the status of the report, the history, and the drive of the log, if there is one.
#[derive(Drop)]
pub(crate) struct Told<D: LogDisk> {
    pub(crate) status: u8,
    pub(crate) history: Entries,
    pub(crate) disk: Option<D>,
}

/// Plays the rows of a job on a book without entries, and writes their report.
pub(crate) fn play_and_tell<
    R: Threads + Wait + Sync,
    I: Index + Send,
    K: Sink,
    D: LogDisk + Send,
    G: Gate + Sync,
>(host: &Host<'_, R, G>, job: &Job<'_>, book: Book<I, D>, sink: &mut K) -> Told<D>
    requires rows { AreInRows job.now.rows.now }
    requires new { IsNewBook book }
    ensures { EndsBook D.drive I.WIDTH job.now.report job.now.rows.now book result.history result.status result.disk (K.output sink.old)
        (K.output sink.new) }
{
    let mut book = book;
    book.make_room(job.rows.len() + job.rows.len() / ROWS_A_STEP);
    let played = play_sessions::<R, I, D, Brand, G>(host, job.rows, book);
    tell_book(job, played, sink)
}

// Writes the report of rows that were played on a book, and takes the book apart.
fn tell_book<I: Index, K: Sink, D: LogDisk>(
    job: &Job<'_>,
    played: Played<I, D>,
    sink: &mut K,
) -> Told<D>
    requires rows { AreInRows job.now.rows.now }
    requires numbers { IfSome played.ends (λ ends. HasNumbers job.now.rows.now ends.items) }
    requires kept { played.book.kept ≡ true }
    ensures ends { EndsPlay job.now.report job.now.rows.now (failed_cell played.book.entries) played.book.leaves
        (option_map (λ ends. ends.items) played.ends) result.status (K.output sink.old) (K.output sink.new) }
    ensures history { result.history ≡ played.book.entries }
    ensures disk { result.disk ≡ disk_in played.book.log }
{
    let Played { book, ends } = played;
    let failed = book.closed();
    let BookParts {
        index,
        disk,
        entries,
    } = book.into_parts();
    let status = tell_end(job, failed, &ends, &index, sink);
    Told {
        status,
        history: entries,
        disk,
    }
}

// Writes the report of rows that were all answered, or the line of a refusal.
fn tell_end<I: Index, K: Sink>(
    job: &Job<'_>,
    failed: Option<u64>,
    ends: &Option<Vec<LaneEnd>>,
    index: &I,
    sink: &mut K,
) -> u8
    requires rows { AreInRows job.now.rows.now }
    requires numbers { IfSome ends.now (λ ends. HasNumbers job.now.rows.now ends.items) }
    ensures { EndsPlay job.now.report job.now.rows.now failed (I.leaves index.now) (option_map (λ ends. ends.items) ends.now)
        result (K.output sink.old) (K.output sink.new) }
{
    if let Some(cell) = failed {
        return put_refusal(&Refusal::Disk { cell: Some(cell) }, sink);
    }
    match ends {
        Some(ends) => {
            let ends = ends.as_slice();
            written(tell_report(sink, job.report, job.rows, ends, index))
        }
        None => put_refusal(&Refusal::Memory, sink),
    }
}
