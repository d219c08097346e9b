//! The lines of counts: what `check` found, what `trial` left, and what `compact` wrote.
ghost use Rattle.std.specs.Prelude.{◌≡◌, ◌≤◌, ◌+◌, ◌++◌, length};
ghost use Rattle.arrayvec.specs.ArrayVec.{array_vec_len};
ghost use Rattle.causes.specs.Causes.{Counts};
ghost use Rattle.io_edge.specs.Puts.{Puts};
ghost use Rattle.run_ends.specs.LogLines.{made_line, count_line, counts_text, summary_text, compacted_line};

use csv_rows::{Piece, add_number, push_str};
use io_edge::{Sink, SinkFault};

/// What a log contains: the number of its records, of the objects and leaves after them, and of splits that haven't
/// ended.
#[derive(Clone, Copy, Debug, PartialEq, Eq)]
pub struct LogCounts {
    pub cells: u64,
    pub points: u64,
    pub leaves: u64,
    pub unfinished: u64,
}

/// What made rows leave: how many rows there were, how many objects are left, and the sum of their keys modulo 2^64.
#[derive(Clone, Copy, Debug, PartialEq, Eq)]
pub struct Summary {
    pub rows: u64,
    pub points: u64,
    pub sum: u64,
}

/// Writes the line of `init`.
pub fn write_made<K: Sink>(sink: &mut K) -> Result<(), SinkFault>
    ensures bytes { Puts (K.output sink.old).taken (K.output sink.new).taken made_line result }
    ensures cause { Counts (K.output sink.old).faults (K.output sink.new).faults result }
{
    sink.put(b"made\n")
}

/// Writes the four lines of `check` as one piece.
pub fn write_counts<K: Sink>(sink: &mut K, counts: &LogCounts) -> Result<(), SinkFault>
    ensures bytes { Puts (K.output sink.old).taken (K.output sink.new).taken (counts_text counts.now) result }
    ensures cause { Counts (K.output sink.old).faults (K.output sink.new).faults result }
{
    let mut piece = Piece::new();
    add_count(&mut piece, "cells ", counts.cells);
    add_count(&mut piece, "points ", counts.points);
    add_count(&mut piece, "leaves ", counts.leaves);
    add_count(&mut piece, "unfinished ", counts.unfinished);
    sink.put(piece.as_slice())
}

/// Writes the three lines of `trial` as one piece.
pub fn write_summary<K: Sink>(sink: &mut K, summary: &Summary) -> Result<(), SinkFault>
    ensures bytes { Puts (K.output sink.old).taken (K.output sink.new).taken (summary_text summary.now) result }
    ensures cause { Counts (K.output sink.old).faults (K.output sink.new).faults result }
{
    let mut piece = Piece::new();
    add_count(&mut piece, "rows ", summary.rows);
    add_count(&mut piece, "points ", summary.points);
    add_count(&mut piece, "sum ", summary.sum);
    sink.put(piece.as_slice())
}

/// Writes the line of `compact`, with the number of records of the new log.
pub fn write_compacted<K: Sink>(sink: &mut K, cells: u64) -> Result<(), SinkFault>
    ensures bytes { Puts (K.output sink.old).taken (K.output sink.new).taken (compacted_line cells) result }
    ensures cause { Counts (K.output sink.old).faults (K.output sink.new).faults result }
{
    let mut piece = Piece::new();
    add_count(&mut piece, "compacted ", cells);
    sink.put(piece.as_slice())
}

/// Adds the line of a count. `word` ends with a space.
fn add_count(piece: &mut Piece, word: &str, count: u64)
    requires room { array_vec_len piece.old ≤ 1024 }
    requires word { length word.now ≤ 16 }
    ensures bytes { piece.new.items ≡ piece.old.items ++ count_line word.now count }
    ensures len { array_vec_len piece.new ≤ array_vec_len piece.old + 37 }
{
    push_str(piece, word);
    add_number(piece, count);
    push_str(piece, "\n");
}
