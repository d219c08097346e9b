//! The lines of refusals, and their statuses.
ghost use Rattle.std.specs.Prelude.{◌≡◌, ◌≤◌, ◌+◌, ◌++◌, codes, length};
ghost use Rattle.std.specs.Fmt.{decimal};
ghost use Rattle.arrayvec.specs.ArrayVec.{array_vec_len};
ghost use Rattle.causes.specs.Causes.{Counts};
ghost use Rattle.io_edge.specs.Puts.{Puts};
ghost use Rattle.run_ends.specs.RefusalLines.{cause_text, reason_text, refusal_text};
ghost use Rattle.run_ends.specs.Status.{status_of};
ghost use Rattle.run_ends.specs.Taking.{Refuses};

use crate::refusals::Refusal;
use cell_format::Cause;
use csv_rows::{Piece, add_number, push_str};
use io_edge::{Sink, SinkFault};

/// Writes the line of a refusal, and returns its status. The status is the same if the sink fails.
pub fn put_refusal<K: Sink>(refusal: &Refusal, sink: &mut K) -> u8
    ensures refused { Refuses refusal.now result (K.output sink.old) (K.output sink.new) }
    ensures later { (K.output sink.old).faults ≤ (K.output sink.new).faults }
{
    let status = status_of(refusal);
    let _ = refusal_line(sink, refusal);
    status
}

fn status_of(refusal: &Refusal) -> u8
    ensures { result ≡ status_of refusal.now }
{
    match *refusal {
        Refusal::Usage => 2,
        Refusal::Header => 3,
        Refusal::Csv { row: _ } => 3,
        Refusal::Field { row: _, column: _ } => 3,
        Refusal::NotLog => 4,
        Refusal::OldLog { .. } => 4,
        Refusal::Damaged { .. } => 4,
        Refusal::Source => 5,
        Refusal::Disk { .. } => 7,
        Refusal::LongInput => 8,
        Refusal::ManyRows => 8,
        Refusal::LongLog => 8,
        Refusal::LongEvents => 8,
        Refusal::Memory => 9,
        Refusal::InUse { .. } => 10,
        Refusal::Strange { cell: _ } => 4,
    }
}

/// Writes the line of a refusal as one piece.
pub fn refusal_line<K: Sink>(sink: &mut K, refusal: &Refusal) -> Result<(), SinkFault>
    ensures bytes { Puts (K.output sink.old).taken (K.output sink.new).taken (refusal_text refusal.now) result }
    ensures cause { Counts (K.output sink.old).faults (K.output sink.new).faults result }
{
    let mut piece = Piece::new();
    push_str(&mut piece, "refused ");
    add_reason(&mut piece, refusal);
    push_str(&mut piece, "\n");
    sink.put(piece.as_slice())
}

fn add_reason(piece: &mut Piece, refusal: &Refusal)
    requires { array_vec_len piece.old ≤ 64 }
    ensures bytes { piece.new.items ≡ piece.old.items ++ reason_text refusal.now }
    ensures len { array_vec_len piece.new ≤ 1024 }
{
    match refusal {
        Refusal::Usage => push_str(piece, "usage"),
        Refusal::Header => push_str(piece, "header"),
        Refusal::Csv { row } => add_csv(piece, *row),
        Refusal::Field { row, column } => {
            add_two(
                piece,
                "row ",
                u64::from(*row),
                " column ",
                u64::from(*column),
            )
        }
        Refusal::NotLog => push_str(piece, "not a log"),
        Refusal::OldLog { version, width } => {
            add_two(
                piece,
                "log version ",
                u64::from(*version),
                " width ",
                u64::from(*width),
            )
        }
        Refusal::Damaged { cell, cause } => add_damaged(piece, *cell, *cause),
        Refusal::Source => push_str(piece, "source"),
        Refusal::Disk { cell: Some(cell) } => add_counted(piece, "disk cell ", *cell),
        Refusal::Disk { cell: None } => push_str(piece, "disk"),
        Refusal::LongInput => push_str(piece, "limit bytes"),
        Refusal::ManyRows => push_str(piece, "limit rows"),
        Refusal::LongLog => push_str(piece, "limit cells"),
        Refusal::LongEvents => push_str(piece, "limit events"),
        Refusal::Memory => push_str(piece, "memory"),
        Refusal::InUse { len } => add_counted(piece, "in use ", *len),
        Refusal::Strange { cell } => add_strange(piece, *cell),
    }
}

fn add_csv(piece: &mut Piece, row: u32)
    requires { array_vec_len piece.old ≤ 64 }
    ensures bytes { piece.new.items ≡ piece.old.items ++ (codes "row " ++ decimal row ++ codes " length") }
    ensures len { array_vec_len piece.new ≤ 1024 }
{
    add_counted(piece, "row ", u64::from(row));
    push_str(piece, " length");
}

fn add_strange(piece: &mut Piece, cell: u64)
    requires { array_vec_len piece.old ≤ 64 }
    ensures bytes { piece.new.items ≡ piece.old.items ++ (codes "cell " ++ decimal cell ++ codes " strange") }
    ensures len { array_vec_len piece.new ≤ 1024 }
{
    add_counted(piece, "cell ", cell);
    push_str(piece, " strange");
}

// Adds two words, each with a number.
fn add_two(piece: &mut Piece, first: &str, number: u64, second: &str, other: u64)
    requires room { array_vec_len piece.old ≤ 64 }
    requires words { (length first.now ≤ 16) × (length second.now ≤ 16) }
    ensures bytes { piece.new.items ≡ piece.old.items ++ (first.now ++ decimal number ++ second.now ++ decimal other) }
    ensures len { array_vec_len piece.new ≤ 1024 }
{
    add_counted(piece, first, number);
    add_counted(piece, second, other);
}

fn add_damaged(piece: &mut Piece, cell: u64, cause: Cause)
    requires { array_vec_len piece.old ≤ 64 }
    ensures bytes { piece.new.items ≡ piece.old.items ++ (codes "cell " ++ decimal cell ++ codes " " ++ cause_text cause) }
    ensures len { array_vec_len piece.new ≤ 1024 }
{
    add_counted(piece, "cell ", cell);
    push_str(piece, " ");
    push_str(piece, word_of_cause(cause));
}

/// Adds a word and a number.
fn add_counted(piece: &mut Piece, word: &str, number: u64)
    requires room { array_vec_len piece.old ≤ 1024 }
    requires word { length word.now ≤ 16 }
    ensures bytes { piece.new.items ≡ piece.old.items ++ word.now ++ decimal number }
    ensures len { array_vec_len piece.new ≤ array_vec_len piece.old + 36 }
{
    push_str(piece, word);
    add_number(piece, number);
}

fn word_of_cause(cause: Cause) -> &'static str
    ensures word { result.now ≡ cause_text cause }
    ensures short { length result.now ≤ 10 }
{
    match cause {
        Cause::ShortCell => "short",
        Cause::Kind => "kind",
        Cause::Reserved => "reserved",
        Cause::BadName => "name",
        Cause::Impossible => "impossible",
    }
}
