//! The lines of reports.
ghost use Rattle.std.specs.Prelude.{◌≡◌, ◌≤◌, ◌++◌};
ghost use Rattle.arrayvec.specs.ArrayVec.{array_vec_len};
ghost use Rattle.causes.specs.Causes.{Counts};
ghost use Rattle.io_edge.specs.Puts.{Puts};
ghost use Rattle.csv_rows.specs.Pieces.{Adds};
ghost use Rattle.follow_run.specs.Lines.{report_line, reports_text};

use csv_rows::{Piece, add_number, add_pair, make_room, push_str};
use follower::Report;
use io_edge::{Sink, SinkFault};

/// Writes a title and a line for each report, in pieces of up to 64 KiB.
pub(crate) fn write_reports<K: Sink>(sink: &mut K, reports: &[Report]) -> Result<(), SinkFault>
    ensures bytes { Puts (K.output sink.old).taken (K.output sink.new).taken (reports_text reports.now) result }
    ensures cause { Counts (K.output sink.old).faults (K.output sink.new).faults result }
{
    let mut piece = Piece::new();
    push_str(&mut piece, "turn,held,known\n");
    for (before, report) in reports.iter().enumerate() {
        add_report(sink, &mut piece, before as u64 + 1, report)?;
    }
    sink.put(piece.as_slice())
}

// Adds the line of the turn of this number.
fn add_report<K: Sink>(
    sink: &mut K,
    piece: &mut Piece,
    turn: u64,
    report: &Report,
) -> Result<(), SinkFault>
    ensures bytes { Adds (K.output sink.old) (K.output sink.new) piece.old.items (report_line turn report.now) piece.new.items result }
    ensures cause { Counts (K.output sink.old).faults (K.output sink.new).faults result }
{
    make_room(sink, piece)?;
    push_report(piece, turn, report);
    Ok(())
}

fn push_report(piece: &mut Piece, turn: u64, report: &Report)
    requires { array_vec_len piece.old ≤ 65392 }
    ensures bytes { piece.new.items ≡ piece.old.items ++ report_line turn report.now }
{
    add_pair(piece, turn, b',', report.held);
    push_str(piece, ",");
    add_number(piece, report.known);
    push_str(piece, "\n");
}
