//! The lines of a watch.
ghost use Rattle.std.specs.Prelude.{◌≡◌, ◌≤◌, ◌+◌, ◌++◌, length};
ghost use Rattle.std.specs.List.{flat_map};
ghost use Rattle.arrayvec.specs.ArrayVec.{array_vec_len};
ghost use Rattle.causes.specs.Causes.{Counts};
ghost use Rattle.io_edge.specs.Puts.{Puts};
ghost use Rattle.csv_rows.specs.Pieces.{Adds};
ghost use Rattle.watch_run.specs.WatchLines.{event_line, inside_line, way_text};
ghost use Rattle.watch_run.specs.inside.Lines.{counted_line, view_text};

use csv_rows::{Piece, add_number, add_pair, make_room, push_str};
use fence_watch::{Crossing, Event, FenceCount, Tally};
use io_edge::{Sink, SinkFault};

/// Writes the first line, a line for each event, and one for each fence, in pieces of up to 64 KiB.
pub(crate) fn write_watch<K: Sink>(sink: &mut K, watch: &Tally) -> Result<(), SinkFault>
    ensures bytes { Puts (K.output sink.old).taken (K.output sink.new).taken (view_text watch.now) result }
    ensures cause { Counts (K.output sink.old).faults (K.output sink.new).faults result }
{
    let mut piece = Piece::new();
    push_str(&mut piece, "cell,event,id,fence\n");
    add_events(sink, &mut piece, watch.events())?;
    add_ends(sink, &mut piece, watch.counts())?;
    sink.put(piece.as_slice())
}

// Adds the line of each event.
fn add_events<K: Sink>(sink: &mut K, piece: &mut Piece, events: &[Event]) -> Result<(), SinkFault>
    ensures bytes { Adds (K.output sink.old) (K.output sink.new) piece.old.items (flat_map event_line events.now) piece.new.items result }
    ensures cause { Counts (K.output sink.old).faults (K.output sink.new).faults result }
{
    for event in events {
        make_room(sink, piece)?;
        add_event(piece, event);
    }
    Ok(())
}

fn add_event(piece: &mut Piece, event: &Event)
    requires { array_vec_len piece.old ≤ 65392 }
    ensures { piece.new.items ≡ piece.old.items ++ event_line event.now }
{
    add_number(piece, event.at);
    push_str(piece, word_of(event.crossing));
    add_pair(piece, event.id, b',', event.fence);
    push_str(piece, "\n");
}

// Whether an object entered or left, between commas.
fn word_of(crossing: Crossing) -> &'static str
    ensures word { result.now ≡ way_text crossing }
    ensures short { length result.now ≤ 7 }
{
    match crossing {
        Crossing::Enter => ",enter,",
        Crossing::Leave => ",leave,",
    }
}

// Adds the line of each fence, with how many objects are inside.
fn add_ends<K: Sink>(
    sink: &mut K,
    piece: &mut Piece,
    counts: &[FenceCount],
) -> Result<(), SinkFault>
    ensures bytes { Adds (K.output sink.old) (K.output sink.new) piece.old.items (flat_map counted_line counts.now) piece.new.items result }
    ensures cause { Counts (K.output sink.old).faults (K.output sink.new).faults result }
{
    for count in counts {
        make_room(sink, piece)?;
        add_inside(piece, count.inside, count.fence.id);
    }
    Ok(())
}

fn add_inside(piece: &mut Piece, count: u64, fence: u64)
    requires { array_vec_len piece.old ≤ 65392 }
    ensures { piece.new.items ≡ piece.old.items ++ inside_line count fence }
{
    push_str(piece, "end,inside,");
    add_pair(piece, count, b',', fence);
    push_str(piece, "\n");
}
