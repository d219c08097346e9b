//! Writes the lines of rows, or their three numbers.
ghost use Rattle.std.specs.Prelude.{◌≡◌, List, length};
ghost use Rattle.causes.specs.Causes.{Counts};
ghost use Rattle.io_edge.specs.Puts.{Puts};
ghost use Rattle.plain_list.specs.declared.entries.Entry.{Entry};
ghost use Rattle.csv_rows.specs.InRows.{AreInRows};
ghost use Rattle.plain_list.specs.World.{World, places_of};
ghost use Rattle.plain_list.specs.History.{world_after};
ghost use Rattle.table_share.specs.Sums.{sums_of};
ghost use Rattle.play_run.specs.Lines.{lines_of, text_of, summary_of};
ghost use Rattle.play_run.specs.inside.Answered.{kept_of, HasLanes, HasNumbers, HasAnswers, HasObjects};

use crate::lanes::LaneEnd;
use crate::reports::Report;
use csv_rows::{Gathered, InRow};
use index_layer::Index;
use io_edge::{Sink, SinkFault};
use run_ends::{Summary, write_summary};
use sessions::KeptRow;
use std::marker::Brand;
use std::sync::ledger::{Blank, Ledger};
use step_count::Steps;
use table_share::{Sums, sum_up};

// One more than the highest number of a session.
const SLOTS: usize = 17;

/// Writes the report of rows that were all answered, from what the lanes kept or from the objects of an index.
pub(crate) fn tell_report<K: Sink, I: Index>(
    sink: &mut K,
    report: Report,
    rows: &[InRow],
    ends: &[LaneEnd],
    index: &I,
) -> Result<(), SinkFault>
    requires rows { AreInRows rows.now }
    requires numbers { HasNumbers rows.now ends.now }
    ensures bytes { (world : World) (h : List Entry) → HasAnswers world h rows.now ends.now
        → HasObjects (I.leaves index.now) (world_after world h)
        → Puts (K.output sink.old).taken (K.output sink.new).taken (text_of report rows.now world h) result }
    ensures cause { Counts (K.output sink.old).faults (K.output sink.new).faults result }
{
    match report {
        Report::Lines => write_lines(sink, rows, ends),
        Report::Summary => write_summary(sink, &summary_of(rows.len(), index)),
    }
}

// The three numbers of this many rows and of the objects of an index.
fn summary_of<I: Index>(rows: usize, index: &I) -> Summary
    ensures { (world : World) → HasObjects (I.leaves index.now) world → result ≡ summary_of rows world }
{
    let Sums { points, sum } = count_objects::<I, Brand>(index, Blank::new(1));
    Summary {
        rows: rows as u64,
        points,
        sum,
    }
}

// Counts the objects of an index and adds up their keys. The count of steps is dropped.
fn count_objects<I: Index, L: Ledger>(index: &I, blank: Blank) -> Sums
    requires name { blank.name ≡ L.name }
    requires parts { blank.parts ≡ L.parts }
    requires one_part { blank.parts ≡ 1 }
    ensures { (world : World) → HasObjects (I.leaves index.now) world → result ≡ sums_of (places_of world) }
{
    let mut steps = Steps::<L>::new(blank);
    sum_up(index, &mut steps)
}

// Writes the title and a line for each row, in the order of the rows. Each line has the place and the answer that the
// lane of the row's session kept.
fn write_lines<K: Sink>(sink: &mut K, rows: &[InRow], ends: &[LaneEnd]) -> Result<(), SinkFault>
    requires rows { AreInRows rows.now }
    requires numbers { HasNumbers rows.now ends.now }
    ensures bytes { (world : World) (h : List Entry) → HasAnswers world h rows.now ends.now
        → Puts (K.output sink.old).taken (K.output sink.new).taken (lines_of world (length rows.now) h) result }
    ensures cause { Counts (K.output sink.old).faults (K.output sink.new).faults result }
{
    let mut lines = Gathered::new();
    lines.add_title(sink)?;
    let by_session = by_session(ends);
    let lanes = &by_session[..];
    let mut told = [0usize; SLOTS];
    for row in rows.iter() {
        let session = row.session as usize;
        let lane = lanes[session];
        let kept = &lane[told[session]];
        lines.add_line(sink, kept.row, kept.place, &kept.answer)?;
        told[session] += 1;
    }
    lines.finish(sink)
}

// What the lane of each session kept, at the place of its number.
fn by_session(ends: &[LaneEnd]) -> [&[KeptRow]; SLOTS]
    ensures { HasLanes (λ kept. kept.now) ends.now 17 result }
{
    let mut lanes: [&[KeptRow]; SLOTS] = [&[]; SLOTS];
    for i in 0..SLOTS {
        lanes[i] = kept_of(ends, i as u8);
    }
    lanes
}

// What the lane of a session kept.
fn kept_of(ends: &[LaneEnd], session: u8) -> &[KeptRow]
    ensures { result.now ≡ kept_of session ends.now }
{
    for end in ends.iter() {
        if end.session == session {
            return end.kept.as_slice();
        }
    }
    &[]
}
