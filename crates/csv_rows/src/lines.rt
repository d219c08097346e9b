//! The lines of answers.
ghost use Rattle.std.specs.Prelude.{◌≡◌, ◌≤◌, ◌+◌, ◌++◌, codes, length, OnOk};
ghost use Rattle.arrayvec.specs.ArrayVec.{array_vec_len};
ghost use Rattle.causes.specs.Causes.{Counts};
ghost use Rattle.io_edge.specs.Puts.{Puts};
ghost use Rattle.csv_rows.specs.Lines.{listed_text, word_text, detail_text, front_text, line_text, title_line};
ghost use Rattle.csv_rows.specs.Pieces.{Adds};

use crate::pieces::{
    Piece, add_listed, add_number, add_pair, add_placed, add_stamped, make_room, push_str,
};
use io_edge::{Sink, SinkFault};
use plain_list::Answer;
use zorder::Placed;

/// Writes the title line of the answers.
pub fn write_title<K: Sink>(sink: &mut K) -> Result<(), SinkFault>
    ensures bytes { Puts (K.output sink.old).taken (K.output sink.new).taken title_line result }
    ensures cause { Counts (K.output sink.old).faults (K.output sink.new).faults result }
{
    sink.put(b"row,place,answer,detail\n")
}

/// Writes the line of a row's answer. The line is one piece, but a long list of points goes in pieces of up to 64 KiB.
/// To write many lines, a `Gathered` is faster.
pub fn write_line<K: Sink>(
    sink: &mut K,
    row: u32,
    place: u64,
    answer: &Answer,
) -> Result<(), SinkFault>
    ensures bytes { Puts (K.output sink.old).taken (K.output sink.new).taken (line_text row place answer.now) result }
    ensures cause { Counts (K.output sink.old).faults (K.output sink.new).faults result }
{
    let mut piece = Piece::new();
    add_line(sink, &mut piece, row, place, answer)?;
    sink.put(piece.as_slice())
}

/// Adds the line of a row's answer to a piece.
pub(crate) fn add_line<K: Sink>(
    sink: &mut K,
    piece: &mut Piece,
    row: u32,
    place: u64,
    answer: &Answer,
) -> Result<(), SinkFault>
    ensures bytes { Adds (K.output sink.old) (K.output sink.new) piece.old.items (line_text row place answer.now) piece.new.items result }
    ensures cause { Counts (K.output sink.old).faults (K.output sink.new).faults result }
{
    make_room(sink, piece)?;
    add_front(piece, row, place, answer);
    add_detail(sink, piece, answer)?;
    push_str(piece, "\n");
    Ok(())
}

// Adds the columns before the detail of an answer.
fn add_front(piece: &mut Piece, row: u32, place: u64, answer: &Answer)
    requires { array_vec_len piece.old ≤ 65392 }
    ensures bytes { piece.new.items ≡ piece.old.items ++ front_text row place answer.now }
    ensures len { array_vec_len piece.new ≤ array_vec_len piece.old + 50 }
{
    add_pair(piece, u64::from(row), b',', place);
    push_str(piece, word_of(answer));
}

// Returns the word of an answer with a comma before and after it.
fn word_of(answer: &Answer) -> &'static str
    ensures word { result.now ≡ codes "," ++ word_text answer.now ++ codes "," }
    ensures short { length result.now ≤ 9 }
{
    match answer {
        Answer::Done => ",done,",
        Answer::Present(_) => ",present,",
        Answer::Full => ",full,",
        Answer::Moved(_) => ",moved,",
        Answer::Stale(_) => ",stale,",
        Answer::Gone(_) => ",gone,",
        Answer::At(_) => ",at,",
        Answer::Absent => ",absent,",
        Answer::Found(_) => ",found,",
        Answer::Many(_) => ",many,",
    }
}

fn add_detail<K: Sink>(sink: &mut K, piece: &mut Piece, answer: &Answer) -> Result<(), SinkFault>
    requires { array_vec_len piece.old ≤ 65472 }
    ensures bytes { Adds (K.output sink.old) (K.output sink.new) piece.old.items (detail_text answer.now) piece.new.items result }
    ensures cause { Counts (K.output sink.old).faults (K.output sink.new).faults result }
    ensures room { OnOk result (array_vec_len piece.new ≤ 65535) }
{
    match answer {
        Answer::Done | Answer::Full | Answer::Absent => Ok(()),
        Answer::Present(kept)
        | Answer::Moved(kept)
        | Answer::Stale(kept)
        | Answer::Gone(kept)
        | Answer::At(kept) => {
            add_stamped(piece, *kept, b':');
            Ok(())
        }
        Answer::Found(list) => add_list(sink, piece, list.as_slice()),
        Answer::Many(count) => {
            add_number(piece, *count);
            Ok(())
        }
    }
}

fn add_list<K: Sink>(sink: &mut K, piece: &mut Piece, list: &[Placed]) -> Result<(), SinkFault>
    requires { array_vec_len piece.old ≤ 65472 }
    ensures bytes { Adds (K.output sink.old) (K.output sink.new) piece.old.items (listed_text list.now) piece.new.items result }
    ensures cause { Counts (K.output sink.old).faults (K.output sink.new).faults result }
    ensures room { OnOk result (array_vec_len piece.new ≤ 65535) }
{
    let Some((first, rest)) = list.split_first() else {
        return Ok(());
    };
    add_placed(piece, first);
    for placed in rest {
        make_room(sink, piece)?;
        add_listed(piece, placed);
    }
    Ok(())
}
