//! Collecting lines of answers into large pieces for a sink.
ghost use Rattle.std.specs.Prelude.{◌≡◌, ◌++◌, List, [], ℕ};
ghost use Rattle.causes.specs.Causes.{Counts};
ghost use Rattle.io_edge.specs.Puts.{Puts};
ghost use Rattle.csv_rows.specs.Lines.{line_text, title_line};
ghost use Rattle.csv_rows.specs.Pieces.{HoldsBack};

use crate::lines::add_line;
use crate::pieces::{Piece, make_room, push_str};
use io_edge::{Sink, SinkFault};
use plain_list::Answer;
use std::marker::Model;

/// Lines on their way to one sink, in pieces of up to 64 KiB. The buffer is in the value itself, so a `Gathered` takes
/// no heap memory. Contracts see it as the bytes that are held back. Only `finish` puts the last of them. After a
/// fault, all held bytes are lost.
#[derive(Drop)]
pub struct Gathered {
    piece: Piece,
}

impl Model for Gathered {
    ghost Value = { List ℕ };

    ghost view = { λ g. g.piece.items };
}

impl Gathered {
    /// Creates a `Gathered` that holds back nothing.
    pub fn new() -> Gathered
        ensures { result ≡ [] }
    {
        Gathered {
            piece: Piece::new(),
        }
    }

    /// Adds the title line of the answers.
    pub fn add_title<K: Sink>(&mut self, sink: &mut K) -> Result<(), SinkFault>
        ensures bytes { HoldsBack (K.output sink.old).taken (K.output sink.new).taken (self.old ++ title_line) self.new result }
        ensures cause { Counts (K.output sink.old).faults (K.output sink.new).faults result }
    {
        make_room(sink, &mut self.piece)?;
        push_str(&mut self.piece, "row,place,answer,detail\n");
        Ok(())
    }

    /// Adds the line of a row's answer.
    pub fn add_line<K: Sink>(
        &mut self,
        sink: &mut K,
        row: u32,
        place: u64,
        answer: &Answer,
    ) -> Result<(), SinkFault>
        ensures bytes { HoldsBack (K.output sink.old).taken (K.output sink.new).taken
            (self.old ++ line_text row place answer.now) self.new result }
        ensures cause { Counts (K.output sink.old).faults (K.output sink.new).faults result }
    {
        add_line(sink, &mut self.piece, row, place, answer)
    }

    /// Puts the bytes that are held back.
    pub fn finish<K: Sink>(self, sink: &mut K) -> Result<(), SinkFault>
        ensures bytes { Puts (K.output sink.old).taken (K.output sink.new).taken self result }
        ensures cause { Counts (K.output sink.old).faults (K.output sink.new).faults result }
    {
        sink.put(self.piece.as_slice())
    }
}
