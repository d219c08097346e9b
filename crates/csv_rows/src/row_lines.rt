//! Writing rows in the form in which they are read.
ghost use Rattle.std.specs.Prelude.{◌≡◌, ◌≤◌, ◌+◌, ◌++◌, codes, length, Ok};
ghost use Rattle.arrayvec.specs.ArrayVec.{array_vec_len};
ghost use Rattle.causes.specs.Causes.{Counts};
ghost use Rattle.io_edge.specs.Puts.{Puts};
ghost use Rattle.csv_rows.specs.Rows.{rows_of};
ghost use Rattle.csv_rows.specs.Columns.{text_by};
ghost use Rattle.csv_rows.specs.RowLines.{header_line, op_tail, row_line, rows_text};

use crate::columns::{Rule, columns_of, rules_of, text_of, word_by};
use crate::fields::HEADER;
use crate::pieces::{Piece, add_number, make_room, push_bytes, push_str};
use crate::rows::{InRow, Rows};
use io_edge::{Sink, SinkFault};
use plain_list::Op;

/// Writes the header and the rows, in pieces of up to 64 KiB.
pub fn write_rows<K: Sink>(sink: &mut K, rows: &Rows) -> Result<(), SinkFault>
    ensures bytes { Puts (K.output sink.old).taken (K.output sink.new).taken (rows_text rows.now) result }
    ensures cause { Counts (K.output sink.old).faults (K.output sink.new).faults result }
    ensures again { rows_of (rows_text rows.now) ≡ Ok rows.now }
{
    let mut piece = Piece::new();
    add_header(&mut piece);
    for row in rows.as_slice() {
        make_room(sink, &mut piece)?;
        add_row(&mut piece, row);
    }
    sink.put(piece.as_slice())
}

/// Adds the header line.
pub(crate) fn add_header(piece: &mut Piece)
    requires { array_vec_len piece.old ≤ 65392 }
    ensures { piece.new.items ≡ piece.old.items ++ header_line }
{
    push_bytes(piece, HEADER.session);
    add_field(piece, HEADER.op);
    add_field(piece, HEADER.columns.id);
    add_field(piece, HEADER.columns.x);
    add_field(piece, HEADER.columns.y);
    add_field(piece, HEADER.columns.a);
    add_field(piece, HEADER.columns.b);
    add_field(piece, HEADER.columns.moment);
    push_str(piece, "\n");
}

// Adds a comma and a field.
fn add_field(piece: &mut Piece, field: &[u8])
    requires { array_vec_len piece.old + length field.now ≤ 65535 }
    ensures bytes { piece.new.items ≡ piece.old.items ++ (codes "," ++ field.now) }
    ensures len { array_vec_len piece.new ≡ array_vec_len piece.old + (1 + length field.now) }
{
    push_str(piece, ",");
    push_bytes(piece, field);
}

fn add_row(piece: &mut Piece, row: &InRow)
    requires { array_vec_len piece.old ≤ 65392 }
    ensures bytes { piece.new.items ≡ piece.old.items ++ row_line row.now }
    ensures len { array_vec_len piece.new ≤ array_vec_len piece.old + 136 }
{
    add_number(piece, u64::from(row.session));
    add_op(piece, &row.op);
}

// Adds the fields after the session, and the end of the line.
fn add_op(piece: &mut Piece, op: &Op)
    requires { array_vec_len piece.old ≤ 65400 }
    ensures bytes { piece.new.items ≡ piece.old.items ++ op_tail op.now }
    ensures len { array_vec_len piece.new ≤ array_vec_len piece.old + 133 }
{
    let word = word_by(op);
    let columns = columns_of(op);
    let rules = rules_of(word, columns.x, columns.y);
    push_str(piece, ",");
    push_str(piece, text_of(word));
    add_column(piece, rules.id, columns.id);
    add_column(piece, rules.x, columns.x);
    add_column(piece, rules.y, columns.y);
    add_column(piece, rules.a, columns.a);
    add_column(piece, rules.b, columns.b);
    add_column(piece, rules.moment, columns.moment);
    push_str(piece, "\n");
}

// Adds a comma and the text of a column with this rule.
fn add_column(piece: &mut Piece, rule: Rule, number: u64)
    requires { array_vec_len piece.old ≤ 65515 }
    ensures bytes { piece.new.items ≡ piece.old.items ++ (codes "," ++ text_by rule number) }
    ensures len { array_vec_len piece.new ≤ array_vec_len piece.old + 21 }
{
    push_str(piece, ",");
    match rule {
        Rule::Empty => {}
        Rule::Between { .. } => add_number(piece, number),
    }
}
