//! Reading texts of records as rows of any type.
ghost use Rattle.std.specs.Prelude.{◌≡◌, ◌≢◌, ◌<◌, ◌+◌, ◌∷◌, ◌++◌, ℕ, List, [], Ok, Err, IfOk, IfErr, length};
ghost use Rattle.std.specs.Bool.{MatchBool};
ghost use Rattle.csv.specs.Records.{fields_of};
ghost use Rattle.csv_rows.specs.Records.{StandsBehind};
ghost use Rattle.csv_rows.specs.Tables.{Table, HasReadRows, is_header_of, rows_in_table, rows_of_text};

use crate::read::{behind_mark, fault_at, has_mark};
use crate::records::{next_record, reader_of};
use crate::rows::{RowsFault, Wrong};
use csv::{ByteRecord, Reader};
use std::alloc::Global;

/// How the records of one kind of text are read as rows. Each row may depend on the rows before it. An implementation
/// may keep what it needs of these rows, so that it need not go over them again.
pub trait ReadsRow: Drop {
    /// What a record says.
    type Row: Copy;

    /// The header, the greatest number of rows, and what a record says after the rows before it.
    ghost table: { Table Self.Row };

    /// What a value keeps of earlier rows is true of these rows.
    ghost knows: { Self → List Self.Row → Type 0 };

    /// Returns the greatest number of rows.
    fn most(&self) -> u32
        ensures { result ≡ table.most };

    /// Returns whether a record is the header.
    fn is_header(&self, fields: &ByteRecord) -> bool
        ensures { result ≡ is_header_of table (fields_of fields.now) };

    /// Returns the row that a record says after these rows, or what is wrong with the record.
    fn row(&mut self, earlier: &[Self::Row], fields: &ByteRecord) -> Result<Self::Row, Wrong>
        requires few { length earlier.now < table.most }
        requires knows { knows self.old earlier.now }
        ensures row { result ≡ table.row_of earlier.now (fields_of fields.now) }
        ensures knows { IfOk result (λ row. knows self.new (earlier.now ++ row ∷ [])) };
}

/// Reads the rows of a text: a header, and then at most `most` rows.
///
/// One byte order mark may precede the header. Empty lines are not records.
pub fn read_table<R: ReadsRow>(
    alloc: Global,
    bytes: &[u8],
    kind: R,
) -> Result<Vec<R::Row>, RowsFault>
    requires { R.knows kind [] }
    ensures rows { IfOk result (λ rows. rows_of_text R.table bytes.now ≡ Ok rows.items) }
    ensures fault { IfErr result (λ e. e ≢ RowsFault.Memory → rows_of_text R.table bytes.now ≡ Err e) }
{
    let text = behind_mark(bytes);
    if has_mark(text) {
        return Err(RowsFault::Header);
    }
    let mut kind = kind;
    let mut reader = reader_of(alloc, text);
    let mut record = ByteRecord::new(alloc);
    read_whole(alloc, &mut kind, &mut reader, &mut record)
}

// Reads all rows from the start of a text.
fn read_whole<R: ReadsRow>(
    alloc: Global,
    kind: &mut R,
    reader: &mut Reader<&[u8]>,
    fields: &mut ByteRecord,
) -> Result<Vec<R::Row>, RowsFault>
    ghost text: { List ℕ }
    requires knows { R.knows kind.old [] }
    requires start { StandsBehind text [] reader.old }
    ensures rows { IfOk result (λ rows. rows_in_table R.table text ≡ Ok rows.items) }
    ensures fault { IfErr result (λ e. e ≢ RowsFault.Memory → rows_in_table R.table text ≡ Err e) }
{
    read_title(kind, reader, fields)?;
    let mut rows = Vec::new(alloc);
    read_below(kind, reader, fields, &mut rows)?;
    Ok(rows)
}

fn read_title<R: ReadsRow>(
    kind: &R,
    reader: &mut Reader<&[u8]>,
    fields: &mut ByteRecord,
) -> Result<(), RowsFault>
    ghost text: { List ℕ }
    requires { StandsBehind text [] reader.old }
    ensures header { IfOk result (λ _. HasReadRows R.table text reader.new []) }
    ensures fault { IfErr result (λ e. e ≢ RowsFault.Memory → rows_in_table R.table text ≡ Err e) }
{
    let begins = next_record(reader, fields)?;
    if !begins {
        return Err(RowsFault::Header);
    }
    if !kind.is_header(fields) {
        return Err(RowsFault::Header);
    }
    Ok(())
}

// Reads the rows after the header.
fn read_below<R: ReadsRow>(
    kind: &mut R,
    reader: &mut Reader<&[u8]>,
    fields: &mut ByteRecord,
    rows: &mut Vec<R::Row>,
) -> Result<(), RowsFault>
    ghost text: { List ℕ }
    requires none { rows.old.items ≡ [] }
    requires knows { R.knows kind.old [] }
    requires read { HasReadRows R.table text reader.old [] }
    ensures rows { IfOk result (λ _. rows_in_table R.table text ≡ Ok rows.new.items) }
    ensures fault { IfErr result (λ e. e ≢ RowsFault.Memory → rows_in_table R.table text ≡ Err e) }
{
    let most = kind.most();
    for before in 0..most {
        let more = read_row(kind, reader, fields, before, rows)?;
        if !more {
            return Ok(());
        }
    }
    let over = next_record(reader, fields)?;
    if over {
        return Err(RowsFault::TooMany);
    }
    Ok(())
}

// Reads the row after `before` others, and returns whether there is one.
fn read_row<R: ReadsRow>(
    kind: &mut R,
    reader: &mut Reader<&[u8]>,
    fields: &mut ByteRecord,
    before: u32,
    rows: &mut Vec<R::Row>,
) -> Result<bool, RowsFault>
    ghost text: { List ℕ }
    requires few { before < R.table.most }
    requires fits { before + 1 < 4294967296 }
    requires count { length rows.old.items ≡ before }
    requires knows { R.knows kind.old rows.old.items }
    requires read { HasReadRows R.table text reader.old rows.old.items }
    ensures rows { IfOk result (λ more. MatchBool more (HasReadRows R.table text reader.new rows.new.items)
        (rows_in_table R.table text ≡ Ok rows.new.items)) }
    ensures knows { IfOk result (λ more. MatchBool more
        (R.knows kind.new rows.new.items × (length rows.new.items ≡ before + 1)) (rows.new.items ≡ rows.old.items)) }
    ensures fault { IfErr result (λ e. e ≢ RowsFault.Memory → rows_in_table R.table text ≡ Err e) }
{
    let more = next_record(reader, fields)?;
    if !more {
        return Ok(false);
    }
    let row = match kind.row(rows.as_slice(), fields) {
        Ok(row) => row,
        Err(wrong) => return Err(fault_at(before + 1, wrong)),
    };
    rows.push(row)?;
    Ok(true)
}
