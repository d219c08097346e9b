//! Reading the rows of an input.
ghost use Rattle.std.specs.Prelude.{◌≡◌, ◌≢◌, ◌≤◌, ◌+◌, ℕ, List, [], IfOk, IfErr};
ghost use Rattle.std.specs.Bool.{MatchBool};
ghost use Rattle.csv_rows.specs.InRows.{AreInRows};
ghost use Rattle.csv_rows.specs.Records.{HasRead, StandsBehind, rows_in};
ghost use Rattle.csv_rows.specs.Rows.{has_mark, behind_mark, rows_of, fault_at};

use crate::fields::{is_header, row_of};
use crate::records::{next_record, reader_of};
use crate::rows::{InRow, Rows, RowsFault, Wrong};
use crate::written::written_rows;
use csv::{ByteRecord, Reader};
use std::alloc::Global;

pub(crate) const MOST_ROWS: u32 = 65_536;

/// Reads the rows of an input: a header, and then at most 65,536 rows with eight fields each.
///
/// One byte order mark may precede the header. Empty lines are not records, and numbers may have leading zeros. A text
/// is read about three times as fast if it is byte for byte what `write_rows` writes, with no number of 20 digits.
pub fn read_rows(alloc: Global, bytes: &[u8]) -> Result<Rows, RowsFault>
    ensures rows { IfOk result (λ rows. rows_of bytes.now ≡ Ok rows) }
    ensures fault { IfErr result (λ e. e ≢ RowsFault.Memory → rows_of bytes.now ≡ Err e) }
{
    let text = behind_mark(bytes);
    if has_mark(text) {
        return Err(RowsFault::Header);
    }
    match written_rows(alloc, text)? {
        Some(rows) => Ok(rows),
        None => read_records(alloc, text),
    }
}

/// Returns whether a text begins with the byte order mark.
pub(crate) fn has_mark(bytes: &[u8]) -> bool
    ensures { result ≡ has_mark bytes.now }
{
    bytes.starts_with(b"\xEF\xBB\xBF".as_slice())
}

/// Returns the text after its byte order mark, or the whole text if it has none.
pub(crate) fn behind_mark(bytes: &[u8]) -> &[u8]
    ensures { result.now ≡ behind_mark bytes.now }
{
    if has_mark(bytes) { &bytes[3..] } else { bytes }
}

// Reads the rows of a text that begins with no mark.
fn read_records(alloc: Global, text: &[u8]) -> Result<Rows, RowsFault>
    ensures rows { IfOk result (λ rows. rows_in text.now ≡ Ok rows) }
    ensures fault { IfErr result (λ e. e ≢ RowsFault.Memory → rows_in text.now ≡ Err e) }
{
    let mut reader = reader_of(alloc, text);
    let mut record = ByteRecord::new(alloc);
    read_all(alloc, &mut reader, &mut record)
}

// Reads all rows from the start of a text.
fn read_all(
    alloc: Global,
    reader: &mut Reader<&[u8]>,
    record: &mut ByteRecord,
) -> Result<Rows, RowsFault>
    ghost text: { List ℕ }
    requires { StandsBehind text [] reader.old }
    ensures rows { IfOk result (λ rows. rows_in text ≡ Ok rows) }
    ensures fault { IfErr result (λ e. e ≢ RowsFault.Memory → rows_in text ≡ Err e) }
{
    read_header(reader, record)?;
    let mut rows = Vec::new(alloc);
    read_behind(reader, record, &mut rows)?;
    Ok(Rows::from_vec(rows))
}

// Reads the rows after the header.
fn read_behind(
    reader: &mut Reader<&[u8]>,
    record: &mut ByteRecord,
    rows: &mut Vec<InRow>,
) -> Result<(), RowsFault>
    ghost text: { List ℕ }
    requires { HasRead text reader.old rows.old.items 1 }
    ensures rows { IfOk result (λ _. (rows_in text ≡ Ok rows.new.items) × AreInRows rows.new.items) }
    ensures fault { IfErr result (λ e. e ≢ RowsFault.Memory → rows_in text ≡ Err e) }
{
    for number in 1..MOST_ROWS + 1 {
        let more = read_next(reader, record, number, rows)?;
        if !more {
            return Ok(());
        }
    }
    let over = next_record(reader, record)?;
    if over {
        return Err(RowsFault::TooMany);
    }
    Ok(())
}

fn read_header(reader: &mut Reader<&[u8]>, record: &mut ByteRecord) -> Result<(), RowsFault>
    ghost text: { List ℕ }
    requires { StandsBehind text [] reader.old }
    ensures header { IfOk result (λ _. HasRead text reader.new [] 1) }
    ensures fault { IfErr result (λ e. e ≢ RowsFault.Memory → rows_in text ≡ Err e) }
{
    let begins = next_record(reader, record)?;
    if !begins {
        return Err(RowsFault::Header);
    }
    if !is_header(record) {
        return Err(RowsFault::Header);
    }
    Ok(())
}

// Reads the row of this number, and returns whether there is one.
fn read_next(
    reader: &mut Reader<&[u8]>,
    record: &mut ByteRecord,
    number: u32,
    rows: &mut Vec<InRow>,
) -> Result<bool, RowsFault>
    ghost text: { List ℕ }
    requires few { number ≤ 65536 }
    requires read { HasRead text reader.old rows.old.items number }
    ensures rows { IfOk result (λ more. MatchBool more (HasRead text reader.new rows.new.items (number + 1))
        ((rows_in text ≡ Ok rows.new.items) × AreInRows rows.new.items)) }
    ensures fault { IfErr result (λ e. e ≢ RowsFault.Memory → rows_in text ≡ Err e) }
{
    let more = next_record(reader, record)?;
    if !more {
        return Ok(false);
    }
    let row = match row_of(record) {
        Ok(row) => row,
        Err(wrong) => return Err(fault_at(number, wrong)),
    };
    rows.push(row)?;
    Ok(true)
}

/// Returns the fault for a row of this number.
pub(crate) fn fault_at(row: u32, wrong: Wrong) -> RowsFault
    ensures { result ≡ fault_at row wrong }
{
    match wrong {
        Wrong::Length => RowsFault::Csv { row },
        Wrong::Column(column) => RowsFault::Field { row, column },
    }
}
