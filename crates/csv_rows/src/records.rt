//! The records of a text, one after the other, as `csv` reads them.
ghost use Rattle.std.specs.Prelude.{◌≡◌, [], true, IfOk, IfErr};
ghost use Rattle.csv.specs.Reading.{Ready, is_flexible, reader_source};
ghost use Rattle.csv.specs.Records.{fields_of};
ghost use Rattle.csv_rows.specs.Records.{StandsBehind, TakesRecord};

use crate::rows::RowsFault;
use csv::{ByteRecord, ErrorKind, Reader, ReaderBuilder};
use std::alloc::Global;

/// Creates a reader for the records of a text. Records may have any number of fields.
pub(crate) fn reader_of(alloc: Global, text: &[u8]) -> Reader<&[u8]>
    ensures start { StandsBehind text.now [] result }
    ensures source { (reader_source result).now ≡ text.now }
{
    ReaderBuilder::new()
        .has_headers(false)
        .flexible(true)
        .from_reader(alloc, text)
}

/// Reads the next record, and returns whether there is one. It fails only if memory runs out.
pub(crate) fn next_record(
    reader: &mut Reader<&[u8]>,
    record: &mut ByteRecord,
) -> Result<bool, RowsFault>
    requires ready { Ready reader.old }
    requires flexible { is_flexible reader.old ≡ true }
    ensures found { IfOk result (λ found. TakesRecord reader.old reader.new found (fields_of record.new)) }
    ensures fault { IfErr result (λ e. e ≡ RowsFault.Memory) }
{
    match reader.read_byte_record(record) {
        Ok(found) => Ok(found),
        Err(error) => match error.kind() {
            ErrorKind::UnequalLengths { .. } => unreachable!(),
            // Of the other kinds of errors, only the one for memory occurs. It has no allocator's error to pass on.
            _ => Err(RowsFault::Memory),
        },
    }
}
