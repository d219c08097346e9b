//! Reads the rows of a source, or says why there is nothing to play.
ghost use Rattle.std.specs.Prelude.{◌≡◌, ◌≢◌, ◌≤◌, ◌+◌, Ok, Err, IfOk, IfErr, length};
ghost use Rattle.io_edge.specs.Reads.{ConsumesUpTo};
ghost use Rattle.run_ends.specs.Limits.{most_bytes};
ghost use Rattle.run_ends.specs.Judged.{judged, refusal_of};
ghost use Rattle.run_ends.specs.Inputs.{IsInputCause, ReadsInput};
ghost use Rattle.run_ends.specs.Tables.{HasBytes, IsBytesCause};

use crate::limits::MOST_BYTES;
use crate::refusals::Refusal;
use csv_rows::{Rows, RowsFault, read_rows};
use io_edge::{ReadFault, Source, read_all};
use std::alloc::Global;

/// Reads all bytes of the source, at most 16 MiB. A failed source is refused before a long input.
pub fn read_bytes<S: Source>(alloc: Global, source: &mut S) -> Result<Vec<u8>, Refusal>
    ensures bytes { IfOk result (λ bytes. HasBytes (S.input source.old) (S.input source.new) bytes.items) }
    ensures cause { IfErr result (IsBytesCause (S.input source.old) (S.input source.new)) }
    ensures calm { IfErr result (λ why. why ≢ Refusal.Source → (S.input source.new).faults ≡ (S.input source.old).faults) }
    ensures taken { ConsumesUpTo (most_bytes + 1) (S.input source.old).left (S.input source.new).left }
{
    match read_all(alloc, source, MOST_BYTES) {
        Ok(bytes) => Ok(bytes),
        Err(ReadFault::Source) => Err(Refusal::Source),
        Err(ReadFault::TooLong) => Err(Refusal::LongInput),
        Err(ReadFault::Memory) => Err(Refusal::Memory),
    }
}

/// Reads the rows of the source. A failed source is refused first, then a long input, then what is wrong with the rows.
pub fn read_judged<S: Source>(alloc: Global, source: &mut S) -> Result<Rows, Refusal>
    ensures rows { IfOk result (ReadsInput (S.input source.old) (S.input source.new)) }
    ensures cause { IfErr result (IsInputCause (S.input source.old) (S.input source.new)) }
    ensures calm { IfErr result (λ why. why ≢ Refusal.Source → (S.input source.new).faults ≡ (S.input source.old).faults) }
    ensures taken { ConsumesUpTo (most_bytes + 1) (S.input source.old).left (S.input source.new).left }
{
    match read_bytes(alloc, source) {
        Ok(bytes) => judge(alloc, bytes.as_slice()),
        Err(why) => Err(why),
    }
}

// The rows of an input of at most 16 MiB.
fn judge(alloc: Global, bytes: &[u8]) -> Result<Rows, Refusal>
    requires { length bytes.now ≤ most_bytes }
    ensures rows { IfOk result (λ rows. judged bytes.now ≡ Ok rows) }
    ensures cause { IfErr result (λ why. why ≢ Refusal.Memory → judged bytes.now ≡ Err why) }
{
    read_rows(alloc, bytes).map_err(refusal_of)
}

/// The refusal for a fault of a table's text.
pub fn refusal_of(fault: RowsFault) -> Refusal
    ensures { result ≡ refusal_of fault }
{
    match fault {
        RowsFault::Header => Refusal::Header,
        RowsFault::Csv { row } => Refusal::Csv { row },
        RowsFault::Field { row, column } => Refusal::Field { row, column },
        RowsFault::TooMany => Refusal::ManyRows,
        RowsFault::Memory => Refusal::Memory,
    }
}
