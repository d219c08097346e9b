//! Why a run of the program was refused.
ghost use Rattle.std.specs.Prelude.{◌≡◌};

use cell_format::Cause;
use zorder::Memory;

/// Why a run of the program was refused. Each refusal has one line and one exit status.
#[derive(Clone, Copy, Debug, PartialEq, Eq)]
pub enum Refusal {
    /// The words are no command.
    Usage,
    /// The input doesn't begin with the header line of its table.
    Header,
    /// The record in this row has too few fields or too many.
    Csv { row: u32 },
    /// This column, counted from 1, is the leftmost of its row that breaks its rule.
    Field { row: u32, column: u8 },
    /// The file doesn't begin as a log does.
    NotLog,
    /// The log has a version or a width that this command doesn't take.
    OldLog { version: u8, width: u8 },
    /// This record, counted from 0, is the first whose bytes are no legal record at its place.
    Damaged { cell: u64, cause: Cause },
    /// A read of the source failed.
    Source,
    /// A call of the drive failed. If it was an append, `cell` is the record that was not appended, counted from 0.
    Disk { cell: Option<u64> },
    /// The source has more than 16,777,216 bytes.
    LongInput,
    /// The input has more rows than its table may have.
    ManyRows,
    /// The log has more records than this command reads.
    LongLog,
    /// The log has more crossings of fences than the command keeps.
    LongEvents,
    /// Memory ran out.
    Memory,
    /// The file for a new log is in use: it has `len` bytes, which is more than 17.
    InUse { len: u64 },
    /// This record of a copy, counted from 0, is the first that differs from the leader's.
    Strange { cell: u64 },
}

impl From<Memory> for Refusal {
    ghost use Rattle.run_ends.specs.declared.refusals.Refusal.TheVariants as refusal;

    ghost from_gives = { λ _ r. r ≡ refusal.Memory };

    fn from(_: Memory) -> Refusal {
        Refusal::Memory
    }
}
