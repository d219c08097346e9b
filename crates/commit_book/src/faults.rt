//! Why a book did nothing, or closed.
ghost use Rattle.std.specs.Prelude.{◌≡◌};

use std::alloc::AllocError;
use thiserror::Error;
use zorder::Memory;

/// Why a call of a book did nothing. After each fault except `Disk` the book is unchanged. A book without a log never
/// returns `Closed`, `Disk` or `LogFull`.
#[derive(Clone, Copy, Debug, PartialEq, Eq, Error)]
pub enum BookFault {
    /// An earlier call returned `Disk` for this record.
    #[error("the append of record {cell} has failed")]
    Closed {
        /// The first record of the append that failed, counted from 0.
        cell: u64,
    },
    /// The drive failed during an append: of a record, of a batch, or of records that waited for a sync. From now on the
    /// book is closed. Its last entry has the lost step. After a batch there is such an entry for each change of the batch.
    #[error("the drive failed at record {cell}")]
    Disk {
        /// The first record of the append, counted from 0, which is the first one that the file may lack. The file has all
        /// records of the append or none: those that waited, and then that of the step or those of the batch.
        cell: u64,
    },
    /// The history has as many entries as it may have, or would have more after the batch: 4,194,304 if the book keeps the
    /// list of its entries, and else 2^60.
    #[error("the history is full")]
    HistoryFull,
    /// The log has 16,777,216 records, and the step needs one. Or it has no room for one record for each put, move and
    /// removal of a batch.
    #[error("the log is full")]
    LogFull,
    /// Memory ran out. The log was not written.
    #[error("out of memory")]
    Memory,
    /// The log has more than 16,000,000 records, or the history is near its most entries: it has more than 4,000,000, or
    /// 2^60 less 194,304 if the book doesn't keep their list. So no split begins.
    #[error("no room for a split: the log has {cells} records, and the history has {events} entries")]
    Room {
        /// How many records the log has: 0 without a log.
        cells: u64,
        /// How many entries the history has.
        events: u64,
    },
    /// The leaf has an open split.
    #[error("split {number} of the leaf is open")]
    Splitting {
        /// The number of that split.
        number: u64,
    },
    /// The leaf's name has too few bits left for its children's names.
    #[error("the leaf's name has too few bits left for children")]
    Deep,
    /// No leaf has this name.
    #[error("no leaf has the name")]
    NoLeaf,
    /// The split that was prepared is no longer open, or its parts were cut out of other rows than the leaf's base.
    #[error("split {number} is no longer open, or its leaf has another base")]
    Stale {
        /// The number of the prepared split.
        number: u64,
    },
    /// No open split has the number.
    #[error("split {number} is not open")]
    NotOpen {
        /// The number that the caller passed.
        number: u64,
    },
}

/// Why a fresh log did not replace the log of a book. The book is unchanged.
#[derive(Clone, Copy, Debug, PartialEq, Eq, Error)]
pub enum MoveFault {
    /// An earlier call returned `Disk` for this record.
    #[error("the append of record {cell} has failed")]
    Closed {
        /// The first record of the append that failed, counted from 0.
        cell: u64,
    },
    /// A split is open.
    #[error("split {number} is open")]
    Splitting {
        /// The number of the split that began first of those that are open.
        number: u64,
    },
    /// More splits have begun in the fresh log than in the book, so its numbers of splits are no continuation.
    #[error("{begun} splits have begun in the fresh log, more than in the book")]
    Ahead {
        /// How many splits have begun in the fresh log.
        begun: u64,
    },
}

impl From<AllocError> for BookFault {
    ghost use Rattle.commit_book.specs.declared.faults.BookFault.TheVariants.{Memory};

    ghost from_gives = { λ _ fault. fault ≡ Memory };

    fn from(_: AllocError) -> BookFault {
        BookFault::Memory
    }
}

impl From<Memory> for BookFault {
    ghost use Rattle.commit_book.specs.declared.faults.BookFault.TheVariants.{Memory};

    ghost from_gives = { λ _ fault. fault ≡ Memory };

    fn from(_: Memory) -> BookFault {
        BookFault::Memory
    }
}
