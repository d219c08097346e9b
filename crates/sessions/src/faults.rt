//! Why a call of a store is refused, and how a split ends.
ghost use Rattle.std.specs.Prelude.{◌≡◌};
ghost use Rattle.sessions.specs.Calls.{IsCallFault, call_fault};
ghost use Rattle.sessions.specs.Splits.{IsLasting};
ghost use Rattle.sessions.specs.Settles.{IsNoRoom};
ghost use Rattle.sessions.specs.Steps.{has_entry};

use commit_book::BookFault;
use thiserror::Error;

/// Why a call is refused.
#[derive(Clone, Copy, Debug, PartialEq, Eq, Error)]
pub enum CallFault {
    /// An earlier append failed at this cell. The store takes no more calls.
    #[error("the append of record {cell} has failed")]
    Closed { cell: u64 },
    /// The append of this cell failed in this call. The store is closed.
    #[error("the drive failed in the append of record {cell}")]
    Disk { cell: u64 },
    /// The history has no room for the call's entries.
    #[error("the history is full")]
    HistoryFull,
    /// The log has no room, and the call would be a change.
    #[error("the log is full")]
    LogFull,
    /// Memory ran out. If there is a place, the history has the query's entry there, and only its answer is missing.
    #[error("out of memory")]
    Memory { place: Option<u64> },
}

/// How a split ended.
#[derive(Clone, Copy, Debug, PartialEq, Eq)]
pub enum Split {
    /// The leaf's children have replaced it.
    Installed { number: u64 },
    /// The leaf is unchanged.
    NotSplit(BookFault),
}

/// Why `settle` stopped.
#[derive(Clone, Copy, Debug, PartialEq, Eq)]
pub enum Settled {
    /// No leaf is too large and free to be split.
    Small,
    /// There are too many cells or entries for one more split.
    Room,
}

/// What a call returns for a fault of the book.
pub(crate) fn call_fault(fault: BookFault) -> CallFault
    requires { IsCallFault fault }
    ensures { result ≡ call_fault fault }
{
    match fault {
        BookFault::Closed { cell } => CallFault::Closed { cell },
        BookFault::Disk { cell } => CallFault::Disk { cell },
        BookFault::HistoryFull => CallFault::HistoryFull,
        BookFault::LogFull => CallFault::LogFull,
        BookFault::Memory => CallFault::Memory { place: None },
        _ => unreachable!(),
    }
}

/// Returns the fault, which is not a lack of memory.
pub(crate) fn lasting(fault: BookFault) -> BookFault
    requires { IsLasting fault }
    ensures fault { result ≡ fault }
    ensures lasting { IsLasting fault }
{
    fault
}

/// Returns the fault, which is not too little room for a split.
pub(crate) fn settle_fault(fault: BookFault) -> BookFault
    requires { IsNoRoom fault }
    ensures fault { result ≡ fault }
    ensures roomy { IsNoRoom fault }
{
    fault
}

/// Whether a step of a book has added an entry: it was done, or its append failed.
pub(crate) fn has_entry<T>(answer: &Result<T, BookFault>) -> bool
    ensures { result ≡ has_entry answer.now }
{
    match answer {
        Ok(_) => true,
        Err(fault) => matches!(fault, BookFault::Disk { .. }),
    }
}
