//! What ends a run early.
use pisrakun::{BookFault, CallFault, NotAdded, NotInMemory, OpenCause, SyncCause};
use std::alloc::AllocError;
use std::io;
use thiserror::Error;

/// Why a run ended early.
#[derive(Debug, Drop, Error)]
pub enum Trouble {
    #[error("out of memory")]
    Memory,
    #[error("no store was opened: {0}")]
    Open(OpenCause),
    #[error("the file has a log with records")]
    InUse,
    #[error("a call was refused: {0}")]
    Refused(#[from] CallFault),
    #[error("a sync was refused")]
    NotSynced(BookFault),
    #[error("not all records are in the file: {0}")]
    Unsynced(SyncCause),
    #[error("a batch was refused: {0}")]
    NotAdded(#[from] NotAdded),
    #[error("no store was made: {0}")]
    NotInMemory(#[from] NotInMemory),
    #[error("{0}")]
    Output(#[from] io::Error),
}

impl From<BookFault> for Trouble {
    fn from(fault: BookFault) -> Trouble {
        Trouble::NotSynced(fault)
    }
}

impl From<AllocError> for Trouble {
    fn from(_: AllocError) -> Trouble {
        Trouble::Memory
    }
}
