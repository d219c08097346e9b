//! What ends a run early.
use crate::chain::Broken;
use plain_list::Op;
use sessions::CallFault;
use std::alloc::AllocError;
use std::io;
use store_file::{EitherCause, EndCause, RotateCause};
use thiserror::Error;
use zorder::Memory;

/// Why a run ended early.
#[derive(Debug, Drop, Error)]
pub enum Trouble {
    #[error("out of memory")]
    Memory,
    #[error("two files are wanted")]
    Words,
    #[error("the store isn't opened: {0}")]
    Open(EitherCause),
    #[error("the files have {points} objects, and should have none")]
    InUse { points: u64 },
    #[error("a call was refused: {0}")]
    Refused(#[from] CallFault),
    #[error("the store wasn't rotated: {0}")]
    NotRotated(RotateCause),
    #[error("the store wasn't rotated: the drive of the second file failed")]
    SpareFailed,
    #[error("the store was rotated, but the first file wasn't emptied: its drive failed")]
    NotEmptied,
    #[error("the store was rotated, but there was no memory to go on")]
    NoLock,
    #[error("the store wasn't rotated: {0}")]
    Ended(EndCause),
    #[error("call {place}, {op:?}, wasn't told what it should be")]
    Answer { place: u64, op: Op },
    #[error("nobody was told of call {place} of the history")]
    Nobody { place: u64 },
    #[error("the view after call {should} is one after call {found}")]
    Place { found: u64, should: u64 },
    #[error("the store has {found} objects, and should have {should}")]
    Number { found: u64, should: u64 },
    #[error("the view after {calls} calls isn't as the objects were then")]
    View { calls: u64 },
    #[error("object {id} isn't found where it should be")]
    Object { id: u64 },
    #[error("thread {session}: {broken}")]
    Chain { session: u8, broken: Broken },
    #[error("{0}")]
    Output(#[from] io::Error),
}

impl From<Memory> for Trouble {
    fn from(_: Memory) -> Trouble {
        Trouble::Memory
    }
}

impl From<AllocError> for Trouble {
    fn from(_: AllocError) -> Trouble {
        Trouble::Memory
    }
}
