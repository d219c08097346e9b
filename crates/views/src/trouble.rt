//! What ends a run early.
use sessions::CallFault;
use std::alloc::AllocError;
use std::io;
use thiserror::Error;
use zorder::Memory;

/// Why a run ended early.
#[derive(Debug, Drop, Error)]
pub enum Trouble {
    #[error("out of memory")]
    Memory,
    #[error("a call was refused: {0}")]
    Refused(#[from] CallFault),
    #[error("{0}")]
    Output(#[from] io::Error),
}

impl From<Memory> for Trouble {
    fn from(_: Memory) -> Trouble {
        Trouble::Memory
    }
}

impl From<AllocError> for Trouble {
    fn from(_: AllocError) -> Trouble {
        Trouble::Memory
    }
}
