//! The trait of sources.
ghost use Rattle.std.specs.Prelude.{◌≡◌, ◌≤◌, IfOk, length};
ghost use Rattle.std.specs.Io.KnownBytes.{ReadConsumes};
ghost use Rattle.causes.specs.Causes.{Counts};
ghost use Rattle.io_edge.specs.Streams.{Input};

use std::alloc::AllocError;

/// A read failed and took nothing.
#[derive(Clone, Copy, Debug, PartialEq, Eq)]
pub struct SourceFault;

/// Why a read to the end failed. The bytes that were read are lost, and the source keeps the rest.
#[derive(Clone, Copy, Debug, PartialEq, Eq)]
pub enum ReadFault {
    /// A read failed.
    Source,
    /// The source has more bytes than the caller's bound.
    TooLong,
    /// Memory ran out.
    Memory,
}

impl From<AllocError> for ReadFault {
    ghost use Rattle.io_edge.specs.declared.source.ReadFault.TheVariants.{Memory};

    ghost from_gives = { λ _ fault. fault ≡ Memory };

    fn from(_: AllocError) -> ReadFault {
        ReadFault::Memory
    }
}

/// Returns bytes, a piece at a time.
pub trait Source {
    /// The bytes that are left, if they are known, and the number of faults.
    ghost input: { Self → Input };

    /// Fills a prefix of `into` and returns its length. If `into` isn't empty, 0 means the end of input.
    fn read(&mut self, into: &mut [u8]) -> Result<usize, SourceFault>
        ensures bound { IfOk result (λ n. n ≤ length into.old) }
        ensures bytes { ReadConsumes (input self.old).left (input self.new).left result into.new }
        ensures cause { Counts (input self.old).faults (input self.new).faults result };
}
