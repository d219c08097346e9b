//! A source over a reader of std.
ghost use Rattle.std.specs.Prelude.{◌≡◌};

use crate::source::{Source, SourceFault};
use std::io::Read;

/// A reader as a source. It knows the bytes that its reader knows. Each error counts as a fault, and so does a read
/// that a signal interrupts.
#[derive(Drop)]
pub struct StdSource<R> {
    reader: R,
    faults: u64,
}

impl<R: Read> StdSource<R> {
    /// Creates a source that begins where `reader` is now.
    pub fn new(reader: R) -> StdSource<R>
        ensures { ⟦<StdSource<R> as Source>⟧.input result ≡ record { left = R.remaining reader; faults = 0 } }
    {
        StdSource { reader, faults: 0 }
    }
}

impl<R: Read> Source for StdSource<R> {
    ghost input = { λ s. record { left = R.remaining s.reader; faults = s.faults } };

    fn read(&mut self, into: &mut [u8]) -> Result<usize, SourceFault> {
        match self.reader.read(into) {
            Ok(n) => Ok(n),
            Err(_) => {
                self.faults = self.faults.saturating_add(1);
                Err(SourceFault)
            }
        }
    }
}
