//! A sink over a writer of std.
ghost use Rattle.std.specs.Prelude.{◌≡◌};

use crate::sink::{Sink, SinkFault};
use std::io::Write;

/// A writer as a sink. It knows the bytes that its writer knows. A put continues after a short write. Each error counts
/// as a fault, and so does a write that takes no byte. The sink never flushes, so a buffered writer may still hold the
/// bytes.
#[derive(Drop)]
pub struct StdSink<W> {
    writer: W,
    faults: u64,
}

impl<W: Write> StdSink<W> {
    /// Creates a sink that appends to what `writer` already holds.
    pub fn new(writer: W) -> StdSink<W>
        ensures { ⟦<StdSink<W> as Sink>⟧.output result ≡ record { taken = W.contents writer; faults = 0 } }
    {
        StdSink { writer, faults: 0 }
    }
}

impl<W: Write> Sink for StdSink<W> {
    ghost output = { λ s. record { taken = W.contents s.writer; faults = s.faults } };

    fn put(&mut self, piece: &[u8]) -> Result<(), SinkFault> {
        let mut at = 0;
        while at < piece.len() {
            match self.writer.write(&piece[at..]) {
                Ok(0) | Err(_) => {
                    self.faults = self.faults.saturating_add(1);
                    return Err(SinkFault);
                }
                Ok(n) => at += n,
            }
        }
        Ok(())
    }
}
