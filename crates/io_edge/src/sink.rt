//! The trait of sinks.
ghost use Rattle.causes.specs.Causes.{Counts};
ghost use Rattle.io_edge.specs.Puts.{Puts};
ghost use Rattle.io_edge.specs.Streams.{Output};

/// A put failed. The sink took a prefix of the piece, which may be empty.
#[derive(Clone, Copy, Debug, PartialEq, Eq)]
pub struct SinkFault;

/// Takes bytes, a piece at a time.
pub trait Sink {
    /// The bytes taken, if they are known, and the number of faults.
    ghost output: { Self → Output };

    /// Takes the whole piece, or a prefix of it if it fails.
    fn put(&mut self, piece: &[u8]) -> Result<(), SinkFault>
        ensures bytes { Puts (output self.old).taken (output self.new).taken piece.now result }
        ensures cause { Counts (output self.old).faults (output self.new).faults result };
}
