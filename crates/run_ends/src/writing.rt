//! The status after a run's lines.
ghost use Rattle.std.specs.Prelude.{◌≡◌};
ghost use Rattle.run_ends.specs.Status.{written_status};

use io_edge::SinkFault;

/// The status of a run after it tried to write its lines: 0, or 6 if the sink failed.
pub fn written(wrote: Result<(), SinkFault>) -> u8
    ensures { result ≡ written_status wrote }
{
    match wrote {
        Ok(()) => 0,
        Err(SinkFault) => 6,
    }
}
