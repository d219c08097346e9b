//! The refusals for faults of a log.
ghost use Rattle.std.specs.Prelude.{◌≡◌};
ghost use Rattle.run_ends.specs.LogFaults.{attach_refusal, log_refusal};

use crate::refusals::Refusal;
use disk_trait::AttachFault;
use recovery::OpenFault;

/// The drive, returned with the reason why there is no log on it.
#[derive(Drop)]
pub struct Unmade<D: Drop> {
    pub disk: D,
    pub why: Refusal,
}

/// The refusal of a fault of an attach.
pub(crate) fn attach_refusal(fault: AttachFault) -> Refusal
    ensures { result ≡ attach_refusal fault }
{
    match fault {
        AttachFault::Disk => Refusal::Disk { cell: None },
        AttachFault::Memory => Refusal::Memory,
    }
}

/// The refusal of a fault of a log.
pub fn log_refusal(fault: OpenFault) -> Refusal
    ensures { result ≡ log_refusal fault }
{
    match fault {
        OpenFault::NotLog => Refusal::NotLog,
        OpenFault::OldLog { version, width } => Refusal::OldLog { version, width },
        OpenFault::Damaged { cell, cause } => Refusal::Damaged { cell, cause },
        OpenFault::Disk => Refusal::Disk { cell: None },
        OpenFault::Memory => Refusal::Memory,
        OpenFault::TooLong { most: _ } => Refusal::LongLog,
    }
}
