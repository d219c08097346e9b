//! The drive of a store that has no log.
use disk_trait::{AttachFault, DiskFault, LogDisk};
use std::alloc::Global;

/// The drive of a store in memory. No call returns one, and each call of it fails.
#[derive(Drop)]
pub struct NoDrive {
    _none: (),
}

impl LogDisk for NoDrive {
    ghost use Rattle.std.specs.Prelude.{◌^◌, ◌-◌};
    ghost use Rattle.disk_file.specs.Served.{untold};

    ghost drive = { λ d. untold (2 ^ 64 - 1) };

    ghost keeps_laws = { λ d. record { counts_now = λ t c le now. tt; only_now = λ c since. tt; longer = λ s t c le since. tt; held = λ xs told. tt } };

    fn attach(&mut self, _alloc: Global, _name: &str, _make: bool) -> Result<(), AttachFault> {
        Err(AttachFault::Disk)
    }

    fn len(&mut self) -> Result<u64, DiskFault> {
        Err(DiskFault)
    }

    fn read(&mut self, _at: u64, _into: &mut [u8]) -> Result<usize, DiskFault> {
        Err(DiskFault)
    }

    fn write(&mut self, _at: u64, _piece: &[u8]) -> Result<(), DiskFault> {
        Err(DiskFault)
    }

    fn cut(&mut self, _len: u64) -> Result<(), DiskFault> {
        Err(DiskFault)
    }

    fn sync(&mut self) -> Result<(), DiskFault> {
        Err(DiskFault)
    }
}
