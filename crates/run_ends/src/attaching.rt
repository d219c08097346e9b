//! Attaches the file of a log to a drive.
ghost use Rattle.std.specs.Prelude.{IfErr, OnOk};
ghost use Rattle.run_ends.specs.Attaching.{Attaches, RefusesAttach};

use crate::log_faults::attach_refusal;
use crate::refusals::Refusal;
use disk_trait::LogDisk;
use std::alloc::Global;

/// Attaches the file of this name to a drive. If the file isn't there and `make` is true, the file is created.
pub fn attach<D: LogDisk>(
    alloc: Global,
    file: &str,
    make: bool,
    disk: &mut D,
) -> Result<(), Refusal>
    ensures attached { OnOk result (Attaches file.now make (D.drive disk.old) (D.drive disk.new)) }
    ensures refused { IfErr result (RefusesAttach file.now make (D.drive disk.old) (D.drive disk.new)) }
{
    match disk.attach(alloc, file, make) {
        Ok(()) => Ok(()),
        Err(fault) => Err(attach_refusal(fault)),
    }
}
