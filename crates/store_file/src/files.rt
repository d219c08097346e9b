//! Opens the log in a file, and creates it if there is none.
ghost use Rattle.std.specs.Prelude.{◌≡◌, ◌⊎◌, ◌<◌, None, IfOk, IfErr};
ghost use Rattle.std.specs.Result.{IsErrAnd};
ghost use Rattle.zorder.specs.Width.{IsWidth};
ghost use Rattle.recovery.specs.declared.seen.OpenFault.{OpenFault};
ghost use Rattle.store_file.specs.Files.{ReadiesLog, OpensFile, CanOpen, ShowsFault};
ghost use Rattle.store_file.specs.Refused.{NotOpens, IsFreeCause};

use crate::faults::{NotOpened, OpenCause, attach_cause, open_cause};
use disk_trait::LogDisk;
use recovery::{InitFault, InitRefused, OpenRefused, Opened, init, open};
use split_log::MOST_CELLS;
use std::alloc::Global;

/// Opens the log of this width in a file. The file is created if it doesn't exist, and the log if the file has at most
/// 17 bytes.
pub(crate) fn open_file<D: LogDisk>(
    alloc: Global,
    disk: D,
    file: &str,
    width: u8,
) -> Result<Opened<D>, NotOpened<D>>
    requires { IsWidth width }

    ensures opened { IfOk result (λ o. OpensFile width file.now (D.drive disk) (D.drive o.start.value) (D.drive o.log.disk) o.seen) }
    ensures log { IfOk result (λ o. (o.log.cells ≡ o.seen.cells) × (o.log.failed ≡ None)) }
    ensures refused { IfErr result (λ e. NotOpens width file.now (D.drive disk) (D.drive e.disk) e.cause) }
    ensures exact { (fault : OpenFault) → ShowsFault width (D.drive disk) fault
        → IsErrAnd result (λ e. (e.cause ≡ OpenCause.Log fault) ⊎ IsFreeCause (D.drive disk) (D.drive e.disk) e.cause) }
    ensures whole { CanOpen width (D.drive disk) → IfErr result (λ e. IsFreeCause (D.drive disk) (D.drive e.disk) e.cause) }
{
    let disk = ready_log(alloc, disk, file, width)?;
    match open(alloc, disk, width, MOST_CELLS) {
        Ok(opened) => Ok(opened),
        Err(OpenRefused { disk, cause }) => Err(NotOpened {
            disk,
            cause: open_cause(cause),
        }),
    }
}

// Attaches a file, and creates a log in it if it has at most 17 bytes.
fn ready_log<D: LogDisk>(
    alloc: Global,
    mut disk: D,
    file: &str,
    width: u8,
) -> Result<D, NotOpened<D>>
    requires { IsWidth width }

    ensures ready { IfOk result (λ new. ReadiesLog width file.now (D.drive disk) (D.drive new)) }
    ensures refused { IfErr result (λ e. NotOpens width file.now (D.drive disk) (D.drive e.disk) e.cause) }
    ensures free { IfErr result (λ e. IsFreeCause (D.drive disk) (D.drive e.disk) e.cause) }
{
    if let Err(fault) = disk.attach(alloc, file, true) {
        return Err(NotOpened {
            disk,
            cause: attach_cause(fault),
        });
    }
    match init(disk, width) {
        Ok(disk) => Ok(disk),
        Err(InitRefused { disk, cause }) => match cause {
            InitFault::InUse { .. } => Ok(disk),
            InitFault::Disk => Err(NotOpened {
                disk,
                cause: OpenCause::Disk,
            }),
        },
    }
}
