//! The command `init`: makes a log in a file.
ghost use Rattle.std.specs.Prelude.{◌≡◌, ◌≢◌, true, IfOk, IfErr, MatchResult};
ghost use Rattle.disk_trait.specs.Drive.{AttachedOne};
ghost use Rattle.recovery.specs.Making.{Makes};
ghost use Rattle.zorder.specs.Width.{IsWidth};
ghost use Rattle.run_ends.specs.Ends.{written_by};
ghost use Rattle.run_ends.specs.Status.{status_of};
ghost use Rattle.run_ends.specs.Attaching.{AttachesOnce};
ghost use Rattle.log_run.specs.Making.{IsMakingCause, LeavesFile, MakesLog, making_refusal};

use disk_trait::LogDisk;
use io_edge::Sink;
use recovery::{InitFault, InitRefused, init};
use run_ends::{
    Drives, Ended, Refusal, Unmade, attach, refuse_on, without_rows, write_made, written,
};
use std::alloc::Global;

/// Makes a log of this width in the file of this name, and writes its line. `width` is 1 or 2.
pub fn make_log<K: Sink, D: LogDisk>(
    alloc: Global,
    file: &str,
    width: u8,
    sink: &mut K,
    drives: Drives<D>,
) -> Ended<D>
    requires { IsWidth width }
    ensures { MakesLog file.now width (written_by K.output D.drive sink.old drives sink.new result) }
{
    let Drives { disk, other } = drives;
    match make_in(alloc, file, width, disk) {
        Ok(disk) => {
            let status = written(write_made(sink));
            without_rows(alloc, status, Drives { disk, other })
        }
        Err(Unmade { disk, why }) => refuse_on(alloc, &why, sink, Drives { disk, other }),
    }
}

fn make_in<D: LogDisk>(alloc: Global, file: &str, width: u8, mut disk: D) -> Result<D, Unmade<D>>
    requires { IsWidth width }
    ensures made { IfOk result (λ new. Makes width (D.drive disk) (D.drive new)) }
    ensures cause { IfErr result (λ e. IsMakingCause (D.drive disk) (D.drive e.disk) e.why) }
    ensures attached { MatchResult result (λ new. AttachedOne file.now true (D.drive disk) (D.drive new))
        (λ e. AttachesOnce file.now true (D.drive disk) (D.drive e.disk) (status_of e.why)) }
    ensures calm { IfErr result (λ e. status_of e.why ≢ 7 → (D.drive e.disk).faults ≡ (D.drive disk).faults) }
    ensures leaves { MatchResult result (λ new. LeavesFile (D.drive disk) (D.drive new)) (λ e. LeavesFile (D.drive disk) (D.drive e.disk)) }
{
    if let Err(why) = attach(alloc, file, true, &mut disk) {
        return Err(Unmade { disk, why });
    }
    match init(disk, width) {
        Ok(disk) => Ok(disk),
        Err(InitRefused { disk, cause }) => {
            let why = making_refusal(cause);
            Err(Unmade { disk, why })
        }
    }
}

fn making_refusal(fault: InitFault) -> Refusal
    ensures { result ≡ making_refusal fault }
{
    match fault {
        InitFault::InUse { len } => Refusal::InUse { len },
        InitFault::Disk => Refusal::Disk { cell: None },
    }
}
