//! Removes all cells of a log.
ghost use Rattle.std.specs.Prelude.{◌≡◌, ◌≢◌, ℕ, List, [], None, Ok, OnOk, OnErr, IfOk, IfErr, MatchResult, is_some};
ghost use Rattle.disk_trait.specs.Drive.{CountsFaults, IsSynced, IsWithin, MadeWell};
ghost use Rattle.disk_trait.specs.Moments.{LeavesOnly};
ghost use Rattle.cell_format.specs.declared.cell.Cell.{Cell};
ghost use Rattle.split_log.specs.LogText.{IsLog, HoldsAllOrNone};
ghost use Rattle.log_compact.specs.Clearing.{Clears, FailsToClear, KeepsOrClears, StopsClearing};

use crate::staging::FIRST;
use disk_trait::{DiskFault, LogDisk};
use split_log::SplitLog;

/// The drive, returned. It failed while its log was cleared.
#[derive(Drop)]
pub struct NotCleared<D: Drop> {
    pub disk: D,
}

/// Removes all cells of a log, so that its file has 17 bytes. A log of no cells takes no device call. Otherwise there
/// are four: the first commit byte is cleared, then what follows it is cut off, and a sync follows each. No device call
/// follows one that failed.
pub fn clear_log<D: LogDisk>(log: SplitLog<D>) -> Result<D, NotCleared<D>>
    requires whole { log.failed ≡ None }

    ensures cleared { IfOk result (λ new. Clears log.cells (D.drive log.disk) (D.drive new)) }
    ensures empty { log.cells ≡ 0 → result ≡ Ok log.disk }
    ensures failed { IfErr result (λ e. FailsToClear (D.drive log.disk) (D.drive e.disk)) }
    ensures any_moment { MatchResult result (λ new. KeepsOrClears (D.drive log.disk) (D.drive new))
        (λ e. KeepsOrClears (D.drive log.disk) (D.drive e.disk)) }
{
    let cells = log.cells();
    let mut disk = log.give_back();
    if cells == 0 {
        return Ok(disk);
    }
    match clear(&mut disk) {
        Ok(()) => Ok(disk),
        Err(_) => Err(NotCleared { disk }),
    }
}

/// The same for a log that has cells.
fn clear<D: LogDisk>(disk: &mut D) -> Result<(), DiskFault>
    requires within { IsWithin (D.drive disk.old) 17 }

    ensures any_moment { (w : ℕ) (cells : List Cell) → cells ≢ [] → IsLog w cells (D.drive disk.old)
        → LeavesOnly (D.drive disk.old) (D.drive disk.new) (HoldsAllOrNone w [] cells) }
    ensures cleared { OnOk result ((w : ℕ) (cells : List Cell) → IsLog w cells (D.drive disk.old) → IsLog w [] (D.drive disk.new)) }
    ensures synced { OnOk result (IsSynced (D.drive disk.new)) }
    ensures calls { OnOk result (MadeWell 4 (D.drive disk.old) (D.drive disk.new)) }
    ensures stopped { OnErr result (StopsClearing (D.drive disk.old) (D.drive disk.new)) }
    ensures told { is_some (D.drive disk.new).bytes ≡ is_some (D.drive disk.old).bytes }
    ensures cause { CountsFaults (D.drive disk.old) (D.drive disk.new) result }
{
    disk.write(FIRST, &[0])?;
    // Sync before the cut. While a crash may leave the commit byte set, the cells after it must stay whole.
    disk.sync()?;
    disk.cut(FIRST + 1)?;
    disk.sync()?;
    Ok(())
}
