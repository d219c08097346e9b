//! The three device calls that commit cells.
ghost use Rattle.std.specs.Prelude.{◌≡◌, ◌+◌, ◌≤◌, ◌^◌, ◌++◌, ℕ, List, OnOk, OnErr, is_some};
ghost use Rattle.disk_trait.specs.Drive.{IsWithin, CountsFaults, MadeWell};
ghost use Rattle.disk_trait.specs.Moments.{LeavesOnly};
ghost use Rattle.cell_format.specs.declared.cell.Cell.{Cell};
ghost use Rattle.split_log.specs.LogText.{IsLog, HoldsAllOrNone};
ghost use Rattle.split_log.specs.Commit.{IsUncommitted, StopsCommit};

use disk_trait::{DiskFault, LogDisk};

/// Commits the cells that were written after the clear commit byte at `at`. It makes three device calls: a sync, a
/// write of that byte, and a sync. No device call follows one that failed.
pub fn commit<D: LogDisk>(disk: &mut D, at: u64) -> Result<(), DiskFault>
    requires within { IsWithin (D.drive disk.old) at }
    requires small { at + 1 ≤ 2 ^ 40 }

    ensures any_moment { (w : ℕ) (cells more : List Cell) → IsUncommitted w at cells more (D.drive disk.old)
        → LeavesOnly (D.drive disk.old) (D.drive disk.new) (HoldsAllOrNone w cells more) }
    ensures committed { OnOk result ((w : ℕ) (cells more : List Cell) → IsUncommitted w at cells more (D.drive disk.old)
        → IsLog w (cells ++ more) (D.drive disk.new)) }
    ensures calls { OnOk result (MadeWell 3 (D.drive disk.old) (D.drive disk.new)) }
    ensures stopped { OnErr result (StopsCommit at (D.drive disk.old) (D.drive disk.new)) }
    ensures told { is_some (D.drive disk.new).bytes ≡ is_some (D.drive disk.old).bytes }
    ensures cause { CountsFaults (D.drive disk.old) (D.drive disk.new) result }
{
    // Sync first. A crash may set the commit byte early, and then whatever follows the byte would count as cells.
    disk.sync()?;
    disk.write(at, &[1])?;
    // Sync before the answer. Until then a crash may leave the byte clear.
    disk.sync()?;
    Ok(())
}
