//! Writes cells after the clear commit byte of an empty log, and sets that byte at the end.
ghost use Rattle.std.specs.Prelude.{◌≡◌, ◌<◌, ◌≤◌, ◌∷◌, [], ℕ, OnOk, OnErr, is_some, length};
ghost use Rattle.disk_trait.specs.Drive.{CountsFaults, IsWithin};
ghost use Rattle.disk_trait.specs.Moments.{LeavesOnly};
ghost use Rattle.cell_format.specs.Spelling.{newest};
ghost use Rattle.split_log.specs.LogText.{IsLog, HoldsCells, HoldsAllOrNone};
ghost use Rattle.split_log.specs.Commit.{IsUncommitted};
ghost use Rattle.split_log.specs.LogView.{most_cells};
ghost use Rattle.recovery.specs.Calls.{AllWentWell, EndsAtFault};
ghost use Rattle.log_compact.specs.Staging.{IsEmpty};

use crate::cells::FreshCells;
use crate::pieces::{PIECE, fill};
use cell_format::Cell;
use disk_trait::{DiskFault, LogDisk};
use split_log::commit;

/// The place of the first commit byte in a log.
pub(crate) const FIRST: u64 = 16;

/// Writes cells over an empty log. A crash leaves none of them, or all.
pub(crate) fn write_cells<D: LogDisk>(disk: &mut D, mut cells: FreshCells) -> Result<(), DiskFault>
    requires empty { IsEmpty (D.drive disk.old) }
    requires few { length cells ≤ most_cells }

    ensures any_moment { (w : ℕ) → IsLog w [] (D.drive disk.old)
        → LeavesOnly (D.drive disk.old) (D.drive disk.new) (HoldsAllOrNone w [] cells.entry) }
    ensures written { OnOk result ((w : ℕ) → IsLog w [] (D.drive disk.old) → IsLog w cells.entry (D.drive disk.new)) }
    ensures calls { OnOk result (AllWentWell (D.drive disk.old) (D.drive disk.new)) }
    ensures stopped { OnErr result (EndsAtFault (D.drive disk.old) (D.drive disk.new)) }
    ensures told { is_some (D.drive disk.new).bytes ≡ is_some (D.drive disk.old).bytes }
    ensures cause { CountsFaults (D.drive disk.old) (D.drive disk.new) result }
{
    let Some(first) = cells.next() else {
        return Ok(());
    };
    stage(disk, first, cells)?;
    commit(disk, FIRST)
}

/// Writes a cell and the cells after it, following the first commit byte, which stays clear.
fn stage<D: LogDisk>(disk: &mut D, first: Cell, mut cells: FreshCells) -> Result<(), DiskFault>
    requires empty { IsEmpty (D.drive disk.old) }
    requires few { length cells < most_cells }

    ensures alone { (w : ℕ) → IsLog w [] (D.drive disk.old)
        → LeavesOnly (D.drive disk.old) (D.drive disk.new) (HoldsCells newest w []) }
    ensures staged { OnOk result ((w : ℕ) → IsLog w [] (D.drive disk.old)
        → IsUncommitted w 16 [] (first ∷ cells.entry) (D.drive disk.new)) }
    ensures far { OnOk result (IsWithin (D.drive disk.new) 16) }
    ensures calls { OnOk result (AllWentWell (D.drive disk.old) (D.drive disk.new)) }
    ensures stopped { OnErr result (EndsAtFault (D.drive disk.old) (D.drive disk.new)) }
    ensures told { is_some (D.drive disk.new).bytes ≡ is_some (D.drive disk.old).bytes }
    ensures cause { CountsFaults (D.drive disk.old) (D.drive disk.new) result }
{
    let mut piece = [0; PIECE];
    let mut at = FIRST + 1;
    let mut held = Some(first);
    'pieces: while let Some(cell) = held {
        let (filled, next) = fill(&mut piece, cell, &mut cells);
        disk.write(at, &piece[..filled])?;
        at += filled as u64;
        held = next;
    }
    Ok(())
}
