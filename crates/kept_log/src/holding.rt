//! Appends to the file of a log, and cells that wait for one.
ghost use Rattle.std.specs.Prelude.{◌≡◌, ◌≤◌, ◌<◌, ◌+◌, ◌⊎◌, ◌∷◌, [], ◌++◌, ℕ, List, None, length, OnOk, IfErr};
ghost use Rattle.disk_trait.specs.Moments.{LeavesOnly};
ghost use Rattle.cell_format.specs.declared.cell.Cell.{Cell};
ghost use Rattle.split_log.specs.LogText.{IsLog, HoldsAllOrNone};
ghost use Rattle.split_log.specs.LogView.{most_cells};
ghost use Rattle.split_log.specs.Waiting.{most_waiting};
ghost use Rattle.kept_log.specs.Holding.{FileAdds, FileFails, AllFailed, HeldOrAdded};

use crate::faults::{AppendAllLost, AppendLost};
use cell_format::Cell;
use disk_trait::LogDisk;
use split_log::{AppendAllFault, AppendFault, MOST_WAITING, SplitLog, Waiting};
use std::alloc::Global;

/// Adds a cell to the file.
pub(crate) fn append_now<D: LogDisk>(log: &mut SplitLog<D>, cell: &Cell) -> Result<(), AppendLost>
    requires open { log.old.failed ≡ None }
    requires room { log.old.cells < most_cells }

    ensures any_moment { (w : ℕ) (cells : List Cell) → IsLog w cells (D.drive log.old.disk)
        → LeavesOnly (D.drive log.old.disk) (D.drive log.new.disk) (HoldsAllOrNone w cells (cell.now ∷ [])) }
    ensures ok { OnOk result (FileAdds D.drive (cell.now ∷ []) log.old log.new) }
    ensures lost { IfErr result (λ e. FileFails D.drive (cell.now ∷ []) e.cell log.old log.new) }
    ensures later { (D.drive log.old.disk).faults ≤ (D.drive log.new.disk).faults }
{
    match log.append(cell) {
        Ok(()) => Ok(()),
        Err(AppendFault::Disk { cell: number }) => Err(AppendLost { cell: number }),
        Err(AppendFault::LogFull) => unreachable!(),
    }
}

/// Adds a batch of cells to the file.
pub(crate) fn append_all_now<D: LogDisk>(
    log: &mut SplitLog<D>,
    alloc: Global,
    cells: &[Cell],
) -> Result<(), AppendAllLost>
    requires open { log.old.failed ≡ None }
    requires room { log.old.cells + length cells.now ≤ most_cells }

    ensures any_moment { (w : ℕ) (before : List Cell) → IsLog w before (D.drive log.old.disk)
        → LeavesOnly (D.drive log.old.disk) (D.drive log.new.disk) (HoldsAllOrNone w before cells.now) }
    ensures ok { OnOk result (FileAdds D.drive cells.now log.old log.new) }
    ensures lost { IfErr result (λ e. AllFailed D.drive cells.now e log.old log.new) }
    ensures later { (D.drive log.old.disk).faults ≤ (D.drive log.new.disk).faults }
{
    match log.append_all(alloc, cells) {
        Ok(()) => Ok(()),
        Err(AppendAllFault::Disk { cell: number }) => Err(AppendAllLost::Disk { cell: number }),
        Err(AppendAllFault::Memory) => Err(AppendAllLost::Memory),
        Err(AppendAllFault::LogFull) => unreachable!(),
    }
}

/// Adds cells that waited to the file.
pub(crate) fn write<D: LogDisk>(log: &mut SplitLog<D>, waiting: &Waiting) -> Result<(), AppendLost>
    requires open { log.old.failed ≡ None }
    requires room { log.old.cells + length waiting.now ≤ most_cells }

    ensures any_moment { (w : ℕ) (before : List Cell) → IsLog w before (D.drive log.old.disk)
        → LeavesOnly (D.drive log.old.disk) (D.drive log.new.disk) (HoldsAllOrNone w before waiting.now) }
    ensures ok { OnOk result (FileAdds D.drive waiting.now log.old log.new) }
    ensures lost { IfErr result (λ e. FileFails D.drive waiting.now e.cell log.old log.new) }
    ensures later { (D.drive log.old.disk).faults ≤ (D.drive log.new.disk).faults }
{
    match log.append_waiting(waiting) {
        Ok(()) => Ok(()),
        Err(AppendFault::Disk { cell: number }) => Err(AppendLost { cell: number }),
        Err(AppendFault::LogFull) => unreachable!(),
    }
}

/// Lets a cell wait. If as many wait as may, it and all of them are added to the file.
pub(crate) fn hold<D: LogDisk>(
    log: &mut SplitLog<D>,
    waiting: &mut Waiting,
    cell: &Cell,
) -> Result<(), AppendLost>
    requires open { log.old.failed ≡ None }
    requires few { length waiting.old ≤ most_waiting }
    requires room { log.old.cells + length waiting.old < most_cells }

    ensures any_moment { (w : ℕ) (before : List Cell) → IsLog w before (D.drive log.old.disk)
        → LeavesOnly (D.drive log.old.disk) (D.drive log.new.disk) (HoldsAllOrNone w before (waiting.old ++ cell.now ∷ [])) }
    ensures ok { OnOk result (HeldOrAdded D.drive (waiting.old ++ cell.now ∷ []) waiting.new log.old log.new) }
    ensures lost { IfErr result (λ e. FileFails D.drive (waiting.old ++ cell.now ∷ []) e.cell log.old log.new
        × (waiting.new ≡ waiting.old)) }
    ensures later { (D.drive log.old.disk).faults ≤ (D.drive log.new.disk).faults }
    ensures few { length waiting.new ≤ most_waiting }
{
    let before = waiting.len();
    waiting.push(cell);
    if before < MOST_WAITING {
        return Ok(());
    }
    let written = write(log, waiting);
    waiting.truncate(if written.is_ok() { 0 } else { before });
    written
}

/// Lets a batch of cells wait. If more would wait than may, they and all that wait are added to the file.
pub(crate) fn hold_all<D: LogDisk>(
    log: &mut SplitLog<D>,
    waiting: &mut Waiting,
    alloc: Global,
    cells: &[Cell],
) -> Result<(), AppendAllLost>
    requires open { log.old.failed ≡ None }
    requires few { length waiting.old ≤ most_waiting }
    requires room { log.old.cells + length waiting.old + length cells.now ≤ most_cells }

    ensures any_moment { (w : ℕ) (before : List Cell) → IsLog w before (D.drive log.old.disk)
        → LeavesOnly (D.drive log.old.disk) (D.drive log.new.disk) (HoldsAllOrNone w before (waiting.old ++ cells.now)) }
    ensures ok { OnOk result (HeldOrAdded D.drive (waiting.old ++ cells.now) waiting.new log.old log.new) }
    ensures lost { IfErr result (λ e. AllFailed D.drive (waiting.old ++ cells.now) e log.old log.new × (waiting.new ≡ waiting.old)) }
    ensures later { (D.drive log.old.disk).faults ≤ (D.drive log.new.disk).faults }
    ensures few { length waiting.new ≤ most_waiting }
{
    if cells.len() <= MOST_WAITING - waiting.len() {
        push_all(waiting, cells);
        return Ok(());
    }
    let Ok(all) = waiting.with(alloc, cells) else {
        return Err(AppendAllLost::Memory);
    };
    if let Err(lost) = write(log, &all) {
        return Err(AppendAllLost::Disk { cell: lost.cell });
    }
    waiting.truncate(0);
    Ok(())
}

/// Adds all cells that wait to the file.
pub(crate) fn release<D: LogDisk>(
    log: &mut SplitLog<D>,
    waiting: &mut Waiting,
) -> Result<(), AppendLost>
    requires open { log.old.failed ≡ None }
    requires room { log.old.cells + length waiting.old ≤ most_cells }

    ensures any_moment { (w : ℕ) (before : List Cell) → IsLog w before (D.drive log.old.disk)
        → LeavesOnly (D.drive log.old.disk) (D.drive log.new.disk) (HoldsAllOrNone w before waiting.old) }
    ensures ok { OnOk result ((waiting.new ≡ []) × FileAdds D.drive waiting.old log.old log.new) }
    ensures lost { IfErr result (λ e. FileFails D.drive waiting.old e.cell log.old log.new
        × (waiting.new ≡ waiting.old)) }
    ensures later { (D.drive log.old.disk).faults ≤ (D.drive log.new.disk).faults }
    ensures few { length waiting.new ≤ length waiting.old }
{
    let kept = waiting.len();
    let written = write(log, waiting);
    waiting.truncate(if written.is_ok() { 0 } else { kept });
    written
}

// Lets all these cells wait.
fn push_all(waiting: &mut Waiting, cells: &[Cell])
    requires few { length waiting.old + length cells.now ≤ most_waiting }

    ensures { waiting.new ≡ waiting.old ++ cells.now }
{
    for cell in cells {
        waiting.push(cell);
    }
}
