//! Opens a log for appends.
ghost use Rattle.std.specs.Prelude.{◌≡◌, ◌⊎◌, ◌≤◌, ◌+◌, ◌*◌, ℕ, List, Some, None, is_some, take, length, OnOk, IfOk, IfErr, IfSome, MatchResult};
ghost use Rattle.cell_format.specs.declared.cell.Cell.{Cell};
ghost use Rattle.disk_trait.specs.Drive.{Only, CountsFaults};
ghost use Rattle.disk_trait.specs.Moments.{LeavesNow, LeavesOnly};
ghost use Rattle.log_state.specs.Recovers.{Recovers};
ghost use Rattle.split_log.specs.LogView.{most_cells};
ghost use Rattle.recovery.specs.Opening.{KeepsNewest, KeepsStanding, CallsToCut, OpensWanted, RefusesWanted};
ghost use Rattle.zorder.specs.Width.{IsWidth};

use crate::inspecting::read_log;
use crate::seen::{OpenFault, OpenRefused, Opened, OpenedLog, SeenLog};
use crate::wanted::{NEWEST, Wanted};
use disk_trait::{DiskFault, LogDisk};
use split_log::{CELL_BYTES, HEADER_BYTES, SplitLog};
use std::alloc::Global;
use std::snapshot::Snapshot;

/// Opens a wanted log of version 2, with the width that its head names, and cuts off what follows its last commit byte.
/// It makes one device call, a sync, if nothing follows that byte. Otherwise it makes three: a sync, a cut and a sync.
pub fn open_log<D: LogDisk>(
    alloc: Global,
    mut disk: D,
    wanted: Wanted,
) -> Result<OpenedLog<D>, OpenRefused<D>>
    requires width { IfSome wanted.width IsWidth }
    requires few { wanted.most ≤ most_cells }

    ensures opened { IfOk result (λ o. OpensWanted wanted.width wanted.most (D.drive disk)
        (D.drive o.opened.log.disk) o.width o.opened.seen) }
    ensures log { IfOk result (λ o. (o.opened.log.cells ≡ o.opened.seen.cells) × (o.opened.log.failed ≡ None)) }
    ensures start { IfOk result (λ o. o.opened.start.value ≡ disk) }
    ensures refused { IfErr result (λ e. RefusesWanted wanted.width wanted.most (D.drive disk) (D.drive e.disk) e.cause) }
    ensures any_moment { MatchResult result (λ o. KeepsStanding (D.drive disk) (D.drive o.opened.log.disk))
        (λ e. KeepsStanding (D.drive disk) (D.drive e.disk)) }
{
    let start = Snapshot::of(&disk);
    match settle(alloc, &mut disk, wanted) {
        Ok(found) => Ok(OpenedLog {
            opened: Opened {
                log: SplitLog::adopt(disk, found.seen.cells),
                seen: found.seen,
                start,
            },
            width: found.width,
        }),
        Err(cause) => Err(OpenRefused { disk, cause }),
    }
}

/// The same as `open_log`, for a log whose splits create `2 ^ width` children.
pub fn open<D: LogDisk>(
    alloc: Global,
    disk: D,
    width: u8,
    most: u64,
) -> Result<Opened<D>, OpenRefused<D>>
    requires width { IsWidth width }
    requires few { most ≤ most_cells }

    ensures opened { IfOk result (λ o. OpensWanted (Some width) most (D.drive disk) (D.drive o.log.disk) width o.seen) }
    ensures log { IfOk result (λ o. (o.log.cells ≡ o.seen.cells) × (o.log.failed ≡ None)) }
    ensures start { IfOk result (λ o. o.start.value ≡ disk) }
    ensures refused { IfErr result (λ e. RefusesWanted (Some width) most (D.drive disk) (D.drive e.disk) e.cause) }
    ensures any_moment { MatchResult result (λ o. KeepsStanding (D.drive disk) (D.drive o.log.disk))
        (λ e. KeepsStanding (D.drive disk) (D.drive e.disk)) }
{
    let width = Some(width);
    match open_log(alloc, disk, Wanted { width, most }) {
        Ok(log) => Ok(log.opened),
        Err(refused) => Err(refused),
    }
}

/// Leaves only a wanted log in the file, synced.
fn settle<D: LogDisk>(alloc: Global, disk: &mut D, wanted: Wanted) -> Result<SeenLog, OpenFault>
    requires width { IfSome wanted.width IsWidth }

    ensures opened { IfOk result (λ l. OpensWanted wanted.width wanted.most (D.drive disk.old) (D.drive disk.new) l.width l.seen) }
    ensures refused { IfErr result (RefusesWanted wanted.width wanted.most (D.drive disk.old) (D.drive disk.new)) }
    ensures any_moment { KeepsStanding (D.drive disk.old) (D.drive disk.new) }
{
    // Sync first. A crash then leaves what is read next.
    disk.sync()?;
    let found = read_log(alloc, disk, NEWEST, wanted)?;
    let end = HEADER_BYTES + 1 + CELL_BYTES * found.seen.cells;
    cut_behind(disk, end, found.len)?;
    Ok(SeenLog {
        seen: found.seen,
        width: found.width,
    })
}

/// Cuts a file of `len` bytes to `end` bytes if it is longer.
fn cut_behind<D: LogDisk>(disk: &mut D, end: u64, len: u64) -> Result<(), DiskFault>
    requires within { end ≤ len }
    requires whole { (xs : List ℕ) → (D.drive disk.old).bytes ≡ Some xs → length xs ≡ len }

    ensures done { OnOk result ((xs : List ℕ) → (D.drive disk.old).bytes ≡ Some xs → Only xs (D.drive disk.old).images
        → ((D.drive disk.new).bytes ≡ Some (take end xs)) × Only (take end xs) (D.drive disk.new).images) }
    ensures told { is_some (D.drive disk.new).bytes ≡ is_some (D.drive disk.old).bytes }
    ensures any_moment { (w : ℕ) (cells : List Cell) → end ≡ 17 + 32 * length cells → LeavesNow (D.drive disk.old) (Recovers w cells)
        → LeavesOnly (D.drive disk.old) (D.drive disk.new) (Recovers w cells) }
    ensures newest { 9 ≤ end → KeepsNewest (D.drive disk.old) (D.drive disk.new) }
    ensures calls { CallsToCut end len (D.drive disk.old) (D.drive disk.new) result }
    ensures cause { CountsFaults (D.drive disk.old) (D.drive disk.new) result }
{
    if len > end {
        disk.cut(end)?;
        disk.sync()?;
    }
    Ok(())
}
