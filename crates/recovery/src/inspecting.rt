//! Returns what a log records, without changing the file.
ghost use Rattle.std.specs.Prelude.{◌≡◌, ◌⊎◌, ◌≤◌, ◌<◌, Some, None, OnOk, IfOk, IfErr, IfSome};
ghost use Rattle.recovery.specs.Faults.{RefusesRead, ShowsFault};
ghost use Rattle.recovery.specs.Reading.{FailsOn, ReadsAll, OnlyReads, FindsWanted, IsFoundFor};
ghost use Rattle.zorder.specs.Width.{IsWidth};
ghost use Rattle.recovery.specs.Wanted.{MayTell};

use crate::reading::Reading;
use crate::room::Room;
use crate::seen::{OpenFault, Seen, SeenLog};
use crate::wanted::{FIRST, Wanted};
use disk_trait::LogDisk;
use std::alloc::Global;

/// What a log records, its width, and the length of its file in bytes.
#[derive(Drop)]
pub(crate) struct Found {
    pub(crate) seen: Seen,
    pub(crate) width: u8,
    pub(crate) len: u64,
}

/// Returns the state after the cells of a wanted log of version 1 or 2, and the width of its splits. The head of the
/// log names that width.
pub fn inspect_log<D: LogDisk>(
    alloc: Global,
    disk: &mut D,
    wanted: Wanted,
) -> Result<SeenLog, OpenFault>
    requires width { IfSome wanted.width IsWidth }

    ensures found { IfOk result (λ l. FindsWanted 1 wanted.width wanted.most (D.drive disk.old) l.width l.seen) }
    ensures refused { IfErr result (RefusesRead 1 wanted.width wanted.most (D.drive disk.old) (D.drive disk.new)) }
    ensures reads { OnlyReads (D.drive disk.old) (D.drive disk.new) result }
{
    let found = read_log(alloc, disk, FIRST, wanted)?;
    Ok(SeenLog {
        seen: found.seen,
        width: found.width,
    })
}

/// The same as `inspect_log`, for a log whose splits create `2 ^ width` children.
pub fn inspect<D: LogDisk>(
    alloc: Global,
    disk: &mut D,
    width: u8,
    most: u64,
) -> Result<Seen, OpenFault>
    requires width { IsWidth width }

    ensures found { IfOk result (FindsWanted 1 (Some width) most (D.drive disk.old) width) }
    ensures refused { IfErr result (RefusesRead 1 (Some width) most (D.drive disk.old) (D.drive disk.new)) }
    ensures reads { OnlyReads (D.drive disk.old) (D.drive disk.new) result }
{
    let width = Some(width);
    let found = inspect_log(alloc, disk, Wanted { width, most })?;
    Ok(found.seen)
}

/// Reads a wanted log to its end.
pub(crate) fn read_log<D: LogDisk>(
    alloc: Global,
    disk: &mut D,
    oldest: u8,
    wanted: Wanted,
) -> Result<Found, OpenFault>
    requires oldest { 1 ≤ oldest }
    requires width { IfSome wanted.width IsWidth }

    ensures found { IfOk result (λ f. IsFoundFor oldest wanted.width wanted.most (D.drive disk.old) f.width f.seen f.len) }
    ensures fault { IfErr result (ShowsFault oldest wanted.width wanted.most (D.drive disk.old)) }
    ensures may { IfErr result (MayTell oldest wanted.width wanted.most) }
    ensures reads { OnlyReads (D.drive disk.old) (D.drive disk.new) result }
{
    let mut reading = Reading::start(alloc, disk, oldest, wanted)?;
    read_cells(&mut reading, disk)?;
    let mut room = Room::new(alloc);
    reading.make_room(&mut room)?;
    Ok(Found {
        width: reading.width(),
        len: reading.len(),
        seen: reading.seen_in(room),
    })
}

/// Reads all cells that are left.
fn read_cells<D: LogDisk>(reading: &mut Reading, disk: &mut D) -> Result<(), OpenFault>
    ensures ok { OnOk result (ReadsAll (D.drive disk.old) reading.old reading.new) }
    ensures err { IfErr result (FailsOn (D.drive disk.old) reading.old) }
    ensures reads { OnlyReads (D.drive disk.old) (D.drive disk.new) result }
{
    while let Some(_cell) = reading.advance(disk)? {}
    Ok(())
}
