//! The leader's cells: those of the log in the first file.
ghost use Rattle.std.specs.Prelude.{◌≡◌, ◌⊎◌, ◌∷◌, ◌++◌, ℕ, List, [], Some, Ok, Err, IfOk, IfErr, OnOk, IsOkUnless, MatchResult, None};
ghost use Rattle.std.specs.Result.{IsErrAnd};
ghost use Rattle.cell_format.specs.declared.cell.Cell.{Cell};
ghost use Rattle.recovery.specs.declared.seen.OpenFault.{OpenFault};
ghost use Rattle.recovery.specs.Faults.{IsFault, IsInBytes};
ghost use Rattle.recovery.specs.Found.{IsFree};
ghost use Rattle.recovery.specs.Reading.{OnlyReads};
ghost use Rattle.recovery.specs.Walks.{ComesTo};
ghost use Rattle.recovery.specs.Wanted.{MayTell};
ghost use Rattle.zorder.specs.Width.{IsWidth};
ghost use Rattle.follower.specs.Holding.{most_followed};
ghost use Rattle.run_ends.specs.Limits.{oldest_read};
ghost use Rattle.follow_run.specs.Leading.{FindsLeader, RecoversLeader, ReadsLeader, LosesLeader};

use cell_format::Cell;
use disk_trait::LogDisk;
use recovery::{OpenFault, OpenRefused, Walk, Wanted};
use run_ends::{Unmade, attach, log_refusal};
use std::alloc::Global;

/// The most cells that a log may have to be followed.
const MOST_FOLLOWED: u64 = 1 << 20;

/// The cells of a log and its width, with the drive from which they were read.
#[derive(Drop)]
pub(crate) struct Leader<D: LogDisk> {
    pub(crate) disk: D,
    pub(crate) cells: Vec<Cell>,
    pub(crate) width: u8,
}

/// Reads the log in the file of this name. It has version 1 or 2, and either width.
pub(crate) fn find_leader<D: LogDisk>(
    alloc: Global,
    file: &str,
    mut disk: D,
) -> Result<Leader<D>, Unmade<D>>
    ensures read { IfOk result (λ l. ReadsLeader file.now l.width (D.drive disk) (D.drive l.disk) l.cells.items) }
    ensures lost { IfErr result (λ e. LosesLeader file.now (D.drive disk) (D.drive e.disk) e.why) }
{
    if let Err(why) = attach(alloc, file, false, &mut disk) {
        return Err(Unmade { disk, why });
    }
    match read_leader(alloc, disk) {
        Ok(leader) => Ok(leader),
        Err(OpenRefused { disk, cause }) => {
            let why = log_refusal(cause);
            Err(Unmade { disk, why })
        }
    }
}

// Reads the log on a drive, with its own width.
fn read_leader<D: LogDisk>(alloc: Global, disk: D) -> Result<Leader<D>, OpenRefused<D>>
    ensures found { IfOk result (λ l. FindsLeader l.width (D.drive disk) l.cells.items) }
    ensures fault { IfErr result (λ e. (bytes : List ℕ) → (D.drive disk).bytes ≡ Some bytes
        → IsFault oldest_read None most_followed bytes e.cause) }
    ensures may { IfErr result (λ e. MayTell oldest_read None most_followed e.cause) }
    ensures exact { (bytes : List ℕ) (fault : OpenFault) → (D.drive disk).bytes ≡ Some bytes → IsInBytes fault
        → IsFault oldest_read None most_followed bytes fault
        → IsErrAnd result (λ e. (e.cause ≡ fault) ⊎ IsFree (D.drive disk) (D.drive e.disk) e.cause) }
    ensures whole { (w : ℕ) (cells : List Cell) → RecoversLeader w cells (D.drive disk)
        → IfErr result (λ e. IsFree (D.drive disk) (D.drive e.disk) e.cause) }
    ensures reads { MatchResult result (λ l. OnlyReads {T = Unit {0}} (D.drive disk) (D.drive l.disk) (Ok tt))
        (λ e. OnlyReads {T = Unit {0}} (D.drive disk) (D.drive e.disk) (Err e.cause)) }
{
    let wanted = Wanted {
        width: None,
        most: MOST_FOLLOWED,
    };
    match Walk::along(alloc, disk, wanted) {
        Ok(walk) => walk_leader(alloc, walk),
        Err(refused) => Err(refused),
    }
}

// Reads the log of a walk that has just begun.
fn walk_leader<D: LogDisk>(alloc: Global, mut walk: Walk<D>) -> Result<Leader<D>, OpenRefused<D>>
    requires begun { ComesTo walk.reading.replay.width most_followed [] (D.drive walk.disk) walk }
    ensures found { IfOk result (λ l. (l.width ≡ walk.reading.replay.width)
        × FindsLeader walk.reading.replay.width (D.drive walk.disk) l.cells.items) }
    ensures fault { IfErr result (λ e. (bytes : List ℕ) → (D.drive walk.disk).bytes ≡ Some bytes
        → IsFault oldest_read (Some walk.reading.replay.width) most_followed bytes e.cause) }
    ensures may { IfErr result (λ e. MayTell oldest_read None most_followed e.cause) }
    ensures reads { MatchResult result (λ l. OnlyReads {T = Unit {0}} (D.drive walk.disk) (D.drive l.disk) (Ok tt))
        (λ e. OnlyReads {T = Unit {0}} (D.drive walk.disk) (D.drive e.disk) (Err e.cause)) }
{
    let width = walk.width();
    match collect(alloc, &mut walk) {
        Ok(cells) => {
            let disk = walk.finish().disk;
            Ok(Leader { disk, cells, width })
        }
        Err(cause) => {
            let disk = walk.finish().disk;
            Err(OpenRefused { disk, cause })
        }
    }
}

// All cells of a walk that has just begun.
fn collect<D: LogDisk>(alloc: Global, walk: &mut Walk<D>) -> Result<Vec<Cell>, OpenFault>
    requires width { IsWidth walk.old.reading.replay.width }
    requires begun { ComesTo walk.old.reading.replay.width most_followed [] (D.drive walk.old.disk) walk.old }
    ensures found { IfOk result (λ cells. FindsLeader walk.old.reading.replay.width (D.drive walk.old.disk) cells.items) }
    ensures fault { IfErr result (λ e. (bytes : List ℕ) → (D.drive walk.old.disk).bytes ≡ Some bytes
        → IsFault oldest_read (Some walk.old.reading.replay.width) most_followed bytes e) }
    ensures may { IfErr result (MayTell oldest_read None most_followed) }
    ensures reads { OnlyReads (D.drive walk.old.disk) (D.drive walk.new.disk) result }
{
    let mut cells = Vec::new(alloc);
    while let Some(walked) = walk.next()? {
        keep(&mut cells, walked.cell)?;
    }
    Ok(cells)
}

fn keep(cells: &mut Vec<Cell>, cell: Cell) -> Result<(), OpenFault>
    ensures kept { OnOk result (cells.new.items ≡ cells.old.items ++ cell ∷ []) }
    ensures memory { IsOkUnless result OpenFault.Memory }
{
    match cells.push(cell) {
        Ok(()) => Ok(()),
        Err(_) => Err(OpenFault::Memory),
    }
}
