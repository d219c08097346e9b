//! Walks over a log, and compares its cells with the leader's.
ghost use Rattle.std.specs.Prelude.{◌≡◌, ◌⊎◌, ◌+◌, ◌<◌, ◌↔◌, ◌++◌, ◌∷◌, [], ℕ, List, Some, IsTrue, length, slice_index_or, IfOk, IfErr};
ghost use Rattle.zorder.specs.Width.{IsWidth};
ghost use Rattle.cell_format.specs.declared.cell.Cell.{Cell};
ghost use Rattle.recovery.specs.Found.{IsWanted};
ghost use Rattle.recovery.specs.Reading.{OnlyReads};
ghost use Rattle.recovery.specs.Walks.{ComesTo};
ghost use Rattle.follower.specs.Comparing.{IsTally, Counts, StopsCounting, IsJudged, Compares, RefusesCompare};
ghost use Rattle.follower.specs.Opening.{most_held};

use cell_format::{Cell, encode};
use disk_trait::LogDisk;
use recovery::{NEWEST, OpenFault, OpenRefused, Walk, WalkEnd};
use split_log::MOST_CELLS;
use std::alloc::Global;

/// How many cells a log has, and how many of its first ones are the leader's.
#[derive(Drop)]
pub(crate) struct Compared<D: LogDisk> {
    pub(crate) disk: D,
    pub(crate) count: u64,
    pub(crate) same: u64,
}

/// Reads the whole log, also after a cell that isn't the leader's, because a fault in the log comes first.
pub(crate) fn compare<D: LogDisk>(
    alloc: Global,
    disk: D,
    cells: &[Cell],
    width: u8,
) -> Result<Compared<D>, OpenRefused<D>>
    requires width { IsWidth width }
    requires long { (bytes : List ℕ) → (D.drive disk).bytes ≡ Some bytes → 17 < length bytes }

    ensures compared { IfOk result (λ c. Compares width cells.now (D.drive disk) (D.drive c.disk) c.count c.same) }
    ensures refused { IfErr result (λ e. RefusesCompare width (D.drive disk) (D.drive e.disk) e.cause) }
{
    let mut walk = match Walk::start(alloc, disk, width, MOST_CELLS) {
        Ok(walk) => walk,
        Err(refused) => return Err(refused),
    };
    let counted = count_same(&mut walk, cells);
    let WalkEnd { disk, seen } = walk.finish();
    match judged(counted, seen.version, width) {
        Ok(tally) => Ok(Compared {
            disk,
            count: tally.count,
            same: tally.same,
        }),
        Err(cause) => Err(OpenRefused { disk, cause }),
    }
}

/// Walks over all cells of a log.
fn count_same<D: LogDisk>(walk: &mut Walk<D>, cells: &[Cell]) -> Result<Tally, OpenFault>
    requires { ComesTo walk.old.reading.replay.width most_held [] (D.drive walk.old.disk) walk.old }

    ensures counted { IfOk result (λ t. Counts walk.old.reading.replay.width cells.now (D.drive walk.old.disk) (D.drive walk.new.disk)
        walk.new t) }
    ensures stopped { IfErr result (StopsCounting walk.old.reading.replay.width (D.drive walk.old.disk) (D.drive walk.new.disk) walk.new) }
    ensures reads { OnlyReads (D.drive walk.old.disk) (D.drive walk.new.disk) result }
{
    let mut tally = Tally { count: 0, same: 0 };
    while let Some(walked) = walk.next()? {
        tally = tally.with(cells, &walked.cell);
    }
    Ok(tally)
}

/// The result for a log of this version. A log of an older version isn't opened, whatever its cells are.
fn judged(counted: Result<Tally, OpenFault>, version: u8, width: u8) -> Result<Tally, OpenFault>
    requires { IsWanted 1 version }

    ensures { IsJudged version width counted result }
{
    match counted {
        Err(OpenFault::Disk) => Err(OpenFault::Disk),
        _ if version < NEWEST => Err(OpenFault::OldLog { version, width }),
        told => told,
    }
}

/// How many cells were walked, and how many of the first ones are the leader's.
#[derive(Clone, Copy)]
struct Tally {
    count: u64,
    same: u64,
}

impl Tally {
    // The tally with one more cell.
    fn with(self, cells: &[Cell], cell: &Cell) -> Tally
        requires { self.count < most_held }

        ensures { (own : List Cell) → IsTally cells.now own self → IsTally cells.now (own ++ cell.now ∷ []) result }
    {
        let count = self.count + 1;
        let same = if self.same == self.count && is_at(cells, self.same, cell) {
            count
        } else {
            self.same
        };
        Tally { count, same }
    }
}

// Whether the leader's cell of this number is this one.
fn is_at(cells: &[Cell], number: u64, cell: &Cell) -> bool
    ensures { IsTrue result ↔ ((number < length cells.now) × (slice_index_or cells.now number cell.now ≡ cell.now)) }
{
    number < cells.len() as u64 && is_same(&cells[number as usize], cell)
}

// Each cell has one spelling.
fn is_same(cell: &Cell, other: &Cell) -> bool
    ensures { IsTrue result ↔ (cell.now ≡ other.now) }
{
    encode(cell) == encode(other)
}
