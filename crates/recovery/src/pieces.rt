//! The cell at the front of a piece of a log.
ghost use Rattle.std.specs.Prelude.{◌≡◌, ℕ, ◌≤◌, ◌<◌, slice_index, take, length, IfOk, IfErr, OnErr};
ghost use Rattle.recovery.specs.Pieces.{cause_of, place_after, PassesCell, FailsAt, WalksFront};

use crate::replay::{Replay, StepFault};
use crate::seen::OpenFault;
use crate::walked::Walked;
use cell_format::{Cause, Cell, CellFault, decode};
use zorder::Point;

/// The length of a cell in bytes, with its commit byte.
pub(crate) const CELL: usize = 32;

/// Processes the cell at the front of a piece, if its commit byte is set. `number` is the number of that cell.
pub(crate) fn walk_front(
    replay: &mut Replay,
    piece: &[u8],
    number: u64,
    most: u64,
) -> Result<Option<Walked>, OpenFault>
    requires few { number ≤ most }
    requires some { 1 ≤ length piece.now }
    ensures { WalksFront most number replay.old replay.new piece.now result }
{
    if piece[0] != 1 {
        return Ok(None);
    }
    if number == most {
        return Err(OpenFault::TooLong { most });
    }
    if piece.len() <= CELL {
        return Err(damaged(number, Cause::ShortCell));
    }
    let walked = walk_cell(replay, piece, number)?;
    Ok(Some(walked))
}

/// Processes the cell at the front of a piece. Its commit byte is set.
fn walk_cell(replay: &mut Replay, piece: &[u8], number: u64) -> Result<Walked, OpenFault>
    requires long { 33 ≤ length piece.now }
    requires committed { slice_index piece.now 0 ≡ 1 }

    ensures ok { IfOk result (PassesCell number replay.old replay.new piece.now) }
    ensures err { IfErr result (λ e. (most : ℕ) → number < most
        → FailsAt replay.old.version replay.old.width most number replay.old.state piece.now e) }
    ensures kept { OnErr result (replay.new ≡ replay.old) }
{
    let cell = match decode(replay.version(), &front(piece)) {
        Ok(cell) => cell,
        Err(fault) => return Err(damaged(number, cause_of(fault))),
    };
    match replay.step(&cell) {
        Ok(before) => Ok(Walked {
            at: number,
            cell,
            before,
            after: place_after(&cell),
        }),
        Err(StepFault::Impossible) => Err(damaged(number, Cause::Impossible)),
        Err(StepFault::Memory) => Err(OpenFault::Memory),
    }
}

fn front(piece: &[u8]) -> [u8; CELL]
    requires { 33 ≤ length piece.now }
    ensures { result ≡ take 32 piece.now }
{
    let mut bytes = [0; CELL];
    bytes.copy_from_slice(&piece[..CELL]);
    bytes
}

/// The position of a cell's object after the cell.
fn place_after(cell: &Cell) -> Option<Point>
    ensures { result ≡ place_after cell.now }
{
    match *cell {
        Cell::Put { at, .. } => Some(at),
        Cell::Move { at, .. } => Some(at),
        Cell::Remove { .. } => None,
        Cell::Begin { .. } => None,
        Cell::Install { .. } => None,
        Cell::Abandon { .. } => None,
    }
}

/// The fault of the cell with this number.
pub(crate) fn damaged(cell: u64, cause: Cause) -> OpenFault
    ensures { result ≡ OpenFault.Damaged cell cause }
{
    OpenFault::Damaged { cell, cause }
}

fn cause_of(fault: CellFault) -> Cause
    ensures { result ≡ cause_of fault }
{
    match fault {
        CellFault::Kind => Cause::Kind,
        CellFault::Reserved => Cause::Reserved,
        CellFault::BadName => Cause::BadName,
    }
}
