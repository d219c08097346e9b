//! The four device calls that add cells.
ghost use Rattle.std.specs.Prelude.{◌≡◌, ◌+◌, ◌≤◌, ◌^◌, ◌∷◌, [], ◌++◌, ℕ, List, Some, OnOk, OnErr, IfOk, is_some, length, vec_capacity};
ghost use Rattle.disk_trait.specs.Drive.{CountsFaults, MadeWell};
ghost use Rattle.disk_trait.specs.Moments.{LeavesOnly};
ghost use Rattle.cell_format.specs.declared.cell.Cell.{Cell};
ghost use Rattle.cell_format.specs.Spelling.{newest, IsCell, body_of, spelling};
ghost use Rattle.std.specs.List.{flat_map, AllByRecursion};
ghost use Rattle.split_log.specs.LogText.{IsLog, HoldsAllOrNone};
ghost use Rattle.split_log.specs.LogView.{most_cells};
ghost use Rattle.split_log.specs.Append.{IsReady, Breaks};

use crate::committing::commit;
use cell_format::{Cell, encode};
use disk_trait::{DiskFault, LogDisk};
use std::alloc::{AllocError, Global};

/// The length of a cell in bytes, with its commit byte.
pub(crate) const CELL: usize = 32;

/// Writes a piece after the clear commit byte at `at`, and then sets that byte.
pub(crate) fn place<D: LogDisk>(disk: &mut D, at: u64, piece: &[u8]) -> Result<(), DiskFault>
    requires whole { (xs : List ℕ) → (D.drive disk.old).bytes ≡ Some xs → length xs ≡ at + 1 }
    requires small { at + 1 + length piece.now ≤ 2 ^ 40 }

    ensures any_moment { (w : ℕ) (cells more : List Cell) → IsReady w cells more piece.now (D.drive disk.old)
        → LeavesOnly (D.drive disk.old) (D.drive disk.new) (HoldsAllOrNone w cells more) }
    ensures placed { OnOk result ((w : ℕ) (cells more : List Cell) → IsReady w cells more piece.now (D.drive disk.old)
        → IsLog w (cells ++ more) (D.drive disk.new)) }
    ensures calls { OnOk result (MadeWell 4 (D.drive disk.old) (D.drive disk.new)) }
    ensures unplaced { OnErr result (Breaks piece.now (D.drive disk.old) (D.drive disk.new)) }
    ensures told { is_some (D.drive disk.new).bytes ≡ is_some (D.drive disk.old).bytes }
    ensures cause { CountsFaults (D.drive disk.old) (D.drive disk.new) result }
{
    disk.write(at + 1, piece)?;
    commit(disk, at)
}

/// The text of the cells, each with its commit byte set, and a clear commit byte after the last one.
pub(crate) fn text_of(alloc: Global, cells: &[Cell]) -> Result<Vec<u8>, AllocError>
    requires few { length cells.now ≤ most_cells }

    ensures text { IfOk result (λ text. text.items ≡ flat_map spelling cells.now ++ 0 ∷ []) }
    ensures fits { OnOk result (AllByRecursion (IsCell newest) cells.now) }
{
    let mut text = Vec::with_capacity(alloc, CELL * cells.len() + 1)?;
    spell_all(&mut text, cells)?;
    Ok(text)
}

/// Adds the cells to a text, each with its commit byte set, and a clear commit byte after the last one.
pub(crate) fn spell_all(text: &mut Vec<u8>, cells: &[Cell]) -> Result<(), AllocError>
    ensures text { OnOk result (text.new.items ≡ text.old.items ++ (flat_map spelling cells.now ++ 0 ∷ [])) }
    ensures fits { OnOk result (AllByRecursion (IsCell newest) cells.now) }
    ensures capacity { vec_capacity text.old ≤ vec_capacity text.new }
{
    for cell in cells {
        text.extend_from_slice(&encode(cell))?;
    }
    text.push(0)?;
    Ok(())
}

/// The bytes of a cell after its commit byte, and a clear commit byte for the next cell.
pub(crate) fn behind_commit_byte(cell: &Cell) -> [u8; 32]
    ensures bytes { result ≡ body_of cell.now ++ 0 ∷ [] }
    ensures fits { IsCell newest cell.now }
{
    let mut piece = [0; 32];
    piece[..31].copy_from_slice(&encode(cell)[1..]);
    piece
}
