//! Cells in pieces, as they are written: without the first commit byte.
ghost use Rattle.std.specs.Prelude.{◌≡◌, ◌≤◌, ◌∷◌, [], ◌++◌, length, take};
ghost use Rattle.cell_format.specs.Spelling.{newest, IsCell, body_of};
ghost use Rattle.split_log.specs.LogText.{behind_first};
ghost use Rattle.log_compact.specs.Staging.{and_taken, AreCells};

use crate::cells::FreshCells;
use cell_format::{Cell, encode};

/// The length of a cell in bytes, with its commit byte.
const CELL: usize = 32;

/// The most cells of a piece.
const MOST: usize = 2048;

/// The most bytes of a piece.
pub(crate) const PIECE: usize = CELL * MOST;

/// Fills a piece with a cell and the cells after it, as many as have room. For each cell the piece has the bytes after
/// its commit byte, and then the commit byte of the next cell. That byte is set, or clear if no cell is left. Returns
/// the number of bytes, and the first cell that had no room.
pub(crate) fn fill(
    piece: &mut [u8; PIECE],
    first: Cell,
    cells: &mut FreshCells,
) -> (usize, Option<Cell>)
    ensures text { behind_first (first ∷ cells.old) ≡ take result.0 piece.new ++ behind_first (and_taken result.1 cells.new) }
    ensures fits { AreCells (and_taken result.1 cells.new) → AreCells (first ∷ cells.old) }
    ensures fewer { length (and_taken result.1 cells.new) ≤ length cells.old }
    ensures most { result.0 ≤ 65536 }
{
    let mut cell = first;
    for place in 0..MOST {
        let at = CELL * place;
        match cells.next() {
            Some(next) => {
                piece[at..at + CELL].copy_from_slice(&behind(&cell, 1));
                cell = next;
            }
            None => {
                piece[at..at + CELL].copy_from_slice(&behind(&cell, 0));
                return (at + CELL, None);
            }
        }
    }
    (PIECE, Some(cell))
}

/// The bytes of a cell after its commit byte, and this commit byte for the next cell.
fn behind(cell: &Cell, commit_byte: u8) -> [u8; 32]
    ensures bytes { result ≡ body_of cell.now ++ commit_byte ∷ [] }
    ensures fits { IsCell newest cell.now }
{
    let mut piece = [commit_byte; 32];
    piece[..31].copy_from_slice(&encode(cell)[1..]);
    piece
}
