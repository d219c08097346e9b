//! Cells as a log has them that has replaced another one: with lesser numbers of splits.
ghost use Rattle.std.specs.Prelude.{◌≡◌, ◌++◌, take, map, IfOk};
ghost use Rattle.kept_log.specs.Moved.{lessen_cell};

use cell_format::Cell;
use std::alloc::{AllocError, Global};

/// The cell, with this much taken from the number of its split.
pub(crate) fn lessened(cell: &Cell, skipped: u64) -> Cell
    ensures { result ≡ lessen_cell skipped cell.now }
{
    match cell {
        Cell::Begin { number, name } => Cell::Begin {
            number: number.saturating_sub(skipped),
            name: *name,
        },
        Cell::Install { number } => Cell::Install {
            number: number.saturating_sub(skipped),
        },
        Cell::Abandon { number } => Cell::Abandon {
            number: number.saturating_sub(skipped),
        },
        _ => *cell,
    }
}

/// All these cells, alike.
pub(crate) fn all_lessened(
    alloc: Global,
    cells: &[Cell],
    skipped: u64,
) -> Result<Vec<Cell>, AllocError>
    ensures { IfOk result (λ all. all.items ≡ map (lessen_cell skipped) cells.now) }
{
    let mut all = Vec::with_capacity(alloc, cells.len())?;
    for cell in cells {
        all.push(lessened(cell, skipped))?;
    }
    Ok(all)
}
