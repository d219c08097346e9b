//! Cells that wait for an append.
ghost use Rattle.std.specs.Prelude.{◌≡◌, ◌+◌, ◌≤◌, ◌∷◌, [], ◌++◌, IfOk, length, take};
ghost use Rattle.std.specs.List.{flat_map, AllByRecursion};
ghost use Rattle.cell_format.specs.Spelling.{newest, IsCell, spelling};
ghost use Rattle.split_log.specs.LogView.{most_cells};
ghost use Rattle.split_log.specs.Waiting.{most_waiting};

use crate::place::{CELL, spell_all};
use cell_format::{Cell, encode};
use std::alloc::{AllocError, Global};
use std::marker::Model;

/// The largest number of cells that wait where one more may be pushed.
pub const MOST_WAITING: usize = 65_536;

/// Cells that wait for an append (`SplitLog::append_waiting`). They are kept as the text that the append writes, so it
/// takes no memory.
#[derive(Drop)]
pub struct Waiting {
    // The cells, each with its commit byte set, and a clear commit byte after the last one.
    text: Vec<u8>,
    cells: usize,
}

impl Model for Waiting {
    ghost use Rattle.std.specs.Prelude.{List, vec_capacity};
    ghost use Rattle.cell_format.specs.declared.cell.Cell.{Cell};
    ghost use Rattle.split_log.specs.Waiting.{spelled_cells, IsWaiting};

    ghost Value = { List Cell };

    ghost view = { λ w. spelled_cells w.cells w.text.items };

    ghost invariant = { λ w. IsWaiting w.cells w.text.items (vec_capacity w.text) };
}

impl Waiting {
    /// No cells. It takes the memory for `MOST_WAITING` cells and one more, 2 MB.
    pub fn new(alloc: Global) -> Result<Waiting, AllocError>
        ensures { IfOk result (λ waiting. waiting ≡ []) }
    {
        let mut text = Vec::with_capacity(alloc, CELL * (MOST_WAITING + 1) + 1)?;
        text.push_reserved(0);
        Ok(Waiting { text, cells: 0 })
    }

    /// The number of cells.
    pub fn len(&self) -> usize
        ensures len { result ≡ length self.now }
        ensures few { result ≤ most_cells }
    {
        self.cells
    }

    /// Adds a cell after the others. It takes no memory.
    pub fn push(&mut self, cell: &Cell)
        requires room { length self.old ≤ most_waiting }

        ensures { self.new ≡ self.old ++ cell.now ∷ [] }
    {
        self.text.truncate(CELL * self.cells);
        let _ = self.text.extend_from_slice(&encode(cell));
        self.text.push_reserved(0);
        self.cells += 1;
    }

    /// Keeps the first `cells` cells and drops the others.
    pub fn truncate(&mut self, cells: usize)
        requires few { cells ≤ length self.old }

        ensures { self.new ≡ take cells self.old }
    {
        self.text.truncate(CELL * cells);
        self.text.push_reserved(0);
        self.cells = cells;
    }

    /// The same cells and these after them. It takes memory for them all, and for `MOST_WAITING` cells and one more if
    /// that is more.
    pub fn with(&self, alloc: Global, cells: &[Cell]) -> Result<Waiting, AllocError>
        requires few { length self.now + length cells.now ≤ most_cells }

        ensures { IfOk result (λ waiting. waiting ≡ self.now ++ cells.now) }
    {
        let count = self.cells + cells.len();
        let mut text = Vec::with_capacity(alloc, CELL * count.max(MOST_WAITING + 1) + 1)?;
        text.extend_from_slice(&self.text[..CELL * self.cells])?;
        spell_all(&mut text, cells)?;
        Ok(Waiting { text, cells: count })
    }

    /// The text that an append writes, with the first commit byte.
    pub(crate) fn text(&self) -> &[u8]
        ensures text { result.now ≡ flat_map spelling self.now ++ 0 ∷ [] }
        ensures fits { AllByRecursion (IsCell newest) self.now }
    {
        &self.text
    }
}
