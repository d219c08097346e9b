//! A step of a book: its record goes to the log, and its entry to the history.
ghost use Rattle.std.specs.Prelude.{◌≡◌, ◌∷◌, [], MatchOption};
ghost use Rattle.log_state.specs.Changes.{change_cells, lost_cells};
ghost use Rattle.commit_book.specs.Steps.{entry_of, fault_of, CanStep, Takes, Loses};

use crate::faults::BookFault;
use crate::history::History;
use bucket_versions::{Commit, Undone};
use cell_format::Cell;
use disk_trait::LogDisk;
use kept_log::Journal;
use plain_list::{Entry, Lost, Op};

/// A step that a change of a table waits for. Its record goes to the log, if there is one, and then its entry to the
/// history. In a log that is written at sync the record waits there. If the drive fails, the history gets the entry of the
/// lost step.
#[derive(Drop)]
pub(crate) struct Step<'a, D: LogDisk> {
    pub(crate) history: &'a mut History,
    pub(crate) journal: &'a mut Journal<D>,
    pub(crate) lost: Lost,
}

impl<'a, D: LogDisk> Commit for Step<'a, D> {
    ghost can = { λ s. CanStep s.lost s.history.now s.journal.now };

    ghost done = { Takes D.drive };

    ghost lost = { Loses D.drive };

    fn commit(&mut self) -> bool {
        let Some(cell) = cell_of(&self.lost) else {
            unreachable!();
        };
        match self.journal.append(&cell) {
            Ok(()) => {
                self.history.push(entry_of(&self.lost));
                true
            }
            Err(at) => {
                let lost = self.lost;
                self.history.push(Entry::Fail {
                    cell: at.cell,
                    lost,
                });
                false
            }
        }
    }
}

/// The fault for a change that was not made, where `cell` is the first record that the file may lack.
pub(crate) fn fault_of(undone: Undone, cell: u64) -> BookFault
    ensures { result ≡ fault_of undone cell }
{
    match undone {
        Undone::Lost => BookFault::Disk { cell },
        Undone::Memory => BookFault::Memory,
    }
}

// The entry of a step that was taken.
fn entry_of(lost: &Lost) -> Entry
    ensures { result ≡ entry_of lost.now }
{
    match *lost {
        Lost::Call { session, row, op } => Entry::Call { session, row, op },
        Lost::Begin { number, name } => Entry::Begin { number, name },
        Lost::Install { number } => Entry::Install { number },
        Lost::Abandon { number } => Entry::Abandon { number },
    }
}

// The record of a step, or `None` if it has none.
fn cell_of(lost: &Lost) -> Option<Cell>
    ensures { MatchOption result (lost_cells lost.now ≡ []) (λ cell. lost_cells lost.now ≡ cell ∷ []) }
{
    match *lost {
        Lost::Call { op, .. } => change_cell(&op),
        Lost::Begin { number, name } => Some(Cell::Begin { number, name }),
        Lost::Install { number } => Some(Cell::Install { number }),
        Lost::Abandon { number } => Some(Cell::Abandon { number }),
    }
}

/// The record of an operation that changes the world, or `None` if the operation never does.
pub(crate) fn change_cell(op: &Op) -> Option<Cell>
    ensures { MatchOption result (change_cells op.now ≡ []) (λ cell. change_cells op.now ≡ cell ∷ []) }
{
    match *op {
        Op::Put { id, at, moment } => Some(Cell::Put { id, at, moment }),
        Op::Move { id, at, moment } => Some(Cell::Move { id, at, moment }),
        Op::Remove { id } => Some(Cell::Remove { id }),
        Op::Find { .. } => None,
        Op::Within { .. } => None,
        Op::Near { .. } => None,
    }
}
