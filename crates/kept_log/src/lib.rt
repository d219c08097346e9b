//! The log of a store, and what it has kept since it was opened. A store may have no log.
//!
//! Contracts see a `Journal` as an option of its log: the drive, the number of cells in its file, the append that failed,
//! the drive and the number of cells at the opening, and the cells that wait.
//! - `append` works with any history that the journal keeps (`KeepsIn`). After `Ok` the journal keeps that history with
//!   the entry of the cell. After a disk fault it keeps the history that ends with the failed append, which names the
//!   first cell that the file may lack.
//! - At each moment of an append a crash leaves the cells from its start, with the new one or without it.
//! - `append_all` adds a batch. A crash leaves all cells of the batch or none. After a disk fault the journal keeps the
//!   history that ends with the failed appends of the batch's changes.
//! - After `at_sync` cells wait in memory, and `sync` adds all of them by one append. A crash leaves the cells that were
//!   written: a prefix of the history's cells.
//! - `move_to` goes on with a fresh log in place of the log, in the middle of the history. From then on a crash leaves what
//!   the fresh log has: the cells of the objects and leaves of that time, and those of the entries after it.
//! - Without a log nothing is kept, and no append fails.
//! - An append requires room in the log, so a cell is added unless the drive fails. `append_all` may also lack memory.
//!
//! Not here: which entries there are and when they happen, and how a log is opened (`recovery`).
#![tactic(auto)]

mod faults;
mod holding;
mod journal;
mod lessening;
mod past;
mod sending;

pub use faults::{AppendAllLost, AppendLost};
pub use journal::Journal;
pub use past::Past;
