//! Writes the state of a log as the shortest log that has this state.
//!
//! Contracts see the new log as `fresh_cells` of a world and its leaves: a begin and an install for each name that was
//! split, and a put for each object. The state of these cells is that world and those leaves.
//! - `compact` writes the new log on a drive of its own. At each moment a crash leaves at most 17 bytes, or no cell, or
//!   all cells. `fresh_cells_are_few` proves what `compact` requires, from what was found in a log.
//! - `begin_log` writes a world and its leaves in the same way, and returns the log as if it were opened. `fresh_seen`
//!   computes what it will find.
//! - `clear_log` removes all cells of a log. At each moment a crash leaves all of its cells or none.
//!
//! Not here: how the old log is read (`recovery`), appends to a log (`split_log`).
#![tactic(auto)]

mod beginning;
mod cell_count;
mod cells;
mod clearing;
mod compacting;
mod laws;
mod names;
mod pieces;
mod staging;

pub use beginning::{begin_log, fresh_seen};
pub use cell_count::count_fresh;
pub use clearing::{NotCleared, clear_log};
pub use compacting::{CompactFault, CompactRefused, compact};
pub use laws::fresh_cells_are_few;
