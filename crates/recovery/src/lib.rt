//! Creates a log, returns what the cells of a log record, and opens a log.
//!
//! Contracts see what is found (`Seen`) as the state of a list of legal cells: objects, leaves, open splits, and the
//! number of begins.
//! - `init` creates a log, in version 2.
//! - `open_log` opens a log of version 2 for appends. `inspect_log` and `Walk::along` read a log of version 1 or 2.
//! - These three take a `Wanted`: the width and the largest number of cells. `open`, `inspect` and `Walk::start` do the
//!   same for a width that the caller names.
//! - Without a failure of memory or of the drive, the result is `Ok` if and only if the bytes recover to at most that
//!   many cells of a wanted log. Otherwise it is the first fault in the bytes (`IsFault`). A walk returns a fault of a
//!   cell when it comes to that cell. If the contract doesn't know the drive's bytes, it still limits the result
//!   (`MayTell`).
//! - At each moment of an opening a crash leaves bytes that recover to the same cells. No call of the drive follows one
//!   that failed (`StopsAtFault`).
//! - A `Walk` returns one cell a call, and at its end the same as `inspect_log`.
//!
//! Not here: appends (`split_log`), the bytes of a cell (`cell_format`), the history that a book writes
//! (`commit_book`).
#![tactic(auto)]

mod heads;
mod inspecting;
mod leaf_map;
mod making;
mod opening;
mod pieces;
mod reading;
mod replay;
mod room;
mod seen;
mod split_map;
mod walk;
mod walked;
mod wanted;

pub use heads::width_of;
pub use inspecting::{inspect, inspect_log};
pub use making::init;
pub use opening::{open, open_log};
pub use seen::{
    InitFault, InitRefused, Leaves, OpenFault, OpenRefused, Opened, OpenedLog, Seen, SeenLog,
};
pub use walk::{Walk, WalkEnd};
pub use walked::Walked;
pub use wanted::{NEWEST, Wanted};
