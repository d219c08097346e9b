//! The command `watch`. It reports which objects enter and leave fences along the log in a file, and how many are
//! inside at its end.
//!
//! Contracts see fences as those of all bytes of the source. `watch_log` writes the crossings along the cells that the
//! drive's bytes recover to. Otherwise it writes the line of the first fault: in the source, in the log, or in the
//! number of crossings. It only reads the drive. `Watches` is what a run of the command keeps. `read_fences` reads the
//! fences of a text.
//!
//! Not here: which object crosses a fence (`fence_watch`), how a log is walked (`recovery`), what commands share
//! (`run_ends`).
#![tactic(auto)]

mod fence_rows;
mod lines;
mod reading;
mod walking;
mod watching;

pub use fence_rows::read_fences;
pub use watching::watch_log;
