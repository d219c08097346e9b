//! A log over a drive in memory and over a file.
//!
//! - An append leaves the format's worked bytes. If a sync fails, it returns the fault, and a crash leaves the images
//!   that `split_log` promises, picked by length and fill.
//! - Records that are appended together are in an image as a whole or not at all. So are records that waited for a sync.
//! - `recovery` creates, inspects, walks over and opens the format's worked logs.
//! - `log_compact` writes a fresh log, begins one with a world and its leaves, and clears one.
//! - A follower continues when its leader has grown.
//!
//! Calls of logs are in functions over any drive, whose contracts say nothing of it. A proof that knows a drive in
//! memory takes several times as long.
mod appends;
mod batches;
mod beginnings;
mod clearings;
mod compactions;
pub mod files;
pub mod fixtures;
mod followers;
mod images;
mod recoveries;
mod waits;
mod walks;
mod widths;
