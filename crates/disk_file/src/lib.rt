//! A log's device over a file of the machine. This is the trusted edge, which makes the calls of the system.
//!
//! Contracts see a `FileDisk` as whether it has a file, and how often it has failed. It is a `LogDisk` whose content is
//! unknown: no contract can say what bytes a file returns or accepts. Each call that fails raises the fault count, and
//! so does a call without a file. No other call changes the count. `FileDisk::reason` is why the last of these failed.
//!
//! Not here: what a log writes (`split_log`), and whether a real file keeps the crash model of `disk_trait`.
#![tactic(auto)]

mod disk;
mod held;
mod locks;
mod moves;
mod opening;
mod reason;
mod sending;
mod system;

pub use disk::FileDisk;
pub use locks::{Hold, LockFile};
pub use reason::Reason;
