//! A drive in memory that implements the crash model and fails on plan, for tests of crashes and faults.
//!
//! Contracts see a `MemDisk` as its plan, the bytes at its start, and the list of calls that changed or synced the
//! file. This list determines what a read returns, and what a crash at each moment may leave. `MemDisk` is a `LogDisk`
//! whose content is known. A call fails if and only if the plan lists it or it goes beyond a bound. `MemDisk::pick`
//! returns one crash image of a moment, with a chosen length, and with chosen bytes where any byte is possible. Only
//! `new`, `pick` and an attach (for its name) take memory.
//!
//! Not here: what a log reads from an image (`recovery`), and a file of the machine (`disk_file`).
#![tactic(auto)]

mod attaches;
mod disk;
mod images;
mod plans;
mod recorded;
mod scans;
mod sending;
mod touches;

pub use attaches::Attached;
pub use disk::{MemDisk, PickFault};
pub use plans::{DiskCall, Fail};
