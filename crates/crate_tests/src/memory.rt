//! Drives in memory, and the logs that they begin with.
use disk_mem::{Fail, MemDisk};
use std::alloc::Global;
use std::process::Abort;

/// A log of version 2 and width 1 with no cells.
pub const EMPTY_LOG: &[u8] = b"MDLOCLOG\x02\x01\0\0\0\0\0\0\0";

/// A drive with these bytes, and with room for a log of some cells. These calls fail.
pub fn disk_of(rt: &impl Abort, alloc: Global, bytes: &[u8], failing: &[Fail]) -> MemDisk {
    let bytes = Vec::from_slice(alloc, bytes).expect(rt, "no memory");
    let failing = Vec::from_slice(alloc, failing).expect(rt, "no memory");
    MemDisk::new(alloc, bytes, 1_024, 64, failing).expect(rt, "no drive")
}
