//! What a value in the lock began from.
use plain_list::Member;
use std::collections::LinkedList;
use zorder::Name;

/// Contracts alone use this type, and no value of it is ever created. A caller that closes a lock then knows that the
/// value still has the beginning with which it was put in.
pub struct Origin {
    pub world: LinkedList<Member>,
    pub leaves: LinkedList<Name>,
    /// The number of splits that had been begun.
    pub begun: u64,
    /// Its log, if there is one.
    pub log: Option<LogStart>,
    /// The size of a bucket.
    pub bucket: u64,
    /// Whether the list of entries is kept.
    pub kept: bool,
}

/// A log as it was opened.
pub struct LogStart {
    /// The number of its cells.
    pub cells: u64,
    /// Its bytes, if its drive's content is known.
    pub bytes: Option<LinkedList<u8>>,
    /// The clock of its drive.
    pub clock: u64,
    /// How many faults its drive had counted.
    pub faults: u64,
    /// Whether its cells wait for a sync.
    pub at_sync: bool,
    /// Whether a fresh log in another file may replace it while the store is open.
    pub moves: bool,
}
