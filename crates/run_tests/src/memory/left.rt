//! What a run left.
use disk_mem::MemDisk;
use plain_list::{Entries, Entry};

/// What a run left: its status, its history, what the sink received, both drives, and the attaches of each, a line
/// each.
#[derive(Drop)]
pub struct Left {
    pub status: u8,
    pub taken: Vec<u8>,
    pub disk: MemDisk,
    pub other: MemDisk,
    pub(crate) events: Entries,
    pub attaches: String,
    pub others: String,
}

impl Left {
    /// Whether the run ended with this status, and the sink received this text.
    pub fn tells(&self, status: u8, text: &str) -> bool {
        self.status == status && self.taken.as_slice() == text.as_bytes()
    }

    /// Whether these attaches reached the first drive, and none reached the other.
    pub fn has_attached(&self, attaches: &str) -> bool {
        self.others.is_empty() && self.attaches.as_str() == attaches
    }

    /// The history.
    pub fn history(&self) -> &[Entry] {
        self.events.as_slice()
    }

    /// The bytes that the first drive holds.
    pub fn file(&self) -> &[u8] {
        self.disk.bytes()
    }
}
