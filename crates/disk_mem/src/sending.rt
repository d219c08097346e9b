//! Checks at compile time that a drive in memory can be sent to other threads and shared with one.
use crate::disk::MemDisk;

fn sent<T: Send>() {}

fn shared<T: Sync>() {}

fn may_be_sent_and_shared() {
    sent::<MemDisk>();
    shared::<MemDisk>();
}
