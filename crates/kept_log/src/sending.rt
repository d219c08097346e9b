//! A journal may be sent to another thread if its drive may.
use crate::journal::Journal;
use disk_trait::LogDisk;

fn sent<T: Send>() {}

fn may_be_sent<D: LogDisk + Send>() {
    sent::<Journal<D>>();
}
