//! Checks at compile time that the index can be sent to other threads and shared by them.
use crate::flat::FlatIndex;

fn in_threads<T: Send + Sync>() {}

fn may_be_sent_and_shared() {
    in_threads::<FlatIndex>();
}
