//! Checks at compile time that the trie can be sent to other threads and shared by them.
use crate::trie::KdTrie;

fn in_threads<T: Send + Sync>() {}

fn may_be_sent_and_shared() {
    in_threads::<KdTrie>();
}
