//! Checks at compile time that a bucket can be sent to other threads and shared by them.
use crate::bucket::Bucket;

fn in_threads<T: Send + Sync>() {}

fn may_be_sent_and_shared() {
    in_threads::<Bucket>();
}
