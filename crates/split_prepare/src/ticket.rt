//! The ticket that the begin of a split returns.
use bucket_versions::Bucket;
use std::sync::Arc;
use zorder::Name;

/// A split that has begun: its number, the leaf's name, and the leaf's bucket at the begin.
#[derive(Drop)]
pub struct SplitTicket {
    pub number: u64,
    pub name: Name,
    pub bucket: Arc<Bucket>,
}
