//! Leaves, and lists of leaves that share their buckets.
ghost use Rattle.std.specs.Prelude.{◌≡◌, ◌++◌, ◌+◌, ◌<◌, ◌≤◌, length, take, OnOk, IfOk};
ghost use Rattle.std.specs.Arc.{arc_value};
ghost use Rattle.bucket_versions.specs.Rows.{AreRows};
ghost use Rattle.flat_index.specs.Seen.{seen, seen_leaf};

use bucket_versions::Bucket;
use std::alloc::{AllocError, Global};
use std::sync::Arc;
use zorder::Name;

/// A name, and the bucket of the rows under it.
#[derive(Drop)]
pub struct FlatLeaf {
    pub(crate) name: Name,
    pub(crate) bucket: Arc<Bucket>,
}

impl FlatLeaf {
    pub(crate) fn new(name: Name, bucket: Arc<Bucket>) -> FlatLeaf
        ensures leaf { seen_leaf result ≡ record { name = name; bucket = arc_value bucket } }
        ensures in_order { AreRows (arc_value bucket) }
    {
        // The contract of `count` says that the rows are in order.
        let _rows = bucket.count();
        FlatLeaf { name, bucket }
    }

    fn share(&self) -> Result<FlatLeaf, AllocError>
        ensures { IfOk result (λ leaf. seen_leaf leaf ≡ seen_leaf self.now) }
    {
        let bucket = Arc::try_clone(&self.bucket)?;
        Ok(FlatLeaf {
            name: self.name,
            bucket,
        })
    }
}

/// Appends leaves that share their buckets with the given ones.
pub(crate) fn push_shared(into: &mut Vec<FlatLeaf>, leaves: &[FlatLeaf]) -> Result<(), AllocError>
    ensures { OnOk result (seen into.new.items ≡ seen into.old.items ++ seen leaves.now) }
{
    for leaf in leaves {
        into.push(leaf.share()?)?;
    }
    Ok(())
}

/// Copies the first `count` leaves into a list with room for all leaves and `more` besides.
pub(crate) fn front_of(
    alloc: Global,
    leaves: &[FlatLeaf],
    count: usize,
    more: usize,
) -> Result<Vec<FlatLeaf>, AllocError>
    requires within { count ≤ length leaves.now }
    requires few { more ≤ 16 }
    ensures { IfOk result (λ v. seen v.items ≡ take count (seen leaves.now)) }
{
    let mut front = Vec::with_capacity(alloc, leaves.len() + more)?;
    push_shared(&mut front, &leaves[..count])?;
    Ok(front)
}
