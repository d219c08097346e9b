//! Cutting a bucket into the buckets of its leaf's children.
ghost use Rattle.std.specs.Prelude.{◌≡◌, ◌⊎◌, ◌≤◌, ◌<◌, ◌+◌, ◌^◌, length, map, slice_get, Some, IfOk};
ghost use Rattle.std.specs.Arc.{arc_value};
ghost use Rattle.zorder.specs.Width.{IsWidth};
ghost use Rattle.zorder.specs.Tile.{children};
ghost use Rattle.bucket_versions.specs.Under.{AreUnder};
ghost use Rattle.split_prepare.specs.Cut.{cut, cut_out, HaveRowsUnder};
ghost use Rattle.split_prepare.specs.Prepared.{prepared_of};

use crate::prepared::Prepared;
use crate::ticket::SplitTicket;
use bucket_versions::Bucket;
use prefix_names::key_range;
use std::alloc::Global;
use std::sync::Arc;
use zorder::{Memory, Name, child};

/// Returns the child with index `place`, in key order, of a name that is split into `2^width` children.
pub fn child_at(name: &Name, width: u8, place: usize) -> Name
    requires width { IsWidth width }
    requires short { length name.now + width ≤ 64 }
    requires within { place < 2 ^ width }
    ensures { slice_get (children width name.now) place ≡ Some result }
{
    if width == 1 {
        child(name, place == 1)
    } else {
        child(&child(name, place >= 2), place % 2 == 1)
    }
}

/// Returns a bucket of those rows of the bucket's base that are under the name.
pub fn cut_out(bucket: &Bucket, name: &Name) -> Result<Arc<Bucket>, Memory>
    ensures { IfOk result (λ b. arc_value b ≡ cut_out bucket.now.base name.now) }
{
    let (lo, hi) = key_range(name);
    bucket.cut(lo, hi)?.into_shared()
}

/// Returns such a bucket for each child of a name, in key order.
pub fn cut(
    alloc: Global,
    bucket: &Bucket,
    name: &Name,
    width: u8,
) -> Result<Vec<Arc<Bucket>>, Memory>
    requires width { IsWidth width }
    requires short { length name.now + width ≤ 64 }
    ensures { IfOk result (λ v. map arc_value v.items ≡ cut width name.now bucket.now.base) }
{
    let mut buckets = Vec::new(alloc);
    for place in 0..1_usize << width {
        let child = child_at(name, width, place);
        buckets.push(cut_out(bucket, &child)?)?;
    }
    Ok(buckets)
}

/// Cuts the base of a ticket's bucket into the buckets of the leaf's children.
pub fn prepare(alloc: Global, ticket: &SplitTicket, width: u8) -> Result<Prepared, Memory>
    requires width { IsWidth width }
    requires short { length ticket.now.name + width ≤ 64 }
    requires under { AreUnder ticket.now.name (arc_value ticket.now.bucket).base }
    ensures prepared { IfOk result (λ p. p ≡ prepared_of width ticket.now.number ticket.now.name (arc_value ticket.now.bucket).base) }
    ensures rows { IfOk result (λ p. HaveRowsUnder (children width ticket.now.name) (arc_value ticket.now.bucket).base p.children) }
{
    // The contract of `count` says that the base is in order.
    let _told = ticket.bucket.count();
    let children = cut(alloc, &ticket.bucket, &ticket.name, width)?;
    let bucket = Arc::try_clone(&ticket.bucket)?;
    Ok(Prepared {
        number: ticket.number,
        name: ticket.name,
        width,
        bucket,
        children,
    })
}
