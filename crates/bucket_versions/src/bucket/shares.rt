//! Buckets that are returned as they are if a new one would have the same content.
ghost use Rattle.std.specs.Prelude.{◌≡◌, IfOk};
ghost use Rattle.std.specs.Arc.{arc_value};
ghost use Rattle.bucket_versions.specs.Rows.{as_base, rows_between};

use super::Bucket;
use std::sync::Arc;
use zorder::Memory;

/// Returns the bucket with its rows as base. If they are that already, it returns the same pointer and copies no row.
pub fn folded(bucket: &Arc<Bucket>) -> Result<Arc<Bucket>, Memory>
    ensures { IfOk result (λ b. arc_value b ≡ as_base (arc_value bucket.now).rows) }
{
    if bucket.is_own_base() {
        return Ok(Arc::try_clone(bucket)?);
    }
    bucket.with_own_base()?.into_shared()
}

/// Brings a bucket that was cut out of the base of `from` up to date with the rows of `from`. If no row between `lo`
/// and `hi` was added or removed since, it returns the same pointer and copies no row.
pub fn caught_up(cut: &Arc<Bucket>, from: &Bucket, lo: u64, hi: u64) -> Result<Arc<Bucket>, Memory>
    requires { (arc_value cut.now).rows ≡ rows_between lo hi from.now.base }
    ensures { IfOk result (λ b. arc_value b ≡ as_base (rows_between lo hi from.now.rows)) }
{
    if from.is_as_cut(lo, hi) && cut.is_own_base() {
        return Ok(Arc::try_clone(cut)?);
    }
    from.cut_now(lo, hi)?.into_shared()
}
