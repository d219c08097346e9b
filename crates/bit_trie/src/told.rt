//! Facts that hold of every key, of each bucket's rows, and of a change that waits for nothing.
ghost use Rattle.std.specs.Prelude.{◌<◌, ◌^◌, OnOk, IsOk};
ghost use Rattle.std.specs.Arc.{arc_value};
ghost use Rattle.bucket_versions.specs.Rows.{IsRows};

use bucket_versions::{Bucket, Undone};
use std::sync::Arc;
use zorder::Memory;

/// States that a key has 64 bits. The function does nothing at run time.
pub fn in_range(key: u64)
    ensures { key < 2 ^ 64 }
{
    let _ = key;
}

/// States that the rows of a bucket are in order.
pub fn in_order(bucket: &Arc<Bucket>)
    ensures { IsRows (arc_value bucket.now).rows }
{
    let _rows = bucket.count();
}

/// Converts the result of a change that waits for nothing. Such a change fails only if memory runs out.
pub fn at_once(done: Result<(), Undone>) -> Result<(), Memory>
    ensures { OnOk result (IsOk done) }
{
    done.map_err(|_| Memory)
}
