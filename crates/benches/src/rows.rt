//! Rows of an index: looked up, added and moved.
ghost use Rattle.std.specs.Prelude.{◌≡◌, ◌≤◌, [], true, false, IfOk, IsTrue, IsFalse};
ghost use Rattle.std.specs.Arc.{arc_value};
ghost use Rattle.bucket_versions.specs.Rows.{as_base};
ghost use Rattle.index_layer.specs.RowChanges.{Holds};

use bucket_versions::{AtOnce, Bucket, Row, RowChange, Undone};
use index_layer::Index;
use std::alloc::Global;
use std::sync::Arc;
use zorder::Memory;

/// Whether a row is in the leaf of its key.
pub(crate) fn holds<I: Index>(index: &I, row: &Row) -> bool
    ensures there { IsTrue result → Holds row.now (I.leaves index.now) true }
    ensures absent { IsFalse result → Holds row.now (I.leaves index.now) false }
{
    let (_, bucket) = index.leaf_of(row.key);
    bucket.holds(row)
}

/// Adds a row if it isn't there, and returns whether it did.
pub(crate) fn add<I: Index>(index: &mut I, row: Row) -> Result<bool, Undone> {
    if holds(index, &row) {
        return Ok(false);
    }
    match index.put_row(free(row), &mut AtOnce) {
        Ok(_) => Ok(true),
        Err(undone) => Err(undone),
    }
}

/// Moves a row if it is there and its new place has none, and returns whether it did.
pub(crate) fn shift<I: Index>(index: &mut I, from: &Row, to: Row) -> Result<bool, Undone> {
    if !holds(index, from) || holds(index, &to) {
        return Ok(false);
    }
    match index.move_row(free(*from), free(to), &mut AtOnce) {
        Ok(_) => Ok(true),
        Err(undone) => Err(undone),
    }
}

// A change of a row in a leaf without an open split.
fn free(row: Row) -> RowChange
    ensures { result.row ≡ row }
{
    RowChange {
        row,
        keeps_base: false,
    }
}

fn empty(alloc: Global) -> Result<Arc<Bucket>, Memory>
    ensures { IfOk result (λ b. arc_value b ≡ as_base []) }
{
    Bucket::from_rows(alloc, &[])?.into_shared()
}

/// An index of one leaf, without rows.
pub(crate) fn one_leaf<I: Index>(alloc: Global) -> Result<I, Memory> {
    I::whole(alloc, empty(alloc)?)
}

// Splits the leaf of a key if its name has less than `depth` bits. The leaf's rows are left out.
fn split_once<I: Index>(alloc: Global, index: &mut I, key: u64, depth: u8) -> Result<(), Undone>
    requires width { I.WIDTH ≡ 1 }
    requires most { depth ≤ 64 }
{
    let (name, _) = index.leaf_of(key);
    if name.len() >= depth {
        return Ok(());
    }
    let children = [empty(alloc)?, empty(alloc)?];
    index.divide(&name, &children, &mut AtOnce)
}

/// Splits the leaf of a key until its name has `depth` bits. The leaf's rows are left out.
pub(crate) fn deepen<I: Index>(
    alloc: Global,
    index: &mut I,
    key: u64,
    depth: u8,
) -> Result<(), Undone>
    requires width { I.WIDTH ≡ 1 }
    requires most { depth ≤ 64 }
{
    for _ in 0..depth {
        split_once(alloc, index, key, depth)?;
    }
    Ok(())
}
