//! An index whose leaves are split until they are the wanted ones.
ghost use Rattle.std.specs.Prelude.{◌≡◌, ◌≤◌, ◌+◌, ◌%◌, Bool, List, length, true, slice_index_or, IfOk, OnOk};
ghost use Rattle.index_layer.specs.Leaves.{has_name, split};
ghost use Rattle.split_prepare.specs.Cut.{cut};
ghost use Rattle.index_build.specs.Grown.{IsGrown};
ghost use Rattle.index_build.specs.Growing.{StandsThere, GrowsOn};

use bucket_versions::{AtOnce, Bucket, Undone};
use index_layer::Index;
use split_prepare::{child_at, cut};
use std::alloc::Global;
use zorder::{Memory, Name};

/// An index under construction, and how many of the wanted leaves it has, counted from the first.
#[derive(Drop)]
pub(crate) struct Growing<I: Index> {
    pub(crate) index: I,
    pub(crate) done: usize,
}

/// Splits the leaf of this name, which comes after the leaves that are done, until the leaves in its place are the
/// wanted ones. Each new leaf gets the rows under its name from `whole`, a bucket of all rows.
pub(crate) fn grow<I: Index>(
    alloc: Global,
    growing: Growing<I>,
    name: &Name,
    whole: &Bucket,
    leaves: &[Name],
) -> Result<Growing<I>, Memory>
    requires grown { IsGrown I.WIDTH leaves.now }
    requires splits { length name.now % I.WIDTH ≡ 0 }
    requires longer { (d : List Bool) → length name.now ≤ length (slice_index_or leaves.now growing.done d) }
    requires leaf { StandsThere whole.now.base leaves.now growing.done name.now (I.leaves growing.index) }
    ensures { IfOk result (λ g. GrowsOn whole.now.base leaves.now growing.done g.done name.now (I.leaves growing.index)
        (I.leaves g.index)) }
{
    let Growing { mut index, done } = growing;
    if leaves[done] == *name {
        return Ok(Growing {
            index,
            done: done + 1,
        });
    }
    split(alloc, &mut index, name, whole)?;
    let mut growing = Growing { index, done };
    for place in 0..1 << I::WIDTH {
        growing = grow(
            alloc,
            growing,
            &child_at(name, I::WIDTH, place),
            whole,
            leaves,
        )?;
    }
    Ok(growing)
}

/// Splits a leaf. Its children get the rows under their names from `whole`, a bucket of all rows.
pub fn split<I: Index>(
    alloc: Global,
    index: &mut I,
    name: &Name,
    whole: &Bucket,
) -> Result<(), Memory>
    requires short { length name.now + I.WIDTH ≤ 64 }
    requires leaf { has_name name.now (I.leaves index.old) ≡ true }
    ensures { OnOk result (I.leaves index.new ≡ split I.WIDTH name.now (cut I.WIDTH name.now whole.now.base) (I.leaves index.old)) }
{
    let children = cut(alloc, whole, name, I::WIDTH)?;
    match index.divide(name, &children, &mut AtOnce) {
        Ok(()) => Ok(()),
        Err(Undone::Memory) => Err(Memory),
        Err(Undone::Lost) => unreachable!(),
    }
}
