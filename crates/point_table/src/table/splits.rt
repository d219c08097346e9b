//! The two steps of a split on a table: a leaf is folded, and later replaced by its children.
ghost use Rattle.std.specs.Prelude.{◌≡◌, ◌⊎◌, ◌+◌, ◌≤◌, ◌^◌, true, IfOk, OnOk, OnErr, length, map};
ghost use Rattle.std.specs.Arc.{arc_value};
ghost use Rattle.zorder.specs.Width.{IsWidth};
ghost use Rattle.bucket_versions.specs.Told.{Told};
ghost use Rattle.index_layer.specs.Leaves.{has_name};
ghost use Rattle.split_prepare.specs.Cut.{cut, cut_out};
ghost use Rattle.point_table.specs.Divisions.{CanDivide, Folds, Divides, KeepsRest, marks_of};

use crate::crowded::{Mark, is_over};
use crate::table::PointTable;
use bucket_versions::{Bucket, Commit, Undone, folded};
use index_layer::Index;
use prefix_names::key_range;
use split_prepare::child_at;
use std::alloc::{AllocError, Global};
use std::sync::Arc;
use zorder::{Memory, Name};

impl<I: Index> PointTable<I> {
    /// Makes a leaf's rows its base after the step succeeded, and returns the leaf's bucket.
    pub fn fold<C: Commit>(&mut self, name: &Name, commit: &mut C) -> Result<Arc<Bucket>, Undone>
        requires can { C.can commit.old }
        requires leaf { has_name name.now self.old.leaves ≡ true }
        ensures folds { IfOk result (λ b. Folds name.now self.old.leaves self.new.leaves (arc_value b)) }
        ensures rest { OnOk result (KeepsRest self.old self.new) }
        ensures err { OnErr result (self.new ≡ self.old) }
        ensures told { Told C.done C.lost commit.old commit.new result }
    {
        let Some(bucket) = self.bucket(name) else {
            unreachable!();
        };
        let folded = folded(bucket)?;
        let shared = Arc::try_clone(&folded)?;
        // Only the index has memory left to take, so the step is the last thing that can fail.
        self.index.replace(name, shared, commit)?;
        Ok(folded)
    }

    /// Puts a leaf's children in its place after the step succeeded. They were cut out of its base, and get the rows
    /// that the leaf has now.
    pub fn divide<C: Commit>(
        &mut self,
        name: &Name,
        parts: &[Arc<Bucket>],
        commit: &mut C,
    ) -> Result<(), Undone>
        requires can { C.can commit.old }
        requires leaf { CanDivide I.WIDTH name.now (map arc_value parts.now) self.old.leaves }
        ensures divides { OnOk result (Divides I.WIDTH name.now self.old.leaves self.new.leaves) }
        ensures rest { OnOk result (KeepsRest self.old self.new) }
        ensures err { OnErr result (self.new ≡ self.old) }
        ensures told { Told C.done C.lost commit.old commit.new result }
    {
        let Some(bucket) = self.bucket(name) else {
            unreachable!();
        };
        let children = caught_up(self.alloc, name, I::WIDTH, bucket, parts)?;
        let marks = marks_of(self.alloc, self.size, name, I::WIDTH, &children)?;
        self.crowded.reserve(marks.len())?;
        // Only the index has memory left to take, so the step is the last thing that can fail.
        self.index.divide(name, &children, commit)?;
        self.crowded.set_each(marks);
        Ok(())
    }
}

// The children of a leaf, cut out of the base of its bucket. Each is brought up to date with the leaf's present rows.
fn caught_up(
    alloc: Global,
    name: &Name,
    width: u8,
    from: &Bucket,
    parts: &[Arc<Bucket>],
) -> Result<Vec<Arc<Bucket>>, Memory>
    requires width { IsWidth width }
    requires short { length name.now + width ≤ 64 }
    requires cut { map arc_value parts.now ≡ cut width name.now from.now.base }
    ensures { IfOk result (λ v. map arc_value v.items ≡ cut width name.now from.now.rows) }
{
    let mut buckets = Vec::new(alloc);
    for (place, part) in parts.iter().enumerate() {
        let child = child_at(name, width, place);
        buckets.push(child_now(&child, from, part)?)?;
    }
    Ok(buckets)
}

// One child, brought up to date.
fn child_now(name: &Name, from: &Bucket, part: &Arc<Bucket>) -> Result<Arc<Bucket>, Memory>
    requires { arc_value part.now ≡ cut_out from.now.base name.now }
    ensures { IfOk result (λ b. arc_value b ≡ cut_out from.now.rows name.now) }
{
    let (lo, hi) = key_range(name);
    bucket_versions::caught_up(part, from, lo, hi)
}

// The marks of a leaf's children: which of them are to be split.
fn marks_of(
    alloc: Global,
    size: u32,
    name: &Name,
    width: u8,
    buckets: &[Arc<Bucket>],
) -> Result<Vec<Mark>, AllocError>
    requires width { IsWidth width }
    requires short { length name.now + width ≤ 64 }
    requires count { length buckets.now ≡ 2 ^ width }
    ensures { IfOk result (λ v. v.items ≡ marks_of width size name.now (map arc_value buckets.now)) }
{
    let mut marks = Vec::new(alloc);
    for (place, bucket) in buckets.iter().enumerate() {
        let name = child_at(name, width, place);
        let crowded = is_over(size, width, &name, bucket);
        marks.push(Mark { name, crowded })?;
    }
    Ok(marks)
}
