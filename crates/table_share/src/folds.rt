//! Folds over all rows.
ghost use Rattle.std.specs.Prelude.{◌≡◌, ◌+◌, length};
ghost use Rattle.std.specs.List.{FoldsTo};
ghost use Rattle.index_layer.specs.Leaves.{all_rows};
ghost use Rattle.table_share.specs.Folds.{FoldsRow};

use crate::walk::LeafWalk;
use bucket_versions::{Bucket, Row};
use index_layer::Index;
use std::sync::ledger::Ledger;
use step_count::Steps;

/// Folds `f` over all rows in the order of their keys. It opens each bucket once, and each is one step.
pub fn for_rows<I: Index, T, F: Fn(T, &Row) -> T, L: Ledger>(
    index: &I,
    start: T,
    f: F,
    steps: &mut Steps<L>,
) -> T
    requires { F.IsAlwaysCallable f }
    ensures folded { FoldsTo (FoldsRow F.Fn f) start (all_rows (I.leaves index.now)) result }
    ensures opened { steps.new ≡ steps.old + length (I.leaves index.now) }
{
    let mut folded = start;
    let mut walk = LeafWalk::over(index);
    while let Some((_, bucket)) = walk.next_leaf() {
        folded = fold_bucket(bucket, folded, &f, steps);
    }
    folded
}

fn fold_bucket<T, F: Fn(T, &Row) -> T, L: Ledger>(
    bucket: &Bucket,
    start: T,
    f: &F,
    steps: &mut Steps<L>,
) -> T
    requires { F.IsAlwaysCallable f.now }
    ensures folded { FoldsTo (FoldsRow F.Fn f.now) start bucket.now.rows result }
    ensures opened { steps.new ≡ steps.old + 1 }
{
    let mut folded = start;
    for row in bucket.rows(steps) {
        folded = f(folded, row);
    }
    folded
}
