//! The rows with keys in a range.
ghost use Rattle.std.specs.Prelude.{◌≡◌, ◌≤◌, ◌+◌, ◌++◌, OnOk, IfOk, length};
ghost use Rattle.bucket_versions.specs.Rows.{IsRows, rows_between};
ghost use Rattle.index_layer.specs.Leaves.{all_rows};
ghost use Rattle.table_share.specs.Subtree.{subtree, shares_key, leaves_between};

use bucket_versions::{Bucket, Row};
use index_layer::{Below, Index};
use prefix_names::key_range;
use std::alloc::Global;
use std::sync::ledger::Ledger;
use step_count::Steps;
use zorder::{Memory, Name, child};

/// Returns the rows with keys from `lo` to `hi`, both included, in order. It opens the bucket of each leaf that shares
/// a key with the range, and each is one step. It goes down from the top and skips each subtree that shares no key with
/// the range.
pub fn scan<I: Index, L: Ledger>(
    alloc: Global,
    index: &I,
    lo: u64,
    hi: u64,
    steps: &mut Steps<L>,
) -> Result<Vec<Row>, Memory>
    requires { lo ≤ hi }
    ensures rows { IfOk result (λ rows. rows.items ≡ rows_between lo hi (all_rows (I.leaves index.now))) }
    ensures in_order { IfOk result (λ rows. IsRows rows.items) }
    ensures opened { steps.new ≤ steps.old + length (leaves_between lo hi (I.leaves index.now)) }
    ensures exact { IfOk result (λ _. steps.new ≡ steps.old + length (leaves_between lo hi (I.leaves index.now))) }
{
    let mut found = Vec::new(alloc);
    push_subtree(
        &mut found,
        index,
        &Name::whole(),
        index.top(),
        lo,
        hi,
        steps,
    )?;
    Ok(found)
}

// Appends the rows of the range in the leaves whose names begin with `name`.
fn push_subtree<I: Index, L: Ledger>(
    found: &mut Vec<Row>,
    index: &I,
    name: &Name,
    place: &I::Place,
    lo: u64,
    hi: u64,
    steps: &mut Steps<L>,
) -> Result<(), Memory>
    requires at { I.is_at index.now place.now name.now }
    ensures rows { OnOk result (found.new.items ≡ found.old.items ++ rows_between lo hi
        (all_rows (leaves_between lo hi (subtree name.now (I.leaves index.now))))) }
    ensures opened { steps.new ≤ steps.old + length (leaves_between lo hi (subtree name.now (I.leaves index.now))) }
    ensures exact { OnOk result (steps.new ≡ steps.old + length (leaves_between lo hi (subtree name.now (I.leaves index.now)))) }
{
    if !shares(name, lo, hi) {
        return Ok(());
    }
    match index.below(name, place) {
        Below::Leaf(bucket) => push_between(found, bucket, lo, hi, steps),
        Below::Halves { zero, one } => {
            push_subtree(found, index, &child(name, false), zero, lo, hi, steps)?;
            push_subtree(found, index, &child(name, true), one, lo, hi, steps)
        }
    }
}

// Returns whether some key of the range is under the name.
fn shares(name: &Name, lo: u64, hi: u64) -> bool
    ensures { result ≡ shares_key lo hi name.now }
{
    let (first, last) = key_range(name);
    first <= hi && lo <= last
}

fn push_between<L: Ledger>(
    found: &mut Vec<Row>,
    bucket: &Bucket,
    lo: u64,
    hi: u64,
    steps: &mut Steps<L>,
) -> Result<(), Memory>
    ensures rows { OnOk result (found.new.items ≡ found.old.items ++ rows_between lo hi bucket.now.rows) }
    ensures opened { steps.new ≡ steps.old + 1 }
{
    for row in bucket.rows(steps) {
        if lo <= row.key && row.key <= hi {
            found.push(*row)?;
        }
    }
    Ok(())
}
