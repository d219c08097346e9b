//! The objects in a box.
ghost use Rattle.std.specs.Prelude.{◌≡◌, ◌≤◌, ◌+◌, ◌++◌, IfOk, OnOk, length};
ghost use Rattle.zorder.specs.Region.{IsBox};
ghost use Rattle.plain_list.specs.Queries.{members_in};
ghost use Rattle.table_share.specs.KeysUnder.{AreKeysUnder, AreAllKeysUnder};
ghost use Rattle.index_layer.specs.Leaves.{all_rows};
ghost use Rattle.index_layer.specs.Subtree.{subtree};
ghost use Rattle.table_share.specs.Objects.{objects_of};
ghost use Rattle.table_share.specs.Standing.{OfPlaces};
ghost use Rattle.range_query.specs.Cut.{leaves_met, below_met, held_below};

use bucket_versions::Bucket;
use index_layer::{Below, Index};
use plain_list::PlacedList;
use prefix_names::{KeyBox, inside, meets};
use std::alloc::Global;
use std::sync::ledger::Ledger;
use step_count::Steps;
use table_share::placed;
use zorder::{Memory, Name, Placed, Region, child};

/// Returns the objects in the box, in the order of their ids. It opens the bucket of a leaf, which is one step, only if
/// the box has some points of the leaf's region. It takes memory only for the objects that it finds.
pub fn range<I: Index, L: Ledger>(
    alloc: Global,
    index: &I,
    region: &Region,
    steps: &mut Steps<L>,
) -> Result<PlacedList, Memory>
    requires { IsBox region.now }
    ensures objects { OfPlaces (I.leaves index.now) (λ places. IfOk result (λ list. list ≡ members_in region.now places)) }
    ensures opened { steps.new ≤ steps.old + length (leaves_met region.now (I.leaves index.now)) }
    ensures exact { IfOk result (λ _. steps.new ≡ steps.old + length (leaves_met region.now (I.leaves index.now))) }
{
    let mut found = Vec::new(alloc);
    push_below(
        &mut found,
        index,
        &Name::whole(),
        index.top(),
        region,
        steps,
    )?;
    found.sort_unstable_by_key(|m| m.id);
    Ok(PlacedList::from_vec(found))
}

// Appends the objects in the box below a name, in the order of their keys.
fn push_below<I: Index, L: Ledger>(
    found: &mut Vec<Placed>,
    index: &I,
    name: &Name,
    place: &I::Place,
    region: &Region,
    steps: &mut Steps<L>,
) -> Result<(), Memory>
    requires is_box { IsBox region.now }
    requires at { I.is_at index.now place.now name.now }
    ensures objects { AreAllKeysUnder (I.leaves index.now) → OnOk result (
        found.new.items ≡ found.old.items ++ held_below region.now name.now (I.leaves index.now)) }
    ensures opened { steps.new ≤ steps.old + length (below_met region.now name.now (I.leaves index.now)) }
    ensures exact { OnOk result (steps.new ≡ steps.old + length (below_met region.now name.now (I.leaves index.now))) }
{
    if !meets(&prefix_names::region(name), region) {
        return Ok(());
    }
    match index.below(name, place) {
        Below::Leaf(bucket) => push_leaf(found, name, bucket, region, steps),
        Below::Halves { zero, one } => {
            push_below(found, index, &child(name, false), zero, region, steps)?;
            push_below(found, index, &child(name, true), one, region, steps)
        }
    }
}

// Appends the objects of a leaf that are in the box. If the leaf is inside the box, it tests none of them.
fn push_leaf<L: Ledger>(
    found: &mut Vec<Placed>,
    name: &Name,
    bucket: &Bucket,
    region: &Region,
    steps: &mut Steps<L>,
) -> Result<(), Memory>
    requires { IsBox region.now }
    ensures objects { AreKeysUnder name.now bucket.now.rows → OnOk result (
        found.new.items ≡ found.old.items ++ members_in region.now (objects_of bucket.now.rows)) }
    ensures opened { steps.new ≡ steps.old + 1 }
{
    if inside(&prefix_names::region(name), region) {
        push_all(found, bucket, steps)
    } else {
        push_rows(found, bucket, region, steps)
    }
}

/// Appends all objects below a name, in the order of their keys.
pub(crate) fn push_whole<I: Index, L: Ledger>(
    found: &mut Vec<Placed>,
    index: &I,
    name: &Name,
    place: &I::Place,
    steps: &mut Steps<L>,
) -> Result<(), Memory>
    requires at { I.is_at index.now place.now name.now }
    ensures objects { OnOk result (found.new.items ≡ found.old.items ++ objects_of (all_rows (subtree name.now (I.leaves index.now)))) }
    ensures opened { steps.new ≤ steps.old + length (subtree name.now (I.leaves index.now)) }
    ensures exact { OnOk result (steps.new ≡ steps.old + length (subtree name.now (I.leaves index.now))) }
{
    match index.below(name, place) {
        Below::Leaf(bucket) => push_all(found, bucket, steps),
        Below::Halves { zero, one } => {
            push_whole(found, index, &child(name, false), zero, steps)?;
            push_whole(found, index, &child(name, true), one, steps)
        }
    }
}

fn push_all<L: Ledger>(
    found: &mut Vec<Placed>,
    bucket: &Bucket,
    steps: &mut Steps<L>,
) -> Result<(), Memory>
    ensures objects { OnOk result (found.new.items ≡ found.old.items ++ objects_of bucket.now.rows) }
    ensures opened { steps.new ≡ steps.old + 1 }
{
    for row in bucket.rows(steps) {
        found.push(placed(row))?;
    }
    Ok(())
}

fn push_rows<L: Ledger>(
    found: &mut Vec<Placed>,
    bucket: &Bucket,
    region: &Region,
    steps: &mut Steps<L>,
) -> Result<(), Memory>
    ensures objects { OnOk result (found.new.items ≡ found.old.items ++ members_in region.now (objects_of bucket.now.rows)) }
    ensures opened { steps.new ≡ steps.old + 1 }
{
    let corners = KeyBox::of(region);
    for row in bucket.rows(steps) {
        let is_in = corners.has(row.key);
        if is_in {
            found.push(placed(row))?;
        }
    }
    Ok(())
}
