//! Visits of all objects in a box, in key order.
ghost use Rattle.std.specs.Prelude.{◌≡◌, ◌+◌, length};
ghost use Rattle.std.specs.List.{FoldsTo};
ghost use Rattle.zorder.specs.Region.{IsBox};
ghost use Rattle.plain_list.specs.Queries.{members_in};
ghost use Rattle.index_layer.specs.Leaves.{all_rows};
ghost use Rattle.index_layer.specs.Subtree.{subtree};
ghost use Rattle.table_share.specs.KeysUnder.{AreAllKeysUnder};
ghost use Rattle.table_share.specs.Objects.{objects_of};
ghost use Rattle.table_share.specs.Standing.{OfPlaces};
ghost use Rattle.range_query.specs.Cut.{IsAreaOf, leaves_met, below_met, held_below};
ghost use Rattle.index_view.specs.Visits.{VisitsEach};

use bucket_versions::Bucket;
use index_layer::{Below, Index};
use prefix_names::{KeyBox, halves, inside, meets};
use std::sync::ledger::Ledger;
use step_count::Steps;
use table_share::placed;
use zorder::{Name, Placed, Region, child, key};

/// Receives objects, one call for each.
pub trait Visit {
    ghost use Rattle.std.specs.Prelude.{⊤};
    ghost use Rattle.zorder.specs.declared.points.Placed.{Placed};

    /// What a call may do to the visitor.
    ghost does: { Self → Placed → Self → Type 0 } = { λ _ _ _. ⊤ };

    fn visit(&mut self, object: Placed)
        ensures does { does self.old object self.new };
}

/// Calls the visitor once for each object in the box, in key order. It opens the bucket of each leaf that the box
/// meets, and each is one step. It takes no memory.
pub(crate) fn visit_each<I: Index, V: Visit, L: Ledger>(
    index: &I,
    region: &Region,
    visitor: &mut V,
    steps: &mut Steps<L>,
)
    requires { IsBox region.now }
    ensures visits { OfPlaces (I.leaves index.now) (λ places. VisitsEach V.does region.now places visitor.old visitor.new) }
    ensures opened { steps.new ≡ steps.old + length (leaves_met region.now (I.leaves index.now)) }
{
    let (name, place) = index.reach(key(region.lo), key(region.hi));
    let area = prefix_names::region(&name);
    visit_below(index, &name, place, &area, region, visitor, steps);
}

// Visits the objects in the box below a name, whose region is `area`.
fn visit_below<I: Index, V: Visit, L: Ledger>(
    index: &I,
    name: &Name,
    place: &I::Place,
    area: &Region,
    region: &Region,
    visitor: &mut V,
    steps: &mut Steps<L>,
)
    requires is_box { IsBox region.now }
    requires at { I.is_at index.now place.now name.now }
    requires area { IsAreaOf name.now area.now }
    ensures visits { AreAllKeysUnder (I.leaves index.now) → FoldsTo V.does visitor.old
        (held_below region.now name.now (I.leaves index.now)) visitor.new }
    ensures opened { steps.new ≡ steps.old + length (below_met region.now name.now (I.leaves index.now)) }
{
    if !meets(area, region) {
        return;
    }
    if inside(area, region) {
        return visit_whole(index, name, place, visitor, steps);
    }
    match index.below(name, place) {
        Below::Leaf(bucket) => visit_rows_in(bucket, region, visitor, steps),
        Below::Halves { zero, one } => {
            let (low, high) = halves(name, area);
            visit_below(
                index,
                &child(name, false),
                zero,
                &low,
                region,
                visitor,
                steps,
            );
            visit_below(
                index,
                &child(name, true),
                one,
                &high,
                region,
                visitor,
                steps,
            );
        }
    }
}

// Visits all objects below a name.
fn visit_whole<I: Index, V: Visit, L: Ledger>(
    index: &I,
    name: &Name,
    place: &I::Place,
    visitor: &mut V,
    steps: &mut Steps<L>,
)
    requires at { I.is_at index.now place.now name.now }
    ensures visits { FoldsTo V.does visitor.old (objects_of (all_rows (subtree name.now (I.leaves index.now)))) visitor.new }
    ensures opened { steps.new ≡ steps.old + length (subtree name.now (I.leaves index.now)) }
{
    match index.below(name, place) {
        Below::Leaf(bucket) => visit_rows(bucket, visitor, steps),
        Below::Halves { zero, one } => {
            visit_whole(index, &child(name, false), zero, visitor, steps);
            visit_whole(index, &child(name, true), one, visitor, steps);
        }
    }
}

fn visit_rows<V: Visit, L: Ledger>(bucket: &Bucket, visitor: &mut V, steps: &mut Steps<L>)
    ensures visits { FoldsTo V.does visitor.old (objects_of bucket.now.rows) visitor.new }
    ensures opened { steps.new ≡ steps.old + 1 }
{
    for row in bucket.rows(steps) {
        visitor.visit(placed(row));
    }
}

// Visits the objects of a leaf that are in the box.
fn visit_rows_in<V: Visit, L: Ledger>(
    bucket: &Bucket,
    region: &Region,
    visitor: &mut V,
    steps: &mut Steps<L>,
)
    ensures visits { FoldsTo V.does visitor.old (members_in region.now (objects_of bucket.now.rows)) visitor.new }
    ensures opened { steps.new ≡ steps.old + 1 }
{
    let corners = KeyBox::of(region);
    for row in bucket.rows(steps) {
        if corners.has(row.key) {
            visitor.visit(placed(row));
        }
    }
}
