//! The number of objects in a box.
ghost use Rattle.std.specs.Prelude.{◌≡◌, ◌+◌, ◌<◌, true, length};
ghost use Rattle.zorder.specs.Region.{IsBox};
ghost use Rattle.plain_list.specs.Queries.{members_in};
ghost use Rattle.table_share.specs.Subtree.{subtree};
ghost use Rattle.table_share.specs.Standing.{OfPlaces};
ghost use Rattle.range_query.specs.Cut.{IsAreaOf, leaves_cut, IsNumberBelow};
ghost use Rattle.table_share.specs.KeysUnder.{AreAllKeysUnder};

use crate::counted::count_rows;
use index_layer::{Below, Index};
use prefix_names::{halves, inside, meets};
use std::sync::ledger::Ledger;
use step_count::Steps;
use zorder::{Name, Region, child, key};

/// Returns the number of objects in the box. It opens the bucket of a leaf, which is one step, only if the box has some
/// points of the leaf's region but not all. It counts subtrees inside the box whole. It takes no memory.
pub fn count_in<I: Index, L: Ledger>(index: &I, region: &Region, steps: &mut Steps<L>) -> u64
    requires { IsBox region.now }
    ensures number { OfPlaces (I.leaves index.now) (λ places. result ≡ length (members_in region.now places)) }
    ensures opened { steps.new ≡ steps.old + length (leaves_cut region.now (I.leaves index.now)) }
{
    let (name, place) = index.reach(key(region.lo), key(region.hi));
    let area = prefix_names::region(&name);
    number_below(index, &name, place, &area, region, steps)
}

// Returns the number of objects in the box below a name, whose region is `area`.
fn number_below<I: Index, L: Ledger>(
    index: &I,
    name: &Name,
    place: &I::Place,
    area: &Region,
    region: &Region,
    steps: &mut Steps<L>,
) -> u64
    requires is_box { IsBox region.now }
    requires at { I.is_at index.now place.now name.now }
    requires area { IsAreaOf name.now area.now }
    ensures number { AreAllKeysUnder (I.leaves index.now) → IsNumberBelow region.now name.now (I.leaves index.now) result }
    ensures opened { steps.new ≡ steps.old + length (leaves_cut region.now (subtree name.now (I.leaves index.now))) }
{
    if !meets(area, region) {
        return 0;
    }
    if inside(area, region) {
        return index.count_below(name, place);
    }
    match index.below(name, place) {
        Below::Leaf(bucket) => count_rows(bucket, name, area, region, steps),
        Below::Halves { zero, one } => {
            let (low, high) = halves(name, area);
            let first = number_below(index, &child(name, false), zero, &low, region, steps);
            let second = number_below(index, &child(name, true), one, &high, region, steps);
            first.saturating_add(second)
        }
    }
}
