//! The objects in a box or, if they are too many, their number, in one walk.
ghost use Rattle.std.specs.Prelude.{◌≡◌, ◌≤◌, ◌<◌, ◌+◌, ◌∷◌, [], length, true, IfOk, OnOk};
ghost use Rattle.zorder.specs.declared.points.Placed.{Placed};
ghost use Rattle.zorder.specs.Region.{IsBox};
ghost use Rattle.plain_list.specs.Queries.{members_in, most_listed, listed};
ghost use Rattle.index_layer.specs.Leaves.{all_rows};
ghost use Rattle.index_layer.specs.Subtree.{subtree};
ghost use Rattle.table_share.specs.KeysUnder.{AreKeysUnder, AreAllKeysUnder};
ghost use Rattle.table_share.specs.Objects.{objects_of};
ghost use Rattle.table_share.specs.Standing.{OfPlaces};
ghost use Rattle.range_query.specs.Cut.{IsAreaOf, leaves_met, below_met, held_below};
ghost use Rattle.range_query.specs.Listing.{Adds, AddsAll, IsListing, OnFound};

use crate::counted::count_rows;
use crate::ranges::push_whole;
use bucket_versions::Bucket;
use index_layer::{Below, Index};
use plain_list::{Answer, PlacedList};
use prefix_names::{KeyBox, halves, inside, meets};
use std::alloc::Global;
use std::sync::ledger::Ledger;
use step_count::Steps;
use table_share::placed;
use zorder::{Memory, Name, Placed, Region, child, key};

// The number of objects that the answer to a box may list.
const MOST_LISTED: u64 = plain_list::MOST_LISTED as u64;

// The number of objects for which memory is taken at the start.
const FEW_FOUND: usize = 32;

// What was found so far. After the list has its greatest length, only the count rises.
#[derive(Drop)]
struct Listing {
    list: Vec<Placed>,
    count: u64,
}

impl Listing {
    fn new(alloc: Global) -> Result<Listing, Memory>
        ensures { IfOk result (IsListing []) }
    {
        Ok(Listing {
            list: Vec::with_capacity(alloc, FEW_FOUND)?,
            count: 0,
        })
    }

    fn add(&mut self, m: Placed) -> Result<(), Memory>
        ensures lists { Adds result (m ∷ []) self.old self.new }
        ensures grows { self.old.count ≤ self.new.count }
    {
        if self.count < MOST_LISTED {
            self.list.push(m)?;
        }
        self.count = self.count.saturating_add(1);
        Ok(())
    }
}

/// Returns the answer to a box: the objects in the order of their ids or, if they are more than 2,048, their number. It
/// opens the bucket of a leaf, which is one step, only if the box has some points of the leaf's region. It opens each
/// at most once, as one walk both lists and counts. A subtree inside the box that would make the list too long is
/// counted whole, without a step. Memory is taken for at most as many objects as may be listed.
pub fn found_in<I: Index, L: Ledger>(
    alloc: Global,
    index: &I,
    region: &Region,
    steps: &mut Steps<L>,
) -> Result<Answer, Memory>
    requires { IsBox region.now }
    ensures answer { OfPlaces (I.leaves index.now) (λ places. IfOk result (λ answer. answer ≡ listed (members_in region.now places))) }
    ensures opened { steps.new ≤ steps.old + length (leaves_met region.now (I.leaves index.now)) }
    ensures exact { IfOk result (λ answer. OnFound answer (steps.new ≡ steps.old + length (leaves_met region.now (I.leaves index.now)))) }
{
    let mut found = Listing::new(alloc)?;
    let (name, place) = index.reach(key(region.lo), key(region.hi));
    let area = prefix_names::region(&name);
    list_below(&mut found, index, &name, place, &area, region, steps)?;
    if found.count > MOST_LISTED {
        return Ok(Answer::Many(found.count));
    }
    found.list.sort_unstable_by_key(|m| m.id);
    // Answers are kept for long, so the unused memory is given back.
    found.list.shrink_to_fit();
    Ok(Answer::Found(PlacedList::from_vec(found.list)))
}

// Adds the objects in the box below a name, whose region is `area`, in the order of their keys.
fn list_below<I: Index, L: Ledger>(
    found: &mut Listing,
    index: &I,
    name: &Name,
    place: &I::Place,
    area: &Region,
    region: &Region,
    steps: &mut Steps<L>,
) -> Result<(), Memory>
    requires is_box { IsBox region.now }
    requires at { I.is_at index.now place.now name.now }
    requires area { IsAreaOf name.now area.now }
    ensures lists { AreAllKeysUnder (I.leaves index.now) → Adds result
        (held_below region.now name.now (I.leaves index.now)) found.old found.new }
    ensures grows { found.old.count ≤ found.new.count }
    ensures opened { steps.new ≤ steps.old + length (below_met region.now name.now (I.leaves index.now)) }
    ensures exact { OnOk result (found.new.count ≤ most_listed
        → steps.new ≡ steps.old + length (below_met region.now name.now (I.leaves index.now))) }
{
    if !meets(area, region) {
        return Ok(());
    }
    if inside(area, region) {
        return list_whole(found, index, name, place, steps);
    }
    match index.below(name, place) {
        Below::Leaf(bucket) => list_leaf(found, bucket, name, area, region, steps),
        Below::Halves { zero, one } => {
            let (low, high) = halves(name, area);
            list_below(found, index, &child(name, false), zero, &low, region, steps)?;
            list_below(found, index, &child(name, true), one, &high, region, steps)
        }
    }
}

// Adds all objects below a name. It opens the leaves only if all these objects can be listed.
fn list_whole<I: Index, L: Ledger>(
    found: &mut Listing,
    index: &I,
    name: &Name,
    place: &I::Place,
    steps: &mut Steps<L>,
) -> Result<(), Memory>
    requires at { I.is_at index.now place.now name.now }
    ensures lists { AddsAll result (all_rows (subtree name.now (I.leaves index.now))) found.old found.new }
    ensures grows { found.old.count ≤ found.new.count }
    ensures opened { steps.new ≤ steps.old + length (subtree name.now (I.leaves index.now)) }
    ensures exact { OnOk result (found.new.count ≤ most_listed → steps.new ≡ steps.old + length (subtree name.now (I.leaves index.now))) }
{
    let count = found.count.saturating_add(index.count_below(name, place));
    if count <= MOST_LISTED {
        push_whole(&mut found.list, index, name, place, steps)?;
    }
    found.count = count;
    Ok(())
}

// Adds the objects of a leaf that are in the box. If the list is full, it only counts them.
fn list_leaf<L: Ledger>(
    found: &mut Listing,
    bucket: &Bucket,
    name: &Name,
    area: &Region,
    region: &Region,
    steps: &mut Steps<L>,
) -> Result<(), Memory>
    requires is_box { IsBox region.now }
    requires area { IsAreaOf name.now area.now }
    ensures lists { AreKeysUnder name.now bucket.now.rows → Adds result
        (members_in region.now (objects_of bucket.now.rows)) found.old found.new }
    ensures grows { found.old.count ≤ found.new.count }
    ensures opened { steps.new ≡ steps.old + 1 }
{
    if found.count < MOST_LISTED {
        return list_rows(found, bucket, region, steps);
    }
    let count = count_rows(bucket, name, area, region, steps);
    found.count = found.count.saturating_add(count);
    Ok(())
}

fn list_rows<L: Ledger>(
    found: &mut Listing,
    bucket: &Bucket,
    region: &Region,
    steps: &mut Steps<L>,
) -> Result<(), Memory>
    ensures lists { Adds result (members_in region.now (objects_of bucket.now.rows)) found.old found.new }
    ensures grows { found.old.count ≤ found.new.count }
    ensures opened { steps.new ≡ steps.old + 1 }
{
    let corners = KeyBox::of(region);
    for row in bucket.rows(steps) {
        if corners.has(row.key) {
            found.add(placed(row))?;
        }
    }
    Ok(())
}
