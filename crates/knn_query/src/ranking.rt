//! The search for the nearest objects.
ghost use Rattle.std.specs.Prelude.{◌≡◌, ◌≤◌, ◌<◌, ◌+◌, ◌∷◌, [], false, take, IfOk, OnOk, length};
ghost use Rattle.plain_list.specs.Queries.{ranked};
ghost use Rattle.table_share.specs.Objects.{objects_of, placed_of};
ghost use Rattle.table_share.specs.Standing.{OfPlaces};
ghost use Rattle.std.specs.List.Sorted.{IsPermutation};
ghost use Rattle.std.specs.BinaryHeap.{heap_items, IsHeap};
ghost use Rattle.knn_query.specs.Ahead.{IsAhead, OpensNear};
ghost use Rattle.knn_query.specs.Waiting.{ahead_of, waiting_cmp, AreAt};
ghost use Rattle.knn_query.specs.Search.{AreHalves, IsPutOrOut, IsWanted, Leads};
ghost use Rattle.knn_query.specs.Passes.{held, HasReach, IsBeyond, IsEmpty, IsHeld, Keeps, Passes};

use crate::ahead::{Ahead, Waiting, by_distance, take_nearest};
use crate::candidate::Candidate;
use crate::kept::{Came, Kept};
use crate::reach::Reach;
use bucket_versions::{Bucket, Row};
use index_layer::{Below, Index};
use plain_list::PlacedList;
use std::alloc::{AllocError, Global};
use std::collections::BinaryHeap;
use std::sync::Arc;
use std::sync::ledger::Ledger;
use step_count::Steps;
use table_share::placed;
use zorder::{Memory, Name, Point, Region};

// The number of waiting subtrees for which memory is taken at the start. Mostly no more are waiting at once.
const MANY_AHEAD: usize = 20;

/// Returns the `k` nearest objects, or all if there are fewer. The nearest comes first, and at the same distance the
/// lesser id. Each bucket that it opens is one step. It is a best-first search (Hjaltason and Samet, "Distance Browsing
/// in Spatial Databases", 1999), which takes subtrees by the least distance of their region. It keeps at most `k`
/// objects with their distances, in memory that it takes at the start.
pub fn nearest<I: Index, L: Ledger>(
    alloc: Global,
    index: &I,
    from: Point,
    k: u32,
    steps: &mut Steps<L>,
) -> Result<PlacedList, Memory>
    requires least { 1 ≤ k }
    requires most { k ≤ 2048 }
    ensures objects { OfPlaces (I.leaves index.now) (λ places. IfOk result (λ list. list ≡ take k (ranked from places))) }
    ensures opened { steps.new ≤ steps.old + length (I.leaves index.now) }
    ensures near { OfPlaces (I.leaves index.now) (OpensNear from k (I.leaves index.now) steps.old steps.new) }
    ensures some { IfOk result (λ list. 0 < length list → steps.old < steps.new) }
{
    let none = Kept::new(alloc, from, k as usize)?;
    let kept = keep_nearest(alloc, none, index, steps)?;
    Ok(kept.into_list(alloc)?)
}

// Takes places from the top, the nearest first, until `k` of the kept objects are nearer than any place that is left.
fn keep_nearest<I: Index, L: Ledger>(
    alloc: Global,
    mut kept: Kept,
    index: &I,
    steps: &mut Steps<L>,
) -> Result<Kept, AllocError>
    requires empty { IsEmpty kept.from kept.k kept }
    requires least { 1 ≤ kept.k }
    ensures kept { IfOk result (λ new. (new.from ≡ kept.from) × (new.k ≡ kept.k) × IsHeld new) }
    ensures keeps { OfPlaces (I.leaves index.now) (λ places. IfOk result (Keeps kept.from kept.k places [])) }
    ensures opened { steps.new ≤ steps.old + length (I.leaves index.now) }
    ensures near { OfPlaces (I.leaves index.now) (OpensNear kept.from kept.k (I.leaves index.now) steps.old steps.new) }
    ensures some { IfOk result (λ new. (steps.old ≤ steps.new) × (steps.new ≡ steps.old → held new ≡ [])) }
{
    let (name, place) = index.narrow(Name::whole(), index.top());
    let ahead = Ahead::at(name, kept.from);
    let mut waiting = first_of_many(alloc, Waiting { ahead, place })?;
    while let Some(next) = take_nearest(&mut waiting) {
        if kept.has_nearer(next.ahead.least.0) {
            return Ok(kept);
        }
        let found = nearest_leaf(index, next.ahead, next.place, &kept, &mut waiting)?;
        let Some((area, bucket)) = found else {
            continue;
        };
        add_rows(&mut kept, bucket, &area, steps)?;
    }
    Ok(kept)
}

// Returns a heap with one subtree, and room for MANY_AHEAD.
fn first_of_many<P: Drop>(
    alloc: Global,
    first: Waiting<P>,
) -> Result<BinaryHeap<Waiting<P>>, AllocError>
    ensures one { IfOk result (λ all. IsPermutation (first ∷ []) (heap_items all)) }
    ensures ordered { IfOk result (λ all. IsHeap waiting_cmp (heap_items all)) }
{
    let mut all = BinaryHeap::with_capacity(alloc, MANY_AHEAD)?;
    all.push(first)?;
    Ok(all)
}

// Goes down to a leaf that is as near as the subtree, and returns its region and bucket, or `None` if there are no
// rows. Of two halves, one is as near, and the other one waits.
fn nearest_leaf<'a, I: Index>(
    index: &'a I,
    first: Ahead,
    at: &'a I::Place,
    kept: &Kept,
    waiting: &mut BinaryHeap<Waiting<&'a I::Place>>,
) -> Result<Option<(Region, &'a Arc<Bucket>)>, AllocError>
    requires wanted { IsWanted kept.now first (ahead_of (heap_items waiting.old)) }
    requires place { I.is_at index.now at.now first.name }
    requires places { AreAt (I.is_at index.now) (heap_items waiting.old) }
    requires ordered { IsHeap waiting_cmp (heap_items waiting.old) }
    ensures leads { IfOk result (Leads (I.leaves index.now) kept.now (first ∷ ahead_of (heap_items waiting.old))
        (ahead_of (heap_items waiting.new))) }
    ensures places { OnOk result (AreAt (I.is_at index.now) (heap_items waiting.new)) }
    ensures ordered { OnOk result (IsHeap waiting_cmp (heap_items waiting.new)) }
{
    let mut ahead = first;
    let mut place = at;
    'down: while index.count_below(&ahead.name, place) > 0 {
        match index.below(&ahead.name, place) {
            Below::Leaf(bucket) => return Ok(Some((ahead.region, bucket))),
            Below::Halves { zero, one } => {
                let (near, far) = halves_at(&ahead, kept.from, zero, one);
                put_far(waiting, kept, far)?;
                ahead = near.ahead;
                place = near.place;
            }
        }
    }
    Ok(None)
}

/// Returns two halves with their places, the nearer first.
#[inline(always)]
pub fn halves_at<P: Drop>(ahead: &Ahead, from: Point, zero: P, one: P) -> (Waiting<P>, Waiting<P>)
    requires room { length ahead.now.name < 64 }
    requires ahead { IsAhead from ahead.now }
    ensures { AreHalves from ahead.now zero one result.0 result.1 }
{
    let (fore, hind) = ahead.halves(from);
    let fore = Waiting {
        ahead: fore,
        place: zero,
    };
    let hind = Waiting {
        ahead: hind,
        place: one,
    };
    by_distance(fore, hind)
}

// Adds a subtree to those that wait, unless `k` of the kept objects are nearer.
#[inline(always)]
fn put_far<P: Drop>(
    waiting: &mut BinaryHeap<Waiting<P>>,
    kept: &Kept,
    far: Waiting<P>,
) -> Result<(), AllocError>
    requires held { IsHeld kept.now }
    requires some { 1 ≤ kept.now.k }
    ensures put { OnOk result (IsPutOrOut kept.now far (heap_items waiting.old) (heap_items waiting.new)) }
    ensures ordered { IsHeap waiting_cmp (heap_items waiting.old) → OnOk result (IsHeap waiting_cmp (heap_items waiting.new)) }
{
    if kept.has_nearer(far.ahead.least.0) {
        return Ok(());
    }
    waiting.push(far)?;
    Ok(())
}

// Adds the objects of a bucket, whose points are in an area. If one object is not kept, the later ones at its point
// aren't either.
fn add_rows<L: Ledger>(
    kept: &mut Kept,
    bucket: &Bucket,
    area: &Region,
    steps: &mut Steps<L>,
) -> Result<(), AllocError>
    requires { IsHeld kept.old }
    ensures passes { OnOk result (Passes (objects_of bucket.now.rows) kept.old kept.new) }
    ensures opened { steps.new ≡ steps.old + 1 }
{
    let mut within = kept.reach(area);
    let mut rows = bucket.rows(steps);
    while let Some(row) = rows.next() {
        if !add_row(kept, &mut within, area, row)? {
            rows.pass_key(row.key);
        }
    }
    Ok(())
}

// Adds the object of a row unless it is too far, and returns whether it was kept. After `k` objects are kept, most rows
// that are too far are recognized by their key alone.
#[inline(always)]
fn add_row(
    kept: &mut Kept,
    within: &mut Reach,
    area: &Region,
    row: &Row,
) -> Result<bool, AllocError>
    requires held { IsHeld kept.old }
    requires reach { HasReach within.old kept.old }
    ensures passes { OnOk result (Passes (placed_of row.now ∷ []) kept.old kept.new) }
    ensures reach { OnOk result (HasReach within.new kept.new) }
    ensures beyond { IfOk result (λ goes. goes ≡ false → IsBeyond kept.new (placed_of row.now)) }
{
    if within.leaves_out(row.key) {
        return Ok(false);
    }
    let one = Candidate::new(placed(row), kept.from);
    if within.farthest < one.distance {
        return Ok(false);
    }
    match kept.add(one)? {
        Came::More => {
            *within = kept.reach(area);
            Ok(true)
        }
        Came::Instead => {
            within.farthest = kept.farthest();
            Ok(true)
        }
        Came::Beyond => Ok(false),
    }
}
