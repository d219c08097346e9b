//! How far a browse has come: the objects that it has found, and the subtrees that it hasn't opened.
ghost use Rattle.std.specs.Prelude.{◌≡◌, ◌≤◌, ◌<◌, ◌+◌, ◌++◌, ◌∷◌, [], false, map, IfOk, OnOk, OnErr, MatchOption, Some, Ok};
ghost use Rattle.std.specs.BinaryHeap.{heap_items, IsHeap};
ghost use Rattle.std.specs.List.Sorted.{IsPermutation};
ghost use Rattle.index_layer.specs.Narrowed.{PassesBare};
ghost use Rattle.knn_query.specs.Waiting.{waiting_cmp};
ghost use Rattle.browse_query.specs.Found.{found_of, object_of};
ghost use Rattle.browse_query.specs.Coming.{IsNext, OpensOnce, OpensNearFirst};
ghost use Rattle.browse_query.specs.Front.{coming, founds, last_cmp, with_nearest, work, AreFarther, Begins, GoesOn, HasFirst, IsFront, IsTaken};

use crate::found::Found;
use bucket_versions::Bucket;
use index_layer::{Below, Index};
use knn_query::{Ahead, Waiting, halves_at};
use std::alloc::{AllocError, Global};
use std::cmp::Reverse;
use std::collections::BinaryHeap;
use std::sync::ledger::Ledger;
use step_count::Steps;
use zorder::{Memory, Name, Placed, Point};

// For so many more waiting subtrees memory is taken at once.
const MANY_AHEAD: usize = 20;

/// The objects that were found and not returned yet, and the subtrees that aren't opened yet.
#[derive(Drop)]
pub(crate) struct Front<'a, P> {
    pub(crate) from: Point,
    /// The nearest subtree. If there is none, no other one waits.
    pub(crate) nearest: Option<Waiting<&'a P>>,
    pub(crate) waiting: BinaryHeap<Waiting<&'a P>>,
    pub(crate) found: BinaryHeap<Reverse<Found>>,
}

impl<'a, P> Front<'a, P> {
    /// Begins at a name that has all rows.
    pub(crate) fn at(alloc: Global, from: Point, name: Name, place: &'a P) -> Front<'a, P>
        ensures { Begins from name place.now result }
    {
        Front {
            from,
            nearest: Some(Waiting {
                ahead: Ahead::at(name, from),
                place,
            }),
            waiting: BinaryHeap::new(alloc),
            found: BinaryHeap::new(alloc),
        }
    }

    /// Returns whether no unopened subtree may have an object that comes before all found ones.
    fn has_first(&self) -> bool
        requires { IsHeap last_cmp (heap_items self.now.found) }
        ensures { HasFirst self.now result }
    {
        match (&self.nearest, self.found.peek()) {
            (None, _) => true,
            (Some(next), Some(first)) => first.0.distance < next.ahead.least.0,
            (Some(_), None) => false,
        }
    }
}

/// Returns the first of the objects that are to come, and removes it from them.
pub(crate) fn next_of<'a, I: Index, L: Ledger>(
    index: &'a I,
    front: &mut Front<'a, I::Place>,
    steps: &mut Steps<L>,
) -> Result<Option<Placed>, Memory>
    requires { IsFront (I.is_at index.now) front.old }
    ensures front { IsFront (I.is_at index.now) front.new }
    ensures from { front.new.from ≡ front.old.from }
    ensures next { IsNext result (coming (I.leaves index.now) front.old).objects (coming (I.leaves index.now) front.new).objects }
    ensures opened { OpensOnce (coming (I.leaves index.now) front.old).leaves
        (coming (I.leaves index.now) front.new).leaves steps.old steps.new }
    ensures near { OpensNearFirst (coming (I.leaves index.now) front.old) (coming (I.leaves index.now) front.new) steps.old steps.new }
{
    'down: while !front.has_first() {
        open_nearest(index, front, steps)?;
    }
    Ok(take_first(&mut front.found))
}

// Removes the first of the found objects and returns it.
fn take_first(found: &mut BinaryHeap<Reverse<Found>>) -> Option<Placed>
    requires { IsHeap last_cmp (heap_items found.old) }
    ensures { IsTaken result (heap_items found.old) (heap_items found.new) }
{
    let first = found.pop()?;
    Some(first.0.placed())
}

// Opens the nearest subtree, if it is a leaf. Else its nearer half is the nearest, and the other one waits.
fn open_nearest<'a, I: Index, L: Ledger>(
    index: &'a I,
    front: &mut Front<'a, I::Place>,
    steps: &mut Steps<L>,
) -> Result<(), Memory>
    requires front { IsFront (I.is_at index.now) front.old }
    requires some { HasFirst front.old false }
    ensures goes_on { GoesOn (I.leaves index.now) (I.is_at index.now) steps.old steps.new front.old front.new }
    ensures less { OnOk result (work front.new < work front.old) }
{
    let Some(next) = &front.nearest else {
        return Ok(());
    };
    let ahead = next.ahead;
    let place = next.place;
    if index.count_below(&ahead.name, place) == 0 {
        front.nearest = take_nearest(&mut front.waiting);
        return Ok(());
    }
    match index.below(&ahead.name, place) {
        Below::Leaf(bucket) => {
            push_rows(&mut front.found, bucket, front.from, steps)?;
            front.nearest = take_nearest(&mut front.waiting);
        }
        Below::Halves { zero, one } => {
            let (near, far) = halves_at(&ahead, front.from, zero, one);
            put(&mut front.waiting, far)?;
            front.nearest = Some(near);
        }
    }
    Ok(())
}

// Removes the nearest of the waiting subtrees and returns it.
fn take_nearest<P: Drop>(waiting: &mut BinaryHeap<Waiting<P>>) -> Option<Waiting<P>>
    requires { IsHeap waiting_cmp (heap_items waiting.old) }
    ensures all { IsPermutation (heap_items waiting.old) (with_nearest result (heap_items waiting.new)) }
    ensures farther { AreFarther result (heap_items waiting.new) }
    ensures ordered { IsHeap waiting_cmp (heap_items waiting.new) }
{
    waiting.pop()
}

// Adds a subtree to those that wait.
fn put<P: Drop>(waiting: &mut BinaryHeap<Waiting<P>>, far: Waiting<P>) -> Result<(), AllocError>
    requires { IsHeap waiting_cmp (heap_items waiting.old) }
    ensures all { OnOk result (IsPermutation (far ∷ heap_items waiting.old) (heap_items waiting.new)) }
    ensures ordered { IsHeap waiting_cmp (heap_items waiting.new) }
    ensures err { OnErr result (heap_items waiting.new ≡ heap_items waiting.old) }
{
    waiting.reserve(MANY_AHEAD)?;
    waiting.push(far)?;
    Ok(())
}

// Adds the objects of a bucket. Before it opens the bucket, it takes the memory for all of them.
fn push_rows<L: Ledger>(
    found: &mut BinaryHeap<Reverse<Found>>,
    bucket: &Bucket,
    from: Point,
    steps: &mut Steps<L>,
) -> Result<(), AllocError>
    requires ordered { IsHeap last_cmp (heap_items found.old) }
    ensures added { OnOk result (IsPermutation (founds (heap_items found.old)
        ++ map (found_of from) bucket.now.rows) (founds (heap_items found.new))) }
    ensures ordered { IsHeap last_cmp (heap_items found.new) }
    ensures opened { OnOk result (steps.new ≡ steps.old + 1) }
    ensures err { OnErr result ((heap_items found.new ≡ heap_items found.old) × (steps.new ≡ steps.old)) }
{
    found.reserve(bucket.count() as usize)?;
    for row in bucket.rows(steps) {
        found.push(Reverse(Found::new(row, from)))?;
    }
    Ok(())
}
