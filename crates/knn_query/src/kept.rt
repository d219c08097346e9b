//! The nearest objects that a search has seen so far.
ghost use Rattle.std.specs.Prelude.{◌≡◌, ◌≤◌, ◌<◌, ◌∷◌, nat_le, List, [], map, take, IfOk, OnOk, IfSome};
ghost use Rattle.std.specs.BinaryHeap.{heap_items, IsHeap};
ghost use Rattle.zorder.specs.declared.points.Placed.{Placed};
ghost use Rattle.zorder.specs.Distance.{distance};
ghost use Rattle.zorder.specs.Key.{IsPoint};
ghost use Rattle.plain_list.specs.Queries.{ranked};
ghost use Rattle.plain_list.specs.AtPlaces.{AreOf};
ghost use Rattle.knn_query.specs.Ahead.{number_nearer};
ghost use Rattle.knn_query.specs.Candidates.{candidate_cmp, object_of, IsMeasured, Replaces};
ghost use Rattle.knn_query.specs.Passes.{held, HasReach, IsEmpty, IsHeld, IsOut, IsOutOf, Passes, Tells};

use crate::candidate::Candidate;
use crate::reach::{Reach, box_within, cutting};
use plain_list::PlacedList;
use prefix_names::KeyBox;
use std::alloc::{AllocError, Global};
use std::collections::BinaryHeap;
use zorder::{Placed, Point, Region, coordinates_fit};

/// What `add` did with an object.
pub(crate) enum Came {
    /// One object more is kept.
    More,
    /// The object replaced the farthest one.
    Instead,
    /// It was not kept: `k` objects are kept that come before it.
    Beyond,
}

/// The `k` nearest of the objects that were added, or all if they are fewer. The farthest is at the top of the heap.
#[derive(Drop)]
pub(crate) struct Kept {
    pub(crate) from: Point,
    pub(crate) k: usize,
    pub(crate) heap: BinaryHeap<Candidate>,
}

impl Kept {
    pub(crate) fn new(alloc: Global, from: Point, k: usize) -> Result<Kept, AllocError>
        ensures { IfOk result (IsEmpty from k) }
    {
        Ok(Kept {
            from,
            k,
            heap: BinaryHeap::with_capacity(alloc, k)?,
        })
    }

    /// Adds an object if it is one of the `k` nearest so far.
    pub(crate) fn add(&mut self, one: Candidate) -> Result<Came, AllocError>
        requires held { IsHeld self.old }
        requires measured { IsMeasured self.old.from one }
        ensures passes { OnOk result (Passes (object_of one ∷ []) self.old self.new) }
        ensures came { IfOk result (Tells self.new (object_of one)) }
    {
        if self.heap.len() < self.k {
            self.heap.push(one)?;
            return Ok(Came::More);
        }
        if replace_farthest(&mut self.heap, one) {
            Ok(Came::Instead)
        } else {
            Ok(Came::Beyond)
        }
    }

    /// Returns where objects of an area have to be to be among the nearest.
    pub(crate) fn reach(&self, area: &Region) -> Reach
        requires { IsHeld self.now }
        ensures { HasReach result self.now }
    {
        Reach {
            corners: self.corners(area),
            farthest: self.farthest(),
        }
    }

    /// Returns a squared distance. No object beyond it can be among the nearest.
    pub(crate) fn farthest(&self) -> u128
        requires { IsHeld self.now }
        ensures { (m : Placed) → IsPoint m.at → result < distance m.at self.now.from → IsOut self.now m }
    {
        coordinates_fit(self.from);
        match self.heap.peek() {
            Some(farthest) if self.k <= self.heap.len() => farthest.distance,
            _ => u128::MAX,
        }
    }

    // Returns a box around all objects of an area that can be among the nearest. It is `None` if the box leaves out no
    // part of the area.
    fn corners(&self, area: &Region) -> Option<KeyBox>
        requires { IsHeld self.now }
        ensures { IfSome result (IsOutOf self.now) }
    {
        match self.heap.peek() {
            Some(farthest) if self.k <= self.heap.len() => {
                cutting(box_within(self.from, farthest.at), area)
            }
            _ => None,
        }
    }

    /// Returns whether `k` of the kept objects are nearer than this squared distance.
    pub(crate) fn has_nearer(&self, least: u128) -> bool
        requires held { IsHeld self.now }
        requires some { 1 ≤ self.now.k }
        ensures { result ≡ nat_le self.now.k (number_nearer self.now.from least (held self.now)) }
    {
        match self.heap.peek() {
            Some(farthest) => self.heap.len() >= self.k && farthest.distance < least,
            None => false,
        }
    }

    /// Returns the nearest objects, in order.
    pub(crate) fn into_list(self, alloc: Global) -> Result<PlacedList, AllocError>
        requires { IsHeld self }
        ensures { (places : List Placed) → AreOf places (held self) → IfOk result (λ list.
            list ≡ take self.k (ranked self.from (held self))) }
    {
        let mut sorted = self.heap.into_vec();
        // The first sort compares one word instead of two, which takes half the time. The second sort only reorders
        // objects that are equal in this word.
        sorted.sort_unstable_by_key(|c| c.roughly());
        sorted.sort_unstable();
        Ok(PlacedList::from_vec(objects(alloc, &sorted)?))
    }
}

// Replaces the farthest candidate by `one`, if `one` comes before it. Returns whether it did.
fn replace_farthest(heap: &mut BinaryHeap<Candidate>, one: Candidate) -> bool
    requires { IsHeap candidate_cmp (heap_items heap.old) }
    ensures { Replaces one (heap_items heap.old) (heap_items heap.new) result }
{
    let Some(farthest) = heap.peek() else {
        return false;
    };
    if !one.cmp(farthest).is_lt() {
        return false;
    }
    let Some(mut farthest) = heap.peek_mut() else {
        return false;
    };
    *farthest = one;
    true
}

fn objects(alloc: Global, candidates: &[Candidate]) -> Result<Vec<Placed>, AllocError>
    ensures { IfOk result (λ list. list.items ≡ map object_of candidates.now) }
{
    candidates.iter().map(|c| c.placed()).collect(alloc)
}
