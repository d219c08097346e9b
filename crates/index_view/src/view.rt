//! A snapshot of an index, and queries over it.
ghost use Rattle.std.specs.Prelude.{◌≡◌, ◌≤◌, ◌+◌, ◌==◌, IfOk, length, take};
ghost use Rattle.zorder.specs.Region.{IsBox};
ghost use Rattle.plain_list.specs.Queries.{members_in, ranked};
ghost use Rattle.table_share.specs.Standing.{OfPlaces};
ghost use Rattle.range_query.specs.Cut.{leaves_cut, leaves_met};
ghost use Rattle.browse_query.specs.Coming.{AreNoMore};
ghost use Rattle.index_view.specs.Visits.{VisitsEach};

use crate::browsed::first_of;
use crate::gathered::Gathered;
use crate::visits::{Visit, visit_each};
use browse_query::Browse;
use index_layer::Index;
use plain_list::PlacedList;
use std::alloc::Global;
use std::marker::{Brand, Model};
use std::sync::ledger::{Blank, Ledger};
use step_count::Steps;
use zorder::{Memory, Name, Point, Region};

// The greatest number of objects that a search keeps. If more are wanted, a browse returns them.
const MOST_KEPT: u32 = 2_048;

/// The objects of an index as they were after some number of calls. A view never changes. It owns its index, so it may
/// be kept for any time, sent to another thread, and shared by reference.
#[derive(Drop)]
pub struct View<I: Index> {
    index: I,
    place: u64,
}

impl<I: Index> Model for View<I> {
    ghost use Rattle.index_view.specs.Seen.{Seen};

    ghost Value = { Seen };

    ghost view = { λ v. record { leaves = I.leaves v.index; place = v.place } };
}

impl<I: Index> View<I> {
    /// Creates a view over an index. `place` is the number of calls of the history whose changes the index has.
    pub fn new(index: I, place: u64) -> View<I>
        ensures { result ≡ record { leaves = I.leaves index; place = place } }
    {
        View { index, place }
    }

    /// Returns the number of calls of the history before this view. The answers are those after exactly these calls.
    pub fn place(&self) -> u64
        ensures { result ≡ self.now.place }
    {
        self.place
    }

    /// Returns the number of objects. It opens no bucket. A `KdTrie` stores this number; the other indexes add up the
    /// counts of their leaves.
    pub fn len(&self) -> u64
        ensures { OfPlaces self.now.leaves (λ places. result ≡ length places) }
    {
        self.index.count_below(&Name::whole(), self.index.top())
    }

    pub fn is_empty(&self) -> bool
        ensures { OfPlaces self.now.leaves (λ places. result ≡ (length places == 0)) }
    {
        self.len() == 0
    }

    /// Returns the number of objects in the box. It opens only the buckets of leaves that have some points in the box
    /// but not all, and takes no memory.
    pub fn count(&self, region: &Region) -> u64
        requires { IsBox region.now }
        ensures { OfPlaces self.now.leaves (λ places. result ≡ length (members_in region.now places)) }
    {
        self.count_over::<Brand>(region, Blank::new(1))
    }

    // As `count`, with a count of steps that nobody reads.
    fn count_over<L: Ledger>(&self, region: &Region, blank: Blank) -> u64
        requires name { blank.name ≡ L.name }
        requires parts { blank.parts ≡ L.parts }
        requires one_part { blank.parts ≡ 1 }
        requires is_box { IsBox region.now }
        ensures { OfPlaces self.now.leaves (λ places. result ≡ length (members_in region.now places)) }
    {
        let mut steps = Steps::<L>::new(blank);
        self.count_counted(region, &mut steps)
    }

    /// As `count`. Each bucket that it opens is one step.
    pub fn count_counted<L: Ledger>(&self, region: &Region, steps: &mut Steps<L>) -> u64
        requires { IsBox region.now }
        ensures number { OfPlaces self.now.leaves (λ places. result ≡ length (members_in region.now places)) }
        ensures opened { steps.new ≡ steps.old + length (leaves_cut region.now self.now.leaves) }
    {
        range_query::count_in(&self.index, region, steps)
    }

    /// Returns all objects in the box, in the order of their ids, however many there are. It takes memory once, for
    /// exactly these objects. If there is no memory, it returns `Err`, and the view answers the next query as before.
    pub fn within(&self, alloc: Global, region: &Region) -> Result<PlacedList, Memory>
        requires { IsBox region.now }
        ensures { OfPlaces self.now.leaves (λ places. IfOk result (λ list. list ≡ members_in region.now places)) }
    {
        let mut gathered = Gathered::with_capacity(alloc, self.count(region) as usize)?;
        self.for_each_in(region, &mut gathered);
        if gathered.is_short {
            return Err(Memory);
        }
        let mut found = gathered.objects;
        found.sort_unstable_by_key(|m| m.id);
        Ok(PlacedList::from_vec(found))
    }

    /// Calls the visitor once for each object in the box and for no other, in key order: by the Morton key of the
    /// point, and at the same point by id. It takes no memory, however many objects there are.
    pub fn for_each_in<V: Visit>(&self, region: &Region, visitor: &mut V)
        requires { IsBox region.now }
        ensures { OfPlaces self.now.leaves (λ places. VisitsEach V.does region.now places visitor.old visitor.new) }
    {
        self.for_each_over::<V, Brand>(region, visitor, Blank::new(1))
    }

    fn for_each_over<V: Visit, L: Ledger>(&self, region: &Region, visitor: &mut V, blank: Blank)
        requires name { blank.name ≡ L.name }
        requires parts { blank.parts ≡ L.parts }
        requires one_part { blank.parts ≡ 1 }
        requires is_box { IsBox region.now }
        ensures { OfPlaces self.now.leaves (λ places. VisitsEach V.does region.now places visitor.old visitor.new) }
    {
        let mut steps = Steps::<L>::new(blank);
        self.for_each_counted(region, visitor, &mut steps)
    }

    /// As `for_each_in`. Each bucket that it opens is one step.
    pub fn for_each_counted<V: Visit, L: Ledger>(
        &self,
        region: &Region,
        visitor: &mut V,
        steps: &mut Steps<L>,
    )
        requires { IsBox region.now }
        ensures visits { OfPlaces self.now.leaves (λ places. VisitsEach V.does region.now places visitor.old visitor.new) }
        ensures opened { steps.new ≡ steps.old + length (leaves_met region.now self.now.leaves) }
    {
        visit_each(&self.index, region, visitor, steps)
    }

    /// Returns the `k` nearest objects, or all if there are fewer. The nearest comes first, and at the same distance
    /// the lesser id. `k` may be any number. If memory runs out, it returns `Err`, and the view answers the next query
    /// as before.
    pub fn nearest(&self, alloc: Global, at: Point, k: u32) -> Result<PlacedList, Memory>
        ensures { OfPlaces self.now.leaves (λ places. IfOk result (λ list. list ≡ take k (ranked at places))) }
    {
        if k == 0 {
            return Ok(PlacedList::from_vec(Vec::new(alloc)));
        }
        if k > MOST_KEPT {
            return self.many_over::<Brand>(alloc, at, k, Blank::new(1));
        }
        self.nearest_over::<Brand>(alloc, at, k, Blank::new(1))
    }

    /// Starts to return all objects one after the other, the nearest first. It opens no bucket and takes no memory.
    /// The browse borrows the view. Several browses may borrow it at once.
    pub fn browse(&self, alloc: Global, at: Point) -> Browse<'_, I>
        ensures from { result.from ≡ at }
        ensures objects { OfPlaces self.now.leaves (λ places. result.objects ≡ ranked at places) }
        ensures leaves { AreNoMore result.leaves self.now.leaves }
    {
        Browse::new(alloc, &self.index, at)
    }

    // As `nearest`, by a browse, which has no greatest number of objects.
    fn many_over<L: Ledger>(
        &self,
        alloc: Global,
        at: Point,
        k: u32,
        blank: Blank,
    ) -> Result<PlacedList, Memory>
        requires name { blank.name ≡ L.name }
        requires parts { blank.parts ≡ L.parts }
        requires one_part { blank.parts ≡ 1 }
        ensures { OfPlaces self.now.leaves (λ places. IfOk result (λ list. list ≡ take k (ranked at places))) }
    {
        let mut steps = Steps::<L>::new(blank);
        let room = self.len().min(u64::from(k)) as usize;
        first_of(alloc, self.browse(alloc, at), k, room, &mut steps)
    }

    fn nearest_over<L: Ledger>(
        &self,
        alloc: Global,
        at: Point,
        k: u32,
        blank: Blank,
    ) -> Result<PlacedList, Memory>
        requires name { blank.name ≡ L.name }
        requires parts { blank.parts ≡ L.parts }
        requires one_part { blank.parts ≡ 1 }
        requires least { 1 ≤ k }
        requires most { k ≤ 2048 }
        ensures { OfPlaces self.now.leaves (λ places. IfOk result (λ list. list ≡ take k (ranked at places))) }
    {
        let mut steps = Steps::<L>::new(blank);
        knn_query::nearest(alloc, &self.index, at, k, &mut steps)
    }
}
