//! The objects of an index, the nearest first.
ghost use Rattle.std.specs.Prelude.{◌≡◌, ◌≤◌, Bool, List, length};
ghost use Rattle.plain_list.specs.Queries.{ranked};
ghost use Rattle.table_share.specs.Standing.{OfPlaces};
ghost use Rattle.browse_query.specs.Coming.{AreNoMore, IsNext, OpensOnce, OpensNearFirst};

use crate::front::{Front, next_of};
use index_layer::Index;
use std::alloc::Global;
use std::marker::{Brand, Model};
use std::sync::ledger::{Blank, Ledger};
use step_count::Steps;
use zorder::{Memory, Name, Placed, Point};

/// The objects of an index by their distance from a point, one after the other. Contracts see it as what is still to
/// come: the objects in order, and the leaves whose buckets aren't opened yet.
///
/// The browse borrows the index, so the objects don't change meanwhile.
#[derive(Drop)]
pub struct Browse<'a, I: Index> {
    index: &'a I,
    front: Front<'a, I::Place>,
}

impl<'a, I: Index> Model for Browse<'a, I> {
    ghost use Rattle.browse_query.specs.Coming.{Coming};

    ghost Value = { Coming };

    ghost use Rattle.browse_query.specs.Front.{coming, IsFront};

    ghost view = { λ b. coming (I.leaves b.index.now) b.front };

    ghost invariant = { λ b. IsFront (I.is_at b.index.now) b.front };
}

impl<'a, I: Index> Browse<'a, I> {
    /// Begins before the nearest object. It opens no bucket and takes no memory.
    pub fn new(alloc: Global, index: &'a I, from: Point) -> Browse<'a, I>
        ensures from { result.from ≡ from }
        ensures objects { OfPlaces (I.leaves index.now) (λ places. result.objects ≡ ranked from places) }
        ensures leaves { AreNoMore result.leaves (I.leaves index.now) }
    {
        let (name, place) = index.narrow(Name::whole(), index.top());
        Browse {
            index,
            front: Front::at(alloc, from, name, place),
        }
    }

    /// Returns the next object: the nearest that is left, and of several at the same distance the one with the least
    /// id. After the last object, each call returns `None`.
    ///
    /// After `Err(Memory)` no object is lost: a later call returns the same one.
    pub fn next(&mut self) -> Result<Option<Placed>, Memory>
        ensures from { self.new.from ≡ self.old.from }
        ensures next { IsNext result self.old.objects self.new.objects }
    {
        self.next_over::<Brand>(Blank::new(1))
    }

    // As `next`, with a count of steps that nobody reads.
    fn next_over<L: Ledger>(&mut self, blank: Blank) -> Result<Option<Placed>, Memory>
        requires name { blank.name ≡ L.name }
        requires parts { blank.parts ≡ L.parts }
        requires one_part { blank.parts ≡ 1 }
        ensures from { self.new.from ≡ self.old.from }
        ensures next { IsNext result self.old.objects self.new.objects }
    {
        let mut steps = Steps::<L>::new(blank);
        self.next_counted(&mut steps)
    }

    /// As `next`. Each bucket that it opens is one step.
    pub fn next_counted<L: Ledger>(
        &mut self,
        steps: &mut Steps<L>,
    ) -> Result<Option<Placed>, Memory>
        ensures from { self.new.from ≡ self.old.from }
        ensures next { IsNext result self.old.objects self.new.objects }
        ensures opened { OpensOnce self.old.leaves self.new.leaves steps.old steps.new }
        ensures near { OpensNearFirst self.old self.new steps.old steps.new }
    {
        next_of(self.index, &mut self.front, steps)
    }
}
