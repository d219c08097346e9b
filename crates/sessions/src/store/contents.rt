//! Copies of a store's objects, alone or with the names of its leaves.
ghost use Rattle.std.specs.Prelude.{◌≡◌, false, IfOk};
ghost use Rattle.plain_list.specs.History.{world_after};
ghost use Rattle.plain_list.specs.World.{IsWorld};
ghost use Rattle.commit_book.specs.Refusals.{IsMemory, IsRefusedBy, closed_refusal};
ghost use Rattle.sessions.specs.Contents.{IsContent, IsContentAnew};
ghost use Rattle.sessions.specs.Runs.{HasLooked};
ghost use Rattle.sessions.specs.Views.{IsWorldAt};

use super::Store;
use crate::shared::{SharedBook, WorldAt};
use crate::start::Start;
use book_lock::Pass;
use commit_book::{Anew, BookFault, Content};
use disk_trait::LogDisk;
use index_layer::Index;
use plain_list::World;
use std::alloc::Global;
use std::sync::Wait;
use zorder::Memory;

impl<I: Index, D: LogDisk, O: Start> Store<I, D, O> {
    /// Copies all objects, as of a place after everything that the pass has seen. Other callers wait until the copy is
    /// done.
    pub fn world<R: Wait>(
        &self,
        rt: &R,
        pass: &mut Pass<SharedBook<I, D, O>>,
    ) -> Result<World, Memory>
        requires lock { pass.old.lock ≡ self.now }
        requires off { pass.old.holds ≡ false }
        ensures looked { HasLooked pass.old pass.new }
        ensures world { IfOk result (λ w. w ≡ world_after pass.new.origin.world pass.new.seen) }
        ensures is_world { IfOk result (λ w. IsWorld w) }
    {
        let book = self.take(rt, pass);
        let world = book.world();
        self.put_back(pass, book, false);
        world
    }

    /// The same, with the place of the last call before the copy. Other callers wait until the copy is done.
    pub fn world_at<R: Wait>(
        &self,
        rt: &R,
        pass: &mut Pass<SharedBook<I, D, O>>,
    ) -> Result<WorldAt, Memory>
        requires lock { pass.old.lock ≡ self.now }
        requires off { pass.old.holds ≡ false }
        ensures looked { HasLooked pass.old pass.new }
        ensures world_at { IfOk result (λ at. IsWorldAt at.world at.place pass.new) }
    {
        let book = self.take(rt, pass);
        let world = book.world_at();
        self.put_back(pass, book, false);
        world
    }

    /// Copies all objects and the names of the leaves, as of a place after everything that the pass has seen. Open splits
    /// are not part of the copy. Other callers wait until the copy is done. After a failed append the call returns
    /// `Closed`, because a log of the copy would differ from what the store's own log may have.
    pub fn content<R: Wait>(
        &self,
        rt: &R,
        pass: &mut Pass<SharedBook<I, D, O>>,
    ) -> Result<Content, BookFault>
        requires lock { pass.old.lock ≡ self.now }
        requires off { pass.old.holds ≡ false }
        ensures looked { HasLooked pass.old pass.new }
        ensures content { IfOk result (λ c. IsContent I.WIDTH c pass.new) }
        ensures refused { IsRefusedBy IsMemory (closed_refusal pass.new.seen) result }
    {
        let book = self.take(rt, pass);
        let content = book.content();
        self.put_back(pass, book, false);
        content
    }

    /// Copies all objects in the same way, and builds an index over them with the leaves that the bucket size requires
    /// and no more. The store keeps its own index. Other callers wait until the index is built.
    pub fn anew<R: Wait>(
        &self,
        rt: &R,
        alloc: Global,
        pass: &mut Pass<SharedBook<I, D, O>>,
    ) -> Result<Anew<I>, BookFault>
        requires lock { pass.old.lock ≡ self.now }
        requires off { pass.old.holds ≡ false }
        ensures looked { HasLooked pass.old pass.new }
        ensures anew { IfOk result (λ a. IsContentAnew I.WIDTH (I.leaves a.index) a.content pass.new) }
        ensures refused { IsRefusedBy IsMemory (closed_refusal pass.new.seen) result }
    {
        let book = self.take(rt, pass);
        let anew = book.anew(alloc);
        self.put_back(pass, book, false);
        anew
    }
}
