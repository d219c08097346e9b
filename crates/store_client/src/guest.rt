//! A client of a pool, while a thread has it.
ghost use Rattle.std.specs.Prelude.{◌≡◌, ◌≤◌, IfOk};
ghost use Rattle.zorder.specs.Region.{IsBox};
ghost use Rattle.plain_list.specs.Answer.{IsValid};
ghost use Rattle.plain_list.specs.History.{failed_cell};
ghost use Rattle.plain_list.specs.World.{IsWorld};
ghost use Rattle.sessions.specs.Rooms.{IsRoom};
ghost use Rattle.sessions.specs.Runs.{HasLooked};
ghost use Rattle.sessions.specs.Syncs.{SyncsPass, WasDurable};
ghost use Rattle.sessions.specs.Views.{IsView, IsWorldAt};
ghost use Rattle.store_file.specs.Moving.{RotatesAbove};
ghost use Rattle.store_client.specs.Asked.{Asked};
ghost use Rattle.store_client.specs.Batches.{Applies};
ghost use Rattle.store_client.specs.Caller.{IsNearEnd, world_seen};
ghost use Rattle.store_client.specs.Verbs.{put_answer, move_answer, gone_answer, at_answer, listed_answer, nearest_answer, AskedAs, Reports};

use crate::answers::{Listed, MoveReply, PutReply, Report};
use crate::batch::Batch;
use crate::batches::Replies;
use crate::client::Reply;
use crate::pool::{Desk, Lender};
use commit_book::{BookFault, Room};
use disk_trait::LogDisk;
use index_layer::Index;
use index_view::View;
use plain_list::{Change, Op, PlacedList, Stamped, World};
use sessions::{CallFault, Start, WorldAt};
use std::marker::Model;
use std::sync::atomic::{AtomicU64, Ordering};
use std::sync::{MutexGuard, Wait};
use store_file::{NotRotatedOver, Rotation};
use zorder::{Memory, Point, Region};

/// A client of a pool that one thread has. It goes back to the pool when it is dropped. Contracts see the client. It has
/// seen all that the store had seen when the pool was opened, and each of its calls comes after its earlier ones.
pub struct Guest<'p, 's, I: Index, D: LogDisk, O: Start, L: Lender> {
    pub(crate) desk: MutexGuard<'p, Desk<'s, I, D, O, L>>,
    pub(crate) left: &'p AtomicU64,
}

impl<'p, 's, I: Index, D: LogDisk, O: Start, L: Lender> Model for Guest<'p, 's, I, D, O, L> {
    ghost use Rattle.std.specs.Sync.Mutex.{mutex_guard_value};
    ghost use Rattle.store_client.specs.Caller.{Caller};

    ghost Value = { Caller };

    ghost view = { λ g. mutex_guard_value g.desk };
}

impl<'p, 's, I: Index, D: LogDisk, O: Start, L: Lender> Drop for Guest<'p, 's, I, D, O, L> {
    fn drop(self) {
        let Guest { desk, left } = self;
        drop(desk);
        left.fetch_add(1, Ordering::SeqCst);
        left.wake_one();
    }
}

impl<'p, 's, I: Index, D: LogDisk, O: Start, L: Lender> Guest<'p, 's, I, D, O, L> {
    /// The place of the client's last call that was answered, as `Client::place`. Another thread may have made that call.
    pub fn place(&self) -> u64
        ensures { result ≡ self.now.place }
    {
        self.desk.client.place()
    }

    /// What that call has changed, as `Client::last_change`.
    pub fn last_change(&self) -> Option<Change>
        ensures { result ≡ self.now.change }
    {
        self.desk.client.last_change()
    }

    /// As `Client::ask`.
    pub fn ask<R: Wait>(&mut self, rt: &R, op: &Op) -> Result<Reply, CallFault>
        requires { IsValid op.now }
        ensures { Asked I.WIDTH op.now self.old self.new result }
    {
        self.desk.client.ask(rt, op)
    }

    /// As `Client::put`.
    pub fn put<R: Wait>(
        &mut self,
        rt: &R,
        id: u64,
        at: Point,
        moment: u64,
    ) -> Result<PutReply, CallFault>
        ensures { AskedAs put_answer I.WIDTH (Op.Put id at moment) self.old self.new result }
    {
        self.desk.client.put(rt, id, at, moment)
    }

    /// As `Client::move_to`.
    pub fn move_to<R: Wait>(
        &mut self,
        rt: &R,
        id: u64,
        at: Point,
        moment: u64,
    ) -> Result<MoveReply, CallFault>
        ensures { AskedAs move_answer I.WIDTH (Op.Move id at moment) self.old self.new result }
    {
        self.desk.client.move_to(rt, id, at, moment)
    }

    /// As `Client::remove`.
    pub fn remove<R: Wait>(&mut self, rt: &R, id: u64) -> Result<Option<Stamped>, CallFault>
        ensures { AskedAs gone_answer I.WIDTH (Op.Remove id) self.old self.new result }
    {
        self.desk.client.remove(rt, id)
    }

    /// As `Client::find`.
    pub fn find<R: Wait>(&mut self, rt: &R, id: u64) -> Result<Option<Stamped>, CallFault>
        ensures { AskedAs at_answer I.WIDTH (Op.Find id) self.old self.new result }
    {
        self.desk.client.find(rt, id)
    }

    /// As `Client::within`.
    pub fn within<R: Wait>(&mut self, rt: &R, region: Region) -> Result<Listed, CallFault>
        requires { IsBox region }
        ensures { AskedAs listed_answer I.WIDTH (Op.Within region) self.old self.new result }
    {
        self.desk.client.within(rt, region)
    }

    /// As `Client::nearest`.
    pub fn nearest<R: Wait>(&mut self, rt: &R, at: Point, k: u32) -> Result<PlacedList, CallFault>
        requires least { 1 ≤ k }
        requires most { k ≤ 2048 }
        ensures { AskedAs nearest_answer I.WIDTH (Op.Near at k) self.old self.new result }
    {
        self.desk.client.nearest(rt, at, k)
    }

    /// As `Client::report`.
    pub fn report<R: Wait>(
        &mut self,
        rt: &R,
        id: u64,
        at: Point,
        moment: u64,
    ) -> Result<Report, CallFault>
        ensures { Reports I.WIDTH id at moment self.old self.new result }
    {
        self.desk.client.report(rt, id, at, moment)
    }

    /// As `Client::apply`.
    pub fn apply<R: Wait>(&mut self, rt: &R, batch: &Batch) -> Result<Replies, CallFault>
        ensures { Applies I.WIDTH batch.now self.old self.new result }
    {
        self.desk.client.apply(rt, batch)
    }

    /// As `Client::sync`.
    pub fn sync<R: Wait>(&mut self, rt: &R) -> Result<u64, BookFault>
        ensures synced { SyncsPass self.old.pass self.new.pass result }
        ensures durable { IfOk result (λ place. WasDurable D.drive I.WIDTH self.new.pass) }
        ensures client { self.new ≡ record self.old { pass = self.new.pass } }
    {
        self.desk.client.sync(rt)
    }

    /// As `Client::rotate_above`.
    pub fn rotate_above<R: Wait>(
        &mut self,
        rt: &R,
        records: u64,
    ) -> Result<Rotation, NotRotatedOver>
        ensures rotated { RotatesAbove D.drive I.WIDTH records self.old.pass self.new.pass result }
        ensures client { self.new ≡ record self.old { pass = self.new.pass } }
    {
        self.desk.client.rotate_above(rt, records)
    }

    /// As `Client::room`.
    pub fn room<R: Wait>(&mut self, rt: &R) -> Room
        ensures looked { HasLooked self.old.pass self.new.pass }
        ensures room { IsRoom self.new.pass.origin self.new.pass.seen result }
        ensures client { self.new ≡ record self.old { pass = self.new.pass } }
    {
        self.desk.client.room(rt)
    }

    /// As `Client::closed`.
    pub fn closed<R: Wait>(&mut self, rt: &R) -> Option<u64>
        ensures looked { HasLooked self.old.pass self.new.pass }
        ensures closed { result ≡ failed_cell self.new.pass.seen }
        ensures client { self.new ≡ record self.old { pass = self.new.pass } }
    {
        self.desk.client.closed(rt)
    }

    /// As `Client::is_near_end`.
    pub fn is_near_end<R: Wait>(&mut self, rt: &R) -> bool
        ensures looked { HasLooked self.old.pass self.new.pass }
        ensures near { IsNearEnd self.new.pass result }
        ensures client { self.new ≡ record self.old { pass = self.new.pass } }
    {
        self.desk.client.is_near_end(rt)
    }

    /// As `Client::world`.
    pub fn world<R: Wait>(&mut self, rt: &R) -> Result<World, Memory>
        ensures looked { HasLooked self.old.pass self.new.pass }
        ensures world { IfOk result (λ w. w ≡ world_seen self.new.pass) }
        ensures is_world { IfOk result (λ w. IsWorld w) }
        ensures client { self.new ≡ record self.old { pass = self.new.pass } }
    {
        self.desk.client.world(rt)
    }

    /// As `Client::world_at`.
    pub fn world_at<R: Wait>(&mut self, rt: &R) -> Result<WorldAt, Memory>
        ensures looked { HasLooked self.old.pass self.new.pass }
        ensures world_at { IfOk result (λ at. IsWorldAt at.world at.place self.new.pass) }
        ensures client { self.new ≡ record self.old { pass = self.new.pass } }
    {
        self.desk.client.world_at(rt)
    }

    /// As `Client::view`.
    pub fn view<R: Wait>(&mut self, rt: &R) -> Result<View<I>, Memory>
        ensures looked { HasLooked self.old.pass self.new.pass }
        ensures view { IfOk result (λ v. IsView I.WIDTH v.leaves v.place self.new.pass) }
        ensures client { self.new ≡ record self.old { pass = self.new.pass } }
    {
        self.desk.client.view(rt)
    }
}
