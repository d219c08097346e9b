//! A second session at a store, in the same thread.
ghost use Rattle.std.specs.Prelude.{◌≡◌, ◌≤◌, None};
ghost use Rattle.zorder.specs.Region.{IsBox};
ghost use Rattle.plain_list.specs.Answer.{IsValid};
ghost use Rattle.store_client.specs.Asked.{Asked};
ghost use Rattle.store_client.specs.Caller.{world_seen};
ghost use Rattle.store_client.specs.Verbs.{put_answer, move_answer, gone_answer, at_answer};
ghost use Rattle.store_client.specs.Verbs.{listed_answer, nearest_answer, AskedAs, Reports};
ghost use Rattle.pisrakun.specs.Now.{DoesNow, report_answer, report_op};
ghost use Rattle.pisrakun.specs.Sessions.{labelled, label_of};

use crate::label::Label;
use crate::object_store::ObjectStore;
use disk_trait::LogDisk;
use index_layer::Index;
use plain_list::{Change, Op, PlacedList, Stamped};
use sessions::{CallFault, Start};
use std::sync::Wait;
use store_client::{Listed, MoveReply, PutReply, Reply, Report};
use zorder::{Point, Region};

/// A session that borrows a store, with a number and rows of its own. While you keep it, only it calls the store.
#[derive(Drop)]
pub struct Session<'w, I: Index, D: LogDisk, O: Start> {
    pub(crate) store: &'w mut ObjectStore<I, D, O>,
    pub(crate) label: Label,
}

impl<I: Index, D: LogDisk, O: Start> ObjectStore<I, D, O> {
    /// Another session of this number, which has made no call. The store's own session and row stay as they are.
    pub fn session(&mut self, session: u8) -> Session<'_, I, D, O>
        ensures same { result.store.ghost_name ≡ self.entry.ghost_name }
        ensures store { result.store.now ≡ self.old }
        ensures label { result.label ≡ record { session = session; row = 0; place = 0; change = None } }
    {
        Session {
            store: self,
            label: Label {
                session,
                row: 0,
                place: 0,
                change: None,
            },
        }
    }
}

impl<'w, I: Index, D: LogDisk, O: Start> Session<'w, I, D, O> {
    /// The place of the last call of this session that was answered, and 0 if there is none.
    pub fn place(&self) -> u64
        ensures { result ≡ self.now.label.place }
    {
        self.label.place
    }

    /// What that call has changed, as `ObjectStore::last_change`.
    pub fn last_change(&self) -> Option<Change>
        ensures { result ≡ self.now.label.change }
    {
        self.label.change
    }

    /// Answers a call, as `ObjectStore::ask`.
    pub fn ask<R: Wait>(&mut self, rt: &R, op: &Op) -> Result<Reply, CallFault>
        requires { IsValid op.now }
        ensures same { self.new.store.ghost_name ≡ self.old.store.ghost_name }
        ensures asked { Asked I.WIDTH op.now
            (labelled self.old.store.now self.old.label) (labelled self.new.store.now self.new.label) result }
        ensures now { DoesNow (λ reply. reply.answer) op.now self.old.store.now self.new.store.now result }
        ensures other { label_of self.new.store.now ≡ label_of self.old.store.now }
    {
        let others = self.store.relabel(self.label);
        let told = self.store.ask(rt, op);
        self.label = self.store.relabel(others);
        told
    }

    /// Puts a new object, as `ObjectStore::put`.
    pub fn put<R: Wait>(
        &mut self,
        rt: &R,
        id: u64,
        at: Point,
        moment: u64,
    ) -> Result<PutReply, CallFault>
        ensures same { self.new.store.ghost_name ≡ self.old.store.ghost_name }
        ensures asked { AskedAs put_answer I.WIDTH (Op.Put id at moment)
            (labelled self.old.store.now self.old.label) (labelled self.new.store.now self.new.label) result }
        ensures now { DoesNow put_answer (Op.Put id at moment) self.old.store.now self.new.store.now result }
        ensures other { label_of self.new.store.now ≡ label_of self.old.store.now }
    {
        let others = self.store.relabel(self.label);
        let told = self.store.put(rt, id, at, moment);
        self.label = self.store.relabel(others);
        told
    }

    /// Moves an object, as `ObjectStore::move_to`.
    pub fn move_to<R: Wait>(
        &mut self,
        rt: &R,
        id: u64,
        at: Point,
        moment: u64,
    ) -> Result<MoveReply, CallFault>
        ensures same { self.new.store.ghost_name ≡ self.old.store.ghost_name }
        ensures asked { AskedAs move_answer I.WIDTH (Op.Move id at moment)
            (labelled self.old.store.now self.old.label) (labelled self.new.store.now self.new.label) result }
        ensures now { DoesNow move_answer (Op.Move id at moment) self.old.store.now self.new.store.now result }
        ensures other { label_of self.new.store.now ≡ label_of self.old.store.now }
    {
        let others = self.store.relabel(self.label);
        let told = self.store.move_to(rt, id, at, moment);
        self.label = self.store.relabel(others);
        told
    }

    /// Removes an object, as `ObjectStore::remove`.
    pub fn remove<R: Wait>(&mut self, rt: &R, id: u64) -> Result<Option<Stamped>, CallFault>
        ensures same { self.new.store.ghost_name ≡ self.old.store.ghost_name }
        ensures asked { AskedAs gone_answer I.WIDTH (Op.Remove id)
            (labelled self.old.store.now self.old.label) (labelled self.new.store.now self.new.label) result }
        ensures now { DoesNow gone_answer (Op.Remove id) self.old.store.now self.new.store.now result }
        ensures other { label_of self.new.store.now ≡ label_of self.old.store.now }
    {
        let others = self.store.relabel(self.label);
        let told = self.store.remove(rt, id);
        self.label = self.store.relabel(others);
        told
    }

    /// Returns where an object is, as `ObjectStore::find`.
    pub fn find<R: Wait>(&mut self, rt: &R, id: u64) -> Result<Option<Stamped>, CallFault>
        ensures same { self.new.store.ghost_name ≡ self.old.store.ghost_name }
        ensures asked { AskedAs at_answer I.WIDTH (Op.Find id)
            (labelled self.old.store.now self.old.label) (labelled self.new.store.now self.new.label) result }
        ensures now { DoesNow at_answer (Op.Find id) self.old.store.now self.new.store.now result }
        ensures other { label_of self.new.store.now ≡ label_of self.old.store.now }
    {
        let others = self.store.relabel(self.label);
        let told = self.store.find(rt, id);
        self.label = self.store.relabel(others);
        told
    }

    /// Returns the objects in a box, as `ObjectStore::within`.
    pub fn within<R: Wait>(&mut self, rt: &R, region: Region) -> Result<Listed, CallFault>
        requires { IsBox region }
        ensures same { self.new.store.ghost_name ≡ self.old.store.ghost_name }
        ensures asked { AskedAs listed_answer I.WIDTH (Op.Within region)
            (labelled self.old.store.now self.old.label) (labelled self.new.store.now self.new.label) result }
        ensures now { DoesNow listed_answer (Op.Within region) self.old.store.now self.new.store.now result }
        ensures other { label_of self.new.store.now ≡ label_of self.old.store.now }
    {
        let others = self.store.relabel(self.label);
        let told = self.store.within(rt, region);
        self.label = self.store.relabel(others);
        told
    }

    /// Returns the `k` nearest objects, as `ObjectStore::nearest`.
    pub fn nearest<R: Wait>(&mut self, rt: &R, at: Point, k: u32) -> Result<PlacedList, CallFault>
        requires least { 1 ≤ k }
        requires most { k ≤ 2048 }
        ensures same { self.new.store.ghost_name ≡ self.old.store.ghost_name }
        ensures asked { AskedAs nearest_answer I.WIDTH (Op.Near at k)
            (labelled self.old.store.now self.old.label) (labelled self.new.store.now self.new.label) result }
        ensures now { DoesNow nearest_answer (Op.Near at k) self.old.store.now self.new.store.now result }
        ensures other { label_of self.new.store.now ≡ label_of self.old.store.now }
    {
        let others = self.store.relabel(self.label);
        let told = self.store.nearest(rt, at, k);
        self.label = self.store.relabel(others);
        told
    }

    /// Says where an object is now, as `ObjectStore::report`.
    pub fn report<R: Wait>(
        &mut self,
        rt: &R,
        id: u64,
        at: Point,
        moment: u64,
    ) -> Result<Report, CallFault>
        ensures same { self.new.store.ghost_name ≡ self.old.store.ghost_name }
        ensures reports { Reports I.WIDTH id at moment
            (labelled self.old.store.now self.old.label) (labelled self.new.store.now self.new.label) result }
        ensures now { DoesNow report_answer (report_op id at moment (world_seen self.old.store.now.pass))
            self.old.store.now self.new.store.now result }
        ensures other { label_of self.new.store.now ≡ label_of self.old.store.now }
    {
        let others = self.store.relabel(self.label);
        let told = self.store.report(rt, id, at, moment);
        self.label = self.store.relabel(others);
        told
    }
}
