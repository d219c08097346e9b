//! The verbs of a store: calls that return just the answers that they may have.
ghost use Rattle.std.specs.Prelude.{◌≤◌};
ghost use Rattle.zorder.specs.Region.{IsBox};
ghost use Rattle.store_client.specs.Caller.{Keeps, world_seen};
ghost use Rattle.store_client.specs.Verbs.{put_answer, move_answer, gone_answer, at_answer};
ghost use Rattle.store_client.specs.Verbs.{listed_answer, nearest_answer, AskedAs, Reports};
ghost use Rattle.pisrakun.specs.Now.{DoesNow, report_answer, report_op};

use crate::object_store::ObjectStore;
use disk_trait::LogDisk;
use index_layer::Index;
use plain_list::{Op, PlacedList, Stamped};
use sessions::{CallFault, Start};
use std::sync::Wait;
use store_client::{
    Listed, MoveReply, PutReply, Report, at_reply, gone_reply, listed_reply, move_reply,
    nearest_reply, put_reply,
};
use zorder::{Point, Region};

impl<I: Index, D: LogDisk, O: Start> ObjectStore<I, D, O> {
    /// Puts a new object. `moment` is your own timestamp.
    pub fn put<R: Wait>(
        &mut self,
        rt: &R,
        id: u64,
        at: Point,
        moment: u64,
    ) -> Result<PutReply, CallFault>
        ensures asked { AskedAs put_answer I.WIDTH (Op.Put id at moment) self.old self.new result }
        ensures now { DoesNow put_answer (Op.Put id at moment) self.old self.new result }
        ensures store { Keeps self.old self.new }
    {
        let reply = self.ask(rt, &Op::Put { id, at, moment })?;
        Ok(put_reply(reply.answer))
    }

    /// Moves an object, unless it has a later moment.
    pub fn move_to<R: Wait>(
        &mut self,
        rt: &R,
        id: u64,
        at: Point,
        moment: u64,
    ) -> Result<MoveReply, CallFault>
        ensures asked { AskedAs move_answer I.WIDTH (Op.Move id at moment) self.old self.new result }
        ensures now { DoesNow move_answer (Op.Move id at moment) self.old self.new result }
        ensures store { Keeps self.old self.new }
    {
        let reply = self.ask(rt, &Op::Move { id, at, moment })?;
        Ok(move_reply(reply.answer))
    }

    /// Removes an object, and returns where it was, if there is such an object.
    pub fn remove<R: Wait>(&mut self, rt: &R, id: u64) -> Result<Option<Stamped>, CallFault>
        ensures asked { AskedAs gone_answer I.WIDTH (Op.Remove id) self.old self.new result }
        ensures now { DoesNow gone_answer (Op.Remove id) self.old self.new result }
        ensures store { Keeps self.old self.new }
    {
        let reply = self.ask(rt, &Op::Remove { id })?;
        Ok(gone_reply(reply.answer))
    }

    /// Returns where an object is, if there is such an object.
    pub fn find<R: Wait>(&mut self, rt: &R, id: u64) -> Result<Option<Stamped>, CallFault>
        ensures asked { AskedAs at_answer I.WIDTH (Op.Find id) self.old self.new result }
        ensures now { DoesNow at_answer (Op.Find id) self.old self.new result }
        ensures store { Keeps self.old self.new }
    {
        let reply = self.ask(rt, &Op::Find { id })?;
        Ok(at_reply(reply.answer))
    }

    /// Returns the objects in a box, in the order of their ids, or only their number if it is over 2,048.
    pub fn within<R: Wait>(&mut self, rt: &R, region: Region) -> Result<Listed, CallFault>
        requires { IsBox region }
        ensures asked { AskedAs listed_answer I.WIDTH (Op.Within region) self.old self.new result }
        ensures now { DoesNow listed_answer (Op.Within region) self.old self.new result }
        ensures store { Keeps self.old self.new }
    {
        let reply = self.ask(rt, &Op::Within { region })?;
        Ok(listed_reply(reply.answer))
    }

    /// Returns the `k` objects that are nearest to a point, or all if there are fewer, the nearest first.
    pub fn nearest<R: Wait>(&mut self, rt: &R, at: Point, k: u32) -> Result<PlacedList, CallFault>
        requires least { 1 ≤ k }
        requires most { k ≤ 2048 }
        ensures asked { AskedAs nearest_answer I.WIDTH (Op.Near at k) self.old self.new result }
        ensures now { DoesNow nearest_answer (Op.Near at k) self.old self.new result }
        ensures store { Keeps self.old self.new }
    {
        let reply = self.ask(rt, &Op::Near { at, k })?;
        Ok(nearest_reply(reply.answer))
    }

    /// Says where an object is now: a move, or a put if there is no such object.
    pub fn report<R: Wait>(
        &mut self,
        rt: &R,
        id: u64,
        at: Point,
        moment: u64,
    ) -> Result<Report, CallFault>
        ensures reports { Reports I.WIDTH id at moment self.old self.new result }
        ensures now { DoesNow report_answer (report_op id at moment (world_seen self.old.pass)) self.old self.new result }
        ensures store { Keeps self.old self.new }
    {
        match self.move_to(rt, id, at, moment) {
            Ok(MoveReply::From(from)) => return Ok(Report::From(from)),
            Ok(MoveReply::Stale(kept)) => return Ok(Report::Stale(kept)),
            Ok(MoveReply::Absent) => {}
            Err(fault) => return Err(fault),
        }
        match self.put(rt, id, at, moment) {
            Ok(PutReply::Done) => Ok(Report::New),
            Ok(PutReply::Full) => Ok(Report::Full),
            // The move found no such object, and nobody else calls the store.
            Ok(PutReply::Present(_)) => unreachable!(),
            Err(fault) => Err(fault),
        }
    }
}
