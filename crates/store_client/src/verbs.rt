//! The verbs: calls whose result has just the answers that the operation may have.
ghost use Rattle.std.specs.Prelude.{◌≤◌};
ghost use Rattle.zorder.specs.Region.{IsBox};
ghost use Rattle.store_client.specs.Caller.{Keeps};
ghost use Rattle.store_client.specs.Verbs.{put_answer, move_answer, gone_answer, at_answer, listed_answer, nearest_answer, AskedAs, TriesOnce, Reports};

use crate::answers::{
    Listed, MoveReply, PutReply, Report, at_reply, gone_reply, listed_reply, move_reply,
    nearest_reply, put_reply, put_report,
};
use crate::client::Client;
use disk_trait::LogDisk;
use index_layer::Index;
use plain_list::{Op, PlacedList, Stamped};
use sessions::{CallFault, Start};
use std::sync::Wait;
use zorder::{Point, Region};

impl<'s, I: Index, D: LogDisk, O: Start> Client<'s, I, D, O> {
    /// Puts a new object. An object that is there already stays unchanged.
    pub fn put<R: Wait>(
        &mut self,
        rt: &R,
        id: u64,
        at: Point,
        moment: u64,
    ) -> Result<PutReply, CallFault>
        ensures asked { AskedAs put_answer I.WIDTH (Op.Put id at moment) self.old self.new result }
        ensures client { Keeps self.old self.new }
    {
        let reply = self.ask(rt, &Op::Put { id, at, moment })?;
        Ok(put_reply(reply.answer))
    }

    /// Moves an object, unless the object has a later moment.
    pub fn move_to<R: Wait>(
        &mut self,
        rt: &R,
        id: u64,
        at: Point,
        moment: u64,
    ) -> Result<MoveReply, CallFault>
        ensures asked { AskedAs move_answer I.WIDTH (Op.Move id at moment) self.old self.new result }
        ensures client { Keeps self.old self.new }
    {
        let reply = self.ask(rt, &Op::Move { id, at, moment })?;
        Ok(move_reply(reply.answer))
    }

    /// Removes an object, and returns where it was. `None` says that there is no such object.
    pub fn remove<R: Wait>(&mut self, rt: &R, id: u64) -> Result<Option<Stamped>, CallFault>
        ensures asked { AskedAs gone_answer I.WIDTH (Op.Remove id) self.old self.new result }
        ensures client { Keeps self.old self.new }
    {
        let reply = self.ask(rt, &Op::Remove { id })?;
        Ok(gone_reply(reply.answer))
    }

    /// Returns where an object is. `None` says that there is no such object.
    pub fn find<R: Wait>(&mut self, rt: &R, id: u64) -> Result<Option<Stamped>, CallFault>
        ensures asked { AskedAs at_answer I.WIDTH (Op.Find id) self.old self.new result }
        ensures client { Keeps self.old self.new }
    {
        let reply = self.ask(rt, &Op::Find { id })?;
        Ok(at_reply(reply.answer))
    }

    /// Returns the objects in a box, in the order of their ids.
    pub fn within<R: Wait>(&mut self, rt: &R, region: Region) -> Result<Listed, CallFault>
        requires { IsBox region }
        ensures asked { AskedAs listed_answer I.WIDTH (Op.Within region) self.old self.new result }
        ensures client { Keeps self.old self.new }
    {
        let reply = self.ask(rt, &Op::Within { region })?;
        Ok(listed_reply(reply.answer))
    }

    /// Returns the k objects that are nearest to a point, the nearest first. If there are fewer, it returns all.
    pub fn nearest<R: Wait>(&mut self, rt: &R, at: Point, k: u32) -> Result<PlacedList, CallFault>
        requires least { 1 ≤ k }
        requires most { k ≤ 2048 }
        ensures asked { AskedAs nearest_answer I.WIDTH (Op.Near at k) self.old self.new result }
        ensures client { Keeps self.old self.new }
    {
        let reply = self.ask(rt, &Op::Near { at, k })?;
        Ok(nearest_reply(reply.answer))
    }

    // Tries to say where an object is. `None` says that another caller has put it between the move and the put.
    fn try_report<R: Wait>(
        &mut self,
        rt: &R,
        id: u64,
        at: Point,
        moment: u64,
    ) -> Result<Option<Report>, CallFault>
        ensures tries { TriesOnce I.WIDTH id at moment self.old self.new result }
        ensures client { Keeps self.old self.new }
    {
        match self.move_to(rt, id, at, moment) {
            Ok(MoveReply::From(from)) => return Ok(Some(Report::From(from))),
            Ok(MoveReply::Stale(kept)) => return Ok(Some(Report::Stale(kept))),
            Ok(MoveReply::Absent) => {}
            Err(fault) => return Err(fault),
        }
        let told = self.put(rt, id, at, moment);
        put_report(told)
    }

    /// Says where an object is now. It moves the object, or puts it if there is no such object. If another caller puts the
    /// object between these two calls, it tries again.
    pub fn report<R: Wait>(
        &mut self,
        rt: &R,
        id: u64,
        at: Point,
        moment: u64,
    ) -> Result<Report, CallFault>
        ensures reports { Reports I.WIDTH id at moment self.old self.new result }
        ensures client { Keeps self.old self.new }
    {
        for _ in rt.forever() {
            match self.try_report(rt, id, at, moment) {
                Ok(Some(told)) => return Ok(told),
                Ok(None) => {}
                Err(fault) => return Err(fault),
            }
        }
        unreachable!()
    }
}
