//! What a store has now. These calls add no entry, and change nothing.
ghost use Rattle.std.specs.Prelude.{◌≡◌, ℕ, Bool, IfOk, length, Option};
ghost use Rattle.commit_book.specs.RoomLeft.{room_beside};
ghost use Rattle.zorder.specs.Region.{IsBox};
ghost use Rattle.plain_list.specs.History.{failed_cell};
ghost use Rattle.plain_list.specs.Queries.{members_in};
ghost use Rattle.plain_list.specs.World.{IsWorld};
ghost use Rattle.sessions.specs.Opens.{places_seen};
ghost use Rattle.sessions.specs.Rooms.{IsRoom};
ghost use Rattle.sessions.specs.Settles.{Settles};
ghost use Rattle.sessions.specs.Splits.{SamePass};
ghost use Rattle.sessions.specs.Views.{IsView, IsWorldAt};
ghost use Rattle.store_client.specs.Caller.{IsNearEnd, world_seen};
ghost use Rattle.store_file.specs.Objects.{IsLatest};
ghost use Rattle.pisrakun.specs.Status.{IsStatus, records_of};

use crate::object_store::ObjectStore;
use commit_book::{BookFault, Room};
use disk_trait::LogDisk;
use index_layer::Index;
use index_view::View;
use io_edge::OpenGate;
use plain_list::World;
use sessions::{Settled, Start, WorldAt};
use std::sync::Wait;
use store_client::{MOST_CELLS, has_no_room};
use store_file::latest_of;
use zorder::{Memory, Region};

/// What a store has, and how much more it takes.
#[derive(Clone, Copy, Debug, PartialEq, Eq)]
pub struct Status {
    /// How many objects there are.
    pub objects: u64,
    /// The latest moment of any of them.
    pub latest: Option<u64>,
    /// How many records the log has, if there is one.
    pub records: Option<u64>,
    /// How many more entries and records there may be.
    pub room: Room,
}

impl<I: Index, D: LogDisk, O: Start> ObjectStore<I, D, O> {
    /// How many more entries the history takes, and records the log, if there is one.
    pub fn room<R: Wait>(&mut self, rt: &R) -> Room
        ensures same { self.new ≡ self.old }
        ensures room { IsRoom self.old.pass.origin self.old.pass.seen result }
    {
        self.store.room(rt, &mut self.pass)
    }

    /// The record whose append failed, or `None` if none did. After a failure the store takes no more calls: close it, and
    /// open its file again. A call returns `Ok` if only the append of its split failed, so ask this to learn of it.
    pub fn closed<R: Wait>(&mut self, rt: &R) -> Option<u64>
        ensures same { self.new ≡ self.old }
        ensures closed { result ≡ failed_cell self.old.pass.seen }
    {
        self.store.closed(rt, &mut self.pass)
    }

    /// Whether leaves are no longer split, since the log has so many records. Then it is time to rotate the store. Of a
    /// store in memory it is false, since its history takes 2^60 entries.
    pub fn is_near_end<R: Wait>(&mut self, rt: &R) -> bool
        ensures same { self.new ≡ self.old }
        ensures near { IsNearEnd self.old.pass result }
    {
        let room = self.room(rt);
        has_no_room(&room)
    }

    /// Copies the objects.
    pub fn world<R: Wait>(&mut self, rt: &R) -> Result<World, Memory>
        ensures same { self.new ≡ self.old }
        ensures world { IfOk result (λ w. w ≡ world_seen self.old.pass) }
        ensures is_world { IfOk result (λ w. IsWorld w) }
    {
        self.store.world(rt, &mut self.pass)
    }

    /// Copies the objects, and returns the place of the last call too, or 0 if there was none.
    pub fn world_at<R: Wait>(&mut self, rt: &R) -> Result<WorldAt, Memory>
        ensures same { self.new ≡ self.old }
        ensures world_at { IfOk result (λ at. IsWorldAt at.world at.place self.old.pass) }
    {
        self.store.world_at(rt, &mut self.pass)
    }

    /// Returns a view of the objects as they are now. You may keep the view for as long as you like, also after the
    /// store has ended. Its queries take no lock, and no later call changes it. `Err` comes only if memory runs out.
    pub fn view<R: Wait>(&mut self, rt: &R) -> Result<View<I>, Memory>
        ensures same { self.new ≡ self.old }
        ensures view { IfOk result (λ v. IsView I.WIDTH v.leaves v.place self.old.pass) }
    {
        let snapshot = self.store.view(rt, &mut self.pass)?;
        Ok(View::new(snapshot.index, snapshot.place))
    }

    /// The number of objects. It opens no bucket, and fails only if memory runs out.
    pub fn len<R: Wait>(&mut self, rt: &R) -> Result<u64, Memory>
        ensures same { self.new ≡ self.old }
        ensures number { IfOk result (λ n. n ≡ length (world_seen self.old.pass)) }
    {
        let view = self.view(rt)?;
        Ok(view.len())
    }

    /// The number of objects in a box. It opens only buckets that the edge of the box cuts, and fails only if memory
    /// runs out.
    pub fn count<R: Wait>(&mut self, rt: &R, region: &Region) -> Result<u64, Memory>
        requires { IsBox region.now }
        ensures same { self.new ≡ self.old }
        ensures number { IfOk result (λ n. n ≡ length (members_in region.now (places_seen self.old.pass))) }
    {
        let view = self.view(rt)?;
        Ok(view.count(region))
    }

    /// What the store has and how much more it takes, in one call. It copies the objects to find their latest moment.
    pub fn status<R: Wait>(&mut self, rt: &R) -> Result<Status, Memory>
        ensures same { self.new ≡ self.old }
        ensures status { IfOk result (λ s. IsStatus self.old.pass s) }
    {
        let world = self.world(rt)?;
        let room = self.room(rt);
        let members = world.as_slice();
        Ok(Status {
            objects: members.len() as u64,
            latest: latest_of(members),
            records: records_of(&room),
            room,
        })
    }

    /// Splits the leaf that is to be split next, until there is none, or no room for its split. It is optional: calls
    /// split the leaves that they find full.
    pub fn settle<R: Wait>(&mut self, rt: &R) -> Result<Settled, BookFault>
        ensures settles { Settles I.WIDTH self.old.pass self.new.pass result }
        ensures pass { SamePass self.old.pass self.new.pass }
        ensures store { self.new ≡ record self.old { pass = self.new.pass } }
    {
        self.store.settle(rt, self.alloc, &mut self.pass, &OpenGate)
    }
}

// How many records the log has, if there is one.
fn records_of(room: &Room) -> Option<u64>
    requires { (kept : Bool) × ((cells : Option ℕ) × ((events : ℕ) × (room.now ≡ room_beside kept cells events))) }
    ensures { (kept : Bool) (cells : Option ℕ) (events : ℕ) → room.now ≡ room_beside kept cells events → result ≡ records_of cells }
{
    match room.records {
        Some(records) => Some(MOST_CELLS - records),
        None => None,
    }
}
