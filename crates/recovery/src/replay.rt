//! Processes cells one by one, and keeps the state after them.
ghost use Rattle.std.specs.Prelude.{◌≡◌, ◌⊎◌, IfOk, OnOk};
ghost use Rattle.cell_format.specs.Spelling.{IsVersion};
ghost use Rattle.zorder.specs.Width.{IsWidth};
ghost use Rattle.cell_format.specs.declared.cell.Cell.{Cell};
ghost use Rattle.plain_list.specs.State.{empty_state};
ghost use Rattle.recovery.specs.Found.{Shows};
ghost use Rattle.recovery.specs.Replay.{Steps};
ghost use Rattle.recovery.specs.Room.{HasRoom, HasRoomForMore, IsNoLess};

use crate::leaf_map::LeafMap;
use crate::room::Room;
use crate::seen::Seen;
use crate::split_map::SplitMap;
use cell_format::Cell;
use plain_list::{MOST_MEMBERS, MemberMap, Stamped};
use std::alloc::{AllocError, Global};
use std::marker::Model;
use zorder::{Name, Point};

/// Why a cell was not processed.
#[derive(Clone, Copy)]
pub(crate) enum StepFault {
    /// The cell isn't possible in this state.
    Impossible,
    Memory,
}

impl From<AllocError> for StepFault {
    ghost use Rattle.recovery.specs.declared.replay.StepFault.TheVariants.{Memory};

    ghost from_gives = { λ _ e. e ≡ Memory };

    fn from(_: AllocError) -> StepFault {
        StepFault::Memory
    }
}

/// The state after the cells so far.
#[derive(Drop)]
pub(crate) struct Replay {
    version: u8,
    width: u8,
    members: MemberMap,
    leaves: LeafMap,
    splits: SplitMap,
    begun: u64,
}

impl Model for Replay {
    ghost use Rattle.recovery.specs.LeafMap.{names_of};
    ghost use Rattle.recovery.specs.Replay.{ReplayView, IsReplay};

    ghost Value = { ReplayView };

    ghost view = { λ w. record { version = w.version; width = w.width; state = record { world = w.members; leaves = names_of w.leaves; splits = w.splits; begun = w.begun } } };

    ghost invariant = { λ w. IsReplay w.version w.width w.begun w.leaves w.splits };
}

impl Replay {
    /// The state before the first cell of a log of this version and width.
    pub(crate) fn new(alloc: Global, version: u8, width: u8) -> Result<Replay, AllocError>
        requires version { IsVersion version }
        requires width { IsWidth width }
        ensures { IfOk result (λ w. w ≡ record { version = version; width = width; state = empty_state }) }
    {
        Ok(Replay {
            version,
            width,
            members: MemberMap::new(alloc),
            leaves: LeafMap::whole(alloc)?,
            splits: SplitMap::new(alloc),
            begun: 0,
        })
    }

    /// The width of the log's splits.
    pub(crate) fn width(&self) -> u8
        ensures value { result ≡ self.now.width }
        ensures known { IsWidth self.now.width }
    {
        self.width
    }

    /// The version of the log.
    pub(crate) fn version(&self) -> u8
        ensures value { result ≡ self.now.version }
        ensures known { IsVersion result }
        ensures width { IsWidth self.now.width }
    {
        self.version
    }

    /// Processes a cell, and returns where its object was before. An error leaves the state unchanged.
    pub(crate) fn step(&mut self, cell: &Cell) -> Result<Option<Point>, StepFault>
        ensures steps { Steps self.old.width self.old.state self.new.state cell.now result }
        ensures version { self.new.version ≡ self.old.version }
        ensures width { self.new.width ≡ self.old.width }
    {
        match *cell {
            Cell::Put { id, at, moment } => self.put(id, Stamped { at, moment }),
            Cell::Move { id, at, moment } => self.relocate(id, Stamped { at, moment }),
            Cell::Remove { id } => self.remove(id),
            Cell::Begin { number, name } => self.begin(number, name),
            Cell::Install { number } => self.install(number),
            Cell::Abandon { number } => self.abandon(number),
        }
    }

    fn put(&mut self, id: u64, to: Stamped) -> Result<Option<Point>, StepFault>
        ensures steps { Steps self.old.width self.old.state self.new.state (Cell.Put id to.at to.moment) result }
        ensures version { self.new.version ≡ self.old.version }
        ensures width { self.new.width ≡ self.old.width }
    {
        if self.members.len() >= MOST_MEMBERS {
            return Err(StepFault::Impossible);
        }
        if let Some(there) = self.members.insert(id, to)? {
            let _ = self.members.replace(id, there);
            return Err(StepFault::Impossible);
        }
        Ok(None)
    }

    fn relocate(&mut self, id: u64, to: Stamped) -> Result<Option<Point>, StepFault>
        ensures steps { Steps self.old.width self.old.state self.new.state (Cell.Move id to.at to.moment) result }
        ensures version { self.new.version ≡ self.old.version }
        ensures width { self.new.width ≡ self.old.width }
    {
        let Some(old) = self.members.replace(id, to) else {
            return Err(StepFault::Impossible);
        };
        if to.moment < old.moment {
            let _ = self.members.replace(id, old);
            return Err(StepFault::Impossible);
        }
        Ok(Some(old.at))
    }

    fn remove(&mut self, id: u64) -> Result<Option<Point>, StepFault>
        ensures steps { Steps self.old.width self.old.state self.new.state (Cell.Remove id) result }
        ensures version { self.new.version ≡ self.old.version }
        ensures width { self.new.width ≡ self.old.width }
    {
        let Some(old) = self.members.remove(id) else {
            return Err(StepFault::Impossible);
        };
        Ok(Some(old.at))
    }

    fn begin(&mut self, number: u64, name: Name) -> Result<Option<Point>, StepFault>
        ensures steps { Steps self.old.width self.old.state self.new.state (Cell.Begin number name) result }
        ensures version { self.new.version ≡ self.old.version }
        ensures width { self.new.width ≡ self.old.width }
    {
        if number == 0 || number - 1 != self.begun || name.len() + self.width > 64 {
            return Err(StepFault::Impossible);
        }
        let Some(earlier) = self.leaves.split_at(&name) else {
            return Err(StepFault::Impossible);
        };
        self.splits.begin_again(earlier, number, name)?;
        self.leaves.begin(name, number);
        self.begun = number;
        Ok(None)
    }

    fn install(&mut self, number: u64) -> Result<Option<Point>, StepFault>
        ensures steps { Steps self.old.width self.old.state self.new.state (Cell.Install number) result }
        ensures version { self.new.version ≡ self.old.version }
        ensures width { self.new.width ≡ self.old.width }
    {
        let Some(name) = self.splits.name(number) else {
            return Err(StepFault::Impossible);
        };
        self.leaves.split(&name, self.width)?;
        self.splits.remove(number);
        Ok(None)
    }

    fn abandon(&mut self, number: u64) -> Result<Option<Point>, StepFault>
        ensures steps { Steps self.old.width self.old.state self.new.state (Cell.Abandon number) result }
        ensures version { self.new.version ≡ self.old.version }
        ensures width { self.new.width ≡ self.old.width }
    {
        if self.splits.name(number).is_none() {
            return Err(StepFault::Impossible);
        }
        self.splits.remove(number);
        Ok(None)
    }

    /// Reserves memory for the present state, and for what a cell may add: an object, or three leaves.
    pub(crate) fn make_room(&self, room: &mut Room) -> Result<(), AllocError>
        ensures more { OnOk result (HasRoomForMore self.now.state room.new) }
        ensures kept { IsNoLess room.old room.new }
    {
        room.reserve(self.members.len() + 1, self.leaves.len() + 3)
    }

    /// What was found after `cells` cells, in memory that was reserved before.
    pub(crate) fn seen_in(&self, room: Room, cells: u64) -> Seen
        requires { HasRoom self.now.state room }
        ensures shows { Shows self.now.state cells result }
        ensures version { result.version ≡ self.now.version }
        ensures known { IsVersion self.now.version }
    {
        let (members, leaves) = room.into_parts();
        Seen {
            world: self.members.world_in(members),
            leaves: self.leaves.names_in(leaves),
            unfinished: self.splits.len() as u64,
            begun: self.begun,
            cells,
            version: self.version,
        }
    }
}
