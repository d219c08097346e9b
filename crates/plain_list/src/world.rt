//! The world: every object with its position and the moment of the position.
ghost use Rattle.std.specs.Prelude.{◌≡◌, [], IfOk, IfErr};
ghost use Rattle.plain_list.specs.Answer.{after_of};

use crate::changes::change;
use crate::ops::Op;
use std::alloc::{AllocError, Global};
use std::marker::Model;
use zorder::{Placed, Point};

/// The greatest number of objects in a world.
pub const MOST_MEMBERS: usize = 1_048_576;

/// A position with its moment. The moment is a number that the caller chooses, and a move never lowers it. The store
/// reads no clock.
#[derive(Clone, Copy, Debug, PartialEq, Eq)]
pub struct Stamped {
    pub at: Point,
    pub moment: u64,
}

/// An object with its position and the moment of the position.
#[derive(Clone, Copy, Debug, PartialEq, Eq)]
pub struct Member {
    pub id: u64,
    pub at: Point,
    pub moment: u64,
}

impl Member {
    ghost use Rattle.plain_list.specs.World.{stamped_of, placed_of};

    /// Returns the position and its moment.
    pub fn stamped(&self) -> Stamped
        ensures { result ≡ stamped_of self.now }
    {
        Stamped {
            at: self.at,
            moment: self.moment,
        }
    }

    /// Returns the id and the position, which are all that an index and a query see.
    pub fn placed(&self) -> Placed
        ensures { result ≡ placed_of self.now }
    {
        Placed {
            id: self.id,
            at: self.at,
        }
    }
}

/// All objects, in the order of their ids.
#[derive(Drop)]
pub struct World {
    members: Vec<Member>,
}

impl Model for World {
    ghost use Rattle.plain_list.specs.World.{World};

    ghost Value = { World };

    ghost use Rattle.plain_list.specs.World.{IsWorld};

    ghost view = { λ w. w.members.items };

    ghost invariant = { λ w. IsWorld w.members.items };
}

/// The unchanged world, returned because memory ran out.
#[derive(Drop)]
pub struct WorldBack {
    pub world: World,
}

impl World {
    ghost use Rattle.plain_list.specs.World.{IsWorld};

    pub fn empty(alloc: Global) -> World
        ensures { result ≡ [] }
    {
        World {
            members: Vec::new(alloc),
        }
    }

    pub(crate) fn from_vec(members: Vec<Member>) -> World
        requires { IsWorld members.items }
        ensures { result ≡ members.items }
    {
        World { members }
    }

    pub fn as_slice(&self) -> &[Member]
        ensures members { result.now ≡ self.now }
        ensures world { IsWorld self.now }
    {
        self.members.as_slice()
    }

    pub(crate) fn copy(&self, alloc: Global) -> Result<World, AllocError>
        ensures { IfOk result (λ w. w ≡ self.now) }
    {
        Ok(World {
            members: Vec::from_slice(alloc, self.as_slice())?,
        })
    }
}

/// Returns the world after an operation. If memory runs out, the error has the unchanged world.
pub fn after(mut world: World, op: &Op) -> Result<World, WorldBack>
    ensures ok { IfOk result (λ w. w ≡ after_of world op.now) }
    ensures err { IfErr result (λ e. e.world ≡ world) }
{
    if change(&mut world.members, op).is_ok() {
        Ok(world)
    } else {
        Err(WorldBack { world })
    }
}
