//! Memory for what a log records, reserved before it is needed.
ghost use Rattle.std.specs.Prelude.{◌≡◌, ◌≤◌, OnOk, vec_len, vec_capacity};
ghost use Rattle.recovery.specs.Room.{IsNoLess};

use plain_list::Member;
use std::alloc::{AllocError, Global};
use std::marker::Model;
use zorder::Name;

/// Two empty lists. Contracts see how many objects and how many leaves they can take.
#[derive(Drop)]
pub(crate) struct Room {
    members: Vec<Member>,
    leaves: Vec<Name>,
}

impl Model for Room {
    ghost use Rattle.std.specs.Prelude.{◌≡◌, vec_len, vec_capacity};
    ghost use Rattle.recovery.specs.Room.{RoomView};

    ghost Value = { RoomView };

    ghost view = { λ r. record { members = vec_capacity r.members; leaves = vec_capacity r.leaves } };

    ghost invariant = { λ r. (vec_len r.members ≡ 0) × (vec_len r.leaves ≡ 0) };
}

impl Room {
    pub(crate) fn new(alloc: Global) -> Room {
        Room {
            members: Vec::new(alloc),
            leaves: Vec::new(alloc),
        }
    }

    /// Reserves memory for at least so many objects and leaves.
    pub(crate) fn reserve(&mut self, members: usize, leaves: usize) -> Result<(), AllocError>
        ensures members { OnOk result (members ≤ self.new.members) }
        ensures leaves { OnOk result (leaves ≤ self.new.leaves) }
        ensures kept { IsNoLess self.old self.new }
    {
        self.members.reserve(members)?;
        self.leaves.reserve(leaves)
    }

    pub(crate) fn into_parts(self) -> (Vec<Member>, Vec<Name>)
        ensures members { (vec_len result.0 ≡ 0) × (vec_capacity result.0 ≡ self.members) }
        ensures leaves { (vec_len result.1 ≡ 0) × (vec_capacity result.1 ≡ self.leaves) }
    {
        (self.members, self.leaves)
    }
}
