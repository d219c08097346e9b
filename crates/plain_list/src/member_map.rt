//! A world as an ordered map, for frequent changes.
ghost use Rattle.std.specs.Prelude.{◌≡◌, ◌≤◌, ◌<◌, ◌+◌, ◌++◌, [], length, None, OnErr, IfOk, Option, vec_len, vec_capacity};
ghost use Rattle.plain_list.specs.World.{most_members, IsWorld, position_of};
ghost use Rattle.plain_list.specs.Answer.{with_moved, without};
ghost use Rattle.plain_list.specs.MemberMap.{IsPut};

use crate::world::{Member, Stamped, World};
use std::alloc::{AllocError, Global};
use std::collections::BTreeMap;
use std::marker::Model;
use std::mem::replace;
use zorder::coordinates_fit;

/// The position of each object by its id. A look-up or a change takes logarithmic time.
#[derive(Drop)]
pub struct MemberMap {
    positions: BTreeMap<u64, Stamped>,
}

impl Model for MemberMap {
    ghost use Rattle.plain_list.specs.World.{World};

    ghost Value = { World };

    ghost use Rattle.plain_list.specs.MemberMap.{world_of};
    ghost use Rattle.plain_list.specs.World.{IsWorld};

    ghost view = { λ m. world_of m.positions.entries };

    ghost invariant = { λ m. IsWorld (world_of m.positions.entries) };
}

impl MemberMap {
    pub fn new(alloc: Global) -> MemberMap
        ensures { result ≡ [] }
    {
        MemberMap {
            positions: BTreeMap::new(alloc),
        }
    }

    pub fn len(&self) -> usize
        ensures len { result ≡ length self.now }
        ensures world { IsWorld self.now }
    {
        self.positions.len()
    }

    pub fn position(&self, id: u64) -> Option<Stamped>
        ensures { result ≡ position_of self.now id }
    {
        self.positions.get(&id).copied()
    }

    /// Inserts an object, or replaces the position of the object with this id, and returns the position that it had.
    pub fn insert(&mut self, id: u64, to: Stamped) -> Result<Option<Stamped>, AllocError>
        requires room { length self.old < most_members }
        ensures ok { IfOk result (λ there. IsPut id to there self.old self.new) }
        ensures err { OnErr result (self.new ≡ self.old) }
        ensures absent { OnErr result (position_of self.old id ≡ None) }
        ensures world { IsWorld self.new }
    {
        coordinates_fit(to.at);
        Ok(self.positions.insert(id, to)?)
    }

    /// Replaces the position of the object with this id, whatever its moment is. Returns the old position, or `None` if
    /// no object has the id. The call takes no memory.
    pub fn replace(&mut self, id: u64, to: Stamped) -> Option<Stamped>
        ensures found { result ≡ position_of self.old id }
        ensures moved { self.new ≡ with_moved id to self.old }
        ensures world { IsWorld self.new }
    {
        coordinates_fit(to.at);
        let position = self.positions.get_mut(&id)?;
        Some(replace(position, to))
    }

    /// Removes the object with this id and returns its position, or `None` if no object has the id.
    pub fn remove(&mut self, id: u64) -> Option<Stamped>
        ensures found { result ≡ position_of self.old id }
        ensures gone { self.new ≡ without id self.old }
    {
        self.positions.remove(&id)
    }

    /// Copies the objects into a world whose memory the caller has reserved. So the call cannot fail.
    pub fn world_in(&self, mut room: Vec<Member>) -> World
        requires empty { vec_len room ≡ 0 }
        requires enough { length self.now ≤ vec_capacity room }
        ensures { result ≡ self.now }
    {
        self.add_to(&mut room);
        World::from_vec(room)
    }

    // Appends the objects to a list with enough reserved memory.
    pub(crate) fn add_to(&self, list: &mut Vec<Member>)
        requires { vec_len list.old + length self.now ≤ vec_capacity list.old }
        ensures items { list.new.items ≡ list.old.items ++ self.now }
        ensures capacity { vec_capacity list.new ≡ vec_capacity list.old }
        ensures world { IsWorld self.now }
    {
        for (id, kept) in &self.positions {
            list.push_reserved(Member {
                id: *id,
                at: kept.at,
                moment: kept.moment,
            });
        }
    }
}
