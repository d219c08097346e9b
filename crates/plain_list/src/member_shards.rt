//! A world as many small maps, for fast look-ups.
ghost use Rattle.std.specs.Prelude.{◌≡◌, ◌<◌, ◌+◌, [], length, None, OnOk, OnErr, IfOk, replicate};
ghost use Rattle.plain_list.specs.World.{most_members, IsWorld, position_of};
ghost use Rattle.plain_list.specs.Answer.{with_moved, without};
ghost use Rattle.plain_list.specs.MemberMap.{IsPut};
ghost use Rattle.plain_list.specs.MemberShards.{most_shards, shard_of, in_turn, AreMade};

use crate::member_map::MemberMap;
use crate::world::{Member, Stamped, World};
use std::alloc::{AllocError, Global};
use std::marker::Model;
use zorder::coordinates_fit;

const SHARDS: usize = 2_048;

// The first 64 bits of the golden ratio's fraction. They spread ids that are dense, in all or per session, over all
// shards.
const MIXER: u64 = 0x9E37_79B9_7F4A_7C15;

/// The position of each object by its id, in 2,048 shards, so that a look-up mostly reads one node of a small map. Each
/// shard is an ordered map, so a look-up takes logarithmic time whatever the ids are.
#[derive(Drop)]
pub struct MemberShards {
    alloc: Global,
    shards: Vec<MemberMap>,
    len: usize,
}

impl Model for MemberShards {
    ghost use Rattle.plain_list.specs.World.{World};

    ghost Value = { World };

    ghost use Rattle.plain_list.specs.MemberShards.{joined, AreShards};

    ghost view = { λ m. joined m.shards.items };

    ghost invariant = { λ m. AreShards m.shards.items m.len };
}

impl MemberShards {
    /// Creates a world without objects. The first insert takes the memory for the shards.
    pub fn new(alloc: Global) -> MemberShards
        ensures { result ≡ [] }
    {
        MemberShards {
            alloc,
            shards: Vec::new(alloc),
            len: 0,
        }
    }

    /// Creates the shards with the objects of a world.
    pub fn from_world(alloc: Global, world: &World) -> Result<MemberShards, AllocError>
        ensures { IfOk result (λ shards. shards ≡ world.now) }
    {
        shards_of(alloc, world.as_slice())
    }

    pub fn len(&self) -> usize
        ensures len { result ≡ length self.now }
        ensures world { IsWorld self.now }
    {
        self.len
    }

    /// Returns the objects as one list.
    pub fn to_world(&self) -> Result<World, AllocError>
        ensures { IfOk result (λ world. world ≡ self.now) }
    {
        let mut members = in_turn(self.alloc, &self.shards, self.len)?;
        members.sort_unstable_by_key(|m| m.id);
        Ok(World::from_vec(members))
    }

    pub fn position(&self, id: u64) -> Option<Stamped>
        ensures { result ≡ position_of self.now id }
    {
        if self.shards.is_empty() {
            return None;
        }
        self.shards[shard_of(id)].position(id)
    }

    /// Inserts an object, or replaces the position of the object with this id, and returns the position that it had.
    pub fn insert(&mut self, id: u64, to: Stamped) -> Result<Option<Stamped>, AllocError>
        requires room { length self.old < most_members }
        ensures ok { IfOk result (λ there. IsPut id to there self.old self.new) }
        ensures err { OnErr result (self.new ≡ self.old) }
        ensures absent { OnErr result (position_of self.old id ≡ None) }
        ensures world { IsWorld self.new }
    {
        coordinates_fit(to.at);
        make_shards(self.alloc, &mut self.shards)?;
        let there = self.shards[shard_of(id)].insert(id, to)?;
        self.len += usize::from(there.is_none());
        Ok(there)
    }

    /// Replaces the position of the object with this id, whatever its moment is. Returns the old position, or `None` if
    /// no object has the id. The call takes no memory.
    pub fn replace(&mut self, id: u64, to: Stamped) -> Option<Stamped>
        ensures found { result ≡ position_of self.old id }
        ensures moved { self.new ≡ with_moved id to self.old }
        ensures world { IsWorld self.new }
    {
        coordinates_fit(to.at);
        if self.shards.is_empty() {
            return None;
        }
        self.shards[shard_of(id)].replace(id, to)
    }

    /// Removes the object with this id and returns its position, or `None` if no object has the id.
    pub fn remove(&mut self, id: u64) -> Option<Stamped>
        ensures found { result ≡ position_of self.old id }
        ensures gone { self.new ≡ without id self.old }
    {
        if self.shards.is_empty() {
            return None;
        }
        let gone = self.shards[shard_of(id)].remove(id)?;
        self.len -= 1;
        Some(gone)
    }
}

// Returns the index of the shard for an id: the highest 11 bits of its product with MIXER.
fn shard_of(id: u64) -> usize
    ensures index { result ≡ shard_of id }
    ensures within { result < most_shards }
{
    (id.wrapping_mul(MIXER) >> 53) as usize
}

// Creates the shards if there are none yet.
fn make_shards(alloc: Global, shards: &mut Vec<MemberMap>) -> Result<(), AllocError>
    ensures ok { OnOk result (AreMade shards.old.items shards.new.items) }
    ensures none { OnErr result (shards.old.items ≡ []) }
    ensures err { OnErr result (shards.new.items ≡ []) }
{
    if shards.is_empty() {
        *shards = empty_shards(alloc)?;
    }
    Ok(())
}

fn empty_shards(alloc: Global) -> Result<Vec<MemberMap>, AllocError>
    ensures { IfOk result (λ shards. shards.items ≡ replicate most_shards []) }
{
    let mut shards = Vec::with_capacity(alloc, SHARDS)?;
    for _ in 0..SHARDS {
        shards.push(MemberMap::new(alloc))?;
    }
    Ok(shards)
}

// Inserts the objects of a world one after the other.
fn shards_of(alloc: Global, world: &[Member]) -> Result<MemberShards, AllocError>
    requires { IsWorld world.now }
    ensures { IfOk result (λ shards. shards ≡ world.now) }
{
    let mut shards = MemberShards::new(alloc);
    for member in world {
        shards.insert(member.id, member.stamped())?;
    }
    Ok(shards)
}

// Returns the objects of all shards, one shard after the other. `len` is their number.
fn in_turn(alloc: Global, shards: &[MemberMap], len: usize) -> Result<Vec<Member>, AllocError>
    requires { len ≡ length (in_turn shards.now) }
    ensures { IfOk result (λ members. members.items ≡ in_turn shards.now) }
{
    let mut members = Vec::with_capacity(alloc, len)?;
    for shard in shards {
        shard.add_to(&mut members);
    }
    Ok(members)
}
