//! The net changes of a batch, made in the map of objects: what takes memory before the step, the rest after it.
ghost use Rattle.std.specs.Prelude.{◌≡◌, IfOk, OnOk, OnErr};
ghost use Rattle.std.specs.List.Sorted.{IsStrictlySortedBy};
ghost use Rattle.std.specs.Map.{keys_of};
ghost use Rattle.std.specs.Ordering.{nat_cmp};
ghost use Rattle.bucket_versions.specs.Told.{Told};
ghost use Rattle.plain_list.specs.World.{IsWorld};
ghost use Rattle.point_table.specs.Nets.{AreAbsent, AreNew, Touches, Adds, Removes, HasAll, Leaves, Makes, new_one, settle_at, settle_each};

use bucket_versions::{Commit, Undone};
use plain_list::{MOST_MEMBERS, Member, MemberShards, Stamped};
use std::alloc::{AllocError, Global};
use std::collections::BTreeMap;
use zorder::Memory;

// Takes the step and makes the net changes. What takes memory comes before the step. On an error the objects are as
// before.
pub(super) fn make<C: Commit>(
    alloc: Global,
    members: &mut MemberShards,
    left: &BTreeMap<u64, Option<Stamped>>,
    commit: &mut C,
) -> Result<(), Undone>
    requires can { C.can commit.old }
    requires world { IsWorld members.old }
    ensures ok { OnOk result (Makes left.now.entries members.old members.new) }
    ensures err { OnErr result (members.new ≡ members.old) }
    ensures told { Told C.done C.lost commit.old commit.new result }
{
    let new = new_ones(alloc, members, left)?;
    if new.len() > MOST_MEMBERS.saturating_sub(members.len()) {
        return exchange(alloc, members, left, &new, commit);
    }
    insert_then(members, &new, commit)?;
    leave(members, left);
    Ok(())
}

// Makes the net changes in a copy of the objects, whose place the copy takes after the step. So objects can be removed
// first, as a table needs that is too full for the new ones.
fn exchange<C: Commit>(
    alloc: Global,
    members: &mut MemberShards,
    left: &BTreeMap<u64, Option<Stamped>>,
    new: &[Member],
    commit: &mut C,
) -> Result<(), Undone>
    requires can { C.can commit.old }
    requires world { IsWorld members.old }
    requires new { AreNew members.old left.now.entries new.now }
    ensures ok { OnOk result (Makes left.now.entries members.old members.new) }
    ensures err { OnErr result (members.new ≡ members.old) }
    ensures told { Told C.done C.lost commit.old commit.new result }
{
    let mut copy = MemberShards::from_world(alloc, &members.to_world()?)?;
    settle_each(&mut copy, left);
    insert_each(&mut copy, new)?;
    leave(&mut copy, left);
    if commit.commit() {
        *members = copy;
        Ok(())
    } else {
        Err(Undone::Lost)
    }
}

// The objects that the net changes leave at a position, and that are not there yet.
fn new_ones(
    alloc: Global,
    members: &MemberShards,
    left: &BTreeMap<u64, Option<Stamped>>,
) -> Result<Vec<Member>, AllocError>
    ensures { IfOk result (λ new. AreNew members.now left.now.entries new.items) }
{
    let mut new = Vec::new(alloc);
    for (id, now) in left {
        if let Some(member) = new_one(members, *id, *now) {
            new.push(member)?;
        }
    }
    Ok(new)
}

// The object that a net change leaves, if it is not there yet.
fn new_one(members: &MemberShards, id: u64, now: Option<Stamped>) -> Option<Member>
    ensures { result ≡ new_one members.now id now }
{
    let to = now?;
    if members.position(id).is_some() {
        return None;
    }
    Some(Member {
        id,
        at: to.at,
        moment: to.moment,
    })
}

// Inserts new objects and takes the step. On an error the objects are as before.
fn insert_then<C: Commit>(
    members: &mut MemberShards,
    new: &[Member],
    commit: &mut C,
) -> Result<(), Undone>
    requires can { C.can commit.old }
    requires world { IsWorld members.old }
    requires new { AreAbsent members.old new.now }
    ensures ok { OnOk result (Adds new.now members.old members.new) }
    ensures err { OnErr result (members.new ≡ members.old) }
    ensures told { Told C.done C.lost commit.old commit.new result }
{
    if insert_each(members, new).is_err() {
        remove_each(members, new);
        return Err(Undone::Memory);
    }
    if !commit.commit() {
        remove_each(members, new);
        return Err(Undone::Lost);
    }
    Ok(())
}

// Inserts objects. On an error some of them may be there.
fn insert_each(members: &mut MemberShards, new: &[Member]) -> Result<(), Memory>
    ensures all { OnOk result (Adds new.now members.old members.new) }
    ensures some { Touches new.now members.old members.new }
{
    for member in new {
        if members.len() >= MOST_MEMBERS {
            return Err(Memory);
        }
        members.insert(member.id, member.stamped())?;
    }
    Ok(())
}

// Removes the objects with these ids.
fn remove_each(members: &mut MemberShards, new: &[Member])
    ensures { Removes new.now members.old members.new }
{
    for member in new {
        members.remove(member.id);
    }
}

// Leaves each object at the position that the net changes have for it, or removes it.
fn leave(members: &mut MemberShards, left: &BTreeMap<u64, Option<Stamped>>)
    requires { HasAll left.now.entries members.old }
    ensures { Leaves left.now.entries members.old members.new }
{
    settle_each(members, left);
}

// Moves or removes the objects that are there.
fn settle_each(members: &mut MemberShards, left: &BTreeMap<u64, Option<Stamped>>)
    ensures is { members.new ≡ settle_each left.now.entries members.old }
    ensures ordered { IsStrictlySortedBy nat_cmp (keys_of left.now.entries) }
    ensures world { IsWorld members.old → IsWorld members.new }
{
    for (id, now) in left.iter() {
        settle(members, *id, *now);
    }
}

// Moves an object to a position, or removes it.
fn settle(members: &mut MemberShards, id: u64, now: Option<Stamped>)
    ensures is { members.new ≡ settle_at id now members.old }
    ensures world { IsWorld members.old → IsWorld members.new }
{
    match now {
        Some(to) => {
            members.replace(id, to);
        }
        None => {
            members.remove(id);
        }
    }
}
