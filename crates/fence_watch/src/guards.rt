//! Fences, each with the ids inside it.
ghost use Rattle.std.specs.Prelude.{◌≡◌, [], length, map, Some, OnOk, IfOk};
ghost use Rattle.fence_watch.specs.Fences.{inside_of};
ghost use Rattle.fence_watch.specs.Watches.{guard_in};
ghost use Rattle.fence_watch.specs.Passages.{turns_in, turns_of};
ghost use Rattle.fence_watch.specs.Guards.{AreRising, AllRising, guard_of, guards_of, behind_by, crossed_by, crossed_in, HaveRoom, HasRoom};

use crate::fences::{Crossing, Fence};
use crate::ids::{put_id, take_id};
use crate::passages::Pair;
use plain_list::Member;
use std::alloc::{AllocError, Global};

// It has no view of its own, so that contracts see how much room there is.
#[derive(Drop)]
pub(crate) struct Guarded {
    pub(crate) fence: Fence,
    pub(crate) inside: Vec<u64>,
}

/// Fences with no object inside.
pub(crate) fn guard(alloc: Global, fences: &[Fence]) -> Result<Vec<Guarded>, AllocError>
    ensures guards { IfOk result (λ guards. guards_of guards.items ≡ map (λ f. record { fence = f; inside = [] }) fences.now) }
    ensures rising { IfOk result (λ guards. AllRising (guards_of guards.items)) }
{
    let mut guards = Vec::new(alloc);
    for fence in fences {
        guards.push(Guarded {
            fence: *fence,
            inside: Vec::new(alloc),
        })?;
    }
    Ok(guards)
}

/// Fences, each with the ids of these objects that are inside.
pub(crate) fn guard_over(
    alloc: Global,
    fences: &[Fence],
    members: &[Member],
) -> Result<Vec<Guarded>, AllocError>
    ensures { IfOk result (λ guards. guards_of guards.items ≡ map (guard_in members.now) fences.now) }
{
    let mut guards = Vec::new(alloc);
    for fence in fences {
        let inside = ids_inside(alloc, fence, members)?;
        guards.push(Guarded {
            fence: *fence,
            inside,
        })?;
    }
    Ok(guards)
}

fn ids_inside(alloc: Global, fence: &Fence, members: &[Member]) -> Result<Vec<u64>, AllocError>
    ensures { IfOk result (λ ids. ids.items ≡ inside_of members.now fence.now) }
{
    let mut ids = Vec::new(alloc);
    for member in members {
        if fence.region.has(member.at) {
            ids.push(member.id)?;
        }
    }
    Ok(ids)
}

/// Reserves room for an id in each fence that is entered.
pub(crate) fn make_room(guards: &mut [Guarded], passage: &[Pair]) -> Result<(), AllocError>
    ensures same { guards_of guards.new ≡ guards_of guards.old }
    ensures room { OnOk result (HaveRoom guards.new (turns_of passage.now)) }
{
    let Some((pair, passage)) = passage.split_first() else {
        return Ok(());
    };
    if guards.len() <= 64 {
        return make_room_in(guards, *pair);
    }
    let (these, others) = guards.split_at_mut(64);
    make_room_in(these, *pair)?;
    make_room(others, passage)
}

// The same for as many fences as a word has bits, up to the last one that is crossed.
fn make_room_in(guards: &mut [Guarded], pair: Pair) -> Result<(), AllocError>
    ensures same { guards_of guards.new ≡ guards_of guards.old }
    ensures room { OnOk result (HaveRoom guards.new (turns_in (length guards.old) pair)) }
{
    if pair.is_quiet() {
        return Ok(());
    }
    let Some((guard, guards)) = guards.split_first_mut() else {
        return Ok(());
    };
    if pair.first() == Some(Crossing::Enter) {
        guard.inside.reserve(1)?;
    }
    make_room_in(guards, pair.others())
}

/// Adds an id to the fences that it enters, and removes it from those that it leaves. There is room for all of them.
pub(crate) fn cross(guards: &mut [Guarded], passage: &[Pair], id: u64)
    requires rising { AllRising (guards_of guards.old) }
    requires room { HaveRoom guards.old (turns_of passage.now) }
    ensures { guards_of guards.new ≡ crossed_by id guards.old passage.now }
{
    let Some((pair, passage)) = passage.split_first() else {
        return;
    };
    if guards.len() <= 64 {
        cross_in(guards, *pair, id);
        return;
    }
    let (these, others) = guards.split_at_mut(64);
    cross_in(these, *pair, id);
    cross(others, passage, id);
}

// The same for as many fences as a word has bits, up to the last one that is crossed.
fn cross_in(guards: &mut [Guarded], pair: Pair, id: u64)
    requires rising { AllRising (guards_of guards.old) }
    requires room { HaveRoom guards.old (turns_in (length guards.old) pair) }
    ensures { guards_of guards.new ≡ crossed_in id guards.old pair }
{
    if pair.is_quiet() {
        return;
    }
    let Some((guard, guards)) = guards.split_first_mut() else {
        return;
    };
    guard.cross(pair.first(), id);
    cross_in(guards, pair.others(), id);
}

impl Guarded {
    fn cross(&mut self, crossing: Option<Crossing>, id: u64)
        requires rising { AreRising self.old.inside.items }
        requires room { HasRoom self.old crossing }
        ensures { guard_of self.new ≡ behind_by id (guard_of self.old) crossing }
    {
        match crossing {
            Some(Crossing::Enter) => put_id(&mut self.inside, id),
            Some(Crossing::Leave) => take_id(&mut self.inside, id),
            None => {}
        }
    }
}
