//! How many objects are inside each fence, and how crossings change that number.
ghost use Rattle.std.specs.Prelude.{◌≡◌, ◌≤◌, ◌+◌, ◌-◌, ◌++◌, length, map, Some, vec_len, vec_capacity, OnOk, OnErr, IfOk};
ghost use Rattle.fence_watch.specs.Fences.{inside_of};
ghost use Rattle.fence_watch.specs.Tallies.{count_in};
ghost use Rattle.fence_watch.specs.Passages.{event_by};
ghost use Rattle.fence_watch.specs.Counts.{one_more, uncounted, count_by, counted_by, counted_in, said_by, said_in};

use crate::fences::{Crossing, Event, Fence};
use crate::passages::Pair;
use plain_list::Member;
use std::alloc::{AllocError, Global};

/// A fence, and how many objects are inside it.
#[derive(Clone, Copy, Debug, PartialEq, Eq)]
pub struct FenceCount {
    pub fence: Fence,
    pub inside: u64,
}

/// The cell of this number changes this object.
#[derive(Clone, Copy)]
pub(crate) struct Step {
    pub(crate) at: u64,
    pub(crate) id: u64,
}

/// Fences with no object inside.
pub(crate) fn uncounted(alloc: Global, fences: &[Fence]) -> Result<Vec<FenceCount>, AllocError>
    ensures { IfOk result (λ counts. counts.items ≡ map uncounted fences.now) }
{
    let mut counts = Vec::new(alloc);
    for fence in fences {
        counts.push(FenceCount {
            fence: *fence,
            inside: 0,
        })?;
    }
    Ok(counts)
}

/// Fences, and how many of these objects are inside each.
pub(crate) fn counted(
    alloc: Global,
    fences: &[Fence],
    members: &[Member],
) -> Result<Vec<FenceCount>, AllocError>
    ensures { IfOk result (λ counts. counts.items ≡ map (count_in members.now) fences.now) }
{
    let mut counts = Vec::new(alloc);
    for fence in fences {
        counts.push(FenceCount {
            fence: *fence,
            inside: number_inside(fence, members),
        })?;
    }
    Ok(counts)
}

fn number_inside(fence: &Fence, members: &[Member]) -> u64
    ensures { result ≡ length (inside_of members.now fence.now) }
{
    let mut number = 0;
    for member in members {
        if fence.region.has(member.at) {
            number += 1;
        }
    }
    number
}

/// Crosses as many fences as were counted. The call reserves all memory before it changes anything.
pub(crate) fn pass_counted(
    counts: &mut [FenceCount],
    passage: &[Pair],
    step: Step,
    crossed: usize,
    events: &mut Vec<Event>,
) -> Result<(), AllocError>
    requires { crossed ≡ length (said_by step counts.old passage.now) }
    ensures counts { OnOk result (counts.new ≡ counted_by counts.old passage.now) }
    ensures events { OnOk result (events.new.items ≡ events.old.items ++ said_by step counts.old passage.now) }
    ensures same_counts { OnErr result (counts.new ≡ counts.old) }
    ensures same_events { OnErr result (events.new.items ≡ events.old.items) }
{
    events.reserve(crossed)?;
    cross_counted(counts, passage, step, events);
    Ok(())
}

// There is room for all events.
fn cross_counted(counts: &mut [FenceCount], passage: &[Pair], step: Step, events: &mut Vec<Event>)
    requires { vec_len events.old + length (said_by step counts.old passage.now) ≤ vec_capacity events.old }
    ensures counts { counts.new ≡ counted_by counts.old passage.now }
    ensures events { events.new.items ≡ events.old.items ++ said_by step counts.old passage.now }
{
    let Some((pair, passage)) = passage.split_first() else {
        return;
    };
    if counts.len() <= 64 {
        cross_word(counts, *pair, step, events);
        return;
    }
    let (these, others) = counts.split_at_mut(64);
    cross_word(these, *pair, step, events);
    cross_counted(others, passage, step, events);
}

// The same for as many fences as a word has bits, up to the last one that is crossed.
fn cross_word(counts: &mut [FenceCount], pair: Pair, step: Step, events: &mut Vec<Event>)
    requires { vec_len events.old + length (said_in step counts.old pair) ≤ vec_capacity events.old }
    ensures counts { counts.new ≡ counted_in counts.old pair }
    ensures events { events.new.items ≡ events.old.items ++ said_in step counts.old pair }
    ensures len { vec_len events.new ≡ vec_len events.old + length (said_in step counts.old pair) }
    ensures capacity { vec_capacity events.old ≤ vec_capacity events.new }
{
    if pair.is_quiet() {
        return;
    }
    let Some((count, counts)) = counts.split_first_mut() else {
        return;
    };
    count.cross(pair.first(), step, events);
    cross_word(counts, pair.others(), step, events);
}

impl FenceCount {
    fn cross(&mut self, crossing: Option<Crossing>, step: Step, events: &mut Vec<Event>)
        requires { vec_len events.old + length (event_by step.at step.id self.old.fence crossing) ≤ vec_capacity events.old }
        ensures count { self.new ≡ count_by self.old crossing }
        ensures events { events.new.items ≡ events.old.items ++ event_by step.at step.id self.old.fence crossing }
        ensures len { vec_len events.new ≡ vec_len events.old + length (event_by step.at step.id self.old.fence crossing) }
        ensures capacity { vec_capacity events.old ≤ vec_capacity events.new }
    {
        match crossing {
            Some(Crossing::Enter) => {
                self.inside = one_more(self.inside);
                tell(events, Crossing::Enter, step, &self.fence);
            }
            Some(Crossing::Leave) => {
                self.inside = one_less(self.inside);
                tell(events, Crossing::Leave, step, &self.fence);
            }
            None => {}
        }
    }
}

// No world has so many objects that the number doesn't fit.
fn one_more(number: u64) -> u64
    ensures { result ≡ one_more number }
{
    if number < u64::MAX {
        number + 1
    } else {
        number
    }
}

fn one_less(number: u64) -> u64
    ensures { result ≡ number - 1 }
{
    if number > 0 { number - 1 } else { 0 }
}

fn tell(events: &mut Vec<Event>, crossing: Crossing, step: Step, fence: &Fence)
    requires { vec_len events.old + 1 ≤ vec_capacity events.old }
    ensures events { events.new.items ≡ events.old.items ++ event_by step.at step.id fence.now (Some crossing) }
    ensures len { vec_len events.new ≡ vec_len events.old + 1 }
    ensures capacity { vec_capacity events.old ≤ vec_capacity events.new }
{
    let _ = events.push(Event {
        at: step.at,
        crossing,
        id: step.id,
        fence: fence.id,
    });
}
