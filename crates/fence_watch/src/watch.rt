//! A watch: a tally of fences, and the ids of the objects inside.
ghost use Rattle.std.specs.Prelude.{◌≡◌, ◌≤◌, ◌↔◌, ℕ, List, [], ◌∷◌, ◌++◌, length};
ghost use Rattle.std.specs.Prelude.{Err, Some, None, IfOk, OnOk, OnErr, MatchOption};
ghost use Rattle.cell_format.specs.declared.cell.Cell.{Cell};
ghost use Rattle.recovery.specs.Walks.{object_of, IsNextWalked};
ghost use Rattle.fence_watch.specs.declared.fences.Fence.{Fence};
ghost use Rattle.log_state.specs.Recovers.{state_of};
ghost use Rattle.fence_watch.specs.Fences.{AreOthers};
ghost use Rattle.plain_list.specs.World.{World};
ghost use Rattle.plain_list.specs.declared.ops.Op.{Op};
ghost use Rattle.plain_list.specs.Answer.{answer_of, after_of};
ghost use Rattle.fence_watch.specs.declared.fences.Event.{Event};
ghost use Rattle.fence_watch.specs.Crossings.{crossings, crossings_from, IsNextFrom};
ghost use Rattle.fence_watch.specs.Watches.{Steps, StepsBy, IsOver, IsOverBy, HoldsBefore, FollowsFrom, FollowsCells, HoldsWorld};
ghost use Rattle.fence_watch.specs.Watches.{IsInside, inside_at, most_events};
ghost use Rattle.fence_watch.specs.Guards.{AllRising, guards_of, crossed_by};
ghost use Rattle.fence_watch.specs.Tallies.{IsPastBy, IsStepOf, Shows, TalliesBy};

use crate::fences::{Event, Fences};
use crate::guards::{Guarded, cross, guard, guard_over, make_room};
use crate::passages::{Pair, Went};
use crate::tally::Tally;
use cell_format::Cell;
use plain_list::World;
use recovery::Walked;
use std::alloc::Global;
use std::marker::Model;
use thiserror::Error;
use zorder::{Memory, Point};

/// Why a step wasn't made.
#[derive(Clone, Copy, Debug, PartialEq, Eq, Error)]
pub enum WatchFault {
    #[error("there would be more than 4,194,304 events")]
    TooMany,
    #[error("out of memory")]
    Memory,
}

/// Fences along a log, with the ids inside each.
///
/// `inside` returns a slice and takes no memory, so the ids of a fence are one rising list. An id that comes before
/// others moves them all. If many ids come in falling order, the cost grows with the square of their number. If numbers
/// are enough, use a `Tally`, which keeps no ids.
#[derive(Drop)]
pub struct Watch {
    guards: Vec<Guarded>,
    tally: Tally,
}

impl Model for Watch {
    ghost use Rattle.fence_watch.specs.Watches.{WatchView};
    ghost use Rattle.fence_watch.specs.Guards.{guards_of};

    ghost Value = { WatchView };

    ghost use Rattle.fence_watch.specs.Kept.{Keeps};

    ghost view = { λ w. record { guards = guards_of w.guards.items; events = w.tally.events } };

    ghost invariant = { λ w. Keeps (guards_of w.guards.items) w.tally };
}

impl Watch {
    /// A watch that has followed no cell yet, with no object inside.
    pub fn new(alloc: Global, fences: Fences) -> Result<Watch, Memory>
        ensures { IfOk result (λ w. FollowsCells [] fences w) }
    {
        Ok(Watch {
            guards: guard(alloc, fences.as_slice())?,
            tally: Tally::new(alloc, &fences)?,
        })
    }

    /// A watch that has made no step yet. The objects of a world are inside. The call checks each object for each
    /// fence, twice.
    pub fn over(alloc: Global, fences: Fences, world: &World) -> Result<Watch, Memory>
        ensures from { IfOk result (λ w. (at : ℕ) → FollowsFrom at world.now [] [] fences w) }
        ensures world { IfOk result (λ w. HoldsWorld world.now fences w) }
    {
        Ok(Watch {
            guards: guard_over(alloc, fences.as_slice(), world.as_slice())?,
            tally: Tally::over(alloc, &fences, world)?,
        })
    }

    /// The events so far, without those that were taken out.
    pub fn events(&self) -> &[Event]
        ensures events { result.now ≡ self.now.events }
        ensures few { length self.now.events ≤ most_events }
        ensures follows { (cells : List Cell) (fences : List Fence) → FollowsCells cells fences self.now
            → result.now ≡ crossings cells fences }
        ensures from { (at : ℕ) (world : World) (taken : List Event) (cells : List Cell) (fences : List Fence)
            → FollowsFrom at world taken cells fences self.now → taken ++ result.now ≡ crossings_from at world cells fences }
    {
        self.tally.events()
    }

    /// The ids inside the fence of this number, rising. `None` if there is no such fence.
    pub fn inside(&self, fence: u64) -> Option<&[u64]>
        ensures answer { MatchOption result (inside_at fence self.now.guards ≡ None)
            (λ ids. inside_at fence self.now.guards ≡ Some ids.now) }
        ensures follows { (w : ℕ) (cells : List Cell) (fences : List Fence) → FollowsCells cells fences self.now
            → MatchOption result (AreOthers fence fences) (λ ids. IsInside fence (state_of w cells).world fences ids.now) }
        ensures world { (world : World) (fences : List Fence) → HoldsWorld world fences self.now
            → MatchOption result (AreOthers fence fences) (λ ids. IsInside fence world fences ids.now) }
    {
        for guard in &self.guards {
            if guard.fence.id == fence {
                return Some(guard.inside.as_slice());
            }
        }
        None
    }

    /// Continues along a cell. An error leaves the watch unchanged.
    pub fn step(&mut self, walked: &Walked) -> Result<(), WatchFault>
        requires holds { HoldsBefore (object_of walked.now.cell) walked.now.before self.old.guards }
        ensures ok { OnOk result (Steps walked.now self.old self.new) }
        ensures follows { OnOk result ((w : ℕ) (cells : List Cell) (fences : List Fence) → FollowsCells cells fences self.old
            → IsNextWalked w cells walked.now → FollowsCells (cells ++ walked.now.cell ∷ []) fences self.new) }
        ensures from { OnOk result ((at : ℕ) (world : World) (taken : List Event) (cells : List Cell) (fences : List Fence)
            → FollowsFrom at world taken cells fences self.old → IsNextFrom at world cells walked.now
            → FollowsFrom at world taken (cells ++ walked.now.cell ∷ []) fences self.new) }
        ensures err { OnErr result (self.new ≡ self.old) }
        ensures too_many { (result ≡ Err WatchFault.TooMany) ↔ IsOver walked.now self.old }
    {
        // For a cell that moves no object, the proof needs only the bound on the number of events.
        let _events = self.events();
        let Some(id) = object_of(&walked.cell) else {
            return Ok(());
        };
        self.moved(walked.at, id, walked.before, walked.after)
    }

    /// Continues with a step of a program's own, as `Tally::moved` does.
    pub fn moved(
        &mut self,
        at: u64,
        id: u64,
        before: Option<Point>,
        after: Option<Point>,
    ) -> Result<(), WatchFault>
        requires { HoldsBefore (Some id) before self.old.guards }
        ensures ok { OnOk result (StepsBy at (Some id) before after self.old self.new) }
        ensures world { OnOk result ((world : World) (op : Op) (fences : List Fence) → HoldsWorld world fences self.old
            → IsStepOf id before after op (answer_of world op) → HoldsWorld (after_of world op) fences self.new) }
        ensures err { OnErr result (self.new ≡ self.old) }
        ensures too_many { (result ≡ Err WatchFault.TooMany) ↔ IsOverBy at (Some id) before after self.old }
    {
        let passage = self.tally.passage(before, after);
        let went = Went {
            at,
            id,
            before,
            after,
        };
        pass(&mut self.guards, &mut self.tally, &went, &passage)
    }

    /// Takes the events out, so that there is room for as many again. The ids inside don't change.
    pub fn take_events(&mut self, alloc: Global) -> Vec<Event>
        ensures events { result.items ≡ self.old.events }
        ensures rest { self.new ≡ record { guards = self.old.guards; events = [] } }
        ensures from { (at : ℕ) (world : World) (taken : List Event) (cells : List Cell) (fences : List Fence)
            → FollowsFrom at world taken cells fences self.old → FollowsFrom at world (taken ++ result.items) cells fences self.new }
        ensures world { (world : World) (fences : List Fence) → HoldsWorld world fences self.old → HoldsWorld world fences self.new }
    {
        self.tally.take_events(alloc)
    }
}

// Makes a step with these crossings. It reserves all memory before it changes anything.
fn pass(
    guards: &mut [Guarded],
    tally: &mut Tally,
    went: &Went,
    passage: &[Pair; 4],
) -> Result<(), WatchFault>
    requires shows { Shows went.now tally.old passage.now }
    requires rising { AllRising (guards_of guards.old) }
    ensures guards { OnOk result (guards_of guards.new ≡ crossed_by went.now.id guards.old passage.now) }
    ensures tally { OnOk result (TalliesBy went.now.at (Some went.now.id) went.now.before went.now.after tally.old tally.new) }
    ensures same_guards { OnErr result (guards_of guards.new ≡ guards_of guards.old) }
    ensures same_tally { OnErr result (tally.new ≡ tally.old) }
    ensures too_many { (result ≡ Err WatchFault.TooMany)
        ↔ IsPastBy went.now.at (Some went.now.id) went.now.before went.now.after tally.old }
{
    if tally.is_past(went, passage) {
        return Err(WatchFault::TooMany);
    }
    let Ok(()) = make_room(guards, passage) else {
        return Err(WatchFault::Memory);
    };
    tally.pass(went, passage)?;
    cross(guards, passage, went.id);
    Ok(())
}

pub(crate) fn object_of(cell: &Cell) -> Option<u64>
    ensures { result ≡ object_of cell.now }
{
    match *cell {
        Cell::Put { id, .. } => Some(id),
        Cell::Move { id, .. } => Some(id),
        Cell::Remove { id } => Some(id),
        Cell::Begin { .. } => None,
        Cell::Install { .. } => None,
        Cell::Abandon { .. } => None,
    }
}
