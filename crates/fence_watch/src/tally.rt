//! A tally: fences, how many objects are inside each, and which crossed.
ghost use Rattle.std.specs.Prelude.{◌≡◌, ◌≤◌, ◌↔◌, ℕ, List, [], ◌∷◌, ◌++◌, length, map};
ghost use Rattle.std.specs.Prelude.{Err, Some, true, IfOk, OnOk, OnErr};
ghost use Rattle.cell_format.specs.declared.cell.Cell.{Cell};
ghost use Rattle.plain_list.specs.World.{World};
ghost use Rattle.plain_list.specs.declared.ops.Op.{Op};
ghost use Rattle.plain_list.specs.declared.entries.Entry.{Entry};
ghost use Rattle.plain_list.specs.declared.object_changes.Change.{Change};
ghost use Rattle.plain_list.specs.Answer.{answer_of, after_of};
ghost use Rattle.plain_list.specs.Changes.{change_of, changes_of};
ghost use Rattle.plain_list.specs.History.{world_after};
ghost use Rattle.recovery.specs.Walks.{object_of, IsNextWalked};
ghost use Rattle.fence_watch.specs.declared.fences.Fence.{Fence};
ghost use Rattle.fence_watch.specs.declared.fences.Event.{Event};
ghost use Rattle.log_state.specs.Recovers.{state_of};
ghost use Rattle.fence_watch.specs.Crossings.{crossings, crossings_from, world_after_cells, IsNextFrom};
ghost use Rattle.fence_watch.specs.Passages.{ShowsPassage};
ghost use Rattle.fence_watch.specs.Watches.{most_events};
ghost use Rattle.fence_watch.specs.Counts.{fences_counted};
ghost use Rattle.fence_watch.specs.Tallies.{Shows, Tallies, TalliesBy, TalliesFrom, TalliesCells, IsPast, IsPastBy, count_in};
ghost use Rattle.fence_watch.specs.Tallies.{FollowsWorld, IsStepOf};
ghost use Rattle.fence_watch.specs.Told.{TalliesChanges, changes_crossings};

use crate::counts::{FenceCount, Step, counted, pass_counted, uncounted};
use crate::fences::{Event, Fences};
use crate::passages::{Chart, Pair, Went, crossed};
use crate::watch::{WatchFault, object_of};
use plain_list::{Change, World};
use recovery::Walked;
use std::alloc::Global;
use std::marker::Model;
use std::mem::replace;
use zorder::{Memory, Point};

/// The most events that a tally keeps until they are taken out.
pub const MOST_FENCE_EVENTS: usize = 4_194_304;

/// Fences along a log, and how many objects are inside each. It keeps no ids, so the cost of a step doesn't depend on
/// their order.
#[derive(Drop)]
pub struct Tally {
    counts: Vec<FenceCount>,
    chart: Chart,
    events: Vec<Event>,
}

impl Model for Tally {
    ghost use Rattle.fence_watch.specs.Tallies.{TallyView};

    ghost Value = { TallyView };

    ghost use Rattle.fence_watch.specs.Kept.{KeepsTally};

    ghost view = { λ t. record { counts = t.counts.items; events = t.events.items } };

    ghost invariant = { λ t. KeepsTally t.counts.items t.chart t.events.items };
}

impl Tally {
    /// A tally that has followed no cell yet, with no object inside.
    pub fn new(alloc: Global, fences: &Fences) -> Result<Tally, Memory>
        ensures follows { IfOk result (λ t. TalliesCells [] [] fences.now t) }
        ensures changes { IfOk result (λ t. TalliesChanges [] [] [] fences.now t) }
    {
        Ok(Tally {
            counts: uncounted(alloc, fences.as_slice())?,
            chart: Chart::new(alloc, fences.as_slice())?,
            events: Vec::new(alloc),
        })
    }

    /// A tally that has made no step yet. The objects of a world are inside. The call checks each object for each
    /// fence.
    pub fn over(alloc: Global, fences: &Fences, world: &World) -> Result<Tally, Memory>
        ensures from { IfOk result (λ t. (at : ℕ) → TalliesFrom at world.now [] [] fences.now t) }
        ensures world { IfOk result (λ t. FollowsWorld world.now fences.now t) }
        ensures changes { IfOk result (λ t. TalliesChanges world.now [] [] fences.now t) }
    {
        Ok(Tally {
            counts: counted(alloc, fences.as_slice(), world.as_slice())?,
            chart: Chart::new(alloc, fences.as_slice())?,
            events: Vec::new(alloc),
        })
    }

    /// The events so far, without those that were taken out.
    pub fn events(&self) -> &[Event]
        ensures events { result.now ≡ self.now.events }
        ensures few { length self.now.events ≤ most_events }
        ensures follows { (taken : List Event) (cells : List Cell) (fences : List Fence) → TalliesCells taken cells fences self.now
            → taken ++ result.now ≡ crossings cells fences }
        ensures from { (at : ℕ) (world : World) (taken : List Event) (cells : List Cell) (fences : List Fence)
            → TalliesFrom at world taken cells fences self.now → taken ++ result.now ≡ crossings_from at world cells fences }
        ensures changes { (world : World) (taken : List Event) (changes : List Change) (fences : List Fence)
            → TalliesChanges world taken changes fences self.now → taken ++ result.now ≡ changes_crossings changes fences }
    {
        self.events.as_slice()
    }

    /// The fences in their order, each with how many objects are inside.
    pub fn counts(&self) -> &[FenceCount]
        ensures counts { result.now ≡ self.now.counts }
        ensures follows { (w : ℕ) (taken : List Event) (cells : List Cell) (fences : List Fence) → TalliesCells taken cells fences self.now
            → result.now ≡ map (count_in (state_of w cells).world) fences }
        ensures from { (at : ℕ) (world : World) (taken : List Event) (cells : List Cell) (fences : List Fence)
            → TalliesFrom at world taken cells fences self.now → result.now ≡ map (count_in (world_after_cells world cells)) fences }
        ensures world { (world : World) (fences : List Fence) → FollowsWorld world fences self.now
            → result.now ≡ map (count_in world) fences }
        ensures history { (world : World) (h : List Entry) (taken : List Event) (fences : List Fence)
            → TalliesChanges world taken (changes_of world h) fences self.now → result.now ≡ map (count_in (world_after world h)) fences }
    {
        self.counts.as_slice()
    }

    /// Continues along a cell. An error leaves the tally unchanged.
    pub fn step(&mut self, walked: &Walked) -> Result<(), WatchFault>
        ensures ok { OnOk result (Tallies walked.now self.old self.new) }
        ensures follows { OnOk result ((w : ℕ) (taken : List Event) (cells : List Cell) (fences : List Fence)
            → TalliesCells taken cells fences self.old → IsNextWalked w cells walked.now
            → TalliesCells taken (cells ++ walked.now.cell ∷ []) fences self.new) }
        ensures from { OnOk result ((at : ℕ) (world : World) (taken : List Event) (cells : List Cell) (fences : List Fence)
            → TalliesFrom at world taken cells fences self.old → IsNextFrom at world cells walked.now
            → TalliesFrom at world taken (cells ++ walked.now.cell ∷ []) fences self.new) }
        ensures behind { OnOk result ((w : ℕ) (front : List Cell) (taken : List Event) (cells : List Cell) (fences : List Fence)
            → TalliesFrom (length front) (state_of w front).world taken cells fences self.old → IsNextWalked w (front ++ cells) walked.now
            → TalliesFrom (length front) (state_of w front).world taken (cells ++ walked.now.cell ∷ []) fences self.new) }
        ensures err { OnErr result (self.new ≡ self.old) }
        ensures too_many { (result ≡ Err WatchFault.TooMany) ↔ IsPast walked.now self.old }
    {
        // For a cell that moves no object, the proof needs only the bound on the number of events.
        let _events = self.events();
        let Some(id) = object_of(&walked.cell) else {
            return Ok(());
        };
        self.moved(walked.at, id, walked.before, walked.after)
    }

    /// Continues with a step of a program's own: an object went from one position to another. The position is `None`
    /// before the object is put and after it is removed.
    ///
    /// The number `at` is the program's choice, for example a place in its history. It is in the events of this step.
    pub fn moved(
        &mut self,
        at: u64,
        id: u64,
        before: Option<Point>,
        after: Option<Point>,
    ) -> Result<(), WatchFault>
        ensures ok { OnOk result (TalliesBy at (Some id) before after self.old self.new) }
        ensures world { OnOk result ((world : World) (op : Op) (fences : List Fence) → FollowsWorld world fences self.old
            → IsStepOf id before after op (answer_of world op) → FollowsWorld (after_of world op) fences self.new) }
        ensures err { OnErr result (self.new ≡ self.old) }
        ensures too_many { (result ≡ Err WatchFault.TooMany) ↔ IsPastBy at (Some id) before after self.old }
    {
        let passage = self.passage(before, after);
        self.pass(
            &Went {
                at,
                id,
                before,
                after,
            },
            &passage,
        )
    }

    /// Continues with a change that a call has made in a store. Report the changes of a history in the order of their
    /// places. Then the tally's events are the crossings of the history, and its numbers are those of the history's
    /// world.
    pub fn changed(&mut self, change: &Change) -> Result<(), WatchFault>
        ensures ok { OnOk result (TalliesBy change.now.place (Some change.now.id) change.now.before change.now.after self.old self.new) }
        ensures world { OnOk result ((world : World) (op : Op) (fences : List Fence) → FollowsWorld world fences self.old
            → change_of change.now.place op (answer_of world op) ≡ Some change.now → FollowsWorld (after_of world op) fences self.new) }
        ensures changes { OnOk result ((world : World) (taken : List Event) (changes : List Change) (fences : List Fence)
            → TalliesChanges world taken changes fences self.old → TalliesChanges world taken (changes ++ change.now ∷ []) fences self.new) }
        ensures err { OnErr result (self.new ≡ self.old) }
        ensures too_many { (result ≡ Err WatchFault.TooMany)
            ↔ IsPastBy change.now.place (Some change.now.id) change.now.before change.now.after self.old }
    {
        self.moved(change.place, change.id, change.before, change.after)
    }

    /// Takes the events out, so that there is room for as many again. The numbers of objects inside don't change.
    pub fn take_events(&mut self, alloc: Global) -> Vec<Event>
        ensures events { result.items ≡ self.old.events }
        ensures rest { self.new ≡ record { counts = self.old.counts; events = [] } }
        ensures follows { (taken : List Event) (cells : List Cell) (fences : List Fence) → TalliesCells taken cells fences self.old
            → TalliesCells (taken ++ result.items) cells fences self.new }
        ensures from { (at : ℕ) (world : World) (taken : List Event) (cells : List Cell) (fences : List Fence)
            → TalliesFrom at world taken cells fences self.old → TalliesFrom at world (taken ++ result.items) cells fences self.new }
        ensures world { (world : World) (fences : List Fence) → FollowsWorld world fences self.old → FollowsWorld world fences self.new }
        ensures changes { (world : World) (taken : List Event) (changes : List Change) (fences : List Fence)
            → TalliesChanges world taken changes fences self.old → TalliesChanges world (taken ++ result.items) changes fences self.new }
    {
        replace(&mut self.events, Vec::new(alloc))
    }

    /// How each fence is crossed between two positions.
    pub(crate) fn passage(&self, before: Option<Point>, after: Option<Point>) -> [Pair; 4]
        ensures { ShowsPassage before after (fences_counted self.now.counts) result }
    {
        self.chart.passage(before, after)
    }

    /// Whether a step with these crossings would lead to too many events.
    pub(crate) fn is_past(&self, went: &Went, passage: &[Pair; 4]) -> bool
        requires { Shows went.now self.now passage.now }
        ensures { (result ≡ true) ↔ IsPastBy went.now.at (Some went.now.id) went.now.before went.now.after self.now }
    {
        self.events.len() + crossed(passage) > MOST_FENCE_EVENTS
    }

    /// Does the work of `moved` for a step with these crossings.
    pub(crate) fn pass(&mut self, went: &Went, passage: &[Pair; 4]) -> Result<(), WatchFault>
        requires { Shows went.now self.old passage.now }
        ensures ok { OnOk result (TalliesBy went.now.at (Some went.now.id) went.now.before went.now.after self.old self.new) }
        ensures err { OnErr result (self.new ≡ self.old) }
        ensures too_many { (result ≡ Err WatchFault.TooMany)
            ↔ IsPastBy went.now.at (Some went.now.id) went.now.before went.now.after self.old }
    {
        let told = self.events.len();
        let crossed = crossed(passage);
        if crossed == 0 {
            return Ok(());
        }
        if told + crossed > MOST_FENCE_EVENTS {
            return Err(WatchFault::TooMany);
        }
        let step = Step {
            at: went.at,
            id: went.id,
        };
        let Ok(()) = pass_counted(&mut self.counts, passage, step, crossed, &mut self.events) else {
            return Err(WatchFault::Memory);
        };
        Ok(())
    }
}
