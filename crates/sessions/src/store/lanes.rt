//! Rows of several sessions at once, each session in a thread.
ghost use Rattle.std.specs.Prelude.{◌≡◌, ℕ, ◌+◌, ◌<◌, ◌≤◌, ◌∷◌, ◌++◌, [], length, slice_index_or, vec_len, vec_capacity, None, false};
ghost use Rattle.plain_list.specs.Answer.{IsValid};
ghost use Rattle.sessions.specs.Lanes.{IsReadyLane, Tries, PlaysLane, Advances, GoesOn};
ghost use Rattle.sessions.specs.Splits.{SamePass};

use super::Store;
use super::runs::{Pace, Run};
use crate::faults::{CallFault, Split};
use crate::points::Points;
use crate::shared::SharedBook;
use crate::start::Start;
use book_lock::Pass;
use disk_trait::LogDisk;
use index_layer::Index;
use io_edge::Gate;
use plain_list::{Answer, Op};
use std::alloc::Global;
use std::marker::Brand;
use std::sync::Wait;
use std::sync::ledger::{Blank, Ledger};
use std::thread;
use std::thread::Threads;
use step_count::Steps;
use zorder::Name;

/// A row that was answered.
#[derive(Drop)]
pub struct KeptRow {
    pub row: u32,
    /// The number of the row's call among the calls of the history, from 1.
    pub place: u64,
    pub answer: Answer,
    /// How the split ended that was tried after the call. It is `None` if no leaf was full.
    pub split: Option<Split>,
}

/// The rows of one session.
pub struct Lane<I: Index, D: LogDisk, O: Start> {
    pub session: u8,
    pub pass: Pass<SharedBook<I, D, O>>,
    /// The number of each row, and what it asks.
    pub rows: Vec<(u32, Op)>,
    /// The rows that were answered, in their order.
    pub kept: Vec<KeptRow>,
    /// Why the next row was not answered.
    pub fault: Option<CallFault>,
}

impl<I: Index, D: LogDisk, O: Start> Store<I, D, O> {
    // Tries the split of the leaf that a call has returned.
    fn try_split<R: Wait, G: Gate>(
        &self,
        rt: &R,
        alloc: Global,
        pass: &mut Pass<SharedBook<I, D, O>>,
        session: u8,
        full: Option<Name>,
        points: &Points<'_, G>,
    ) -> Option<Split>
        requires lock { pass.old.lock ≡ self.now }
        requires off { pass.old.holds ≡ false }
        ensures tries { Tries I.WIDTH full pass.old pass.new result }
        ensures pass { SamePass pass.old pass.new }
    {
        match full {
            Some(name) => Some(self.split_at(rt, alloc, pass, session, &name, points)),
            None => None,
        }
    }

    // Calls a lane's next row, tries the split of the leaf that it returns, and keeps both results. Returns whether the
    // row was answered.
    fn play_row<R: Wait, G: Gate, L: Ledger>(
        &self,
        rt: &R,
        alloc: Global,
        lane: &mut Lane<I, D, O>,
        i: usize,
        points: &Points<'_, G>,
        steps: &mut Steps<L>,
    ) -> bool
        requires lock { (lane.old.pass.lock ≡ self.now) × (lane.old.pass.holds ≡ false) }
        requires row { i < length lane.old.rows.items }
        requires valid { (d : ℕ × Op) → IsValid (slice_index_or lane.old.rows.items i d).1 }
        requires room { vec_len lane.old.kept < vec_capacity lane.old.kept }
        requires fault { lane.old.fault ≡ None }
        ensures { Advances I.WIDTH i lane.old lane.new result }
    {
        let (row, op) = lane.rows[i];
        let done = match self.call_at(
            rt,
            alloc,
            &mut lane.pass,
            lane.session,
            row,
            &op,
            points,
            steps,
        ) {
            Ok(done) => done,
            Err(fault) => {
                lane.fault = Some(fault);
                return false;
            }
        };
        let split = self.try_split(rt, alloc, &mut lane.pass, lane.session, done.full, points);
        let kept = KeptRow {
            row,
            place: done.place,
            answer: done.answer,
            split,
        };
        push_within(&mut lane.kept, kept);
        true
    }

    // Plays a lane's next rows: a run of queries at once, or one row. Returns the next row to play, unless one was refused.
    fn play_next<R: Wait, G: Gate, L: Ledger>(
        &self,
        rt: &R,
        alloc: Global,
        lane: &mut Lane<I, D, O>,
        i: usize,
        points: &Points<'_, G>,
        steps: &mut Steps<L>,
        pace: &mut Pace,
    ) -> Option<usize>
        requires lock { (lane.old.pass.lock ≡ self.now) × (lane.old.pass.holds ≡ false) }
        requires row { i < length lane.old.rows.items }
        requires valid { (k : ℕ) (d : ℕ × Op) → k < length lane.old.rows.items → IsValid (slice_index_or lane.old.rows.items k d).1 }
        requires room { vec_len lane.old.kept + length lane.old.rows.items ≤ vec_capacity lane.old.kept + i }
        requires fault { lane.old.fault ≡ None }
        ensures { GoesOn I.WIDTH i lane.old lane.new result }
    {
        match self.play_run(rt, alloc, lane, i, points, steps, pace) {
            Run::Played { next } => Some(next),
            Run::Refused => None,
            Run::Left => {
                if self.play_row(rt, alloc, lane, i, points, steps) {
                    Some(i + 1)
                } else {
                    None
                }
            }
        }
    }

    // Plays a lane's rows up to the first that is refused.
    fn play_rows<R: Wait, G: Gate, L: Ledger>(
        &self,
        rt: &R,
        alloc: Global,
        lane: &mut Lane<I, D, O>,
        points: &Points<'_, G>,
        blank: Blank,
    )
        requires name { blank.name ≡ L.name }
        requires parts { blank.parts ≡ L.parts }
        requires one_part { blank.parts ≡ 1 }
        requires ready { IsReadyLane self.now lane.old }
        ensures { PlaysLane I.WIDTH lane.old lane.new }
    {
        let mut steps = Steps::<L>::new(blank);
        let mut pace = Pace::new();
        let mut i = 0;
        while i < lane.rows.len() {
            match self.play_next(rt, alloc, lane, i, points, &mut steps, &mut pace) {
                Some(next) => i = next,
                None => return,
            }
        }
    }

    // Plays one lane, and then wakes another one.
    fn play_lane<R: Wait, G: Gate>(&self, rt: &R, alloc: Global, lane: &mut Lane<I, D, O>, gate: &G)
        requires ready { IsReadyLane self.now lane.old }
        ensures { PlaysLane I.WIDTH lane.old lane.new }
    {
        let points = Points::at(gate);
        lane.pass.in_batch(true);
        self.play_rows::<R, G, Brand>(rt, alloc, lane, &points, Blank::new(1));
        lane.pass.in_batch(false);
        self.lock.rouse();
    }
}

impl<I: Index + Send, D: LogDisk + Send, O: Start + Send> Store<I, D, O> {
    /// Plays the rows of each lane, each lane in its own thread. If a thread can't be started, the caller plays that lane.
    pub fn run_lanes<R: Threads + Wait + Sync, G: Gate + Sync>(
        &self,
        rt: &R,
        alloc: Global,
        lanes: &mut [Lane<I, D, O>],
        gate: &G,
    )
        requires ready { (i : ℕ) (d : Lane I D O I.Place) → i < length lanes.old → IsReadyLane self.now (slice_index_or lanes.old i d) }
        ensures { (i : ℕ) (d : Lane I D O I.Place) → i < length lanes.old
            → PlaysLane I.WIDTH (slice_index_or lanes.old i d) (slice_index_or lanes.new i d) }
    {
        let threads = lanes.len().max(1);
        thread::for_each_mut(
            rt,
            lanes,
            threads,
            &|_, lane|
                requires { IsReadyLane self.now lane.now }
                ensures { PlaysLane I.WIDTH lane.entry.now lane.exit.now }
            { self.play_lane(rt, alloc, lane, gate) },
        );
    }
}

/// Pushes a row, for which there is room.
pub(super) fn push_within(kept: &mut Vec<KeptRow>, row: KeptRow)
    requires { vec_len kept.old < vec_capacity kept.old }
    ensures items { kept.new.items ≡ kept.old.items ++ row ∷ [] }
    ensures count { vec_len kept.new ≡ vec_len kept.old + 1 }
    ensures capacity { vec_capacity kept.old ≤ vec_capacity kept.new }
{
    let _ = kept.push(row);
}
