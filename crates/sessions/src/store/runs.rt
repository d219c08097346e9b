//! Runs of queries in a lane: answered outside the lock from one index, and noted in one hold of it.
ghost use Rattle.std.specs.Prelude.{◌≡◌, ℕ, ◌+◌, ◌<◌, ◌≤◌, false, length, slice_index_or, vec_len, vec_capacity, take, None, IfOk, IsTrue};
ghost use Rattle.plain_list.specs.Answer.{IsValid};
ghost use Rattle.plain_list.specs.History.{world_after};
ghost use Rattle.commit_book.specs.Answers.{IsQuery};
ghost use Rattle.sessions.specs.Runs.{HasLooked, Sees, AreQueries, Answers, AnswersIn, IsOut, NotesRows, Stood, RunEnds};

use super::Store;
use super::lanes::{KeptRow, Lane, push_within};
use crate::faults::call_fault;
use crate::points::Points;
use crate::queries::ask;
use crate::shared::SharedBook;
use crate::start::Start;
use book_lock::{Held, Pass};
use disk_trait::LogDisk;
use index_layer::Index;
use io_edge::{Gate, GatePoint};
use plain_list::Op;
use std::alloc::Global;
use std::sync::Wait;
use std::sync::ledger::Ledger;
use step_count::Steps;
use zorder::Memory;

/// The least queries of a run. Fewer are played one by one.
const LEAST_RUN: usize = 16;

/// The most queries of a run. More are several runs, so that the lock is not held for long.
const MOST_RUN: usize = 64;

/// How many rows are played one by one after a run that was discarded.
const LEAST_WAIT: u32 = 64;

/// The most rows that are played one by one after several discarded runs.
const MOST_WAIT: u32 = 4096;

/// How a run of queries ended.
#[derive(Drop)]
pub(super) enum Run {
    /// None of its rows was played.
    Left,
    /// Its rows before this one were played.
    Played { next: usize },
    /// One of them was refused.
    Refused,
}

/// How long a lane plays its rows one by one, because others changed the objects while its last runs were answered.
#[derive(Drop)]
pub(super) struct Pace {
    /// How many rows are still to be played one by one.
    rows: u32,
    /// How many rows follow the next discarded run.
    next: u32,
}

impl Pace {
    pub(super) fn new() -> Pace {
        Pace {
            rows: 0,
            next: LEAST_WAIT,
        }
    }

    // Whether the next row may begin a run. If not, it counts as played one by one.
    fn may_run(&mut self) -> bool {
        if self.rows == 0 {
            return true;
        }
        self.rows -= 1;
        false
    }

    // A run was played or discarded.
    fn learn(&mut self, was_played: bool) {
        if was_played {
            self.next = LEAST_WAIT;
        } else {
            self.rows = self.next;
            self.next = self.next.saturating_mul(2).min(MOST_WAIT);
        }
    }
}

/// An index as it is after so many entries.
#[derive(Drop)]
struct Sight<I: Index> {
    index: I,
    events: u64,
}

// The end of the run of queries that begins at a row. A run has `MOST_RUN` queries at most.
fn end_of_run(rows: &[(u32, Op)], i: usize) -> usize
    requires row { i < length rows.now }
    requires valid { (k : ℕ) (d : ℕ × Op) → k < length rows.now → IsValid (slice_index_or rows.now k d).1 }
    ensures after { i ≤ result }
    ensures queries { AreQueries i result rows.now }
{
    let end = rows.len().min(i.saturating_add(MOST_RUN));
    for k in i..end {
        if !is_query(&rows[k].1) {
            return k;
        }
    }
    end
}

fn is_query(op: &Op) -> bool
    ensures { IsTrue result → IsQuery op.now }
{
    matches!(op, Op::Within { .. } | Op::Near { .. })
}

// Answers a lane's queries from a row on, up to another row or to the first for which memory runs out. Returns the row
// after the last that was answered.
fn answer_rows<I: Index, D: LogDisk, O: Start, G: Gate, L: Ledger>(
    alloc: Global,
    lane: &mut Lane<I, D, O>,
    i: usize,
    end: usize,
    index: &I,
    points: &Points<'_, G>,
    steps: &mut Steps<L>,
) -> usize
    requires after { i ≤ end }
    requires free { lane.old.pass.holds ≡ false }
    requires queries { AreQueries i end lane.old.rows.items }
    requires room { vec_len lane.old.kept + end ≤ vec_capacity lane.old.kept + i }
    ensures within { (i ≤ result) × (result ≤ end) }
    ensures answers { Answers (I.leaves index.now) i result lane.old lane.new }
{
    for k in i..end {
        let (row, op) = lane.rows[k];
        points.reach(GatePoint::Taken, lane.session, &lane.pass);
        let Ok(answer) = ask(alloc, index, &op, steps, &lane.pass) else {
            return k;
        };
        let kept = KeptRow {
            row,
            place: 0,
            answer,
            split: None,
        };
        push_within(&mut lane.kept, kept);
    }
    end
}

// Reaches the gate's point for each row whose answer is kept.
fn reach_all<G: Gate, V>(points: &Points<'_, G>, session: u8, rows: usize, pass: &Pass<V>)
    requires free { pass.now.holds ≡ false }
{
    for _ in 0..rows {
        points.reach(GatePoint::Answered, session, pass);
    }
}

impl<I: Index, D: LogDisk, O: Start> Store<I, D, O> {
    // Returns the index as it is, without an entry, and wakes another lane.
    fn see<R: Wait>(&self, rt: &R, pass: &mut Pass<SharedBook<I, D, O>>) -> Result<Sight<I>, Memory>
        requires lock { pass.old.lock ≡ self.now }
        requires off { pass.old.holds ≡ false }
        ensures looked { HasLooked pass.old pass.new }
        ensures sight { IfOk result (λ s. Sees (I.leaves s.index) s.events pass.new) }
    {
        let book = self.take(rt, pass);
        let events = book.events();
        let index = book.glance();
        self.put_back(pass, book, false);
        self.lock.rouse();
        Ok(Sight {
            index: index?,
            events,
        })
    }

    // Notes answered queries under the lock and sets their places, up to the first that is refused.
    fn note_rows(
        &self,
        lane: &mut Lane<I, D, O>,
        book: &mut SharedBook<I, D, O>,
        i: usize,
        end: usize,
        base: usize,
    )
        requires lock { lane.old.pass.lock ≡ self.now }
        requires out { IsOut D.drive book.old lane.old.pass }
        requires queries { AreQueries i end lane.old.rows.items }
        requires rows { (i ≤ end) × (lane.old.fault ≡ None) × (vec_len lane.old.kept + i ≡ base + end) }
        requires answers { AnswersIn (world_after lane.old.pass.origin.world lane.old.pass.seen) i end
            (take base lane.old.kept.items) lane.old }
        ensures out { IsOut D.drive book.new lane.new.pass }
        ensures notes { NotesRows I.WIDTH i end base lane.old lane.new }
    {
        for k in i..end {
            let (row, op) = lane.rows[k];
            let at = base + (k - i);
            match book.note(lane.session, row, &op) {
                Ok(place) => {
                    self.lock.note(&mut lane.pass, book);
                    lane.kept[at].place = place;
                }
                Err(fault) => {
                    lane.kept.truncate(at);
                    lane.fault = Some(call_fault(fault));
                    return;
                }
            }
        }
    }

    // Notes answered queries in one hold of the lock, if the objects are still those of their index. Otherwise it discards
    // the answers.
    fn keep_rows<R: Wait>(
        &self,
        rt: &R,
        lane: &mut Lane<I, D, O>,
        i: usize,
        end: usize,
        base: usize,
        sight: &Sight<I>,
    ) -> Run
        requires lock { (lane.old.pass.lock ≡ self.now) × (lane.old.pass.holds ≡ false) }
        requires sees { Sees (I.leaves sight.now.index) sight.now.events lane.old.pass }
        requires queries { AreQueries i end lane.old.rows.items }
        requires rows { (i < end) × (lane.old.fault ≡ None) × (vec_len lane.old.kept + i ≡ base + end) }
        requires answers { AnswersIn (world_after lane.old.pass.origin.world lane.old.pass.seen) i end
            (take base lane.old.kept.items) lane.old }
        ensures ends { (start : Lane I D O I.Place) → Stood base start lane.old → RunEnds I.WIDTH i start lane.new result }
        ensures free { lane.new.pass.holds ≡ false }
    {
        let mut book = self.take(rt, &mut lane.pass);
        if !book.is_still_since(sight.events) {
            self.lock.put_back(&mut lane.pass, book);
            lane.kept.truncate(base);
            return Run::Left;
        }
        self.note_rows(lane, &mut book, i, end, base);
        self.lock.put_back(&mut lane.pass, book);
        match lane.fault {
            Some(_) => Run::Refused,
            None => Run::Played { next: end },
        }
    }

    // Plays a run of a lane's queries, if there is one.
    pub(super) fn play_run<R: Wait, G: Gate, L: Ledger>(
        &self,
        rt: &R,
        alloc: Global,
        lane: &mut Lane<I, D, O>,
        i: usize,
        points: &Points<'_, G>,
        steps: &mut Steps<L>,
        pace: &mut Pace,
    ) -> Run
        requires lock { (lane.old.pass.lock ≡ self.now) × (lane.old.pass.holds ≡ false) }
        requires row { i < length lane.old.rows.items }
        requires valid { (k : ℕ) (d : ℕ × Op) → k < length lane.old.rows.items → IsValid (slice_index_or lane.old.rows.items k d).1 }
        requires room { vec_len lane.old.kept + length lane.old.rows.items ≤ vec_capacity lane.old.kept + i }
        requires fault { lane.old.fault ≡ None }
        ensures { RunEnds I.WIDTH i lane.old lane.new result }
    {
        if !pace.may_run() {
            return Run::Left;
        }
        let end = end_of_run(&lane.rows, i);
        if end - i < LEAST_RUN {
            return Run::Left;
        }
        let run = self.run_rows(rt, alloc, lane, i, end, points, steps);
        pace.learn(!matches!(run, Run::Left));
        run
    }

    // Answers a lane's queries from a row on, up to another row, and notes them at once.
    fn run_rows<R: Wait, G: Gate, L: Ledger>(
        &self,
        rt: &R,
        alloc: Global,
        lane: &mut Lane<I, D, O>,
        i: usize,
        end: usize,
        points: &Points<'_, G>,
        steps: &mut Steps<L>,
    ) -> Run
        requires lock { (lane.old.pass.lock ≡ self.now) × (lane.old.pass.holds ≡ false) }
        requires after { i ≤ end }
        requires queries { AreQueries i end lane.old.rows.items }
        requires room { vec_len lane.old.kept + length lane.old.rows.items ≤ vec_capacity lane.old.kept + i }
        requires fault { lane.old.fault ≡ None }
        ensures { RunEnds I.WIDTH i lane.old lane.new result }
    {
        lane.pass.will_read(true);
        let Ok(sight) = self.see(rt, &mut lane.pass) else {
            return Run::Left;
        };
        let base = lane.kept.len();
        let answered = answer_rows(alloc, lane, i, end, &sight.index, points, steps);
        if answered == i {
            return Run::Left;
        }
        let run = self.keep_rows(rt, lane, i, answered, base, &sight);
        let rows = lane.kept.len().saturating_sub(base);
        reach_all(points, lane.session, rows, &lane.pass);
        run
    }
}
