//! Deals a lane to each session that has a row, and joins the lanes' passes afterwards.
ghost use Rattle.std.specs.Prelude.{◌≡◌, ℕ, List, ◌+◌, ◌<◌, ◌≤◌, ◌++◌, [], length, vec_len, vec_capacity, false, IsTrue, IfOk, OnOk, OnErr};
ghost use Rattle.lane_history.specs.Lanes.{AreCalmLanes};
ghost use Rattle.play_run.specs.inside.Dealt.{HasDealt, AddsLane, AreParted};
ghost use Rattle.csv_rows.specs.InRows.{AreInRows};
ghost use Rattle.csv_rows.specs.declared.rows.InRow.{InRow};
ghost use Rattle.play_run.specs.inside.Joined.{AreIdle, Takes, ends_of};

use book_lock::Pass;
use csv_rows::InRow;
use disk_trait::LogDisk;
use index_layer::Index;
use plain_list::Op;
use sessions::{KeptRow, Lane, SharedBook, Start, Store};
use std::alloc::{AllocError, AllocFailed, Global};
use std::mem;

/// How many sessions there are: their numbers are 1 to 16.
pub(crate) const SESSIONS: u8 = 16;

/// What a lane leaves: the answered rows of its session, from the first one on.
#[derive(Drop)]
pub(crate) struct LaneEnd {
    pub(crate) session: u8,
    pub(crate) kept: Vec<KeptRow>,
}

/// Makes a lane for each session that has a row, in the order of their numbers. Each lane has a pass split off from
/// `pass`. If memory runs out, `lanes` has the lanes that were made before.
pub(crate) fn deal<I: Index, D: LogDisk, O: Start>(
    alloc: Global,
    store: &Store<I, D, O>,
    pass: &mut Pass<SharedBook<I, D, O>>,
    rows: &[InRow],
    lanes: &mut Vec<Lane<I, D, O>>,
) -> Result<(), AllocError>
    requires rows { AreInRows rows.now }
    requires none { HasDealt store.now rows.now 0 lanes.old.items pass.old }
    ensures all { OnOk result (HasDealt store.now rows.now 16 lanes.new.items pass.new) }
    ensures some { (n : ℕ) × (n ≤ 16) × HasDealt store.now rows.now n lanes.new.items pass.new }
    ensures origin { pass.new.origin ≡ pass.old.origin }
{
    let mut own = part_rows(alloc, rows)?;
    for i in 0..SESSIONS {
        let rows = mem::replace(&mut own[i as usize], Vec::new(alloc));
        if !rows.is_empty() {
            add_lane(alloc, store, pass, i + 1, rows, lanes)?;
        }
    }
    Ok(())
}

// The rows of each session with their numbers, at the index of the session less one.
fn part_rows(alloc: Global, rows: &[InRow]) -> Result<Vec<Vec<(u32, Op)>>, AllocError>
    requires { AreInRows rows.now }
    ensures { IfOk result (λ own. AreParted (λ v. v.items) rows.now (length rows.now) own.items) }
{
    let mut own = no_rows(alloc)?;
    for (i, row) in rows.iter().enumerate() {
        let Ok(()) = own[row.session as usize - 1].push((i as u32 + 1, row.op)) else {
            return Err(AllocError);
        };
    }
    Ok(own)
}

// An empty list of rows for each session.
fn no_rows(alloc: Global) -> Result<Vec<Vec<(u32, Op)>>, AllocError>
    ensures { (rows : List InRow) → IfOk result (λ own. AreParted (λ v. v.items) rows 0 own.items) }
{
    let mut own = Vec::with_capacity(alloc, SESSIONS as usize)?;
    for _ in 0..SESSIONS {
        let Ok(()) = own.push(Vec::new(alloc)) else {
            return Err(AllocError);
        };
    }
    Ok(own)
}

// Makes a lane with room for all answers to its rows. If memory runs out, its pass is joined back.
fn add_lane<I: Index, D: LogDisk, O: Start>(
    alloc: Global,
    store: &Store<I, D, O>,
    pass: &mut Pass<SharedBook<I, D, O>>,
    session: u8,
    own: Vec<(u32, Op)>,
    lanes: &mut Vec<Lane<I, D, O>>,
) -> Result<(), AllocError>
    requires lock { (pass.old.lock ≡ store.now) × (pass.old.holds ≡ false) }
    requires fresh { (pass.old.seen ≡ []) × (pass.old.own ≡ []) }
    requires parts { 2 ≤ pass.old.parts }
    ensures ok { OnOk result (AddsLane session own.items pass.old pass.new lanes.old.items lanes.new.items) }
    ensures err { OnErr result ((lanes.new.items ≡ lanes.old.items) × (pass.new ≡ pass.old)) }
{
    let kept = Vec::with_capacity(alloc, own.len())?;
    let lane = Lane {
        session,
        pass: store.split_pass(pass),
        rows: own,
        kept,
        fault: None,
    };
    match lanes.push(lane) {
        Ok(()) => Ok(()),
        Err(failed) => {
            let AllocFailed { value } = failed;
            let Lane {
                session: _,
                pass: other,
                rows: _,
                kept: _,
                fault: _,
            } = value;
            store.join_pass(pass, other);
            Err(AllocError)
        }
    }
}

/// Joins the passes of all lanes, and returns what the lanes leave, the last lane first.
pub(crate) fn gather<I: Index, D: LogDisk, O: Start>(
    store: &Store<I, D, O>,
    pass: &mut Pass<SharedBook<I, D, O>>,
    mut lanes: Vec<Lane<I, D, O>>,
    ends: &mut Vec<LaneEnd>,
)
    requires lock { (pass.old.lock ≡ store.now) × (pass.old.holds ≡ false) }
    requires own { pass.old.own ≡ [] }
    requires idle { AreIdle store.now lanes.items }
    requires room { vec_len ends.old + length lanes.items ≤ vec_capacity ends.old }
    ensures takes { Takes pass.old pass.new lanes.items }
    ensures ends { ends.new.items ≡ ends.old.items ++ ends_of lanes.items }
{
    while let Some(lane) = lanes.pop() {
        let Lane {
            session,
            pass: other,
            rows: _,
            kept,
            fault: _,
        } = lane;
        store.join_pass(pass, other);
        let _ = ends.push(LaneEnd { session, kept });
    }
    lanes.destroy_empty();
}

/// Whether no lane had a fault.
pub(crate) fn are_calm<I: Index, D: LogDisk, O: Start>(lanes: &[Lane<I, D, O>]) -> bool
    ensures { IsTrue result → AreCalmLanes lanes.now }
{
    for lane in lanes.iter() {
        if lane.fault.is_some() {
            return false;
        }
    }
    true
}
