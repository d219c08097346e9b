//! Rows that are added, removed and moved in an index, with their bases and without, and a snapshot after many of them.
ghost use Rattle.std.specs.Prelude.{true, false, IsTrue, IsFalse};
ghost use Rattle.index_layer.specs.RowChanges.{Holds};

use crate::index::buckets::{change, empty_leaves, one_empty_leaf};
use bucket_versions::{AtOnce, Row, RowChange, Undone};
use flat_index::FlatIndex;
use index_layer::Index;
use kd_trie::KdTrie;
use quad_trie::QuadTrie;
use std::alloc::Global;
use std::process::Abort;

const OBJECTS: u64 = 64;

const CHANGES: u64 = 10_000;

pub(crate) fn holds<I: Index>(index: &I, row: &Row) -> bool
    ensures there { IsTrue result → Holds row.now (I.leaves index.now) true }
    ensures absent { IsFalse result → Holds row.now (I.leaves index.now) false }
{
    let (_, bucket) = index.leaf_of(row.key);
    bucket.holds(row)
}

pub(crate) fn put<I: Index>(index: &mut I, put: RowChange) -> Result<bool, Undone> {
    if holds(index, &put.row) {
        return Ok(false);
    }
    match index.put_row(put, &mut AtOnce) {
        Ok(_) => Ok(true),
        Err(undone) => Err(undone),
    }
}

pub(crate) fn shift<I: Index>(
    index: &mut I,
    from: RowChange,
    to: RowChange,
) -> Result<bool, Undone> {
    if !holds(index, &from.row) || holds(index, &to.row) {
        return Ok(false);
    }
    match index.move_row(from, to, &mut AtOnce) {
        Ok(_) => Ok(true),
        Err(undone) => Err(undone),
    }
}

pub(crate) fn take<I: Index>(index: &mut I, gone: RowChange) -> Result<bool, Undone> {
    if !holds(index, &gone.row) {
        return Ok(false);
    }
    match index.take_row(gone, &mut AtOnce) {
        Ok(()) => Ok(true),
        Err(undone) => Err(undone),
    }
}

// How many rows the first leaf has, and the length of its delta.
fn first_leaf<I: Index>(index: &I) -> (u64, u64) {
    let (_, bucket) = index.leaf_of(0);
    (bucket.count(), bucket.delta_len())
}

// A change of an index.
#[derive(Clone, Copy)]
enum Change {
    Put(RowChange),
    Shift(RowChange, RowChange),
    Take(RowChange),
}

fn make<I: Index>(index: &mut I, change: Change) -> Result<bool, Undone> {
    match change {
        Change::Put(new) => put(index, new),
        Change::Shift(from, to) => shift(index, from, to),
        Change::Take(gone) => take(index, gone),
    }
}

macro_rules! row {
    ($key:expr, $id:expr, $keeps_base:expr) => {
        RowChange {
            row: Row { key: $key, id: $id },
            keeps_base: $keeps_base,
        }
    };
}

// Changes, and what the first leaf has then.
const CHANGED: &[(Change, (u64, u64))] = &[
    (Change::Put(row!(1, 9, false)), (1, 0)),
    (Change::Put(row!(27, 7, false)), (2, 0)),
    (Change::Put(row!(2, 4, true)), (3, 1)),
    (Change::Shift(row!(27, 7, true), row!(3, 7, true)), (3, 3)),
    // Without (3,7) the rows are the base, and (5,7) is added to them.
    (Change::Shift(row!(3, 7, false), row!(5, 7, true)), (3, 1)),
    (Change::Take(row!(1, 9, true)), (2, 2)),
    (Change::Take(row!(2, 4, false)), (1, 0)),
];

fn expect_changed<I: Index>(rt: &impl Abort, index: &mut I) {
    for (change, sizes) in CHANGED {
        assert_is!(rt; make(index, *change).expect(rt, "it failed"));
        assert_same!(rt; first_leaf(index), *sizes);
    }
}

fn keeps_a_base_where_it_is_asked_to<I: Index>(rt: &impl Abort, alloc: Global) {
    let mut index = one_empty_leaf::<I>(alloc).expect(rt, "it failed");
    expect_changed(rt, &mut index);
}

// A linear congruential generator (Knuth's MMIX).
pub(crate) fn drawn(seed: u64) -> u64 {
    seed.wrapping_mul(6_364_136_223_846_793_005)
        .wrapping_add(1_442_695_040_888_963_407)
}

fn first_key(id: u64) -> u64 {
    id.wrapping_mul(1 << 58)
}

fn put_all<I: Index>(index: &mut I) -> Result<(), Undone> {
    for id in 0..OBJECTS {
        let _ = put(index, change(first_key(id), id, false))?;
    }
    Ok(())
}

fn first_keys() -> [u64; 64] {
    let mut keys = [0; 64];
    for (id, key) in keys.iter_mut().enumerate() {
        *key = first_key(id as u64);
    }
    keys
}

// Moves an object to a key, and returns how many were moved.
fn move_to<I: Index>(
    index: &mut I,
    id: u64,
    key: &mut u64,
    to: u64,
    keeps: bool,
) -> Result<u64, Undone> {
    if !shift(index, change(*key, id, keeps), change(to, id, keeps))? {
        return Ok(0);
    }
    *key = to;
    Ok(1)
}

// Moves drawn objects to drawn keys, each third time on the old base.
fn move_many<I: Index>(index: &mut I) -> Result<u64, Undone> {
    let mut keys = first_keys();
    let mut seed = 42;
    let mut moved = 0_u64;
    for turn in 0..CHANGES {
        seed = drawn(seed);
        let id = seed >> 58;
        if let Some(key) = keys.get_mut(id as usize) {
            let more = move_to(index, id, key, drawn(seed), turn % 3 == 0)?;
            moved = moved.saturating_add(more);
        }
    }
    Ok(moved)
}

// How many objects have their first row in the index.
fn unmoved<I: Index>(index: &I) -> u64 {
    let mut there = 0_u64;
    for id in 0..OBJECTS {
        let row = Row {
            key: first_key(id),
            id,
        };
        if holds(index, &row) {
            there = there.saturating_add(1);
        }
    }
    there
}

// The first keys of four parts of the key space. Each leaf begins with one of them.
const QUARTERS: &[u64] = &[0, 1 << 62, 1 << 63, 3 << 62];

fn how_many<I: Index>(index: &I) -> u64 {
    let mut rows = 0u64;
    for first in QUARTERS {
        let (name, bucket) = index.leaf_of(*first);
        if name.bits() == *first {
            rows = rows.saturating_add(bucket.count());
        }
    }
    rows
}

fn keeps_its_rows_through_many_changes<I: Index>(rt: &impl Abort, alloc: Global) {
    let mut index = empty_leaves::<I>(alloc).expect(rt, "it failed");
    put_all(&mut index).expect(rt, "it failed");
    let before = index.share().expect(rt, "it failed");
    let moved = move_many(&mut index).expect(rt, "it failed");
    assert_same!(rt; moved, CHANGES);
    expect_rows(rt, &before, &index);
}

// Each object is there: in the share as at first, and in the index elsewhere.
fn expect_rows<I: Index>(rt: &impl Abort, before: &I, index: &I) {
    assert_same!(rt; (how_many(before), unmoved(before)), (OBJECTS, OBJECTS));
    assert_same!(rt; (how_many(index), unmoved(index)), (OBJECTS, 0));
}

fn keeps_what_it_is_to_keep<I: Index>(rt: &impl Abort, alloc: Global) {
    keeps_a_base_where_it_is_asked_to::<I>(rt, alloc);
    keeps_its_rows_through_many_changes::<I>(rt, alloc);
}

#[test]
fn a_flat_index_keeps_its_base_where_it_is_asked_to_and_its_share_through_many_changes(
    rt: HostRuntime,
) {
    keeps_what_it_is_to_keep::<FlatIndex>(&rt, rt.alloc());
}

#[test]
fn a_trie_keeps_its_base_where_it_is_asked_to_and_its_share_through_many_changes(rt: HostRuntime) {
    keeps_what_it_is_to_keep::<KdTrie>(&rt, rt.alloc());
}

#[test]
fn a_quad_trie_keeps_its_base_where_it_is_asked_to_and_its_share_through_many_changes(
    rt: HostRuntime,
) {
    keeps_what_it_is_to_keep::<QuadTrie>(&rt, rt.alloc());
}
