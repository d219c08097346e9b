//! A spot of many objects, next to a leaf whose split is open. Objects leave it and come back, each first in a step
//! that fails, while shares are held.
use crate::index::buckets::{change, empty_leaves};
use crate::index::changes::{drawn, holds, put};
use crate::index::never::Never;
use bucket_versions::{AtOnce, Commit, RowChange, Undone};
use flat_index::FlatIndex;
use index_layer::Index;
use kd_trie::KdTrie;
use quad_trie::QuadTrie;
use std::alloc::{AllocError, Global};
use std::process::Abort;
use zorder::Name;

// From 1,024 rows on, a leaf changes a delta alone.
const OBJECTS: u64 = 1_100;

const MOVES: u64 = 1_500;

const SPOT: u64 = 7;

// In the last leaf.
const AWAY: u64 = 3 << 62;

fn key_of(is_away: bool) -> u64 {
    if is_away { AWAY } else { SPOT }
}

// An object that comes or goes. The leaf next to the spot has an open split, so its base is kept.
fn change_of(id: u64, is_away: bool) -> RowChange {
    change(key_of(is_away), id, is_away)
}

fn at_the_spot(alloc: Global) -> Result<Vec<bool>, AllocError> {
    let mut away = Vec::new(alloc);
    for _ in 0..OBJECTS {
        away.push(false)?;
    }
    Ok(away)
}

fn put_all<I: Index>(index: &mut I) -> Result<(), Undone> {
    for id in 0..OBJECTS {
        let _ = put(index, change_of(id, false))?;
    }
    Ok(())
}

// Moves an object to the place where it isn't.
fn pass<I: Index, C: Commit>(
    index: &mut I,
    id: u64,
    is_away: bool,
    commit: &mut C,
) -> Result<(), Undone>
    requires { C.can commit.old }
{
    let (from, to) = (change_of(id, is_away), change_of(id, !is_away));
    if !holds(index, &from.row) || holds(index, &to.row) {
        return Ok(());
    }
    match index.move_row(from, to, commit) {
        Ok(_) => Ok(()),
        Err(undone) => Err(undone),
    }
}

// Moves an object in the index, and in the list of where each one is.
fn pass_both<I: Index>(rt: &impl Abort, index: &mut I, id: u64, is_away: &mut bool) {
    assert_same!(rt; pass(index, id, *is_away, &mut Never), Err(Undone::Lost));
    pass(index, id, *is_away, &mut AtOnce).expect(rt, "it failed");
    *is_away = !*is_away;
}

// Moves drawn objects, with a share held that is some moves old.
fn pass_many<I: Index>(rt: &impl Abort, index: &mut I, away: &mut [bool]) {
    let mut held = index.share().expect(rt, "it failed");
    let mut seed = 9;
    for turn in 0..MOVES {
        if turn % 64 == 0 {
            held = index.share().expect(rt, "it failed");
        }
        seed = drawn(seed);
        let id = (seed >> 40) % OBJECTS;
        if let Some(is_away) = away.get_mut(id as usize) {
            pass_both(rt, index, id, is_away);
        }
    }
    let _held = held;
}

// Fails unless each object is where the list says, and nothing else is there.
fn expect_there<I: Index>(rt: &impl Abort, index: &I, away: &[bool]) {
    for (id, is_away) in away.iter().enumerate() {
        assert_is!(rt; holds(index, &change_of(id as u64, *is_away).row));
    }
    assert_same!(rt; index.count_below(&Name::whole(), index.top()), away.len() as u64);
}

fn keeps_its_spot<I: Index>(rt: &impl Abort, alloc: Global) {
    let mut index = empty_leaves::<I>(alloc).expect(rt, "it failed");
    put_all(&mut index).expect(rt, "it failed");
    let before = index.share().expect(rt, "it failed");
    let mut away = at_the_spot(alloc).expect(rt, "it failed");
    pass_many(rt, &mut index, &mut away);
    expect_there(rt, &index, &away);
    expect_there(rt, &before, &at_the_spot(alloc).expect(rt, "it failed"));
    let (_, beside) = index.leaf_of(AWAY);
    assert_same!(rt; beside.delta_len(), beside.count());
}

#[test]
fn each_index_keeps_a_spot_through_lost_moves_beside_an_open_split(rt: HostRuntime) {
    keeps_its_spot::<FlatIndex>(&rt, rt.alloc());
    keeps_its_spot::<KdTrie>(&rt, rt.alloc());
    keeps_its_spot::<QuadTrie>(&rt, rt.alloc());
}
