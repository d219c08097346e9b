//! Points of one city, which are added and then moved.
ghost use Rattle.std.specs.Prelude.{◌≡◌, ◌≤◌};

use crate::rows::{add, deepen, holds, one_leaf, shift};
use bucket_versions::{Row, Undone};
use index_layer::Index;
use std::alloc::Global;
use zorder::Memory;

/// How many of each to do, on leaves with names of this many bits.
#[derive(Drop)]
pub(crate) struct Plan {
    pub(crate) depth: u8,
    pub(crate) points: u64,
    pub(crate) moves: u64,
    pub(crate) checks: u64,
    pub(crate) shares: u64,
    pub(crate) keeps: bool,
}

/// The counts of what was done. The last two count the points whose rows are there at the end, in the index and in the
/// kept share.
#[derive(Drop)]
pub(crate) struct Done {
    pub(crate) points: u64,
    pub(crate) moved: u64,
    pub(crate) checked: u64,
    pub(crate) shared: u64,
    pub(crate) there: u64,
    pub(crate) kept: u64,
}

// A linear congruential generator (Knuth's MMIX).
fn drawn(seed: u64) -> u64 {
    seed.wrapping_mul(6_364_136_223_846_793_005)
        .wrapping_add(1_442_695_040_888_963_407)
}

// A key in the city of 512 leaves with names of this many bits.
fn key_in(draw: u64, depth: u8) -> u64 {
    let shared = depth.saturating_sub(9).min(63);
    if shared == 0 {
        return draw;
    }
    let city = 0x5555_5555_5555_5555 >> (64 - shared) << (64 - shared);
    city | draw >> shared
}

fn leaves<I: Index>(alloc: Global, depth: u8) -> Result<I, Undone>
    requires width { I.WIDTH ≡ 1 }
    requires most { depth ≤ 64 }
{
    let mut index: I = one_leaf(alloc)?;
    deepen_all(alloc, &mut index, depth)?;
    Ok(index)
}

fn deepen_all<I: Index>(alloc: Global, index: &mut I, depth: u8) -> Result<(), Undone>
    requires width { I.WIDTH ≡ 1 }
    requires most { depth ≤ 64 }
{
    for leaf in 0..512_u64 {
        deepen(alloc, index, key_in(leaf << 55, depth), depth)?;
    }
    Ok(())
}

fn keep(at: &mut Vec<u64>, key: u64) -> Result<(), Memory> {
    at.push(key)?;
    Ok(())
}

fn fill<I: Index>(index: &mut I, at: &mut Vec<u64>, plan: &Plan) -> Result<u64, Undone> {
    let mut seed = 42;
    let mut added = 0_u64;
    for id in 0..plan.points {
        seed = drawn(seed);
        let key = key_in(seed, plan.depth);
        keep(at, key)?;
        if add(index, Row { key, id })? {
            added = added.saturating_add(1);
        }
    }
    Ok(added)
}

// Moves a drawn point a little, most often within its leaf or to a leaf next to it.
fn move_one<I: Index>(index: &mut I, at: &mut [u64], draw: u64) -> Result<bool, Undone> {
    let Some(place) = (draw >> 32).checked_rem(at.len() as u64) else {
        return Ok(false);
    };
    let Some(key) = at.get_mut(place as usize) else {
        return Ok(false);
    };
    let to = *key ^ (drawn(draw) >> 47);
    let from = Row {
        key: *key,
        id: place,
    };
    let moved = shift(index, &from, Row { key: to, id: place })?;
    if moved {
        *key = to;
    }
    Ok(moved)
}

fn move_all<I: Index>(index: &mut I, at: &mut [u64], moves: u64) -> Result<u64, Undone> {
    let mut seed = 43;
    let mut moved = 0_u64;
    for _ in 0..moves {
        seed = drawn(seed);
        if move_one(index, at, seed)? {
            moved = moved.saturating_add(1);
        }
    }
    Ok(moved)
}

// Looks up random rows, as a move does with the row that it moves.
fn check_all<I: Index>(index: &I, at: &[u64], checks: u64) -> u64 {
    let mut seed = 44;
    let mut found = 0_u64;
    for _ in 0..checks {
        seed = drawn(seed);
        let place = (seed >> 32).checked_rem(at.len() as u64).unwrap_or(0);
        if let Some(key) = at.get(place as usize) {
            if holds(
                index,
                &Row {
                    key: *key,
                    id: place,
                },
            ) {
                found = found.saturating_add(1);
            }
        }
    }
    found
}

fn share_all<I: Index>(index: &I, shares: u64) -> Result<u64, Memory> {
    let mut shared = 0_u64;
    for _ in 0..shares {
        let _same: I = index.share()?;
        shared = shared.saturating_add(1);
    }
    Ok(shared)
}

fn count<I: Index>(index: &I, at: &[u64]) -> u64 {
    let mut there = 0_u64;
    for (id, key) in at.iter().enumerate() {
        let row = Row {
            key: *key,
            id: id as u64,
        };
        if holds(index, &row) {
            there = there.saturating_add(1);
        }
    }
    there
}

// A share of the index. It is dropped at once unless it is to be kept.
fn kept_share<I: Index>(index: &I, keeps: bool) -> Option<I> {
    let share = index.share().ok()?;
    if keeps { Some(share) } else { None }
}

fn count_kept<I: Index>(kept: &Option<I>, at: &[u64]) -> u64 {
    match kept {
        Some(share) => count(share, at),
        None => 0,
    }
}

/// Does what the plan says.
pub(crate) fn play<I: Index>(alloc: Global, plan: &Plan) -> Result<Done, Undone>
    requires width { I.WIDTH ≡ 1 }
    requires most { plan.now.depth ≤ 64 }
{
    let mut index: I = leaves(alloc, plan.depth)?;
    let mut at = Vec::new(alloc);
    let points = fill(&mut index, &mut at, plan)?;
    play_over(alloc, plan, points, &mut index, &mut at)
}

// Does what the plan says on an index with the points of these keys.
fn play_over<I: Index>(
    alloc: Global,
    plan: &Plan,
    points: u64,
    index: &mut I,
    at: &mut [u64],
) -> Result<Done, Undone> {
    let first = Vec::from_slice(alloc, at)?;
    let kept = kept_share(index, plan.keeps);
    let moved = move_all(index, at, plan.moves)?;
    let shared = share_all(index, plan.shares)?;
    Ok(Done {
        points,
        moved,
        checked: check_all(index, at, plan.checks),
        shared,
        there: count(index, at),
        kept: count_kept(&kept, &first),
    })
}
