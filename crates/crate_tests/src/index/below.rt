//! How many rows an index has below each of its places, compared with a plain list, after drawn changes and splits.

use crate::index::buckets::{change, one_empty_leaf};
use crate::index::changes::{drawn, put, shift, take};
use bucket_versions::{AtOnce, Undone};
use flat_index::FlatIndex;
use index_layer::{Below, Index};
use kd_trie::KdTrie;
use quad_trie::QuadTrie;
use split_prepare::cut;
use std::alloc::Global;
use std::process::Abort;
use zorder::{Name, begins, child};

// The key of each object, if it is there.
type Keys = [Option<u64>; 64];

const TURNS: u64 = 1_000;

// No leaf's name has more bits.
const MOST_BITS: u8 = 10;

// An object is put, removed or moved.
fn change_one<I: Index>(
    index: &mut I,
    id: u64,
    at: &mut Option<u64>,
    draw: u64,
) -> Result<bool, Undone> {
    // Half of the keys are in one eighth of the space.
    let to = if draw & 16 == 0 {
        draw << 8
    } else {
        draw << 8 >> 3
    };
    match *at {
        None => {
            *at = Some(to);
            put(index, change(to, id, false))
        }
        Some(key) if draw & 3 == 0 => {
            *at = None;
            take(index, change(key, id, false))
        }
        Some(key) => {
            *at = Some(to);
            shift(index, change(key, id, false), change(to, id, false))
        }
    }
}

/// Splits the leaf that a key is under, unless its name is long.
pub(crate) fn split_over<I: Index>(alloc: Global, index: &mut I, key: u64) -> Result<(), Undone> {
    let (name, bucket) = index.leaf_of(key);
    if name.len() >= MOST_BITS {
        return Ok(());
    }
    let children = cut(alloc, bucket, &name, I::WIDTH)?;
    index.divide(&name, &children, &mut AtOnce)
}

fn change_many<I: Index>(alloc: Global, index: &mut I, keys: &mut Keys) -> Result<(), Undone> {
    let mut seed = 11;
    for turn in 0..TURNS {
        seed = drawn(seed);
        if let Some(at) = keys.get_mut((seed >> 58) as usize) {
            let _ = change_one(index, seed >> 58, at, seed)?;
        }
        if turn % 16 == 0 {
            split_over(alloc, index, drawn(seed))?;
        }
    }
    Ok(())
}

fn number_under(keys: &Keys, name: &Name) -> u64 {
    let mut number = 0_u64;
    for key in keys {
        if key.is_some_and(|k| begins(name, k)) {
            number = number.saturating_add(1);
        }
    }
    number
}

fn expect_numbers<I: Index>(rt: &impl Abort, index: &I, name: &Name, place: &I::Place, keys: &Keys)
    requires { I.is_at index.now place.now name.now }
{
    assert_same!(rt; index.count_below(name, place), number_under(keys, name));
    if name.len() > MOST_BITS {
        return;
    }
    match index.below(name, place) {
        Below::Leaf(_) => {}
        Below::Halves { zero, one } => {
            expect_numbers(rt, index, &child(name, false), zero, keys);
            expect_numbers(rt, index, &child(name, true), one, keys);
        }
    }
}

fn counts_its_rows<I: Index>(rt: &impl Abort, alloc: Global) {
    let mut index = one_empty_leaf::<I>(alloc).expect(rt, "it failed");
    let mut keys = [None; 64];
    change_many(alloc, &mut index, &mut keys).expect(rt, "it failed");
    expect_numbers(rt, &index, &Name::whole(), index.top(), &keys);
}

#[test]
fn each_index_counts_below_each_place_what_a_plain_list_has_there(rt: HostRuntime) {
    counts_its_rows::<FlatIndex>(&rt, rt.alloc());
    counts_its_rows::<KdTrie>(&rt, rt.alloc());
    counts_its_rows::<QuadTrie>(&rt, rt.alloc());
}
