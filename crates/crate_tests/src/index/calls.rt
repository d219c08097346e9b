//! Calls of an index through the trait's bound.
use crate::index::buckets::{
    change, child_over, empty, filled, grandchild_over, one_empty_leaf, split_whole,
};
use crate::index::never::Never;
use bucket_versions::{AtOnce, Undone};
use flat_index::FlatIndex;
use index_layer::{Index, IndexFault, Part};
use kd_trie::KdTrie;
use quad_trie::QuadTrie;
use std::alloc::Global;
use std::process::Abort;
use zorder::Name;

fn split_share<I: Index>(rt: &impl Abort, alloc: Global) -> I {
    let whole = one_empty_leaf::<I>(alloc).expect(rt, "one leaf");
    let share = whole.share().expect(rt, "a share");
    split_whole(alloc, &share).expect(rt, "its leaves")
}

const HIGH: u64 = 9_223_372_036_854_775_808;

const KEYS: &[u64] = &[0, 9_223_372_036_854_775_807, HIGH];

fn has_its_leaves<I: Index>(rt: &impl Abort, index: &I) {
    for key in KEYS {
        assert_is!(rt; index.leaf_of(*key).0 == child_over::<I>(*key));
    }
}

fn has_their_parts<I: Index>(rt: &impl Abort, index: &I) {
    assert_is!(rt; matches!(index.part(&Name::whole()), Part::Inner));
    assert_is!(rt; matches!(index.part(&child_over::<I>(HIGH)), Part::Leaf(_)));
    assert_is!(rt; matches!(index.part(&grandchild_over::<I>(0)), Part::Outside));
}

// No bucket is inserted if no leaf has the name.
fn refuses_a_name_below<I: Index>(rt: &impl Abort, alloc: Global, index: &I) {
    let bucket = empty(alloc).expect(rt, "no rows");
    let refused = index.replaced(&grandchild_over::<I>(0), bucket).err();
    assert_is!(rt; matches!(refused, Some(IndexFault::NoLeaf { name: _ })));
}

// How many rows the leaf of a key has, and the length of its delta.
fn sizes<I: Index>(index: &I, key: u64) -> (u64, u64) {
    let (_, bucket) = index.leaf_of(key);
    (bucket.count(), bucket.delta_len())
}

// Empty leaves, and then three rows in the first.
fn has_three_rows<I: Index>(rt: &impl Abort, index: &I, filled: &I) {
    assert_same!(rt; [sizes(filled, 27), sizes(filled, HIGH)], [(3, 1), (0, 0)]);
    assert_same!(rt; sizes(index, 27), (0, 0));
}

fn answers_the_worked_calls<I: Index>(rt: &impl Abort, alloc: Global) {
    let index = split_share::<I>(rt, alloc);
    has_its_leaves(rt, &index);
    has_their_parts(rt, &index);
    refuses_a_name_below(rt, alloc, &index);
    has_three_rows(rt, &index, &filled(rt, alloc, &index));
}

fn keeps_what_is_shared<I: Index>(rt: &impl Abort, alloc: Global) {
    let mut index = one_empty_leaf::<I>(alloc).expect(rt, "it failed");
    let before = index.share().expect(rt, "it failed");
    let rows = index
        .put_row(change(27, 7, false), &mut AtOnce)
        .expect(rt, "it failed");
    assert_same!(rt; rows, 1);
    assert_same!(rt; (sizes(&index, 27).0, sizes(&before, 27).0), (1, 0));
}

fn waits_for_its_step<I: Index>(rt: &impl Abort, alloc: Global) {
    let mut index = one_empty_leaf::<I>(alloc).expect(rt, "it failed");
    let put = index.put_row(change(27, 7, false), &mut Never);
    assert_same!(rt; (put, sizes(&index, 27).0), (Err(Undone::Lost), 0));
}

fn is_called_and_changed_in_place<I: Index>(rt: &impl Abort, alloc: Global) {
    answers_the_worked_calls::<I>(rt, alloc);
    keeps_what_is_shared::<I>(rt, alloc);
    waits_for_its_step::<I>(rt, alloc);
}

#[test]
fn a_flat_index_answers_the_worked_calls_and_is_changed_in_place(rt: HostRuntime) {
    is_called_and_changed_in_place::<FlatIndex>(&rt, rt.alloc());
}

#[test]
fn a_trie_answers_the_worked_calls_and_is_changed_in_place(rt: HostRuntime) {
    is_called_and_changed_in_place::<KdTrie>(&rt, rt.alloc());
}

#[test]
fn a_quad_trie_answers_the_worked_calls_and_is_changed(rt: HostRuntime) {
    is_called_and_changed_in_place::<QuadTrie>(&rt, rt.alloc());
}
