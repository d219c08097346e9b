//! Queries of an index through the trait's bound.
ghost use Rattle.std.specs.Prelude.{◌≡◌};

use crate::checks::same_rows;
use crate::index::asks::{expect_box, expect_near};
use crate::index::buckets::{empty_leaves, filled};
use crate::index::spread::{finds_each_corner, ranks_by_id_where_all_are_as_far};
use crate::index::ties::agrees_with_the_plain_list_on_ties;
use bucket_versions::Row;
use flat_index::FlatIndex;
use index_layer::Index;
use kd_trie::KdTrie;
use quad_trie::QuadTrie;
use std::alloc::Global;
use std::marker::Brand;
use std::process::Abort;
use std::sync::ledger::{Blank, Ledger};
use step_count::Steps;
use table_share::{for_rows, scan};
use zorder::{Placed, Point, Region};

const ORIGIN: Point = Point { x: 0, y: 0 };

const RIGHT: Point = Point { x: 1, y: 0 };

const AT_RIGHT: &[Placed] = &[Placed { id: 4, at: RIGHT }];

const BOX: Region = Region {
    lo: ORIGIN,
    hi: RIGHT,
};

const LATER_ROWS: &[Row] = &[Row { key: 2, id: 4 }, Row { key: 27, id: 7 }];

fn answers_rows<I: Index, L: Ledger>(
    rt: &impl Abort,
    alloc: Global,
    index: &I,
    steps: &mut Steps<L>,
) {
    assert_same!(rt; last_id(index, steps), 7);
    let rows = scan(alloc, index, 2, 27, steps).expect(rt, "a scan");
    same_rows(rt, rows.as_slice(), LATER_ROWS);
}

fn last_id<I: Index, L: Ledger>(index: &I, steps: &mut Steps<L>) -> u64 {
    for_rows(index, 0u64, |_, row: &Row| row.id, steps)
}

fn answers_over_three_rows<I: Index, L: Ledger>(
    rt: &impl Abort,
    alloc: Global,
    steps: &mut Steps<L>,
) {
    let empty = empty_leaves::<I>(alloc).expect(rt, "its leaves");
    let index = filled(rt, alloc, &empty);
    answers_rows(rt, alloc, &index, steps);
    expect_box(rt, alloc, &index, &BOX, AT_RIGHT, steps);
    expect_near(rt, alloc, &index, ORIGIN, 1, AT_RIGHT, steps);
}

fn answers_the_worked_queries<I: Index, L: Ledger>(rt: &impl Abort, alloc: Global, blank: Blank)
    requires name { blank.name ≡ L.name }
    requires parts { blank.parts ≡ L.parts }
    requires one_part { blank.parts ≡ 1 }
{
    let mut steps = Steps::<L>::new(blank);
    answers_over_three_rows::<I, L>(rt, alloc, &mut steps);
    finds_each_corner::<I, L>(rt, alloc, &mut steps);
    ranks_by_id_where_all_are_as_far::<I, L>(rt, alloc, &mut steps);
    agrees_with_the_plain_list_on_ties::<I, L>(rt, alloc, &mut steps);
}

#[test]
fn a_flat_index_answers_the_worked_queries_at_corners_and_among_equals_too(rt: HostRuntime) {
    answers_the_worked_queries::<FlatIndex, Brand>(&rt, rt.alloc(), Blank::new(1));
}

#[test]
fn a_trie_answers_the_worked_queries_at_corners_and_among_equals_too(rt: HostRuntime) {
    answers_the_worked_queries::<KdTrie, Brand>(&rt, rt.alloc(), Blank::new(1));
}

#[test]
fn a_quad_trie_answers_the_worked_queries_at_corners_and_among_equals_too(rt: HostRuntime) {
    answers_the_worked_queries::<QuadTrie, Brand>(&rt, rt.alloc(), Blank::new(1));
}
