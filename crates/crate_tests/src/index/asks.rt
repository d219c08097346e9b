//! Queries of an index that are to find given objects.
ghost use Rattle.std.specs.Prelude.{◌≤◌};
ghost use Rattle.zorder.specs.Region.{IsBox};

use index_layer::Index;
use knn_query::nearest;
use plain_list::PlacedList;
use range_query::{count_in, range};
use std::alloc::Global;
use std::process::Abort;
use std::sync::ledger::Ledger;
use step_count::Steps;
use zorder::{Placed, Point, Region};

fn expect_list(rt: &impl Abort, list: &PlacedList, wanted: &[Placed]) {
    assert_same!(rt; list.as_slice(), wanted);
}

/// Fails unless these objects are in a box, as a list and as a number.
pub(crate) fn expect_box<I: Index, L: Ledger>(
    rt: &impl Abort,
    alloc: Global,
    index: &I,
    region: &Region,
    wanted: &[Placed],
    steps: &mut Steps<L>,
)
    requires { IsBox region.now }
{
    let found = range(alloc, index, region, steps).expect(rt, "a box");
    expect_list(rt, &found, wanted);
    assert_same!(rt; count_in(index, region, steps), wanted.len() as u64);
}

/// Fails unless these are the nearest objects to a point, at most `k` of them.
pub(crate) fn expect_near<I: Index, L: Ledger>(
    rt: &impl Abort,
    alloc: Global,
    index: &I,
    at: Point,
    k: u32,
    wanted: &[Placed],
    steps: &mut Steps<L>,
)
    requires least { 1 ≤ k }
    requires most { k ≤ 2048 }
{
    let found = nearest(alloc, index, at, k, steps).expect(rt, "the nearest");
    expect_list(rt, &found, wanted);
}
