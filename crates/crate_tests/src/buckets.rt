//! Worked values of a bucket's calls.
ghost use Rattle.std.specs.Prelude.{◌≡◌};
ghost use Rattle.std.specs.Arc.{arc_value};
ghost use Rattle.bucket_versions.specs.Rows.{as_base, rows_between};

use crate::checks::{is_listed, same_bucket};
use bucket_versions::{Bucket, BucketFault, Row, caught_up, folded};
use std::alloc::Global;
use std::process::Abort;
use std::sync::Arc;

fn row(key: u64, id: u64) -> Row
    ensures { result ≡ record { key = key; id = id } }
{
    Row { key, id }
}

const TWO: [Row; 2] = [Row { key: 1, id: 9 }, Row { key: 27, id: 7 }];

const THREE: [Row; 3] = [
    Row { key: 1, id: 9 },
    Row { key: 2, id: 4 },
    Row { key: 27, id: 7 },
];

// The rows before all changes.
fn two_rows(rt: &impl Abort, alloc: Global) -> Bucket {
    Bucket::from_rows(alloc, &[row(1, 9), row(27, 7)]).expect(rt, "it failed")
}

fn three_rows(rt: &impl Abort, alloc: Global) -> Bucket {
    two_rows(rt, alloc)
        .with_put(row(2, 4))
        .expect(rt, "it failed")
}

// Fails unless a bucket has so many rows and a delta of this length, and has this row or not.
fn expect_told(rt: &impl Abort, bucket: &Bucket, row: Row, wanted: (u64, u64, bool)) {
    assert_same!(rt; (bucket.count(), bucket.delta_len(), bucket.holds(&row)), wanted);
}

// The length of the delta after a put or a removal.
fn delta_behind(bucket: Result<Bucket, BucketFault>) -> Result<u64, BucketFault> {
    match bucket {
        Ok(bucket) => Ok(bucket.delta_len()),
        Err(fault) => Err(fault),
    }
}

fn expect_delta(
    rt: &impl Abort,
    bucket: Result<Bucket, BucketFault>,
    wanted: Result<u64, BucketFault>,
) {
    assert_same!(rt; delta_behind(bucket), wanted);
}

fn expect_folded(rt: &impl Abort, bucket: &Bucket, rows: &[Row]) {
    let bucket = bucket.clone().expect(rt, "it failed");
    let bucket = bucket.into_shared().expect(rt, "it failed");
    same_bucket(rt, &folded(&bucket).expect(rt, "it failed"), rows);
}

// `c` is `b` with a put.
fn keeps_the_base(rt: &impl Abort, b: &Bucket, c: &Bucket) {
    expect_delta(rt, b.with_put(row(27, 7)), Err(BucketFault::Present));
    assert_is!(rt; c.has_base_of(b));
    expect_told(rt, c, row(2, 4), (3, 1, true));
    expect_told(rt, b, row(2, 4), (2, 0, false));
}

fn takes_a_put(rt: &impl Abort, b: &Bucket) {
    let c = b.with_put(row(2, 4)).expect(rt, "it failed");
    keeps_the_base(rt, b, &c);
    assert_is!(rt; is_listed(&c, &THREE));
    expect_folded(rt, &c, &THREE);
}

#[test]
fn a_put_keeps_the_base_and_folding_moves_it(rt: HostRuntime) {
    takes_a_put(&rt, &two_rows(&rt, rt.alloc()));
}

// `d` is `c` without a row.
fn keeps_the_other_rows(rt: &impl Abort, c: &Bucket, d: &Bucket) {
    expect_delta(rt, c.with_gone(row(2, 4)), Ok(0));
    expect_told(rt, d, row(27, 7), (2, 2, false));
    expect_delta(rt, d.with_put(row(27, 7)), Ok(1));
    assert_is!(rt; d.has_base_of(c));
    expect_folded(rt, d, &THREE[..2]);
}

fn refuses_an_absent_row(rt: &impl Abort, alloc: Global) {
    let b = two_rows(rt, alloc);
    expect_delta(rt, b.with_gone(row(2, 1)), Err(BucketFault::Absent));
}

fn takes_a_removal(rt: &impl Abort, c: &Bucket) {
    let d = c.with_gone(row(27, 7)).expect(rt, "it failed");
    keeps_the_other_rows(rt, c, &d);
}

#[test]
fn a_removal_keeps_the_base_and_the_other_rows(rt: HostRuntime) {
    refuses_an_absent_row(&rt, rt.alloc());
    takes_a_removal(&rt, &three_rows(&rt, rt.alloc()));
}

// What is cut out of the base of two rows, from 2 to 27.
fn cut(rt: &impl Abort, two: &Bucket) -> Arc<Bucket>
    ensures { arc_value result ≡ as_base (rows_between 2 27 two.now.base) }
{
    let cut = two.cut(2, 27).expect(rt, "it failed");
    cut.into_shared().expect(rt, "it failed")
}

// The same, with the changes since.
fn late(rt: &impl Abort, two: &Bucket, row: Row) -> (Arc<Bucket>, Arc<Bucket>) {
    let cut = cut(rt, two);
    let three = two.with_put(row).expect(rt, "it failed");
    let late = caught_up(&cut, &three, 2, 27).expect(rt, "it failed");
    (cut, late)
}

fn expect_late(rt: &impl Abort, two: &Bucket, row: Row, rows: &[Row]) {
    let (_cut, late) = late(rt, two, row);
    same_bucket(rt, &late, rows);
    assert_same!(rt; late.count(), rows.len() as u64);
}

#[test]
fn a_cut_bucket_catches_up_with_the_rows_in_its_range(rt: HostRuntime) {
    expect_late(&rt, &two_rows(&rt, rt.alloc()), row(2, 4), &THREE[1..]);
}

// How many pointers there are to what was cut, including the one from which it was returned.
fn owners_behind(rt: &impl Abort, two: &Bucket, row: Row) -> usize {
    let (cut, _late) = late(rt, two, row);
    Arc::strong_count(&cut)
}

fn owners_of_a_fold(rt: &impl Abort, bucket: Bucket) -> usize {
    let bucket = bucket.into_shared().expect(rt, "it failed");
    let _folded = folded(&bucket).expect(rt, "it failed");
    Arc::strong_count(&bucket)
}

fn shares_what_stays(rt: &impl Abort, alloc: Global) {
    let two = two_rows(rt, alloc);
    assert_same!(rt; owners_behind(rt, &two, row(1, 4)), 2);
    assert_same!(rt; owners_behind(rt, &two, row(2, 4)), 1);
    assert_same!(rt; owners_of_a_fold(rt, three_rows(rt, alloc)), 1);
    assert_same!(rt; owners_of_a_fold(rt, two), 2);
}

#[test]
fn no_row_is_copied_where_a_bucket_would_be_as_it_is(rt: HostRuntime) {
    shares_what_stays(&rt, rt.alloc());
}
