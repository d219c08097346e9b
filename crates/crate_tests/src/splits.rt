//! A worked split of the whole space.
ghost use Rattle.std.specs.Prelude.{◌≡◌, [], IfOk};
ghost use Rattle.std.specs.Arc.{arc_value};
ghost use Rattle.bucket_versions.specs.Under.{AreUnder};

use crate::checks::same_bucket;
use bucket_versions::{Bucket, Row};
use split_prepare::{Prepared, SplitTicket, prepare};
use std::alloc::Global;
use std::process::Abort;
use std::sync::Arc;
use zorder::{Memory, Name};

const UPPER: u64 = 0x8000000000000000;

fn row(key: u64, id: u64) -> Row
    ensures { result ≡ record { key = key; id = id } }
{
    Row { key, id }
}

fn begun(alloc: Global, number: u64, bucket: Bucket) -> Result<SplitTicket, Memory>
    ensures name { IfOk result (λ t. t.name ≡ []) }
    ensures under { IfOk result (λ t. AreUnder [] (arc_value t.bucket).base) }
{
    let Ok(bucket) = Arc::new(alloc, bucket) else {
        return Err(Memory);
    };
    Ok(SplitTicket {
        number,
        name: Name::whole(),
        bucket,
    })
}

fn expect_children(rt: &impl Abort, prepared: &Prepared, wanted: &[&[Row]]) {
    assert_same!(rt; prepared.children().len(), wanted.len());
    for (child, rows) in prepared.children().iter().zip(wanted) {
        expect_child(rt, child, rows);
    }
}

fn expect_child(rt: &impl Abort, child: &Bucket, rows: &[Row]) {
    same_bucket(rt, child, rows);
    assert_same!(rt; child.count(), rows.len() as u64);
}

const BASE: &[Row] = &[Row { key: 1, id: 9 }, Row { key: 27, id: 7 }];

fn expect_head(rt: &impl Abort, prepared: &Prepared, base: &Bucket) {
    assert_same!(rt; (prepared.number(), prepared.name()), (5, Name::whole()));
    assert_is!(rt; prepared.is_cut_from(base));
}

fn base_rows(rt: &impl Abort, alloc: Global) -> Bucket {
    Bucket::from_rows(alloc, &[row(1, 9), row(27, 7)]).expect(rt, "a bucket")
}

// A split in two of a bucket that has a row added to its base.
fn two_children(rt: &impl Abort, alloc: Global) -> Prepared {
    let bucket = base_rows(rt, alloc).with_put(row(UPPER, 4));
    let ticket = begun(alloc, 5, bucket.expect(rt, "a bucket")).expect(rt, "a ticket");
    prepare(alloc, &ticket, 1).expect(rt, "two children")
}

fn expect_two(rt: &impl Abort, prepared: &Prepared, base: &Bucket) {
    expect_head(rt, prepared, base);
    expect_children(rt, prepared, &[BASE, &[]]);
}

#[test]
fn each_child_has_the_base_rows_under_its_name(rt: HostRuntime) {
    let base = base_rows(&rt, rt.alloc());
    expect_two(&rt, &two_children(&rt, rt.alloc()), &base);
}

fn four_children(rt: &impl Abort, alloc: Global) -> Prepared {
    let rows = [row(0, 1), row(UPPER, 2), row(UPPER, 3), row(u64::MAX, 4)];
    let bucket = Bucket::from_rows(alloc, &rows).expect(rt, "a bucket");
    let ticket = begun(alloc, 1, bucket).expect(rt, "a ticket");
    prepare(alloc, &ticket, 2).expect(rt, "four children")
}

const FOUR: &[&[Row]] = &[
    &[Row { key: 0, id: 1 }],
    &[],
    &[Row { key: UPPER, id: 2 }, Row { key: UPPER, id: 3 }],
    &[Row {
        key: u64::MAX,
        id: 4,
    }],
];

#[test]
fn four_children_share_the_rows_in_key_order(rt: HostRuntime) {
    expect_children(&rt, &four_children(&rt, rt.alloc()), FOUR);
}
