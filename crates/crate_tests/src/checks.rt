//! Assertions as calls, for shorter proofs of the tests that make them.
ghost use Rattle.std.specs.Prelude.{◌≡◌};

use bucket_versions::{Bucket, Row};
use std::fmt::Debug;
use std::marker::Brand;
use std::process::Abort;
use std::sync::ledger::{Blank, Ledger};
use step_count::Steps;

/// Ends the test with these words unless `is_so` holds.
pub fn holds(rt: &impl Abort, is_so: bool, words: &str) {
    if !is_so {
        rt.panic(words)
    }
}

/// Ends the test with the name of what was compared unless both are the same.
pub fn same<T: PartialEq + Debug>(rt: &impl Abort, left: &T, right: &T, compared: &str) {
    assert_eq!(rt; left, right, "{compared}");
}

/// Ends the test unless these are the same rows.
pub fn same_rows(rt: &impl Abort, left: &[Row], right: &[Row]) {
    same(rt, &left, &right, "the rows");
}

/// Ends the test unless a bucket lists these rows, all of them its base.
pub fn same_bucket(rt: &impl Abort, bucket: &Bucket, rows: &[Row]) {
    holds(rt, is_listed(bucket, rows), "the bucket lists the rows");
    same(
        rt,
        &bucket.delta_len(),
        &0,
        "how many aren't in the base too",
    );
}

/// Whether a bucket lists these rows.
pub fn is_listed(bucket: &Bucket, rows: &[Row]) -> bool {
    lists::<Brand>(bucket, rows, Blank::new(1))
}

fn lists<L: Ledger>(bucket: &Bucket, rows: &[Row], blank: Blank) -> bool
    requires name { blank.name ≡ L.name }
    requires parts { blank.parts ≡ L.parts }
    requires one_part { blank.parts ≡ 1 }
{
    let mut steps = Steps::<L>::new(blank);
    bucket.rows(&mut steps).eq(rows)
}

/// Ends the test unless these are the same bytes.
pub fn same_bytes(rt: &impl Abort, left: &[u8], right: &[u8]) {
    same(rt, &left, &right, "the bytes");
}
