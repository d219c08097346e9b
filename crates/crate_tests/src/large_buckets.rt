//! Buckets of sizes around the one from which a change shifts a delta alone, while a version is held.
use crate::checks::is_listed;
use crate::index::never::Never;
use bucket_versions::{AtOnce, Bucket, Commit, Row, RowChange, Undone, put, take};
use std::alloc::{AllocError, Global};
use std::process::Abort;
use std::sync::Arc;

// How many objects there may be at one point. At first every other one is there.
const OBJECTS: &[usize] = &[80, 2_040, 2_050, 8_000];

const CHANGES: u64 = 700;

// The rows of the objects that are there.
fn rows_of(alloc: Global, there: &[bool]) -> Result<Vec<Row>, AllocError> {
    let mut rows = Vec::new(alloc);
    for (id, is_there) in there.iter().enumerate() {
        if *is_there {
            rows.push(Row {
                key: 7,
                id: id as u64,
            })?;
        }
    }
    Ok(rows)
}

// The objects that are there at first.
fn every_other(alloc: Global, objects: usize) -> Result<Vec<bool>, AllocError> {
    let mut there = Vec::new(alloc);
    for id in 0..objects {
        there.push(id % 2 == 0)?;
    }
    Ok(there)
}

// Removes an object, or puts it there.
fn turn<C: Commit>(
    bucket: &mut Arc<Bucket>,
    change: RowChange,
    commit: &mut C,
) -> Result<(), Undone>
    requires { C.can commit.old }
{
    if bucket.holds(&change.row) {
        return take(bucket, change, commit);
    }
    match put(bucket, change, commit) {
        Ok(_) => Ok(()),
        Err(undone) => Err(undone),
    }
}

// The same, in a step that fails.
fn turn_in_vain(rt: &impl Abort, bucket: &mut Arc<Bucket>, change: RowChange) {
    assert_same!(rt; turn(bucket, change, &mut Never), Err(Undone::Lost));
}

// Turns an object in the bucket, and in the list of which are there.
fn turn_both(rt: &impl Abort, bucket: &mut Arc<Bucket>, is_there: &mut bool, change: RowChange) {
    turn_in_vain(rt, bucket, change);
    turn(bucket, change, &mut AtOnce).expect(rt, "it failed");
    *is_there = !*is_there;
}

// A linear congruential generator (Knuth's MMIX).
fn drawn(seed: u64) -> u64 {
    seed.wrapping_mul(6_364_136_223_846_793_005)
        .wrapping_add(1_442_695_040_888_963_407)
}

// Turns drawn objects, with a version held that is some changes old.
fn turn_many(
    rt: &impl Abort,
    bucket: &mut Arc<Bucket>,
    there: &mut [bool],
    keeps_base: bool,
) -> Result<(), AllocError> {
    let mut held = Arc::try_clone(bucket)?;
    let mut seed = 3;
    for change in 0..CHANGES {
        if change % 64 == 0 {
            held = Arc::try_clone(bucket)?;
        }
        seed = drawn(seed);
        let id = (seed >> 40) % (there.len() as u64).max(1);
        if let Some(is_there) = there.get_mut(id as usize) {
            let row = Row { key: 7, id };
            turn_both(rt, bucket, is_there, RowChange { row, keeps_base });
        }
    }
    let _held = held;
    Ok(())
}

fn expect_rows(rt: &impl Abort, alloc: Global, bucket: &Bucket, there: &[bool]) {
    let rows = rows_of(alloc, there).expect(rt, "it failed");
    assert_is!(rt; is_listed(bucket, &rows));
    assert_same!(rt; bucket.count(), rows.len() as u64);
}

fn keeps_its_rows(rt: &impl Abort, alloc: Global, objects: usize, keeps_base: bool) {
    let first = every_other(alloc, objects).expect(rt, "it failed");
    let mut there = every_other(alloc, objects).expect(rt, "it failed");
    let mut bucket = shared(rt, alloc, &first);
    let before = Arc::try_clone(&bucket).expect(rt, "it failed");
    turn_many(rt, &mut bucket, &mut there, keeps_base).expect(rt, "it failed");
    expect_rows(rt, alloc, &bucket, &there);
    expect_rows(rt, alloc, &before, &first);
    assert_same!(rt; bucket.has_base_of(&before), keeps_base);
    assert_same!(rt; bucket.delta_len() == 0, !keeps_base);
}

fn shared(rt: &impl Abort, alloc: Global, there: &[bool]) -> Arc<Bucket> {
    let rows = rows_of(alloc, there).expect(rt, "it failed");
    bucket_of(alloc, &rows).expect(rt, "it failed")
}

// A bucket to which the rows were added one by one.
fn bucket_of(alloc: Global, rows: &[Row]) -> Result<Arc<Bucket>, Undone> {
    let mut bucket = Bucket::from_rows(alloc, &[])?.into_shared()?;
    for row in rows {
        let change = RowChange {
            row: *row,
            keeps_base: false,
        };
        turn(&mut bucket, change, &mut AtOnce)?;
    }
    Ok(bucket)
}

#[test]
fn keeps_its_rows_around_the_size_from_which_a_delta_is_shifted(rt: HostRuntime) {
    for objects in OBJECTS {
        keeps_its_rows(&rt, rt.alloc(), *objects, false);
        keeps_its_rows(&rt, rt.alloc(), *objects, true);
    }
}
