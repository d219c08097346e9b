//! The rows of a base and a delta. A row of the delta that is in the base is removed, and any other row of it is added.
ghost use Rattle.std.specs.Prelude.{◌≡◌, ◌<◌, ◌+◌, ◌^◌, ◌∷◌, ◌++◌, List, length, IfOk};
ghost use Rattle.bucket_versions.specs.declared.row.Row.{Row};
ghost use Rattle.bucket_versions.specs.Rows.{IsRows, same_rows, has_row};
ghost use Rattle.bucket_versions.specs.Delta.{AreParts, delta_len, difference};

use crate::places::place_of;
use crate::row::Row;
use crate::walk::BucketRows;
use std::alloc::{AllocError, Global};

/// Copies the rows of a base and a delta into one list. All rows between two rows of the delta are copied at once.
pub(crate) fn merged(alloc: Global, base: &[Row], delta: &[Row]) -> Result<Vec<Row>, AllocError>
    requires { AreParts base.now delta.now }
    ensures { IfOk result (λ v. v.items ≡ difference base.now delta.now) }
{
    let mut all = Vec::with_capacity(alloc, base.len())?;
    let mut rest = base;
    for turned in delta {
        rest = push_run(&mut all, rest, turned)?;
    }
    all.extend_from_slice(rest)?;
    Ok(all)
}

// Appends the rows before `turned`, and `turned` if it isn't among them. Returns the rows after it.
fn push_run<'a>(all: &mut Vec<Row>, rest: &'a [Row], turned: &Row) -> Result<&'a [Row], AllocError>
    requires { IsRows rest.now }
    ensures rows { IfOk result (λ left. (delta : List Row) →
        all.new.items ++ difference left.now delta ≡ all.old.items ++ difference rest.now (turned.now ∷ delta)) }
    ensures in_order { IfOk result (λ left. IsRows left.now) }
{
    match place_of(rest, turned) {
        Ok(place) => {
            all.extend_from_slice(&rest[..place])?;
            Ok(&rest[place + 1..])
        }
        Err(place) => {
            all.extend_from_slice(&rest[..place])?;
            all.push(*turned)?;
            Ok(&rest[place..])
        }
    }
}

/// Returns whether two iterators return the same rows.
pub(crate) fn are_same(mut rows: BucketRows<'_>, mut others: BucketRows<'_>) -> bool
    ensures { result ≡ same_rows rows.entry others.entry }
{
    'both: while let Some(row) = rows.next() {
        match others.next() {
            Some(other) if other == row => {}
            _ => return false,
        }
    }
    others.next().is_none()
}

/// Returns whether a row is among those of a base and a delta.
pub(crate) fn holds(base: &[Row], delta: &[Row], row: &Row) -> bool
    requires { AreParts base.now delta.now }
    ensures { result ≡ has_row row.now (difference base.now delta.now) }
{
    let in_base = place_of(base, row).is_ok();
    in_base != place_of(delta, row).is_ok()
}

/// Returns how many rows are in exactly one of `base` and the `count` rows of `under` and `delta`.
pub(crate) fn delta_of(base: &[Row], under: &[Row], delta: &[Row], count: u64) -> u64
    requires base { IsRows base.now }
    requires parts { AreParts under.now delta.now }
    requires count { count ≡ length (difference under.now delta.now) }
    requires fits { length base.now + count < 2 ^ 64 }
    ensures { result ≡ delta_len (record { base = base.now; rows = difference under.now delta.now }) }
{
    let mut came = 0;
    for row in BucketRows::over(under, delta) {
        if place_of(base, row).is_err() {
            came += 1;
        }
    }
    base.len() as u64 + came - (count - came)
}
