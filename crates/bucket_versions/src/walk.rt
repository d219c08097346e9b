//! The iterator over the rows of a bucket.
ghost use Rattle.std.specs.Prelude.{◌≡◌, ◌∷◌, [], false, nat_lt, MatchOption, IfSome, IsTrue};
ghost use Rattle.std.specs.List.{filter};
ghost use Rattle.bucket_versions.specs.Rows.{IsRows};
ghost use Rattle.bucket_versions.specs.Delta.{AreParts, difference, heads_meet, delta_leads};

use crate::places::above_key;
use crate::row::Row;
use std::marker::Model;

/// An iterator over the rows of a bucket, in order. Contracts see it as the list of the rows that are left.
#[derive(Drop)]
pub struct BucketRows<'a> {
    base: &'a [Row],
    delta: &'a [Row],
}

impl<'a> Model for BucketRows<'a> {
    ghost use Rattle.std.specs.Prelude.{List};
    ghost use Rattle.bucket_versions.specs.declared.row.Row.{Row};
    ghost use Rattle.bucket_versions.specs.Delta.{AreParts, difference};

    ghost Value = { List Row };

    ghost view = { λ s. difference s.base.now s.delta.now };

    ghost invariant = { λ s. AreParts s.base.now s.delta.now };
}

impl<'a> BucketRows<'a> {
    pub(crate) fn over(base: &'a [Row], delta: &'a [Row]) -> BucketRows<'a>
        requires { AreParts base.now delta.now }
        ensures { result ≡ difference base.now delta.now }
    {
        BucketRows { base, delta }
    }

    /// Skips all rows whose keys are at most `key`. A binary search finds the next row, so the cost is
    /// logarithmic in the number of rows left.
    pub fn pass_key(&mut self, key: u64)
        ensures { self.new ≡ filter (λ r. nat_lt key r.key) self.old }
    {
        if are_above(self.base, key) && are_above(self.delta, key) {
            return;
        }
        self.base = above_key(self.base, key);
        self.delta = above_key(self.delta, key);
    }
}

// Returns whether all rows have keys above `key`. The rows are in order, so it looks at the first one.
#[inline(always)]
fn are_above(rows: &[Row], key: u64) -> bool
    requires { IsRows rows.now }
    ensures { IsTrue result → filter (λ r. nat_lt key r.key) rows.now ≡ rows.now }
{
    match rows.first() {
        Some(row) => key < row.key,
        None => true,
    }
}

// Returns whether both lists begin with the same row.
fn meet(base: &[Row], delta: &[Row]) -> bool
    ensures { result ≡ heads_meet base.now delta.now }
{
    match (base.first(), delta.first()) {
        (Some(row), Some(turned)) => turned == row,
        _ => false,
    }
}

// Returns whether the delta's first row is the next row. The lists do not begin with the same row.
fn leads(base: &[Row], delta: &[Row]) -> bool
    ensures { result ≡ delta_leads base.now delta.now }
{
    match (base.first(), delta.first()) {
        (None, _) => true,
        (_, None) => false,
        (Some(row), Some(turned)) => {
            turned.key < row.key || (turned.key == row.key && turned.id < row.id)
        }
    }
}

// Skips rows that are at the head of both lists. These rows were removed from the bucket.
fn apart<'a>(base: &'a [Row], delta: &'a [Row]) -> (&'a [Row], &'a [Row])
    requires { AreParts base.now delta.now }
    ensures in_order { AreParts result.0.now result.1.now }
    ensures rows { difference result.0.now result.1.now ≡ difference base.now delta.now }
    ensures apart { heads_meet result.0.now result.1.now ≡ false }
{
    let mut later = base;
    let mut more = delta;
    'heads: while meet(later, more) {
        later = &later[1..];
        more = &more[1..];
    }
    (later, more)
}

impl<'a> Iterator for BucketRows<'a> {
    ghost use Rattle.std.specs.Iterator.{YieldsFirstRef, item_count};

    type Item = &'a Row;

    ghost next_gives = { YieldsFirstRef (λ left. left) };

    ghost remaining = { item_count (λ left. left) };

    // In most calls the delta is empty, and the next row is that of one list.
    fn next(&mut self) -> Option<&'a Row> {
        if self.delta.is_empty() {
            let (first, others) = self.base.split_first()?;
            self.base = others;
            return Some(first);
        }
        let (first, base, delta) = merged_next(self.base, self.delta)?;
        self.base = base;
        self.delta = delta;
        Some(first)
    }
}

// Returns the next row of a base and a delta, and the rest of both. It takes the lists instead of the iterator, so that
// a loop over one list keeps the iterator in registers.
#[inline(never)]
fn merged_next<'a>(base: &'a [Row], delta: &'a [Row]) -> Option<(&'a Row, &'a [Row], &'a [Row])>
    requires { AreParts base.now delta.now }
    ensures in_order { IfSome result (λ next. AreParts next.1.now next.2.now) }
    ensures next { MatchOption result (difference base.now delta.now ≡ []) (λ next.
        difference base.now delta.now ≡ next.0.now ∷ difference next.1.now next.2.now) }
{
    let (base, delta) = apart(base, delta);
    if leads(base, delta) {
        let (first, others) = delta.split_first()?;
        Some((first, base, others))
    } else {
        let (first, others) = base.split_first()?;
        Some((first, others, delta))
    }
}
