//! A bucket: its rows in order, and the base that they came from.
ghost use Rattle.std.specs.Prelude.{◌≡◌, ◌+◌, ◌↔◌, length, false, IfOk, IsTrue, IsErrOf};
ghost use Rattle.std.specs.Arc.{arc_value};
ghost use Rattle.bucket_versions.specs.Rows.{IsRows, AreRows, has_row, same_rows, as_base, with_rows, put_row, gone_row, rows_over, rows_between};
ghost use Rattle.bucket_versions.specs.Delta.{AreParts, delta_len, difference, turn};

mod in_place;
mod shares;

use crate::content::Content;
use crate::deltas::{are_same, holds, merged};
use crate::places;
use crate::row::Row;
use crate::walk::BucketRows;
pub use in_place::{pass, put, shift, take};
pub use shares::{caught_up, folded};
use std::alloc::{AllocError, Global};
use std::marker::Model;
use std::sync::Arc;
use std::sync::ledger::Ledger;
use step_count::Steps;
use zorder::Memory;

/// Why a row was not added or removed.
#[derive(Clone, Copy, Debug, PartialEq, Eq)]
pub enum BucketFault {
    /// The row to add is already there.
    Present,
    /// The row to remove isn't there.
    Absent,
    /// Memory ran out.
    Memory,
}

impl From<Memory> for BucketFault {
    ghost use Rattle.bucket_versions.specs.declared.bucket.BucketFault.TheVariants.{Memory};

    ghost from_gives = { λ _ fault. fault ≡ Memory };

    fn from(_: Memory) -> BucketFault {
        BucketFault::Memory
    }
}

/// The rows of one leaf in order, none twice, and its base: the rows at the moment when the bucket was last folded.
///
/// Mostly the rows are their own base, in one list. A base that is kept while rows change is stored apart, and versions
/// share it.
#[derive(Drop)]
pub struct Bucket {
    alloc: Global,
    content: Content,
}

impl Model for Bucket {
    ghost use Rattle.bucket_versions.specs.Rows.{Rows};

    ghost Value = { Rows };

    ghost use Rattle.bucket_versions.specs.Bucket.{seen, IsBucket};

    ghost view = { seen };

    ghost invariant = { IsBucket };
}

impl Clone for Bucket {
    ghost is_clone = { λ b copy. copy ≡ b };

    // Copies the bucket. The copy has a list of its own, and shares a base that is stored apart.
    fn clone(&self) -> Result<Bucket, AllocError> {
        let content = self.content.share(self.alloc)?;
        Ok(Bucket {
            alloc: self.alloc,
            content,
        })
    }
}

impl Bucket {
    /// Creates a bucket with a copy of these rows, in order. They are its base too.
    pub fn from_rows(alloc: Global, rows: &[Row]) -> Result<Bucket, Memory>
        requires { IsRows rows.now }
        ensures { IfOk result (λ b. b ≡ as_base rows.now) }
    {
        Ok(Bucket::from_vec(alloc, Vec::from_slice(alloc, rows)?))
    }

    /// Creates a bucket of this list, without taking memory.
    pub fn from_vec(alloc: Global, rows: Vec<Row>) -> Bucket
        requires { IsRows rows.items }
        ensures { result ≡ as_base rows.items }
    {
        Bucket {
            alloc,
            content: Content::new(rows),
        }
    }

    /// Returns the bucket with one more row, on the same base.
    pub fn with_put(&self, row: Row) -> Result<Bucket, BucketFault>
        ensures ok { IfOk result (λ b. b ≡ put_row row self.now) }
        ensures present { IsErrOf result BucketFault.Present ↔ IsTrue (has_row row self.now.rows) }
        ensures absent { ¬ IsErrOf result BucketFault.Absent }
    {
        if self.holds(&row) {
            return Err(BucketFault::Present);
        }
        Ok(self.turned(row)?)
    }

    /// Returns the bucket without one of its rows, on the same base.
    pub fn with_gone(&self, row: Row) -> Result<Bucket, BucketFault>
        ensures ok { IfOk result (λ b. b ≡ gone_row row self.now) }
        ensures absent { IsErrOf result BucketFault.Absent ↔ (has_row row self.now.rows ≡ false) }
        ensures present { ¬ IsErrOf result BucketFault.Present }
    {
        if !self.holds(&row) {
            return Err(BucketFault::Absent);
        }
        Ok(self.turned(row)?)
    }

    // Returns the bucket with the row toggled: removed if it was there, else added. The base is the same.
    fn turned(&self, row: Row) -> Result<Bucket, Memory>
        ensures { IfOk result (λ b. b ≡ with_rows (turn row self.now.rows) self.now) }
    {
        let mut content = self.content.share(self.alloc)?;
        content.turn_apart(self.alloc, row)?;
        Ok(Bucket {
            alloc: self.alloc,
            content,
        })
    }

    // Returns the bucket with its rows as base.
    fn with_own_base(&self) -> Result<Bucket, Memory>
        ensures { IfOk result (λ b. b ≡ as_base self.now.rows) }
    {
        let (base, delta) = self.parts();
        Ok(Bucket::from_vec(self.alloc, merged(self.alloc, base, delta)?))
    }

    /// Returns the bucket unchanged if `keeps_base`, and else with its rows as base.
    pub fn settled(self, keeps_base: bool) -> Result<Bucket, Memory>
        ensures { IfOk result (λ b. b ≡ rows_over keeps_base self.rows self) }
    {
        if keeps_base {
            Ok(self)
        } else {
            self.with_own_base()
        }
    }

    /// Returns a bucket of those rows of the base whose keys are from `lo` to `hi`.
    pub fn cut(&self, lo: u64, hi: u64) -> Result<Bucket, Memory>
        ensures { IfOk result (λ b. b ≡ as_base (rows_between lo hi self.now.base)) }
    {
        let (base, delta) = self.base_parts();
        cut_out(self.alloc, base, delta, lo, hi)
    }

    // Returns a bucket of those rows whose keys are from `lo` to `hi`.
    fn cut_now(&self, lo: u64, hi: u64) -> Result<Bucket, Memory>
        ensures { IfOk result (λ b. b ≡ as_base (rows_between lo hi self.now.rows)) }
    {
        let (base, delta) = self.parts();
        cut_out(self.alloc, base, delta, lo, hi)
    }

    /// Moves the bucket behind a pointer that indexes can share.
    pub fn into_shared(self) -> Result<Arc<Bucket>, Memory>
        ensures { IfOk result (λ b. arc_value b ≡ self) }
    {
        Ok(Arc::new(self.alloc, self)?)
    }

    /// Returns whether both buckets have the same base.
    pub fn has_base_of(&self, other: &Bucket) -> bool
        ensures { result ≡ same_rows self.now.base other.now.base }
    {
        let (base, delta) = self.base_parts();
        let (others, turned) = other.base_parts();
        are_same(
            BucketRows::over(base, delta),
            BucketRows::over(others, turned),
        )
    }

    // Returns true if the form shows that the rows are their own base. False says nothing.
    fn is_own_base(&self) -> bool
        ensures { IsTrue result → self.now ≡ as_base self.now.rows }
    {
        self.content.is_own_base()
    }

    // Returns true if the form shows that no row with a key from `lo` to `hi` was added or removed. False says nothing.
    fn is_as_cut(&self, lo: u64, hi: u64) -> bool
        ensures { IsTrue result → rows_between lo hi self.now.rows ≡ rows_between lo hi self.now.base }
    {
        self.content.is_as_cut(lo, hi)
    }

    /// Returns the number of rows.
    pub fn count(&self) -> u64
        ensures count { result ≡ length self.now.rows }
        ensures in_order { AreRows self.now }
    {
        self.content.count()
    }

    /// Returns how many rows are in exactly one of the base and the rows. A row that is added and removed again doesn't
    /// count.
    pub fn delta_len(&self) -> u64
        ensures { result ≡ delta_len self.now }
    {
        self.content.delta_len()
    }

    // Returns two lists whose symmetric difference is the rows.
    fn parts(&self) -> (&[Row], &[Row])
        ensures rows { difference result.0.now result.1.now ≡ self.now.rows }
        ensures in_order { AreParts result.0.now result.1.now }
        ensures rising { AreRows self.now }
    {
        self.content.parts()
    }

    // Returns two lists whose symmetric difference is the base.
    fn base_parts(&self) -> (&[Row], &[Row])
        ensures rows { difference result.0.now result.1.now ≡ self.now.base }
        ensures in_order { AreParts result.0.now result.1.now }
    {
        self.content.base_parts()
    }

    fn walk(&self) -> BucketRows<'_>
        ensures rows { result ≡ self.now.rows }
        ensures in_order { AreRows self.now }
    {
        let (base, delta) = self.parts();
        BucketRows::over(base, delta)
    }

    /// Returns an iterator over the rows in order. It merges two lists and takes no memory. The call counts as one
    /// step, however many rows the caller takes.
    pub fn rows<L: Ledger>(&self, steps: &mut Steps<L>) -> BucketRows<'_>
        ensures rows { result ≡ self.now.rows }
        ensures steps { steps.new ≡ steps.old + 1 }
        ensures in_order { AreRows self.now }
    {
        steps.tick();
        self.walk()
    }

    /// Returns whether a row is there.
    pub fn holds(&self, row: &Row) -> bool
        ensures { result ≡ has_row row.now self.now.rows }
    {
        let (base, delta) = self.parts();
        holds(base, delta, row)
    }
}

// Returns a bucket of those rows of `base` and `delta` whose keys are from `lo` to `hi`.
fn cut_out(alloc: Global, base: &[Row], delta: &[Row], lo: u64, hi: u64) -> Result<Bucket, Memory>
    requires { AreParts base.now delta.now }
    ensures { IfOk result (λ b. b ≡ as_base (rows_between lo hi (difference base.now delta.now))) }
{
    let some = places::between(base, lo, hi);
    let late = places::between(delta, lo, hi);
    Ok(Bucket::from_vec(alloc, merged(alloc, some, late)?))
}
