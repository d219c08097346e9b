//! Rows in order. A change shifts few of them and a copy copies few of them, however many there are.
ghost use Rattle.std.specs.Prelude.{◌≡◌, ℕ, ◌+◌, ◌<◌, ◌^◌, nat_lt, false, length, vec_len, vec_capacity, IfOk, OnOk, OnErr, IsFalse};
ghost use Rattle.std.specs.Arc.{arc_value};
ghost use Rattle.bucket_versions.specs.declared.row_list.Under.{Under};
ghost use Rattle.bucket_versions.specs.Rows.{IsRows, has_row, after_put};
ghost use Rattle.bucket_versions.specs.Delta.{AreParts, difference, turn};
ghost use Rattle.bucket_versions.specs.RowList.{rows_under, listed, is_short, MayHave, IsCounted, IsRowList, HasRoom, is_flat, most_flat, is_full};
ghost use Rattle.bucket_versions.specs.Told.{Told};

use crate::bucket::{Bucket, put};
use crate::commit::{Commit, Undone};
use crate::deltas::{holds, merged};
use crate::own_rows;
use crate::row::{Row, RowChange};
use std::alloc::{AllocError, Global};
use std::sync::Arc;
use zorder::Memory;

// The length at which a list of all rows becomes a shared list with a delta.
const MOST_FLAT: usize = 1024;

// No computer has memory for so many rows.
const MOST_ROWS: usize = 1 << 62;

/// What is below a list of rows.
#[derive(Drop)]
pub(crate) enum Under {
    /// No list is below; the list has all rows.
    Nothing,
    /// A shared list, and the total number of rows. The list above it has the delta: the rows in exactly one of both.
    Shared(Arc<Vec<Row>>, u64),
}

impl Under {
    // Updates the count before a row is toggled in the list.
    fn count_turned(&mut self, list: &[Row], row: &Row)
        requires parts { IsRows (rows_under self.old) × IsRows list.now }
        requires counted { IsCounted self.old list.now }
        requires fits { length (rows_under self.old) + length list.now < 2 ^ 63 }
        ensures under { rows_under self.new ≡ rows_under self.old }
        ensures counted { IsCounted self.new (turn row.now list.now) }
        ensures may { (n : ℕ) → MayHave self.old n → MayHave self.new n }
    {
        if let Under::Shared(base, count) = self {
            *count = count_turned(base, list, row, *count);
        }
    }
}

/// Rows in order. A delta that is too long for the shared list below it gives way to a list of all rows.
#[derive(Drop)]
pub(crate) struct RowList {
    pub(crate) under: Under,
    pub(crate) list: Vec<Row>,
}

impl RowList {
    /// Creates a list of these rows.
    pub(crate) fn new(list: Vec<Row>) -> RowList
        requires { IsRows list.items }
        ensures rows { listed result ≡ list.items }
        ensures is { IsRowList result }
        ensures form { result ≡ record { under = Under.Nothing; list = list } }
    {
        RowList {
            under: Under::Nothing,
            list,
        }
    }

    /// Returns two lists whose symmetric difference is the rows.
    pub(crate) fn parts(&self) -> (&[Row], &[Row])
        requires { IsRowList self.now }
        ensures rows { difference result.0.now result.1.now ≡ listed self.now }
        ensures in_order { AreParts result.0.now result.1.now }
    {
        match &self.under {
            Under::Nothing => (&self.list, &[]),
            Under::Shared(base, _) => (base, &self.list),
        }
    }

    /// Returns the rows below the list.
    pub(crate) fn under(&self) -> &[Row]
        ensures { result.now ≡ rows_under self.now.under }
    {
        match &self.under {
            Under::Nothing => &[],
            Under::Shared(base, _) => base,
        }
    }

    /// Returns the rows below the list as a shared list.
    pub(crate) fn shared_under(&self, alloc: Global) -> Result<Arc<Vec<Row>>, Memory>
        ensures { IfOk result (λ base. (arc_value base).items ≡ rows_under self.now.under) }
    {
        match &self.under {
            Under::Nothing => shared(alloc, Vec::new(alloc)),
            Under::Shared(base, _) => Ok(another(base)?),
        }
    }

    pub(crate) fn count(&self) -> u64
        requires { IsRowList self.now }
        ensures { result ≡ length (listed self.now) }
    {
        match &self.under {
            Under::Nothing => self.list.len() as u64,
            Under::Shared(_, count) => *count,
        }
    }

    /// Copies the list. The copy shares the list below.
    pub(crate) fn share(&self, alloc: Global) -> Result<RowList, AllocError>
        requires { IsRowList self.now }
        ensures rows { IfOk result (λ l. listed l ≡ listed self.now) }
        ensures under { IfOk result (λ l. rows_under l.under ≡ rows_under self.now.under) }
        ensures is { IfOk result (λ l. IsRowList l) }
    {
        let list = Vec::from_slice(alloc, &self.list)?;
        let under = match &self.under {
            Under::Nothing => Under::Nothing,
            Under::Shared(base, count) => Under::Shared(another(base)?, *count),
        };
        Ok(RowList { under, list })
    }

    /// Returns whether the list has to give way before two more rows are toggled.
    pub(crate) fn is_full(&self) -> bool
        ensures is { result ≡ is_full self.now }
        ensures room { IsFalse result → HasRoom 2 self.now }
    {
        match &self.under {
            Under::Nothing => self.list.len() >= MOST_FLAT,
            Under::Shared(base, _) => !is_short(base.len(), self.list.len() + 2),
        }
    }

    /// Stores the same rows from scratch, so that two more rows can be toggled.
    pub(crate) fn renew(&mut self, alloc: Global) -> Result<(), Memory>
        requires { IsRowList self.old }
        ensures rows { listed self.new ≡ listed self.old }
        ensures is { IsRowList self.new }
        ensures form { OnOk result (is_flat self.new.under ≡ nat_lt (length (listed self.old)) most_flat) }
        ensures ok { OnOk result ((is_full self.new ≡ false) × HasRoom 2 self.new) }
    {
        let (base, delta) = self.parts();
        let rows = merged(alloc, base, delta)?;
        if rows.len() < MOST_FLAT {
            *self = RowList::new(rows);
            return Ok(());
        }
        *self = RowList::above(alloc, rows)?;
        Ok(())
    }

    /// Moves all rows into the shared list below. The list itself becomes empty.
    pub(crate) fn lower(&mut self, alloc: Global) -> Result<(), Memory>
        requires { IsRowList self.old }
        ensures rows { listed self.new ≡ listed self.old }
        ensures is { IsRowList self.new }
        ensures ok { OnOk result (rows_under self.new.under ≡ listed self.old) }
    {
        let (base, delta) = self.parts();
        let rows = merged(alloc, base, delta)?;
        *self = RowList::above(alloc, rows)?;
        Ok(())
    }

    // Creates an empty delta over these rows.
    fn above(alloc: Global, rows: Vec<Row>) -> Result<RowList, Memory>
        requires { IsRows rows.items }
        ensures rows { IfOk result (λ l. (listed l ≡ rows.items) × (rows_under l.under ≡ rows.items)) }
        ensures is { IfOk result (λ l. IsRowList l) }
        ensures form { IfOk result (λ l. is_flat l.under ≡ false) }
        ensures room { IfOk result (λ l. (is_full l ≡ false) × HasRoom 2 l) }
    {
        let count = rows.len() as u64;
        Ok(RowList {
            under: Under::Shared(shared(alloc, rows)?, count),
            list: Vec::new(alloc),
        })
    }

    // Toggles a row. The list has room for it.
    fn turn(&mut self, row: Row)
        requires is { IsRowList self.old × HasRoom 1 self.old }
        requires room { vec_len self.old.list < vec_capacity self.old.list }
        ensures rows { listed self.new ≡ turn row (listed self.old) }
        ensures under { rows_under self.new.under ≡ rows_under self.old.under }
        ensures is { IsRowList self.new }
        ensures more { vec_len self.old.list + 1 < vec_capacity self.old.list → vec_len self.new.list < vec_capacity self.new.list }
        ensures room { HasRoom 2 self.old → HasRoom 1 self.new }
    {
        self.under.count_turned(&self.list, &row);
        own_rows::turn_within(&mut self.list, row);
    }

    // Toggles one row and then another. The list has room for both.
    fn turn_both(&mut self, first: Row, second: Row)
        requires is { IsRowList self.old × HasRoom 2 self.old }
        requires room { vec_len self.old.list + 1 < vec_capacity self.old.list }
        ensures rows { listed self.new ≡ turn second (turn first (listed self.old)) }
        ensures under { rows_under self.new.under ≡ rows_under self.old.under }
        ensures is { IsRowList self.new }
    {
        if let Under::Nothing = &self.under {
            own_rows::turn_both(&mut self.list, first, second);
            return;
        }
        self.turn(first);
        self.turn(second);
    }

    /// Toggles a row, once the step has succeeded.
    pub(crate) fn turn_one<C: Commit>(&mut self, row: Row, commit: &mut C) -> Result<(), Undone>
        requires can { C.can commit.old }
        requires is { IsRowList self.old × HasRoom 2 self.old }
        ensures ok { OnOk result (listed self.new ≡ turn row (listed self.old)) }
        ensures is { IsRowList self.new × (rows_under self.new.under ≡ rows_under self.old.under) }
        ensures err { OnErr result (listed self.new ≡ listed self.old) }
        ensures told { Told C.done C.lost commit.old commit.new result }
    {
        self.list.reserve(1)?;
        if !commit.commit() {
            return Err(Undone::Lost);
        }
        self.turn(row);
        Ok(())
    }

    /// Toggles one row and then another, once the step has succeeded.
    pub(crate) fn turn_two<C: Commit>(
        &mut self,
        from: Row,
        to: Row,
        commit: &mut C,
    ) -> Result<(), Undone>
        requires can { C.can commit.old }
        requires is { IsRowList self.old × HasRoom 2 self.old }
        ensures ok { OnOk result (listed self.new ≡ turn to (turn from (listed self.old))) }
        ensures is { IsRowList self.new × (rows_under self.new.under ≡ rows_under self.old.under) }
        ensures err { OnErr result (listed self.new ≡ listed self.old) }
        ensures told { Told C.done C.lost commit.old commit.new result }
    {
        self.list.reserve(2)?;
        if !commit.commit() {
            return Err(Undone::Lost);
        }
        self.turn_both(from, to);
        Ok(())
    }

    /// Toggles a row, and adds one to another bucket, once the step has succeeded.
    pub(crate) fn hand_over<C: Commit>(
        &mut self,
        from: Row,
        other: &mut Arc<Bucket>,
        to: RowChange,
        commit: &mut C,
    ) -> Result<(), Undone>
        requires can { C.can commit.old }
        requires both { (IsRowList self.old × HasRoom 2 self.old) × (has_row to.row (arc_value other.old).rows ≡ false) }
        ensures ok { OnOk result ((listed self.new ≡ turn from (listed self.old))
            × (arc_value other.new ≡ after_put to (arc_value other.old))) }
        ensures is { IsRowList self.new × (rows_under self.new.under ≡ rows_under self.old.under) }
        ensures err { OnErr result ((listed self.new ≡ listed self.old) × (arc_value other.new ≡ arc_value other.old)) }
        ensures told { Told C.done C.lost commit.old commit.new result }
    {
        self.list.reserve(1)?;
        match put(other, to, commit) {
            Ok(_) => {
                self.turn(from);
                Ok(())
            }
            Err(undone) => Err(undone),
        }
    }
}

// Returns the number of rows after `row` is toggled.
fn count_turned(base: &[Row], delta: &[Row], row: &Row, count: u64) -> u64
    requires parts { AreParts base.now delta.now }
    requires count { count ≡ length (difference base.now delta.now) }
    requires fits { count + 1 < 2 ^ 64 }
    ensures { result ≡ length (turn row.now (difference base.now delta.now)) }
{
    if holds(base, delta, row) {
        count - 1
    } else {
        count + 1
    }
}

// Returns whether a delta over `below` rows may have `rows` rows.
fn is_short(below: usize, rows: usize) -> bool
    ensures { result ≡ is_short below rows }
{
    rows <= 32 || (rows as u128) * (rows as u128) <= 16 * (below as u128)
}

fn shared(alloc: Global, rows: Vec<Row>) -> Result<Arc<Vec<Row>>, Memory>
    ensures same { IfOk result (λ shared. arc_value shared ≡ rows) }
    ensures few { OnOk result (vec_len rows < 2 ^ 62) }
{
    if rows.len() >= MOST_ROWS {
        return Err(Memory);
    }
    Ok(Arc::new(alloc, rows)?)
}

fn another(rows: &Arc<Vec<Row>>) -> Result<Arc<Vec<Row>>, AllocError>
    ensures { IfOk result (λ copy. arc_value copy ≡ arc_value rows.now) }
{
    Arc::try_clone(rows)
}
