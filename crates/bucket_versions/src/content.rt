//! The content of a bucket: its rows, and its base, which is the rows themselves or is stored apart.
ghost use Rattle.std.specs.Prelude.{◌≡◌, ◌<◌, false, true, length, IfOk, OnOk, OnErr, IsTrue};
ghost use Rattle.std.specs.Arc.{arc_value};
ghost use Rattle.bucket_versions.specs.declared.content.Base.{Base};
ghost use Rattle.bucket_versions.specs.Rows.{IsRows, has_row, as_base, with_rows, rows_over, rows_between, after_put};
ghost use Rattle.bucket_versions.specs.Delta.{AreParts, delta_len, difference, turn, after_turn};
ghost use Rattle.bucket_versions.specs.RowList.{HasRoom, is_full};
ghost use Rattle.bucket_versions.specs.Content.{kept, AreKept, is_own, IsReady, settled};
ghost use Rattle.bucket_versions.specs.Told.{Told};

use crate::bucket::Bucket;
use crate::commit::{AtOnce, Commit, Undone};
use crate::deltas::delta_of;
use crate::places::between;
use crate::row::{Row, RowChange};
use crate::row_list::RowList;
use std::alloc::{AllocError, Global};
use std::sync::Arc;
use zorder::Memory;

/// Where the base of a bucket is stored.
#[derive(Drop)]
pub(crate) enum Base {
    /// The rows are their own base.
    Own,
    /// The base is the shared list below the list of rows.
    Below,
    /// The base is a list of its own.
    Beside(Arc<Vec<Row>>),
}

/// Rows in order, and their base.
#[derive(Drop)]
pub(crate) struct Content {
    pub(crate) base: Base,
    pub(crate) rows: RowList,
}

impl Content {
    /// Creates the content of rows that are their own base.
    pub(crate) fn new(list: Vec<Row>) -> Content
        requires { IsRows list.items }
        ensures rows { kept result ≡ as_base list.items }
        ensures in_order { AreKept result }
    {
        Content {
            base: Base::Own,
            rows: RowList::new(list),
        }
    }

    /// Returns two lists whose symmetric difference is the rows.
    pub(crate) fn parts(&self) -> (&[Row], &[Row])
        requires { AreKept self.now }
        ensures rows { difference result.0.now result.1.now ≡ (kept self.now).rows }
        ensures in_order { AreParts result.0.now result.1.now }
    {
        self.rows.parts()
    }

    /// Returns two lists whose symmetric difference is the base.
    pub(crate) fn base_parts(&self) -> (&[Row], &[Row])
        requires { AreKept self.now }
        ensures rows { difference result.0.now result.1.now ≡ (kept self.now).base }
        ensures in_order { AreParts result.0.now result.1.now }
    {
        match &self.base {
            Base::Own => self.rows.parts(),
            Base::Below => (self.rows.under(), &[]),
            Base::Beside(base) => (base, &[]),
        }
    }

    /// Returns true if the form shows that the rows are their own base. False says nothing.
    pub(crate) fn is_own_base(&self) -> bool
        ensures { IsTrue result → kept self.now ≡ as_base (kept self.now).rows }
    {
        matches!(self.base, Base::Own)
    }

    /// Returns true if the form shows that no row with a key from `lo` to `hi` was added or removed. False says
    /// nothing, and is the result for each base that is a list of its own.
    pub(crate) fn is_as_cut(&self, lo: u64, hi: u64) -> bool
        requires { AreKept self.now }
        ensures { IsTrue result → rows_between lo hi (kept self.now).rows ≡ rows_between lo hi (kept self.now).base }
    {
        match &self.base {
            Base::Own => true,
            Base::Below => between(&self.rows.list, lo, hi).is_empty(),
            Base::Beside(_) => false,
        }
    }

    pub(crate) fn count(&self) -> u64
        requires { AreKept self.now }
        ensures { result ≡ length (kept self.now).rows }
    {
        self.rows.count()
    }

    pub(crate) fn delta_len(&self) -> u64
        requires { AreKept self.now }
        ensures { result ≡ delta_len (kept self.now) }
    {
        match &self.base {
            Base::Own => 0,
            Base::Below => self.rows.list.len() as u64,
            Base::Beside(base) => {
                let (under, delta) = self.rows.parts();
                delta_of(base, under, delta, self.rows.count())
            }
        }
    }

    /// Copies the content. The copy has a list of its own, and shares the list below it and a base that is stored
    /// apart.
    pub(crate) fn share(&self, alloc: Global) -> Result<Content, AllocError>
        requires { AreKept self.now }
        ensures same { IfOk result (λ c. kept c ≡ kept self.now) }
        ensures in_order { IfOk result (λ c. AreKept c) }
    {
        let rows = self.rows.share(alloc)?;
        let base = match &self.base {
            Base::Own => Base::Own,
            Base::Below => Base::Below,
            Base::Beside(base) => Base::Beside(Arc::try_clone(base)?),
        };
        Ok(Content { base, rows })
    }

    // Stores the base apart from the rows, so that it stays when the rows change.
    fn part_base(&mut self, alloc: Global) -> Result<(), Memory>
        requires { AreKept self.old }
        ensures same { kept self.new ≡ kept self.old }
        ensures in_order { AreKept self.new }
        ensures ok { OnOk result (is_own self.new.base ≡ false) }
    {
        if let Base::Own = &self.base {
            self.rows.lower(alloc)?;
            self.base = Base::Below;
        }
        Ok(())
    }

    // Makes room for two more rows. If the list gives way, a base below the rows becomes a list of its own.
    fn make_room(&mut self, alloc: Global) -> Result<(), Memory>
        requires { AreKept self.old }
        ensures same { kept self.new ≡ kept self.old }
        ensures in_order { AreKept self.new }
        ensures own { is_own self.new.base ≡ is_own self.old.base }
        ensures stays { is_full self.old.rows ≡ false → self.new ≡ self.old }
        ensures ok { OnOk result ((is_full self.new.rows ≡ false) × HasRoom 2 self.new.rows) }
    {
        if !self.rows.is_full() {
            return Ok(());
        }
        if let Base::Below = &self.base {
            self.base = Base::Beside(self.rows.shared_under(alloc)?);
        }
        self.rows.renew(alloc)
    }

    // Prepares for a change that keeps the base or doesn't.
    fn make_ready(&mut self, alloc: Global, keeps_base: bool) -> Result<(), Memory>
        requires { AreKept self.old }
        ensures same { kept self.new ≡ kept self.old }
        ensures in_order { AreKept self.new }
        ensures ok { OnOk result (IsReady keeps_base self.new.base × ((is_full self.new.rows ≡ false) × HasRoom 2 self.new.rows)) }
    {
        if keeps_base {
            self.part_base(alloc)?;
        }
        self.make_room(alloc)
    }

    // Makes the rows their own base, unless the base is kept.
    fn settle(&mut self, keeps_base: bool)
        ensures { self.new ≡ record self.old { base = settled keeps_base self.old.base } }
    {
        if !keeps_base {
            self.base = Base::Own;
        }
    }

    /// Toggles a row on the same base.
    pub(crate) fn turn_apart(&mut self, alloc: Global, row: Row) -> Result<(), Memory>
        requires { AreKept self.old }
        ensures ok { OnOk result (kept self.new ≡ with_rows (turn row (kept self.old).rows) (kept self.old)) }
        ensures in_order { AreKept self.new }
    {
        self.make_ready(alloc, true)?;
        match self.rows.turn_one(row, &mut AtOnce) {
            Ok(()) => Ok(()),
            Err(_) => Err(Memory),
        }
    }

    /// Toggles a row, once the step has succeeded.
    pub(crate) fn turn<C: Commit>(
        &mut self,
        alloc: Global,
        change: RowChange,
        commit: &mut C,
    ) -> Result<(), Undone>
        requires can { C.can commit.old }
        requires in_order { AreKept self.old }
        ensures ok { OnOk result (kept self.new ≡ after_turn change (kept self.old)) }
        ensures in_order { AreKept self.new }
        ensures err { OnErr result (kept self.new ≡ kept self.old) }
        ensures told { Told C.done C.lost commit.old commit.new result }
    {
        self.make_ready(alloc, change.keeps_base)?;
        if let Err(undone) = self.rows.turn_one(change.row, commit) {
            return Err(undone);
        }
        self.settle(change.keeps_base);
        Ok(())
    }

    /// Toggles one row and then another, once the step has succeeded.
    pub(crate) fn turn_two<C: Commit>(
        &mut self,
        alloc: Global,
        from: Row,
        to: RowChange,
        commit: &mut C,
    ) -> Result<(), Undone>
        requires can { C.can commit.old }
        requires in_order { AreKept self.old }
        ensures ok { OnOk result (kept self.new ≡ rows_over to.keeps_base (turn to.row (turn from (kept self.old).rows)) (kept self.old)) }
        ensures in_order { AreKept self.new }
        ensures err { OnErr result (kept self.new ≡ kept self.old) }
        ensures told { Told C.done C.lost commit.old commit.new result }
    {
        self.make_ready(alloc, to.keeps_base)?;
        if let Err(undone) = self.rows.turn_two(from, to.row, commit) {
            return Err(undone);
        }
        self.settle(to.keeps_base);
        Ok(())
    }

    /// Toggles a row, and adds one to another bucket, once the step has succeeded.
    pub(crate) fn hand_over<C: Commit>(
        &mut self,
        alloc: Global,
        from: RowChange,
        other: &mut Arc<Bucket>,
        to: RowChange,
        commit: &mut C,
    ) -> Result<(), Undone>
        requires can { C.can commit.old }
        requires both { AreKept self.old × (has_row to.row (arc_value other.old).rows ≡ false) }
        ensures ok { OnOk result ((kept self.new ≡ after_turn from (kept self.old))
            × (arc_value other.new ≡ after_put to (arc_value other.old))) }
        ensures in_order { AreKept self.new }
        ensures err { OnErr result ((kept self.new ≡ kept self.old) × (arc_value other.new ≡ arc_value other.old)) }
        ensures told { Told C.done C.lost commit.old commit.new result }
    {
        self.make_ready(alloc, from.keeps_base)?;
        if let Err(undone) = self.rows.hand_over(from.row, other, to, commit) {
            return Err(undone);
        }
        self.settle(from.keeps_base);
        Ok(())
    }
}
