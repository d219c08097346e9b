//! Rows, and why a text has none.
ghost use Rattle.std.specs.Prelude.{◌≡◌};

use plain_list::Op;
use std::alloc::{AllocError, AllocFailed};
use std::marker::Model;
use thiserror::Error;

/// An operation and the session that calls it.
#[derive(Clone, Copy, Debug, PartialEq, Eq)]
pub struct InRow {
    pub session: u8,
    pub op: Op,
}

/// The rows of an input, in order. Each keeps the rules of its columns, and there are at most 65,536.
#[derive(Drop)]
pub struct Rows {
    items: Vec<InRow>,
}

impl Model for Rows {
    ghost use Rattle.std.specs.Prelude.{List};
    ghost use Rattle.csv_rows.specs.declared.rows.InRow.{InRow};
    ghost use Rattle.csv_rows.specs.InRows.{AreInRows};

    ghost Value = { List InRow };

    ghost view = { λ r. r.items.items };

    ghost invariant = { λ r. AreInRows r.items.items };
}

impl Rows {
    ghost use Rattle.csv_rows.specs.InRows.{AreInRows};

    pub fn from_vec(items: Vec<InRow>) -> Rows
        requires { AreInRows items.items }
        ensures { result ≡ items.items }
    {
        Rows { items }
    }

    pub fn as_slice(&self) -> &[InRow]
        ensures rows { result.now ≡ self.now }
        ensures rules { AreInRows self.now }
    {
        self.items.as_slice()
    }
}

/// Why a text has no rows. The header is record 0, so the first row is row 1.
#[derive(Clone, Copy, Debug, PartialEq, Eq, Error)]
pub enum RowsFault {
    /// The first record isn't the header, or there is none, or the text begins with two byte order marks.
    #[error("the first record isn't the header")]
    Header,
    /// The record of this row has too few or too many fields.
    #[error("row {row} has another number of fields")]
    Csv { row: u32 },
    /// This column, counted from 1, is the leftmost column of the row that breaks its rule.
    #[error("row {row}: column {column} breaks its rule")]
    Field { row: u32, column: u8 },
    /// A record comes after the greatest number of rows.
    #[error("too many rows")]
    TooMany,
    #[error("out of memory")]
    Memory,
}

impl From<AllocError> for RowsFault {
    ghost use Rattle.csv_rows.specs.declared.rows.RowsFault.TheVariants.{Memory};

    ghost from_gives = { λ _ fault. fault ≡ Memory };

    fn from(_: AllocError) -> RowsFault {
        RowsFault::Memory
    }
}

impl<T: Drop> From<AllocFailed<T>> for RowsFault {
    ghost use Rattle.csv_rows.specs.declared.rows.RowsFault.TheVariants.{Memory};

    ghost from_gives = { λ _ fault. fault ≡ Memory };

    fn from(_: AllocFailed<T>) -> RowsFault {
        RowsFault::Memory
    }
}

/// What is wrong with a record: its number of fields, or a column that breaks its rule.
#[derive(Clone, Copy)]
pub enum Wrong {
    Length,
    Column(u8),
}
