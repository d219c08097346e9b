//! Versions of a bucket, which is the set of rows under one leaf of an index.
//!
//! Contracts see a `Bucket` as two lists of distinct rows in order: its base and its rows now. The base is what the
//! rows were when the bucket was last folded; mostly the rows are their own base.
//!
//! How rows are stored: few rows are one list. A list of 1,024 rows or more gives way, at its next change, to a shared
//! list and a delta. The delta has the rows that are in exactly one of the shared list and the rows now. It may have 32
//! rows, or four times the square root of the shared list's length if that is more. A longer delta gives way to a new
//! shared list. So a change shifts few rows and a version copies few. A base that is kept while rows change is the
//! shared list at first, and later a list of its own.
//!
//! `with_put` and `with_gone` return a new bucket on the same base. `folded` makes the rows the base. `cut` makes a
//! bucket of a part of the base, and `caught_up` brings that bucket up to date. Only `rows` returns rows, and each call
//! of it is a step.
//!
//! `put`, `take`, `shift` and `pass` change the bucket behind a pointer, in place if nobody shares it. Each takes a
//! step that may fail (`Commit`), once all memory is there and before it changes anything. `RowChange` says whether the
//! bucket keeps its base. `own` lends what is behind a pointer, and clones it first if it is shared.
//!
//! Not here: which keys a bucket may have (`index_layer`), and when a bucket is folded or cut (`point_table`,
//! `split_prepare`).
#![tactic(auto)]

mod bucket;
mod commit;
mod content;
mod deltas;
mod own_rows;
mod owned;
mod places;
mod row;
mod row_list;
mod sending;
mod walk;

pub use bucket::{Bucket, BucketFault, caught_up, folded, pass, put, shift, take};
pub use commit::{AtOnce, Commit, Undone};
pub use owned::own;
pub use row::{Row, RowChange};
pub use walk::BucketRows;
