//! All rows of an index as one table, in the order of their keys.
//!
//! Contracts see an index as its leaves, and the table as the rows of all leaves, one leaf after the other
//! (`all_rows`). `scan` returns the rows with keys in a range. `for_rows` folds over all rows. `LeafWalk` returns each
//! leaf once, in order. `placed` converts a row to its object. `sum_up` returns the number of objects and the sum of
//! their keys, by which two indexes with different objects mostly differ.
//!
//! Not here: which objects are in a box (`range_query`) or nearest (`knn_query`), and the text of these numbers
//! (`csv_rows`).
#![tactic(auto)]

mod folds;
mod objects;
mod scans;
mod sums;
mod walk;

pub use folds::for_rows;
pub use objects::placed;
pub use scans::scan;
pub use sums::{Sums, sum_up};
pub use walk::LeafWalk;
