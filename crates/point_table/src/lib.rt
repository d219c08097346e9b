//! Objects by id and by key, and the leaves that are to be split.
//!
//! Contracts see a `PointTable` as the leaves of its index, the world that they stand for and its bucket size. A call
//! that changes the table first takes all its memory. Then it takes the step that the caller passes (`Commit`). The
//! table changes only if the step succeeded. On each error the table is unchanged, and if memory ran out, the step was
//! not taken.
//!
//! `update` returns the answer of the plain list. It keeps the names of the leaves, and the bases of leaves whose
//! splits are open. Every other leaf that it changes has no delta afterwards. `draft` answers a batch of operations
//! beside the table, and `publish` makes the batch's changes after one step. `index_anew` builds an index over the same
//! objects with the leaves that the size requires (`StandsBySize`). `take_index` puts such an index in place of the old
//! one.
//!
//! Not here: the history of a run, its log, and which splits may begin (`commit_book`).
#![tactic(auto)]

mod crowded;
mod table;

pub use crowded::{Begun, is_among};
pub use table::{Draft, PointTable, leaf_names};
