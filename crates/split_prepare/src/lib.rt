//! Cuts a bucket into the buckets of its leaf's children, outside the lock.
//!
//! Contracts see a `Prepared` as a record of the split's number, name, width, base rows and children. `prepare` cuts
//! the base of the ticket's bucket. Each child is a bucket of the rows whose keys are under its name (`cut`), in key
//! order. `IsPrepared` holds of every `Prepared`. No call returns base rows.
//!
//! Not here: which splits may begin (`commit_book`), and how a child gets the rows that came later (`point_table`).
#![tactic(auto)]

mod cuts;
mod prepared;
mod sending;
mod ticket;

pub use cuts::{child_at, cut, cut_out, prepare};
pub use prepared::Prepared;
pub use ticket::SplitTicket;
