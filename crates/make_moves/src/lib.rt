//! Makes pseudo-random rows. The same seed gives the same rows.
//!
//! Contracts see the rows as `made_rows`: each row uses three draws of a linear congruential generator. `make` returns
//! exactly these rows, or fails if memory runs out. The ids of different sessions are disjoint. So the points at the
//! end are the same, however the sessions alternate.
//!
//! Not here: what a row is (`csv_rows`), and playing rows.
#![tactic(auto)]

mod draws;
mod moves;

pub use moves::make;
