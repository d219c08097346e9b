//! Nearest-neighbour queries over any index.
//!
//! Contracts see an index as its leaves, and speak of the objects that the leaves represent. `nearest` returns the
//! first `k` objects of their ranking by squared distance, and at the same distance by id. It is a best-first search
//! (Hjaltason and Samet): it takes subtrees by the least distance of their region. It opens only leaves whose region
//! may have a point as near as the k-th object. Of the objects that it has seen, it keeps the `k` nearest.
//!
//! The parts that every search by distance needs are public: `Ahead` and `Waiting` are subtrees that wait in a heap,
//! and `Candidate` is an object with its distance.
//!
//! Not here: the ranking with which the contract compares the result (`plain_list`).
#![tactic(auto)]

mod ahead;
mod candidate;
mod kept;
mod ranking;
mod reach;

pub use ahead::{Ahead, Waiting, take_nearest};
pub use candidate::Candidate;
pub use ranking::{halves_at, nearest};
