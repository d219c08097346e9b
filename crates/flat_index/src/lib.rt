//! An index as one list of leaves, in the order of their keys. It is the plain implementation, for tests.
//!
//! Contracts see the leaves, as for every `Index`. A leaf is found by binary search over the first keys of the leaves.
//! Each new index copies the list and shares the buckets.
//!
//! Not here: an index whose versions share their leaves (`kd_trie`).
#![tactic(auto)]

mod flat;
mod leaf;
mod places;
mod sending;

pub use flat::FlatIndex;
