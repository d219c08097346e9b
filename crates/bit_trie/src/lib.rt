//! Binary tries of buckets: what all indexes that are tries have in common.
//!
//! Contracts see the nodes of an index as a `Trie`: a bucket, or one trie for the next bit 0 and one for the next bit
//! 1. A node of more than one bit is seen as a trie of that depth. The definitions go by the bits of a path: the leaves
//! in the order of their keys, what a path leads to, a trie with a leaf replaced, and a trie with one bucket changed.
//! The lemmas say how each change acts on the list of leaves.
//!
//! Whatever the nodes are, a way down reads its key by `next_bit`. It ends in `put_there`, `take_there`, `shift_there`
//! or `pass_there`, which change a leaf's bucket in place. `in_range`, `in_order` and `at_once` state facts for the
//! prover.
//!
//! Not here: nodes and the ways down them (`kd_trie`, `quad_trie`), and what an index promises about its leaves
//! (`index_layer`).
#![tactic(auto)]

mod keys;
mod leaf_changes;
mod told;

pub use keys::next_bit;
pub use leaf_changes::{Coming, Going, pass_there, put_there, shift_there, take_there};
pub use told::{at_once, in_order, in_range};
