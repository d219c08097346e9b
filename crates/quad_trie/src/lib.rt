//! An index as a trie of nodes with four children (a quad tree of the plane, as in MD-HBase). Versions share nodes and
//! buckets.
//!
//! Contracts see a `QuadTrie` as the list of its leaves, as the trait says. A node stands for two bits of a key, and
//! has its children in the order 00, 01, 10, 11. `share` copies one pointer. A change in place goes down to its leaf,
//! two bits of a key at a time. It copies only what another trie shares on that path. Then it takes its step and
//! writes. `replaced` and `split` share the trie and apply the same change to the share.
//!
//! A walk goes by single bits. Between two levels, the place is the node above, and the last bit of the name says which
//! half of it is meant. `reach` and `narrow` go down by whole nodes. `count_below` adds up the rows of the leaves below
//! a place.
//!
//! Not here: which leaves there should be (`index_build`, `commit_book`), the rows of a bucket (`bucket_versions`), and
//! what a path leads to (`bit_trie`).
#![tactic(auto)]

mod narrow;
mod node;
mod rows;
mod sending;
mod trie;

pub use trie::QuadTrie;
