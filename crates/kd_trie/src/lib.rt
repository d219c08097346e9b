//! An index as a binary trie (a k-d trie of the plane, as in MD-HBase). Versions share nodes and buckets.
//!
//! Contracts see a `KdTrie` as the list of its leaves, as the trait says. `share` copies two pointers. A change in
//! place goes down to its leaf by the bits of a key, and copies only what another trie shares on that path. Then it
//! takes its step and writes. `replaced` and `split` share the trie and apply the same change to the share.
//!
//! The first bits, along which a trie has no branch, are one list (the stem) instead of nodes. So a change below the
//! stem does not copy them. Each node stores how many rows are below it, and `count_below` reads this count. A step
//! that fails may leave counts wrong until they are computed again. Meanwhile `count_below` adds up the rows of the
//! leaves.
//!
//! Not here: which leaves there should be (`index_build`, `commit_book`), and the rows of a bucket (`bucket_versions`).
#![tactic(auto)]

mod node;
mod rows;
mod sending;
mod stem;
mod stemmed;
mod trie;

pub use trie::KdTrie;
