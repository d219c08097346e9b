//! The trait of all indexes: leaves in the order of their keys, with a bucket of rows for each.
//!
//! Contracts see an index as the list of its leaves. Their names tile the key space, and the rows of each leaf are in
//! order and under its name (`are_leaves`). `leaf_of` and `part` find a leaf by a key or a name. `top` and `below` lead
//! a walk from a name to its halves. `reach` and `narrow` say how far down the walk may begin, and `count_below`
//! returns how many rows are below a place. `whole`, `share`, `replaced` and `split` return a new index and change
//! none. `replace`, `divide`, `put_row`, `take_row` and `move_row` change the index after a step that may fail. If they
//! return `Err`, the leaves are unchanged.
//!
//! Not here: the implementations (`flat_index`, `kd_trie`, `quad_trie`), and walks over an index (`table_share`,
//! `range_query`, `knn_query`).
#![tactic(auto)]

mod index;
mod names;

pub use index::{Below, Index, IndexFault, Part};
pub use names::goes_on;
