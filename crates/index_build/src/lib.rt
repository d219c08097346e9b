//! Builds an index over a world with given leaves. A book that is opened from a log begins with such an index.
//!
//! `build` takes names that come from the whole space by splits (`IsGrown`). It returns an index over the objects of
//! the world whose leaves have these names, each bucket folded. It begins with one leaf, and splits until the leaves
//! are the wanted ones, in key order. `split` is one of these splits, for callers that grow an index by another rule.
//!
//! Not here: which names a log's splits leave (`plain_list`), and how an index changes later (`index_layer`,
//! `point_table`).
#![tactic(auto)]

mod built;
mod growing;
mod rows;

pub use built::build;
pub use growing::split;
