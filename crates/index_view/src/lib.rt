//! Exact answers from one snapshot of an index, for as long as you keep it.
//!
//! A `View` owns a share of an index and the number of the calls that the history had before it. No later call changes
//! the view. Each query borrows it, so threads may ask the same view at once, and no query takes a lock. The contracts
//! speak of the objects that the leaves represent, and say what the plain list of these objects answers.
//!
//! | Call | Answer |
//! |---|---|
//! | `place` | the number of calls of the history before the view |
//! | `len`, `is_empty` | the number of objects, without opening a bucket |
//! | `count` | the number of objects in a box; it opens only leaves that the box cuts |
//! | `within` | all objects in a box, in the order of ids |
//! | `for_each_in` | one call of a visitor for each object in a box, in key order, without memory |
//! | `nearest` | the `k` nearest objects, for any `k` |
//! | `browse` | all objects one after the other, the nearest first |
//!
//! What a view costs: `View::new` copies nothing, and a share of a trie is one or two pointers. A view keeps alive what
//! its index had when it was shared. The first later change on each path of the other index copies the nodes of that
//! path and its bucket. The next changes there copy nothing until somebody shares that index again. So memory grows
//! with what changes while you keep the view: if everything changes, the old rows are in memory next to the new ones.
//! Drop a view that you don't need any more.
//!
//! Not here: how a store hands out a view (`store_client`), and what the answers are (`plain_list`).
#![tactic(auto)]

mod browsed;
mod gathered;
mod sending;
mod view;
mod visits;

pub use view::View;
pub use visits::Visit;
