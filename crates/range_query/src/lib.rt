//! Box queries over any index.
//!
//! Contracts see an index as its leaves, and speak of the objects that the leaves represent. `range` returns the
//! objects in the box, in the order of their ids. `count_in` returns their number. `found_in` returns the answer to a
//! box, which is either.
//!
//! All three walk down the index and skip each subtree whose region misses the box. `found_in` and `count_in` begin at
//! a place that has both corners of the box below it. No leaf that the box meets is elsewhere (`met-below`). `range`
//! and `found_in` open only leaves that the box meets (`leaves_met`), each at most once. `found_in` opens no leaf of a
//! subtree inside the box whose objects are too many to list. `count_in` opens only leaves that the box cuts
//! (`leaves_cut`), since it counts subtrees inside the box whole.
//!
//! Not here: what the answer to a box is (`plain_list`).
#![tactic(auto)]

mod counted;
mod counts;
mod found;
mod ranges;

pub use counts::count_in;
pub use found::found_in;
pub use ranges::range;
