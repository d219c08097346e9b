//! The region and the key range of a name, and distances.
//!
//! Contracts see a region by the points in it (`has_point`), and a name by the keys under it (`is_under`). A key is
//! under a name if and only if its point is in the name's `region`, and if and only if it is within the name's
//! `key_range`. `halves` computes the regions of a name's children from the region of the name. The contracts of
//! `meets` and `inside` speak of points, and `least` is the least distance to a point of the region.
//!
//! Not here: the key of a point, and names themselves (`zorder`).
#![tactic(auto)]

mod boxes;
mod distances;
mod halving;
mod key_boxes;
mod regions;

pub use boxes::{inside, meets};
pub use distances::{dist, least};
pub use halving::halves;
pub use key_boxes::KeyBox;
pub use regions::{key_range, region};
