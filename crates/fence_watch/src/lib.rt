//! Reports which objects enter and leave fences, along the cells of a log or as a program moves its objects.
//!
//! Contracts see a `Tally` as its fences, each with how many objects are inside it, and the events that weren't taken
//! out.
//! - After steps along cells, its events are their `crossings_from`. Its numbers are those of the world after the cells
//!   (`TalliesFrom`).
//! - After a program's own steps (`moved`) the numbers are those of the world after its operations (`FollowsWorld`).
//! - After the changes of a history, each reported once and in order (`changed`), events and numbers are those of the
//!   history (`TalliesChanges`).
//! - A `Watch` is a tally that also keeps the ids inside each fence.
//! - Fences come from code (`Fences::of`, or `Fences::from_vec` for a list that keeps the rules).
//!
//! Not here: how a log is walked (`recovery`), how fences are read from a text and lines are written (`watch_run`).
#![tactic(auto)]

mod along;
mod counts;
mod fences;
mod guards;
mod hints;
mod ids;
mod making;
mod passages;
mod slabs;
mod tally;
mod watch;

pub use along::AlongFault;
pub use counts::FenceCount;
pub use fences::{Crossing, Event, Fence, Fences, MOST_FENCES, has_fence};
pub use making::BadFences;
pub use tally::{MOST_FENCE_EVENTS, Tally};
pub use watch::{Watch, WatchFault};
