//! Copies the cells of one log to another, over a link that loses, repeats and reorders packets.
//!
//! Contracts see a `Follower` as its drive, its width and the state of a plain machine: how many cells it holds, how
//! many the leader knows it to hold, and what was sent each way.
//! - `open` creates the log, or opens one whose cells are the leader's first ones. Otherwise it names the first cell
//!   that isn't.
//! - `turn` makes one step of that machine. If the drive's bytes are known, a crash at any moment leaves a prefix of
//!   the leader's cells, with at least as many as the leader knows to be held.
//!
//! Not here: how a log is walked and opened (`recovery`), appends (`split_log`).
#![tactic(auto)]

mod comparing;
mod faults;
mod follower;
mod laws;
mod reopening;
mod turns;

pub use faults::{FollowFault, FollowRefused};
pub use follower::{Follower, Turned};
pub use turns::{Report, Turn, Turns};
