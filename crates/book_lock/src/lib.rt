//! A lock around one value that keeps a history, for any number of threads. Each thread has a pass, which knows the
//! history so far.
//!
//! Contracts see a `Pass` as its lock, what it has seen of the history, which positions in it are its own, the origin,
//! its parts of the right to close the lock, and whether it holds the lock.
//! - `take` returns the value. Its history begins with everything that the pass had seen, and may have more.
//! - `note` makes the value's newest entry the next entry of the one history, at a position that is the pass's own.
//!   `note_next` does the same for one of several new entries.
//! - `put_back` returns the value to the lock.
//! - `close` returns the value after all passes are joined. Each position then has exactly one owner.
//!
//! Not here: which histories are legal (`plain_list`), and what a step does to the value (`commit_book`).
#![tactic(auto)]

mod held;
mod kinds;
mod lock;
mod manner;
mod origin;
mod pass;
mod sending;
mod view;

pub use held::Held;
pub use lock::BookLock;
pub use origin::Origin;
pub use pass::Pass;
