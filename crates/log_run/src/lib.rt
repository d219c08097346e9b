//! The commands on a log. `init` makes a log, `check` counts what it contains, `show` lists its objects in a box, and
//! `compact` writes its content to a new log.
//!
//! Contracts see a drive by its bytes and by what a crash may leave of them. The four promises are `Inits`, `Checks`,
//! `Shows` and `Compacts`:
//! - `make_log` leaves a file of more than 17 bytes unchanged. A smaller file is a log without records after status 0.
//! - `check_log` and `show_log` only read, and they read version 1 too. They write the text of the records that the
//!   drive's bytes recover to, or the first fault of those bytes.
//! - `compact_log` makes a file of at most 17 bytes on the other drive a log of the same objects and leaves. The first
//!   drive is only read.
//!
//! Not here: what commands share, and their lines (`run_ends`), how a log is made and read (`recovery`).
#![tactic(auto)]

mod checking;
mod compacting;
mod making;
mod showing;

pub use checking::check_log;
pub use compacting::compact_log;
pub use making::make_log;
pub use showing::show_log;
