//! The command `follow`. It copies the cells of one log to another, over a link that loses, repeats and reorders
//! packets, along a schedule of turns.
//!
//! Contracts see both drives by their bytes and by what a crash may leave of them. `Follows` is what a run of the
//! command keeps:
//! - The reports are those of a plain machine of numbers.
//! - No image of the first file changes.
//! - At each moment since the second file was opened, a crash leaves the first of the leader's cells: at least as many
//!   as were held when the turn began.
//!
//! `read_turns` reads the turns of a text.
//!
//! Not here: what a turn does (`follower`), what commands share (`run_ends`), how a log is walked (`recovery`).
#![tactic(auto)]

mod following;
mod leader;
mod lines;
mod replica;
mod turn_rows;

pub use following::follow_log;
pub use turn_rows::read_turns;
