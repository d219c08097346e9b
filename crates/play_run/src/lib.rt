//! The commands that play rows: `play` takes them from a source, and `trial` makes them.
//!
//! Contracts see the history as a list of entries, and the rows as those of all bytes that the source had left. `play`
//! and `trial` promise:
//! - With status 0 the output is the line of each row. The line has the row's place in the one history and the answer
//!   of one plain list of objects there. For made rows the output is three numbers of that list (`AnswersAsOneList`).
//! - A crash at any moment leaves a log of a prefix of the changes (`KeepsPlayed`).
//! - A log of version 1 is refused and unchanged (`IsNotOpened`).
//! - If lines are written, no split is open at the end, and each leaf is within the size or there was no room
//!   (`SplitsAreDone`).
//!
//! Rows are played by lanes, one for each session, on one store.
//!
//! Not here: the store and its lanes (`sessions`, `lane_history`), rows and lines (`csv_rows`), the log
//! (`recovery`).
#![tactic(auto)]

mod jobs;
mod lanes;
mod log_book;
mod output;
mod play_book;
mod playing;
mod reports;
mod sessions_play;
mod trying;

pub use playing::play;
pub use trying::trial;
