//! The program as one call. It takes words, a source, a sink and two drives, and returns a status and the history of
//! its rows.
//!
//! Contracts see the history as a list of entries, and the rows as those of all bytes that the source had left. They
//! see the output as what the sink took, and a drive by its bytes and by what a crash may leave of them. `run` makes
//! three promises:
//! - The command that the words mean keeps its own record (`Keeps`): `Inits`, `Checks`, `Shows`, `Compacts`, `Watches`,
//!   `Follows`, `Plays` or `Tries`.
//! - Words that mean no command give status 2 and one line, and the run touches nothing else (`AnswersUsage`).
//! - What a run, or a crash during it, leaves of a log meets the premises of the next run (`ChainsAsked`).
//!
//! Only `compact` and `follow` touch the second drive.
//!
//! Not here: the commands (`log_run`, `watch_run`, `follow_run`, `play_run`), what they share (`run_ends`), which
//! command some words mean (`command_words`), `main` (`mdloc`).
#![tactic(auto)]

mod outcome;
mod top;

pub use outcome::Outcome;
pub use top::run;
