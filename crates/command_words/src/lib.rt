//! The words of the command line.
//!
//! Contracts see words as lists of bytes, and a command as a value of `Command` in `specs/Words`. There, `AsksFor`
//! defines the words of each command. `command_in` returns the command of the words, and `None` if and only if no
//! command has these words.
//!
//! Not here: which call carries out a command (`location_run`), and what it does (`log_run`, `watch_run`, `follow_run`,
//! `play_run`).
#![tactic(auto)]

mod boxes;
mod files;
mod inits;
mod pairs;
mod parsing;
mod plays;
mod trials;

pub use parsing::{Command, command_in};
pub use trials::Made;
