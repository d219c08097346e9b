//! The top call on standard input and output, for the programs that share it, with its words and with drives on files.
//!
//! Contracts see the status of an `ExitCode`. `run_words` returns 2 if and only if the words are not accepted.
//! `run_over` does the same on any source and sink, and returns the status of a run that kept its promise. No contract
//! says what the machine passes to a program.
//!
//! Not here: which command some words mean and what it promises (`location_run`), the drive on a file (`disk_file`),
//! `main` (`mdloc`).
#![tactic(auto)]

mod command_line;
mod ends;

pub use command_line::words_of;
pub use ends::{file_drive, out_of_memory, run_over, run_words};
