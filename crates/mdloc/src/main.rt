//! The program: runs the words of the command line on standard input and output and two files of the machine, and exits
//! with the run's status.
#![tactic(auto)]

use machine_run::{file_drive, out_of_memory, run_words, words_of};
use std::process::ExitCode;

fn main(rt: HostRuntime) -> ExitCode {
    let (Ok(words), Ok(disk), Ok(other)) = (words_of(&rt), file_drive(&rt), file_drive(&rt)) else {
        return out_of_memory(&rt);
    };
    run_words(&rt, words.as_slice(), disk, other)
}
