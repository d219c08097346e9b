//! Tests of the top call over sources, sinks and drives in memory, and no other code:
//! - worked rows and their lines, without a log and over one;
//! - the commands over a log with worked files;
//! - the line and the status of each refusal;
//! - runs in which an end fails;
//! - the bytes that rows leave, and which files are attached;
//! - words that name no command;
//! - what can go wrong around the call (`hostile`).
//!
//! Each test compares plain bytes, in functions over a runtime. A proof that knows a drive, a host or the promise of
//! `run` takes several times as long.
//!
//! Not here: the lock and its sessions (`thread_tests`), and the worked values of single crates (`crate_tests`).
#![tactic(auto)]

// An input of these rows.
#[cfg(test)]
macro_rules! rows {
    ($rows:literal) => {
        concat!("session,op,id,x,y,a,b,moment\n", $rows)
    };
}

// An output of these lines.
#[cfg(test)]
macro_rules! lines {
    ($lines:literal) => {
        concat!("row,place,answer,detail\n", $lines)
    };
}

#[cfg(test)]
mod chains;
#[cfg(test)]
mod checks;
#[cfg(test)]
mod compacts;
#[cfg(test)]
mod faults;
#[cfg(test)]
mod follows;
#[cfg(test)]
mod full;
#[cfg(test)]
mod given_words;
#[cfg(test)]
mod hostile;
#[cfg(test)]
mod log_commands;
#[cfg(test)]
mod logged;
#[cfg(test)]
mod long_input;
#[cfg(test)]
mod memory;
#[cfg(test)]
mod pairs;
#[cfg(test)]
mod quads;
#[cfg(test)]
mod shows;
#[cfg(test)]
mod tests;
#[cfg(test)]
mod trials;
#[cfg(test)]
mod watches;
#[cfg(test)]
mod worked;
