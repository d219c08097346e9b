//! Tests of stores as programs use them:
//! - the verbs of a client, what it tells besides, its batches, teams, pools and views;
//! - the objects of a store;
//! - the texts of refused calls;
//! - stores whose records wait for a sync;
//! - stores over files, also when they continue over a second file or are refused;
//! - a store in memory that goes on past the entries that a list takes.
//!
//! Not here: the lock by itself, and lanes (`thread_tests`), and the worked values of single crates (`crate_tests`).
#![tactic(auto)]

// `assert!` and `assert_eq!` as calls. They make the proof of a function with several of them much shorter.
#[cfg(test)]
macro_rules! assert_is {
    ($rt:expr; $is_so:expr $(,)?) => {
        crate::checks::holds(&$rt, $is_so, concat!("assertion failed: ", stringify!($is_so)))
    };
}

#[cfg(test)]
macro_rules! assert_same {
    ($rt:expr; $left:expr, $right:expr $(,)?) => {
        crate::checks::same(&$rt, &$left, &$right, stringify!($left))
    };
}

#[cfg(test)]
mod asked;
#[cfg(test)]
mod batches;
#[cfg(test)]
mod batches_again;
#[cfg(test)]
mod buffered;
#[cfg(test)]
mod checks;
#[cfg(test)]
mod clients;
#[cfg(test)]
mod fault_texts;
#[cfg(test)]
mod files;
#[cfg(test)]
mod leaves_anew;
#[cfg(test)]
mod logs;
#[cfg(test)]
mod many_calls;
#[cfg(test)]
mod many_objects;
#[cfg(test)]
mod meetings;
#[cfg(test)]
mod memory_stores;
#[cfg(test)]
mod object_stores;
#[cfg(test)]
mod pools;
#[cfg(test)]
mod refusals;
#[cfg(test)]
mod resumes;
#[cfg(test)]
mod rotating;
#[cfg(test)]
mod rotations;
#[cfg(test)]
mod stores;
#[cfg(test)]
mod synced;
#[cfg(test)]
mod teams;
#[cfg(test)]
mod view_threads;
#[cfg(test)]
mod views;
#[cfg(test)]
mod worlds;
