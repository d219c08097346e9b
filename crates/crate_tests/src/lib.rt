//! The worked values of single crates, tested through their public calls.
//!
//! They are in a crate of their own, so that each of those crates is proved once. Nothing else is here.
#![tactic(auto)]

// `assert!` and `assert_eq!` as calls. They make the proof of a function with several of them much shorter.
#[cfg(test)]
macro_rules! assert_is {
    ($rt:expr; $is_so:expr $(,)?) => {
        crate::checks::holds(&$rt, $is_so, concat!("assertion failed: ", stringify!($is_so)))
    };
}

#[cfg(test)]
macro_rules! assert_same {
    ($rt:expr; $left:expr, $right:expr $(,)?) => {
        crate::checks::same(&$rt, &$left, &$right, stringify!($left))
    };
}

#[cfg(test)]
mod answers;
#[cfg(test)]
mod book;
#[cfg(test)]
mod buckets;
#[cfg(test)]
mod cells;
#[cfg(test)]
mod checks;
#[cfg(test)]
mod counts;
#[cfg(test)]
mod drives;
#[cfg(test)]
mod failing_files;
#[cfg(test)]
mod fault_texts;
#[cfg(test)]
mod fences;
#[cfg(test)]
mod files;
#[cfg(test)]
mod folder;
#[cfg(test)]
mod forgetful;
#[cfg(test)]
mod full_tally;
#[cfg(test)]
mod index;
#[cfg(test)]
mod keys;
#[cfg(test)]
mod large_buckets;
#[cfg(test)]
mod lines;
#[cfg(test)]
mod lists;
#[cfg(test)]
mod log_texts;
#[cfg(test)]
mod logs;
#[cfg(test)]
mod made_fences;
#[cfg(test)]
mod memory;
#[cfg(test)]
mod moves;
#[cfg(test)]
mod regions;
#[cfg(test)]
mod short_reads;
#[cfg(test)]
mod splits;
#[cfg(test)]
mod streams;
#[cfg(test)]
mod tables;
#[cfg(test)]
mod tallies;
#[cfg(test)]
mod words;
#[cfg(test)]
mod worlds;
