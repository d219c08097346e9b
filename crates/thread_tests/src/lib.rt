//! Tests of the lock by itself, and of sessions that run at the same time:
//! - passes by hand;
//! - lanes in an order that a gate makes, also lanes that a store runs by itself, and sixteen lanes together;
//! - the index that one lane watches.
//!
//! Not here: stores as programs use them, and their clients (`store_tests`), what can go wrong around the top call
//! (`run_tests`), and the worked values of single crates (`crate_tests`).
#![tactic(auto)]

// `assert!` and `assert_eq!` as calls. They make the proof of a function with several of them much shorter.
#[cfg(test)]
macro_rules! assert_is {
    ($rt:expr; $is_so:expr $(,)?) => {
        crate::checks::holds(&$rt, $is_so, concat!("assertion failed: ", stringify!($is_so)))
    };
}

#[cfg(test)]
macro_rules! assert_same {
    ($rt:expr; $left:expr, $right:expr $(,)?) => {
        crate::checks::same(&$rt, &$left, &$right, stringify!($left))
    };
}

#[cfg(test)]
mod checks;
#[cfg(test)]
mod crowds;
#[cfg(test)]
mod fixtures;
#[cfg(test)]
mod lanes;
#[cfg(test)]
mod legal;
#[cfg(test)]
mod numbered;
#[cfg(test)]
mod orders;
#[cfg(test)]
mod passes;
#[cfg(test)]
mod points;
#[cfg(test)]
mod sheets;
#[cfg(test)]
mod stores;
#[cfg(test)]
mod turns;
#[cfg(test)]
mod versions;
