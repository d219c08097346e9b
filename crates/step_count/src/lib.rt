//! Counts steps of work for contracts. The count exists in proofs only and costs nothing at run time.
//!
//! Contracts see `Steps` as a number. `Steps::new` begins at 0, `tick` adds one, and no other call changes it. So the
//! contract of a function that takes `&mut Steps` says how much work of a kind the function does.
//!
//! Not here: what a step is. Each function that ticks says what it counts.
#![tactic(auto)]

mod steps;

pub use steps::Steps;
