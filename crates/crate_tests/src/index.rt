//! An index and queries over it, for every form of one.
//!
//! A function over the bound `Index` makes the calls, and runs for each form.
mod asks;
mod below;
mod browses;
mod buckets;
mod builds;
mod calls;
mod changes;
pub(crate) mod never;
mod queries;
mod spots;
mod spread;
mod ties;
mod views;
mod walks;
