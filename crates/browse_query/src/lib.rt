//! Distance browsing over any index: all objects, the nearest first.
//!
//! A `Browse` returns one object after the other by squared distance from a point, and at the same distance by id. A
//! caller stops where it likes. It doesn't have to know at the start how many objects it needs, as `nearest` does. To
//! find the nearest free taxi, loop over a browse and stop at the first one that is free.
//!
//! Contracts see a browse as what is still to come: the objects in order, and the leaves whose buckets aren't opened
//! yet. Each call of `next` removes the first of these objects. It opens only leaves whose region may have a point as
//! near as this object.
//!
//! Not here: the ranking with which the contract compares the objects (`plain_list`), and the subtrees that wait
//! (`knn_query`).
#![tactic(auto)]

mod browse;
mod found;
mod front;

pub use browse::Browse;
