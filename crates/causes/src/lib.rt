//! When a call may return a fault. The crate has definitions alone; every crate that reads, writes or syncs cites them.
//!
//! Contracts see a count of faults for each source, sink or drive. The count never falls, and ends at 2^64 - 1. A call
//! may return a fault only if the count rose during the call. A call that succeeds leaves the count unchanged, so it
//! cannot hide an attempt that failed.
//!
//! Not here: the counts themselves (`io_edge` for sources and sinks, `disk_trait` for log files).
#![tactic(auto)]
