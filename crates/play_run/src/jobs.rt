//! What rows are played for, and what they are played with.
use crate::reports::Report;
use csv_rows::InRow;
use std::alloc::Global;

/// Rows that are to be played, what is written about them, and the bucket size in rows.
#[derive(Drop)]
pub(crate) struct Job<'a> {
    pub(crate) rows: &'a [InRow],
    pub(crate) report: Report,
    pub(crate) size: u32,
}

/// What rows are played with: the handles of the run, the allocator, and the gate that the calls on the store reach.
#[derive(Drop)]
pub(crate) struct Host<'a, R, G> {
    pub(crate) rt: &'a R,
    pub(crate) alloc: Global,
    pub(crate) gate: &'a G,
}
