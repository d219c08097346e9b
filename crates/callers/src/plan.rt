//! The plan of a measurement.
use std::time::Duration;

/// How many threads call, and how.
#[derive(Clone, Copy)]
pub struct Plan {
    /// How many threads are paced: their calls are counted and timed.
    pub paced: u8,
    /// How many calls each of them makes.
    pub calls: u32,
    /// How many microseconds lie between the begins of two calls of a thread.
    pub micros: u64,
    /// How many threads of a batch call without a pause, as long as the paced threads are planned to take.
    pub batch: u8,
    /// How many threads there are in all. Those that are neither paced nor of the batch also call without a pause.
    pub all: u8,
    pub tells_times: bool,
}

impl Plan {
    /// When a paced thread is to make the call of this number, counted from the start.
    pub fn due(&self, row: u32) -> Duration {
        Duration::from_micros(self.micros.saturating_mul(u64::from(row)))
    }
}
