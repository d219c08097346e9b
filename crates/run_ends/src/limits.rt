//! The limits of a run.

/// How many bytes an input may have: 16 MiB.
pub(crate) const MOST_BYTES: usize = 16_777_216;

/// How many records a log may have that is only read.
pub const MOST_INSPECTED: u64 = 16_777_216;

/// The bucket size in rows for made rows.
pub const TRIAL_BUCKET: u32 = 64;

/// How many records a log may have on which rows are played.
pub const MOST_PLAYED: u64 = 16_000_000;
