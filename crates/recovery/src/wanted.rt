//! Which logs are read.

/// The oldest version of a log that the crate reads.
pub(crate) const FIRST: u8 = 1;

/// The version of the logs that `init` creates and `open_log` opens.
pub const NEWEST: u8 = 2;

/// Which logs a call accepts: those of this width, or of either width if it is `None`, with at most `most` cells.
#[derive(Clone, Copy)]
pub struct Wanted {
    pub width: Option<u8>,
    pub most: u64,
}
