//! Where records are in a log. The cell of a number (the first is 0) begins at byte `HEADER_BYTES + CELL_BYTES *
//! number`, with its commit byte. One clear commit byte follows the last cell and ends the log.

/// The length of the header in bytes.
pub const HEADER_BYTES: u64 = 16;

/// The length of a cell in bytes, with its commit byte.
pub const CELL_BYTES: u64 = 32;
