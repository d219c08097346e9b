//! What a run writes about its rows.

/// A line for each row, or three numbers: how many rows there were, how many objects they leave, and the sum of their
/// keys modulo 2^64.
#[derive(Clone, Copy)]
pub(crate) enum Report {
    Lines,
    Summary,
}
