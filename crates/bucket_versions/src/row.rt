//! One row of a bucket, and a change by one row.

/// An object's id and the key of its point. Rows are ordered by key, and then by id.
#[derive(Clone, Copy, Debug, PartialEq, Eq, PartialOrd, Ord)]
pub struct Row {
    pub key: u64,
    pub id: u64,
}

/// A row that is added to a bucket or removed from it.
#[derive(Clone, Copy, Debug)]
pub struct RowChange {
    pub row: Row,
    /// Whether the bucket keeps its base. If it doesn't, the changed rows are its base.
    pub keeps_base: bool,
}
