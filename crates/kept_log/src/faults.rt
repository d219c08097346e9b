//! Why cells were not added.

/// A device call failed while this cell was added, or this one and those after it. A crash leaves all of them or none.
#[derive(Clone, Copy, Debug, PartialEq, Eq)]
pub struct AppendLost {
    pub cell: u64,
}

/// Why a batch of cells was not added.
#[derive(Clone, Copy, Debug, PartialEq, Eq)]
pub enum AppendAllLost {
    /// A device call failed. A crash leaves all cells of the batch or none, and with them any cells that waited. `cell` is
    /// the number of the first one.
    Disk { cell: u64 },
    /// There was no memory for the text of the cells. No device call was made.
    Memory,
}
