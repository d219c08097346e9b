//! Why a follower wasn't opened, or a turn wasn't made.
use disk_trait::LogDisk;
use recovery::OpenFault;
use thiserror::Error;

/// Why a follower wasn't opened, or a turn wasn't made.
#[derive(Clone, Copy, Debug, PartialEq, Eq, Error)]
pub enum FollowFault {
    /// The first cell of the log that isn't the leader's cell of that number. If the drive's content is unknown, the
    /// drive may report one number of cells and later another. Then `cell` may be the lesser of the two.
    #[error("cell {cell} isn't the leader's")]
    Strange { cell: u64 },
    /// The log was refused, as `recovery::open` refuses it.
    #[error("{fault}")]
    Log { fault: OpenFault },
    /// A device call failed while this cell was added. A crash leaves the cell or doesn't.
    #[error("the drive failed at cell {cell}")]
    Append { cell: u64 },
    /// The drive failed while the log was created.
    #[error("the drive failed")]
    Disk,
    #[error("out of memory")]
    Memory,
}

/// The drive, returned, and the fault.
#[derive(Drop)]
pub struct FollowRefused<D: LogDisk> {
    pub disk: D,
    pub fault: FollowFault,
}
