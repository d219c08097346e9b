//! Why no store was opened.
ghost use Rattle.std.specs.Prelude.{◌≡◌};
ghost use Rattle.store_file.specs.Causes.{attach_cause, open_cause};

use disk_trait::AttachFault;
use recovery::OpenFault;
use thiserror::Error;

/// Why no store was opened over a file. Whatever the cause is, a crash leaves the records that the file had.
#[derive(Clone, Copy, Debug, PartialEq, Eq, Error)]
pub enum OpenCause {
    /// The bucket size isn't from 4 to 4,096. The drive was not called.
    #[error("the size of a bucket isn't from 4 to 4,096")]
    Bucket,
    /// The drive failed to open the file, or to create it. The drive keeps the file that it had before.
    #[error("the file can't be opened or made")]
    Attach,
    /// The drive failed after the file was attached.
    #[error("the drive failed")]
    Disk,
    /// The file has more than 17 bytes, which aren't a log that the store can continue with. `fault` is the first fault
    /// in the bytes.
    #[error("{fault}")]
    Log { fault: OpenFault },
    /// Memory ran out. The drive has the new file, or the file that it had before.
    #[error("out of memory")]
    Memory,
}

/// The drive, returned, and why no store was opened over its file.
#[derive(Drop)]
pub struct NotOpened<D: Drop> {
    pub disk: D,
    pub cause: OpenCause,
}

/// Why no store was opened over either of two files.
#[derive(Clone, Copy, Debug, PartialEq, Eq, Error)]
pub enum EitherCause {
    /// The bucket size isn't from 4 to 4,096. Neither drive was called.
    #[error("the size of a bucket isn't from 4 to 4,096")]
    Bucket,
    /// Both files have the same name. Neither drive was called.
    #[error("the two files have one name")]
    OneFile,
    /// The first file wasn't opened. The second drive was not called.
    #[error("the first file: {cause}")]
    First { cause: OpenCause },
    /// The second file wasn't opened, but the first was. The first file keeps its records.
    #[error("the second file: {cause}")]
    Second { cause: OpenCause },
    /// Both files have records, which leave different objects. Both files keep their records.
    #[error("the two files have different objects")]
    Differ,
    /// A drive failed while the log of its file was emptied. A crash leaves all records of that log or none. The file
    /// that was chosen keeps its records.
    #[error("a drive failed while its log was emptied")]
    Disk,
    /// Memory ran out for the new store, after the other log was emptied. The file that was chosen keeps its records.
    #[error("out of memory")]
    Memory,
}

/// Both drives, returned, and why no store was opened over either file.
#[derive(Drop)]
pub struct NotEither<D: Drop> {
    pub first: D,
    pub second: D,
    pub cause: EitherCause,
}

/// The cause that is reported if a file wasn't attached.
pub(crate) fn attach_cause(fault: AttachFault) -> OpenCause
    ensures { result ≡ attach_cause fault }
{
    match fault {
        AttachFault::Disk => OpenCause::Attach,
        AttachFault::Memory => OpenCause::Memory,
    }
}

/// The cause that is reported if a log wasn't opened.
pub(crate) fn open_cause(fault: OpenFault) -> OpenCause
    ensures { result ≡ open_cause fault }
{
    match fault {
        OpenFault::Disk => OpenCause::Disk,
        OpenFault::Memory => OpenCause::Memory,
        fault => OpenCause::Log { fault },
    }
}
