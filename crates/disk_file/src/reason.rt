//! Why a call of the system failed.
ghost use Rattle.std.specs.Prelude.{◌≡◌};
ghost use Rattle.disk_file.specs.Reasons.{reason_of};

use std::io::ErrorKind;
use thiserror::Error;

/// Why a call of a drive failed, as the system said it.
#[derive(Clone, Copy, Debug, PartialEq, Eq, Error)]
pub enum Reason {
    /// Another open holds the file, in this process or in another one.
    #[error("another open holds the file")]
    Held,
    /// There is no such file, or no such folder.
    #[error("there is no such file or folder")]
    Missing,
    /// The program may not open or change the file.
    #[error("the file may not be opened or changed")]
    Denied,
    /// The disk is full, or the user's share of it is.
    #[error("the disk has no space left")]
    NoSpace,
    /// Anything else. A call without an attached file has this reason too.
    #[error("the system failed")]
    Other,
}

impl Reason {
    /// The reason of an error of this kind.
    pub fn of(kind: ErrorKind) -> Reason
        ensures { result ≡ reason_of kind }
    {
        match kind {
            ErrorKind::WouldBlock => Reason::Held,
            ErrorKind::NotFound => Reason::Missing,
            ErrorKind::PermissionDenied | ErrorKind::ReadOnlyFilesystem => Reason::Denied,
            ErrorKind::StorageFull | ErrorKind::QuotaExceeded => Reason::NoSpace,
            _ => Reason::Other,
        }
    }
}
