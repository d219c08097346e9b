//! Locks on a file: many opens that read it, or one that writes. The system keeps the locks. It releases a lock when
//! its open ends, also when the process is killed.
use std::fs::File;
use std::io;

/// Which other opens may lock a file: those that read it too (`Shared`), or none (`Alone`).
#[derive(Clone, Copy, Debug, PartialEq, Eq)]
pub enum Hold {
    Shared,
    Alone,
}

/// A file that its open can lock.
pub trait LockFile {
    /// Locks the file, or changes the lock that this open has, without waiting. The error is `WouldBlock` if another
    /// open's lock is in the way, and `Unsupported` or `InvalidInput` if the file can't be locked. After an error this
    /// open has no lock.
    fn try_hold(&self, hold: Hold) -> io::Result<()>;
}

impl LockFile for File {
    fn try_hold(&self, hold: Hold) -> io::Result<()> {
        match hold {
            Hold::Shared => self.try_lock_shared()?,
            Hold::Alone => self.try_lock()?,
        }
        Ok(())
    }
}
