//! The drive over a file of the machine.
ghost use Rattle.std.specs.Prelude.{◌≡◌, ◌+◌, ◌^◌, ◌≤◌, false, length, Ok, Some, None, IsErr, MatchResult};
ghost use Rattle.std.specs.IoError.{error_kind};
ghost use Rattle.causes.specs.Causes.{Rose, one_more};
ghost use Rattle.disk_file.specs.Reasons.{reason_of};

use crate::held::HeldFile;
use crate::locks::LockFile;
use crate::opening::{cause, opened};
use crate::reason::Reason;
use disk_trait::{AttachFault, DiskFault, LogDisk};
use std::alloc::Global;
use std::fs::Files;
use std::io::{self, ErrorKind};
use std::marker::Model;

/// A drive whose file `R` opens. It has no file until an attach returns `Ok`. If a later attach fails, it keeps the
/// file that it has.
#[derive(Drop)]
pub struct FileDisk<R: Files + Drop> {
    rt: R,
    file: Option<HeldFile<R::File>>,
    faults: u64,
    reason: Option<Reason>,
}

impl<R: Files + Drop> Model for FileDisk<R> {
    ghost use Rattle.std.specs.Prelude.{is_some};
    ghost use Rattle.disk_file.specs.Served.{FileView};

    ghost Value = { FileView };

    ghost view = { λ d. record { attached = is_some d.file; faults = d.faults; reason = d.reason } };
}

impl<R: Files + Drop> FileDisk<R> {
    ghost use Rattle.disk_trait.specs.Drive.{CountsFaults};
    ghost use Rattle.disk_file.specs.Served.{file_drive, Counted};

    /// A drive without a file.
    pub fn new(rt: R) -> FileDisk<R>
        ensures { result ≡ record { attached = false; faults = 0; reason = None } }
    {
        FileDisk {
            rt,
            file: None,
            faults: 0,
            reason: None,
        }
    }

    /// Why the last call failed that did, or `None` if none did. A drive that comes back with an error has the reason of
    /// that error. An attach for which memory ran out leaves the reason as it was.
    pub fn reason(&self) -> Option<Reason>
        ensures { result ≡ self.now.reason }
    {
        self.reason
    }

    // Raises the fault count, which stops at `2^64 - 1`, and keeps the reason.
    fn failed(&mut self, error: &io::Error)
        ensures rose { Rose self.old.faults self.new.faults }
        ensures later { self.old.faults ≤ self.new.faults }
        ensures after { self.new ≡ record {
          attached = self.old.attached;
          faults = one_more self.old.faults;
          reason = Some (reason_of (error_kind error.now));
        } }
    {
        self.faults = self.faults.saturating_add(1);
        self.reason = Some(Reason::of(error.kind()));
    }

    /// Counts a step that failed.
    fn counted<T>(&mut self, step: io::Result<T>) -> Result<T, DiskFault>
        ensures same { MatchResult step (λ x. result ≡ Ok x) (λ _. IsErr result) }
        ensures after { Counted self.old self.new result }
        ensures cause { CountsFaults (file_drive self.old) (file_drive self.new) result }
    {
        match step {
            Ok(value) => Ok(value),
            Err(error) => {
                self.failed(&error);
                Err(DiskFault)
            }
        }
    }
}

impl<R: Files + Drop> LogDisk for FileDisk<R>
where
    R::File: LockFile,
{
    ghost use Rattle.disk_trait.specs.Drive.{IsWithin, Stays, Reads, TellsLength, Writes, Cuts, Syncs, MadeOne, CountsFaults, CountsAttach};
    ghost use Rattle.disk_file.specs.Served.{file_drive, Attaches, Serves};
    ghost use Rattle.disk_file.specs.Laws.{file_laws};

    ghost drive = { file_drive };

    ghost keeps_laws = { file_laws };

    fn attach(&mut self, _alloc: Global, name: &str, make: bool) -> Result<(), AttachFault>
        ensures attaches { Attaches self.old self.new result }
        ensures stays { Stays (file_drive self.old) (file_drive self.new) }
        ensures cause { CountsAttach name.now make (file_drive self.old) (file_drive self.new) result }
    {
        match opened(&self.rt, name, make) {
            Ok(file) => {
                self.file = Some(file);
                Ok(())
            }
            Err(error) => {
                let cause = cause(&error);
                if cause == AttachFault::Disk {
                    self.failed(&error);
                }
                Err(cause)
            }
        }
    }

    fn len(&mut self) -> Result<u64, DiskFault>
        ensures serves { Serves self.old self.new result }
        ensures len { TellsLength (file_drive self.old) result }
        ensures stays { Stays (file_drive self.old) (file_drive self.new) }
        ensures cause { CountsFaults (file_drive self.old) (file_drive self.new) result }
    {
        let len = match &self.file {
            Some(file) => file.len(),
            None => Err(no_file()),
        };
        self.counted(len)
    }

    fn read(&mut self, at: u64, into: &mut [u8]) -> Result<usize, DiskFault>
        ensures serves { Serves self.old self.new result }
        ensures bytes { Reads (file_drive self.old) at into.old into.new result }
        ensures stays { Stays (file_drive self.old) (file_drive self.new) }
        ensures cause { CountsFaults (file_drive self.old) (file_drive self.new) result }
    {
        let count = match &mut self.file {
            Some(file) => file.read(at, into),
            None => Err(no_file()),
        };
        self.counted(count)
    }

    fn write(&mut self, at: u64, piece: &[u8]) -> Result<(), DiskFault>
        requires within { IsWithin (file_drive self.old) at }
        requires small { at + length piece.now ≤ 2 ^ 40 }
        ensures serves { Serves self.old self.new result }
        ensures writes { Writes (file_drive self.old) (file_drive self.new) at piece.now result }
        ensures made { MadeOne (file_drive self.old) (file_drive self.new) result }
        ensures cause { CountsFaults (file_drive self.old) (file_drive self.new) result }
    {
        let written = match &mut self.file {
            Some(file) => file.write(at, piece),
            None => Err(no_file()),
        };
        self.counted(written)
    }

    fn cut(&mut self, len: u64) -> Result<(), DiskFault>
        requires within { IsWithin (file_drive self.old) len }
        ensures serves { Serves self.old self.new result }
        ensures cuts { Cuts (file_drive self.old) (file_drive self.new) len result }
        ensures made { MadeOne (file_drive self.old) (file_drive self.new) result }
        ensures cause { CountsFaults (file_drive self.old) (file_drive self.new) result }
    {
        let cut = match &mut self.file {
            Some(file) => file.cut(len),
            None => Err(no_file()),
        };
        self.counted(cut)
    }

    fn sync(&mut self) -> Result<(), DiskFault>
        ensures serves { Serves self.old self.new result }
        ensures syncs { Syncs (file_drive self.old) (file_drive self.new) result }
        ensures made { MadeOne (file_drive self.old) (file_drive self.new) result }
        ensures cause { CountsFaults (file_drive self.old) (file_drive self.new) result }
    {
        let done = match &mut self.file {
            Some(file) => file.sync(),
            None => Err(no_file()),
        };
        self.counted(done)
    }
}

// The error of a call without a file.
fn no_file() -> io::Error {
    io::Error::from(ErrorKind::Other)
}
