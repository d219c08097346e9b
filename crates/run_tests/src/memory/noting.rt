//! A drive in memory that notes each attach.
ghost use Rattle.std.specs.Prelude.{◌≡◌};

use disk_mem::MemDisk;
use disk_trait::{AttachFault, DiskFault, LogDisk};
use std::alloc::{AllocError, Global};

/// A drive in memory that notes each attach in a line: whether it creates or opens the file, and the name.
#[derive(Drop)]
pub(crate) struct NotingDisk {
    pub(crate) disk: MemDisk,
    pub(crate) attaches: String,
}

impl NotingDisk {
    pub(crate) fn new(alloc: Global, disk: MemDisk) -> NotingDisk {
        NotingDisk {
            disk,
            attaches: String::new(alloc),
        }
    }

    fn note(&mut self, name: &str, make: bool) -> Result<(), AllocError>
        ensures { self.new.disk ≡ self.old.disk }
    {
        let word = if make { "makes " } else { "opens " };
        self.attaches.push_str(word)?;
        self.attaches.push_str(name)?;
        self.attaches.push_str("\n")
    }
}

impl LogDisk for NotingDisk {
    ghost use Rattle.disk_mem.specs.Drives.{mem_drive};
    ghost use Rattle.disk_mem.specs.Laws.{mem_laws};

    ghost drive = { λ d. mem_drive d.disk };

    ghost keeps_laws = { λ d. mem_laws d.disk };

    fn attach(&mut self, alloc: Global, name: &str, make: bool) -> Result<(), AttachFault> {
        let Ok(()) = self.note(name, make) else {
            return Err(AttachFault::Memory);
        };
        self.disk.attach(alloc, name, make)
    }

    fn len(&mut self) -> Result<u64, DiskFault> {
        self.disk.len()
    }

    fn read(&mut self, at: u64, into: &mut [u8]) -> Result<usize, DiskFault> {
        self.disk.read(at, into)
    }

    fn write(&mut self, at: u64, piece: &[u8]) -> Result<(), DiskFault> {
        self.disk.write(at, piece)
    }

    fn cut(&mut self, len: u64) -> Result<(), DiskFault> {
        self.disk.cut(len)
    }

    fn sync(&mut self) -> Result<(), DiskFault> {
        self.disk.sync()
    }
}
