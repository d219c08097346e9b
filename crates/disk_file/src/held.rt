//! The drive's file under its lock.
ghost use Rattle.std.specs.Prelude.{◌≡◌, ◌≤◌, ◌<◌, false, true, length, take, Ok, IfOk, OnOk, IsErr, MatchResult};
ghost use Rattle.std.specs.Io.KnownBytes.{IsAtEnd};
ghost use Rattle.disk_file.specs.Moves.{GivesFrom, PutsAt};
ghost use Rattle.disk_file.specs.Holds.{IsAloneOrKept};

use crate::locks::{Hold, LockFile};
use crate::moves::{read_from, write_to};
use crate::system::or_unsupported;
use std::fs::OpenFile;
use std::io::{self, Read, Seek, Write};

/// A file that other opens may read too, until the first call that changes or syncs it. From then on no other open gets
/// a lock.
#[derive(Drop)]
pub struct HeldFile<F: Drop> {
    file: F,
    is_alone: bool,
}

// If the system has no locks for a file, no other open is in the way.
fn lock_for<F: LockFile>(file: &F, hold: Hold) -> io::Result<()> {
    or_unsupported(file.try_hold(hold))
}

impl<F: LockFile + Drop> HeldFile<F> {
    /// Locks a file for reading. Other opens may lock it for reading too.
    pub fn shared(file: F) -> io::Result<HeldFile<F>>
        ensures { IfOk result (λ held. held ≡ record { file = file; is_alone = false }) }
    {
        lock_for(&file, Hold::Shared)?;
        Ok(HeldFile {
            file,
            is_alone: false,
        })
    }

    // Locks the file for this open alone, unless it has that lock already.
    fn hold_alone(&mut self) -> io::Result<()>
        ensures held { MatchResult result (λ _. self.new ≡ record { file = self.old.file; is_alone = true }) (λ _. self.new ≡ self.old) }
    {
        if !self.is_alone {
            lock_for(&self.file, Hold::Alone)?;
            self.is_alone = true;
        }
        Ok(())
    }
}

impl<F: LockFile + Read + Write + Seek + OpenFile + Drop> HeldFile<F> {
    /// The length of the file in bytes.
    pub fn len(&self) -> io::Result<u64> {
        let found = self.file.metadata()?;
        Ok(found.len())
    }

    /// Reads the bytes from a place on, as many as `into` has room for.
    pub fn read(&mut self, at: u64, into: &mut [u8]) -> io::Result<usize>
        ensures lock { self.new.is_alone ≡ self.old.is_alone }
        ensures bound { IfOk result (λ n. n ≤ length into.new) }
        ensures end { IfOk result (λ n. n < length into.new → IsAtEnd (F.remaining self.new.file)) }
        ensures gives { IfOk result (λ n. GivesFrom F.stream_position F.remaining self.old.file self.new.file at (take n into.new)) }
    {
        read_from(&mut self.file, at, into)
    }

    /// Writes a piece at a place.
    pub fn write(&mut self, at: u64, piece: &[u8]) -> io::Result<()>
        ensures lock { IsAloneOrKept self.old self.new result }
        ensures puts { OnOk result (PutsAt F.stream_position F.contents self.old.file self.new.file at piece.now) }
    {
        self.hold_alone()?;
        write_to(&mut self.file, at, piece)
    }

    /// Cuts the file to a length, or extends it.
    pub fn cut(&mut self, len: u64) -> io::Result<()>
        ensures lock { IsAloneOrKept self.old self.new result }
    {
        self.hold_alone()?;
        self.file.set_len(len)
    }

    /// Waits until the bytes and the length are on the disk. It doesn't wait for the times of the file.
    pub fn sync(&mut self) -> io::Result<()>
        ensures lock { IsAloneOrKept self.old self.new result }
    {
        self.hold_alone()?;
        self.file.sync_data()
    }
}
