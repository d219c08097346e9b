//! The drive in memory.
ghost use Rattle.std.specs.Prelude.{◌≡◌, ℕ, ◌+◌, ◌*◌, ◌-◌, ◌^◌, ◌<◌, ◌≤◌, ◌≢◌, ◌↔◌, min, [], length, take, drop, IfOk, OnErr, Result, Ok, Err, MatchResult};
ghost use Rattle.causes.specs.Causes.{one_more};

use crate::attaches::Attached;
use crate::plans::{DiskCall, Fail, Plan, Verdict};
use crate::recorded::RecordedFile;
use crate::touches::Touch;
use disk_trait::{AttachFault, DiskFault, LogDisk};
use std::alloc::{AllocError, Global};
use std::marker::Model;
use zorder::Memory;

/// Why `pick` returned no image.
#[derive(Clone, Copy, Debug, PartialEq, Eq)]
pub enum PickFault {
    /// The moment is greater than the clock, whose value is `moments`.
    NoMoment { moments: u64 },
    /// Memory ran out.
    Memory,
}

impl From<AllocError> for PickFault {
    ghost use Rattle.disk_mem.specs.declared.disk.PickFault.TheVariants.{Memory};

    ghost from_gives = { λ _ fault. fault ≡ Memory };

    fn from(_: AllocError) -> PickFault {
        PickFault::Memory
    }
}

/// A drive in memory with one file. The file exists from the start, and every name leads to it. The drive takes all its
/// memory when it is created, except for the names of attaches.
#[derive(Drop)]
pub struct MemDisk {
    plan: Plan,
    file: RecordedFile,
    faults: u64,
    attaches: Vec<Attached>,
}

impl Model for MemDisk {
    ghost use Rattle.disk_mem.specs.Drives.{DiskView};

    ghost Value = { DiskView };

    ghost use Rattle.disk_mem.specs.Disks.{disk_view, IsDisk};

    ghost view = { disk_view };

    ghost invariant = { IsDisk };
}

/// Raises a count of faults by one, up to 2^64 - 1.
fn fault(faults: &mut u64) -> DiskFault
    ensures { faults.new ≡ one_more faults.old }
{
    *faults = faults.saturating_add(1);
    DiskFault
}

/// Copies the bytes of a file from `at` on, as many as there are and fit, and returns their number.
fn copy_out(held: &[u8], at: usize, into: &mut [u8]) -> usize
    ensures count { result ≡ min (length into.old) (length held.now - at) }
    ensures bytes { take result into.new ≡ take result (drop at held.now) }
    ensures rest { drop result into.new ≡ drop result into.old }
{
    let from = at.min(held.len());
    let count = into.len().min(held.len() - from);
    into[..count].copy_from_slice(&held[from..from + count]);
    count
}

impl MemDisk {
    ghost use Rattle.disk_mem.specs.Pending.{Picks};
    ghost use Rattle.disk_mem.specs.Plans.{no_calls};
    ghost use Rattle.disk_mem.specs.Drives.{file_at, file_now, mem_drive, MakesPlain, MakesWrite, MakesCut, MakesSync};

    /// Creates a drive whose file has these bytes, with nothing pending. No write may end beyond `room` bytes, and all
    /// writes together may bring at most `room` bytes. At most `calls` calls reach the file, and the calls in `failing`
    /// fail. A call beyond `calls` fails and leaves the file, its images and the clock unchanged. It counts as a fault
    /// and is in no list of calls.
    pub fn new(
        alloc: Global,
        bytes: Vec<u8>,
        room: usize,
        calls: usize,
        failing: Vec<Fail>,
    ) -> Result<MemDisk, Memory>
        ensures { IfOk result (λ d. d ≡ record {
          plan = record { failing = failing.items; numbers = no_calls; left = calls };
          first = bytes.items;
          changes = [];
          room = room;
          faults = 0;
          attaches = [];
        }) }
    {
        Ok(MemDisk {
            plan: Plan::new(failing, calls),
            file: RecordedFile::new(alloc, bytes, room, calls)?,
            faults: 0,
            attaches: Vec::new(alloc),
        })
    }

    /// Returns the clock: how many calls have changed or synced the file, including those that failed.
    pub fn moments(&self) -> u64
        ensures { result ≡ length self.now.changes }
    {
        self.file.moments() as u64
    }

    /// Returns the bytes that a read of the whole file returns.
    pub fn bytes(&self) -> &[u8]
        ensures { result.now ≡ (file_now self.now).held }
    {
        self.file.held()
    }

    /// Returns the attaches that returned Ok, in order.
    pub fn attaches(&self) -> &[Attached]
        ensures { result.now ≡ self.now.attaches }
    {
        &self.attaches
    }

    /// Returns one image that a crash at a moment may leave. Of all lengths that the image may have, it has the one
    /// nearest to `len`. Each byte that may be anything is taken from `fill`, which is repeated from the start of the
    /// file on.
    pub fn pick(&self, moment: u64, len: u64, fill: &[u8]) -> Result<Vec<u8>, PickFault>
        requires { 0 < length fill.now }
        ensures no_moment { (result ≡ Err (PickFault.NoMoment (length self.now.changes))) ↔ (length self.now.changes < moment) }
        ensures names { (moments : ℕ) → result ≡ Err (PickFault.NoMoment moments) → moments ≡ length self.now.changes }
        ensures picks { IfOk result (λ image. Picks (file_at self.now moment).pending len fill.now image.items) }
        ensures image { IfOk result (λ image. (mem_drive self.now).since moment image.items) }
    {
        let moments = self.moments();
        if moments < moment {
            return Err(PickFault::NoMoment { moments });
        }
        let image = self.file.image(moment as usize, len as usize, fill)?;
        Ok(image)
    }

    /// Makes a call that changes nothing.
    fn make_plain(&mut self, call: DiskCall) -> Result<(), DiskFault>
        ensures makes { MakesPlain call self.old self.new result }
        ensures small { OnErr result (self.old.faults < 2 ^ 64) }
    {
        match self.plan.next(call) {
            Verdict::Passes => Ok(()),
            Verdict::Fails | Verdict::Past => Err(fault(&mut self.faults)),
        }
    }

    /// Makes a write. If it fails, as planned or for lack of room, it touches its range, and a read returns the same as
    /// before.
    fn make_write(&mut self, at: usize, piece: &[u8]) -> Result<(), DiskFault>
        requires { at + length piece.now ≤ 2 ^ 40 }
        ensures makes { MakesWrite self.old self.new at piece.now result }
        ensures small { OnErr result (self.old.faults < 2 ^ 64) }
    {
        let fits = self.file.has_room(at, piece.len());
        match self.plan.next(DiskCall::Write) {
            Verdict::Passes if fits => {
                self.file.write(at, piece);
                Ok(())
            }
            Verdict::Passes | Verdict::Fails => {
                let len = piece.len();
                self.file.note(Touch::FailedWrite { at, len });
                Err(fault(&mut self.faults))
            }
            Verdict::Past => Err(fault(&mut self.faults)),
        }
    }

    /// Makes a cut. If it fails, a crash may leave it as if it were made, and a read returns the same as before.
    fn make_cut(&mut self, len: usize) -> Result<(), DiskFault>
        ensures makes { MakesCut self.old self.new len result }
        ensures small { OnErr result (self.old.faults < 2 ^ 64) }
    {
        match self.plan.next(DiskCall::Cut) {
            Verdict::Passes => {
                self.file.cut(len);
                Ok(())
            }
            Verdict::Fails => {
                self.file.note(Touch::FailedCut { len });
                Err(fault(&mut self.faults))
            }
            Verdict::Past => Err(fault(&mut self.faults)),
        }
    }

    /// Makes a sync. If it fails, it fixes nothing.
    fn make_sync(&mut self) -> Result<(), DiskFault>
        ensures makes { MakesSync self.old self.new result }
        ensures small { OnErr result (self.old.faults < 2 ^ 64) }
    {
        match self.plan.next(DiskCall::Sync) {
            Verdict::Passes => {
                self.file.note(Touch::Synced);
                Ok(())
            }
            Verdict::Fails => {
                self.file.note(Touch::FailedSync);
                Err(fault(&mut self.faults))
            }
            Verdict::Past => Err(fault(&mut self.faults)),
        }
    }
}

impl LogDisk for MemDisk {
    ghost use Rattle.disk_trait.specs.Drive.{IsWithin, Stays, Reads, TellsLength, Writes, Cuts, Syncs, MadeOne, CountsFaults, CountsAttach};
    ghost use Rattle.disk_mem.specs.Drives.{mem_drive, MakesAttach, MakesPlain, MakesWrite, MakesCut, MakesSync};
    ghost use Rattle.disk_mem.specs.Laws.{mem_laws};

    ghost drive = { mem_drive };

    ghost keeps_laws = { mem_laws };

    /// Each name leads to the one file, which exists. If the name finds no memory, no call is counted.
    fn attach(&mut self, alloc: Global, name: &str, make: bool) -> Result<(), AttachFault>
        ensures makes { result ≢ Err AttachFault.Memory → MakesAttach name.now make self.old self.new result }
        ensures memory { result ≡ Err AttachFault.Memory → self.new ≡ self.old }
        ensures stays { Stays (mem_drive self.old) (mem_drive self.new) }
        ensures cause { CountsAttach name.now make (mem_drive self.old) (mem_drive self.new) result }
    {
        let Ok(file) = Attached::new(alloc, name, make) else {
            return Err(AttachFault::Memory);
        };
        let Ok(()) = self.attaches.reserve(1) else {
            return Err(AttachFault::Memory);
        };
        match self.plan.next(DiskCall::Attach) {
            Verdict::Passes => {
                self.attaches.push_reserved(file);
                Ok(())
            }
            Verdict::Fails | Verdict::Past => {
                fault(&mut self.faults);
                Err(AttachFault::Disk)
            }
        }
    }

    fn len(&mut self) -> Result<u64, DiskFault>
        ensures makes { MakesPlain DiskCall.Len self.old self.new result }
        ensures len { TellsLength (mem_drive self.old) result }
        ensures stays { Stays (mem_drive self.old) (mem_drive self.new) }
        ensures cause { CountsFaults (mem_drive self.old) (mem_drive self.new) result }
    {
        self.make_plain(DiskCall::Len)?;
        Ok(self.bytes().len() as u64)
    }

    fn read(&mut self, at: u64, into: &mut [u8]) -> Result<usize, DiskFault>
        ensures makes { MakesPlain DiskCall.Read self.old self.new result }
        ensures bytes { Reads (mem_drive self.old) at into.old into.new result }
        ensures rest { MatchResult result (λ n. drop n into.new ≡ drop n into.old) (λ _. into.new ≡ into.old) }
        ensures stays { Stays (mem_drive self.old) (mem_drive self.new) }
        ensures cause { CountsFaults (mem_drive self.old) (mem_drive self.new) result }
    {
        self.make_plain(DiskCall::Read)?;
        Ok(copy_out(self.bytes(), at as usize, into))
    }

    fn write(&mut self, at: u64, piece: &[u8]) -> Result<(), DiskFault>
        requires within { IsWithin (mem_drive self.old) at }
        requires small { at + length piece.now ≤ 2 ^ 40 }
        ensures makes { MakesWrite self.old self.new at piece.now result }
        ensures writes { Writes (mem_drive self.old) (mem_drive self.new) at piece.now result }
        ensures made { MadeOne (mem_drive self.old) (mem_drive self.new) result }
        ensures cause { CountsFaults (mem_drive self.old) (mem_drive self.new) result }
    {
        self.make_write(at as usize, piece)
    }

    fn cut(&mut self, len: u64) -> Result<(), DiskFault>
        requires within { IsWithin (mem_drive self.old) len }
        ensures makes { MakesCut self.old self.new len result }
        ensures cuts { Cuts (mem_drive self.old) (mem_drive self.new) len result }
        ensures made { MadeOne (mem_drive self.old) (mem_drive self.new) result }
        ensures cause { CountsFaults (mem_drive self.old) (mem_drive self.new) result }
    {
        self.make_cut(len as usize)
    }

    fn sync(&mut self) -> Result<(), DiskFault>
        ensures makes { MakesSync self.old self.new result }
        ensures syncs { Syncs (mem_drive self.old) (mem_drive self.new) result }
        ensures made { MadeOne (mem_drive self.old) (mem_drive self.new) result }
        ensures cause { CountsFaults (mem_drive self.old) (mem_drive self.new) result }
    {
        self.make_sync()
    }
}
