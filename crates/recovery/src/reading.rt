//! Reads the cells of a log one by one, in pieces.
ghost use Rattle.std.specs.Prelude.{◌≡◌, ◌≤◌, ◌+◌, ◌-◌, ◌*◌, ◌<◌, ℕ, List, Some, false, take, drop, min, length, OnOk, IfOk, IfErr, IfSome};
ghost use Rattle.disk_trait.specs.Drive.{Stays, CountsFaults};
ghost use Rattle.recovery.specs.Faults.{IsInBytes, IsOfHead, ShowsFault};
ghost use Rattle.recovery.specs.Reading.{StartsFor, IsBehind, Advances, WalksOn, IsFilled, IsEmptied, NeedsNoPiece, Stops, IsSeenOf, OnlyReads, ReadsPiece};
ghost use Rattle.zorder.specs.Width.{IsWidth};
ghost use Rattle.recovery.specs.Wanted.{MayTell};
ghost use Rattle.recovery.specs.Room.{IsNoLess, HasRoom, HasRoomForMore};

use crate::heads::read_wanted;
use crate::pieces::{CELL, damaged, walk_front};
use crate::replay::Replay;
use crate::room::Room;
use crate::seen::{OpenFault, Seen};
use crate::walked::Walked;
use crate::wanted::Wanted;
use cell_format::Cause;
use disk_trait::{DiskFault, LogDisk};
use split_log::{CELL_BYTES, HEADER_BYTES};
use std::alloc::{AllocError, Global};
use std::marker::Model;

/// The number of bytes that one call reads: 2,048 cells, and the commit byte after them.
const PIECE: usize = 65_537;

/// How far a log was read: the state after its cells so far, and the unread rest of the last piece.
#[derive(Drop)]
pub(crate) struct Reading {
    replay: Replay,
    buffer: Vec<u8>,
    /// The place of the next cell's commit byte in the buffer.
    at: usize,
    /// The number of bytes in the buffer that were read from the drive.
    filled: usize,
    number: u64,
    most: u64,
    len: u64,
}

impl Model for Reading {
    ghost use Rattle.std.specs.Prelude.{take, drop};
    ghost use Rattle.recovery.specs.Faults.{IsInBytes};
    ghost use Rattle.recovery.specs.Reading.{ReadingView, IsReading};

    ghost Value = { ReadingView };

    ghost view = { λ r. record { replay = r.replay; number = r.number; most = r.most; len = r.len; rest = drop r.at (take r.filled r.buffer.items) } };

    ghost invariant = { λ r. IsReading r.at r.filled r.number r.most r.len r.buffer.items };
}

impl Reading {
    /// Reads the head of a wanted log.
    pub(crate) fn start<D: LogDisk>(
        alloc: Global,
        disk: &mut D,
        oldest: u8,
        wanted: Wanted,
    ) -> Result<Reading, OpenFault>
        requires oldest { 1 ≤ oldest }
        requires width { IfSome wanted.width IsWidth }

        ensures ok { IfOk result (StartsFor oldest wanted.width wanted.most (D.drive disk.old)) }
        ensures err { IfErr result (ShowsFault oldest wanted.width wanted.most (D.drive disk.old)) }
        ensures head { IfErr result (λ e. IsOfHead e × MayTell oldest wanted.width wanted.most e) }
        ensures reads { OnlyReads (D.drive disk.old) (D.drive disk.new) result }
    {
        let len = disk.len()?;
        let head = read_wanted(disk, len, oldest, wanted.width)?;
        let replay = Replay::new(alloc, head.version, head.width)?;
        let buffer = vec![in alloc; 0; PIECE]?;
        Ok(Reading {
            replay,
            buffer,
            at: 0,
            filled: 0,
            number: 0,
            most: wanted.most,
            len,
        })
    }

    /// Processes the next cell, if there is one.
    pub(crate) fn advance<D: LogDisk>(&mut self, disk: &mut D) -> Result<Option<Walked>, OpenFault>
        ensures advances { Advances (D.drive disk.old) self.old self.new result }
        ensures reads { OnlyReads (D.drive disk.old) (D.drive disk.new) result }
    {
        self.fill(disk)?;
        self.walk_on()
    }

    /// Reads the next piece, from the commit byte of the next cell on, if the rest of the last piece doesn't decide the
    /// next cell.
    fn fill<D: LogDisk>(&mut self, disk: &mut D) -> Result<(), OpenFault>
        ensures ok { OnOk result (IsFilled (D.drive disk.old) self.old self.new) }
        ensures err { IfErr result (λ e. IsEmptied self.old self.new × Stops (D.drive disk.old) self.old e) }
        ensures reads { OnlyReads (D.drive disk.old) (D.drive disk.new) result }
    {
        if !self.needs_piece() {
            return Ok(());
        }
        self.at = 0;
        self.filled = 0;
        let from = HEADER_BYTES + CELL_BYTES * self.number;
        let got = read_piece(disk, &mut self.buffer, from, self.len)?;
        if got == 0 {
            return Err(self.unread());
        }
        self.filled = got;
        Ok(())
    }

    /// The fault if the next commit byte, which the file has, can no longer be read. The byte counts as set.
    fn unread(&self) -> OpenFault
        ensures behind { IsBehind self.now.most self.now.number result }
        ensures other { IsInBytes result }
    {
        if self.number == self.most {
            return OpenFault::TooLong { most: self.most };
        }
        damaged(self.number, Cause::ShortCell)
    }

    /// Whether the rest of the piece doesn't decide the next cell.
    fn needs_piece(&self) -> bool
        ensures { result ≡ false → NeedsNoPiece self.now }
    {
        let rest = &self.buffer[self.at..self.filled];
        rest.len() <= CELL && (rest.is_empty() || rest[0] == 1 && self.number < self.most)
    }

    /// Processes the cell at the front of the rest of the piece.
    fn walk_on(&mut self) -> Result<Option<Walked>, OpenFault>
        requires { 1 ≤ length self.old.rest }
        ensures { WalksOn self.old self.new result }
    {
        let piece = &self.buffer[self.at..self.filled];
        let Some(walked) = walk_front(&mut self.replay, piece, self.number, self.most)? else {
            return Ok(None);
        };
        self.at += CELL;
        self.number += 1;
        Ok(Some(walked))
    }

    /// Reserves memory for what was found so far, and for what the next cell may add.
    pub(crate) fn make_room(&self, room: &mut Room) -> Result<(), AllocError>
        ensures more { OnOk result (HasRoomForMore self.now.replay.state room.new) }
        ensures kept { IsNoLess room.old room.new }
    {
        self.replay.make_room(room)
    }

    /// What was found so far, in memory that was reserved before.
    pub(crate) fn seen_in(&self, room: Room) -> Seen
        requires { HasRoom self.now.replay.state room }
        ensures { IsSeenOf self.now result }
    {
        self.replay.seen_in(room, self.number)
    }

    /// The width that the head names.
    pub(crate) fn width(&self) -> u8
        ensures is { result ≡ self.now.replay.width }
        ensures known { IsWidth self.now.replay.width }
    {
        self.replay.width()
    }

    /// The length of the file in bytes.
    pub(crate) fn len(&self) -> u64
        ensures { result ≡ self.now.len }
    {
        self.len
    }
}

/// Reads a file of `len` bytes from `at` to its end, as far as the buffer has room.
fn read_piece<D: LogDisk>(
    disk: &mut D,
    buffer: &mut [u8],
    at: u64,
    len: u64,
) -> Result<usize, DiskFault>
    requires within { at < len }
    requires long { length buffer.old ≡ 65537 }

    ensures ok { IfOk result (ReadsPiece (D.drive disk.old) at (min 65537 (len - at)) buffer.new) }
    ensures stays { Stays (D.drive disk.old) (D.drive disk.new) }
    ensures cause { CountsFaults (D.drive disk.old) (D.drive disk.new) result }
    ensures long { length buffer.new ≡ 65537 }
{
    let room = (len - at).min(PIECE as u64) as usize;
    disk.read(at, &mut buffer[..room])
}
