//! Walks over the cells of a log.
ghost use Rattle.std.specs.Prelude.{◌≡◌, ◌⊎◌, ◌≤◌, ℕ, List, [], length, Some, Ok, Err, slice_index, IfOk, IfErr, IfSome, MatchResult};
ghost use Rattle.cell_format.specs.declared.cell.Cell.{Cell};
ghost use Rattle.log_state.specs.Recovers.{Recovers};
ghost use Rattle.recovery.specs.declared.seen.OpenFault.{OpenFault};
ghost use Rattle.recovery.specs.Faults.{IsFault, IsInBytes, IsOfHead, ShowsFault};
ghost use Rattle.recovery.specs.Found.{Finds, IsWanted};
ghost use Rattle.recovery.specs.Reading.{StartsFor, OnlyReads};
ghost use Rattle.recovery.specs.Room.{HasRoom};
ghost use Rattle.recovery.specs.Walks.{BeginsWalk, ComesTo, RefusesWalk, TellsWalked, TellsFault, TellsAll};
ghost use Rattle.zorder.specs.Width.{IsWidth};
ghost use Rattle.recovery.specs.Wanted.{MayTell};

use crate::reading::Reading;
use crate::room::Room;
use crate::seen::{OpenFault, OpenRefused, Seen};
use crate::walked::Walked;
use crate::wanted::{FIRST, Wanted};
use disk_trait::LogDisk;
use std::alloc::Global;
use std::marker::Model;

/// A walk over the cells of a log, from the first one on.
#[derive(Drop)]
pub struct Walk<D: LogDisk> {
    disk: D,
    reading: Reading,
    room: Room,
}

impl<D: LogDisk> Model for Walk<D> {
    ghost use Rattle.recovery.specs.Room.{HasRoom};
    ghost use Rattle.recovery.specs.Walks.{WalkView};

    ghost Value = { WalkView D };

    ghost view = { λ w. record { disk = w.disk; reading = w.reading } };

    ghost invariant = { λ w. HasRoom w.reading.replay.state w.room };
}

/// The drive, returned, and what the cells that were walked record.
#[derive(Drop)]
pub struct WalkEnd<D: Drop> {
    pub disk: D,
    pub seen: Seen,
}

impl<D: LogDisk> Walk<D> {
    /// Begins before the first cell of a wanted log of version 1 or 2, with the width that its head names.
    pub fn along(alloc: Global, mut disk: D, wanted: Wanted) -> Result<Walk<D>, OpenRefused<D>>
        requires width { IfSome wanted.width IsWidth }

        ensures begins { IfOk result (λ w. BeginsWalk wanted.width wanted.most w.reading.replay.width (D.drive disk) (D.drive w.disk) w) }
        ensures refused { IfErr result (λ e. RefusesWalk wanted.width wanted.most (D.drive disk) (D.drive e.disk) e.cause) }
        ensures reads { MatchResult result (λ w. OnlyReads {T = Unit {0}} (D.drive disk) (D.drive w.disk) (Ok tt))
            (λ e. OnlyReads {T = Unit {0}} (D.drive disk) (D.drive e.disk) (Err e.cause)) }
    {
        match read_first(alloc, &mut disk, wanted) {
            Ok((reading, room)) => Ok(Walk {
                disk,
                reading,
                room,
            }),
            Err(cause) => Err(OpenRefused { disk, cause }),
        }
    }

    /// The same as `along`, for a log whose splits create `2 ^ width` children.
    pub fn start(alloc: Global, disk: D, width: u8, most: u64) -> Result<Walk<D>, OpenRefused<D>>
        requires width { IsWidth width }

        ensures begins { IfOk result (λ w. BeginsWalk (Some width) most width (D.drive disk) (D.drive w.disk) w) }
        ensures refused { IfErr result (λ e. RefusesWalk (Some width) most (D.drive disk) (D.drive e.disk) e.cause) }
        ensures reads { MatchResult result (λ w. OnlyReads {T = Unit {0}} (D.drive disk) (D.drive w.disk) (Ok tt))
            (λ e. OnlyReads {T = Unit {0}} (D.drive disk) (D.drive e.disk) (Err e.cause)) }
    {
        let width = Some(width);
        Walk::along(alloc, disk, Wanted { width, most })
    }

    /// The width of the log's splits.
    pub fn width(&self) -> u8
        ensures is { result ≡ self.now.reading.replay.width }
        ensures known { IsWidth self.now.reading.replay.width }
    {
        self.reading.width()
    }

    /// Returns the next cell, or `None` after the last one. An error leaves the walk where it was, so `finish` still
    /// returns what the cells before it record.
    pub fn next(&mut self) -> Result<Option<Walked>, OpenFault>
        ensures tells { (w most : ℕ) (cells : List Cell) → ComesTo w most cells (D.drive self.old.disk) self.old
            → TellsWalked w most cells (D.drive self.old.disk) (D.drive self.new.disk) self.new result }
        ensures exact { (w most : ℕ) (cells : List Cell) (bytes : List ℕ) (fault : OpenFault)
            → ComesTo w most cells (D.drive self.old.disk) self.old → (D.drive self.old.disk).bytes ≡ Some bytes → IsInBytes fault
            → IsFault 1 (Some w) most bytes fault → TellsFault fault (D.drive self.old.disk) (D.drive self.new.disk) result }
        ensures whole { (w most : ℕ) (all cells : List Cell) (bytes : List ℕ)
            → ComesTo w most cells (D.drive self.old.disk) self.old → (D.drive self.old.disk).bytes ≡ Some bytes → Recovers w all bytes
            → length all ≤ most → TellsAll all cells (D.drive self.old.disk) (D.drive self.new.disk) result }
        ensures reads { OnlyReads (D.drive self.old.disk) (D.drive self.new.disk) result }
    {
        self.reading.make_room(&mut self.room)?;
        self.reading.advance(&mut self.disk)
    }

    /// Returns the drive and what the cells walked so far record. It takes no memory.
    pub fn finish(self) -> WalkEnd<D>
        ensures found { (w most : ℕ) (cells : List Cell) → ComesTo w most cells (D.drive self.disk) self → Finds w cells result.seen }
        ensures named { (w most : ℕ) (cells : List Cell) (bytes : List ℕ) → ComesTo w most cells (D.drive self.disk) self
            → (D.drive self.disk).bytes ≡ Some bytes → result.seen.version ≡ slice_index bytes 8 }
        ensures wanted { IsWanted 1 result.seen.version }
        ensures disk { result.disk ≡ self.disk }
    {
        let Walk {
            disk,
            reading,
            room,
        } = self;
        WalkEnd {
            disk,
            seen: reading.seen_in(room),
        }
    }
}

/// Reads the head of a wanted log, and reserves the memory that `finish` needs if no cell is walked.
fn read_first<D: LogDisk>(
    alloc: Global,
    disk: &mut D,
    wanted: Wanted,
) -> Result<(Reading, Room), OpenFault>
    requires width { IfSome wanted.width IsWidth }

    ensures starts { IfOk result (λ r. StartsFor 1 wanted.width wanted.most (D.drive disk.old) r.0 × HasRoom r.0.replay.state r.1) }
    ensures fault { IfErr result (ShowsFault 1 wanted.width wanted.most (D.drive disk.old)) }
    ensures head { IfErr result (λ e. IsOfHead e × MayTell 1 wanted.width wanted.most e) }
    ensures reads { OnlyReads (D.drive disk.old) (D.drive disk.new) result }
{
    let reading = Reading::start(alloc, disk, FIRST, wanted)?;
    let mut room = Room::new(alloc);
    reading.make_room(&mut room)?;
    Ok((reading, room))
}
