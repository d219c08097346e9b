//! A file in memory with a record of all calls that changed or synced it.
ghost use Rattle.std.specs.Prelude.{◌≡◌, ◌+◌, ◌^◌, ◌<◌, ◌≤◌, nat_le, ◌&&◌, [], length, IfOk};

use crate::images::image_of;
use crate::touches::{Touch, put};
use std::alloc::{AllocError, Global};
use std::marker::Model;

/// The bytes at the start, the bytes now, and the record. Its memory suffices for all writes, so no call takes memory.
#[derive(Drop)]
pub struct RecordedFile {
    first: Vec<u8>,
    held: Vec<u8>,
    pieces: Vec<u8>,
    touches: Vec<Touch>,
    room: usize,
}

impl Model for RecordedFile {
    ghost use Rattle.disk_mem.specs.Recorded.{FileView};

    ghost Value = { FileView };

    ghost use Rattle.disk_mem.specs.Kept.{recorded_view, IsKept};

    ghost view = { recorded_view };

    ghost invariant = { IsKept };
}

impl RecordedFile {
    ghost use Rattle.disk_mem.specs.Pending.{Picks};
    ghost use Rattle.disk_mem.specs.Changes.{wrote, did_cut, written};
    ghost use Rattle.disk_mem.specs.Recorded.{change_of, noted, file_of, file_after, IsIdle};

    pub fn new(
        alloc: Global,
        first: Vec<u8>,
        room: usize,
        calls: usize,
    ) -> Result<RecordedFile, AllocError>
        ensures first { IfOk result (λ f. f.first ≡ first.items) }
        ensures changes { IfOk result (λ f. f.changes ≡ []) }
        ensures room { IfOk result (λ f. f.room ≡ room) }
        ensures spare { IfOk result (λ f. f.spare ≡ calls) }
    {
        let mut held = Vec::with_capacity(alloc, room.max(first.len()))?;
        held.extend_from_slice(&first)?;
        let pieces = Vec::with_capacity(alloc, room)?;
        let touches = Vec::with_capacity(alloc, calls)?;
        Ok(RecordedFile {
            first,
            held,
            pieces,
            touches,
            room,
        })
    }

    pub fn held(&self) -> &[u8]
        ensures { result.now ≡ (file_of self.now).held }
    {
        &self.held
    }

    /// Returns how many calls have changed or synced the file.
    pub fn moments(&self) -> usize
        ensures { result ≡ length self.now.changes }
    {
        self.touches.len()
    }

    pub fn has_room(&self, at: usize, len: usize) -> bool
        requires { at + len ≤ 2 ^ 40 }
        ensures { result ≡ (nat_le (at + len) self.now.room && nat_le (written self.now.changes + len) self.now.room) }
    {
        at + len <= self.room && self.pieces.len() + len <= self.room
    }

    /// Records a call that leaves what a read returns.
    pub fn note(&mut self, touch: Touch)
        requires idle { IsIdle touch }
        requires spare { 0 < self.old.spare }
        ensures { self.new ≡ noted (change_of [] touch) self.old }
    {
        self.touches.push_reserved(touch);
    }

    pub fn write(&mut self, at: usize, piece: &[u8])
        requires small { at + length piece.now ≤ 2 ^ 40 }
        requires spare { 0 < self.old.spare }
        requires room { at + length piece.now ≤ self.old.room }
        requires pieces { written self.old.changes + length piece.now ≤ self.old.room }
        ensures { self.new ≡ noted (wrote at piece.now) self.old }
    {
        self.touches.push_reserved(Touch::Wrote {
            at,
            from: self.pieces.len(),
            len: piece.len(),
        });
        // Both lists have room for the piece, so neither call can fail.
        let _ = self.pieces.extend_from_slice(piece);
        let _ = put(&mut self.held, at, piece);
    }

    pub fn cut(&mut self, len: usize)
        requires { 0 < self.old.spare }
        ensures { self.new ≡ noted (did_cut len) self.old }
    {
        self.touches.push_reserved(Touch::DidCut { len });
        self.held.truncate(len);
    }

    /// Returns the crash image after `moment` calls with the length nearest to `len`, and a repeated pattern in its
    /// free bytes.
    pub fn image(&self, moment: usize, len: usize, fill: &[u8]) -> Result<Vec<u8>, AllocError>
        requires moment { moment ≤ length self.now.changes }
        requires filled { 0 < length fill.now }
        ensures { IfOk result (λ v. Picks (file_after moment self.now).pending len fill.now v.items) }
    {
        let alloc = *self.first.allocator();
        image_of(
            alloc,
            &self.first,
            &self.touches[..moment],
            &self.pieces,
            len,
            fill,
        )
    }
}
