//! The entries of a record: how each is replayed, and which bytes it leaves free.
ghost use Rattle.std.specs.Prelude.{◌≡◌, ◌+◌, ◌<◌, ◌≤◌, length, IfOk, OnOk, OnErr, [], vec_capacity};
ghost use Rattle.std.specs.List.{All, list_any};
ghost use Rattle.disk_mem.specs.Pending.{is_in, Paints};
ghost use Rattle.disk_mem.specs.Changes.{over, held_after, started, changed_by};
ghost use Rattle.disk_mem.specs.Recorded.{change_of, changes_of, IsStored, range_of, ranges_of};

use std::alloc::{AllocError, Global};

/// An entry of the record. The bytes of a write are in the record's list of pieces, from `from` on.
#[derive(Clone, Copy)]
pub enum Touch {
    Wrote { at: usize, from: usize, len: usize },
    FailedWrite { at: usize, len: usize },
    DidCut { len: usize },
    FailedCut { len: usize },
    Synced,
    FailedSync,
}

impl Touch {
    /// Returns the start and the length of the range that a write touches.
    fn range(self) -> Option<(usize, usize)>
        ensures { result ≡ range_of self }
    {
        match self {
            Touch::Wrote { at, len, .. } | Touch::FailedWrite { at, len } => Some((at, len)),
            Touch::DidCut { .. } | Touch::FailedCut { .. } | Touch::Synced | Touch::FailedSync =>
                None,
        }
    }
}

/// Writes a piece over a file's bytes, and past their end.
pub fn put(file: &mut Vec<u8>, at: usize, piece: &[u8]) -> Result<(), AllocError>
    ensures put { OnOk result (file.new.items ≡ over at piece.now file.old.items) }
    ensures capacity { vec_capacity file.old ≤ vec_capacity file.new }
    ensures full { OnErr result (vec_capacity file.old < at + length piece.now) }
{
    let at = at.min(file.len());
    let end = at + piece.len();
    if file.len() < end {
        file.resize(end, 0)?;
    }
    file[at..end].copy_from_slice(piece);
    Ok(())
}

/// Applies an entry again to the bytes that a read returns.
fn redo(file: &mut Vec<u8>, touch: Touch, pieces: &[u8]) -> Result<(), AllocError>
    requires { IsStored (length pieces.now) touch }
    ensures { OnOk result (file.new.items ≡ held_after file.old.items (change_of pieces.now touch)) }
{
    match touch {
        Touch::Wrote { at, from, len } => put(file, at, &pieces[from..from + len]),
        Touch::DidCut { len } => {
            file.truncate(len);
            Ok(())
        }
        Touch::FailedWrite { .. } | Touch::FailedCut { .. } | Touch::Synced | Touch::FailedSync =>
            Ok(()),
    }
}

/// Returns what a read returned after these entries.
pub fn replayed(
    alloc: Global,
    first: &[u8],
    touches: &[Touch],
    pieces: &[u8],
) -> Result<Vec<u8>, AllocError>
    requires { All (IsStored (length pieces.now)) touches.now }
    ensures { IfOk result (λ v. v.items ≡ (changed_by (started first.now) (changes_of pieces.now touches.now)).held) }
{
    let mut file = Vec::from_slice(alloc, first)?;
    for touch in touches {
        redo(&mut file, *touch, pieces)?;
    }
    Ok(file)
}

/// Writes a repeated pattern into the bytes of a range.
fn paint(image: &mut [u8], at: usize, len: usize, fill: &[u8])
    requires { 0 < length fill.now }
    ensures { Paints (λ i. is_in i (at, len)) fill.now (length image.old) image.old image.new }
{
    let end = at.saturating_add(len).min(image.len());
    for i in at..end {
        image[i] = fill[i % fill.len()];
    }
}

/// Writes a repeated pattern into each range that these entries touch.
pub fn paint_touched(image: &mut [u8], touches: &[Touch], fill: &[u8])
    requires { 0 < length fill.now }
    ensures { Paints (λ i. list_any (is_in i) (ranges_of [] touches.now)) fill.now (length image.old) image.old image.new }
{
    for touch in touches {
        if let Some((at, len)) = touch.range() {
            paint(image, at, len, fill);
        }
    }
}
