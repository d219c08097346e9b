//! Building one crash image of a file from its record.
ghost use Rattle.std.specs.Prelude.{◌≡◌, ◌<◌, ◌≤◌, nat_le, length, IfOk};
ghost use Rattle.std.specs.List.{All};
ghost use Rattle.disk_mem.specs.Pending.{Paints, Picks};
ghost use Rattle.disk_mem.specs.Recorded.{IsStored};
ghost use Rattle.disk_mem.specs.Scans.{file_by};

use crate::scans::Scan;
use crate::touches::{Touch, paint_touched, replayed};
use std::alloc::{AllocError, Global};

/// Returns the stable bytes up to `cut`, and a repeated pattern from there to `len`.
fn unpainted(
    alloc: Global,
    stable: &[u8],
    cut: usize,
    len: usize,
    fill: &[u8],
) -> Result<Vec<u8>, AllocError>
    requires filled { 0 < length fill.now }
    requires within { cut ≤ length stable.now }
    ensures long { IfOk result (λ v. length v.items ≡ len) }
    ensures bytes { IfOk result (λ v. Paints (nat_le cut) fill.now len stable.now v.items) }
{
    let mut image = Vec::with_capacity(alloc, len)?;
    for i in 0..len {
        let byte = if i < cut {
            stable[i]
        } else {
            fill[i % fill.len()]
        };
        image.push(byte)?;
    }
    Ok(image)
}

/// Returns the crash image after these calls with the length nearest to `len`, and a repeated pattern in its free
/// bytes.
pub fn image_of(
    alloc: Global,
    first: &[u8],
    touches: &[Touch],
    pieces: &[u8],
    len: usize,
    fill: &[u8],
) -> Result<Vec<u8>, AllocError>
    requires stored { All (IsStored (length pieces.now)) touches.now }
    requires filled { 0 < length fill.now }
    ensures { IfOk result (λ v. Picks (file_by first.now pieces.now touches.now).pending len fill.now v.items) }
{
    let scan = Scan::of(first, touches);
    let (settled, since) = touches.split_at(scan.synced);
    let stable = replayed(alloc, first, settled, pieces)?;
    let len = scan.least.max(len.min(scan.greatest));
    let mut image = unpainted(alloc, &stable, scan.cut, len, fill)?;
    paint_touched(&mut image, since, fill);
    Ok(image)
}
