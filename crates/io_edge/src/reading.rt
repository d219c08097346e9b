//! Reading a source to its end, up to a bound.
ghost use Rattle.std.specs.Prelude.{◌≡◌, ◌+◌, ◌≤◌, ◌<◌, List, [], ℕ, Some, IfOk, IsErrOf, IsOkUnless, OnOk, ◌++◌, length};
ghost use Rattle.io_edge.specs.Reads.{ConsumesUpTo, CountsReads};

use crate::source::{ReadFault, Source};
use std::alloc::Global;

// The number of bytes that one read may return.
const PIECE: usize = 65_536;

/// Reads all bytes that `source` has left, at most `most` bytes. It takes at most one byte more, to find the end.
pub fn read_all<S: Source>(alloc: Global, source: &mut S, most: usize) -> Result<Vec<u8>, ReadFault>
    // Ok has all bytes that were left, and none is left after it.
    ensures all { IfOk result (λ v. (xs : List ℕ) → (S.input source.old).left ≡ Some xs
        → (v.items ≡ xs) × ((S.input source.new).left ≡ Some [])) }

    // More than `most` bytes are never Ok, and TooLong has no other cause.
    ensures few { IfOk result (λ v. length v.items ≤ most) }
    ensures too_long { IsErrOf result ReadFault.TooLong → (xs : List ℕ) → (S.input source.old).left ≡ Some xs → most < length xs }

    // Whatever the result, the source loses a prefix of its bytes.
    ensures taken { ConsumesUpTo (most + 1) (S.input source.old).left (S.input source.new).left }

    // The source's fault comes only if its count rose, and a failed read is never skipped.
    ensures count { CountsReads (S.input source.old).faults (S.input source.new).faults result }
{
    let mut buffer = buffer(alloc)?;
    let piece = buffer.as_mut_slice();
    let mut all = Vec::new(alloc);
    loop {
        let rest = most - all.len();
        let room = rest.min(piece.len() - 1) + 1;
        match source.read(&mut piece[..room]) {
            Ok(0) => return Ok(all),
            Ok(n) if n > rest => return Err(ReadFault::TooLong),
            Ok(n) => keep(&mut all, &piece[..n])?,
            Err(_) => return Err(ReadFault::Source),
        }
    }
}

// The buffer for each piece. It is on the heap because a function pays at entry for its locals.
fn buffer(alloc: Global) -> Result<Vec<u8>, ReadFault>
    ensures room { IfOk result (λ v. 0 < length v.items) }
    ensures memory { IsOkUnless result ReadFault.Memory }
{
    Ok(vec![in alloc; 0u8; PIECE]?)
}

fn keep(all: &mut Vec<u8>, piece: &[u8]) -> Result<(), ReadFault>
    ensures items { OnOk result (all.new.items ≡ all.old.items ++ piece.now) }
    ensures memory { IsOkUnless result ReadFault.Memory }
{
    all.extend_from_slice(piece)?;
    Ok(())
}
