//! The fences of a source, or why there are none to watch.
ghost use Rattle.std.specs.Prelude.{◌≡◌, ◌≢◌, ◌≤◌, ◌+◌, Ok, Err, IfOk, IfErr, length};
ghost use Rattle.io_edge.specs.Reads.{ConsumesUpTo};
ghost use Rattle.run_ends.specs.Limits.{most_bytes};
ghost use Rattle.run_ends.specs.Tables.{IsTableCause, ReadsTable, judged_by};
ghost use Rattle.watch_run.specs.FenceRows.{fences_of_text};

use crate::fence_rows::read_fences;
use fence_watch::Fences;
use io_edge::Source;
use run_ends::{Refusal, read_bytes, refusal_of};
use std::alloc::Global;

/// Reads the fences of the source. The order of refusals: source, length of the input, fences.
pub(crate) fn read_watched<S: Source>(alloc: Global, source: &mut S) -> Result<Fences, Refusal>
    ensures fences { IfOk result (ReadsTable fences_of_text (S.input source.old) (S.input source.new)) }
    ensures cause { IfErr result (IsTableCause fences_of_text (S.input source.old) (S.input source.new)) }
    ensures calm { IfErr result (λ why. why ≢ Refusal.Source → (S.input source.new).faults ≡ (S.input source.old).faults) }
    ensures taken { ConsumesUpTo (most_bytes + 1) (S.input source.old).left (S.input source.new).left }
{
    match read_bytes(alloc, source) {
        Ok(bytes) => judge(alloc, bytes.as_slice()),
        Err(why) => Err(why),
    }
}

// The fences of an input that isn't too long.
fn judge(alloc: Global, bytes: &[u8]) -> Result<Fences, Refusal>
    requires { length bytes.now ≤ most_bytes }
    ensures fences { IfOk result (λ fences. judged_by fences_of_text bytes.now ≡ Ok fences) }
    ensures cause { IfErr result (λ why. why ≢ Refusal.Memory → judged_by fences_of_text bytes.now ≡ Err why) }
{
    match read_fences(alloc, bytes) {
        Ok(fences) => Ok(fences),
        Err(fault) => Err(refusal_of(fault)),
    }
}
