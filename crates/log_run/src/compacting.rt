//! The command `compact`: writes the content of a log as a new log to another file.
ghost use Rattle.std.specs.Prelude.{◌≡◌, ◌≢◌, ◌≤◌, [], true, IfOk, IfErr, MatchResult, length};
ghost use Rattle.disk_trait.specs.Drive.{AttachedOne};
ghost use Rattle.plain_list.specs.State.{ComesBySplits};
ghost use Rattle.zorder.specs.Width.{IsWidth};
ghost use Rattle.run_ends.specs.Ends.{written_by};
ghost use Rattle.run_ends.specs.Limits.{most_inspected};
ghost use Rattle.run_ends.specs.Status.{status_of};
ghost use Rattle.run_ends.specs.Attaching.{AttachesOnce};
ghost use Rattle.log_run.specs.Making.{IsMakingCause};
ghost use Rattle.log_run.specs.Compacting.{CompactsLog, EndsAnew, MakesAnew, LeavesNew, compact_refusal, anew};

use crate::checking::find;
use disk_trait::LogDisk;
use io_edge::Sink;
use log_compact::{CompactFault, CompactRefused, compact, count_fresh};
use recovery::SeenLog;
use run_ends::{
    Drives, Ended, Refusal, Unmade, attach, put_refusal, refuse_on, without_rows, write_compacted,
    written,
};
use std::alloc::Global;

/// Writes the content of the log in `file` as a new log to the file `name` on the other drive. The first drive is only
/// read.
pub fn compact_log<K: Sink, D: LogDisk>(
    alloc: Global,
    file: &str,
    name: &str,
    sink: &mut K,
    drives: Drives<D>,
) -> Ended<D>
    ensures { CompactsLog file.now name.now (written_by K.output D.drive sink.old drives sink.new result) }
{
    let Drives { mut disk, other } = drives;
    match find(alloc, file, &mut disk) {
        Ok(found) => write_anew(alloc, &found, name, sink, Drives { disk, other }),
        Err(why) => refuse_on(alloc, &why, sink, Drives { disk, other }),
    }
}

// Writes what was found as a new log to the other drive, and then how many records it has.
fn write_anew<K: Sink, D: LogDisk>(
    alloc: Global,
    found: &SeenLog,
    name: &str,
    sink: &mut K,
    drives: Drives<D>,
) -> Ended<D>
    requires width { IsWidth found.now.width }
    requires splits { ComesBySplits found.now.width found.now.seen.leaves }
    requires few { length (anew found.now.width found.now.seen.world found.now.seen.leaves) ≤ most_inspected }
    ensures ends { EndsAnew found.now.width found.now.seen.world found.now.seen.leaves name.now (D.drive drives.other)
        (D.drive result.drives.other) result.status (K.output sink.old) (K.output sink.new) }
    ensures none { result.history ≡ [] }
    ensures disk { result.drives.disk ≡ drives.disk }
{
    let Drives { disk, other } = drives;
    match anew_in(alloc, found, name, other) {
        Ok(other) => {
            let count = count_fresh(&found.seen, found.width);
            let status = written(write_compacted(sink, count));
            without_rows(alloc, status, Drives { disk, other })
        }
        Err(Unmade { disk: other, why }) => refuse_on(alloc, &why, sink, Drives { disk, other }),
    }
}

fn anew_in<D: LogDisk>(
    alloc: Global,
    found: &SeenLog,
    name: &str,
    mut other: D,
) -> Result<D, Unmade<D>>
    requires width { IsWidth found.now.width }
    requires splits { ComesBySplits found.now.width found.now.seen.leaves }
    requires few { length (anew found.now.width found.now.seen.world found.now.seen.leaves) ≤ most_inspected }
    ensures made { IfOk result (λ new. MakesAnew found.now.width found.now.seen.world found.now.seen.leaves (D.drive other) (D.drive new)) }
    ensures cause { IfErr result (λ e. IsMakingCause (D.drive other) (D.drive e.disk) e.why) }
    ensures attached { MatchResult result (λ new. AttachedOne name.now true (D.drive other) (D.drive new))
        (λ e. AttachesOnce name.now true (D.drive other) (D.drive e.disk) (status_of e.why)) }
    ensures calm { IfErr result (λ e. status_of e.why ≢ 7 → (D.drive e.disk).faults ≡ (D.drive other).faults) }
    ensures leaves { let fresh = anew found.now.width found.now.seen.world found.now.seen.leaves in
        MatchResult result (λ new. LeavesNew found.now.width fresh (D.drive other) (D.drive new))
        (λ e. LeavesNew found.now.width fresh (D.drive other) (D.drive e.disk)) }
{
    if let Err(why) = attach(alloc, name, true, &mut other) {
        return Err(Unmade { disk: other, why });
    }
    match compact(&found.seen, found.width, other) {
        Ok(other) => Ok(other),
        Err(CompactRefused { disk, cause }) => {
            let why = compact_refusal(cause);
            Err(Unmade { disk, why })
        }
    }
}

fn compact_refusal(fault: CompactFault) -> Refusal
    ensures { result ≡ compact_refusal fault }
{
    match fault {
        CompactFault::InUse { len } => Refusal::InUse { len },
        CompactFault::Disk => Refusal::Disk { cell: None },
    }
}
