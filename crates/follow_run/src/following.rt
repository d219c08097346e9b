//! The command `follow`. It reads the leader's cells, and copies them to the second file along the turns of a source.
ghost use Rattle.std.specs.Prelude.{◌≡◌, ◌≢◌, ◌+◌, [], IfOk, IfErr};
ghost use Rattle.io_edge.specs.Reads.{ConsumesUpTo};
ghost use Rattle.follower.specs.Follow.{AreTurns};
ghost use Rattle.follow_run.specs.TurnRows.{turns_of_text};
ghost use Rattle.run_ends.specs.Ends.{done_by, targets};
ghost use Rattle.run_ends.specs.Limits.{most_bytes};
ghost use Rattle.run_ends.specs.Tables.{IsTableCause, ReadsTable};
ghost use Rattle.follow_run.specs.Following.{EndsFollowing, Follows};

use crate::leader::{Leader, find_leader};
use crate::replica::copy_to;
use crate::turn_rows::read_turns;
use disk_trait::LogDisk;
use follower::{Turn, Turns};
use io_edge::{Sink, Source};
use run_ends::{Drives, Ended, Refusal, Unmade, read_bytes, refusal_of, refuse_on};
use std::alloc::Global;

/// Copies the cells of the log in `file` on the first drive to `name` on the other drive, along the turns of the
/// source. Writes the report of each turn. It only reads the first drive.
pub fn follow_log<S: Source, K: Sink, D: LogDisk>(
    alloc: Global,
    file: &str,
    name: &str,
    source: &mut S,
    sink: &mut K,
    drives: Drives<D>,
) -> Ended<D>
    ensures { Follows file.now name.now (done_by S.input K.output D.drive source.old sink.old drives source.new sink.new result) }
{
    match turns_in(alloc, source) {
        Ok(turns) => follow_turns(alloc, file, name, turns.as_slice(), sink, drives),
        Err(why) => refuse_on(alloc, &why, sink, drives),
    }
}

// The turns of a source. The order of refusals: source, length of the input, turns.
fn turns_in<S: Source>(alloc: Global, source: &mut S) -> Result<Turns, Refusal>
    ensures turns { IfOk result (ReadsTable turns_of_text (S.input source.old) (S.input source.new)) }
    ensures cause { IfErr result (IsTableCause turns_of_text (S.input source.old) (S.input source.new)) }
    ensures calm { IfErr result (λ why. why ≢ Refusal.Source → (S.input source.new).faults ≡ (S.input source.old).faults) }
    ensures taken { ConsumesUpTo (most_bytes + 1) (S.input source.old).left (S.input source.new).left }
{
    match read_bytes(alloc, source) {
        Ok(bytes) => match read_turns(alloc, bytes.as_slice()) {
            Ok(turns) => Ok(turns),
            Err(fault) => Err(refusal_of(fault)),
        },
        Err(why) => Err(why),
    }
}

// Reads the leader's cells, and follows them along turns.
fn follow_turns<K: Sink, D: LogDisk>(
    alloc: Global,
    file: &str,
    name: &str,
    turns: &[Turn],
    sink: &mut K,
    drives: Drives<D>,
) -> Ended<D>
    requires turns { AreTurns turns.now }
    ensures ends { EndsFollowing file.now name.now turns.now (targets K.output D.drive sink.old drives)
        (targets K.output D.drive sink.new result.drives) result.status }
    ensures none { result.history ≡ [] }
{
    let Drives { disk, other } = drives;
    match find_leader(alloc, file, disk) {
        Ok(Leader { disk, cells, width }) => {
            let drives = Drives { disk, other };
            copy_to(alloc, cells.as_slice(), width, turns, name, sink, drives)
        }
        Err(Unmade { disk, why }) => refuse_on(alloc, &why, sink, Drives { disk, other }),
    }
}
