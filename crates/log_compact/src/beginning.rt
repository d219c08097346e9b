//! Begins a log with a world and its leaves.
ghost use Rattle.std.specs.Prelude.{◌≡◌, ◌⊎◌, ◌<◌, None, length, IfOk, IfErr, MatchResult, MatchOption};
ghost use Rattle.zorder.specs.Width.{IsWidth};
ghost use Rattle.plain_list.specs.State.{ComesBySplits};
ghost use Rattle.split_log.specs.LogView.{most_cells};
ghost use Rattle.log_compact.specs.Fresh.{fresh_cells};
ghost use Rattle.log_compact.specs.State.{IsStateOf};
ghost use Rattle.log_compact.specs.Compacting.{IsCompacted, RefusesCompact, KeepsOnWay};
ghost use Rattle.log_compact.specs.Beginning.{IsFresh, StandsFound};

use crate::cell_count::count_fresh;
use crate::compacting::{CompactRefused, compact};
use crate::laws::names_are_short;
use disk_trait::LogDisk;
use plain_list::World;
use recovery::{Leaves, NEWEST, Opened, Seen};
use split_log::{MOST_CELLS, SplitLog};
use std::snapshot::Snapshot;

/// What an opening finds in the log that `compact` writes of a world and its leaves. The result is `None` if that log
/// would have more cells than a log may have (`split_log::MOST_CELLS`).
pub fn fresh_seen(world: World, leaves: Leaves, width: u8) -> Option<Seen>
    requires width { IsWidth width }
    requires splits { ComesBySplits width leaves }

    ensures { MatchOption result (most_cells < length (fresh_cells width world leaves))
        (λ seen. (seen.world ≡ world) × (seen.leaves ≡ leaves) × IsFresh width seen) }
{
    let members = world.as_slice().len() as u64;
    let names = leaves.as_slice();
    names_are_short(names);
    let mut seen = Seen {
        world,
        leaves,
        unfinished: 0,
        begun: 0,
        cells: 0,
        version: NEWEST,
    };
    seen.cells = count_fresh(&seen, width);
    if seen.cells > MOST_CELLS {
        return None;
    }
    // A begin and an install for each split, and a put for each object.
    seen.begun = (seen.cells - members) / 2;
    Some(seen)
}

/// Writes this log on a target that has at most 17 bytes, as `compact` does. It returns the log as if it were opened
/// there.
pub fn begin_log<D: LogDisk>(
    seen: Seen,
    width: u8,
    target: D,
) -> Result<Opened<D>, CompactRefused<D>>
    requires width { IsWidth width }
    requires fresh { IsFresh width seen }

    ensures seen { IfOk result (λ o. o.seen ≡ seen) }
    ensures log { IfOk result (λ o. (o.log.cells ≡ o.seen.cells) × (o.log.failed ≡ None)) }
    ensures start { IfOk result (λ o. o.start.value ≡ o.log.disk) }
    ensures stands { IfOk result (λ o. StandsFound width o.seen (D.drive o.log.disk)) }
    ensures ok { IfOk result (λ o. IsCompacted width (fresh_cells width seen.world seen.leaves) (D.drive target) (D.drive o.log.disk)) }
    ensures refused { IfErr result (λ e. RefusesCompact (D.drive target) (D.drive e.disk) e.cause) }
    ensures any_moment { MatchResult result
        (λ o. KeepsOnWay width (fresh_cells width seen.world seen.leaves) (D.drive target) (D.drive o.log.disk))
        (λ e. KeepsOnWay width (fresh_cells width seen.world seen.leaves) (D.drive target) (D.drive e.disk)) }
    ensures state { IsStateOf width (fresh_cells width seen.world seen.leaves) seen.world seen.leaves }
{
    match compact(&seen, width, target) {
        Ok(disk) => {
            let start = Snapshot::of(&disk);
            Ok(Opened {
                log: SplitLog::adopt(disk, seen.cells),
                seen,
                start,
            })
        }
        Err(refused) => Err(refused),
    }
}
