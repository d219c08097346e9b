//! Opens a log whose number of cells is known.
ghost use Rattle.std.specs.Prelude.{◌≡◌, ◌⊎◌, IfOk, IfErr};
ghost use Rattle.zorder.specs.Width.{IsWidth};
ghost use Rattle.follower.specs.Reopening.{Reopens, RefusesReopen};

use crate::faults::{FollowFault, FollowRefused};
use disk_trait::LogDisk;
use recovery::open;
use split_log::{MOST_CELLS, SplitLog};
use std::alloc::Global;

/// Opens a log that has `count` cells. A drive whose content is unknown may report another number than before.
pub(crate) fn reopen<D: LogDisk>(
    alloc: Global,
    disk: D,
    width: u8,
    count: u64,
) -> Result<SplitLog<D>, FollowRefused<D>>
    requires { IsWidth width }

    ensures opened { IfOk result (Reopens D.drive width count (D.drive disk)) }
    ensures refused { IfErr result (λ e. RefusesReopen width count (D.drive disk) (D.drive e.disk) e.fault) }
{
    let opened = match open(alloc, disk, width, MOST_CELLS) {
        Ok(opened) => opened,
        Err(refused) => {
            return Err(FollowRefused {
                disk: refused.disk,
                fault: FollowFault::Log {
                    fault: refused.cause,
                },
            });
        }
    };
    if opened.seen.cells != count {
        return Err(FollowRefused {
            disk: opened.log.give_back(),
            fault: FollowFault::Strange {
                cell: count.min(opened.seen.cells),
            },
        });
    }
    Ok(opened.log)
}
