//! The number of cells of a fresh log.
ghost use Rattle.std.specs.Prelude.{◌≡◌, ◌⊎◌, ◌<◌, ◌^◌, length};
ghost use Rattle.zorder.specs.Width.{IsWidth};
ghost use Rattle.log_compact.specs.Fresh.{fresh_cells};
ghost use Rattle.plain_list.specs.State.{ComesBySplits};

use crate::cells::FreshCells;
use recovery::Seen;

/// The number of cells that `compact` writes. It takes no memory.
pub fn count_fresh(seen: &Seen, width: u8) -> u64
    requires width { IsWidth width }
    requires splits { ComesBySplits width seen.now.leaves }
    requires few { length (fresh_cells width seen.now.world seen.now.leaves) < 2 ^ 63 }

    ensures { result ≡ length (fresh_cells width seen.now.world seen.now.leaves) }
{
    FreshCells::of(seen, width).count() as u64
}
