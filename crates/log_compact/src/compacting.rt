//! Writes the state of a log as a fresh log.
ghost use Rattle.std.specs.Prelude.{◌≡◌, ◌⊎◌, ◌≤◌, length, IfOk, IfErr, MatchResult};
ghost use Rattle.zorder.specs.Width.{IsWidth};
ghost use Rattle.split_log.specs.LogView.{most_cells};
ghost use Rattle.log_compact.specs.Fresh.{fresh_cells};
ghost use Rattle.plain_list.specs.State.{ComesBySplits};
ghost use Rattle.log_compact.specs.State.{IsStateOf};
ghost use Rattle.log_compact.specs.Compacting.{IsCompacted, RefusesCompact, KeepsOnWay};

use crate::cells::FreshCells;
use crate::staging::write_cells;
use disk_trait::LogDisk;
use recovery::{InitFault, Seen, init};
use thiserror::Error;

/// Why no log was written.
#[derive(Clone, Copy, Debug, PartialEq, Eq, Error)]
pub enum CompactFault {
    /// The target has `len` bytes, which is more than 17. Nothing was written.
    #[error("the file has {len} bytes")]
    InUse { len: u64 },
    #[error("the drive failed")]
    Disk,
}

/// The target, returned, and why no log was written on it.
#[derive(Drop)]
pub struct CompactRefused<D: Drop> {
    pub disk: D,
    pub cause: CompactFault,
}

impl From<InitFault> for CompactFault {
    ghost use Rattle.log_compact.specs.Compacting.{fault_of};

    ghost from_gives = { λ fault e. e ≡ fault_of fault };

    fn from(fault: InitFault) -> CompactFault {
        match fault {
            InitFault::InUse { len } => CompactFault::InUse { len },
            InitFault::Disk => CompactFault::Disk,
        }
    }
}

/// Writes the state that was found in a log on a target that has at most 17 bytes. The splits of both logs create `2 ^
/// width` children. The call takes no memory, and writes pieces of at most 64 KiB. A crash during the call may leave a
/// log of no cells with more than 17 bytes. The next call then returns `InUse`.
pub fn compact<D: LogDisk>(seen: &Seen, width: u8, target: D) -> Result<D, CompactRefused<D>>
    requires width { IsWidth width }
    requires splits { ComesBySplits width seen.now.leaves }
    requires few { length (fresh_cells width seen.now.world seen.now.leaves) ≤ most_cells }

    ensures ok { IfOk result (λ new. IsCompacted width (fresh_cells width seen.now.world seen.now.leaves) (D.drive target) (D.drive new)) }
    ensures refused { IfErr result (λ e. RefusesCompact (D.drive target) (D.drive e.disk) e.cause) }
    ensures any_moment { MatchResult result
        (λ new. KeepsOnWay width (fresh_cells width seen.now.world seen.now.leaves) (D.drive target) (D.drive new))
        (λ e. KeepsOnWay width (fresh_cells width seen.now.world seen.now.leaves) (D.drive target) (D.drive e.disk)) }
    ensures state { IsStateOf width (fresh_cells width seen.now.world seen.now.leaves) seen.now.world seen.now.leaves }
{
    let cells = FreshCells::of(seen, width);
    let mut disk = match init(target, width) {
        Ok(disk) => disk,
        Err(refused) => {
            return Err(CompactRefused {
                disk: refused.disk,
                cause: CompactFault::from(refused.cause),
            });
        }
    };
    match write_cells(&mut disk, cells) {
        Ok(()) => Ok(disk),
        Err(_) => Err(CompactRefused {
            disk,
            cause: CompactFault::Disk,
        }),
    }
}
