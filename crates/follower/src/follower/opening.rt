//! The opening of a follower.
ghost use Rattle.std.specs.Prelude.{◌≡◌, ◌⊎◌, ◌<◌, ℕ, List, Some, length, IfOk, IfErr, MatchResult};
ghost use Rattle.std.specs.Result.{IsErrAnd};
ghost use Rattle.cell_format.specs.Spelling.{newest};
ghost use Rattle.recovery.specs.declared.seen.OpenFault.{OpenFault};
ghost use Rattle.recovery.specs.Faults.{IsFault, IsInBytes};
ghost use Rattle.follower.specs.declared.faults.FollowFault.TheVariants.{Strange, Log};
ghost use Rattle.follower.specs.Faults.{IsFree};
ghost use Rattle.follower.specs.Holding.{AreLeading};
ghost use Rattle.follower.specs.Opening.{most_held, IsStrange, IsTaken, Opens, RefusesOpen, KeepsTarget, OpensLog};

use crate::comparing::compare;
use crate::faults::{FollowFault, FollowRefused};
use crate::follower::Follower;
use crate::reopening::reopen;
use cell_format::Cell;
use disk_trait::LogDisk;
use recovery::{InitFault, init};
use split_log::SplitLog;
use std::alloc::Global;

impl<D: LogDisk> Follower<D> {
    /// Follows the leader of these cells, whose splits create `2 ^ width` children. The drive's file has at most 17
    /// bytes, and the call creates a log in it. Or the file is a log of version 2 that has the leader's first cells. A
    /// file that is refused stays unchanged, unless the drive fails.
    pub fn open(
        alloc: Global,
        disk: D,
        cells: &[Cell],
        width: u8,
    ) -> Result<Follower<D>, FollowRefused<D>>
        requires leading { AreLeading width cells.now }

        ensures opened { IfOk result (Opens D.drive width cells.now (D.drive disk)) }
        ensures refused { IfErr result (λ e. RefusesOpen width cells.now (D.drive disk) (D.drive e.disk) e.fault) }
        ensures exact { (bytes : List ℕ) (fault : OpenFault) → (D.drive disk).bytes ≡ Some bytes → 17 < length bytes → IsInBytes fault
            → IsFault newest (Some width) most_held bytes fault
            → IsErrAnd result (λ e. (e.fault ≡ Log fault) ⊎ IsFree (D.drive disk) (D.drive e.disk) e.fault) }
        ensures strange { (bytes : List ℕ) (number : ℕ) → (D.drive disk).bytes ≡ Some bytes → IsStrange width cells.now bytes number
            → IsErrAnd result (λ e. (e.fault ≡ Strange number) ⊎ IsFree (D.drive disk) (D.drive e.disk) e.fault) }
        ensures whole { (bytes : List ℕ) (held : ℕ) → (D.drive disk).bytes ≡ Some bytes → IsTaken width cells.now bytes held
            → IfErr result (λ e. IsFree (D.drive disk) (D.drive e.disk) e.fault) }
        ensures any_moment { MatchResult result (λ f. KeepsTarget width cells.now (D.drive disk) (D.drive f.disk))
            (λ e. KeepsTarget width cells.now (D.drive disk) (D.drive e.disk)) }
    {
        match make_or_open(alloc, disk, cells, width) {
            Ok(log) => Ok(Follower {
                alloc,
                log,
                width,
                known: 0,
                packets: Vec::new(alloc),
                acks: Vec::new(alloc),
            }),
            Err(refused) => Err(refused),
        }
    }
}

// The log, as it is found or created.
fn make_or_open<D: LogDisk>(
    alloc: Global,
    disk: D,
    cells: &[Cell],
    width: u8,
) -> Result<SplitLog<D>, FollowRefused<D>>
    requires { AreLeading width cells.now }

    ensures opened { IfOk result (OpensLog D.drive width cells.now (D.drive disk)) }
    ensures refused { IfErr result (λ e. RefusesOpen width cells.now (D.drive disk) (D.drive e.disk) e.fault) }
    ensures any_moment { MatchResult result (λ log. KeepsTarget width cells.now (D.drive disk) (D.drive log.disk))
        (λ e. KeepsTarget width cells.now (D.drive disk) (D.drive e.disk)) }
{
    // `init` reads the length, and returns `InUse` before it writes. So the length is read once.
    match init(disk, width) {
        Ok(disk) => Ok(SplitLog::adopt(disk, 0)),
        Err(refused) => match refused.cause {
            InitFault::InUse { .. } => open_found(alloc, refused.disk, cells, width),
            InitFault::Disk => Err(FollowRefused {
                disk: refused.disk,
                fault: FollowFault::Disk,
            }),
        },
    }
}

// The log of a file with more than 17 bytes.
fn open_found<D: LogDisk>(
    alloc: Global,
    disk: D,
    cells: &[Cell],
    width: u8,
) -> Result<SplitLog<D>, FollowRefused<D>>
    requires leading { AreLeading width cells.now }
    requires long { (bytes : List ℕ) → (D.drive disk).bytes ≡ Some bytes → 17 < length bytes }

    ensures opened { IfOk result (OpensLog D.drive width cells.now (D.drive disk)) }
    ensures refused { IfErr result (λ e. RefusesOpen width cells.now (D.drive disk) (D.drive e.disk) e.fault) }
    ensures any_moment { MatchResult result (λ log. KeepsTarget width cells.now (D.drive disk) (D.drive log.disk))
        (λ e. KeepsTarget width cells.now (D.drive disk) (D.drive e.disk)) }
{
    let found = match compare(alloc, disk, cells, width) {
        Ok(found) => found,
        Err(refused) => {
            return Err(FollowRefused {
                disk: refused.disk,
                fault: FollowFault::Log {
                    fault: refused.cause,
                },
            });
        }
    };
    if found.same < found.count {
        return Err(FollowRefused {
            disk: found.disk,
            fault: FollowFault::Strange { cell: found.same },
        });
    }
    reopen(alloc, found.disk, width, found.count)
}
