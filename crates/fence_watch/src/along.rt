//! A tally along all cells that a walk has before it.
ghost use Rattle.std.specs.Prelude.{◌≤◌, ℕ, List, ◌++◌, length};
ghost use Rattle.cell_format.specs.declared.cell.Cell.{Cell};
ghost use Rattle.log_state.specs.Recovers.{state_of};
ghost use Rattle.recovery.specs.Reading.{OnlyReads};
ghost use Rattle.recovery.specs.Walks.{ComesTo};
ghost use Rattle.fence_watch.specs.declared.fences.Event.{Event};
ghost use Rattle.fence_watch.specs.declared.fences.Fence.{Fence};
ghost use Rattle.fence_watch.specs.Tallies.{TalliesFrom};
ghost use Rattle.fence_watch.specs.Watches.{most_events};
ghost use Rattle.fence_watch.specs.Alongs.{GoesAlong, read_of};

use crate::tally::Tally;
use crate::watch::WatchFault;
use disk_trait::LogDisk;
use recovery::{OpenFault, Walk, Walked};
use thiserror::Error;

/// Why a tally didn't come to the end of a log.
#[derive(Clone, Copy, Debug, PartialEq, Error)]
pub enum AlongFault {
    /// The walk went over this step, but the tally didn't make it. Give the step to `Tally::step` before you call
    /// `along` again. Then no cell is left out. If there were too many events, take them out first.
    #[error("a step wasn't made: {fault}")]
    Watch { fault: WatchFault, walked: Walked },
    /// What the walk returned after the cells whose steps were made.
    #[error("{0}")]
    Log(OpenFault),
}

impl Tally {
    /// Continues along all cells that a walk has before it. The walk may have gone over other cells before: those that
    /// the tally has followed, or the first cells of the log, if the tally began with the world after them.
    pub fn along<D: LogDisk>(&mut self, walk: &mut Walk<D>) -> Result<(), AlongFault>
        requires { (w : ℕ) × (most : ℕ) × (cells : List Cell) × ComesTo w most cells (D.drive walk.old.disk) walk.old }
        ensures along { (w most : ℕ) (front cells : List Cell) (taken : List Event) (fences : List Fence)
            → ComesTo w most (front ++ cells) (D.drive walk.old.disk) walk.old
            → TalliesFrom (length front) (state_of w front).world taken cells fences self.old
            → GoesAlong w most front cells taken fences (D.drive walk.old.disk) (D.drive walk.new.disk) walk.new self.new result }
        ensures few { length self.new.events ≤ most_events }
        ensures reads { OnlyReads (D.drive walk.old.disk) (D.drive walk.new.disk) (read_of result) }
    {
        let _events = self.events();
        'cells: loop {
            match walk.next() {
                Ok(Some(walked)) => {
                    if let Err(fault) = self.step(&walked) {
                        return Err(AlongFault::Watch { fault, walked });
                    }
                }
                Ok(None) => return Ok(()),
                Err(fault) => return Err(AlongFault::Log(fault)),
            }
        }
    }
}
