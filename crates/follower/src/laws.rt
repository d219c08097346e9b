//! A longer list of the leader's cells changes nothing that holds for the shorter one.
ghost use Rattle.std.specs.Prelude.{◌≡◌, ◌≤◌, ◌++◌, ℕ, List, length};
ghost use Rattle.cell_format.specs.declared.cell.Cell.{Cell};
ghost use Rattle.follower.specs.Holding.{AreLeading, HoldsFirst, LeavesFirst};

use crate::follower::Follower;
use cell_format::Cell;
use disk_trait::LogDisk;

impl<D: LogDisk> Follower<D> {
    /// Proves that what holds for the first of a leader's cells holds for all of them. Call it when the leader's log
    /// has grown. It does nothing at run time, and the next turn may then get all cells.
    pub fn goes_on(&self, cells: &[Cell])
        requires leading { AreLeading self.now.width cells.now }

        ensures holds { (first more : List Cell) → first ++ more ≡ cells.now → HoldsFirst D.drive first self.now
            → HoldsFirst D.drive cells.now self.now }
        ensures any_moment { (first more : List Cell) (least most : ℕ) (old new : D) → first ++ more ≡ cells.now → least ≤ length first
            → LeavesFirst self.now.width first least most (D.drive old) (D.drive new)
            → LeavesFirst self.now.width cells.now least most (D.drive old) (D.drive new) }
    {}
}
