//! What a walk returns for each cell.
use cell_format::Cell;
use zorder::Point;

/// A cell, its number, and the position of the object that it changes, before and after the cell. A position is `None`
/// if the object isn't there, or if the cell is a step of a split.
#[derive(Clone, Copy, Debug, PartialEq)]
pub struct Walked {
    pub at: u64,
    pub cell: Cell,
    pub before: Option<Point>,
    pub after: Option<Point>,
}
