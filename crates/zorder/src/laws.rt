//! Facts that follow from types alone.
ghost use Rattle.zorder.specs.Key.{IsPoint};

use crate::points::Point;

/// Shows that both coordinates of a point have 32 bits. The function does nothing at run time.
pub fn coordinates_fit(at: Point)
    ensures { IsPoint at }
{
    let _x = at.x;
    let _y = at.y;
}
