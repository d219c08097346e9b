//! Where objects that can be among the nearest are.
ghost use Rattle.std.specs.Prelude.{◌≡◌, ◌≤◌, ◌<◌, ◌+◌, ◌-◌, ◌*◌, ◌^◌, false, IfSome, IsTrue};
ghost use Rattle.zorder.specs.declared.points.Point.{Point};
ghost use Rattle.zorder.specs.Distance.{distance};
ghost use Rattle.zorder.specs.Key.{IsPoint};
ghost use Rattle.zorder.specs.Region.{has_point};
ghost use Rattle.prefix_names.specs.Regions.{box_of};
ghost use Rattle.knn_query.specs.Passes.{LeavesOut};

use prefix_names::KeyBox;
use zorder::{Point, Region, coordinates_fit};

/// Where an object has to be to be among the nearest: in a box, if there is one, and not beyond a squared distance.
#[derive(Clone, Copy)]
pub(crate) struct Reach {
    pub(crate) corners: Option<KeyBox>,
    pub(crate) farthest: u128,
}

impl Reach {
    /// Returns whether the point of a key is outside the box.
    pub(crate) fn leaves_out(&self, key: u64) -> bool
        ensures { IsTrue result → LeavesOut self.now key }
    {
        match self.corners {
            Some(corners) => !corners.has(key),
            None => false,
        }
    }
}

/// Returns a box around `from` that has each point which is at most as far from it as `farthest`. Mostly it is little
/// larger than necessary.
pub(crate) fn box_within(from: Point, farthest: Point) -> Region
    ensures { (p : Point) → IsPoint p → has_point result p ≡ false → distance farthest from < distance p from }
{
    let side = longer(farthest.x.abs_diff(from.x), farthest.y.abs_diff(from.y));
    box_around(from, side)
}

/// Returns the box by the keys of its corners, or `None` if the box has the whole area.
pub(crate) fn cutting(region: Region, area: &Region) -> Option<KeyBox>
    ensures { IfSome result (λ corners. box_of corners ≡ region) }
{
    if region.has(area.lo) && region.has(area.hi) {
        None
    } else {
        Some(KeyBox::of(&region))
    }
}

// Returns the box with each side at the distance `side` from `middle`, cut off at the ends of the plane.
fn box_around(middle: Point, side: u32) -> Region
    ensures { (p : Point) → IsPoint p → has_point result p ≡ false → side * side < distance p middle × side < 2 ^ 32 - 1 }
{
    coordinates_fit(middle);
    Region {
        lo: Point {
            x: middle.x.saturating_sub(side),
            y: middle.y.saturating_sub(side),
        },
        hi: Point {
            x: middle.x.saturating_add(side),
            y: middle.y.saturating_add(side),
        },
    }
}

// Returns a number whose square is at least the sum of both squares. The number is at most one eighth too great. If it
// would not fit, the result is 2^32 - 1.
fn longer(a: u32, b: u32) -> u32
    ensures { result < 2 ^ 32 - 1 → a * a + b * b ≤ result * result }
{
    if a < b {
        b.saturating_add(a - a / 2)
    } else {
        a.saturating_add(b - b / 2)
    }
}
