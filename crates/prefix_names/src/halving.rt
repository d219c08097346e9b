//! The two halves of a name's region.
ghost use Rattle.std.specs.Prelude.{◌≡◌, ◌<◌, ◌+◌, ◌-◌, ◌/◌, ◌++◌, ◌∷◌, [], length, true, false};
ghost use Rattle.prefix_names.specs.Regions.{region_of};

use zorder::{Name, Point, Region};

/// Returns the regions of a name's two children, the child of bit 0 first. Key bits alternate between x and y, so one
/// axis is cut in the middle. A walk down a trie that has a node's region gets the children's regions by `halves`,
/// without their keys.
pub fn halves(name: &Name, region: &Region) -> (Region, Region)
    requires room { length name.now < 64 }
    requires whole { region.now ≡ region_of name.now }
    ensures zero { result.0 ≡ region_of (name.now ++ false ∷ []) }
    ensures one { result.1 ≡ region_of (name.now ++ true ∷ []) }
{
    if name.len() % 2 == 0 {
        let (end, begin) = cut(region.lo.x, region.hi.x);
        let left = Point {
            x: end,
            y: region.hi.y,
        };
        let right = Point {
            x: begin,
            y: region.lo.y,
        };
        between(region, left, right)
    } else {
        let (end, begin) = cut(region.lo.y, region.hi.y);
        let low = Point {
            x: region.hi.x,
            y: end,
        };
        let high = Point {
            x: region.lo.x,
            y: begin,
        };
        between(region, low, high)
    }
}

// Returns the box from the region's lower corner to `end`, and the box from `begin` to its upper corner.
fn between(region: &Region, end: Point, begin: Point) -> (Region, Region)
    ensures zero { result.0 ≡ record { lo = region.now.lo; hi = end } }
    ensures one { result.1 ≡ record { lo = begin; hi = region.now.hi } }
{
    let zero = Region {
        lo: region.lo,
        hi: end,
    };
    let one = Region {
        lo: begin,
        hi: region.hi,
    };
    (zero, one)
}

// Returns the last number of an interval's lower half, and the first number of its upper half.
fn cut(lo: u32, hi: u32) -> (u32, u32)
    requires { lo < hi }
    ensures end { result.0 ≡ lo + (hi - lo) / 2 }
    ensures begin { result.1 ≡ lo + (hi - lo) / 2 + 1 }
{
    let end = lo + (hi - lo) / 2;
    (end, end + 1)
}
