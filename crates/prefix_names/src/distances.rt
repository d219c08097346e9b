//! Squared Euclidean distances. Each is below 2^65, so a `u128` holds it.
ghost use Rattle.std.specs.Prelude.{◌≡◌, ◌≤◌, ◌<◌, ◌*◌, IsTrue};
ghost use Rattle.zorder.specs.declared.points.Point.{Point};
ghost use Rattle.zorder.specs.Region.{has_point, IsBox};
ghost use Rattle.zorder.specs.Distance.{gap_to, distance, least_distance};

use zorder::{Point, Region};

/// Returns the squared distance between two points.
pub fn dist(a: Point, b: Point) -> u128
    ensures sum { result ≡ distance a b }
    ensures most { result ≤ 36893488130239234050 }
{
    square(a.x.abs_diff(b.x)) + square(a.y.abs_diff(b.y))
}

/// Returns the squared distance from a point to the nearest point of the region, which is 0 inside the region.
pub fn least(region: &Region, from: Point) -> u128
    requires { IsBox region.now }
    ensures sum { result ≡ least_distance region.now from }
    ensures none_nearer { (p : Point) → IsTrue (has_point region.now p) → result ≤ distance p from }
    ensures one_there { (p : Point) × IsTrue (has_point region.now p) × (distance p from ≡ result) }
{
    let x = apart(region.lo.x, region.hi.x, from.x);
    let y = apart(region.lo.y, region.hi.y, from.y);
    square(x) + square(y)
}

// Returns the distance from a number to a closed interval.
fn apart(lo: u32, hi: u32, n: u32) -> u32
    requires { lo ≤ hi }
    ensures { result ≡ gap_to lo hi n }
{
    if n < lo { lo - n } else { n.saturating_sub(hi) }
}

fn square(gap: u32) -> u128
    ensures square { result ≡ gap * gap }
    ensures most { result ≤ 18446744065119617025 }
{
    let wide = u64::from(gap);
    u128::from(wide * wide)
}
