//! How two regions lie to each other.
ghost use Rattle.std.specs.Prelude.{◌≡◌, ◌↔◌, ◌&&◌, nat_le, IsTrue};
ghost use Rattle.zorder.specs.Region.{IsBox};
ghost use Rattle.prefix_names.specs.Regions.{meet, lies_in, SharePoint, AllPointsIn};

use zorder::Region;

/// Returns whether the regions share a point. Edges belong to a region, so regions that touch at an edge meet.
pub fn meets(a: &Region, b: &Region) -> bool
    requires a_box { IsBox a.now }
    requires b_box { IsBox b.now }
    ensures test { result ≡ meet a.now b.now }
    ensures points { IsTrue result ↔ SharePoint a.now b.now }
{
    overlap(a.lo.x, a.hi.x, b.lo.x, b.hi.x) && overlap(a.lo.y, a.hi.y, b.lo.y, b.hi.y)
}

/// Returns whether every point of `a` is in `b`.
pub fn inside(a: &Region, b: &Region) -> bool
    requires a_box { IsBox a.now }
    requires b_box { IsBox b.now }
    ensures test { result ≡ lies_in a.now b.now }
    ensures points { IsTrue result ↔ AllPointsIn a.now b.now }
{
    cover(b.lo.x, b.hi.x, a.lo.x, a.hi.x) && cover(b.lo.y, b.hi.y, a.lo.y, a.hi.y)
}

// Returns whether two closed intervals of one axis share a number.
fn overlap(a_lo: u32, a_hi: u32, b_lo: u32, b_hi: u32) -> bool
    ensures { result ≡ (nat_le a_lo b_hi && nat_le b_lo a_hi) }
{
    a_lo <= b_hi && b_lo <= a_hi
}

// Returns whether the interval from `lo` to `hi` contains the interval from `from` to `to`.
fn cover(lo: u32, hi: u32, from: u32, to: u32) -> bool
    ensures { result ≡ (nat_le lo from && nat_le to hi) }
{
    lo <= from && to <= hi
}
