//! The region of a name, and its first and last key.
ghost use Rattle.std.specs.Prelude.{◌≡◌, ◌≤◌, ◌<◌, ◌+◌, ◌-◌, ◌^◌, ◌&&◌, nat_le, ℕ, length};
ghost use Rattle.zorder.specs.declared.points.Point.{Point};
ghost use Rattle.zorder.specs.Key.{key_of, is_in, is_under, IsPoint};
ghost use Rattle.zorder.specs.Region.{has_point, IsBox};
ghost use Rattle.zorder.specs.Name.{first_key};
ghost use Rattle.zorder.specs.Tile.{next_key};
ghost use Rattle.prefix_names.specs.Regions.{region_of};

use zorder::{Name, Region, point};

/// Returns the box of the points whose keys are under the name.
pub fn region(name: &Name) -> Region
    ensures value { result ≡ region_of name.now }
    ensures first { key_of result.lo ≡ first_key name.now }
    ensures last { key_of result.hi + 1 ≡ next_key name.now }
    ensures is_box { IsBox result }
    ensures points { (p : Point) → IsPoint p → has_point result p ≡ is_in name.now p }
{
    let (first, last) = key_range(name);
    Region {
        lo: point(first),
        hi: point(last),
    }
}

/// Returns the first and the last key under the name: the bits after the name are all 0 or all 1.
pub fn key_range(name: &Name) -> (u64, u64)
    ensures first { result.0 ≡ first_key name.now }
    ensures last { result.1 + 1 ≡ next_key name.now }
    ensures most { length name.now ≤ 64 }
    ensures keys { (k : ℕ) → k < 2 ^ 64 → is_under name.now k ≡ (nat_le result.0 k && nat_le k result.1) }
{
    let first = name.bits();
    (first, first | low_mask(name.len()))
}

// Returns a mask with 0 in the highest `len` bits and 1 in the rest.
fn low_mask(len: u8) -> u64
    requires { len ≤ 64 }
    ensures { result ≡ 2 ^ (64 - len) - 1 }
{
    if len == 64 { 0 } else { u64::MAX >> len }
}
