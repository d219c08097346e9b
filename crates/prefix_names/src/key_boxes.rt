//! Boxes that are tested by keys.
ghost use Rattle.std.specs.Prelude.{◌≡◌, ◌&&◌, nat_le};
ghost use Rattle.zorder.specs.Key.{point_of, even_bits};
ghost use Rattle.zorder.specs.Region.{has_point};
ghost use Rattle.zorder.specs.Spread.{spread_bits};
ghost use Rattle.prefix_names.specs.Regions.{box_of};

use zorder::Region;

/// A box, given by the Morton keys of its corners. `has` tests the bits of a key directly, so no point is computed for
/// a key.
#[derive(Clone, Copy, Debug)]
pub struct KeyBox {
    pub lo: u64,
    pub hi: u64,
}

impl KeyBox {
    pub fn of(region: &Region) -> KeyBox
        ensures { box_of result ≡ region.now }
    {
        KeyBox {
            lo: zorder::key(region.lo),
            hi: zorder::key(region.hi),
        }
    }

    /// Returns whether the point of a key is in the box.
    pub fn has(&self, key: u64) -> bool
        ensures { result ≡ has_point (box_of self.now) (point_of key) }
    {
        between(self.lo >> 1, key >> 1, self.hi >> 1) & between(self.lo, key, self.hi)
    }
}

// Returns whether the number that a key's even bits make is between the numbers of `first` and `last`. All tests are
// computed without a branch. No branch predictor can foresee them, and a wrong guess costs more than the test.
fn between(first: u64, key: u64, last: u64) -> bool
    ensures { result ≡ (nat_le (even_bits first) (even_bits key) && nat_le (even_bits key) (even_bits last)) }
{
    let bits = evens(key);
    (evens(first) <= bits) & (bits <= evens(last))
}

// Keeps the bits at even places, without moving them. Such numbers have the same order as the numbers that the bits
// make.
fn evens(key: u64) -> u64
    ensures { result ≡ spread_bits (even_bits key) }
{
    key & 0x5555_5555_5555_5555
}
