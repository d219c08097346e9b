//! Numbers that a seed determines.
ghost use Rattle.std.specs.Prelude.{◌<◌};

use zorder::Point;

/// A generator of numbers: `splitmix64`. Each thread has its own.
#[derive(Clone, Copy)]
pub struct Dice {
    state: u64,
}

impl Dice {
    /// The generator of one thread among those that share a seed.
    pub fn new(seed: u64, player: u8) -> Dice {
        let far = u64::from(player).wrapping_mul(0xd1b5_4a32_d192_ed03);
        Dice {
            state: seed.wrapping_add(far),
        }
    }

    fn next(&mut self) -> u64 {
        self.state = self.state.wrapping_add(0x9e37_79b9_7f4a_7c15);
        let mut mixed = self.state;
        mixed = (mixed ^ (mixed >> 30)).wrapping_mul(0xbf58_476d_1ce4_e5b9);
        mixed = (mixed ^ (mixed >> 27)).wrapping_mul(0x94d0_49bb_1331_11eb);
        mixed ^ (mixed >> 31)
    }

    /// Returns a number below this one.
    pub fn below(&mut self, end: u32) -> u32
        requires { 0 < end }
        ensures { result < end }
    {
        (self.next() % u64::from(end)) as u32
    }

    /// Returns any number of 32 bits.
    pub fn any(&mut self) -> u32 {
        (self.next() >> 32) as u32
    }

    /// Returns a position. One in eight is in a small corner, where leaves are split again and again.
    pub fn place(&mut self) -> Point {
        let small = if self.below(8) == 0 { 8 } else { 0 };
        Point {
            x: self.any() >> small,
            y: self.any() >> small,
        }
    }
}
