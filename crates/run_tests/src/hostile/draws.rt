//! Numbers by a linear congruence, the same for the same seed.

/// A generator, begun with a seed.
#[derive(Drop)]
pub struct Draws {
    state: u64,
}

impl Draws {
    pub fn new(seed: u64) -> Draws {
        Draws { state: seed }
    }

    /// A number below this one, or 0 if it is 0.
    pub fn below(&mut self, count: u64) -> u64 {
        let next = self.state.wrapping_mul(6_364_136_223_846_793_005);
        self.state = next.wrapping_add(1_442_695_040_888_963_407);
        (self.state >> 33).checked_rem(count).unwrap_or(0)
    }
}
