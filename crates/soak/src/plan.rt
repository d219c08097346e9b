//! What is to be run.
ghost use Rattle.std.specs.Prelude.{◌<◌};

use plain_list::Op;

/// How many calls there are, and how many threads make them.
#[derive(Clone, Copy)]
pub struct Plan {
    /// The number of all calls.
    pub calls: u64,
    /// The number of threads that make them.
    pub threads: u8,
    /// How many objects there may be.
    pub objects: u32,
    pub seed: u64,
    /// About how many calls there are in a round. After each round the threads meet.
    pub round: u64,
}

impl Plan {
    /// How many calls a thread makes.
    pub fn share(&self, session: u8) -> u64 {
        let threads = u64::from(self.threads.max(1));
        match threads.checked_sub(1 + u64::from(session)) {
            Some(behind) => self.calls.saturating_add(behind) / threads,
            None => 0,
        }
    }

    /// How many objects of its own a chain has.
    pub fn own(&self) -> u64
        ensures { 0 < result }
    {
        u64::from(self.objects / u32::from(self.threads.max(1))).max(1)
    }

    /// How many calls a thread makes in a round.
    pub fn each(&self) -> u64 {
        (self.round / u64::from(self.threads.max(1))).max(1)
    }

    /// Whether the answer of a call is checked, by its place in the history.
    pub fn looks_at(&self, op: &Op, place: u64) -> bool {
        match op {
            Op::Within { .. } | Op::Near { .. } => {
                place % u64::from(self.objects / 100).max(1) == 0
            }
            _ => true,
        }
    }
}
