//! A gate that makes lanes reach some of its points in an order that a test names.
use io_edge::{Gate, GatePoint};
use std::sync::atomic::{AtomicBool, AtomicU64, Ordering};
use std::thread;

// How often a lane looks whether its turn has come before it gives up. So a test that waits for something that never
// happens fails, and ends.
const MOST_LOOKS: u64 = 100_000_000;

/// A lane reaches a point in its turn, and waits there until so many turns were taken in all.
#[derive(Clone, Copy)]
pub struct Turn {
    pub point: GatePoint,
    pub lane: u8,
    pub until: u64,
}

/// Turns that are taken in their order. A lane that reaches a point for which no turn is left continues at once.
#[derive(Drop)]
pub struct Turns<'a> {
    list: &'a [Turn],
    taken: AtomicU64,
    late: AtomicBool,
}

impl<'a> Turns<'a> {
    pub fn new(list: &'a [Turn]) -> Turns<'a> {
        Turns {
            list,
            taken: AtomicU64::new(0),
            late: AtomicBool::new(false),
        }
    }

    /// Whether each turn was taken, and no lane gave up.
    pub fn are_over(&self) -> bool {
        let taken = self.taken.load(Ordering::SeqCst);
        taken == self.list.len() as u64 && !self.late.load(Ordering::SeqCst)
    }

    // The first turn of this lane at this point that wasn't taken yet.
    fn next(&self, point: GatePoint, lane: u8) -> Option<(u64, Turn)> {
        let taken = self.taken.load(Ordering::SeqCst);
        for (i, turn) in self.list.iter().enumerate() {
            if i as u64 >= taken && turn.point == point && turn.lane == lane {
                return Some((i as u64, *turn));
            }
        }
        None
    }

    // Waits until so many turns were taken.
    fn wait_for(&self, turns: u64) {
        for _ in 0..MOST_LOOKS {
            if self.taken.load(Ordering::SeqCst) >= turns {
                return;
            }
            thread::yield_now();
        }
        self.late.store(true, Ordering::SeqCst);
    }
}

impl Gate for Turns<'_> {
    fn reach(&self, point: GatePoint, lane: u8) {
        if let Some((place, turn)) = self.next(point, lane) {
            self.wait_for(place);
            self.taken.fetch_add(1, Ordering::SeqCst);
            self.wait_for(turn.until);
        }
    }
}
