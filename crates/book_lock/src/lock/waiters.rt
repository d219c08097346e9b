//! The callers that wait for a lock.
use std::hint;
use std::sync::Wait;
use std::sync::atomic::{AtomicU64, Ordering};

/// How often a caller looks, with a short rest each time. It takes some microseconds, which is longer than most steps.
const LOOKS: u32 = 200;

/// How many prompt callers look at the same time whether they may be next.
const MOST_LOOKERS: u64 = 2;

/// The values of `next`. `NOBODY`: no prompt caller is next. `CALLED`: a sleeping one is called to be next. `AWAKE`:
/// one that is awake is next.
const NOBODY: u64 = 0;

const CALLED: u64 = 1;

const AWAKE: u64 = 2;

/// Counters next to the lock's table. No contract reads them.
#[derive(Drop)]
pub(crate) struct Waiters {
    /// How many callers nap, or sleep for a slow value, or are about to.
    pub sleepers: AtomicU64,
    /// How many prompt callers sleep until they are called, or are about to.
    prompt: AtomicU64,
    /// How many prompt callers look whether they may be next.
    lookers: AtomicU64,
    /// Whether a prompt caller is to have the lock next. At most one is.
    next: AtomicU64,
}

impl Waiters {
    pub fn new() -> Waiters {
        Waiters {
            sleepers: AtomicU64::new(0),
            prompt: AtomicU64::new(0),
            lookers: AtomicU64::new(0),
            next: AtomicU64::new(NOBODY),
        }
    }

    /// Whether a prompt caller is to have the lock next.
    pub fn has_next(&self) -> bool {
        self.next.load(Ordering::SeqCst) != NOBODY
    }

    /// Whether the caller that is next is awake.
    pub fn has_next_awake(&self) -> bool {
        self.next.load(Ordering::SeqCst) == AWAKE
    }

    // Changes `next` from one value to the other, if it has the first one. Returns whether it did.
    fn change(&self, from: u64, to: u64) -> bool {
        let order = Ordering::SeqCst;
        self.next.load(order) == from && self.next.compare_exchange(from, to, order, order).is_ok()
    }

    /// The caller that was next no longer is.
    pub fn leave(&self) {
        self.next.store(NOBODY, Ordering::SeqCst);
    }

    /// Makes the caller the next one, at once or after a few looks, and returns whether it did. At most `MOST_LOOKERS`
    /// callers look at a time.
    pub fn comes_next(&self) -> bool {
        self.change(NOBODY, AWAKE) || self.looks_to_be_next()
    }

    fn looks_to_be_next(&self) -> bool {
        if self.lookers.fetch_add(1, Ordering::SeqCst) >= MOST_LOOKERS {
            self.lookers.fetch_sub(1, Ordering::SeqCst);
            return false;
        }
        let is_next = self.look();
        self.lookers.fetch_sub(1, Ordering::SeqCst);
        is_next
    }

    fn look(&self) -> bool {
        for _ in 0..LOOKS {
            if self.change(NOBODY, AWAKE) {
                return true;
            }
            hint::spin_loop();
        }
        false
    }

    /// Counts a prompt caller that is about to sleep.
    pub fn count(&self) {
        self.prompt.fetch_add(1, Ordering::SeqCst);
    }

    /// Sleeps until the caller is the next one. The caller was counted before.
    pub fn sleep<R: Wait>(&self, rt: &R) {
        for _ in rt.forever() {
            if self.change(CALLED, AWAKE) {
                break;
            }
            self.park(rt);
        }
        self.prompt.fetch_sub(1, Ordering::SeqCst);
    }

    // Sleeps unless a caller is called.
    fn park<R: Wait>(&self, rt: &R) {
        let next = self.next.load(Ordering::SeqCst);
        if next != CALLED {
            self.next.park(rt, (next & 0xffff_ffff) as u32);
        }
    }

    /// Calls one of the sleeping prompt callers, if there is one and no caller is next.
    pub fn call(&self) {
        if self.prompt.load(Ordering::SeqCst) > 0 && self.change(NOBODY, CALLED) {
            self.next.wake_one();
        }
    }
}
