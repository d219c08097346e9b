//! Waiting for the lock, and waking the callers that wait.
//!
//! No contract is about waiting. `docs/ARCHITECTURE.md`, "Waiting", argues that no wake-up is missed.
use super::BookLock;
use crate::held::Held;
use crate::manner::Manner;
use std::sync::Wait;
use std::sync::atomic::Ordering;
use std::time::Duration;
use std::{hint, thread};

/// How often a caller that naps, or sleeps for a slow value, lets others run first.
const YIELDS: u32 = 8;

/// How long one of a batch naps, in milliseconds. A caller that changes the value naps that long for each caller that
/// naps. So usually one of them wakes in that time. Until then the thread that has the value in its processor's cache
/// makes some thousand steps.
const NAP: u64 = 4;

/// The number of napping callers above which a nap gets no longer.
const MOST_NAPPERS: u64 = 16;

/// How often a prompt caller that is next looks at the word before it sleeps, with a short rest each time. It takes
/// some microseconds, which is longer than most steps.
const LOOKS: u32 = 200;

/// How often a caller has the lock without a wait before it lets the next one in.
const TURNS: u32 = 64;

/// How often it then looks whether the other one has come.
const WAY: u32 = 400;

impl<V: Held> BookLock<V> {
    // Waits for a while, after it found the lock taken `misses` times. Returns the new number. For a prompt caller it
    // is 0 until the caller is next.
    pub(super) fn pause<R: Wait>(&self, rt: &R, misses: u32, manner: Manner) -> u32 {
        if self.is_patient(manner) {
            self.pause_patiently(rt, misses, manner)
        } else {
            self.pause_promptly(rt, misses > 0);
            1
        }
    }

    // Whether a caller naps, or sleeps for a slow value.
    fn is_patient(&self, manner: Manner) -> bool {
        self.is_slow || manner.is_batch
    }

    // Lets others run. After `YIELDS` times without success it sleeps.
    fn pause_patiently<R: Wait>(&self, rt: &R, misses: u32, manner: Manner) -> u32 {
        if misses < YIELDS {
            thread::yield_now();
            misses + 1
        } else {
            self.sleep(rt, manner.is_reader);
            0
        }
    }

    fn sleep<R: Wait>(&self, rt: &R, is_reader: bool) {
        if self.is_slow {
            self.sleep_until_woken(rt);
        } else {
            self.nap(rt, is_reader);
        }
    }

    fn nap<R: Wait>(&self, rt: &R, is_reader: bool) {
        let others = self.waiters.sleepers.fetch_add(1, Ordering::SeqCst);
        let turns = if is_reader {
            1
        } else {
            others.min(MOST_NAPPERS - 1) + 1
        };
        let nap = Duration::from_millis(NAP * turns);
        self.table.shared.park_timeout(rt, 1, 1, nap);
        self.waiters.sleepers.fetch_sub(1, Ordering::SeqCst);
    }

    // Counted before it sleeps. A holder that frees the lock may see the count, and then it wakes one caller. Otherwise
    // it freed the lock before the count rose. Then the word is no longer 1, and the sleep ends at once.
    fn sleep_until_woken<R: Wait>(&self, rt: &R) {
        self.waiters.sleepers.fetch_add(1, Ordering::SeqCst);
        self.table.shared.park(rt, 1, 1);
        self.waiters.sleepers.fetch_sub(1, Ordering::SeqCst);
    }

    // Waits until the caller is next. If it is next, waits until the lock is free, or until it has slept and is next
    // again.
    fn pause_promptly<R: Wait>(&self, rt: &R, is_next: bool) {
        if is_next {
            if !self.look() {
                self.waiters.leave();
                self.sleep_until_called(rt);
            }
        } else if !self.waiters.comes_next() {
            self.sleep_until_called(rt);
        }
    }

    fn is_free(&self) -> bool {
        self.table.shared.peek(1) == 0
    }

    // Looks at the word until the lock is free, at most `LOOKS` times. Returns whether it was free.
    fn look(&self) -> bool {
        for _ in 0..LOOKS {
            if self.is_free() {
                return true;
            }
            hint::spin_loop();
        }
        false
    }

    // Counted before it looks at the word. A holder that frees the lock may see the count. Otherwise it freed the lock
    // before, and then this caller calls one, as the holder would have done.
    fn sleep_until_called<R: Wait>(&self, rt: &R) {
        self.waiters.count();
        if self.is_free() {
            self.waiters.call();
        }
        self.waiters.sleep(rt);
    }

    // Lets the next caller in, if this one has had the lock `TURNS` times without a wait. Returns how it waits from
    // then on.
    pub(super) fn give_way(&self, manner: Manner) -> Manner {
        if manner.turns < TURNS || !self.waiters.has_next() {
            return manner;
        }
        self.look_aside();
        if self.is_free() && self.waiters.has_next() {
            thread::yield_now();
        }
        manner.having_waited(true)
    }

    // Looks until the lock is taken, or until no awake caller is next, at most `WAY` times.
    fn look_aside(&self) {
        for _ in 0..WAY {
            if !self.is_free() || !self.waiters.has_next_awake() {
                return;
            }
            hint::spin_loop();
        }
    }

    // The caller has the lock, after `misses` misses. Returns how it waits from then on.
    pub(super) fn arrive(&self, manner: Manner, misses: u32) -> Manner {
        if misses > 0 && !self.is_patient(manner) {
            self.waiters.leave();
        }
        manner.having_waited(misses > 0)
    }

    // Wakes a caller that sleeps until it is woken, if there is one. For a quick value that is a prompt caller. If
    // there is none, it makes no system call.
    pub(super) fn wake(&self) {
        if !self.is_slow {
            self.waiters.call();
        } else if self.waiters.sleepers.load(Ordering::SeqCst) > 0 {
            self.table.shared.wake_one(1);
        }
    }

    /// Wakes a caller that naps, or sleeps for a slow value, if there is one. A caller of a batch that won't come back
    /// soon should call it.
    pub fn rouse(&self) {
        if self.waiters.sleepers.load(Ordering::SeqCst) > 0 {
            self.table.shared.wake_one(1);
        }
    }
}
