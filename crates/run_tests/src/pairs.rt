//! Runs over two files, and what each leaves in both. They leave the first file unchanged.
use crate::checks::{Case, holds};
use crate::memory::{Left, run_both};
use disk_mem::Fail;
use std::alloc::Global;
use std::process::Abort;
use std::sync::Wait;
use std::thread::Threads;

/// A run, the bytes of the second file before and after it, and the attaches of the second drive.
#[derive(Clone, Copy)]
pub struct Pair<'a> {
    pub run: Case<'a>,
    pub new: &'a [u8],
    /// The calls of the second drive that fail.
    pub failing: &'a [Fail],
    pub written: &'a [u8],
    pub makes: &'a str,
}

impl Pair<'_> {
    // Whether a run has left what it should. The first file has its bytes, and no call changed or synced it.
    fn is_left(&self, left: &Left) -> bool {
        let run = &self.run;
        left.tells(run.status, run.text)
            && left.file() == run.held
            && left.disk.moments() == 0
            && left.history().is_empty()
            && left.attaches.as_str() == run.attaches
            && left.other.bytes() == self.written
            && left.others.as_str() == self.makes
    }
}

/// Fails unless the run leaves what it should in both files.
pub fn pair_is_left<R: Abort + Threads + Wait + Sync>(rt: &R, alloc: Global, pair: &Pair<'_>) {
    let left = run_both(rt, alloc, &pair.run.plan(), pair.new, pair.failing);
    holds(rt, pair.is_left(&left), pair.run.name);
}

/// Fails at the first run that doesn't leave what it should in both files.
pub fn each_pair_is_left<R: Abort + Threads + Wait + Sync>(
    rt: &R,
    alloc: Global,
    pairs: &[Pair<'_>],
) {
    for pair in pairs {
        pair_is_left(rt, alloc, pair);
    }
}
