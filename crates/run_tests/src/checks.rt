//! Lists of runs, and what each leaves. The functions take a runtime alone, so the proof of a test holds no drive.
use crate::memory::{EMPTY_LOG, Left, PUT_LOG, Plan, run_plan};
use disk_mem::Fail;
use std::alloc::Global;
use std::process::Abort;
use std::sync::Wait;
use std::thread::Threads;

/// `play` over the file `log` with buckets of 4.
pub const PLAY_BY_4: &[&str] = &["play", "log", "--bucket", "4"];

/// A run, and what it is to leave.
#[derive(Clone, Copy)]
pub struct Case<'a> {
    /// The message of the test if the run doesn't leave that.
    pub name: &'a str,
    pub words: &'a [&'a str],
    pub input: &'a str,
    /// The bytes of the file. `None` is a drive that fails at each call.
    pub file: Option<&'a [u8]>,
    /// The calls of each end that fail.
    pub reads: &'a [u64],
    pub puts: &'a [u64],
    pub calls: &'a [Fail],
    pub status: u8,
    /// What the sink receives.
    pub text: &'a str,
    /// The bytes of the file afterwards.
    pub held: &'a [u8],
    /// How many entries the history has.
    pub entries: usize,
    /// The attaches of the first drive, a line each. The second drive has none.
    pub attaches: &'a str,
}

impl<'a> Case<'a> {
    /// The same over these bytes, which it is to leave unchanged.
    pub fn over(&self, file: &'a [u8]) -> Case<'a> {
        Case {
            file: Some(file),
            held: file,
            ..*self
        }
    }

    /// The inputs of the run.
    pub fn plan(&self) -> Plan<'a> {
        Plan {
            words: self.words,
            input: self.input,
            file: self.file,
            reads: self.reads,
            puts: self.puts,
            calls: self.calls,
        }
    }

    /// Whether a run has left what it should.
    pub fn is_left(&self, left: &Left) -> bool {
        left.tells(self.status, self.text)
            && left.file() == self.held
            && left.history().len() == self.entries
            && left.has_attached(self.attaches)
    }
}

/// A run in which all goes well, over no log and with no rows.
pub const NO_LOG: Case<'static> = Case {
    name: "a run over no log",
    words: &["play", "-"],
    input: "session,op,id,x,y,a,b,moment\n",
    file: None,
    reads: &[],
    puts: &[],
    calls: &[],
    status: 0,
    text: "row,place,answer,detail\n",
    held: &[],
    entries: 0,
    attaches: "",
};

/// The same over a log of no cells.
pub const EMPTY: Case<'static> = Case {
    name: "a run over a log of no cells",
    words: &["play", "log"],
    file: Some(EMPTY_LOG),
    held: EMPTY_LOG,
    attaches: "opens log\n",
    ..NO_LOG
};

/// The same over a log of one put.
pub const ONE_PUT: Case<'static> = Case {
    name: "a run over a log of one put",
    file: Some(PUT_LOG),
    held: PUT_LOG,
    ..EMPTY
};

/// `init` over a log of no cells.
pub const INIT: Case<'static> = Case {
    name: "init over a log of no cells",
    words: &["init", "log"],
    text: "made\n",
    attaches: "makes log\n",
    ..EMPTY
};

/// `check` of a log of no cells.
pub const CHECK: Case<'static> = Case {
    name: "check of a log of no cells",
    words: &["check", "log"],
    text: "cells 0\npoints 0\nleaves 1\nunfinished 0\n",
    ..EMPTY
};

/// Ends the test with this message unless `is_so` holds.
pub fn holds<R: Abort>(rt: &R, is_so: bool, message: &str) {
    if !is_so {
        rt.panic(message)
    }
}

/// Runs the case.
pub fn run_case<R: Abort + Threads + Wait + Sync>(rt: &R, alloc: Global, case: &Case<'_>) -> Left {
    run_plan(rt, alloc, &case.plan())
}

/// Fails unless the run leaves what it should.
pub fn is_left<R: Abort + Threads + Wait + Sync>(rt: &R, alloc: Global, case: &Case<'_>) {
    let left = run_case(rt, alloc, case);
    holds(rt, case.is_left(&left), case.name);
}

/// Fails unless the run leaves what it should, and changes and syncs nothing.
pub fn is_untouched<R: Abort + Threads + Wait + Sync>(rt: &R, alloc: Global, case: &Case<'_>) {
    let left = run_case(rt, alloc, case);
    let is_untouched = left.disk.moments() == 0;
    holds(rt, is_untouched && case.is_left(&left), case.name);
}

/// The same for each of these runs.
pub fn each_is_untouched<R: Abort + Threads + Wait + Sync>(
    rt: &R,
    alloc: Global,
    cases: &[Case<'_>],
) {
    for case in cases {
        is_untouched(rt, alloc, case);
    }
}

/// Fails at the first run that doesn't leave what it should.
pub fn each_is_left<R: Abort + Threads + Wait + Sync>(rt: &R, alloc: Global, cases: &[Case<'_>]) {
    for case in cases {
        is_left(rt, alloc, case);
    }
}

/// The same for a run with each of these words.
pub fn each_words_are_left<R: Abort + Threads + Wait + Sync>(
    rt: &R,
    alloc: Global,
    case: &Case<'_>,
    all: &[&[&str]],
) {
    for words in all {
        is_left(rt, alloc, &Case { words, ..*case });
    }
}
