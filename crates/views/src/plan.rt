//! The plan of a measurement.
use std::io;
use std::rt::Clock;
use std::time::Instant;

/// How many objects there are, and what is measured.
#[derive(Clone, Copy)]
pub struct Plan {
    pub objects: u32,
    pub has_queries: bool,
    pub has_threads: bool,
    /// How often a short query is made. A longer one is made less often.
    pub repeats: u32,
    /// How many milliseconds threads read.
    pub millis: u64,
    pub tells_times: bool,
}

impl Plan {
    pub fn new() -> Plan {
        Plan {
            objects: 1_000,
            has_queries: true,
            has_threads: true,
            repeats: 100,
            millis: 20,
            tells_times: false,
        }
    }

    /// Changes the plan as a word says.
    pub fn take(&mut self, word: &str) {
        match word {
            "small" => self.grow(65_536),
            "large" => self.grow(1_000_000),
            "queries" => self.has_threads = false,
            "threads" => self.has_queries = false,
            "times" => self.tells_times = true,
            _ => {}
        }
    }

    fn grow(&mut self, objects: u32) {
        self.objects = objects;
        self.repeats = 20_000;
        self.millis = 2_000;
    }

    /// How often a query for `count` objects is made.
    pub fn repeats_of(&self, count: u32) -> u32 {
        (self.repeats / (count / 8).max(1)).max(1)
    }

    /// Prints how many nanoseconds each of so many steps took, if times are wanted.
    pub fn tell_time<R: Clock + Print>(
        &self,
        rt: &R,
        what: &str,
        begun: Option<Instant>,
        steps: u64,
    ) -> io::Result<()> {
        if !self.tells_times {
            return Ok(());
        }
        let tenths = nanos_since(rt, begun).saturating_mul(10) / u128::from(steps.max(1));
        println!(rt; "{what} {}.{} ns", tenths / 10, tenths % 10)
    }
}

fn nanos_since(rt: &impl Clock, begun: Option<Instant>) -> u128 {
    match begun.and_then(|begun| begun.elapsed(rt).ok()) {
        Some(took) => took.as_nanos(),
        None => 0,
    }
}
